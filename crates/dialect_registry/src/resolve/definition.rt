//! The definitions of files.

ghost use Rattle.std.specs.Prelude.{◌≡◌, ◌++◌, ◌∷◌, [], List, Err, IfOk, OnOk};
ghost use Rattle.constraint_solver.specs.Definitions.{AreSoundDefs};
ghost use Rattle.constraint_solver.specs.Grown.{Extends};
ghost use Rattle.native_predicate.specs.Lists.{count, names, tests};
ghost use Rattle.dialect_registry.specs.DefFaults.{dialects_of};
ghost use Rattle.dialect_registry.specs.FormatFaults as formats;
ghost use Rattle.dialect_registry.specs.Resolved as spec;
ghost use Rattle.dialect_registry.specs.Resolved.{IsOp, IsType, Located, located};
ghost use Rattle.dialect_registry.specs.Resolving.{HasOne, IsBadDef, IsBadDialect, IsBadFile};
ghost use Rattle.dialect_registry.specs.Resolving.{Names, Resolves};
ghost use Rattle.dialect_registry.specs.Scopes.{Finds};
ghost use Rattle.dialect_registry.specs.Targets.{World};

use crate::resolve::constraint::{Env, body, full_name};
use crate::resolve::entries::{attrs, entries, regions, successors};
use crate::resolve::names::BodyNames;
use crate::resolve::{ResolveStop, lists};
use attr_uniquer::Uniquer;
use attr_value::List;
use dialect_defs::{Body, OpDef, TypeDef};
use irdl_ops::{DefKind, RawDef, RawDefs, RawDialect};
use std::alloc::{AllocError, Global};

/// A type or an attribute of a dialect.
fn type_def(env: &Env, u: &mut Uniquer, own: &[u8], def: &RawDef) -> Result<TypeDef, ResolveStop>
    requires shapes { AreSoundDefs 0 (count env.now.natives.now) env.now.shapes.now }
    ensures later { Extends u.old u.new }
    ensures ok { IfOk result (λ t. (w : World) → Finds w.dialects env.now.targets.now →
        w.natives ≡ names title env.now.natives.now →
        IsType w (tests property env.now.natives.now) env.now.shapes.now u.new
        (located own.now def.now) t) }
    ensures bad { result ≡ Err ResolveStop.BadConstant →
        IsBadDef (tests property env.now.natives.now) env.now.shapes.now def.now }
{
    let statements = def.statements.as_slice();
    let known = BodyNames::of(env.alloc, statements)?;
    Ok(TypeDef {
        is_type: matches!(def.kind, DefKind::OfType),
        name: full_name(env.alloc, own, def.name.bytes())?,
        body: body(env, u, &known, own)?,
        params: entries(env.alloc, &known, lists::parameters_in(statements))?,
    })
}

/// An operation of a dialect with this body and no format.
fn op_of(
    alloc: Global,
    known: &BodyNames,
    own: &[u8],
    def: &RawDef,
    body: Body,
) -> Result<OpDef, AllocError>
    requires known { Names def.now.statements known.now }
    ensures { IfOk result (λ op. op ≡ formats.op_of (located own.now def.now) body) }
{
    let statements = def.statements.as_slice();
    Ok(OpDef {
        name: full_name(alloc, own, def.name.bytes())?,
        body,
        operands: entries(alloc, known, lists::operands_in(statements))?,
        results: entries(alloc, known, lists::results_in(statements))?,
        attrs: attrs(alloc, known, lists::attrs_in(statements))?,
        regions: regions(alloc, known, lists::regions_in(statements))?,
        successors: successors(alloc, lists::successors_in(statements))?,
        terminator: lists::is_terminator(statements),
        format: None,
    })
}

/// An operation of a dialect as far as its lists go.
pub fn op_shape(alloc: Global, own: &[u8], def: &RawDef) -> Result<OpDef, AllocError>
    ensures { IfOk result (λ op. op ≡ formats.op_shape (located own.now def.now)) }
{
    let known = BodyNames::of(alloc, def.statements.as_slice())?;
    let body = Body {
        vars: List::new(alloc),
    };
    op_of(alloc, &known, own, def, body)
}

/// An operation of a dialect, without its format.
fn op_def(env: &Env, u: &mut Uniquer, own: &[u8], def: &RawDef) -> Result<OpDef, ResolveStop>
    requires shapes { AreSoundDefs 0 (count env.now.natives.now) env.now.shapes.now }
    ensures later { Extends u.old u.new }
    ensures ok { IfOk result (λ o. (w : World) → Finds w.dialects env.now.targets.now →
        w.natives ≡ names title env.now.natives.now →
        IsOp w (tests property env.now.natives.now) env.now.shapes.now u.new
        (located own.now def.now) o) }
    ensures bad { result ≡ Err ResolveStop.BadConstant →
        IsBadDef (tests property env.now.natives.now) env.now.shapes.now def.now }
{
    let statements = def.statements.as_slice();
    let known = BodyNames::of(env.alloc, statements)?;
    let body = body(env, u, &known, own)?;
    Ok(op_of(env.alloc, &known, own, def, body)?)
}

/// The definitions of files, in the order of the text.
#[derive(Drop)]
pub struct Resolved {
    pub types: Vec<TypeDef>,
    pub ops: Vec<OpDef>,
}

/// Puts a definition at the end.
fn push<T: Drop>(list: &mut Vec<T>, item: T) -> Result<(), AllocError>
    ensures { OnOk result (list.new.items ≡ list.old.items ++ item ∷ []) }
{
    list.push(item)?;
    Ok(())
}

impl Resolved {
    /// Adds a definition of a dialect.
    fn add(
        &mut self,
        env: &Env,
        u: &mut Uniquer,
        own: &[u8],
        def: &RawDef,
    ) -> Result<(), ResolveStop>
        requires shapes { AreSoundDefs 0 (count env.now.natives.now) env.now.shapes.now }
        ensures later { Extends u.old u.new }
        ensures ok { OnOk result ((w : World) (ds : List Located) →
            Finds w.dialects env.now.targets.now → w.natives ≡ names title env.now.natives.now →
            Resolves w (tests property env.now.natives.now) env.now.shapes.now u.old ds
            self.old →
            Resolves w (tests property env.now.natives.now) env.now.shapes.now u.new
            (ds ++ located own.now def.now ∷ []) self.new) }
        ensures bad { result ≡ Err ResolveStop.BadConstant →
            IsBadDef (tests property env.now.natives.now) env.now.shapes.now def.now }
    {
        match def.kind {
            DefKind::OfOp => push(&mut self.ops, op_def(env, u, own, def)?)?,
            DefKind::OfType | DefKind::OfAttr => {
                push(&mut self.types, type_def(env, u, own, def)?)?
            }
        }
        Ok(())
    }

    /// Adds the definitions of a dialect.
    fn add_dialect(
        &mut self,
        env: &Env,
        u: &mut Uniquer,
        dialect: &RawDialect,
    ) -> Result<(), ResolveStop>
        requires shapes { AreSoundDefs 0 (count env.now.natives.now) env.now.shapes.now }
        ensures later { Extends u.old u.new }
        ensures ok { OnOk result ((w : World) (ds : List Located) →
            Finds w.dialects env.now.targets.now → w.natives ≡ names title env.now.natives.now →
            Resolves w (tests property env.now.natives.now) env.now.shapes.now u.old ds
            self.old →
            Resolves w (tests property env.now.natives.now) env.now.shapes.now u.new
            (ds ++ spec.located_of dialect.now) self.new) }
        ensures bad { result ≡ Err ResolveStop.BadConstant →
            IsBadDialect (tests property env.now.natives.now) env.now.shapes.now dialect.now }
    {
        let own = dialect.name.bytes();
        for def in dialect.defs.as_slice() {
            self.add(env, u, own, def)?;
        }
        Ok(())
    }

    /// Adds the definitions of a file.
    fn add_file(&mut self, env: &Env, u: &mut Uniquer, file: &RawDefs) -> Result<(), ResolveStop>
        requires shapes { AreSoundDefs 0 (count env.now.natives.now) env.now.shapes.now }
        ensures later { Extends u.old u.new }
        ensures ok { OnOk result ((w : World) (ds : List Located) →
            Finds w.dialects env.now.targets.now → w.natives ≡ names title env.now.natives.now →
            Resolves w (tests property env.now.natives.now) env.now.shapes.now u.old ds
            self.old →
            Resolves w (tests property env.now.natives.now) env.now.shapes.now u.new
            (ds ++ spec.located_in file.now.dialects) self.new) }
        ensures bad { result ≡ Err ResolveStop.BadConstant →
            IsBadFile (tests property env.now.natives.now) env.now.shapes.now file.now }
    {
        for dialect in file.dialects.as_slice() {
            self.add_dialect(env, u, dialect)?;
        }
        Ok(())
    }
}

/// The definitions of files, in the order of the text. Their values are interned, also where a
/// constant is bad or memory runs out.
pub fn resolve(env: &Env, u: &mut Uniquer, files: &[RawDefs]) -> Result<Resolved, ResolveStop>
    requires shapes { AreSoundDefs 0 (count env.now.natives.now) env.now.shapes.now }
    ensures later { Extends u.old u.new }
    ensures ok { IfOk result (λ r. (w : World) →
        Finds w.dialects env.now.targets.now → w.natives ≡ names title env.now.natives.now →
        Resolves w (tests property env.now.natives.now) env.now.shapes.now u.new
        (spec.located_in (dialects_of files.now)) r) }
    ensures bad { result ≡ Err ResolveStop.BadConstant →
        HasOne (IsBadFile (tests property env.now.natives.now) env.now.shapes.now) files.now }
{
    let mut resolved = Resolved {
        types: Vec::new(env.alloc),
        ops: Vec::new(env.alloc),
    };
    for file in files {
        resolved.add_file(env, u, file)?;
    }
    Ok(resolved)
}
