//! What definition files define.

ghost use Rattle.std.specs.Prelude.{◌≡◌, ◌<◌, ◌∷◌, [], length, IfErr, IfNone, IfOk, IfSome};
ghost use Rattle.attr_value.specs.Ids.{at};
ghost use Rattle.constraint_solver.specs.Definitions.{AreSoundDefs, IsOnlyDefinition};
ghost use Rattle.constraint_solver.specs.Grown.{Extends};
ghost use Rattle.native_predicate.specs.Lists.{count, tests};
ghost use Rattle.value_meaning.specs.AliasTable.{alias_values, AreGoodAliases};
ghost use Rattle.value_meaning.specs.Faults.{IsFault, IsNamed, Means};
ghost use Rattle.value_meaning.specs.Refusals.{RefusesValue};
ghost use Rattle.dialect_registry.specs.Loaded as spec;
ghost use Rattle.dialect_registry.specs.Registered.{place_of};

use crate::operations::Operations;
use attr_uniquer::Uniquer;
use attr_value::{BaseKind, List, Text, ValueId};
use dialect_defs::{
    AttrEntry, BaseRef, Body, Constraint, Element, ElementKind, Format, OpDef, RegionEntry,
    TypeDef, VarId,
};
use generic_syntax::ValueCst;
use native_predicate::Natives;
use std::alloc::{AllocError, Global};
use std::marker::Model;
use value_meaning::{Aliases, Definitions, ValueStop, value_in};

/// What definition files define, found by name in constant time: the operations, `builtin.module`
/// first and then in the order of the text, and the types and attributes, in the order of the text.
/// Constants in them are ids of a table of values.
#[derive(Drop)]
pub struct Registry {
    ops: Operations,
    types: Definitions,
}

impl Model for Registry {
    ghost use Rattle.std.specs.Coded.{codes};
    ghost use Rattle.dialect_defs.specs.contracts.definition.OpDef as op;
    ghost use Rattle.dialect_registry.specs.Registered.{Registered};

    ghost Value = { Registered };

    ghost coded = { Prim.hlevel (codes, op.the_row.coded) };

    ghost view = { λ r. record { ops = r.ops; types = r.types } };
}

impl Registry {
    /// The registry of these definitions.
    pub fn of(ops: Operations, types: Definitions) -> Registry
        ensures ops { result.ops ≡ ops }
        ensures types { result.types ≡ types }
    {
        Registry { ops, types }
    }

    /// The operations, in their order. It takes no memory.
    pub fn ops(&self) -> &[OpDef]
        ensures { result.now ≡ self.now.ops }
    {
        self.ops.as_slice()
    }

    /// The types and attributes, in their order. It takes no memory.
    pub fn types(&self) -> &[TypeDef]
        ensures { result.now ≡ self.now.types }
    {
        self.types.types()
    }

    /// The types and attributes with their index. It takes no memory.
    pub fn definitions(&self) -> &Definitions
        ensures { result.now ≡ self.now.types }
    {
        &self.types
    }

    /// The place of the operation of this full name. It takes no memory and constant time.
    pub fn op(&self, name: &[u8]) -> Option<usize>
        ensures { result ≡ place_of self.now.ops name.now }
    {
        self.ops.find(name)
    }

    /// The definition of this kind, type or attribute, and full name. `None` exactly where there is
    /// none. It takes no memory and constant time.
    pub fn ty(&self, is_type: bool, name: &Text) -> Option<&TypeDef>
        ensures some { IfSome result (λ d. IsOnlyDefinition self.now.types is_type name.now d.now) }
        ensures none { IfNone result (IsNamed self.now.types is_type name.now → ⊥) }
    {
        self.types.find(is_type, name)
    }

    /// The id of the value of a tree that stands by itself, or its first fault, as `value_in` says.
    pub fn value(
        &self,
        alloc: Global,
        natives: &Natives,
        u: &mut Uniquer,
        cst: &ValueCst,
        aliases: &Aliases,
    ) -> Result<ValueId, ValueStop>
        requires defs { AreSoundDefs (length u.old) (count natives.now) self.now.types }
        requires aliases { AreGoodAliases u.old (tests property natives.now) self.now.types
            aliases.now }
        ensures later { Extends u.old u.new }
        ensures known { IfOk result (λ id. id.0 < length u.new) }
        ensures ok { IfOk result (λ id. Means u.old (tests property natives.now) self.now.types
            (alias_values u.old aliases.now) cst.now (at u.new id.0)) }
        ensures refused { IfErr result (RefusesValue (IsFault u.old (tests property natives.now)
            self.now.types (alias_values u.old aliases.now) 1 cst.now)) }
    {
        value_in(alloc, u, &self.types, natives, cst, aliases)
    }
}

/// A list of one item.
fn list_of<T: Drop>(alloc: Global, item: T) -> Result<List<T>, AllocError>
    ensures { IfOk result (λ list. list ≡ item ∷ []) }
{
    let mut list = List::new(alloc);
    list.push(item)?;
    Ok(list)
}

/// How the operation that is always there is written:
/// ``(symbol($sym_name)^)? attr-dict-with-keyword $body``.
fn module_format(alloc: Global) -> Result<Format, AllocError>
    ensures { IfOk result (λ format. format ≡ spec.module_format) }
{
    let name = Element {
        at: 1,
        kind: ElementKind::SymbolName(0),
    };
    let mut elements = List::new(alloc);
    elements.push(Element {
        at: 0,
        kind: ElementKind::Group {
            first: list_of(alloc, name)?,
            otherwise: List::new(alloc),
            anchor: 0,
        },
    })?;
    elements.push(Element {
        at: 22,
        kind: ElementKind::DictKeyword,
    })?;
    elements.push(Element {
        at: 45,
        kind: ElementKind::Region(0),
    })?;
    Ok(Format { elements })
}

/// The operation that is always there.
pub fn module_op(alloc: Global) -> Result<OpDef, AllocError>
    ensures { IfOk result (λ op. op ≡ spec.module_op) }
{
    let sym_name = AttrEntry {
        name: Text::from_slice(alloc, b"sym_name")?,
        optional: true,
        unit: false,
        var: VarId(0),
    };
    let body = RegionEntry {
        name: Some(Text::from_slice(alloc, b"body")?),
        args: None,
        size: None,
    };
    let string = Constraint::Base(BaseRef::Builtin(BaseKind::StrAttr));
    Ok(OpDef {
        name: Text::from_slice(alloc, b"builtin.module")?,
        body: Body {
            vars: list_of(alloc, string)?,
        },
        operands: List::new(alloc),
        results: List::new(alloc),
        attrs: list_of(alloc, sym_name)?,
        regions: list_of(alloc, body)?,
        successors: List::new(alloc),
        terminator: false,
        format: Some(module_format(alloc)?),
    })
}
