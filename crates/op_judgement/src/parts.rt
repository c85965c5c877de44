//! The values of an operation in generic form.

ghost use Rattle.std.specs.Prelude.{List, IfOk};
ghost use Rattle.attr_value.specs.Values.{Value};
ghost use Rattle.constraint_solver.specs.Grown.{Extends};
ghost use Rattle.generic_syntax.specs.declared.module_cst.GenericCst.{out-GenericCst};
ghost use Rattle.op_judgement.specs.Entered.{AreEntered};
ghost use Rattle.op_judgement.specs.Found.{basis_of, AreArgsFound};
ghost use Rattle.op_judgement.specs.Grounds.{IsGround, IsReady, loaded_by};
ghost use Rattle.op_judgement.specs.Parts as spec;
ghost use Rattle.op_judgement.specs.Parts.{AreTypesFound, IsPartsOrFault};
ghost use Rattle.op_judgement.specs.Shown.{block_trees};
ghost use Rattle.value_meaning.specs.Meaning.{Aliases as Values};

use crate::args::Args;
use crate::entries::{Entries, by_key};
use crate::env::Env;
use crate::types::types;
use attr_uniquer::Uniquer;
use attr_value::{List as Items, Text, ValueId};
use first_fault::{Fault, earlier};
use generic_syntax::GenericCst;
use smallvec::SmallVec;
use std::alloc::AllocError;

/// What the generic form of an operation shows, with types and attributes as ids.
#[derive(Drop)]
pub struct Parts {
    pub operands: SmallVec<ValueId, 4>,
    pub results: SmallVec<ValueId, 2>,
    /// The keys of its attributes, ascending, and the value of each.
    pub keys: Items<Text>,
    pub values: Items<ValueId>,
    /// The types of the arguments of each block, in the order of the text.
    pub args: Items<Items<ValueId>>,
}

/// The types of operands and of results, and the first fault of their trees. Where there is one,
/// types are missing.
#[derive(Drop)]
struct Types {
    operands: SmallVec<ValueId, 4>,
    results: SmallVec<ValueId, 2>,
    first: Option<Fault>,
}

/// Those of the generic form.
fn types_of(env: &Env, u: &mut Uniquer, form: &GenericCst) -> Result<Types, AllocError>
    requires ready { IsReady (basis_of property env.now) u.old }
    ensures later { Extends u.old u.new }
    ensures found { IfOk result (λ types. (old : List Value) (al : Values) →
        IsGround (basis_of property env.now) old al u.old →
        AreTypesFound (loaded_by (basis_of property env.now) old) al form.now u.new types) }
{
    let (operands, in_operands) = types(env, u, form.inputs.as_slice())?;
    let (results, in_results) = types(env, u, form.outputs.as_slice())?;
    Ok(Types {
        operands,
        results,
        first: earlier(in_operands, in_results),
    })
}

/// The entries of the properties and of the dictionary of the generic form.
fn entries_of<'a>(
    env: &Env,
    u: &mut Uniquer,
    form: &'a GenericCst,
) -> Result<Entries<'a>, AllocError>
    requires ready { IsReady (basis_of property env.now) u.old }
    ensures later { Extends u.old u.new }
    ensures found { IfOk result (λ entries. (old : List Value) (al : Values) →
        IsGround (basis_of property env.now) old al u.old →
        AreEntered (loaded_by (basis_of property env.now) old) al (spec.entries_of form.now) u.new
        entries) }
{
    let mut entries = Entries::new(env.alloc);
    entries.add_all(env, u, form.props.as_slice())?;
    entries.add_all(env, u, form.attrs.as_slice())?;
    Ok(entries)
}

/// The types of the arguments of the blocks of the generic form.
fn args_of(env: &Env, u: &mut Uniquer, form: &GenericCst) -> Result<Args, AllocError>
    requires ready { IsReady (basis_of property env.now) u.old }
    ensures later { Extends u.old u.new }
    ensures found { IfOk result (λ args. (old : List Value) (al : Values) →
        IsGround (basis_of property env.now) old al u.old →
        AreArgsFound (loaded_by (basis_of property env.now) old) al
        (block_trees (out-GenericCst form.now).regions) u.new args) }
{
    let mut args = Args::new(env.alloc);
    args.add_regions(env, u, form.regions.as_slice())?;
    Ok(args)
}

/// The values that the generic form of an operation shows, or their first fault.
pub fn parts_of(
    env: &Env,
    u: &mut Uniquer,
    form: &GenericCst,
) -> Result<Result<Parts, Fault>, AllocError>
    requires ready { IsReady (basis_of property env.now) u.old }
    ensures later { Extends u.old u.new }
    ensures found { IfOk result (λ found. (old : List Value) (al : Values) →
        IsGround (basis_of property env.now) old al u.old →
        IsPartsOrFault (loaded_by (basis_of property env.now) old) al form.now u.new found) }
{
    let entries = entries_of(env, u, form)?;
    let args = args_of(env, u, form)?;
    let types = types_of(env, u, form)?;
    let others = earlier(entries.first, args.first);
    if let Some(fault) = earlier(types.first, others) {
        return Ok(Err(fault));
    }
    let (keys, values) = by_key(env.alloc, entries.pairs)?;
    Ok(Ok(Parts {
        operands: types.operands,
        results: types.results,
        keys,
        values,
        args: args.types,
    }))
}
