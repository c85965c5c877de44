//! Whether operations meet their definitions.

ghost use Rattle.std.specs.Prelude.{◌≡◌, ◌<◌, ◌↔◌, Some, length, slice_get, IsTrue, IfErr, OnOk};
ghost use Rattle.std.specs.Option.{ForSome};
ghost use Rattle.attr_value.specs.Ids.{AreKnown};
ghost use Rattle.dialect_defs.specs.Operations.{Operation, MeetsDefinition};
ghost use Rattle.dialect_defs.specs.declared.definition.OpDef.{OpDef as Def};
ghost use Rattle.ir_store.specs.Named.{op_at};
ghost use Rattle.ir_store.specs.Numbering.{ops_in};
ghost use Rattle.native_predicate.specs.Lists.{tests, count};
ghost use Rattle.op_verifier.specs.Meets.{NamesDef, IsJudgeable, CanJudge, HasFronts};
ghost use Rattle.op_verifier.specs.Meets.{MeetsNamed, MeetsStored, AllMeet, IsFirstFault};
ghost use Rattle.op_verifier.specs.Seen.{HasIds, operation_seen};
ghost use Rattle.op_verifier.specs.Sound.{IsSoundOp, AreSoundOps};
ghost use Rattle.op_verifier.specs.Types.{ids_of};
ghost use Rattle.op_verifier.specs.Views.{IsKnownView, IsShown};

use crate::operands::Types;
use crate::view::{OpRegions, OpView};
use crate::wanted::Wanted;
use attr_uniquer::Uniquer;
use attr_value::ValueId;
use constraint_solver::solve;
use dialect_defs::OpDef;
use ir_store::{OpId, Store};
use native_predicate::Natives;

/// An operation, and the place in its text where it stands.
#[derive(Clone, Copy, Debug, PartialEq, Eq, Drop)]
pub struct OpPlace {
    pub op: OpId,
    pub place: u32,
}

/// Whether an operation meets a definition, whether or not it stands in a module. It takes no
/// memory.
///
/// Of the regions the numbers of blocks and the arguments of the first blocks alone are looked at.
pub fn meets_definition(def: &OpDef, natives: &Natives, u: &Uniquer, op: &OpView) -> bool
    requires def { IsSoundOp (length u.now) (count natives.now) def.now }
    requires op { IsKnownView (length u.now) op.now }
    ensures { (o : Operation) → IsShown u.now op.now o →
        (IsTrue result ↔ MeetsDefinition u.now (tests property natives.now) def.now o) }
{
    let mut wanted = Wanted::new(u, def.body.vars.as_slice().len());
    if !wanted.ask_parts(def, op) {
        return false;
    }
    let roots = wanted.roots();
    solve(u, natives, &def.body, roots.as_slice()).is_some()
}

/// Whether an operation of a module meets a definition, where its operands have these types.
fn judge(
    def: &OpDef,
    natives: &Natives,
    u: &Uniquer,
    store: &Store,
    op: OpId,
    types: &Types,
) -> bool
    requires def { IsSoundOp (length u.now) (count natives.now) def.now }
    requires ids { HasIds (length u.now) store.now }
    requires types { AreKnown (length u.now) (ids_of types.now) }
    requires op { op.0 < length (ops_in store.now) }
    ensures { ForSome (op_at store.now op) (λ x. IsTrue result
        ↔ MeetsDefinition u.now (tests property natives.now) def.now
        (operation_seen u.now (ids_of types.now) x)) }
{
    let row = store.op(op);
    let view = OpView {
        operands: *types,
        results: row.results.as_slice(),
        keys: row.keys.as_slice(),
        values: row.values.as_slice(),
        successors: row.successors.len(),
        regions: OpRegions::Stored(store, op),
    };
    meets_definition(def, natives, u, &view)
}

/// The definition that an operation names.
fn definition<'d>(defs: &'d [OpDef], store: &Store, op: OpId) -> &'d OpDef
    requires op { op.0 < length (ops_in store.now) }
    requires named { ForSome (op_at store.now op) (NamesDef (length defs.now)) }
    ensures { ForSome (op_at store.now op) (λ x.
        slice_get defs.now x.head.name.def ≡ Some result.now) }
{
    definition_at(defs, store.op(op).def)
}

/// The definition at a place.
fn definition_at(defs: &[OpDef], i: usize) -> &OpDef
    requires { i < length defs.now }
    ensures { slice_get defs.now i ≡ Some result.now }
{
    &defs[i]
}

/// Whether an operation of a module meets the definition that it names, where its operands have
/// these types. It takes no memory.
///
/// Of the regions the numbers of blocks and the arguments of the first blocks alone are looked at.
pub fn meets(
    defs: &[OpDef],
    natives: &Natives,
    u: &Uniquer,
    store: &Store,
    op: OpId,
    operands: &[ValueId],
) -> bool
    requires defs { AreSoundOps (length u.now) (count natives.now) defs.now }
    requires ids { HasIds (length u.now) store.now }
    requires op { op.0 < length (ops_in store.now) }
    requires named { ForSome (op_at store.now op) (NamesDef (length defs.now)) }
    requires count { ForSome (op_at store.now op)
        (λ x. length operands.now ≡ length x.head.operands) }
    requires operands { AreKnown (length u.now) operands.now }
    ensures meets { ForSome (op_at store.now op) (λ x. IsTrue result
        ↔ MeetsNamed u.now (tests property natives.now) defs.now operands.now x) }
    ensures fronts { ForSome (op_at store.now op) (λ x. (d : Def) (o : Operation)
        → slice_get defs.now x.head.name.def ≡ Some d
        → HasFronts o (operation_seen u.now operands.now x)
        → (IsTrue result ↔ MeetsDefinition u.now (tests property natives.now) d o)) }
{
    let def = definition(defs, store, op);
    judge(def, natives, u, store, op, &Types::Listed(operands))
}

/// The same with the types that the operands have in the module.
fn meets_stored(defs: &[OpDef], natives: &Natives, u: &Uniquer, store: &Store, op: OpId) -> bool
    requires defs { AreSoundOps (length u.now) (count natives.now) defs.now }
    requires ids { HasIds (length u.now) store.now }
    requires op { op.0 < length (ops_in store.now) }
    requires judgeable { ForSome (op_at store.now op)
        (IsJudgeable (length defs.now) (length u.now) store.now) }
    ensures { ForSome (op_at store.now op) (λ x. IsTrue result
        ↔ MeetsStored u.now (tests property natives.now) defs.now store.now x) }
{
    let def = definition(defs, store, op);
    let types = Types::Stored(store, store.op(op).operands.as_slice());
    judge(def, natives, u, store, op, &types)
}

/// The first operation of a module, in the order of its text, that doesn't meet the definition that
/// it names. The types of operands are those of the values that they name. It takes no memory.
pub fn verify(defs: &[OpDef], natives: &Natives, u: &Uniquer, store: &Store) -> Result<(), OpPlace>
    requires defs { AreSoundOps (length u.now) (count natives.now) defs.now }
    requires module { CanJudge (length defs.now) (length u.now) store.now }
    ensures ok { OnOk result (AllMeet u.now (tests property natives.now) defs.now store.now) }
    ensures err { IfErr result (λ at. IsFirstFault u.now (tests property natives.now) defs.now
        store.now at.op at.place) }
{
    for i in 0..store.op_count() {
        let op = OpId(i);
        if !meets_stored(defs, natives, u, store, op) {
            let place = store.op(op).place;
            return Err(OpPlace { op, place });
        }
    }
    Ok(())
}
