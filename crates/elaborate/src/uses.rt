//! The types of uses.

ghost use Rattle.std.specs.Prelude.{◌≡◌, ◌≢◌, ◌≤◌, ◌<◌, ◌∷◌, [], length, map, drop, IfOk};
ghost use Rattle.std.specs.List.{AllZip, flat_map};
ghost use Rattle.std.specs.Option.{ForSome};
ghost use Rattle.attr_value.specs.Ids.{AreDistinct, AreKnown};
ghost use Rattle.elaborate.specs.Uses.{HasItsUses, HasOperands, IsWrongUse};
ghost use Rattle.first_fault.specs.Firsts.{IsFirst};
ghost use Rattle.generic_syntax.specs.declared.module_cst.FormCst.{out-FormCst};
ghost use Rattle.ir_store.specs.Modules.{types_in};
ghost use Rattle.ir_store.specs.Named.{op_at};
ghost use Rattle.ir_store.specs.Numbering.{ops_in};
ghost use Rattle.module_builder.specs.Fit.{uses_in, uses_of};
ghost use Rattle.module_faults.specs.declared.ids.OpIds.{OpIds};
ghost use Rattle.module_faults.specs.Listed.{seen};
ghost use Rattle.module_faults.specs.ModuleFaults.{operands_at};
ghost use Rattle.module_faults.specs.Standings.{ops_of};

use attr_uniquer::Uniquer;
use attr_value::ValueId;
use first_fault::{Fault, earlier};
use generic_syntax::{FormCst, UseCst};
use ir_store::{OpId, Store};
use module_faults::{OpIds, Standing, USE_TYPE};
use std::alloc::{AllocError, Global};

/// The types of all operands, one operation after the other.
pub(crate) fn shown_types(alloc: Global, ids: &[OpIds]) -> Result<Vec<ValueId>, AllocError>
    ensures { IfOk result (λ shown.
        shown.items ≡ flat_map (λ (x : OpIds). x.operands.items) ids.now) }
{
    let mut shown = Vec::new(alloc);
    for op in ids {
        shown.extend_from_slice(op.operands.as_slice())?;
    }
    Ok(shown)
}

/// Types that differ have different ids, where one is known. This does nothing: its clause is the
/// fact.
pub(crate) fn types_differ_by_ids(u: &Uniquer, types: &[ValueId])
    requires { AreKnown (length u.now) types.now }
    ensures { types.now ≢ [] → AreDistinct u.now }
{
    if let Some(id) = types.first() {
        let _same = u.same(*id, *id);
    }
}

/// The first use that is shown with another type than that of the value that it means, in a store
/// that was built of what stands. The types that uses are shown with come in the same order.
pub(crate) fn first_wrong_use(
    store: &Store,
    standings: &[Standing<'_>],
    shown: &[ValueId],
) -> Option<Fault>
    requires fit { AllZip HasItsUses (ops_of (map seen standings.now)) (ops_in store.now) }
    requires shown { length (uses_of (ops_of (map seen standings.now))) ≤ length shown.now }
    ensures { IsFirst (IsWrongUse (types_in store.now)
        (uses_of (ops_of (map seen standings.now))) shown.now (operands_at (ops_in store.now)))
        result }
{
    let mut first = None;
    let mut ops = 0;
    let mut uses = 0;
    for standing in standings {
        let Standing::Op { op, .. } = standing else {
            continue;
        };
        let types = from_place(shown, uses);
        first = earlier(first, first_of_form(store, OpId(ops), &op.form, types));
        ops += 1;
        uses += use_count(&op.form);
    }
    first
}

/// What is left of types from a place on. It takes no memory.
fn from_place(types: &[ValueId], at: usize) -> &[ValueId]
    requires { at ≤ length types.now }
    ensures { result.now ≡ drop at types.now }
{
    &types[at..]
}

/// How many uses a form shows. It takes no memory.
fn use_count(form: &FormCst) -> usize
    ensures { result ≡ length (uses_in (out-FormCst form.now)) }
{
    match form {
        FormCst::Generic(g) => g.operands.len(),
        FormCst::Custom(_) => 0,
    }
}

/// The first wrong use of a form, whose operation stands in the store.
fn first_of_form(store: &Store, op: OpId, form: &FormCst, shown: &[ValueId]) -> Option<Fault>
    requires there { op.0 < length (ops_in store.now) }
    requires fits { ForSome (op_at store.now op) (HasOperands (out-FormCst form.now)) }
    requires shown { length (uses_in (out-FormCst form.now)) ≤ length shown.now }
    ensures { ForSome (op_at store.now op) (λ site. IsFirst (IsWrongUse (types_in store.now)
        (uses_in (out-FormCst form.now)) shown.now site.head.operands) result) }
{
    match form {
        FormCst::Generic(g) => {
            let row = store.op(op);
            first_of_uses(store, g.operands.as_slice(), shown, row.operands.as_slice())
        }
        FormCst::Custom(_) => None,
    }
}

/// The first of some uses that is wrong, by the types and the numbers of values at their places.
fn first_of_uses(
    store: &Store,
    uses: &[UseCst],
    shown: &[ValueId],
    numbers: &[usize],
) -> Option<Fault>
    requires shown { length uses.now ≤ length shown.now }
    requires numbers { length uses.now ≤ length numbers.now }
    ensures { IsFirst (IsWrongUse (types_in store.now) uses.now shown.now numbers.now) result }
{
    let mut first = None;
    for (i, used) in uses.iter().enumerate() {
        first = earlier(first, use_fault(store, used, shown[i], numbers[i]));
    }
    first
}

/// The fault of a use that is shown with another type than the value of this number has.
fn use_fault(store: &Store, used: &UseCst, shown: ValueId, number: usize) -> Option<Fault>
    ensures { IsFirst (IsWrongUse (types_in store.now) (used.now ∷ []) (shown ∷ [])
        (number ∷ [])) result }
{
    if store.type_of(number) == Some(shown) {
        return None;
    }
    Some(Fault {
        place: used.place,
        code: USE_TYPE,
    })
}
