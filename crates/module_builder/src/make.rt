//! Rows, made of the parts of operations in ids and of what their names mean.

ghost use Rattle.std.specs.Prelude.{◌≡◌, ◌+◌, ◌<◌, ◌≤◌, ◌++◌, ◌∷◌, [], length, map, drop};
ghost use Rattle.std.specs.Prelude.{IfOk, OnOk};
ghost use Rattle.std.specs.Vec.Iter.{into_iter_items};
ghost use Rattle.generic_syntax.specs.declared.module_cst.FormCst.{out-FormCst};
ghost use Rattle.module_builder.specs.Built.{value_number};
ghost use Rattle.module_builder.specs.Fit.{uses_in, uses_of, successors_in, successors_of};
ghost use Rattle.module_builder.specs.Making.{MeanBelow, Made, CanMake, AllMade};
ghost use Rattle.module_faults.specs.Listed.{seen};
ghost use Rattle.module_faults.specs.Standings.{ops_of};

use crate::numbers::past;
use crate::row::Row;
use generic_syntax::{FormCst, OpCst};
use ir_store::OpRow;
use module_faults::{OpIds, Standing};
use smallvec::SmallVec;
use std::alloc::{AllocError, Global};
use std::vec;
use symbol_scopes::Uses;

/// Rows in the making, and what is left to make them of.
#[derive(Drop)]
pub struct Making {
    ids: vec::IntoIter<OpIds, Global>,
    rows: Vec<Row>,
    /// How many uses have been taken.
    uses: usize,
    /// How many successors have been taken.
    successors: usize,
}

/// The rows of all operations, in the order in which they stand. The values of definitions begin at
/// `firsts`.
pub(crate) fn make_rows(
    alloc: Global,
    standings: &[Standing<'_>],
    ids: Vec<OpIds>,
    uses: &Uses,
    firsts: &[usize],
) -> Result<Vec<Row>, AllocError>
    requires ids { length ids.items ≡ length (ops_of (map seen standings.now)) }
    requires uses { length uses.now.values ≡ length (uses_of (ops_of (map seen standings.now))) }
    requires successors { length uses.now.blocks
        ≡ length (successors_of (ops_of (map seen standings.now))) }
    requires defined { MeanBelow (length firsts.now) uses.now }
    ensures { IfOk result (λ rows. AllMade (ops_of (map seen standings.now)) ids.items rows.items
        uses.now firsts.now) }
{
    let mut making = Making {
        ids: ids.into_iter(),
        rows: Vec::new(alloc),
        uses: 0,
        successors: 0,
    };
    for standing in standings {
        making.pass(alloc, standing, uses, firsts)?;
    }
    Ok(making.rows)
}

impl Making {
    /// Makes the row of an operation, if one stands there.
    fn pass(
        &mut self,
        alloc: Global,
        standing: &Standing<'_>,
        uses: &Uses,
        firsts: &[usize],
    ) -> Result<(), AllocError>
        requires can { CanMake self.old (ops_of (seen standing.now ∷ [])) uses.now firsts.now }
        ensures { OnOk result
            (Made self.old self.new (ops_of (seen standing.now ∷ [])) uses.now firsts.now) }
    {
        match standing {
            Standing::Op { op, .. } => self.add(alloc, op, uses, firsts),
            Standing::Region { .. } => Ok(()),
            Standing::Block(_) => Ok(()),
        }
    }

    /// Makes the row of an operation.
    fn add(
        &mut self,
        alloc: Global,
        op: &OpCst,
        uses: &Uses,
        firsts: &[usize],
    ) -> Result<(), AllocError>
        requires can { CanMake self.old (op.now ∷ []) uses.now firsts.now }
        ensures { OnOk result (Made self.old self.new (op.now ∷ []) uses.now firsts.now) }
    {
        let uses_end = past(self.uses, use_count(&op.form))?;
        let successors_end = past(self.successors, successor_count(&op.form))?;
        let operands = operands_of(alloc, uses, firsts, self.uses, uses_end)?;
        let successors = successors_of(alloc, uses, self.successors, successors_end)?;
        let OpIds {
            def,
            results,
            keys,
            values,
            args,
            ..
        } = next_ids(&mut self.ids);
        let row = OpRow {
            def,
            place: op.place,
            operands,
            results,
            successors,
            keys,
            values,
        };
        self.rows.push(Row { row, args })?;
        self.uses = uses_end;
        self.successors = successors_end;
        Ok(())
    }
}

/// The parts of the next operation. It takes no memory.
fn next_ids(ids: &mut vec::IntoIter<OpIds, Global>) -> OpIds
    requires { 0 < length (into_iter_items ids.old) }
    ensures { into_iter_items ids.old ≡ result ∷ into_iter_items ids.new }
{
    match ids.next() {
        Some(ids) => ids,
        None => unreachable!(),
    }
}

/// How many uses a form shows. It takes no memory.
fn use_count(form: &FormCst) -> usize
    ensures { result ≡ length (uses_in (out-FormCst form.now)) }
{
    match form {
        FormCst::Generic(g) => g.operands.len(),
        FormCst::Custom(_) => 0,
    }
}

/// How many successors a form shows. It takes no memory.
fn successor_count(form: &FormCst) -> usize
    ensures { result ≡ length (successors_in (out-FormCst form.now)) }
{
    match form {
        FormCst::Generic(g) => g.successors.len(),
        FormCst::Custom(_) => 0,
    }
}

/// The numbers of the values that some uses mean.
fn operands_of(
    alloc: Global,
    uses: &Uses,
    firsts: &[usize],
    start: usize,
    end: usize,
) -> Result<SmallVec<usize, 4>, AllocError>
    requires order { start ≤ end }
    requires known { end ≤ length uses.now.values }
    requires defined { MeanBelow (length firsts.now) uses.now }
    ensures numbers { IfOk result (λ numbers.
        numbers.items ++ map (value_number firsts.now) (drop end uses.now.values)
        ≡ map (value_number firsts.now) (drop start uses.now.values)) }
    ensures count { IfOk result (λ numbers. start + length numbers.items ≡ end) }
{
    let mut numbers = SmallVec::new(alloc);
    for at in start..end {
        numbers.push(value_of(uses, firsts, at)?)?;
    }
    Ok(numbers)
}

/// The number of the value that a use means.
fn value_of(uses: &Uses, firsts: &[usize], at: usize) -> Result<usize, AllocError>
    requires known { at < length uses.now.values }
    requires defined { MeanBelow (length firsts.now) uses.now }
    ensures { IfOk result (λ number.
        map (value_number firsts.now) (drop at uses.now.values)
        ≡ number ∷ map (value_number firsts.now) (drop (at + 1) uses.now.values)) }
{
    match uses.value(at) {
        Some((definition, number)) => past(firsts[definition], number as usize),
        None => unreachable!(),
    }
}

/// The numbers of the blocks to which some successors lead.
fn successors_of(
    alloc: Global,
    uses: &Uses,
    start: usize,
    end: usize,
) -> Result<SmallVec<usize, 2>, AllocError>
    requires order { start ≤ end }
    requires known { end ≤ length uses.now.blocks }
    ensures numbers { IfOk result (λ numbers.
        numbers.items ++ drop end uses.now.blocks ≡ drop start uses.now.blocks) }
    ensures count { IfOk result (λ numbers. start + length numbers.items ≡ end) }
{
    let mut numbers = SmallVec::new(alloc);
    for at in start..end {
        numbers.push(block_of(uses, at))?;
    }
    Ok(numbers)
}

/// The number of the block to which a successor leads. It takes no memory.
fn block_of(uses: &Uses, at: usize) -> usize
    requires { at < length uses.now.blocks }
    ensures { drop at uses.now.blocks ≡ result ∷ drop (at + 1) uses.now.blocks }
{
    match uses.block(at) {
        Some(number) => number,
        None => unreachable!(),
    }
}
