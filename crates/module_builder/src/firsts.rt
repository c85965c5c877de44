//! The numbers of the values that names define.

ghost use Rattle.std.specs.Prelude.{◌≡◌, ◌+◌, ◌<◌, ◌≤◌, ◌^◌, ◌++◌, [], ◌∷◌, length, map};
ghost use Rattle.std.specs.Prelude.{IfOk, OnOk};
ghost use Rattle.std.specs.List.{range_with_len};
ghost use Rattle.module_builder.specs.Firsts.{firsts_of, result_count, Numbered};
ghost use Rattle.module_faults.specs.Listed.{seen};
ghost use Rattle.module_faults.specs.Shape.{result_firsts};
ghost use Rattle.module_faults.specs.Standings.{ops_of};

use crate::numbers::{past, size_of};
use generic_syntax::ResultCst;
use module_faults::{OpIds, Standing};
use std::alloc::{AllocError, Global};

/// The numbers of values, in the making.
#[derive(Drop)]
pub struct Numbering {
    /// The first value of each definition so far.
    firsts: Vec<usize>,
    /// The number of the next value.
    next: usize,
    /// How many operations have been passed.
    ops: usize,
}

/// The number of the first value of each definition of a name, where results and arguments of
/// blocks take the next numbers as they stand.
pub(crate) fn first_values(
    alloc: Global,
    standings: &[Standing<'_>],
    ids: &[OpIds],
) -> Result<Vec<usize>, AllocError>
    requires { length (ops_of (map seen standings.now)) ≤ length ids.now }
    ensures { IfOk result (λ firsts.
        firsts.items ≡ firsts_of 0 (map seen standings.now) (map result_count ids.now)) }
{
    let mut numbering = Numbering {
        firsts: Vec::new(alloc),
        next: 0,
        ops: 0,
    };
    for standing in standings {
        numbering.pass(standing, ids)?;
    }
    Ok(numbering.firsts)
}

impl Numbering {
    /// Numbers the values that stand there.
    fn pass(&mut self, standing: &Standing<'_>, ids: &[OpIds]) -> Result<(), AllocError>
        requires { self.old.ops + length (ops_of (seen standing.now ∷ [])) ≤ length ids.now }
        ensures { OnOk result
            (Numbered self.old self.new (seen standing.now ∷ []) (map result_count ids.now)) }
    {
        match standing {
            Standing::Op { op, .. } => {
                self.pass_results(op.results.as_slice(), ids[self.ops].results.len())
            }
            Standing::Region { .. } => Ok(()),
            Standing::Block(block) => self.pass_args(block.args.len()),
        }
    }

    /// Numbers the results of an operation, which has so many.
    fn pass_results(&mut self, names: &[ResultCst], count: usize) -> Result<(), AllocError>
        requires { self.old.ops + 1 < 2 ^ 64 }
        ensures firsts { OnOk result
            (self.new.firsts.items
            ≡ self.old.firsts.items ++ result_firsts self.old.next names.now) }
        ensures next { OnOk result (self.new.next ≡ self.old.next + count) }
        ensures ops { OnOk result (self.new.ops ≡ self.old.ops + 1) }
    {
        let mut first = self.next;
        for name in names {
            self.firsts.push(first)?;
            first = past(first, size_of(name) as usize)?;
        }
        self.next = past(self.next, count)?;
        self.ops += 1;
        Ok(())
    }

    /// Numbers so many arguments of a block.
    fn pass_args(&mut self, count: usize) -> Result<(), AllocError>
        ensures firsts { OnOk result
            (self.new.firsts.items ≡ self.old.firsts.items ++ range_with_len self.old.next count) }
        ensures next { OnOk result (self.new.next ≡ self.old.next + count) }
        ensures ops { OnOk result (self.new.ops ≡ self.old.ops) }
    {
        for _ in 0..count {
            self.firsts.push(self.next)?;
            self.next = past(self.next, 1)?;
        }
        Ok(())
    }
}
