//! Single names: uses, successors, results, arguments, labels and aliases.

ghost use Rattle.std.specs.Prelude.{◌≡◌, OnOk, IfOk};
ghost use Rattle.module_names.specs.ModuleNotes.{
  alias_noted,
  use_noted,
  successor_noted,
  size_noted,
  result_noted,
  argument_noted,
  label_noted,
};
ghost use Rattle.module_names.specs.Numbers.{pack_count};
ghost use Rattle.module_names.specs.Said.{Said, noted};

use crate::mentions::note_value;
use crate::number::{number_in, pack_size};
use generic_syntax::{AliasCst, ArgCst, NameCst, NumberCst, ResultCst, UseCst};
use std::alloc::AllocError;
use symbol_scopes::Scopes;

pub fn note_aliases(scopes: &mut Scopes, aliases: &[AliasCst]) -> Result<(), AllocError>
    ensures { OnOk result (Said scopes.old scopes.new (noted alias_noted aliases.now)) }
{
    for alias in aliases {
        note_value(scopes, &alias.value)?;
        scopes.define_alias(alias.is_type, alias.name.bytes(), alias.place)?;
    }
    Ok(())
}

pub fn note_uses(scopes: &mut Scopes, uses: &[UseCst]) -> Result<(), AllocError>
    ensures { OnOk result (Said scopes.old scopes.new (noted use_noted uses.now)) }
{
    for u in uses {
        note_use(scopes, u)?;
    }
    Ok(())
}

fn note_use(scopes: &mut Scopes, u: &UseCst) -> Result<(), AllocError>
    ensures { OnOk result (Said scopes.old scopes.new (use_noted u.now)) }
{
    match &u.number {
        Some(n) => {
            scopes.mention(
                u.name.bytes(),
                u.place,
                number_in(n.digits.bytes()),
                n.place,
            )?;
            Ok(())
        }
        None => {
            scopes.mention(u.name.bytes(), u.place, 0, u.place)?;
            Ok(())
        }
    }
}

pub fn note_successors(scopes: &mut Scopes, names: &[NameCst]) -> Result<(), AllocError>
    ensures { OnOk result (Said scopes.old scopes.new (noted successor_noted names.now)) }
{
    for s in names {
        note_successor(scopes, s)?;
    }
    Ok(())
}

pub fn note_successor(scopes: &mut Scopes, s: &NameCst) -> Result<(), AllocError>
    ensures { OnOk result (Said scopes.old scopes.new (successor_noted s.now)) }
{
    scopes.mention_block(s.name.bytes(), s.place)?;
    Ok(())
}

pub fn note_results(scopes: &mut Scopes, results: &[ResultCst]) -> Result<(), AllocError>
    ensures { OnOk result (Said scopes.old scopes.new (noted result_noted results.now)) }
{
    for r in results {
        let count = note_size(scopes, &r.pack)?;
        scopes.define(r.name.bytes(), r.place, count)?;
    }
    Ok(())
}

/// Notes the size of a pack where it is wrong, and gives how many values are defined: 0 then.
fn note_size(scopes: &mut Scopes, pack: &Option<NumberCst>) -> Result<u32, AllocError>
    ensures noted { OnOk result (Said scopes.old scopes.new (size_noted pack.now)) }
    ensures count { IfOk result (λ n. n ≡ pack_count pack.now) }
{
    match pack {
        Some(size) => match pack_size(size.digits.bytes()) {
            Some(count) => Ok(count),
            None => {
                scopes.note_pack(size.place)?;
                Ok(0)
            }
        },
        None => Ok(1),
    }
}

pub fn note_arguments(scopes: &mut Scopes, args: &[ArgCst]) -> Result<(), AllocError>
    ensures { OnOk result (Said scopes.old scopes.new (noted argument_noted args.now)) }
{
    for a in args {
        scopes.define(a.name.bytes(), a.place, 1)?;
        note_value(scopes, &a.ty)?;
    }
    Ok(())
}

/// Notes the label of the block with this number in its region.
pub fn note_label(
    scopes: &mut Scopes,
    label: &Option<NameCst>,
    block: usize,
) -> Result<(), AllocError>
    ensures { OnOk result (Said scopes.old scopes.new (label_noted label.now block)) }
{
    match label {
        Some(l) => scopes.define_block(l.name.bytes(), l.place, block),
        None => Ok(()),
    }
}
