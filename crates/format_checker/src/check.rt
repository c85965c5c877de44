//! The judgement of formats.

ghost use Rattle.std.specs.Prelude.{◌≡◌, ◌⊎◌, Err, IfOk, None, Ok, OnOk};
ghost use Rattle.format_checker.specs.Accepted.{IsAccepted, IsNamed, IsReadable, IsRefused};

use crate::anchors::first_group_fault;
use crate::clash::first_clash;
use crate::complete::{first_untyped, shows_all};
use crate::named::named_elements;
use crate::shown::Shown;
use crate::stop::{FormatCode, FormatStop, NameStop};
use attr_value::List;
use dialect_defs::{Element, Format, OpDef, RawElement};
use std::alloc::Global;

/// Judges a format of an operation, whose text has this length.
///
/// The names of an accepted format are places. Any other format is refused by the first rule that
/// it breaks, at the first place where it does.
pub fn check_format(
    alloc: Global,
    op: &OpDef,
    raw: &[RawElement],
    length: u32,
) -> Result<Format, FormatStop>
    ensures ok { IfOk result (λ format. IsAccepted op.now raw.now format.elements) }
    ensures accepts { (elements : _) → IsAccepted op.now raw.now elements →
        (result ≡ Ok (record { elements = elements }))
        ⊎ (result ≡ Err FormatStop.OutOfMemory) }
    ensures readable { IfOk result (λ format. IsReadable op.now format.elements) }
    ensures refused { (code at look entry : _) →
        result ≡ Err (FormatStop.Refused code at look entry) →
        IsRefused op.now raw.now length code at look entry }
    ensures refuses { (code at look entry : _) →
        IsRefused op.now raw.now length code at look entry →
        (result ≡ Err (FormatStop.Refused code at look entry))
        ⊎ (result ≡ Err FormatStop.OutOfMemory) }
{
    judged(alloc, op, raw, length)
}

fn judged(alloc: Global, op: &OpDef, raw: &[RawElement], length: u32) -> Result<Format, FormatStop>
    ensures ok { IfOk result (λ format. IsAccepted op.now raw.now format.elements) }
    ensures refused { (code at look entry : _) →
        result ≡ Err (FormatStop.Refused code at look entry) →
        IsRefused op.now raw.now length code at look entry }
{
    let elements = resolve(alloc, op, raw, length)?;
    judge(alloc, op, raw, elements.as_slice(), length)?;
    Ok(Format { elements })
}

/// The elements of a format with names as places.
fn resolve(
    alloc: Global,
    op: &OpDef,
    raw: &[RawElement],
    length: u32,
) -> Result<List<Element>, FormatStop>
    ensures ok { IfOk result (IsNamed op.now raw.now) }
    ensures refused { (code at look entry : _) →
        result ≡ Err (FormatStop.Refused code at look entry) →
        IsRefused op.now raw.now length code at look entry }
{
    match named_elements(alloc, op, raw) {
        Ok(elements) => Ok(elements),
        Err(NameStop::Unknown(at)) => Err(refused(FormatCode::Unknown, at)),
        Err(NameStop::OutOfMemory) => Err(FormatStop::OutOfMemory),
    }
}

/// Judges elements with names as places by the rules behind that on names.
fn judge(
    alloc: Global,
    op: &OpDef,
    raw: &[RawElement],
    elements: &[Element],
    length: u32,
) -> Result<(), FormatStop>
    requires named { IsNamed op.now raw.now elements.now }
    ensures ok { OnOk result (IsAccepted op.now raw.now elements.now) }
    ensures refused { (code at look entry : _) →
        result ≡ Err (FormatStop.Refused code at look entry) →
        IsRefused op.now raw.now length code at look entry }
{
    let shown = Shown::of(alloc, op, elements)?;
    if !shows_all(op, elements, &shown) {
        return Err(refused(FormatCode::Missing, length));
    }
    if let Some(at) = shown.repeated {
        return Err(refused(FormatCode::Repeated, at));
    }
    if let Some(at) = first_group_fault(op, raw, elements) {
        return Err(refused(FormatCode::Group, at));
    }
    if let Some(clash) = first_clash(alloc, op, elements)? {
        return Err(FormatStop::Refused {
            code: FormatCode::Ambiguous,
            at: clash.at,
            look: Some(clash.look),
            entry: None,
        });
    }
    if let Some(entry) = first_untyped(op, elements, &shown) {
        return Err(FormatStop::Refused {
            code: FormatCode::NoType,
            at: length,
            look: None,
            entry: Some(entry),
        });
    }
    Ok(())
}

/// The refusal of a rule that tells nothing but a place.
fn refused(code: FormatCode, at: u32) -> FormatStop
    ensures { result ≡ FormatStop.Refused code at None None }
{
    FormatStop::Refused {
        code,
        at,
        look: None,
        entry: None,
    }
}
