//! The formats of operations, read and judged.

ghost use Rattle.std.specs.Prelude.{◌≡◌, ◌≤◌, ◌++◌, ◌∷◌, [], IfErr, IfOk, OnOk, length};
ghost use Rattle.std.specs.List.{flat_map};
ghost use Rattle.dialect_registry.specs.DefFaults.{dialects_of};
ghost use Rattle.dialect_registry.specs.FormatFaults as spec;
ghost use Rattle.dialect_registry.specs.FormatFaults.{HasFormat, IsFirstFault, IsFirstRefused};
ghost use Rattle.dialect_registry.specs.FormatFaults.{IsFormatFault, IsFormatOf, IsTextFault, ops_in};
ghost use Rattle.dialect_registry.specs.Formatting.{Adds, InFile, IsTold, def_ops, dialect_ops};
ghost use Rattle.dialect_registry.specs.Refusals.{Refuses};
ghost use Rattle.dialect_registry.specs.Resolved.{AreEach, located};
ghost use Rattle.format_reader.specs.Formats.{IsFormat};
ghost use Rattle.ir_lexer.specs.declared.lexer.TheConstants.{TEXT_LIMIT};

use crate::code::DefCode;
use crate::loading::DefStop;
use crate::refusal::DefRefusal;
use crate::resolve::{format_in, op_shape};
use attr_value::List;
use dialect_defs::{Format, OpDef, RawElement};
use format_checker::{FormatCode, FormatStop, check_format};
use format_reader::{FormatAt, read_format};
use ir_lexer::TEXT_LIMIT;
use irdl_ops::{DefKind, RawDef, RawDefs, RawDialect, RawText};
use std::alloc::{AllocError, Global};

/// The formats of the operations of some files, in their order; or the first that is refused.
pub fn read_formats(alloc: Global, files: &[RawDefs]) -> Result<Vec<Option<Format>>, DefStop>
    ensures ok { IfOk result (λ formats.
        AreEach HasFormat (ops_in (dialects_of files.now)) formats.items) }
    ensures refused { IfErr result (Refuses (IsFirstRefused files.now)) }
{
    let mut formats = Vec::new(alloc);
    for (number, file) in files.iter().enumerate() {
        add_file(alloc, &mut formats, number, file)?;
    }
    Ok(formats)
}

/// Adds the formats of the file with this number.
fn add_file(
    alloc: Global,
    formats: &mut Vec<Option<Format>>,
    number: usize,
    file: &RawDefs,
) -> Result<(), DefStop>
    ensures ok { OnOk result (Adds (flat_map dialect_ops file.now.dialects) formats.old.items
        formats.new.items) }
    ensures refused { IfErr result (Refuses (InFile number
        (IsFirstFault (flat_map dialect_ops file.now.dialects)))) }
{
    for dialect in file.dialects.as_slice() {
        add_dialect(alloc, formats, number, dialect)?;
    }
    Ok(())
}

/// Adds those of a dialect.
fn add_dialect(
    alloc: Global,
    formats: &mut Vec<Option<Format>>,
    number: usize,
    dialect: &RawDialect,
) -> Result<(), DefStop>
    ensures ok { OnOk result (Adds (dialect_ops dialect.now) formats.old.items
        formats.new.items) }
    ensures refused { IfErr result (Refuses (InFile number
        (IsFirstFault (dialect_ops dialect.now)))) }
{
    let own = dialect.name.bytes();
    for def in dialect.defs.as_slice() {
        add_def(alloc, formats, number, own, def)?;
    }
    Ok(())
}

/// Puts a format at the end.
fn push(formats: &mut Vec<Option<Format>>, format: Option<Format>) -> Result<(), AllocError>
    ensures { OnOk result (formats.new.items ≡ formats.old.items ++ format ∷ []) }
{
    formats.push(format)?;
    Ok(())
}

/// Adds that of a definition, if it is an operation.
fn add_def(
    alloc: Global,
    formats: &mut Vec<Option<Format>>,
    number: usize,
    own: &[u8],
    def: &RawDef,
) -> Result<(), DefStop>
    ensures ok { OnOk result (Adds (def_ops own.now def.now) formats.old.items
        formats.new.items) }
    ensures refused { IfErr result (Refuses (InFile number
        (IsFirstFault (def_ops own.now def.now)))) }
{
    match def.kind {
        DefKind::OfOp => push(formats, op_format(alloc, number, own, def)?)?,
        DefKind::OfType | DefKind::OfAttr => {}
    }
    Ok(())
}

/// The format of an operation of a dialect, where it has one.
fn op_format(
    alloc: Global,
    number: usize,
    own: &[u8],
    def: &RawDef,
) -> Result<Option<Format>, DefStop>
    ensures ok { IfOk result (HasFormat (located own.now def.now)) }
    ensures refused { IfErr result (Refuses (InFile number
        (IsFormatFault (located own.now def.now)))) }
{
    let Some(text) = format_in(def.statements.as_slice()) else {
        return Ok(None);
    };
    let op = op_shape(alloc, own, def)?;
    Ok(Some(said_format(alloc, number, &op, text)?))
}

/// The format of an operation that a format string says.
fn said_format(alloc: Global, number: usize, op: &OpDef, text: &RawText) -> Result<Format, DefStop>
    ensures ok { IfOk result (IsFormatOf op.now text.now.text) }
    ensures refused { IfErr result (Refuses (InFile number (λ r.
        (r.place ≡ text.now.place) × IsTextFault op.now text.now.text r))) }
{
    let bytes = text.text.bytes();
    if bytes.len() > TEXT_LIMIT {
        return Err(DefStop::OutOfMemory);
    }
    let raw = text_elements(alloc, number, text.place, bytes)?;
    judged_format(alloc, number, op, text.place, bytes, &raw)
}

/// The elements that a format string spells, which stands at this place of the file.
fn text_elements(
    alloc: Global,
    file: usize,
    place: u32,
    text: &[u8],
) -> Result<List<RawElement>, DefStop>
    requires short { length text.now ≤ TEXT_LIMIT }
    ensures ok { IfOk result (IsFormat text.now) }
    ensures refused { (op : _) → IfErr result (Refuses (InFile file (λ r.
        (r.place ≡ place) × IsTextFault op text.now r))) }
{
    match read_format(alloc, text) {
        Ok(raw) => Ok(raw),
        Err(FormatAt::At(at)) => Err(DefStop::Refused(DefRefusal {
            file,
            place,
            code: DefCode::FormatSyntax.number(),
            at,
            look: None,
            entry: None,
        })),
        Err(FormatAt::OutOfMemory) => Err(DefStop::OutOfMemory),
    }
}

/// The rule of definition files that a format breaks.
fn rule_of(code: FormatCode) -> DefCode
    ensures { result ≡ spec.rule_of code }
{
    match code {
        FormatCode::Unknown => DefCode::FormatUnknown,
        FormatCode::Missing => DefCode::FormatMissing,
        FormatCode::Repeated => DefCode::FormatRepeated,
        FormatCode::Group => DefCode::FormatGroup,
        FormatCode::Ambiguous => DefCode::FormatAmbiguous,
        FormatCode::NoType => DefCode::FormatNoType,
    }
}

/// What is told of a format that isn't accepted, whose string stands at this place of the file.
fn told_stop(file: usize, place: u32, stop: FormatStop) -> DefStop
    ensures { IsTold file place stop result }
{
    match stop {
        FormatStop::Refused {
            code,
            at,
            look,
            entry,
        } => {
            let code = rule_of(code).number();
            DefStop::Refused(DefRefusal {
                file,
                place,
                code,
                at,
                look,
                entry,
            })
        }
        FormatStop::OutOfMemory => DefStop::OutOfMemory,
    }
}

/// The length of a text that isn't longer than the limit.
fn length_of(text: &[u8]) -> u32
    requires short { length text.now ≤ TEXT_LIMIT }
    ensures { result ≡ length text.now }
{
    text.len() as u32
}

/// The format of an operation that a format string with these elements says.
fn judged_format(
    alloc: Global,
    file: usize,
    op: &OpDef,
    place: u32,
    text: &[u8],
    raw: &List<RawElement>,
) -> Result<Format, DefStop>
    requires short { length text.now ≤ TEXT_LIMIT }
    requires read { IsFormat text.now raw.now }
    ensures ok { IfOk result (IsFormatOf op.now text.now) }
    ensures refused { IfErr result (Refuses (InFile file (λ r.
        (r.place ≡ place) × IsTextFault op.now text.now r))) }
{
    match check_format(alloc, op, raw.as_slice(), length_of(text)) {
        Ok(format) => Ok(format),
        Err(stop) => Err(told_stop(file, place, stop)),
    }
}
