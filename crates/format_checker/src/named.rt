//! A format with names as places.

ghost use Rattle.std.specs.Prelude.{◌≡◌, Ok, Err, IfOk};
ghost use Rattle.format_checker.specs.Named as spec;
ghost use Rattle.format_checker.specs.Named.{raw_form_of};

use crate::stop::NameStop;
use attr_value::{List, Text};
use dialect_defs::{
    AttrEntry, Element, ElementKind, Entry, OpDef, RawArg, RawElement, RawKind, RawName,
    RegionEntry, TypeArg,
};
use format_reader::is_bare_id;
use ir_lexer::Class;
use std::alloc::Global;

// ---- names

/// Whether it has this name.
fn has_name(own: &Option<Text>, name: &[u8]) -> bool
    ensures { result ≡ spec.has_name name.now own.now }
{
    match own {
        Some(own) => own.bytes() == name,
        None => false,
    }
}

/// The number of the first entry of this name.
fn entry_named(entries: &[Entry], name: &[u8]) -> Option<usize>
    ensures { result ≡ spec.entry_named entries.now name.now }
{
    entries.iter().position(|entry| has_name(&entry.name, name))
}

fn attr_named(attrs: &[AttrEntry], name: &[u8]) -> Option<usize>
    ensures { result ≡ spec.attr_named attrs.now name.now }
{
    attrs.iter().position(|attr| attr.name.bytes() == name)
}

fn region_named(regions: &[RegionEntry], name: &[u8]) -> Option<usize>
    ensures { result ≡ spec.region_named regions.now name.now }
{
    regions
        .iter()
        .position(|region| has_name(&region.name, name))
}

fn successor_named(successors: &[Text], name: &[u8]) -> Option<usize>
    ensures { result ≡ spec.successor_named successors.now name.now }
{
    successors.iter().position(|own| own.bytes() == name)
}

/// What a variable by itself shows.
fn bare(op: &OpDef, at: u32, name: &[u8]) -> Result<ElementKind, u32>
    ensures { result ≡ spec.bare op.now at name.now }
{
    if let Some(number) = entry_named(op.operands.as_slice(), name) {
        return Ok(ElementKind::Operand(number));
    }
    if let Some(number) = attr_named(op.attrs.as_slice(), name) {
        return Ok(ElementKind::Attr(number));
    }
    if let Some(number) = region_named(op.regions.as_slice(), name) {
        return Ok(ElementKind::Region(number));
    }
    match successor_named(op.successors.as_slice(), name) {
        Some(number) => Ok(ElementKind::Successor(number)),
        None => Err(at),
    }
}

/// The number of an attribute.
fn attr_of(op: &OpDef, name: &RawName) -> Result<usize, u32>
    ensures { result ≡ spec.attr_of op.now name.now }
{
    match attr_named(op.attrs.as_slice(), name.name.bytes()) {
        Some(number) => Ok(number),
        None => Err(name.at),
    }
}

fn operand_of(op: &OpDef, name: &RawName) -> Result<TypeArg, u32>
    ensures { result ≡ spec.operand_of op.now name.now }
{
    match entry_named(op.operands.as_slice(), name.name.bytes()) {
        Some(number) => Ok(TypeArg::Operand(number)),
        None => Err(name.at),
    }
}

fn result_of(op: &OpDef, name: &RawName) -> Result<TypeArg, u32>
    ensures { result ≡ spec.result_of op.now name.now }
{
    match entry_named(op.results.as_slice(), name.name.bytes()) {
        Some(number) => Ok(TypeArg::Result(number)),
        None => Err(name.at),
    }
}

/// What `type` speaks of.
fn either_side(op: &OpDef, arg: &RawArg) -> Result<TypeArg, u32>
    ensures { result ≡ spec.either_side op.now arg.now }
{
    match arg {
        RawArg::Variable(name) => match entry_named(op.operands.as_slice(), name.name.bytes()) {
            Some(number) => Ok(TypeArg::Operand(number)),
            None => result_of(op, name),
        },
        RawArg::AllOperands(_) => Ok(TypeArg::AllOperands),
        RawArg::AllResults(_) => Ok(TypeArg::AllResults),
    }
}

/// What `functional-type` speaks of first.
fn operand_side(op: &OpDef, arg: &RawArg) -> Result<TypeArg, u32>
    ensures { result ≡ spec.operand_side op.now arg.now }
{
    match arg {
        RawArg::Variable(name) => operand_of(op, name),
        RawArg::AllOperands(_) => Ok(TypeArg::AllOperands),
        RawArg::AllResults(at) => Err(*at),
    }
}

/// What `functional-type` speaks of then.
fn result_side(op: &OpDef, arg: &RawArg) -> Result<TypeArg, u32>
    ensures { result ≡ spec.result_side op.now arg.now }
{
    match arg {
        RawArg::Variable(name) => result_of(op, name),
        RawArg::AllOperands(at) => Err(*at),
        RawArg::AllResults(_) => Ok(TypeArg::AllResults),
    }
}

// ---- literals

/// Whether a literal may be this sign.
fn is_literal_sign(class: Class) -> bool
    ensures { result ≡ spec.is_literal_sign class }
{
    matches!(
        class,
        Class::Colon
            | Class::Comma
            | Class::Equal
            | Class::Less
            | Class::Greater
            | Class::LParen
            | Class::RParen
            | Class::LBrace
            | Class::RBrace
            | Class::LSquare
            | Class::RSquare
            | Class::Arrow
            | Class::Question
            | Class::Plus
            | Class::Star
    )
}

fn sign(at: u32, class: Class) -> Result<ElementKind, u32>
    ensures { result ≡ spec.sign at class }
{
    if is_literal_sign(class) {
        Ok(ElementKind::Punct(class))
    } else {
        Err(at)
    }
}

fn word(alloc: Global, at: u32, text: &[u8]) -> Result<ElementKind, NameStop>
    ensures ok { IfOk result (λ k. spec.word at text.now ≡ Ok k) }
    ensures unknown { (place : _) → result ≡ Err (NameStop.Unknown place)
        → spec.word at text.now ≡ Err place }
{
    if !is_bare_id(text) {
        return Err(NameStop::Unknown(at));
    }
    Ok(ElementKind::Word(Text::from_slice(alloc, text)?))
}

// ---- elements

/// What an element shows that is no word.
fn shown_kind(op: &OpDef, at: u32, raw: &RawKind) -> Result<ElementKind, u32>
    ensures { result ≡ spec.shown_kind op.now at (raw_form_of raw.now) }
{
    match raw {
        RawKind::Punct(class) => sign(at, *class),
        RawKind::Space => Ok(ElementKind::Space),
        RawKind::Newline => Ok(ElementKind::Newline),
        RawKind::Empty => Ok(ElementKind::Empty),
        RawKind::Variable(name) => bare(op, at, name.bytes()),
        RawKind::Qualified(name) => Ok(ElementKind::Attr(attr_of(op, name)?)),
        RawKind::SymbolName(name) => Ok(ElementKind::SymbolName(attr_of(op, name)?)),
        RawKind::IntText { variable, kind } => Ok(ElementKind::IntText {
            attr: attr_of(op, variable)?,
            kind: *kind,
        }),
        RawKind::Types(arg) => Ok(ElementKind::Types(either_side(op, arg)?)),
        RawKind::Functional { inputs, outputs } => Ok(ElementKind::Functional {
            inputs: operand_side(op, inputs)?,
            outputs: result_side(op, outputs)?,
        }),
        RawKind::Dict => Ok(ElementKind::Dict),
        RawKind::DictKeyword => Ok(ElementKind::DictKeyword),
        RawKind::Word(_) => Err(at),
        RawKind::Group { .. } => Err(at),
    }
}

/// What an element shows that is no group.
fn item_kind(alloc: Global, op: &OpDef, at: u32, raw: &RawKind) -> Result<ElementKind, NameStop>
    ensures ok { IfOk result (λ k. spec.item_kind op.now at (raw_form_of raw.now) ≡ Ok k) }
    ensures unknown { (place : _) → result ≡ Err (NameStop.Unknown place)
        → spec.item_kind op.now at (raw_form_of raw.now) ≡ Err place }
{
    match raw {
        RawKind::Word(text) => word(alloc, at, text.bytes()),
        raw => match shown_kind(op, at, raw) {
            Ok(kind) => Ok(kind),
            Err(place) => Err(NameStop::Unknown(place)),
        },
    }
}

fn item(alloc: Global, op: &OpDef, raw: &RawElement) -> Result<Element, NameStop>
    ensures ok { IfOk result (λ e. spec.named_item op.now raw.now ≡ Ok e) }
    ensures unknown { (place : _) → result ≡ Err (NameStop.Unknown place)
        → spec.named_item op.now raw.now ≡ Err place }
{
    Ok(Element {
        at: raw.at,
        kind: item_kind(alloc, op, raw.at, &raw.kind)?,
    })
}

fn items(alloc: Global, op: &OpDef, raw: &[RawElement]) -> Result<List<Element>, NameStop>
    ensures ok { IfOk result (λ es. spec.named_items op.now raw.now ≡ Ok es) }
    ensures unknown { (place : _) → result ≡ Err (NameStop.Unknown place)
        → spec.named_items op.now raw.now ≡ Err place }
{
    let mut found = List::new(alloc);
    let mut at = 0;
    while at < raw.len() {
        found.push(item(alloc, op, &raw[at])?)?;
        at += 1;
    }
    found.trim();
    Ok(found)
}

/// The place of the first mark of an anchor; the length where there is none.
fn anchor_in(raw: &[RawElement]) -> usize
    ensures { result ≡ spec.anchor_in raw.now }
{
    let mut at = 0;
    while at < raw.len() && !raw[at].anchor {
        at += 1;
    }
    at
}

fn element_kind(alloc: Global, op: &OpDef, raw: &RawElement) -> Result<ElementKind, NameStop>
    ensures ok { IfOk result (λ k. spec.named_kind op.now raw.now ≡ Ok k) }
    ensures unknown { (place : _) → result ≡ Err (NameStop.Unknown place)
        → spec.named_kind op.now raw.now ≡ Err place }
{
    match &raw.kind {
        RawKind::Group { first, otherwise } => Ok(ElementKind::Group {
            first: items(alloc, op, first.as_slice())?,
            otherwise: items(alloc, op, otherwise.as_slice())?,
            anchor: anchor_in(first.as_slice()),
        }),
        kind => item_kind(alloc, op, raw.at, kind),
    }
}

fn element(alloc: Global, op: &OpDef, raw: &RawElement) -> Result<Element, NameStop>
    ensures ok { IfOk result (λ e. spec.named_element op.now raw.now ≡ Ok e) }
    ensures unknown { (place : _) → result ≡ Err (NameStop.Unknown place)
        → spec.named_element op.now raw.now ≡ Err place }
{
    Ok(Element {
        at: raw.at,
        kind: element_kind(alloc, op, raw)?,
    })
}

/// The elements of a format with names as places, or the place of the first that means nothing.
pub fn named_elements(
    alloc: Global,
    op: &OpDef,
    raw: &[RawElement],
) -> Result<List<Element>, NameStop>
    ensures ok { IfOk result (λ es. spec.named_elements op.now raw.now ≡ Ok es) }
    ensures unknown { (place : _) → result ≡ Err (NameStop.Unknown place)
        → spec.named_elements op.now raw.now ≡ Err place }
{
    let mut found = List::new(alloc);
    let mut at = 0;
    while at < raw.len() {
        found.push(element(alloc, op, &raw[at])?)?;
        at += 1;
    }
    found.trim();
    Ok(found)
}
