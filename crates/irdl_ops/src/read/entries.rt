//! The readers of entries and of the names and strings in them.

ghost use Rattle.grammar.specs.Looks.{any_of, passes};
ghost use Rattle.grammar.specs.Looks as look;
ghost use Rattle.grammar.specs.Ran.{Reads, Took};
ghost use Rattle.grammar.specs.Rules.{list};
ghost use Rattle.std.specs.Prelude.{◌≡◌, ◌||◌, true, false, codes};
ghost use Rattle.irdl_ops.specs.Entries as spec;
ghost use Rattle.irdl_ops.specs.Forms.{in_defs, in_parens, in_braces, Begins};

use crate::raw::{RawAttr, RawEntry, RawText};
use attr_value::List;
use dialect_defs::Arity;
use generic_syntax::{NameCst, SyntaxStop, read_name, read_string, read_word};
use grammar::{expect, expect_word, is_class, is_word};
use ir_lexer::{Class, TokenSource};
use std::alloc::Global;

// ---- strings and names

pub fn string<T: TokenSource>(alloc: Global, t: &mut T) -> Result<RawText, SyntaxStop>
    ensures { Took (passes (any_of Class.Str)) spec.text_of (T.state t.old) result (T.state t.new) }
{
    let place = t.place();
    let text = read_string(alloc, t)?;
    Ok(RawText { place, text })
}

pub fn variables<T: TokenSource>(alloc: Global, t: &mut T) -> Result<List<NameCst>, SyntaxStop>
    ensures { Reads in_defs spec.variables (T.state t.old) result (T.state t.new) }
{
    if !is_class(t, Class::ValueName) {
        return Ok(List::new(alloc));
    }
    some_variables(alloc, t)
}

pub fn some_variables<T: TokenSource>(alloc: Global, t: &mut T) -> Result<List<NameCst>, SyntaxStop>
    ensures { Reads in_defs spec.some_variables (T.state t.old) result (T.state t.new) }
{
    let mut found = List::new(alloc);
    found.push(read_name(alloc, t, Class::ValueName)?)?;
    'each: while is_class(t, Class::Comma) {
        expect(t, Class::Comma)?;
        found.push(read_name(alloc, t, Class::ValueName)?)?;
    }
    found.trim();
    Ok(found)
}

/// Reads words that are names, in parentheses.
pub fn plain_names<T: TokenSource>(alloc: Global, t: &mut T) -> Result<List<NameCst>, SyntaxStop>
    ensures { Reads in_defs (in_parens (list spec.plain_name))
        (T.state t.old) result (T.state t.new) }
{
    expect(t, Class::LParen)?;
    let found = plain_name_list(alloc, t)?;
    expect(t, Class::RParen)?;
    Ok(found)
}

fn plain_name_list<T: TokenSource>(alloc: Global, t: &mut T) -> Result<List<NameCst>, SyntaxStop>
    ensures { Reads in_defs (list spec.plain_name) (T.state t.old) result (T.state t.new) }
{
    let mut found = List::new(alloc);
    if !is_class(t, Class::Word) {
        return Ok(found);
    }
    found.push(read_word(alloc, t)?)?;
    'each: while is_class(t, Class::Comma) {
        expect(t, Class::Comma)?;
        found.push(read_word(alloc, t)?)?;
    }
    found.trim();
    Ok(found)
}

// ---- entries of parameters and regions

/// Reads entries of parameters or regions, in parentheses.
pub fn named_entries<T: TokenSource>(alloc: Global, t: &mut T) -> Result<List<RawEntry>, SyntaxStop>
    ensures { Reads in_defs (in_parens (list spec.named_entry))
        (T.state t.old) result (T.state t.new) }
{
    expect(t, Class::LParen)?;
    let found = named_entry_list(alloc, t)?;
    expect(t, Class::RParen)?;
    Ok(found)
}

fn named_entry_list<T: TokenSource>(alloc: Global, t: &mut T) -> Result<List<RawEntry>, SyntaxStop>
    ensures { Reads in_defs (list spec.named_entry) (T.state t.old) result (T.state t.new) }
{
    let mut found = List::new(alloc);
    if !begins_entry(t) {
        return Ok(found);
    }
    found.push(named_entry(alloc, t)?)?;
    'each: while is_class(t, Class::Comma) {
        expect(t, Class::Comma)?;
        found.push(named_entry(alloc, t)?)?;
    }
    found.trim();
    Ok(found)
}

/// Whether an entry of any list but one of attributes begins with the present token.
fn begins_entry<T: TokenSource>(t: &T) -> bool
    ensures { result ≡ (passes (any_of Class.ValueName) (T.state t.now).now
        || passes (any_of Class.Word) (T.state t.now).now) }
{
    is_class(t, Class::ValueName) || is_class(t, Class::Word)
}

fn named_entry<T: TokenSource>(alloc: Global, t: &mut T) -> Result<RawEntry, SyntaxStop>
    ensures { Reads in_defs spec.named_entry (T.state t.old) result (T.state t.new) }
{
    if is_class(t, Class::ValueName) {
        return bare_entry(alloc, t);
    }
    let name = read_word(alloc, t)?;
    expect(t, Class::Colon)?;
    let var = read_name(alloc, t, Class::ValueName)?;
    Ok(RawEntry {
        place: name.place,
        name: Some(name),
        arity: Arity::Single,
        var,
    })
}

fn bare_entry<T: TokenSource>(alloc: Global, t: &mut T) -> Result<RawEntry, SyntaxStop>
    ensures { Reads in_defs spec.bare_entry (T.state t.old) result (T.state t.new) }
{
    let var = read_name(alloc, t, Class::ValueName)?;
    Ok(RawEntry {
        place: var.place,
        name: None,
        arity: Arity::Single,
        var,
    })
}

// ---- entries of operands and results

/// Reads entries of operands or results, in parentheses.
pub fn entries<T: TokenSource>(alloc: Global, t: &mut T) -> Result<List<RawEntry>, SyntaxStop>
    ensures { Reads in_defs (in_parens (list spec.entry)) (T.state t.old) result (T.state t.new) }
{
    expect(t, Class::LParen)?;
    let found = entry_list(alloc, t)?;
    expect(t, Class::RParen)?;
    Ok(found)
}

fn entry_list<T: TokenSource>(alloc: Global, t: &mut T) -> Result<List<RawEntry>, SyntaxStop>
    ensures { Reads in_defs (list spec.entry) (T.state t.old) result (T.state t.new) }
{
    let mut found = List::new(alloc);
    if !begins_entry(t) {
        return Ok(found);
    }
    found.push(entry(alloc, t)?)?;
    'each: while is_class(t, Class::Comma) {
        expect(t, Class::Comma)?;
        found.push(entry(alloc, t)?)?;
    }
    found.trim();
    Ok(found)
}

fn entry<T: TokenSource>(alloc: Global, t: &mut T) -> Result<RawEntry, SyntaxStop>
    ensures { Reads in_defs spec.entry (T.state t.old) result (T.state t.new) }
{
    if is_class(t, Class::ValueName) {
        return bare_entry(alloc, t);
    }
    if is_word(t, b"single") {
        return arity_entry(alloc, t, b"single", Arity::Single);
    }
    if is_word(t, b"optional") {
        return arity_entry(alloc, t, b"optional", Arity::Optional);
    }
    if is_word(t, b"variadic") {
        return arity_entry(alloc, t, b"variadic", Arity::Variadic);
    }
    other_entry(alloc, t)
}

/// Reads an entry that begins with this word, which says this arity, or is a name.
fn arity_entry<T: TokenSource>(
    alloc: Global,
    t: &mut T,
    word: &[u8],
    arity: Arity,
) -> Result<RawEntry, SyntaxStop>
    requires { passes (look.word word.now) (T.state t.now).now ≡ true }
    ensures { Reads in_defs (spec.arity_entry word.now arity)
        (T.state t.old) result (T.state t.new) }
{
    let first = read_word(alloc, t)?;
    if is_class(t, Class::Colon) {
        let (arity, var) = behind_name(alloc, t)?;
        return Ok(RawEntry {
            place: first.place,
            name: Some(first),
            arity,
            var,
        });
    }
    let var = read_name(alloc, t, Class::ValueName)?;
    Ok(RawEntry {
        place: first.place,
        name: None,
        arity,
        var,
    })
}

/// Reads an entry that begins with a word which says no arity.
fn other_entry<T: TokenSource>(alloc: Global, t: &mut T) -> Result<RawEntry, SyntaxStop>
    requires single { passes (look.word (codes "single")) (T.state t.now).now ≡ false }
    requires optional { passes (look.word (codes "optional")) (T.state t.now).now ≡ false }
    requires variadic { passes (look.word (codes "variadic")) (T.state t.now).now ≡ false }
    ensures { Reads in_defs spec.other_entry (T.state t.old) result (T.state t.new) }
{
    let name = read_word(alloc, t)?;
    let (arity, var) = behind_name(alloc, t)?;
    Ok(RawEntry {
        place: name.place,
        name: Some(name),
        arity,
        var,
    })
}

fn behind_name<T: TokenSource>(alloc: Global, t: &mut T) -> Result<(Arity, NameCst), SyntaxStop>
    ensures { Reads in_defs spec.behind_name (T.state t.old) result (T.state t.new) }
{
    expect(t, Class::Colon)?;
    let arity = arity(t)?;
    let var = read_name(alloc, t, Class::ValueName)?;
    Ok((arity, var))
}

fn arity<T: TokenSource>(t: &mut T) -> Result<Arity, SyntaxStop>
    ensures { Reads in_defs spec.arity (T.state t.old) result (T.state t.new) }
{
    if is_word(t, b"single") {
        expect_word(t, b"single")?;
        return Ok(Arity::Single);
    }
    if is_word(t, b"optional") {
        expect_word(t, b"optional")?;
        return Ok(Arity::Optional);
    }
    if is_word(t, b"variadic") {
        expect_word(t, b"variadic")?;
        return Ok(Arity::Variadic);
    }
    Ok(Arity::Single)
}

// ---- entries of attributes

/// Reads entries of attributes, in braces.
pub fn attr_entries<T: TokenSource>(alloc: Global, t: &mut T) -> Result<List<RawAttr>, SyntaxStop>
    ensures { Reads in_defs (in_braces (list spec.attr_entry))
        (T.state t.old) result (T.state t.new) }
{
    expect(t, Class::LBrace)?;
    let found = attr_entry_list(alloc, t)?;
    expect(t, Class::RBrace)?;
    Ok(found)
}

fn attr_entry_list<T: TokenSource>(alloc: Global, t: &mut T) -> Result<List<RawAttr>, SyntaxStop>
    ensures { Reads in_defs (list spec.attr_entry) (T.state t.old) result (T.state t.new) }
{
    let mut found = List::new(alloc);
    if !is_class(t, Class::Str) {
        return Ok(found);
    }
    found.push(attr_entry(alloc, t)?)?;
    'each: while is_class(t, Class::Comma) {
        expect(t, Class::Comma)?;
        found.push(attr_entry(alloc, t)?)?;
    }
    found.trim();
    Ok(found)
}

fn attr_entry<T: TokenSource>(alloc: Global, t: &mut T) -> Result<RawAttr, SyntaxStop>
    ensures { Reads in_defs spec.attr_entry (T.state t.old) result (T.state t.new) }
{
    let name = string(alloc, t)?;
    expect(t, Class::Equal)?;
    let optional = is_optional(t)?;
    let var = read_name(alloc, t, Class::ValueName)?;
    Ok(RawAttr {
        name,
        optional,
        var,
    })
}

fn is_optional<T: TokenSource>(t: &mut T) -> Result<bool, SyntaxStop>
    ensures { Reads in_defs spec.is_optional (T.state t.old) result (T.state t.new) }
{
    if !is_word(t, b"optional") {
        return Ok(false);
    }
    expect_word(t, b"optional")?;
    Ok(true)
}
