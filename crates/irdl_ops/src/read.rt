//! The reader of definition files: the files and their dialects here, what stands in these in the
//! files below. Each function reads the rule of its name.

mod bodies;
mod constraints;
mod entries;
mod statements;

ghost use Rattle.grammar.specs.Answers.{Told, Answered, Accepts, IsReadFrom};
ghost use Rattle.grammar.specs.Ran.{Kept, Reads, ReadsWhole};
ghost use Rattle.grammar.specs.Rules.{many};
ghost use Rattle.std.specs.Prelude.{◌≡◌, IfOk, OnOk};
ghost use Rattle.irdl_ops.specs.Definitions as spec;
ghost use Rattle.irdl_ops.specs.Definitions.{DefText, TooDeepDef};
ghost use Rattle.irdl_ops.specs.Forms.{in_defs};

use crate::raw::{RawDefs, RawDialect};
use attr_value::List;
use bodies::defs;
use generic_syntax::{SyntaxStop, read_name};
use grammar::{expect, expect_end, expect_word, is_word};
use ir_lexer::{Class, TokenSource};
use std::alloc::Global;

/// Reads a definition file to its end. Where it is accepted, the source stands at the end.
///
/// A file is accepted exactly where the grammar of definition files derives its tokens and no value
/// in it is too deep. Any other is refused at the first token that no such file has there, or that
/// begins a value too deep. Over every source, told or not, a tree that is read is that of tokens
/// which the source may have.
pub fn read_definitions<T: TokenSource>(alloc: Global, t: &mut T) -> Result<RawDefs, SyntaxStop>
    ensures kept { Kept (T.state t.old) result (T.state t.new) }
    ensures answer { Told (T.state t.old) (λ ts. Answered DefText TooDeepDef ts result) }
    ensures accepts { Told (T.state t.old) (λ ts. Accepts DefText TooDeepDef ts result) }
    ensures derived { IfOk result (IsReadFrom DefText TooDeepDef (T.state t.old)) }
    ensures at_end { OnOk result ((T.state t.new).now.class ≡ Class.End) }
{
    whole_file(alloc, t)
}

fn whole_file<T: TokenSource>(alloc: Global, t: &mut T) -> Result<RawDefs, SyntaxStop>
    ensures whole { ReadsWhole in_defs spec.file (T.state t.old) result (T.state t.new) }
    ensures at_end { OnOk result ((T.state t.new).now.class ≡ Class.End) }
{
    let defs = file(alloc, t)?;
    expect_end(t)?;
    Ok(defs)
}

fn file<T: TokenSource>(alloc: Global, t: &mut T) -> Result<RawDefs, SyntaxStop>
    ensures { Reads in_defs spec.file (T.state t.old) result (T.state t.new) }
{
    let dialects = all_dialects(alloc, t)?;
    Ok(RawDefs { dialects })
}

fn all_dialects<T: TokenSource>(alloc: Global, t: &mut T) -> Result<List<RawDialect>, SyntaxStop>
    ensures { Reads in_defs spec.all_dialects (T.state t.old) result (T.state t.new) }
{
    if !is_word(t, b"module") {
        return dialects(alloc, t);
    }
    expect_word(t, b"module")?;
    expect(t, Class::LBrace)?;
    let found = dialects(alloc, t)?;
    expect(t, Class::RBrace)?;
    Ok(found)
}

fn dialects<T: TokenSource>(alloc: Global, t: &mut T) -> Result<List<RawDialect>, SyntaxStop>
    ensures { Reads in_defs (many spec.dialect) (T.state t.old) result (T.state t.new) }
{
    let mut found = List::new(alloc);
    'each: while is_word(t, b"irdl.dialect") {
        found.push(dialect(alloc, t)?)?;
    }
    found.trim();
    Ok(found)
}

fn dialect<T: TokenSource>(alloc: Global, t: &mut T) -> Result<RawDialect, SyntaxStop>
    ensures { Reads in_defs spec.dialect (T.state t.old) result (T.state t.new) }
{
    expect_word(t, b"irdl.dialect")?;
    let name = read_name(alloc, t, Class::SymbolName)?;
    expect(t, Class::LBrace)?;
    let defs = defs(alloc, t)?;
    expect(t, Class::RBrace)?;
    Ok(RawDialect {
        place: name.place,
        name: name.name,
        defs,
    })
}
