//! The trees of definition files.

ghost use Rattle.std.specs.Prelude.{◌≡◌, ◌≤◌, Err, IfOk, IfErr, length};
ghost use Rattle.irdl_bytes.specs.declared.whole.TheConstants.{FILE_LIMIT};
ghost use Rattle.irdl_engine.specs.Judged as judged;
ghost use Rattle.irdl_engine.specs.Judged.{Predicates, SpellFiles};
ghost use Rattle.irdl_engine.specs.Said.{bytes_of, AreShort, StandsAt, IsTreeOf, IsVerdict};

use crate::stop::{Refusal, Stop};
use dialect_registry::DefCode;
use generic_syntax::SyntaxStop;
use grammar::SyntaxCode;
use ir_lexer::{SliceTokens, line_col};
use irdl_ops::{RawDefs, read_definitions};
use std::alloc::Global;

/// The rule that a refused token breaks.
fn rule_of(code: SyntaxCode) -> DefCode
    ensures { result ≡ judged.rule_of code }
{
    match code {
        SyntaxCode::Syntax | SyntaxCode::Float | SyntaxCode::Bad => DefCode::Syntax,
        SyntaxCode::Nesting => DefCode::Nesting,
    }
}

/// A refusal by this rule, at this place of the text of the file with this number, of which this is
/// told.
pub fn refusal_at(file: usize, text: &[u8], place: u32, code: DefCode, told: Vec<u8>) -> Refusal
    requires { length text.now ≤ FILE_LIMIT }
    ensures stands { StandsAt text.now result place }
    ensures in_file { result.file ≡ file }
    ensures rule { result.code ≡ code }
    ensures told { result.told ≡ told }
{
    Refusal {
        file,
        place: line_col(text, place),
        code,
        told,
    }
}

/// The tree that a text spells, or its refusal, as that of the file with this number.
fn read_tree(alloc: Global, file: usize, text: &[u8]) -> Result<RawDefs, Stop>
    requires { length text.now ≤ FILE_LIMIT }
    ensures { IsTreeOf text.now file result }
{
    let mut tokens = SliceTokens::new(text);
    match read_definitions(alloc, &mut tokens) {
        Ok(defs) => Ok(defs),
        Err(SyntaxStop::At { place, code }) => {
            let told = Vec::new(alloc);
            Err(Stop::Refused(refusal_at(file, text, place, rule_of(code), told)))
        }
        Err(SyntaxStop::Failed) => unreachable!(),
        Err(SyntaxStop::OutOfMemory) => Err(Stop::OutOfMemory),
    }
}

/// The trees that texts spell, in their order, or the refusal of the first that spells none.
pub fn read_trees(alloc: Global, texts: &[Vec<u8>]) -> Result<Vec<RawDefs>, Stop>
    requires { AreShort (bytes_of texts.now) }
    ensures ok { IfOk result (λ trees. SpellFiles (bytes_of texts.now) trees.items) }
    ensures err { IfErr result (λ stop. (natives : Predicates) →
        IsVerdict natives (bytes_of texts.now) (Err stop)) }
{
    let mut trees = Vec::new(alloc);
    for (file, text) in texts.iter().enumerate() {
        let tree = read_tree(alloc, file, text)?;
        trees.push(tree).map_err(|_| Stop::OutOfMemory)?;
    }
    Ok(trees)
}
