//! Reading a module whose operations are all in generic form. The files below read its parts.

mod names;
mod operations;
mod parts;

ghost use Rattle.std.specs.Prelude.{◌≡◌, IfOk, OnOk};
ghost use Rattle.grammar.specs.Answers.{Told, Answered, Accepts, IsReadFrom};
ghost use Rattle.grammar.specs.Ran.{Kept, Reads, ReadsWhole};
ghost use Rattle.generic_syntax.specs.declared.pieces.TheConstants.{ROOM};
ghost use Rattle.generic_syntax.specs.ModuleText.{ModText, TooDeepMod, modules_within};
ghost use Rattle.generic_syntax.specs.Modules as spec;
ghost use Rattle.generic_syntax.specs.Operations.{no_customs};

use crate::module_cst::ModuleCst;
use crate::pieces::ROOM;
use grammar::{SyntaxStop, expect_end};
use ir_lexer::{Class, TokenSource};
pub use names::{
    read_operand, read_operands, read_result_names, read_some_uses, read_successors, read_uses,
};
use operations::ops;
pub use parts::{
    read_aliases, read_attributes, read_block_arguments, read_properties, read_signature,
};
use std::alloc::Global;

/// Reads a module to its end, in which each operation is in generic form. Where it is accepted, the
/// source stands at the end.
///
/// A module is accepted exactly where the grammar of modules derives its tokens and no value or
/// region in it is too deep. Any other is refused at the first token that no such module has there,
/// or that begins a value or a region too deep. Over every source, told or not, a tree that is read
/// is that of tokens which the source may have.
pub fn parse_generic<T: TokenSource>(alloc: Global, t: &mut T) -> Result<ModuleCst, SyntaxStop>
    ensures kept { Kept (T.state t.old) result (T.state t.new) }
    ensures answer { Told (T.state t.old) (λ ts.
        Answered (ModText no_customs) (TooDeepMod no_customs) ts result) }
    ensures accepts { Told (T.state t.old) (λ ts.
        Accepts (ModText no_customs) (TooDeepMod no_customs) ts result) }
    ensures derived { IfOk result
        (IsReadFrom (ModText no_customs) (TooDeepMod no_customs) (T.state t.old)) }
    ensures at_end { OnOk result ((T.state t.new).now.class ≡ Class.End) }
{
    whole_module(alloc, t)
}

fn whole_module<T: TokenSource>(alloc: Global, t: &mut T) -> Result<ModuleCst, SyntaxStop>
    ensures whole { ReadsWhole (modules_within no_customs ROOM) (spec.file no_customs)
        (T.state t.old) result (T.state t.new) }
    ensures at_end { OnOk result ((T.state t.new).now.class ≡ Class.End) }
{
    let module = file(alloc, t)?;
    expect_end(t)?;
    Ok(module)
}

fn file<T: TokenSource>(alloc: Global, t: &mut T) -> Result<ModuleCst, SyntaxStop>
    ensures { Reads (modules_within no_customs ROOM) (spec.file no_customs)
        (T.state t.old) result (T.state t.new) }
{
    let aliases = read_aliases(alloc, t)?;
    let ops = ops(alloc, t, ROOM)?;
    Ok(ModuleCst { aliases, ops })
}
