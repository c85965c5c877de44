//! The module that a text denotes.

ghost use Rattle.std.specs.Prelude.{◌≡◌, ◌≤◌, IfErr, IfOk, length};
ghost use Rattle.constraint_solver.specs.Grown.{Extends};
ghost use Rattle.derived_printer.specs.Printable.{IsPrintable};
ghost use Rattle.dialect_registry.specs.Registered.{IsSound};
ghost use Rattle.elaborate.specs.Elaborated.{loaded_of};
ghost use Rattle.irdl_bytes.specs.declared.whole.TheConstants.{FILE_LIMIT};
ghost use Rattle.irdl_engine.specs.Modules.{code_of_syntax, Denotes, IsReadBack, SpellsModule};
ghost use Rattle.irdl_engine.specs.ModuleTexts.{RefusesText, RefusesTokens};
ghost use Rattle.module_meaning.specs.SeenModules.{seen_module};
ghost use Rattle.native_predicate.specs.Lists.{count, tests};

use attr_uniquer::Uniquer;
use dialect_registry::Registry;
use elaborate::{ModStop, elaborate};
use first_fault::Fault;
use generic_syntax::{ModuleCst, parse_generic};
use grammar::{SyntaxCode, SyntaxStop};
use ir_lexer::SliceTokens;
use ir_store::Store;
use native_predicate::Natives;
use std::alloc::Global;
use stored_module::module_is_storable;

/// The number of the rule that a refused token breaks.
fn code_of(code: SyntaxCode) -> u32
    ensures { result ≡ code_of_syntax code }
{
    match code {
        SyntaxCode::Syntax => 1,
        SyntaxCode::Float => 2,
        SyntaxCode::Bad => 3,
        SyntaxCode::Nesting => 4,
    }
}

/// The tree that a text spells, or the fault of its first wrong token.
fn read_tree(alloc: Global, text: &[u8]) -> Result<ModuleCst, ModStop>
    requires { length text.now ≤ FILE_LIMIT }
    ensures spelled { IfOk result (SpellsModule text.now) }
    ensures refused { IfErr result (RefusesTokens text.now) }
{
    let mut tokens = SliceTokens::new(text);
    match parse_generic(alloc, &mut tokens) {
        Ok(tree) => Ok(tree),
        Err(SyntaxStop::At { place, code }) => {
            Err(ModStop::Refused(Fault {
                place,
                code: code_of(code),
            }))
        }
        Err(SyntaxStop::Failed) => unreachable!(),
        Err(SyntaxStop::OutOfMemory) => Err(ModStop::OutOfMemory),
    }
}

/// The module that the bytes of a text denote, in a store, or for what the text is refused: its
/// first wrong token, or the first fault of the first stage that has one. The text has at most
/// 16,777,216 bytes. The module can be printed, and its canonical text denotes it again.
pub fn read_module_text(
    alloc: Global,
    registry: &Registry,
    natives: &Natives,
    u: &mut Uniquer,
    text: &[u8],
) -> Result<Store, ModStop>
    requires short { length text.now ≤ FILE_LIMIT }
    requires sound { IsSound (length u.old) (count natives.now) registry.now }
    ensures later { Extends u.old u.new }
    ensures denoted { IfOk result (λ store.
        Denotes (loaded_of u.old (tests property natives.now) registry.now) text.now
        (seen_module registry.now.ops u.new store)) }
    ensures printable { IfOk result (IsPrintable registry.now.ops u.new) }
    ensures read_back { IfOk result (λ store.
        IsReadBack (loaded_of u.old (tests property natives.now) registry.now)
        (seen_module registry.now.ops u.new store)) }
    ensures refused { IfErr result
        (RefusesText (loaded_of u.old (tests property natives.now) registry.now) text.now) }
{
    let tree = read_tree(alloc, text)?;
    let store = elaborate(alloc, registry, natives, u, &tree)?;
    // For the proof: what is stored has texts of bytes, so its own text is read again.
    module_is_storable(u, &store);
    Ok(store)
}
