//! Values that are known so far, and what is made of texts with them.

ghost use Rattle.std.specs.Prelude.{IfOk, List};
ghost use Rattle.constraint_solver.specs.Definitions.{AreSoundDefs};
ghost use Rattle.derived_printer.specs.Spellable.{HaveFullNames};
ghost use Rattle.dialect_defs.specs.declared.definition.TypeDef.{TypeDef};
ghost use Rattle.value_rows.specs.Desks.{IsSound, IsPrintable};

use anyhow::Result;
use attr_uniquer::Uniquer;
use attr_value::{Text, ValueId};
use derived_printer::print_value;
use generic_syntax::{SyntaxStop, ValueCst, parse_type, parse_value};
use grammar::expect_end;
use ir_lexer::SliceTokens;
use irdl_bytes::MemSink;
use native_predicate::Natives;
use std::alloc::Global;
use text_layout::Layout;
use value_meaning::{Aliases, Definitions, ValueStop, define_alias, value_in};

/// The most bytes of a text.
const TEXT_LIMIT: usize = 16_777_216;

/// How many bytes are printed of a value at most.
const ROOM: usize = 4096;

/// The values that are kept, and the aliases that are known.
#[derive(Drop)]
pub struct Desk {
    pub values: Uniquer,
    pub aliases: Aliases,
}

/// Why a text has no value.
#[derive(Clone, Copy)]
pub enum Stop {
    /// It has more bytes than a text may have.
    TooLong,
    /// It isn't read.
    Text(SyntaxStop),
    /// It is read, and has no value.
    Value(ValueStop),
}

/// The tree of a text that is one value and nothing behind it.
fn tree_of(alloc: Global, is_type: bool, src: &[u8]) -> Result<ValueCst, Stop> {
    if src.len() > TEXT_LIMIT {
        return Err(Stop::TooLong);
    }
    let mut tokens = SliceTokens::new(src);
    let read = if is_type {
        parse_type(alloc, &mut tokens, 1)
    } else {
        parse_value(alloc, &mut tokens, 1)
    };
    let tree = read.map_err(Stop::Text)?;
    expect_end(&tokens).map_err(Stop::Text)?;
    Ok(tree)
}

impl Desk {
    /// No value is kept, and no alias is known. It takes no memory.
    pub fn new(alloc: Global) -> Desk
        ensures { (types : List TypeDef) → AreSoundDefs 0 0 types → HaveFullNames types →
            IsSound types result }
    {
        Desk {
            values: Uniquer::new(alloc),
            aliases: Aliases::new(alloc),
        }
    }

    /// The value of a text, which is kept from now on, or why there is none.
    pub fn value_of(
        &mut self,
        alloc: Global,
        types: &Definitions,
        src: &[u8],
    ) -> Result<ValueId, Stop>
        requires { IsSound types.now self.old }
        ensures sound { IsSound types.now self.new }
        ensures printable { IfOk result (IsPrintable self.new) }
    {
        let tree = tree_of(alloc, false, src)?;
        let natives = Natives::new(Vec::new(alloc));
        let values = &mut self.values;
        match value_in(alloc, values, types, &natives, &tree, &self.aliases) {
            Ok(id) => Ok(id),
            Err(stop) => Err(Stop::Value(stop)),
        }
    }

    /// Makes an alias known whose value is that of a text, in the place of an earlier one, or says
    /// why there is none.
    pub fn define(
        &mut self,
        alloc: Global,
        types: &Definitions,
        is_type: bool,
        name: Text,
        src: &[u8],
    ) -> Result<(), Stop>
        requires { IsSound types.now self.old }
        ensures { IsSound types.now self.new }
    {
        let tree = tree_of(alloc, is_type, src)?;
        let natives = Natives::new(Vec::new(alloc));
        let values = &mut self.values;
        let aliases = &mut self.aliases;
        match define_alias(
            alloc, values, types, &natives, &tree, is_type, name, aliases,
        ) {
            Ok(_) => Ok(()),
            Err(stop) => Err(Stop::Value(stop)),
        }
    }

    /// The canonical text of a value, with its line feed.
    pub fn text_of(&self, alloc: Global, id: ValueId) -> Result<Vec<u8>>
        requires { IsPrintable self.now id }
    {
        let mut sink = MemSink::new(alloc, ROOM)?;
        let mut layout = Layout::new(alloc, &mut sink);
        let printed = print_value(alloc, &self.values, id, &mut layout);
        let ended = layout.end();
        printed?;
        ended?;
        Ok(sink.bytes().to_vec(alloc)?)
    }
}
