//! What a caller notes of names, and what they mean.

ghost use Rattle.std.specs.Prelude.{
  ◌≡◌,
  ◌++◌,
  ◌∷◌,
  [],
  IfOk,
  OnOk,
  OnErr,
  IfErr,
  length,
  map,
  slice_get,
  None,
  Some,
};
ghost use Rattle.first_fault.specs.Firsts.{IsFirst};
ghost use Rattle.symbol_scopes.specs.Faults.{IsNameFault};
ghost use Rattle.symbol_scopes.specs.Calls.{said_mark};
ghost use Rattle.symbol_scopes.specs.ScopeMarks as mark;
ghost use Rattle.symbol_scopes.specs.ScopeMarks.{bindings, uses_in, successors_in};
ghost use Rattle.symbol_scopes.specs.Meanings.{value_meanings, block_meanings};
ghost use Rattle.symbol_scopes.specs.NameRefusal.{RefusesNames};
ghost use Rattle.symbol_scopes.specs.declared.call.NameKind.TheVariants as kind;
ghost use Rattle.first_fault.specs.declared.fault.Fault.{Fault};

use crate::aliases::judge_aliases;
use crate::blocks::judge_blocks;
use crate::call::{Call, NameKind, Said};
use crate::calls::Calls;
use crate::names::Names;
use crate::values::judge_values;
use first_fault::earlier;
use std::alloc::{AllocError, Global};
use std::marker::Model;

/// Why `finish` gives no meanings.
#[derive(Clone, Copy, Debug, PartialEq, Eq)]
pub enum NameStop {
    /// A rule on names is broken, as by a use of `%y` where no region round it defines `%y`. The
    /// place is one that the caller gave with the name, in bytes from 0. The code is the number of
    /// the rule, 5 to 12, by the list in `specs/Faults.antt`.
    Refused { place: u32, code: u32 },
    /// Memory ran out.
    OutOfMemory,
}

/// What a text says of names. Contracts see the list of its marks (`specs/ScopeMarks.antt`).
///
/// Things are noted in the order of the text. A place is where a token begins, in bytes from 0. It
/// is handed out again with a fault, and of several faults that with the least place is the first.
///
/// Where memory runs out nothing is noted: the marks are those before the call. There is room for
/// 2^32 - 1 names, and for as many notes with large numbers; in `finish`, for as many regions, and
/// definitions of a kind. More is want of memory.
#[derive(Drop)]
pub struct Scopes {
    names: Names,
    calls: Calls,
    definitions: usize,
    uses: usize,
    successors: usize,
    alloc: Global,
}

impl Model for Scopes {
    ghost use Rattle.std.specs.Prelude.{List, length, ◌≡◌};
    ghost use Rattle.symbol_scopes.specs.declared.call.NameKind.TheVariants.{Values};
    ghost use Rattle.symbol_scopes.specs.ScopeMarks.{ScopeMark, bindings, uses_in, successors_in};
    ghost use Rattle.symbol_scopes.specs.Calls.{marks_of, AreNamed};

    ghost Value = { List ScopeMark };

    ghost view = { λ s. marks_of s.names s.calls };

    ghost invariant = { λ s. AreNamed (length s.names) s.calls
        × (s.definitions ≡ length (bindings Values (marks_of s.names s.calls)))
        × (s.uses ≡ length (uses_in (marks_of s.names s.calls)))
        × (s.successors ≡ length (successors_in (marks_of s.names s.calls))) };
}

/// What uses and successors mean, by the numbers that `Scopes` gave them. Contracts see two lists
/// (`specs/Uses.antt`).
#[derive(Drop)]
pub struct Uses {
    values: Vec<(u32, u32)>,
    blocks: Vec<u32>,
}

impl Model for Uses {
    ghost use Rattle.symbol_scopes.specs.Uses.{UseMeanings};

    ghost Value = { UseMeanings };

    ghost view = { λ u. record { values = u.values.items; blocks = u.blocks.items } };
}

impl Uses {
    /// What the use with this number means: the number that `define` gave its definition, and the
    /// number of the value in the definition's pack, from 0. It is `None` exactly where there is no
    /// such use. It takes no memory.
    ///
    /// A use means the first definition of its name in the innermost region round it that has one,
    /// wherever it stands there.
    pub fn value(&self, mention: usize) -> Option<(usize, u32)>
        ensures { result ≡ slice_get self.now.values mention }
    {
        match self.values.get(mention) {
            Some(meant) => Some((meant.0 as usize, meant.1)),
            None => None,
        }
    }

    /// What the successor with this number means: the number of a block in its region, the entry
    /// block being 0. It is `None` exactly where there is no such successor. It takes no memory.
    ///
    /// A successor means the first label of its name in its own region.
    pub fn block(&self, mention: usize) -> Option<usize>
        ensures { result ≡ slice_get self.now.blocks mention }
    {
        match self.blocks.get(mention) {
            Some(block) => Some(*block as usize),
            None => None,
        }
    }
}

impl Scopes {
    /// Nothing is noted, and the top level is open. It takes no memory.
    pub fn new(alloc: Global) -> Scopes
        ensures { result ≡ [] }
    {
        Scopes {
            names: Names::new(alloc),
            calls: Calls::new(alloc),
            definitions: 0,
            uses: 0,
            successors: 0,
            alloc,
        }
    }

    /// A region begins. Regions number from 1 in this order, the top level being region 0.
    pub fn enter(&mut self) -> Result<(), AllocError>
        ensures ok { OnOk result (self.new ≡ self.old ++ mark.enters ∷ []) }
        ensures err { OnErr result (self.new ≡ self.old) }
    {
        self.calls.push(Call::Enter)?;
        Ok(())
    }

    /// The innermost region ends. The top level stays open.
    pub fn leave(&mut self) -> Result<(), AllocError>
        ensures ok { OnOk result (self.new ≡ self.old ++ mark.leaves ∷ []) }
        ensures err { OnErr result (self.new ≡ self.old) }
    {
        self.calls.push(Call::Leave)?;
        Ok(())
    }

    /// A value name is defined, in the innermost region, for a pack of `count` values. A count of 0
    /// stands for a pack of a wrong size, in which every number is allowed. It gives the
    /// definition's number, counted from 0 over the text.
    ///
    /// Rule 8 is broken where the name is defined earlier in a region that is open here.
    pub fn define(&mut self, name: &[u8], place: u32, count: u32) -> Result<usize, AllocError>
        ensures ok { OnOk result (self.new ≡ self.old
            ++ mark.defines (record { name = name.now; place = place; count = count }) ∷ []) }
        ensures number { IfOk result (λ d. d ≡ length (bindings kind.Values self.old)) }
        ensures err { OnErr result (self.new ≡ self.old) }
    {
        let number = self.definitions;
        self.note(name, Said::Define { place, count })?;
        Ok(number)
    }

    /// A value name is used: the value with this number, from 0, of the pack that the name means.
    /// `number_place` is where the number stands in the text; of number 0 it is never handed out,
    /// and a use without a number has 0. It gives the use's own number, counted from 0 over the
    /// text.
    ///
    /// Rule 7 is broken at `place` where no open region defines the name, before the use or behind
    /// it, and rule 9 at `number_place` where its pack has no value of the number.
    pub fn mention(
        &mut self,
        name: &[u8],
        place: u32,
        number: u32,
        number_place: u32,
    ) -> Result<usize, AllocError>
        ensures ok { OnOk result (self.new ≡ self.old ++ mark.uses (record {
          name = name.now;
          place = place;
          number = number;
          number_place = number_place;
        }) ∷ []) }
        ensures number { IfOk result (λ d. d ≡ length (uses_in self.old)) }
        ensures err { OnErr result (self.new ≡ self.old) }
    {
        let at = self.uses;
        self.note(
            name,
            Said::Use {
                place,
                number,
                number_place,
            },
        )?;
        Ok(at)
    }

    /// A block of the innermost region has this label. The block is its number in the region, the
    /// entry block being 0. One past 2^32 - 1 is want of memory.
    ///
    /// Rule 11 is broken where the label stands earlier in the region.
    pub fn define_block(&mut self, name: &[u8], place: u32, block: usize) -> Result<(), AllocError>
        ensures ok { OnOk result (self.new ≡ self.old
            ++ mark.labels (record { name = name.now; place = place; block = block }) ∷ []) }
        ensures err { OnErr result (self.new ≡ self.old) }
    {
        if block > u32::MAX as usize {
            return Err(AllocError);
        }
        let block = block as u32;
        self.note(name, Said::Label { place, block })
    }

    /// A block of the innermost region is led to by its label. It gives the successor's number,
    /// counted from 0 over the text.
    ///
    /// Rule 10 is broken where the region has no such label, before the successor or behind it, and
    /// rule 12 where the label is that of the entry block.
    pub fn mention_block(&mut self, name: &[u8], place: u32) -> Result<usize, AllocError>
        ensures ok { OnOk result (self.new ≡ self.old
            ++ mark.leads_to (record { name = name.now; place = place }) ∷ []) }
        ensures number { IfOk result (λ d. d ≡ length (successors_in self.old)) }
        ensures err { OnErr result (self.new ≡ self.old) }
    {
        let at = self.successors;
        self.note(name, Said::LeadTo { place })?;
        Ok(at)
    }

    /// An alias is defined, of types or else of attributes, for all that follows in the text.
    ///
    /// Rule 6 is broken where one of the same sort and name is defined earlier.
    pub fn define_alias(&mut self, is_type: bool, name: &[u8], place: u32) -> Result<(), AllocError>
        ensures ok { OnOk result (self.new ≡ self.old ++ mark.defines_alias
            (record { is_type = is_type; name = name.now; place = place }) ∷ []) }
        ensures err { OnErr result (self.new ≡ self.old) }
    {
        self.note(name, Said::DefineAlias { is_type, place })
    }

    /// An alias is mentioned, of types or else of attributes.
    ///
    /// Rule 5 is broken where none of the same sort and name is defined earlier.
    pub fn mention_alias(
        &mut self,
        is_type: bool,
        name: &[u8],
        place: u32,
    ) -> Result<(), AllocError>
        ensures ok { OnOk result (self.new ≡ self.old ++ mark.mentions_alias
            (record { is_type = is_type; name = name.now; place = place }) ∷ []) }
        ensures err { OnErr result (self.new ≡ self.old) }
    {
        self.note(name, Said::MentionAlias { is_type, place })
    }

    /// A pack has a wrong size, at this place. It breaks rule 9 by itself.
    pub fn note_pack(&mut self, place: u32) -> Result<(), AllocError>
        ensures ok { OnOk result (self.new ≡ self.old ++ mark.bad_pack place ∷ []) }
        ensures err { OnErr result (self.new ≡ self.old) }
    {
        self.calls.push(Call::BadPack { place })?;
        Ok(())
    }

    /// Notes what is said of a name.
    fn note(&mut self, name: &[u8], said: Said) -> Result<(), AllocError>
        ensures ok { OnOk result (self.new ≡ self.old ++ said_mark name.now said ∷ []) }
        ensures err { OnErr result (self.new ≡ self.old) }
    {
        let name = self.names.number(name)?;
        self.calls.push(Call::Name { name, said })?;
        self.definitions += said.definitions(NameKind::Values);
        self.uses += said.uses();
        self.successors += said.successors();
        Ok(())
    }

    /// What uses and successors mean, or the first fault: that with the least place, and there with
    /// the least code. Regions that are still open end with the text.
    pub fn finish(self) -> Result<Uses, NameStop>
        ensures ok { OnOk result ((f : Fault) → IsNameFault self f → ⊥) }
        ensures values { IfOk result (λ u. map Some u.values ≡ value_meanings self) }
        ensures blocks { IfOk result (λ u. map Some u.blocks ≡ block_meanings self) }
        ensures refused { IfErr result (λ stop. RefusesNames self stop) }
    {
        let Ok(values) = judge_values(self.alloc, &self.names, &self.calls) else {
            return Err(NameStop::OutOfMemory);
        };
        let Ok(blocks) = judge_blocks(self.alloc, &self.names, &self.calls) else {
            return Err(NameStop::OutOfMemory);
        };
        let Ok(others) = judge_aliases(self.alloc, &self.names, &self.calls) else {
            return Err(NameStop::OutOfMemory);
        };
        match earlier(earlier(values.first, blocks.first), others) {
            Some(f) => Err(NameStop::Refused {
                place: f.place,
                code: f.code,
            }),
            None => Ok(Uses {
                values: values.meanings,
                blocks: blocks.meanings,
            }),
        }
    }
}
