//! The scope of a body, as its marks come in the order of the text.

ghost use Rattle.std.specs.Prelude.{◌≡◌, ◌*◌, ◌-◌, ◌^◌, ◌∷◌, [], min, OnOk};
ghost use Rattle.std.specs.Prelude.{if◌then◌else◌};
ghost use Rattle.dialect_registry.specs.NameFaults as mark;

use crate::code::{DefCode, fault_if};
use crate::names::{NameMap, NameSet};
use first_fault::{Fault, earlier};
use std::alloc::{AllocError, Global};

/// What a value name stands for.
#[derive(Clone, Copy, Debug, PartialEq, Eq)]
pub enum ValueSort {
    /// A constraint, and so a variable.
    Constraint,
    /// A region.
    Region,
}

/// The names and words so far, the choices, and the first fault of what was seen.
#[derive(Drop)]
pub struct Scope<'a> {
    pub values: NameMap<'a, ValueSort>,
    pub labels: NameSet<'a>,
    pub words: NameSet<'a>,
    /// In how many ways one may choose; the greatest number where it doesn't fit.
    pub choices: usize,
    pub first: Option<Fault>,
}

/// Whether a name that stands for this may be used as that.
fn is_usable(known: Option<ValueSort>, sort: ValueSort) -> bool
    ensures { result ≡ mark.is_usable known sort }
{
    match known {
        Some(ValueSort::Constraint) => matches!(sort, ValueSort::Constraint),
        Some(ValueSort::Region) => matches!(sort, ValueSort::Region),
        None => false,
    }
}

/// The choices with those of one more definition, which counts where its name isn't known.
fn multiplied(choices: usize, known: bool, own: usize) -> usize
    ensures { result ≡ min (choices * (if known then 1 else own)) (2 ^ 64 - 1) }
{
    choices.saturating_mul(if known { 1 } else { own })
}

impl<'a> Scope<'a> {
    ghost use Rattle.dialect_registry.specs.Codes.{refusal};
    ghost use Rattle.dialect_registry.specs.Scopes.{Knows, Sees, noted};

    /// Nothing was seen. It takes no memory.
    pub fn new(alloc: Global) -> Scope<'a>
        ensures { Knows [] result }
    {
        Scope {
            values: NameMap::new(alloc),
            labels: NameSet::new(alloc),
            words: NameSet::new(alloc),
            choices: 1,
            first: None,
        }
    }

    /// Sees that a value name is defined, by a constraint with so many choices or by a region.
    pub fn define(
        &mut self,
        sort: ValueSort,
        place: u32,
        name: &'a [u8],
        choices: usize,
    ) -> Result<(), AllocError>
        ensures { OnOk result (Sees (mark.defines sort place name.now choices ∷ [])
            self.old self.new) }
    {
        let known = self.values.add(name, sort)?;
        self.choices = multiplied(self.choices, known, choices);
        self.note_if(known, place, DefCode::NameRepeated);
        Ok(())
    }

    /// Sees that a value name is used.
    pub fn use_name(&mut self, sort: ValueSort, place: u32, name: &[u8])
        ensures { Sees (mark.uses sort place name.now ∷ []) self.old self.new }
    {
        let usable = is_usable(self.values.get(name).copied(), sort);
        self.note_if(!usable, place, DefCode::RefUnknown);
    }

    /// Sees that an entry has a name.
    pub fn label(&mut self, place: u32, name: &'a [u8]) -> Result<(), AllocError>
        ensures { OnOk result (Sees (mark.labels place name.now ∷ []) self.old self.new) }
    {
        let known = self.labels.add(name)?;
        self.note_if(known, place, DefCode::NameRepeated);
        Ok(())
    }

    /// Sees that a statement begins with a word.
    pub fn begin(&mut self, place: u32, word: &'a [u8]) -> Result<(), AllocError>
        ensures { OnOk result (Sees (mark.begins place word.now ∷ []) self.old self.new) }
    {
        let known = self.words.add(word)?;
        self.note_if(known, place, DefCode::StatementRepeated);
        Ok(())
    }

    /// Keeps a fault where a rule is broken, if it is the first.
    fn note_if(&mut self, broken: bool, place: u32, code: DefCode)
        ensures { self.new ≡ record self.old {
          first = noted broken self.old.first (refusal place code);
        } }
    {
        self.first = earlier(self.first, fault_if(broken, place, code));
    }
}
