//! What a format shows of an operation.

ghost use Rattle.std.specs.Prelude.{◌≡◌, ◌==◌, ◌∷◌, ◌++◌, ◌<◌, ◌||◌, ℕ, [], true, false, map};
ghost use Rattle.std.specs.Prelude.{◌↔◌, IfOk, IsTrue, OnOk, Some, None};
ghost use Rattle.std.specs.Prelude.{if◌then◌else◌};
ghost use Rattle.std.specs.List.{flat_map, range_with_len};
ghost use Rattle.std.specs.Option.{option_or};
ghost use Rattle.format_checker.specs.declared.shown.Thing.TheVariants as thing;
ghost use Rattle.format_checker.specs.Shown as spec;
ghost use Rattle.format_checker.specs.Shown.{showing};
ghost use Rattle.format_checker.specs.Tables.{Notes, Saw, flag, holds};
ghost use Rattle.format_checker.specs.Columns.{form_of};

use dialect_defs::{Element, ElementKind, OpDef, TypeArg};
use std::alloc::{AllocError, Global};

/// What an element shows of an operation, and a format at most once. The numbers are those of the
/// operation's entries.
#[derive(Clone, Copy, Debug, PartialEq, Eq)]
pub enum Thing {
    Operand(usize),
    Attr(usize),
    Region(usize),
    Successor(usize),
    /// The types of an operand entry.
    OperandTypes(usize),
    /// The types of a result entry.
    ResultTypes(usize),
    /// The attributes that have no element of their own.
    Dict,
}

/// A set of numbers.
#[derive(Drop)]
pub struct Flags {
    pub flags: Vec<bool>,
}

impl Flags {
    fn new(alloc: Global) -> Flags
        ensures { (number : ℕ) → flag result number ≡ false }
    {
        Flags {
            flags: Vec::new(alloc),
        }
    }

    pub fn has(&self, number: usize) -> bool
        ensures { result ≡ flag self.now number }
    {
        match self.flags.get(number) {
            Some(flag) => *flag,
            None => false,
        }
    }

    fn add(&mut self, number: usize) -> Result<(), AllocError>
        ensures { OnOk result ((other : ℕ) →
            flag self.new other ≡ ((other == number) || flag self.old other)) }
    {
        while self.flags.len() <= number {
            self.flags.push(false)?;
        }
        self.flags[number] = true;
        Ok(())
    }

    /// The first number below a count that isn't in the set.
    pub fn first_other(&self, count: usize) -> Option<usize>
        ensures none { result ≡ None → (k : ℕ) → k < count → flag self.now k ≡ true }
        ensures some { (number : _) → result ≡ Some number → (number < count)
            × (flag self.now number ≡ false) × ((k : ℕ) → k < number → flag self.now k ≡ true) }
    {
        for number in 0..count {
            if !self.has(number) {
                return Some(number);
            }
        }
        None
    }
}

impl Flags {
    /// Whether all numbers below a count are in the set.
    pub fn has_all(&self, count: usize) -> bool
        ensures { IsTrue result ↔ ((k : ℕ) → k < count → flag self.now k ≡ true) }
    {
        match self.first_other(count) {
            Some(_) => false,
            None => true,
        }
    }
}

/// What the first elements of a format show.
#[derive(Drop)]
pub struct Shown {
    pub operands: Flags,
    pub attrs: Flags,
    pub regions: Flags,
    pub successors: Flags,
    pub operand_types: Flags,
    pub result_types: Flags,
    pub dict: bool,
    /// The place of the first element that shows again what was shown before it.
    pub repeated: Option<u32>,
}

impl Shown {
    fn new(alloc: Global) -> Shown
        ensures { Saw [] result }
    {
        Shown {
            operands: Flags::new(alloc),
            attrs: Flags::new(alloc),
            regions: Flags::new(alloc),
            successors: Flags::new(alloc),
            operand_types: Flags::new(alloc),
            result_types: Flags::new(alloc),
            dict: false,
            repeated: None,
        }
    }

    fn has(&self, thing: Thing) -> bool
        ensures { result ≡ holds self.now thing }
    {
        match thing {
            Thing::Operand(number) => self.operands.has(number),
            Thing::Attr(number) => self.attrs.has(number),
            Thing::Region(number) => self.regions.has(number),
            Thing::Successor(number) => self.successors.has(number),
            Thing::OperandTypes(number) => self.operand_types.has(number),
            Thing::ResultTypes(number) => self.result_types.has(number),
            Thing::Dict => self.dict,
        }
    }

    fn add(&mut self, thing: Thing) -> Result<(), AllocError>
        ensures { OnOk result ((other : Thing) →
            holds self.new other ≡ (spec.same_thing other thing || holds self.old other)) }
    {
        match thing {
            Thing::Operand(number) => self.operands.add(number)?,
            Thing::Attr(number) => self.attrs.add(number)?,
            Thing::Region(number) => self.regions.add(number)?,
            Thing::Successor(number) => self.successors.add(number)?,
            Thing::OperandTypes(number) => self.operand_types.add(number)?,
            Thing::ResultTypes(number) => self.result_types.add(number)?,
            Thing::Dict => self.dict = true,
        }
        Ok(())
    }

    /// The place of the first element that shows something again, where the one at this place shows
    /// a thing more.
    fn repeated_with(&self, at: u32, thing: Thing) -> Option<u32>
        ensures { result ≡ option_or self.now.repeated
            (if holds self.now thing then Some at else None) }
    {
        match self.repeated {
            Some(first) => Some(first),
            None if self.has(thing) => Some(at),
            None => None,
        }
    }

    /// Notes a thing that the element at a place shows.
    fn note(&mut self, at: u32, thing: Thing) -> Result<(), AllocError>
        ensures { OnOk result (Notes (showing at thing ∷ []) self.old self.new) }
    {
        let repeated = self.repeated_with(at, thing);
        self.add(thing)?;
        self.repeated = repeated;
        Ok(())
    }

    fn note_operand_types(&mut self, at: u32, count: usize) -> Result<(), AllocError>
        ensures { OnOk result (Notes
            (map (showing at) (map (λ i. thing.OperandTypes i) (range_with_len 0 count)))
            self.old self.new) }
    {
        for number in 0..count {
            self.note(at, Thing::OperandTypes(number))?;
        }
        Ok(())
    }

    fn note_result_types(&mut self, at: u32, count: usize) -> Result<(), AllocError>
        ensures { OnOk result (Notes
            (map (showing at) (map (λ i. thing.ResultTypes i) (range_with_len 0 count)))
            self.old self.new) }
    {
        for number in 0..count {
            self.note(at, Thing::ResultTypes(number))?;
        }
        Ok(())
    }

    fn note_types(&mut self, op: &OpDef, at: u32, types: &TypeArg) -> Result<(), AllocError>
        ensures { OnOk result (Notes
            (map (showing at) (spec.types_things op.now types.now)) self.old self.new) }
    {
        match types {
            TypeArg::Operand(number) => self.note(at, Thing::OperandTypes(*number)),
            TypeArg::Result(number) => self.note(at, Thing::ResultTypes(*number)),
            TypeArg::AllOperands => self.note_operand_types(at, op.operands.len()),
            TypeArg::AllResults => self.note_result_types(at, op.results.len()),
        }
    }

    fn note_functional(
        &mut self,
        op: &OpDef,
        at: u32,
        inputs: &TypeArg,
        outputs: &TypeArg,
    ) -> Result<(), AllocError>
        ensures { OnOk result (Notes (map (showing at)
            (spec.types_things op.now inputs.now ++ spec.types_things op.now outputs.now))
            self.old self.new) }
    {
        self.note_types(op, at, inputs)?;
        self.note_types(op, at, outputs)?;
        Ok(())
    }

    /// Notes what an element shows that is no group.
    fn note_kind(&mut self, op: &OpDef, at: u32, kind: &ElementKind) -> Result<(), AllocError>
        ensures { OnOk result (Notes
            (map (showing at) (spec.things op.now (form_of kind.now))) self.old self.new) }
    {
        match kind {
            ElementKind::Operand(number) => self.note(at, Thing::Operand(*number)),
            ElementKind::Attr(number) => self.note(at, Thing::Attr(*number)),
            ElementKind::Region(number) => self.note(at, Thing::Region(*number)),
            ElementKind::Successor(number) => self.note(at, Thing::Successor(*number)),
            ElementKind::SymbolName(number) => self.note(at, Thing::Attr(*number)),
            ElementKind::IntText { attr, .. } => self.note(at, Thing::Attr(*attr)),
            ElementKind::Types(types) => self.note_types(op, at, types),
            ElementKind::Functional { inputs, outputs } => {
                self.note_functional(op, at, inputs, outputs)
            }
            ElementKind::Dict => self.note(at, Thing::Dict),
            ElementKind::DictKeyword => self.note(at, Thing::Dict),
            ElementKind::Word(_) => Ok(()),
            ElementKind::Punct(_) => Ok(()),
            ElementKind::Space => Ok(()),
            ElementKind::Newline => Ok(()),
            ElementKind::Empty => Ok(()),
            ElementKind::Group { .. } => Ok(()),
        }
    }

    fn note_items(&mut self, op: &OpDef, items: &[Element]) -> Result<(), AllocError>
        ensures { OnOk result (Notes
            (flat_map (spec.item_showings op.now) items.now) self.old self.new) }
    {
        let mut at = 0;
        while at < items.len() {
            let item = &items[at];
            self.note_kind(op, item.at, &item.kind)?;
            at += 1;
        }
        Ok(())
    }

    fn note_group(
        &mut self,
        op: &OpDef,
        first: &[Element],
        otherwise: &[Element],
    ) -> Result<(), AllocError>
        ensures { OnOk result (Notes (flat_map (spec.item_showings op.now) first.now
            ++ flat_map (spec.item_showings op.now) otherwise.now) self.old self.new) }
    {
        self.note_items(op, first)?;
        self.note_items(op, otherwise)?;
        Ok(())
    }

    fn note_element(&mut self, op: &OpDef, element: &Element) -> Result<(), AllocError>
        ensures { OnOk result (Notes
            (spec.element_showings op.now element.now) self.old self.new) }
    {
        match &element.kind {
            ElementKind::Group {
                first,
                otherwise,
                ..
            } => self.note_group(op, first.as_slice(), otherwise.as_slice()),
            kind => self.note_kind(op, element.at, kind),
        }
    }

    /// What a format shows.
    pub fn of(alloc: Global, op: &OpDef, elements: &[Element]) -> Result<Shown, AllocError>
        ensures { IfOk result (Saw (spec.showings op.now elements.now)) }
    {
        let mut shown = Shown::new(alloc);
        let mut at = 0;
        while at < elements.len() {
            shown.note_element(op, &elements[at])?;
            at += 1;
        }
        Ok(shown)
    }
}
