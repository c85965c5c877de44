//! The definitions of a text, with those of each region chained.

ghost use Rattle.std.specs.Prelude.{
  ◌≡◌,
  ◌<◌,
  ◌+◌,
  ◌^◌,
  ◌++◌,
  ◌∷◌,
  [],
  IfOk,
  IfSome,
  OnOk,
  List,
  ℕ,
  length,
};
ghost use Rattle.symbol_scopes.specs.ScopeMarks.{Binding, bindings, bindings_of, standing, passed};
ghost use Rattle.symbol_scopes.specs.Calls.{mark_of, marks_of, IsNamed, AreNamed, numbered_name};
ghost use Rattle.symbol_scopes.specs.Listed.{IsListed, bindings_in};
ghost use Rattle.symbol_scopes.specs.Slots.{found_in};

use crate::call::{Call, NameKind};
use crate::calls::Calls;
use crate::names::Names;
use crate::round::Round;
use crate::rows::{BindingRow, Listed};
use crate::slots::FoundBinding;
use std::alloc::{AllocError, Global};

impl Listed {
    /// No definition; the top level alone.
    fn new(alloc: Global) -> Result<Listed, AllocError>
        ensures { IfOk result (λ l. (ns : List (List ℕ)) → IsListed ns [] 1 l) }
    {
        let mut heads = Vec::new(alloc);
        heads.push(None)?;
        Ok(Listed {
            rows: Vec::new(alloc),
            heads,
        })
    }

    /// The definition with a number.
    pub fn found(&self, at: u32) -> Option<FoundBinding>
        ensures is { (ns : List (List ℕ)) → result ≡ found_in (bindings_in ns self.now) at }
        ensures within { IfSome result (λ f. f.at < length self.now.rows.items) }
    {
        if at as usize >= self.rows.len() {
            return None;
        }
        let row = self.rows[at as usize];
        Some(FoundBinding {
            at,
            region: row.region,
            number: row.number,
        })
    }

    /// One region more.
    fn enter(&mut self) -> Result<(), AllocError>
        ensures { OnOk result ((ns : List (List ℕ)) (ds : List Binding) (n : ℕ) →
            IsListed ns ds n self.old → IsListed ns ds (n + 1) self.new) }
    {
        self.heads.push(None)?;
        Ok(())
    }

    /// One definition more.
    fn add(&mut self, region: u32, name: u32, number: u32) -> Result<(), AllocError>
        requires { region < length self.old.heads.items }
        ensures { OnOk result ((ns : List (List ℕ)) (ds : List Binding) (n : ℕ) →
            IsListed ns ds n self.old → name < length ns →
            let more : Binding = record {
              name = numbered_name ns name;
              region = region;
              number = number;
            } in
            IsListed ns (ds ++ more ∷ []) n self.new) }
    {
        let at = self.rows.len();
        if at >= u32::MAX as usize {
            return Err(AllocError);
        }
        let next = self.heads[region as usize];
        self.rows.push(BindingRow {
            name,
            region,
            number,
            next,
        })?;
        self.heads[region as usize] = Some(at as u32);
        Ok(())
    }

    /// Goes over a call, with the regions that are open.
    fn take(
        &mut self,
        names: &Names,
        round: &mut Round,
        next: Call,
        kind: NameKind,
    ) -> Result<(), AllocError>
        requires named { IsNamed (length names.now) next }
        requires listed { IsListed names.now (bindings_in names.now self.old)
            (round.old.entered + 1) self.old }
        ensures round { OnOk result (round.new ≡ passed round.old (mark_of names.now next)) }
        ensures listed { OnOk result (IsListed names.now
            (bindings_in names.now self.old
            ++ bindings_of kind round.old.round (mark_of names.now next))
            (round.new.entered + 1) self.new) }
    {
        match next {
            Call::Enter => {
                round.enter()?;
                self.enter()?;
            }
            Call::Leave => round.leave(),
            Call::BadPack { .. } => {}
            Call::Name { name, said } => {
                if let Some(number) = said.defined(kind) {
                    self.add(round.region(), name, number)?;
                }
            }
        }
        Ok(())
    }
}

/// The definitions of one kind, in the order of the text.
pub fn list_bindings(
    alloc: Global,
    names: &Names,
    calls: &Calls,
    kind: NameKind,
) -> Result<Listed, AllocError>
    requires named { AreNamed (length names.now) calls.now }
    ensures { IfOk result (λ l. IsListed names.now (bindings kind (marks_of names.now calls.now))
        ((standing (marks_of names.now calls.now)).entered + 1) l) }
{
    let mut round = Round::new(alloc)?;
    let mut listed = Listed::new(alloc)?;
    for at in 0..calls.len() {
        listed.take(names, &mut round, calls.get(at), kind)?;
    }
    Ok(listed)
}
