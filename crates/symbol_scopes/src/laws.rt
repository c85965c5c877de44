//! What names mean region by region. These functions do nothing: their clauses are facts on all
//! notes.

ghost use Rattle.std.specs.Prelude.{◌≡◌, ◌↔◌};
ghost use Rattle.first_fault.specs.declared.fault.Fault.{Fault};
ghost use Rattle.symbol_scopes.specs.declared.call.NameKind.TheVariants.{Values, Labels};
ghost use Rattle.symbol_scopes.specs.Faults.{IsNameFault};
ghost use Rattle.symbol_scopes.specs.Meanings.{value_meanings, block_meanings};
ghost use Rattle.symbol_scopes.specs.Regions.{
  Notes,
  marks,
  told_in,
  value_meant,
  block_meant,
  IsWrong,
};

/// The marks of notes mean what the notes mean region by region, and have the same faults.
pub fn by_regions()
    ensures values { (ns : Notes) → value_meanings (marks ns) ≡ told_in Values value_meant ns }
    ensures blocks { (ns : Notes) → block_meanings (marks ns) ≡ told_in Labels block_meant ns }
    ensures faults { (ns : Notes) (f : Fault) → (IsNameFault (marks ns) f ↔ IsWrong ns f) }
{}
