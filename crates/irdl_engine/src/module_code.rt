//! The rules on modules, as a refusal tells them.

ghost use Rattle.std.specs.Prelude.{◌≡◌};
ghost use Rattle.irdl_engine.specs.InOrder.{text_at};
ghost use Rattle.irdl_engine.specs.Modules.{module_code_name, module_code_text};
ghost use Rattle.irdl_engine.specs.Words.{texts};

/// The numbers of the rules, as they are told. There is no rule 0.
const TEXTS: [&str; 22] = [
    "", "M1", "M2", "M3", "M4", "M5", "M6", "M7", "M8", "M9", "M10", "M11", "M12", "M13", "M14",
    "M15", "M16", "M17", "M18", "M19", "M20", "M21",
];

/// Their names.
const NAMES: [&str; 22] = [
    "",
    "Syntax",
    "FloatLiteral",
    "BadToken",
    "Nesting",
    "AliasUnknown",
    "AliasRepeated",
    "ValueUnknown",
    "ValueRepeated",
    "ResultNumber",
    "BlockUnknown",
    "BlockRepeated",
    "EntryTarget",
    "KeyRepeated",
    "NameUnknown",
    "Parameters",
    "IntRange",
    "OpUnknown",
    "Arity",
    "Unsatisfied",
    "UseType",
    "NotLast",
];

/// What a table has at a place; nothing behind its end.
fn entry(table: &[&'static str], code: u32) -> &'static str
    ensures { result.now ≡ text_at (texts table.now) code }
{
    if code as usize >= table.len() {
        return "";
    }
    table[code as usize]
}

/// The number of a rule as a refusal tells it, as `M19`; nothing where there is no such rule.
pub fn code_text(code: u32) -> &'static str
    ensures { result.now ≡ module_code_text code }
{
    entry(&TEXTS, code)
}

/// The name of a rule, as `Unsatisfied`; nothing where there is no such rule.
pub fn code_name(code: u32) -> &'static str
    ensures { result.now ≡ module_code_name code }
{
    entry(&NAMES, code)
}
