//! The rules of definition files.

ghost use Rattle.std.specs.Prelude.{◌≡◌, ◌↔◌, Some, None, if◌then◌else◌};

use first_fault::Fault;

/// A rule of definition files that can be broken.
#[derive(Clone, Copy, Debug, PartialEq, Eq)]
pub enum DefCode {
    /// A token that no definition file has at its place.
    Syntax,
    /// A value nested more than 64 deep.
    Nesting,
    /// A name that stands a second time where names are distinct.
    NameRepeated,
    /// A reference to no type or attribute, or to a value name that isn't defined earlier in the
    /// same body, or for something else.
    RefUnknown,
    /// Another number of parts than the type or attribute has parameters.
    ParamCount,
    /// The name of no predicate.
    PredicateUnknown,
    /// A body with too many choices.
    ChoiceLimit,
    /// A constant that has no good value.
    ConstantBad,
    /// A format string with a token that no format has at its place.
    FormatSyntax,
    /// A name in a format that names nothing.
    FormatUnknown,
    /// A format that doesn't show something that has to be shown.
    FormatMissing,
    /// A format that shows something twice.
    FormatRepeated,
    /// A group or an anchor that isn't right.
    FormatGroup,
    /// A format in which one token doesn't decide.
    FormatAmbiguous,
    /// A format that doesn't show the type of an operand or a result.
    FormatNoType,
    /// The name of no kind of head.
    BaseUnknown,
    /// A statement that stands a second time in its body.
    StatementRepeated,
    /// A name that hasn't its shape, or that is reserved.
    ReservedName,
    /// A variable or an entry too many.
    VarLimit,
}

impl DefCode {
    ghost use Rattle.dialect_registry.specs.declared.code.DefCode.{DefCode};
    ghost use Rattle.dialect_registry.specs.Codes.{code_number, code_name};

    /// The rule of a number, where a rule has it.
    pub fn of_number(number: u32) -> Option<DefCode>
        ensures { (code : DefCode) → ((result ≡ Some code) ↔ (code_number code ≡ number)) }
    {
        match number {
            1 => Some(DefCode::Syntax),
            2 => Some(DefCode::Nesting),
            3 => Some(DefCode::NameRepeated),
            4 => Some(DefCode::RefUnknown),
            5 => Some(DefCode::ParamCount),
            6 => Some(DefCode::PredicateUnknown),
            7 => Some(DefCode::ChoiceLimit),
            8 => Some(DefCode::ConstantBad),
            9 => Some(DefCode::FormatSyntax),
            10 => Some(DefCode::FormatUnknown),
            11 => Some(DefCode::FormatMissing),
            12 => Some(DefCode::FormatRepeated),
            13 => Some(DefCode::FormatGroup),
            14 => Some(DefCode::FormatAmbiguous),
            15 => Some(DefCode::FormatNoType),
            16 => Some(DefCode::BaseUnknown),
            17 => Some(DefCode::StatementRepeated),
            18 => Some(DefCode::ReservedName),
            19 => Some(DefCode::VarLimit),
            _ => None,
        }
    }

    /// The number of the rule.
    pub fn number(self) -> u32
        ensures { result ≡ code_number self }
    {
        match self {
            DefCode::Syntax => 1,
            DefCode::Nesting => 2,
            DefCode::NameRepeated => 3,
            DefCode::RefUnknown => 4,
            DefCode::ParamCount => 5,
            DefCode::PredicateUnknown => 6,
            DefCode::ChoiceLimit => 7,
            DefCode::ConstantBad => 8,
            DefCode::FormatSyntax => 9,
            DefCode::FormatUnknown => 10,
            DefCode::FormatMissing => 11,
            DefCode::FormatRepeated => 12,
            DefCode::FormatGroup => 13,
            DefCode::FormatAmbiguous => 14,
            DefCode::FormatNoType => 15,
            DefCode::BaseUnknown => 16,
            DefCode::StatementRepeated => 17,
            DefCode::ReservedName => 18,
            DefCode::VarLimit => 19,
        }
    }

    /// The name of the rule.
    pub fn name(&self) -> &str
        ensures { result.now ≡ code_name self.now }
    {
        match self {
            DefCode::Syntax => "Syntax",
            DefCode::Nesting => "Nesting",
            DefCode::NameRepeated => "NameRepeated",
            DefCode::RefUnknown => "RefUnknown",
            DefCode::ParamCount => "ParamCount",
            DefCode::PredicateUnknown => "PredicateUnknown",
            DefCode::ChoiceLimit => "ChoiceLimit",
            DefCode::ConstantBad => "ConstantBad",
            DefCode::FormatSyntax => "FormatSyntax",
            DefCode::FormatUnknown => "FormatUnknown",
            DefCode::FormatMissing => "FormatMissing",
            DefCode::FormatRepeated => "FormatRepeated",
            DefCode::FormatGroup => "FormatGroup",
            DefCode::FormatAmbiguous => "FormatAmbiguous",
            DefCode::FormatNoType => "FormatNoType",
            DefCode::BaseUnknown => "BaseUnknown",
            DefCode::StatementRepeated => "StatementRepeated",
            DefCode::ReservedName => "ReservedName",
            DefCode::VarLimit => "VarLimit",
        }
    }
}

ghost use Rattle.dialect_registry.specs.Codes.{refusal};

/// The refusal at a place by a rule, where the rule is broken.
pub fn fault_if(broken: bool, place: u32, code: DefCode) -> Option<Fault>
    ensures { result ≡ (if broken then Some (refusal place code) else None) }
{
    if !broken {
        return None;
    }
    let code = code.number();
    Some(Fault { place, code })
}
