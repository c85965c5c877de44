//! What holds of the definitions.

ghost use Rattle.type_infer.specs.OneCompletion.{OneCompletion};
ghost use Rattle.type_infer.specs.Shows.{InfersMore};

/// What is shown of an operation leaves at most one list of types.
pub fn one_completion()
    ensures { OneCompletion }
{}

/// What the rule says of a format holds of each operation of which all that the format shows is
/// shown.
pub fn infers_more()
    ensures { InfersMore }
{}
