//! What a format looks for in a token.

use attr_value::Text;
use ir_lexer::Class;

/// One demand on a token.
#[derive(Debug, Drop)]
pub enum Look {
    /// This sign.
    Punct(Class),
    /// A value's name, as `%a`.
    Value,
    /// A block's name, as `^a`.
    Block,
    /// A symbol's name, as `@a`.
    Symbol,
    /// A type's name, as `!a`.
    TypeName,
    /// An attribute's name, as `#a`.
    AttrName,
    /// An integer.
    Integer,
    /// A string.
    Str,
    /// The name of an integer type.
    IntWord,
    /// A word in which a dot stands.
    Dotted,
    /// The end of the text.
    End,
    /// This word.
    Word(Text),
}
