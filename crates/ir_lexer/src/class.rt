//! The classes of tokens.

/// A token's class. `specs/Spelling.antt` says how each is spelled.
#[derive(Clone, Copy, Debug, PartialEq, Eq)]
pub enum Class {
    /// A bare id, as `func`; the names of types, as `i32`, are words too.
    Word,
    /// Digits, or `0x` and hexadecimal digits.
    Integer,
    /// A number with a point, as `1.5e-3`.
    Float,
    /// Dimensions, each with its `x`, as `4x?x`.
    Dims,
    /// A string in quotes.
    Str,
    /// `%` and a name or a number.
    ValueName,
    /// `^` and a name or a number.
    BlockName,
    /// `@` and a name, a number or a string.
    SymbolName,
    /// `!` and a name or a number.
    TypeName,
    /// `#` and a name.
    AttrName,
    /// `#` and a number.
    ResultNumber,
    /// `:`
    Colon,
    /// `::`
    ColonColon,
    /// `,`
    Comma,
    /// `=`
    Equal,
    /// `<`
    Less,
    /// `>`
    Greater,
    /// `(`
    LParen,
    /// `)`
    RParen,
    /// `{`
    LBrace,
    /// `}`
    RBrace,
    /// `[`
    LSquare,
    /// `]`
    RSquare,
    /// `->`
    Arrow,
    /// `-`
    Minus,
    /// `?`
    Question,
    /// `+`
    Plus,
    /// `*`
    Star,
    /// One byte, where no spelling stands, as the quote of an unclosed string.
    Bad,
    /// The end of the text.
    End,
}
