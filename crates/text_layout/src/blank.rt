//! The bytes before a token.

ghost use Rattle.std.specs.Prelude.{◌≡◌, ◌+◌, ◌≤◌, ◌∷◌};
ghost use Rattle.ir_lexer.specs.Signs.{line_feed};
ghost use Rattle.text_layout.specs.Blank.{blank_text, IsShort};
ghost use Rattle.text_layout.specs.Lines.{spaces};

/// The greatest indent that a break of the line sets, in spaces.
pub const INDENT_LIMIT: u32 = 130;

/// What stands before a token.
#[derive(Clone, Copy)]
pub enum Blank {
    Nothing,
    Space,
    /// The spaces at the start of a line.
    Indent(u32),
    /// A line feed, and such spaces.
    Break(u32),
}

/// A line feed, and the longest indent: two spaces more than [`INDENT_LIMIT`].
static BLANKS: &[u8] = b"\n                                                                  \
    \x20                                                                 ";

fn longest_blank() -> &'static [u8]
    ensures { result.now ≡ line_feed ∷ spaces (INDENT_LIMIT + 2) }
{
    BLANKS
}

impl Blank {
    /// The bytes.
    pub fn bytes(self) -> &'static [u8]
        requires { IsShort self }
        ensures { result.now ≡ blank_text self }
    {
        let longest = longest_blank();
        match self {
            Blank::Nothing => &longest[..0],
            Blank::Space => &longest[1..2],
            Blank::Indent(n) => &longest[1..1 + n as usize],
            Blank::Break(n) => &longest[..1 + n as usize],
        }
    }
}
