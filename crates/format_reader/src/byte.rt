//! The bytes of which tokens are made.

ghost use Rattle.std.specs.Prelude.{◌≡◌, ◌≤◌, length};
ghost use Rattle.std.specs.List.{prefix_len};
ghost use Rattle.format_reader.specs.Scan.{is_inside};
ghost use Rattle.format_reader.specs.Spelling as spec;
ghost use Rattle.format_reader.specs.Tokens as tokens;

use ir_lexer::Class;

/// Whether a byte may stand in the name of a variable.
fn is_name_byte(byte: u8) -> bool
    ensures { result ≡ spec.is_name_byte byte }
{
    byte.is_ascii_alphanumeric() || byte == b'_'
}

/// Whether a bare id may begin with the byte.
pub fn begins_id(byte: u8) -> bool
    ensures { result ≡ spec.begins_id byte }
{
    byte.is_ascii_alphabetic() || byte == b'_'
}

/// Whether a bare id may go on with the byte.
fn goes_on_id(byte: u8) -> bool
    ensures { result ≡ spec.goes_on_id byte }
{
    byte.is_ascii_alphanumeric() || byte == b'_' || byte == b'$' || byte == b'.'
}

/// Whether tokens are separated by the byte.
fn is_blank(byte: u8) -> bool
    ensures { result ≡ tokens.is_blank byte }
{
    byte == b' ' || byte == b'\t' || byte == b'\n'
}

/// How many bytes of a variable's name a text begins with.
pub fn name_len(text: &[u8]) -> usize
    ensures value { result ≡ prefix_len spec.is_name_byte text.now }
    ensures within { result ≤ length text.now }
{
    let mut at = 0;
    while at < text.len() && is_name_byte(text[at]) {
        at += 1;
    }
    at
}

/// How many bytes of a bare id, behind its first one, a text begins with.
pub fn id_len(text: &[u8]) -> usize
    ensures value { result ≡ prefix_len spec.goes_on_id text.now }
    ensures within { result ≤ length text.now }
{
    let mut at = 0;
    while at < text.len() && goes_on_id(text[at]) {
        at += 1;
    }
    at
}

/// How many blanks a text begins with.
pub fn blank_len(text: &[u8]) -> usize
    ensures value { result ≡ prefix_len tokens.is_blank text.now }
    ensures within { result ≤ length text.now }
{
    let mut at = 0;
    while at < text.len() && is_blank(text[at]) {
        at += 1;
    }
    at
}

/// How many bytes stand before the first back-quote.
pub fn inside_len(text: &[u8]) -> usize
    ensures value { result ≡ prefix_len is_inside text.now }
    ensures within { result ≤ length text.now }
{
    let mut at = 0;
    while at < text.len() && text[at] != b'`' {
        at += 1;
    }
    at
}

/// The sign of a format text that a byte is.
pub fn sign(byte: u8) -> Option<Class>
    ensures { result ≡ spec.sign byte }
{
    match byte {
        b'(' => Some(Class::LParen),
        b')' => Some(Class::RParen),
        b':' => Some(Class::Colon),
        b',' => Some(Class::Comma),
        b'?' => Some(Class::Question),
        b'^' => Some(Class::BlockName),
        b'<' => Some(Class::Less),
        b'>' => Some(Class::Greater),
        _ => None,
    }
}

/// The sign that a literal of one byte is.
pub fn literal_sign(byte: u8) -> Option<Class>
    ensures { result ≡ spec.literal_sign byte }
{
    match byte {
        b':' => Some(Class::Colon),
        b',' => Some(Class::Comma),
        b'=' => Some(Class::Equal),
        b'<' => Some(Class::Less),
        b'>' => Some(Class::Greater),
        b'(' => Some(Class::LParen),
        b')' => Some(Class::RParen),
        b'{' => Some(Class::LBrace),
        b'}' => Some(Class::RBrace),
        b'[' => Some(Class::LSquare),
        b']' => Some(Class::RSquare),
        b'?' => Some(Class::Question),
        b'+' => Some(Class::Plus),
        b'*' => Some(Class::Star),
        _ => None,
    }
}
