//! The shapes of names, and the reserved ones.

ghost use Rattle.std.specs.Prelude.{◌≡◌, ◌↔◌, IsTrue};
ghost use Rattle.std.specs.List.{list_all, list_any};
ghost use Rattle.dialect_registry.specs.NameShapes as spec;

/// Whether a byte is a letter or `_`.
fn is_start(byte: u8) -> bool
    ensures { result ≡ spec.is_start byte }
{
    (b'A' <= byte && byte <= b'Z') || ((b'a' <= byte && byte <= b'z') || byte == b'_')
}

/// Whether a byte is `$` or `.`.
fn is_sign(byte: u8) -> bool
    ensures { result ≡ spec.is_sign byte }
{
    byte == b'$' || byte == b'.'
}

/// Whether a byte may stand behind the first of a bare id.
fn is_inner(byte: u8) -> bool
    ensures { result ≡ spec.is_inner byte }
{
    is_start(byte) || ((b'0' <= byte && byte <= b'9') || is_sign(byte))
}

/// Whether all bytes may stand behind the first of a bare id.
fn are_inner(bytes: &[u8]) -> bool
    ensures { result ≡ list_all spec.is_inner bytes.now }
{
    bytes.iter().all(|byte| is_inner(*byte))
}

/// Whether a `$` or a `.` is among the bytes.
fn has_sign(bytes: &[u8]) -> bool
    ensures { result ≡ list_any spec.is_sign bytes.now }
{
    bytes.iter().any(|byte| is_sign(*byte))
}

/// Whether a name is a bare id, as that of a definition has to be.
pub fn is_bare_id(name: &[u8]) -> bool
    ensures { result ≡ spec.is_bare_id name.now }
{
    match name {
        [] => false,
        [first, rest @ ..] => is_start(*first) && are_inner(rest),
    }
}

/// Whether no file may define a dialect of this name.
pub fn is_bad_dialect(name: &[u8]) -> bool
    ensures { IsTrue result ↔ spec.IsBadDialectName name.now }
{
    !is_bare_id(name) || has_sign(name) || is_reserved_dialect(name)
}

fn is_reserved_dialect(name: &[u8]) -> bool
    ensures { result ≡ spec.is_one_of spec.reserved_dialects name.now }
{
    name == b"builtin".as_slice() || (name == b"irdl".as_slice() || name == b"irdl_opt".as_slice())
}

/// Whether no operation may name an attribute so.
pub fn is_reserved_attr(name: &[u8]) -> bool
    ensures { result ≡ spec.is_one_of spec.reserved_attrs name.now }
{
    name == b"operandSegmentSizes".as_slice() || name == b"resultSegmentSizes".as_slice()
}
