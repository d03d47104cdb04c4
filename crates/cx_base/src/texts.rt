//! Capability texts and the parts of an object's address: which bytes they have.

ghost use Rattle.std.specs.Prelude.{◌≡◌, true, None, IsTrue};
ghost use Rattle.std.specs.List.{list_all, position};
ghost use Rattle.cx_base.specs.Owners.{is_above_ascii};
ghost use Rattle.cx_base.specs.Texts.{is_caps, is_caps_byte, is_long_part, is_part, is_part_byte};

/// Whether these bytes are a capability text: at most 4,096 bytes from 0x20 to 0x7e, none of them a quotation mark or a
/// backslash.
#[tactic(auto, using(crate::proofs::AsciiTexts::ascii_caps))]
pub fn is_caps(text: &[u8]) -> bool
    ensures value { result ≡ is_caps text.now }
    ensures ascii { result ≡ true → position is_above_ascii text.now ≡ None }
{
    text.len() <= 4096 && all_caps_bytes(text)
}

fn all_caps_bytes(bytes: &[u8]) -> bool
    ensures { result ≡ list_all is_caps_byte bytes.now }
{
    bytes.iter().all(|b| is_caps_byte(*b))
}

/// Whether a capability text may have this byte.
pub fn is_caps_byte(b: u8) -> bool
    ensures { result ≡ is_caps_byte b }
{
    b >= b' ' && b <= b'~' && b != b'"' && b != b'\\'
}

/// Whether these bytes are a pool, a namespace or an object: none, or 1 to 255 among letters, digits and `_ - .`, and not
/// `-` alone.
#[tactic(auto, using(crate::proofs::AsciiTexts::ascii_part))]
pub fn is_part(text: &[u8]) -> bool
    ensures value { result ≡ is_part text.now }
    ensures ascii { result ≡ true → position is_above_ascii text.now ≡ None }
{
    match text {
        [] => true,
        _ => is_long_part(text),
    }
}

/// Whether these bytes are a pool, a namespace or an object that isn't empty.
#[tactic(auto, using(crate::proofs::AsciiTexts::ascii_long_part))]
pub fn is_long_part(text: &[u8]) -> bool
    ensures value { result ≡ is_long_part text.now }
    ensures ascii { result ≡ true → position is_above_ascii text.now ≡ None }
{
    text != b"-".as_slice() && !text.is_empty() && text.len() <= 255 && all_part_bytes(text)
}

fn all_part_bytes(text: &[u8]) -> bool
    ensures { result ≡ list_all is_part_byte text.now }
{
    text.iter().all(|b| is_part_byte(*b))
}

fn is_part_byte(b: u8) -> bool
    ensures { result ≡ is_part_byte b }
{
    (b >= b'a' && b <= b'z')
        || (b >= b'A' && b <= b'Z')
        || (b >= b'0' && b <= b'9')
        || b == b'_'
        || b == b'-'
        || b == b'.'
}
