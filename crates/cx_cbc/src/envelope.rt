//! The envelope before it is encrypted.

ghost use Rattle.std.specs.Prelude.{◌≡◌, ◌==◌, ℕ, ◌%◌, List, IfOk, IfSome, IfNone, length};
ghost use Rattle.std.specs.List.{list_all};
ghost use Rattle.cx_cbc.specs.Envelope.{enveloped, padded};

use std::alloc::{AllocError, Global};

/// Version 1, and the magic number 0xff009cad8826aa55, its lowest byte first.
pub(crate) const HEAD: [u8; 9] = [1, 0x55, 0xaa, 0x26, 0x88, 0xad, 0x9c, 0x00, 0xff];

/// The fewest bytes of padding.
const FEWEST: usize = 1;

/// The most bytes of padding.
const MOST: usize = 16;

// The envelope of a content.
pub(crate) fn enveloped(alloc: Global, content: &[u8]) -> Result<Vec<u8>, AllocError>
    ensures { IfOk result (λ plain. plain.items ≡ enveloped content.now) }
{
    let mut plain = Vec::with_capacity(alloc, content.len().saturating_add(25))?;
    plain.extend_from_slice(&HEAD)?;
    plain.extend_from_slice(content)?;
    let missing = 16 - plain.len() % 16;
    let fill = [missing as u8; 16];
    plain.extend_from_slice(&fill[..missing])?;
    Ok(plain)
}

// The content of an envelope, in whole blocks.
pub(crate) fn content_of(plain: &[u8]) -> Option<&[u8]>
    requires { length plain.now % 16 ≡ 0 }
    ensures found { IfSome result (λ content. plain.now ≡ enveloped content.now) }
    ensures none { IfNone result ((content : List ℕ) → plain.now ≡ enveloped content → ⊥) }
{
    let bytes = without_padding(plain)?;
    bytes.strip_prefix(&HEAD)
}

// The bytes before the padding.
fn without_padding(plain: &[u8]) -> Option<&[u8]>
    requires { length plain.now % 16 ≡ 0 }
    ensures found { IfSome result (λ bytes. plain.now ≡ padded bytes.now) }
    ensures none { IfNone result ((bytes : List ℕ) → plain.now ≡ padded bytes → ⊥) }
{
    let last = *plain.last()?;
    let missing = last as usize;
    if missing < FEWEST {
        return None;
    }
    if missing > MOST {
        return None;
    }
    let (bytes, fill) = plain.split_at(plain.len() - missing);
    if is_filled(fill, last) {
        Some(bytes)
    } else {
        None
    }
}

// Whether each byte is this one.
fn is_filled(bytes: &[u8], byte: u8) -> bool
    ensures { result ≡ list_all (λ b. b == byte) bytes.now }
{
    bytes.iter().all(|b| *b == byte)
}
