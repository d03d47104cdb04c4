//! Caps texts, the parts of an object's address, and bytes in hex.

ghost use Rattle.std.specs.Prelude.{◌≡◌, IfOk, IfSome, IsTrue};
ghost use Rattle.cx_base.specs.Texts.{is_caps, is_part};
ghost use Rattle.cx_words.specs.Words.{caps_of, hex_of, is_in_marks, part_of, part_word, quoted, some_bytes, IsHexWord};

use crate::cut::is_word;
use cx_base::{Blob, Text, is_caps, is_long_part};
use std::alloc::{AllocError, Global};

/// The capability text that the word spells: in quotation marks, at most 4,096 bytes from 0x20 to 0x7e, none of them a
/// quotation mark or a backslash.
pub fn caps(alloc: Global, word: &[u8]) -> Result<Option<Text>, AllocError>
    ensures read { IfOk result (λ found. found ≡ caps_of word.now) }
    ensures spelled { IfOk result (λ found. IfSome found (λ caps. IsTrue (is_caps caps) × (word.now ≡ quoted caps))) }
{
    if !is_in_marks(word) {
        return Ok(None);
    }
    let inside = &word[1..word.len() - 1];
    if !is_caps(inside) {
        return Ok(None);
    }
    let caps = Text::from_ascii(alloc, inside)?;
    Ok(Some(caps))
}

fn is_in_marks(word: &[u8]) -> bool
    ensures { result ≡ is_in_marks word.now }
{
    word.len() >= 2 && word[0] == b'"' && word[word.len() - 1] == b'"'
}

/// The pool, namespace or object that the word spells: `-` is the empty one, else 1 to 255 bytes among letters, digits and
/// `_ - .`.
#[tactic(auto, unfolding(crate::specs::Words::part_of))]
pub fn part(alloc: Global, word: &[u8]) -> Result<Option<Text>, AllocError>
    ensures read { IfOk result (λ found. found ≡ part_of word.now) }
    ensures spelled { IfOk result (λ found. IfSome found (λ part. IsTrue (is_part part) × (word.now ≡ part_word part))) }
{
    if is_word(word, "-") {
        let none = Text::new(alloc)?;
        return Ok(Some(none));
    }
    if !is_long_part(word) {
        return Ok(None);
    }
    let part = Text::from_ascii(alloc, word)?;
    Ok(Some(part))
}

/// The bytes that the word spells in hex: `-` is none, else an even number, at least two, of hex digits in either case.
#[tactic(auto, unfolding(crate::specs::Words::hex_of))]
pub fn hex(alloc: Global, word: &[u8]) -> Result<Option<Blob>, AllocError>
    ensures read { IfOk result (λ found. found ≡ hex_of word.now) }
    ensures spelled { IfOk result (λ found. IfSome found (λ bytes. IsHexWord word.now bytes)) }
{
    if is_word(word, "-") {
        return Ok(Some(Blob::new(alloc)));
    }
    match hex::decode(alloc, word) {
        Ok(bytes) => some_bytes(alloc, bytes.as_slice()),
        Err(hex::FromHexError::OutOfMemory) => Err(AllocError),
        Err(hex::FromHexError::OddLength) => Ok(None),
        Err(hex::FromHexError::InvalidHexCharacter { .. }) => Ok(None),
        Err(hex::FromHexError::InvalidStringLength) => Ok(None),
    }
}

fn some_bytes(alloc: Global, bytes: &[u8]) -> Result<Option<Blob>, AllocError>
    ensures { IfOk result (λ found. found ≡ some_bytes (Ok bytes.now)) }
{
    if bytes.is_empty() {
        return Ok(None);
    }
    let blob = Blob::of(alloc, bytes)?;
    Ok(Some(blob))
}
