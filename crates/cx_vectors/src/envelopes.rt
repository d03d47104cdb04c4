//! Rows of the sealed envelope, AES-128 in CBC.

use crate::words::{Hex, Untold, array_of};
use cx_aes::Schedule;
use cx_base::Blob;
use cx_cbc::{OpenRefusal, SealRefusal, open, seal, seal_16};
use std::alloc::Global;

/// A key, a content and its envelope, or what it ends with: what the content is sealed to, also without memory where it has sixteen
/// bytes, and whether that opens to the content.
pub fn envelope(alloc: Global, words: &[Blob]) -> Result<String, Untold> {
    let [key, content, _envelope] = words else {
        return Err(Untold::NoRow);
    };
    let key = Schedule::new(array_of(key)?);
    let sealed = match seal(alloc, &key, content.bytes()) {
        Ok(sealed) => sealed,
        Err(SealRefusal::TooLong) => {
            let answer = format!(in alloc; "too long")?;
            return Ok(answer);
        }
        Err(SealRefusal::OutOfMemory) => return Err(Untold::OutOfMemory),
    };
    let mut answer = format!(in alloc; "{}", Hex(sealed.bytes()))?;
    if let Some(block) = content.bytes().as_array::<16>() {
        write!(answer, " and {}", Hex(&seal_16(&key, block)))?;
    }
    let word = match opens_to(alloc, &key, sealed.bytes(), content)? {
        Some(true) => "back",
        Some(false) => "otherwise",
        None => "unopened",
    };
    write!(answer, " {word}")?;
    Ok(answer)
}

// Whether the bytes open to this content. None where they don't open.
fn opens_to(
    alloc: Global,
    key: &Schedule,
    bytes: &[u8],
    content: &Blob,
) -> Result<Option<bool>, Untold> {
    match open(alloc, key, bytes) {
        Ok(opened) => Ok(Some(opened == *content)),
        Err(OpenRefusal::Unopened) => Ok(None),
        Err(OpenRefusal::OutOfMemory) => Err(Untold::OutOfMemory),
    }
}

/// A key and bytes: what they open to.
pub fn opened(alloc: Global, words: &[Blob]) -> Result<String, Untold> {
    let [key, bytes] = words else {
        return Err(Untold::NoRow);
    };
    let key = Schedule::new(array_of(key)?);
    let answer = match open(alloc, &key, bytes.bytes()) {
        Ok(content) => format!(in alloc; "to {}", Hex(content.bytes()))?,
        Err(OpenRefusal::Unopened) => format!(in alloc; "unopened")?,
        Err(OpenRefusal::OutOfMemory) => return Err(Untold::OutOfMemory),
    };
    Ok(answer)
}

/// A key and a content: what comes of each byte of its envelope with its lowest bit flipped. `-` stands for what doesn't open, `o` for
/// what opens to another content, `x` for what opens to the same.
pub fn flipped_envelope(alloc: Global, words: &[Blob]) -> Result<String, Untold> {
    let [key, content] = words else {
        return Err(Untold::NoRow);
    };
    let key = Schedule::new(array_of(key)?);
    let Ok(sealed) = seal(alloc, &key, content.bytes()) else {
        return Err(Untold::NoRow);
    };
    let mut answer = String::new(alloc);
    for place in 0..sealed.bytes().len() {
        let mut other = Vec::from_slice(alloc, sealed.bytes())?;
        if let Some(byte) = other.get_mut(place) {
            *byte ^= 1;
        }
        let sign = match opens_to(alloc, &key, &other, content)? {
            Some(true) => 'x',
            Some(false) => 'o',
            None => '-',
        };
        write!(answer, "{sign}")?;
    }
    Ok(answer)
}
