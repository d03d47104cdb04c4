//! Rows of CRC-32C and of HMAC with SHA-256.

use crate::words::{Hex, Untold, array_of};
use cx_base::Blob;
use cx_digest::{Mac, crc32c, mac};
use std::alloc::Global;

/// Bytes and their sum, with all bits inverted at both ends.
pub fn sum(alloc: Global, words: &[Blob]) -> Result<String, Untold> {
    let [bytes, _sum] = words else {
        return Err(Untold::NoRow);
    };
    let sum = !crc32c(0xffff_ffff, bytes.bytes());
    let answer = format!(in alloc; "{sum:08x}")?;
    Ok(answer)
}

/// A key, a text and its code.
pub fn code(alloc: Global, words: &[Blob]) -> Result<String, Untold> {
    let [key, text, _code] = words else {
        return Err(Untold::NoRow);
    };
    if key.bytes().len() > 64 {
        return Err(Untold::NoRow);
    }
    let code = mac(key.bytes(), text.bytes());
    let answer = format!(in alloc; "{}", Hex(&code))?;
    Ok(answer)
}

/// A key of sixteen bytes, a text and its code: how often that is the code of the text in two parts, which meet at each place in turn.
pub fn code_of_parts(alloc: Global, words: &[Blob]) -> Result<String, Untold> {
    let [key, text, code] = words else {
        return Err(Untold::NoRow);
    };
    let key = array_of(key)?;
    let code = array_of::<32>(code)?;
    let mut count = 0u32;
    for place in 0..=text.bytes().len() {
        let (first, second) = text.bytes().split_at(place);
        let mut under_way = Mac::new(key);
        under_way.update(first);
        under_way.update(second);
        if under_way.finish() == *code {
            count = count.saturating_add(1);
        }
    }
    let answer = format!(in alloc; "{} x{count}", Hex(code))?;
    Ok(answer)
}
