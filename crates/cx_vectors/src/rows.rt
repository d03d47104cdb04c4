//! Rows of kinds and words, and what is told of them.

use crate::blocks::{blocks, four_blocks, product, substituted};
use crate::digests::{code, code_of_parts, sum};
use crate::envelopes::{envelope, flipped_envelope, opened};
use crate::frames::{flipped_frame, frame, frame_by_schedule};
use crate::words::{Untold, words_of};
use std::alloc::{AllocError, Global};

/// What is told of a row: an empty one and one that begins with `#` as they are; else what the crates answer.
pub fn told(alloc: Global, row: &str) -> Result<String, AllocError> {
    if row.is_empty() || row.starts_with('#') {
        return format!(in alloc; "{row}\n");
    }
    let (kind, words) = row.split_once(' ').unwrap_or((row, ""));
    match answer(alloc, kind, words) {
        Ok(answer) => format!(in alloc; "{kind} {answer}\n"),
        Err(Untold::NoRow) => format!(in alloc; "{kind}: no such row\n"),
        Err(Untold::OutOfMemory) => Err(AllocError),
    }
}

fn answer(alloc: Global, kind: &str, words: &str) -> Result<String, Untold> {
    let words = words_of(alloc, words)?;
    let words = words.all();
    match kind {
        "aes" => blocks(alloc, words),
        "aes-four" => four_blocks(alloc, words),
        "sbox" => substituted(alloc, words),
        "ghash" => product(alloc, words),
        "gcm" => frame(alloc, words),
        "gcm-schedule" => frame_by_schedule(alloc, words),
        "gcm-flipped" => flipped_frame(alloc, words),
        "cbc" => envelope(alloc, words),
        "cbc-open" => opened(alloc, words),
        "cbc-flipped" => flipped_envelope(alloc, words),
        "crc32c" => sum(alloc, words),
        "hmac" => code(alloc, words),
        "hmac-parts" => code_of_parts(alloc, words),
        _ => Err(Untold::NoRow),
    }
}
