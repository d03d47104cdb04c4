//! Rows of kinds and words, and what is told of them.

use crate::banners::banner;
use crate::frames::{plain, plain_of};
use crate::secure::{secure, secure_of};
use crate::streams::Streams;
use std::alloc::{AllocError, Global};

/// What is told of a row: an empty one and one that begins with `#` as they are; else what its bytes mean, or why they are refused.
pub fn told(alloc: Global, streams: &mut Streams, row: &str) -> Result<String, AllocError> {
    if row.is_empty() || row.starts_with('#') {
        return format!(in alloc; "{row}\n");
    }
    let (kind, words) = row.split_once(' ').unwrap_or((row, ""));
    match kind {
        "banner" => banner(alloc, words),
        "plain" => plain(alloc, words),
        "plain-of" => plain_of(alloc, words),
        "secure" => secure(alloc, words),
        "secure-of" => secure_of(alloc, words),
        "stream" | "cut" | "break" => streams.told(alloc, row),
        _ => format!(in alloc; "{kind}: no such kind\n"),
    }
}
