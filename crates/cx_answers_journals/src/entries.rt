//! Entries of a log, as rows spell them.

use crate::marks::{draw_of, mark_of};
use cx_base::NodeName;
use cx_steps::{Logged, SealEntry};
use cx_words::name;
use std::alloc::{AllocError, Global};

/// The entry at a node that the rest of its row spells: a line, what was done, and with what. None where it spells none.
pub fn entry_of(alloc: Global, node: &str, rest: &str) -> Result<Option<Logged>, AllocError> {
    let Some(node) = node_of(alloc, node)? else {
        return Ok(None);
    };
    let (line, rest) = rest.split_once(' ').unwrap_or((rest, ""));
    let Ok(line) = line.parse::<u32>() else {
        return Ok(None);
    };
    let (what, rest) = rest.split_once(' ').unwrap_or((rest, ""));
    let Some(entry) = seal_of(alloc, what, rest)? else {
        return Ok(None);
    };
    Ok(Some(Logged { node, line, entry }))
}

fn node_of(alloc: Global, word: &str) -> Result<Option<NodeName>, AllocError> {
    if word == "mon" {
        return Ok(Some(NodeName::Monitor));
    }
    Ok(name(alloc, word.as_bytes())?.map(NodeName::Entity))
}

fn seal_of(alloc: Global, what: &str, parts: &str) -> Result<Option<SealEntry>, AllocError> {
    match what {
        "sealed" => Ok(mark_of(alloc, parts)?.map(SealEntry::Sealed)),
        "opened" => Ok(mark_of(alloc, parts)?.map(SealEntry::Opened)),
        "signed" => Ok(mark_of(alloc, parts)?.map(SealEntry::Signed)),
        "checked" => Ok(mark_of(alloc, parts)?.map(SealEntry::Checked)),
        "drawn" => Ok(draw_of(alloc, parts)?.map(SealEntry::Drawn)),
        _ => Ok(None),
    }
}
