//! What is sealed, opened, signed, found equal and drawn, as rows spell it.

use cx_base::EntityName;
use cx_journal::KeyKind;
use cx_steps::{DrawMark, SealMark};
use cx_words::{hex, name};
use std::alloc::{AllocError, Global};

/// A kind, a key and a content.
pub fn mark_of(alloc: Global, parts: &str) -> Result<Option<SealMark>, AllocError> {
    let (kind, rest) = parts.split_once(' ').unwrap_or((parts, ""));
    let (digits, content) = rest.split_once(' ').unwrap_or((rest, ""));
    let Some(kind) = kind_of(kind) else {
        return Ok(None);
    };
    let Some(bytes) = hex(alloc, digits.as_bytes())? else {
        return Ok(None);
    };
    let Some(key) = key(bytes.bytes()) else {
        return Ok(None);
    };
    match hex(alloc, content.as_bytes())? {
        None => Ok(None),
        Some(content) => Ok(Some(SealMark { key, kind, content })),
    }
}

/// A kind, a value, and of a key of one entity whose it is.
pub fn draw_of(alloc: Global, parts: &str) -> Result<Option<DrawMark>, AllocError> {
    let (kind, rest) = parts.split_once(' ').unwrap_or((parts, ""));
    let (digits, whose) = rest.split_once(' ').unwrap_or((rest, ""));
    let Some(bytes) = hex(alloc, digits.as_bytes())? else {
        return Ok(None);
    };
    if whose.is_empty() {
        return Ok(value_of(kind, bytes.bytes()));
    }
    match name(alloc, whose.as_bytes())? {
        None => Ok(None),
        Some(for_whom) => Ok(key_of(kind, bytes.bytes(), for_whom)),
    }
}

fn value_of(kind: &str, bytes: &[u8]) -> Option<DrawMark> {
    match kind {
        "rotation" => rotation(bytes),
        "challenge" => number(bytes).map(DrawMark::Challenge),
        "nonce" => number(bytes).map(DrawMark::Nonce),
        "cookie" => number(bytes).map(DrawMark::Cookie),
        _ => None,
    }
}

fn key_of(kind: &str, bytes: &[u8], for_whom: EntityName) -> Option<DrawMark> {
    match kind {
        "principal" => principal(bytes, for_whom),
        "connection" => connection(bytes, for_whom),
        "session" => session(bytes, for_whom),
        _ => None,
    }
}

fn rotation(bytes: &[u8]) -> Option<DrawMark> {
    let key = key(bytes)?;
    Some(DrawMark::Rotation(key))
}

fn principal(bytes: &[u8], for_whom: EntityName) -> Option<DrawMark> {
    let secret = key(bytes)?;
    Some(DrawMark::Principal { secret, for_whom })
}

fn connection(bytes: &[u8], for_whom: EntityName) -> Option<DrawMark> {
    match bytes.split_first_chunk::<64>() {
        Some((secret, [])) => Some(DrawMark::Connection {
            secret: *secret,
            for_whom,
        }),
        _ => None,
    }
}

fn session(bytes: &[u8], for_whom: EntityName) -> Option<DrawMark> {
    let key = key(bytes)?;
    Some(DrawMark::Session { key, for_whom })
}

fn key(bytes: &[u8]) -> Option<[u8; 16]> {
    match bytes.split_first_chunk::<16>() {
        Some((key, [])) => Some(*key),
        _ => None,
    }
}

fn number(bytes: &[u8]) -> Option<u64> {
    match bytes.split_first_chunk::<8>() {
        Some((value, [])) => Some(u64::from_le_bytes(*value)),
        _ => None,
    }
}

fn kind_of(word: &str) -> Option<KeyKind> {
    match word {
        "principal" => Some(KeyKind::Principal),
        "auth" => Some(KeyKind::Auth),
        "service" => Some(KeyKind::Service),
        "session" => Some(KeyKind::Session),
        "connection" => Some(KeyKind::Connection),
        "proof" => Some(KeyKind::Proof),
        "signature" => Some(KeyKind::Signature),
        _ => None,
    }
}
