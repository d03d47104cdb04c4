//! Rows of secure frames: the secret of the connection, the side that sent them, `c` or `a`, and the bytes.

use crate::shown::{bytes_of, is_announceable, made, tell_frame};
use cx_base::{Blob, Items};
use cx_frame::Frame;
use cx_secure::{Sealing, SecureRefusal, rest_len};
use std::alloc::{AllocError, Global};

/// What is told of secure frames, one behind the other.
pub fn secure(alloc: Global, words: &str) -> Result<String, AllocError> {
    let (secret, words) = words.split_once(' ').unwrap_or((words, ""));
    let (side, digits) = words.split_once(' ').unwrap_or((words, ""));
    let Some(secret) = secret_of(alloc, secret)? else {
        return format!(in alloc; "secure: no secret\n");
    };
    let Some(bytes) = bytes_of(alloc, digits)? else {
        return format!(in alloc; "secure: no bytes\n");
    };
    let mut told = format!(in alloc; "secure\n")?;
    let mut opening = Sealing::new(&secret, side != "c");
    let mut sending = Sealing::new(&secret, side == "c");
    let mut again = Blob::new(alloc);
    let mut left = bytes.bytes();
    for _ in 0..100 {
        match opened(alloc, &mut opening, left) {
            Outcome::Frame(frame, behind) => {
                write!(told, "  ")?;
                tell_frame(&mut told, &frame)?;
                put_again(alloc, &mut told, &mut sending, &mut again, &frame)?;
                left = behind;
            }
            Outcome::Short => break,
            Outcome::Refused(refusal) => {
                write!(told, "  refused: {refusal}\n")?;
                break;
            }
        }
    }
    tell_end(&mut told, &opening, left, again.bytes(), bytes.bytes())?;
    Ok(told)
}

enum Outcome<'a> {
    Frame(Frame, &'a [u8]),
    Short,
    Refused(SecureRefusal),
}

// The frame at the front.
fn opened<'a>(alloc: Global, opening: &mut Sealing, bytes: &'a [u8]) -> Outcome<'a> {
    let Some((front, behind)) = bytes.split_first_chunk::<96>() else {
        return Outcome::Short;
    };
    let head = match opening.read_head(front) {
        Ok(head) => head,
        Err(refusal) => {
            opening.keep(refusal);
            return Outcome::Refused(refusal);
        }
    };
    opening.pass_head();
    let wanted = rest_len(&head);
    if behind.len() < wanted {
        return Outcome::Short;
    }
    let (rest, behind) = behind.split_at(wanted);
    let mut contents = Items::new(alloc);
    match opening.open_rest(alloc, head, rest, &mut contents) {
        Ok(frame) => Outcome::Frame(frame, behind),
        Err(refusal) => Outcome::Refused(refusal),
    }
}

fn put_again(
    alloc: Global,
    told: &mut String,
    sending: &mut Sealing,
    again: &mut Blob,
    frame: &Frame,
) -> Result<(), AllocError> {
    if !is_announceable(frame) {
        return write!(told, "  can't be written\n");
    }
    match sending.put_frame(alloc, again, frame) {
        Ok(()) => Ok(()),
        Err(refusal) => write!(told, "  not written: {refusal}\n"),
    }
}

// What is left, whether the frames are written as they were, and what the sealing keeps.
fn tell_end(
    told: &mut String,
    opening: &Sealing,
    left: &[u8],
    again: &[u8],
    bytes: &[u8],
) -> Result<(), AllocError> {
    if !left.is_empty() {
        write!(told, "  left {}\n", left.len())?;
    } else if again == bytes {
        write!(told, "  written again\n")?;
    } else {
        write!(told, "  written otherwise\n")?;
    }
    match opening.kept() {
        Some(refusal) => write!(told, "  kept: {refusal}\n"),
        None => Ok(()),
    }
}

// The secret in 128 digits.
fn secret_of(alloc: Global, digits: &str) -> Result<Option<[u8; 64]>, AllocError> {
    let Some(bytes) = bytes_of(alloc, digits)? else {
        return Ok(None);
    };
    match bytes.bytes().split_first_chunk::<64>() {
        Some((secret, _)) => Ok(Some(*secret)),
        None => Ok(None),
    }
}

/// How many bytes a secure frame with segments of these lengths takes, sent as the connector under this secret, or why it isn't sealed.
pub fn secure_of(alloc: Global, words: &str) -> Result<String, AllocError> {
    let (secret, words) = words.split_once(' ').unwrap_or((words, ""));
    let Some(secret) = secret_of(alloc, secret)? else {
        return format!(in alloc; "secure-of: no secret\n");
    };
    let frame = match made(alloc, words)? {
        Some(frame) => frame,
        None => return format!(in alloc; "secure-of: no frame\n"),
    };
    if !is_announceable(&frame) {
        return format!(in alloc; "secure-of: can't be announced\n");
    }
    let mut sending = Sealing::new(&secret, true);
    let mut text = Blob::new(alloc);
    let answer = sending.put_frame(alloc, &mut text, &frame);
    let mut told = match answer {
        Ok(()) => format!(in alloc; "secure-of {} bytes", text.bytes().len())?,
        Err(refusal) => format!(in alloc;
            "secure-of refused: {refusal}, {} bytes",
            text.bytes().len()
        )?,
    };
    match sending.kept() {
        Some(refusal) => write!(told, "; kept: {refusal}\n")?,
        None => write!(told, "\n")?,
    }
    Ok(told)
}
