//! Rows of plain frames.

use crate::shown::{bytes_of, is_announceable, made, tell_frame};
use cx_base::{Blob, Duplicate};
use cx_frame::{Frame, put_frame, read_preamble, read_rest, rest_len};
use std::alloc::{AllocError, Global};

/// What is told of a plain frame.
pub fn plain(alloc: Global, digits: &str) -> Result<String, AllocError> {
    let Some(bytes) = bytes_of(alloc, digits)? else {
        return format!(in alloc; "plain: no bytes\n");
    };
    let Some((front, rest)) = bytes.bytes().split_first_chunk::<32>() else {
        return format!(in alloc; "plain: short\n");
    };
    let head = match read_preamble(front) {
        Ok(head) => head,
        Err(refusal) => return format!(in alloc; "plain refused: {refusal}\n"),
    };
    let wanted = rest_len(&head);
    if rest.len() != wanted {
        return format!(in alloc;
            "plain: {} bytes behind the preamble, not {}\n",
            rest.len(),
            wanted
        );
    }
    match read_rest(alloc, &head, rest) {
        Ok(frame) => {
            let mut told = format!(in alloc; "plain ")?;
            tell_frame(&mut told, &frame)?;
            tell_again(alloc, &mut told, &frame, bytes.bytes())?;
            Ok(told)
        }
        Err(refusal) => format!(in alloc; "plain refused: {refusal}\n"),
    }
}

// Whether a copy of the frame is written as these bytes.
fn tell_again(
    alloc: Global,
    told: &mut String,
    frame: &Frame,
    bytes: &[u8],
) -> Result<(), AllocError> {
    let copied = frame.copy(alloc)?;
    if !is_announceable(&copied) {
        return write!(told, "  can't be written\n");
    }
    let mut again = Blob::new(alloc);
    match put_frame(alloc, &mut again, &copied) {
        Ok(()) if again.bytes() == bytes => write!(told, "  written again\n"),
        Ok(()) => write!(told, "  written otherwise\n"),
        Err(refusal) => write!(told, "  not written: {refusal}\n"),
    }
}

/// How many bytes a plain frame with segments of these lengths takes, or why it isn't written.
pub fn plain_of(alloc: Global, words: &str) -> Result<String, AllocError> {
    let frame = match made(alloc, words)? {
        Some(frame) => frame,
        None => return format!(in alloc; "plain-of: no frame\n"),
    };
    if !is_announceable(&frame) {
        return format!(in alloc; "plain-of: can't be announced\n");
    }
    let mut text = Blob::new(alloc);
    match put_frame(alloc, &mut text, &frame) {
        Ok(()) => format!(in alloc; "plain-of {} bytes\n", text.bytes().len()),
        Err(refusal) => format!(in alloc;
            "plain-of refused: {refusal}, {} bytes\n",
            text.bytes().len()
        ),
    }
}
