//! Frames as words, and frames that are made of lengths.

ghost use Rattle.std.specs.Prelude.{◌≡◌, ◌^◌, ◌<◌, ◌↔◌, All, IsTrue, length};
ghost use Rattle.cx_frame.specs.Frames.{IsAnnounceable};

use cx_base::{Blob, Items};
use cx_frame::{Frame, Segment};
use std::alloc::{AllocError, Global};
use std::fmt;

/// Bytes in hexadecimal; of more than 64 their number.
#[derive(Clone, Copy)]
pub struct Hex<'a>(pub &'a [u8]);

impl fmt::Display for Hex<'_> {
    fn fmt<W: fmt::Write>(&self, f: &mut fmt::Formatter<W>) -> fmt::Result {
        if self.0.len() > 64 {
            return write!(f, "({} bytes)", self.0.len());
        }
        for byte in self.0 {
            write!(f, "{:02x}", byte)?;
        }
        Ok(())
    }
}

/// A frame: its tag, and the alignment and the bytes of each segment.
pub fn tell_frame(told: &mut String, frame: &Frame) -> Result<(), AllocError> {
    write!(told, "tag {}", frame.tag)?;
    for segment in frame.segments.all() {
        write!(told, " {}:{}", segment.align, Hex(segment.bytes.bytes()))?;
    }
    write!(told, "\n")
}

/// Whether a frame can be announced, and its segments are no longer than a test needs.
pub fn is_announceable(frame: &Frame) -> bool
    ensures { IsTrue result → IsAnnounceable frame.now }
{
    let segments = frame.segments.all();
    1 <= frame.tag
        && frame.tag <= 20
        && !segments.is_empty()
        && segments.len() <= 4
        && are_short(segments)
}

fn are_short(segments: &[Segment]) -> bool
    ensures { IsTrue result ↔ All (λ s. length s.bytes < 2 ^ 32) segments.now }
{
    segments
        .iter()
        .all(|s| s.bytes.bytes().len() < 0x1_0000_0000)
}

/// A frame with segments of these lengths, whose bytes are all 0x55: the first word is its tag. None where a word is no number.
pub fn made(alloc: Global, words: &str) -> Result<Option<Frame>, AllocError> {
    let mut numbers = words.split_ascii_whitespace();
    let Some(tag) = numbers.next() else {
        return Ok(None);
    };
    let Ok(tag) = tag.parse::<u8>() else {
        return Ok(None);
    };
    let mut segments = Items::new(alloc);
    for number in numbers {
        let Ok(length) = number.parse::<u32>() else {
            return Ok(None);
        };
        let bytes = vec![in alloc; 0x55u8; length as usize]?;
        segments.push(
            alloc,
            Segment {
                align: 8,
                bytes: Blob::from(bytes),
            },
        )?;
    }
    Ok(Some(Frame { tag, segments }))
}

/// Bytes in hexadecimal, of which an even number of digits stands. None where they are none.
pub fn bytes_of(alloc: Global, digits: &str) -> Result<Option<Blob>, AllocError> {
    match hex::decode(alloc, digits) {
        Ok(bytes) => Ok(Some(Blob::from(bytes))),
        Err(_) => Ok(None),
    }
}
