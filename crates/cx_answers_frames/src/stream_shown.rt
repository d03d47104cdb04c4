//! Frames and faults as they are printed.

use cx_frame::{BannerRefusal, Frame, FrameRefusal, Segment};
use cx_secure::SecureRefusal;
use cx_stream::StreamFault;
use std::fmt;

/// A frame: its tag, and its segments in hexadecimal.
#[derive(Clone, Copy)]
pub struct Shown<'a>(pub &'a Frame);

impl fmt::Display for Shown<'_> {
    fn fmt<W: fmt::Write>(&self, f: &mut fmt::Formatter<W>) -> fmt::Result {
        let frame = self.0;
        write!(f, "frame {}", frame.tag)?;
        for segment in frame.segments.all() {
            write!(f, " ")?;
            put_segment(f, segment)?;
        }
        Ok(())
    }
}

fn put_segment<W: fmt::Write>(f: &mut fmt::Formatter<W>, segment: &Segment) -> fmt::Result {
    if segment.bytes.bytes().is_empty() {
        return write!(f, "-");
    }
    for byte in segment.bytes.bytes() {
        write!(f, "{byte:02x}")?;
    }
    Ok(())
}

/// A fault by its name.
pub fn name_of(fault: StreamFault) -> &'static str {
    match fault {
        StreamFault::Banner(BannerRefusal::BadBanner(_)) => "bad-banner",
        StreamFault::Banner(BannerRefusal::Features(_)) => "features",
        StreamFault::Plain(refusal) => plain_name(refusal),
        StreamFault::Secure(refusal) => secure_name(refusal),
    }
}

fn plain_name(refusal: FrameRefusal) -> &'static str {
    match refusal {
        FrameRefusal::BadCrc => "bad-crc",
        FrameRefusal::BadShape => "bad-shape",
        FrameRefusal::TooLong(_) => "too-long",
        FrameRefusal::Aborted => "aborted",
        FrameRefusal::OutOfMemory => "out-of-memory",
    }
}

fn secure_name(refusal: SecureRefusal) -> &'static str {
    match refusal {
        SecureRefusal::CounterSpent => "counter-spent",
        SecureRefusal::BadTag => "bad-tag",
        SecureRefusal::BadCrc => "bad-crc",
        SecureRefusal::BadShape => "bad-shape",
        SecureRefusal::TooLong(_) => "too-long",
        SecureRefusal::Aborted => "aborted",
        SecureRefusal::OutOfMemory => "out-of-memory",
    }
}
