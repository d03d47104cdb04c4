//! Frames and their segments.

use cx_base::{Blob, Duplicate, Items, copy_items};
use std::alloc::{AllocError, Global};

/// A segment of a frame. Its alignment is carried and has no effect; 8 is written.
#[derive(PartialEq, Eq, Drop)]
pub struct Segment {
    pub align: u16,
    pub bytes: Blob,
}

/// A frame: its tag, from 1 (HELLO) to 20 (ACK), and its one to four segments. The type itself sets no bounds.
#[derive(PartialEq, Eq, Drop)]
pub struct Frame {
    pub tag: u8,
    pub segments: Items<Segment>,
}

impl Duplicate for Segment {
    fn copy(&self, alloc: Global) -> Result<Segment, AllocError> {
        let bytes = self.bytes.copy(alloc)?;
        Ok(Segment {
            align: self.align,
            bytes,
        })
    }
}

impl Duplicate for Frame {
    fn copy(&self, alloc: Global) -> Result<Frame, AllocError> {
        let segments = copy_items(alloc, &self.segments)?;
        Ok(Frame {
            tag: self.tag,
            segments,
        })
    }
}
