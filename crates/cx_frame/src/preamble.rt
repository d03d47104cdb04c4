//! What the preamble of a frame announces.

/// A frame's tag, how many segments it has, and their lengths and alignments, which are zero where there is no segment.
#[derive(Clone, Copy, PartialEq, Eq)]
pub struct Preamble {
    pub tag: u8,
    pub count: u8,
    pub lengths: [u32; 4],
    pub aligns: [u16; 4],
}
