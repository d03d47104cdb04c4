//! What the preamble of a frame announces, and its bytes.

ghost use Rattle.std.specs.Int.{to_le_bytes, w16, w32};
ghost use Rattle.std.specs.Prelude.{◌≡◌, ℕ, ◌<◌, ◌≤◌, ◌^◌, ◌++◌, All, map, OnOk, OnErr, length, sum_by, slice_index};
ghost use Rattle.cx_frame.specs.Preambles.{IsAllowed, align_of, descriptors, front_text, length_of, preamble_of, preamble_text};
ghost use Rattle.cx_frame.specs.Frames.{IsAnnounceable, total};

use crate::frame::{Frame, Segment};
use crate::preamble::Preamble;
use cx_base::Blob;
use cx_digest::crc32c;
use std::alloc::{AllocError, Global};

/// The bytes that the segments of a frame have together.
#[tactic(auto, using(crate::proofs::Cutting::total_small))]
pub fn total(frame: &Frame) -> u64
    requires { IsAnnounceable frame.now }
    ensures { result ≡ total frame.now }
{
    total_of(frame.segments.all())
}

fn total_of(segments: &[Segment]) -> u64
    requires { sum_by length_of segments.now < 2 ^ 64 }
    ensures { result ≡ sum_by length_of segments.now }
{
    segments.iter().map(|s| s.bytes.bytes().len() as u64).sum()
}

/// What the preamble of a frame announces.
#[tactic(auto, unfolding(crate::specs::Preambles::preamble_of))]
pub fn preamble_of(frame: &Frame) -> Preamble
    requires { IsAnnounceable frame.now }
    ensures value { result ≡ preamble_of frame.now }
    // It passes the checks of a preamble where the segments are within the limit.
    ensures allowed { (limit : ℕ) → total frame.now ≤ limit → IsAllowed limit (preamble_of frame.now) }
{
    let segments = frame.segments.all();
    Preamble {
        tag: frame.tag,
        count: segments.len() as u8,
        lengths: [
            length_at(segments, 0),
            length_at(segments, 1),
            length_at(segments, 2),
            length_at(segments, 3),
        ],
        aligns: [
            align_at(segments, 0),
            align_at(segments, 1),
            align_at(segments, 2),
            align_at(segments, 3),
        ],
    }
}

// The length of the segment at a place, 0 where there is none.
fn length_at(segments: &[Segment], place: usize) -> u32
    requires { All (λ s. length s.bytes < 2 ^ 32) segments.now }
    ensures { result ≡ slice_index (map length_of segments.now) place }
{
    if place < segments.len() {
        segments[place].bytes.bytes().len() as u32
    } else {
        0
    }
}

// Its alignment.
fn align_at(segments: &[Segment], place: usize) -> u16
    ensures { result ≡ slice_index (map align_of segments.now) place }
{
    if place < segments.len() {
        segments[place].align
    } else {
        0
    }
}

/// Writes the preamble of a frame behind some bytes. Where memory is wanting, the bytes stay as they were.
pub fn put_preamble(alloc: Global, into: &mut Blob, head: &Preamble) -> Result<(), AllocError>
    ensures ok { OnOk result (into.new ≡ into.old ++ preamble_text head.now) }
    ensures err { OnErr result (into.new ≡ into.old) }
{
    into.append(alloc, &preamble_bytes(head))
}

/// The bytes of a preamble, made without memory.
#[tactic(auto, unfolding(crate::specs::Preambles::preamble_text))]
pub fn preamble_bytes(head: &Preamble) -> [u8; 32]
    ensures { result ≡ preamble_text head.now }
{
    let front = front(head);
    let sum = crc32c(0, &front).to_le_bytes();
    let mut bytes = [0; 32];
    let (covered, behind) = bytes.split_at_mut(28);
    covered.copy_from_slice(&front);
    behind.copy_from_slice(&sum);
    bytes
}

// The bytes that the check sum of a preamble covers.
#[tactic(auto, unfolding(crate::specs::Preambles::front_text, crate::specs::Preambles::descriptors))]
fn front(head: &Preamble) -> [u8; 28]
    ensures { result ≡ front_text head.now }
{
    let [first, second, third, fourth] = head.lengths;
    let [align, second_align, third_align, fourth_align] = head.aligns;
    let [a0, a1, a2, a3, a4, a5] = descriptor(first, align);
    let [b0, b1, b2, b3, b4, b5] = descriptor(second, second_align);
    let [c0, c1, c2, c3, c4, c5] = descriptor(third, third_align);
    let [d0, d1, d2, d3, d4, d5] = descriptor(fourth, fourth_align);
    [
        head.tag, head.count, a0, a1, a2, a3, a4, a5, b0, b1, b2, b3, b4, b5, c0, c1, c2, c3, c4,
        c5, d0, d1, d2, d3, d4, d5, 0, 0,
    ]
}

// The bytes that tell the length and the alignment of a segment.
fn descriptor(length: u32, align: u16) -> [u8; 6]
    ensures { result ≡ to_le_bytes w32 length ++ to_le_bytes w16 align }
{
    let [a, b, c, d] = length.to_le_bytes();
    let [e, f] = align.to_le_bytes();
    [a, b, c, d, e, f]
}
