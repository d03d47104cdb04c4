//! Reading what stands behind the preamble of a plain frame.

ghost use Rattle.std.specs.Prelude.{◌≡◌, ◌≢◌, ℕ, ◌==◌, ◌+◌, ◌≤◌, ◌++◌, Ok, IfOk, OnOk, length, sum, slice_get};
ghost use Rattle.std.specs.List.{slice_range};
ghost use Rattle.std.specs.Option.{option_copied};
ghost use Rattle.cx_frame.specs.Preambles.{IsAllowed};
ghost use Rattle.cx_frame.specs.Frames.{Agrees, IsRest, behind_first, epilogue_fault, first_at, first_len, or_next, others_len, rest_at, rest_len, segments_of, sum_fault};
ghost use Rattle.cx_frame.specs.declared.frame.Frame.{Frame};

use crate::frame::{Frame, Segment};
use crate::preamble::Preamble;
use crate::refusals::FrameRefusal;
use crate::sums::{check_sum, is_four_bytes};
use cx_base::{Blob, Items};
use std::alloc::{AllocError, Global};

/// The bytes of an epilogue.
const EPILOGUE: usize = 13;

/// Late status: the frame is complete.
pub(crate) const COMPLETE: u8 = 0x0e;

/// Late status: the peer gave the frame up.
const ABORTED: u8 = 0x01;

/// The number of bytes that stand behind the preamble of a plain frame.
#[tactic(auto, using(crate::proofs::Cutting::few_others), unfolding(crate::specs::Frames::rest_len))]
pub fn rest_len(head: &Preamble) -> usize
    requires { IsAllowed 65536 head.now }
    ensures { result ≡ rest_len head.now }
{
    first_len(head.lengths[0]) + others_len(head)
}

#[tactic(auto, using(crate::proofs::Cutting::range_le), unfolding(crate::specs::Frames::others_len))]
fn others_len(head: &Preamble) -> usize
    requires { IsAllowed 65536 head.now }
    ensures { result ≡ others_len head.now }
{
    if head.count == 1 {
        return 0;
    }
    sum_of_lengths(&head.lengths[1..head.count as usize]) + EPILOGUE
}

/// Reads what stands behind the preamble of a plain frame.
pub fn read_rest(alloc: Global, head: &Preamble, bytes: &[u8]) -> Result<Frame, FrameRefusal>
    requires head { IsAllowed 65536 head.now }
    requires len { length bytes.now ≡ rest_len head.now }
    // What is read is spelled so.
    ensures found { IfOk result (IsRest head.now bytes.now) }
    // What is spelled so is read.
    ensures only { (f : Frame) → IsRest head.now bytes.now f → Agrees result (Ok f) }
    // It is refused for the first check that fails.
    ensures exact { Agrees result (rest_at head.now bytes.now) }
{
    rest_at(alloc, head, bytes)
}

#[tactic(auto, unfolding(crate::specs::Frames::rest_at, crate::specs::Frames::rest_len))]
fn rest_at(alloc: Global, head: &Preamble, bytes: &[u8]) -> Result<Frame, FrameRefusal>
    requires head { IsAllowed 65536 head.now }
    requires len { length bytes.now ≡ rest_len head.now }
    ensures { Agrees result (rest_at head.now bytes.now) }
{
    let (front, left) = bytes.split_at(first_len(head.lengths[0]));
    match first_at(alloc, head.aligns[0], front) {
        Ok(first) => behind_first(alloc, head, first, left),
        Err(refusal) => Err(refusal),
    }
}

// The frame, once its first segment was read, in what stands behind that.
#[tactic(auto, using(crate::proofs::Cutting::same_ranges), unfolding(crate::specs::Frames::behind_first, crate::specs::Frames::others_len))]
fn behind_first(
    alloc: Global,
    head: &Preamble,
    first: Segment,
    left: &[u8],
) -> Result<Frame, FrameRefusal>
    requires head { IsAllowed 65536 head.now }
    requires len { length left.now ≡ others_len head.now }
    ensures { Agrees result (behind_first head.now left.now (Ok first)) }
{
    let mut segments = Items::new(alloc);
    segments.push(alloc, first)?;
    let tag = head.tag;
    if head.count == 1 {
        return Ok(Frame { tag, segments });
    }
    let count = head.count as usize;
    let (bodies, end) = left.split_at(left.len() - EPILOGUE);
    let lengths = &head.lengths[1..count];
    let aligns = &head.aligns[1..count];
    push_segments(alloc, &mut segments, lengths, aligns, bodies)?;
    match epilogue_fault(&segments.all()[1..], end) {
        Some(fault) => Err(fault),
        None => Ok(Frame { tag, segments }),
    }
}

#[tactic(auto, unfolding(crate::specs::Frames::first_len))]
fn first_len(length: u32) -> usize
    ensures value { result ≡ first_len length }
    ensures small { result ≤ length + 4 }
{
    if length == 0 { 0 } else { length as usize + 4 }
}

// The sum of at most four lengths.
fn sum_of_lengths(lengths: &[u32]) -> usize
    requires { length lengths.now ≤ 4 }
    ensures { result ≡ sum lengths.now }
{
    lengths.iter().map(|n| *n as usize).sum()
}

#[tactic(auto, unfolding(crate::specs::Frames::first_at))]
fn first_at(alloc: Global, align: u16, bytes: &[u8]) -> Result<Segment, FrameRefusal>
    requires { length bytes.now ≢ 0 → 4 ≤ length bytes.now }
    ensures { Agrees result (first_at align bytes.now) }
{
    if bytes.is_empty() {
        return Ok(Segment {
            align,
            bytes: Blob::new(alloc),
        });
    }
    let (body, stored) = bytes.split_at(bytes.len() - 4);
    if !is_four_bytes(stored, check_sum(body)) {
        return Err(FrameRefusal::BadCrc);
    }
    let bytes = Blob::of(alloc, body)?;
    Ok(Segment { align, bytes })
}

// Cuts the bytes into segments, and puts these behind those that are there.
#[tactic(auto, using(crate::proofs::Cutting::cut_more, crate::proofs::Cutting::room_more))]
fn push_segments(
    alloc: Global,
    segments: &mut Items<Segment>,
    lengths: &[u32],
    aligns: &[u16],
    bytes: &[u8],
) -> Result<(), AllocError>
    requires aligns { length aligns.now ≡ length lengths.now }
    requires bytes { sum lengths.now ≤ length bytes.now }
    ensures { OnOk result (segments.new ≡ segments.old ++ segments_of lengths.now aligns.now bytes.now) }
{
    let mut left = bytes;
    for i in 0..lengths.len() {
        let (body, behind) = left.split_at(lengths[i] as usize);
        let bytes = Blob::of(alloc, body)?;
        segments.push(
            alloc,
            Segment {
                align: aligns[i],
                bytes,
            },
        )?;
        left = behind;
    }
    Ok(())
}

#[tactic(auto, unfolding(crate::specs::Frames::epilogue_fault))]
fn epilogue_fault(others: &[Segment], bytes: &[u8]) -> Option<FrameRefusal>
    requires { length bytes.now ≡ 13 }
    ensures { result ≡ epilogue_fault others.now bytes.now }
{
    match bytes[0] {
        COMPLETE => sums_fault(others, bytes),
        ABORTED => Some(FrameRefusal::Aborted),
        _ => Some(FrameRefusal::BadShape),
    }
}

// The first fault of the three check sums of an epilogue.
fn sums_fault(others: &[Segment], bytes: &[u8]) -> Option<FrameRefusal>
    requires { length bytes.now ≡ 13 }
    ensures { result ≡ or_next (sum_fault (slice_get others.now 0) (slice_range bytes.now 1 5))
        (or_next (sum_fault (slice_get others.now 1) (slice_range bytes.now 5 9)) (sum_fault (slice_get others.now 2) (slice_range bytes.now 9 13))) }
{
    if let Some(fault) = sum_fault(others.first(), &bytes[1..5]) {
        return Some(fault);
    }
    if let Some(fault) = sum_fault(others.get(1), &bytes[5..9]) {
        return Some(fault);
    }
    sum_fault(others.get(2), &bytes[9..13])
}

#[tactic(auto, unfolding(crate::specs::Frames::sum_fault))]
fn sum_fault(segment: Option<&Segment>, bytes: &[u8]) -> Option<FrameRefusal>
    ensures { result ≡ sum_fault (option_copied segment.entry) bytes.now }
{
    match segment {
        Some(segment) => {
            if is_four_bytes(bytes, check_sum(segment.bytes.bytes())) {
                return None;
            }
            Some(FrameRefusal::BadCrc)
        }
        None => {
            if is_four_bytes(bytes, 0) {
                return None;
            }
            Some(FrameRefusal::BadShape)
        }
    }
}
