//! The plain texts of parts: how long they are, and the segments in them.

ghost use Rattle.std.specs.Prelude.{◌≡◌, ◌≢◌, ℕ, ◌+◌, ◌-◌, ◌==◌, ◌<◌, ◌≤◌, ◌^◌, [], ◌∷◌, ◌++◌, List, Ok, IfOk, OnOk, length, slice_index, sum_by};
ghost use Rattle.std.specs.List.{list_all, slice_range};
ghost use Rattle.cx_frame.specs.Preambles.{IsAllowed};
ghost use Rattle.cx_frame.specs.declared.frame.Segment.{Segment};
ghost use Rattle.cx_secure.specs.Plains.{are_zeros, by_late, cut_of, frame_at, have_zero_fills, last_len, one_if, rest_len, rest_parts, second_len, tagged, up16, with_last};
ghost use Rattle.cx_secure.specs.Refusing.{Agrees};

use crate::parts::TAG;
use crate::refusals::SecureRefusal;
use cx_base::{Blob, Items};
use cx_frame::{Frame, Preamble, Segment};
use std::alloc::{AllocError, Global};

/// The bytes of the first segment that stand in the head.
pub(crate) const INLINE: usize = 48;

/// The bytes behind the segments of the last part: the late status, and zeros.
pub(crate) const END: usize = 16;

/// Late status: the frame is complete.
pub(crate) const COMPLETE: u8 = 0x0e;

/// Late status: the peer gave the frame up.
const ABORTED: u8 = 0x01;

// The multiple of 16 from a number on.
#[tactic(auto, unfolding(crate::specs::Plains::up16))]
pub(crate) fn up16(n: usize) -> usize
    requires { n < 2 ^ 40 }
    ensures value { result ≡ up16 n }
    ensures least { n ≤ result }
    ensures most { result ≤ n + 15 }
{
    (n + 15) / 16 * 16
}

// The plain bytes of the second part.
#[tactic(auto, unfolding(crate::specs::Plains::second_len))]
pub(crate) fn second_len(head: &Preamble) -> usize
    requires { IsAllowed 1048576 head.now }
    ensures value { result ≡ second_len head.now }
    ensures small { result ≤ 1048591 }
{
    up16((head.lengths[0] as usize).saturating_sub(INLINE))
}

// The plain bytes of the last part.
#[tactic(auto, using(crate::proofs::Lengths::few_last), unfolding(crate::specs::Plains::last_len))]
pub(crate) fn last_len(head: &Preamble) -> usize
    requires { IsAllowed 1048576 head.now }
    ensures value { result ≡ last_len head.now }
    ensures small { result ≤ 1048637 }
{
    if head.count == 1 {
        return 0;
    }
    sum_of_rooms(&head.lengths[1..head.count as usize]) + END
}

// The bytes that at most three segments take up, each filled.
fn sum_of_rooms(lengths: &[u32]) -> usize
    requires { length lengths.now ≤ 4 }
    ensures { result ≡ sum_by up16 lengths.now }
{
    let mut sum = 0;
    for n in lengths {
        sum += up16(*n as usize);
    }
    sum
}

// A part with its tag.
#[tactic(auto, unfolding(crate::specs::Plains::tagged))]
pub(crate) fn tagged(n: usize) -> usize
    requires { n < 2 ^ 40 }
    ensures value { result ≡ tagged n }
    ensures most { result ≤ n + 16 }
{
    if n == 0 { 0 } else { n + TAG }
}

// One part, where it has bytes.
pub(crate) fn one_if(n: usize) -> u64
    ensures value { result ≡ one_if n }
    ensures small { result ≤ 1 }
{
    if n == 0 { 0 } else { 1 }
}

// The parts behind the head.
#[tactic(auto, unfolding(crate::specs::Plains::rest_parts))]
pub(crate) fn rest_parts(head: &Preamble) -> u64
    requires { IsAllowed 1048576 head.now }
    ensures value { result ≡ rest_parts head.now }
    ensures small { result ≤ 2 }
{
    one_if(second_len(head)) + one_if(last_len(head))
}

#[tactic(auto, unfolding(crate::specs::Plains::are_zeros))]
fn are_zeros(bytes: &[u8]) -> bool
    ensures { result ≡ are_zeros bytes.now }
{
    bytes.iter().all(|b| *b == 0)
}

// The frame in its first segment with the fill of that, and in the plain bytes of the last part.
#[tactic(auto, unfolding(crate::specs::Plains::frame_at))]
pub(crate) fn frame_at(
    alloc: Global,
    head: &Preamble,
    room: Vec<u8>,
    last: &[u8],
) -> Result<Frame, SecureRefusal>
    requires allowed { IsAllowed 1048576 head.now }
    requires room { slice_index head.now.lengths 0 ≤ length room.items }
    requires last { length last.now ≡ last_len head.now }
    ensures { Agrees result (frame_at head.now room.items last.now) }
{
    let length = head.lengths[0] as usize;
    if !are_zeros(&room[length..]) {
        return Err(SecureRefusal::BadShape);
    }
    let mut bytes = room;
    bytes.truncate(length);
    let first = Segment {
        align: head.aligns[0],
        bytes: Blob::from(bytes),
    };
    if head.count == 1 {
        return alone(alloc, head.tag, first);
    }
    with_last(alloc, head, first, last)
}

// The frame with one segment.
fn alone(alloc: Global, tag: u8, first: Segment) -> Result<Frame, SecureRefusal>
    ensures { Agrees result (Ok (record { tag = tag; segments = first ∷ [] })) }
{
    let mut segments = Items::new(alloc);
    segments.push(alloc, first)?;
    Ok(Frame { tag, segments })
}

// The frame with this first segment, in the plain bytes of the last part.
#[tactic(auto, unfolding(crate::specs::Plains::with_last, crate::specs::Plains::by_late, crate::specs::Plains::last_len))]
fn with_last(
    alloc: Global,
    head: &Preamble,
    first: Segment,
    last: &[u8],
) -> Result<Frame, SecureRefusal>
    requires allowed { IsAllowed 1048576 head.now }
    requires several { head.now.count ≢ 1 }
    requires last { length last.now ≡ last_len head.now }
    ensures { Agrees result (with_last head.now first last.now) }
{
    let count = head.count as usize;
    let lengths = &head.lengths[1..count];
    let aligns = &head.aligns[1..count];
    let (bodies, end) = last.split_at(last.len() - END);
    if !(have_zero_fills(lengths, bodies) && are_zeros(&end[1..])) {
        return Err(SecureRefusal::BadShape);
    }
    let mut segments = Items::new(alloc);
    segments.push(alloc, first)?;
    push_segments(alloc, &mut segments, lengths, aligns, bodies)?;
    let tag = head.tag;
    match end[0] {
        COMPLETE => Ok(Frame { tag, segments }),
        ABORTED => Err(SecureRefusal::Aborted),
        _ => Err(SecureRefusal::BadShape),
    }
}

// Whether segments of these lengths are filled with zeros.
fn have_zero_fills(lengths: &[u32], bytes: &[u8]) -> bool
    requires { sum_by up16 lengths.now ≤ length bytes.now }
    ensures { result ≡ have_zero_fills lengths.now bytes.now }
{
    let mut left = bytes;
    for n in lengths {
        let (room, behind) = left.split_at(up16(*n as usize));
        let (_, fill) = room.split_at(*n as usize);
        if !are_zeros(fill) {
            return false;
        }
        left = behind;
    }
    true
}

// Cuts the segments out of their rooms, and puts them behind those that are there.
fn push_segments(
    alloc: Global,
    segments: &mut Items<Segment>,
    lengths: &[u32],
    aligns: &[u16],
    bytes: &[u8],
) -> Result<(), AllocError>
    requires aligns { length aligns.now ≡ length lengths.now }
    requires bytes { sum_by up16 lengths.now ≤ length bytes.now }
    ensures { OnOk result (segments.new ≡ segments.old ++ cut_of lengths.now aligns.now bytes.now) }
{
    let mut left = bytes;
    for i in 0..lengths.len() {
        let length = lengths[i] as usize;
        let (room, behind) = left.split_at(up16(length));
        let (body, _) = room.split_at(length);
        let bytes = Blob::of(alloc, body)?;
        segments.push(
            alloc,
            Segment {
                align: aligns[i],
                bytes,
            },
        )?;
        left = behind;
    }
    Ok(())
}
