//! Writing plain frames.

ghost use Rattle.std.specs.Prelude.{◌≡◌, ◌++◌, OnOk, OnErr, IfErr};
ghost use Rattle.std.specs.List.{flat_map};
ghost use Rattle.std.specs.Option.{option_copied};
ghost use Rattle.cx_frame.specs.Preambles.{IsAllowed, preamble_of};
ghost use Rattle.cx_frame.specs.Frames.{IsAboveLimit, IsAnnounceable, bytes_of, epilogue, first_text, frame_text, others_text, rest_text, sum_text};

use crate::announcing::{preamble_of, put_preamble, total};
use crate::frame::{Frame, Segment};
use crate::preambles::MAX_PLAIN;
use crate::reading::COMPLETE;
use crate::refusals::FrameRefusal;
use crate::sums::check_sum;
use cx_base::Blob;
use std::alloc::{AllocError, Global};

// A frame has at most so many bytes beside those of its segments: a preamble, a check sum and an epilogue.
const AROUND: usize = 49;

/// Writes a plain frame behind some bytes. After a refusal the bytes are as before.
#[tactic(auto, unfolding(crate::specs::Frames::frame_text))]
pub fn put_frame(alloc: Global, into: &mut Blob, frame: &Frame) -> Result<(), FrameRefusal>
    requires { IsAnnounceable frame.now }
    ensures ok { OnOk result (into.new ≡ into.old ++ frame_text frame.now) }
    // A frame that is written is one that a preamble announces within the limit.
    ensures allowed { OnOk result (IsAllowed 65536 (preamble_of frame.now)) }
    ensures long { IfErr result (IsAboveLimit 65536 frame.now) }
    ensures err { OnErr result (into.new ≡ into.old) }
{
    let total = total(frame);
    if total > MAX_PLAIN {
        return Err(FrameRefusal::TooLong(total));
    }
    let mut text = Blob::with_room(alloc, total as usize + AROUND)?;
    put_preamble(alloc, &mut text, &preamble_of(frame))?;
    put_rest(alloc, &mut text, frame.segments.all())?;
    put_text(alloc, into, text)?;
    Ok(())
}

/// Puts a text behind some bytes. Where there are none yet, it is moved there as it stands. Where memory is wanting, the bytes stay as they were.
pub fn put_text(alloc: Global, into: &mut Blob, text: Blob) -> Result<(), AllocError>
    ensures ok { OnOk result (into.new ≡ into.old ++ text) }
    ensures err { OnErr result (into.new ≡ into.old) }
{
    if into.bytes().is_empty() {
        *into = text;
        return Ok(());
    }
    into.append(alloc, text.bytes())
}

// What stands behind the preamble.
#[tactic(auto, unfolding(crate::specs::Frames::rest_text))]
fn put_rest(alloc: Global, into: &mut Blob, segments: &[Segment]) -> Result<(), AllocError>
    ensures { OnOk result (into.new ≡ into.old ++ rest_text segments.now) }
{
    let [first, others @ ..] = segments else {
        return Ok(());
    };
    put_first(alloc, into, first.bytes.bytes())?;
    put_others(alloc, into, others)
}

#[tactic(auto, unfolding(crate::specs::Frames::first_text))]
fn put_first(alloc: Global, into: &mut Blob, bytes: &[u8]) -> Result<(), AllocError>
    ensures { OnOk result (into.new ≡ into.old ++ first_text bytes.now) }
{
    if bytes.is_empty() {
        return Ok(());
    }
    into.append(alloc, bytes)?;
    into.append(alloc, &check_sum(bytes).to_le_bytes())
}

#[tactic(auto, unfolding(crate::specs::Frames::others_text))]
fn put_others(alloc: Global, into: &mut Blob, others: &[Segment]) -> Result<(), AllocError>
    ensures { OnOk result (into.new ≡ into.old ++ others_text others.now) }
{
    if others.is_empty() {
        return Ok(());
    }
    put_bodies(alloc, into, others)?;
    put_epilogue(alloc, into, others)
}

fn put_bodies(alloc: Global, into: &mut Blob, others: &[Segment]) -> Result<(), AllocError>
    ensures { OnOk result (into.new ≡ into.old ++ flat_map bytes_of others.now) }
{
    for segment in others {
        into.append(alloc, segment.bytes.bytes())?;
    }
    Ok(())
}

#[tactic(auto, unfolding(crate::specs::Frames::epilogue))]
fn put_epilogue(alloc: Global, into: &mut Blob, others: &[Segment]) -> Result<(), AllocError>
    ensures { OnOk result (into.new ≡ into.old ++ epilogue others.now) }
{
    into.append(alloc, &[COMPLETE])?;
    put_sum(alloc, into, others.first())?;
    put_sum(alloc, into, others.get(1))?;
    put_sum(alloc, into, others.get(2))
}

#[tactic(auto, unfolding(crate::specs::Frames::sum_text))]
fn put_sum(alloc: Global, into: &mut Blob, segment: Option<&Segment>) -> Result<(), AllocError>
    ensures { OnOk result (into.new ≡ into.old ++ sum_text (option_copied segment.entry)) }
{
    match segment {
        Some(segment) => into.append(alloc, &check_sum(segment.bytes.bytes()).to_le_bytes()),
        None => into.append(alloc, &[0; 4]),
    }
}
