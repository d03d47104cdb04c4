//! Control frames, written.

ghost use Rattle.std.specs.Prelude.{◌≡◌, [], ◌∷◌, IfOk, OnOk};
ghost use Rattle.cx_frame.specs.Frames.{frame_text};
ghost use Rattle.cx_rules.specs.Acceptor.{bad_method};
ghost use Rattle.cx_rules.specs.Payloads.{control};

use cx_base::{Blob, Items};
use cx_control::{AuthBadMethod, WritesWhole};
use cx_enc::Encoded;
use cx_frame::{Frame, FrameRefusal, Segment, put_frame};
use cx_link::tag;
use std::alloc::{AllocError, Global};

/// The control frame of a tag with this payload: its one segment, aligned to 8.
pub fn control<T: Encoded>(alloc: Global, tag: u8, value: &T) -> Result<Frame, AllocError>
    requires { T.Bound value.now }
    ensures frame { IfOk result (λ frame. frame ≡ control tag T.layout.form value.now) }
    ensures fits { OnOk result (T.layout.form.Fits value.now) }
{
    let mut bytes = Blob::new(alloc);
    value.write(alloc, &mut bytes)?;
    one_segment(alloc, tag, bytes)
}

// The same of a payload that is read more widely than it is written.
fn control_whole<T: WritesWhole>(alloc: Global, tag: u8, value: &T) -> Result<Frame, AllocError>
    ensures frame { IfOk result (λ frame. frame ≡ control tag T.whole.form (T.written value.now)) }
    ensures fits { OnOk result (T.whole.form.Fits (T.written value.now)) }
{
    let mut bytes = Blob::new(alloc);
    value.write_whole(alloc, &mut bytes)?;
    one_segment(alloc, tag, bytes)
}

fn one_segment(alloc: Global, tag: u8, bytes: Blob) -> Result<Frame, AllocError>
    ensures { IfOk result (λ frame. frame ≡ record { tag = tag; segments = record { align = 8; bytes = bytes } ∷ [] }) }
{
    let mut segments = Items::new(alloc);
    segments.push(alloc, Segment { align: 8, bytes })?;
    Ok(Frame { tag, segments })
}

/// AUTH_BAD_METHOD with a code: the method is cephx.
pub fn bad_method(alloc: Global, code: u32) -> Result<Frame, AllocError>
    ensures { IfOk result (λ frame. frame ≡ bad_method code) }
{
    control_whole(
        alloc,
        tag::AUTH_BAD_METHOD,
        &AuthBadMethod {
            method: 2,
            result: code,
        },
    )
}

// The same, as it is spelled.
pub(crate) fn bad_method_bytes(alloc: Global, code: u32) -> Result<Blob, AllocError>
    ensures { IfOk result (λ bytes. bytes ≡ frame_text (bad_method code)) }
{
    let frame = bad_method(alloc, code)?;
    let mut bytes = Blob::new(alloc);
    match put_frame(alloc, &mut bytes, &frame) {
        Ok(()) => Ok(bytes),
        Err(FrameRefusal::OutOfMemory) => Err(AllocError),
        Err(FrameRefusal::TooLong(_)) => unreachable!(),
        Err(FrameRefusal::BadCrc | FrameRefusal::BadShape | FrameRefusal::Aborted) => {
            unreachable!()
        }
    }
}
