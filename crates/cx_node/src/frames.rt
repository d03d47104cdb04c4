//! MESSAGE frames, written.

ghost use Rattle.std.specs.Prelude.{◌≡◌, ◌<◌, ◌^◌, IfOk, length};
ghost use Rattle.cx_frame.specs.Frames.{IsAnnounceable};
ghost use Rattle.cx_node.specs.cx_rules.specs.Messages.{message};

use cx_base::{Blob, Items};
use cx_frame::{Frame, Segment};
use cx_link::tag;
use cx_wire::{Header, put_header};
use std::alloc::{AllocError, Global};

/// The frame of a message: its header, and its body behind it, each aligned to 8.
#[tactic(auto, using(crate::proofs::messages::Announcing::announced))]
pub fn message_frame(alloc: Global, header: &Header, body: Blob) -> Result<Frame, AllocError>
    requires { length body < 2 ^ 32 }
    ensures frame { IfOk result (λ frame. frame ≡ message header.now body) }
    ensures announced { IfOk result IsAnnounceable }
{
    let frame = framed(alloc, header, body)?;
    Ok(frame)
}

fn framed(alloc: Global, header: &Header, body: Blob) -> Result<Frame, AllocError>
    ensures { IfOk result (λ frame. frame ≡ message header.now body) }
{
    let mut bytes = Blob::new(alloc);
    put_header(alloc, &mut bytes, header)?;
    let mut segments = Items::new(alloc);
    segments.push(alloc, Segment { align: 8, bytes })?;
    segments.push(
        alloc,
        Segment {
            align: 8,
            bytes: body,
        },
    )?;
    Ok(Frame {
        tag: tag::MESSAGE,
        segments,
    })
}
