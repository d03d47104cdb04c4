//! Messages and acknowledgements that are sent, and several frames in one piece.

ghost use Rattle.std.specs.Prelude.{◌≡◌, ◌<◌, ◌^◌, All, IfOk, length};
ghost use Rattle.cx_frame.specs.Frames.{IsAnnounceable};
ghost use Rattle.cx_node.specs.cx_rules.specs.Messages.{acknowledgement, message, sealed_behind, secure_frames};
ghost use Rattle.cx_node.specs.cx_rules.specs.Secured.{secure_frame};
ghost use Rattle.cx_node.specs.steps.Sending.{SealsSecure, SendsSecure};
ghost use Rattle.cx_node.specs.messages.Sending.{sealed_of};

use crate::frames::message_frame;
use crate::{AheadFrame, LinkRefusal, SecureLink, SentFrame, send_secure};
use cx_base::{Blob, Items};
use cx_control::Ack;
use cx_frame::Frame;
use cx_journal::BytesFault;
use cx_link::tag;
use cx_wire::Header;
use std::alloc::{AllocError, Global};

/// Sends a message on a secured link, or says why it can't be written: then the link is given up.
pub fn send_message(
    alloc: Global,
    link: SecureLink,
    header: &Header,
    body: Blob,
) -> Result<Result<SentFrame, BytesFault>, AllocError>
    requires { length body < 2 ^ 32 }
    ensures { IfOk result (SendsSecure link (secure_frame link.keys (message header.now body))) }
{
    let frame = message_frame(alloc, header, body)?;
    send_frame(alloc, link, &frame)
}

/// Seals a message ahead on a secured link, which stays as it is until it goes on behind it, or says why it can't be written: then the link is given up.
pub fn seal_message(
    alloc: Global,
    link: &SecureLink,
    header: &Header,
    body: Blob,
) -> Result<Result<AheadFrame, BytesFault>, AllocError>
    requires { length body < 2 ^ 32 }
    ensures { IfOk result (SealsSecure link.now (secure_frame link.now.keys (message header.now body))) }
{
    let frame = message_frame(alloc, header, body)?;
    match link.seal_ahead(alloc, &frame) {
        Ok(sealed) => Ok(Ok(sealed)),
        Err(LinkRefusal::Fault(why)) => Ok(Err(why)),
        Err(LinkRefusal::OutOfMemory) => Err(AllocError),
    }
}

/// Sends ACK: messages up to this seq were taken.
pub fn send_acknowledgement(
    alloc: Global,
    link: SecureLink,
    seq: u64,
) -> Result<Result<SentFrame, BytesFault>, AllocError>
    ensures { IfOk result (SendsSecure link (secure_frame link.keys (acknowledgement seq))) }
{
    send_secure(alloc, link, tag::ACK, &Ack { seq })
}

/// Sends these frames in one piece, in their order, or says why one of them can't be written: then none is sent, and the link is given up.
pub fn send_frames(
    alloc: Global,
    link: SecureLink,
    frames: &[Frame],
) -> Result<Result<SentFrame, BytesFault>, AllocError>
    requires { All IsAnnounceable frames.now }
    ensures { IfOk result (SendsSecure link (secure_frames link.keys frames.now)) }
{
    let mut sent = SentFrame {
        link,
        bytes: Blob::new(alloc),
        seals: Items::new(alloc),
    };
    for frame in frames {
        match sent_behind(alloc, sent, frame)? {
            Ok(more) => sent = more,
            Err(why) => return Ok(Err(why)),
        }
    }
    Ok(Ok(sent))
}

// A frame behind those that were sent.
fn sent_behind(
    alloc: Global,
    sent: SentFrame,
    frame: &Frame,
) -> Result<Result<SentFrame, BytesFault>, AllocError>
    requires { IsAnnounceable frame.now }
    ensures { IfOk result (SendsSecure sent.link (sealed_behind (sealed_of sent) (secure_frame sent.link.keys frame.now))) }
{
    let SentFrame {
        link,
        mut bytes,
        mut seals,
    } = sent;
    match send_frame(alloc, link, frame)? {
        Ok(one) => {
            bytes.append(alloc, one.bytes.bytes())?;
            seals.append(alloc, one.seals)?;
            Ok(Ok(SentFrame {
                link: one.link,
                bytes,
                seals,
            }))
        }
        Err(why) => Ok(Err(why)),
    }
}

// A frame of one to four segments.
fn send_frame(
    alloc: Global,
    link: SecureLink,
    frame: &Frame,
) -> Result<Result<SentFrame, BytesFault>, AllocError>
    requires { IsAnnounceable frame.now }
    ensures { IfOk result (SendsSecure link (secure_frame link.keys frame.now)) }
{
    match link.put_frame(alloc, frame) {
        Ok(sent) => Ok(Ok(sent)),
        Err(LinkRefusal::Fault(why)) => Ok(Err(why)),
        Err(LinkRefusal::OutOfMemory) => Err(AllocError),
    }
}
