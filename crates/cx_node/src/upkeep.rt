//! KEEPALIVE2 and KEEPALIVE2_ACK on an open link.

ghost use Rattle.std.specs.Prelude.{◌≡◌, IfOk};
ghost use Rattle.cx_control.specs.Upkeep.{keepalive2_layout};
ghost use Rattle.cx_enc.specs.Moments.{IsReading};
ghost use Rattle.cx_node.specs.cx_rules.specs.Payloads.{payload, whole};
ghost use Rattle.cx_node.specs.steps.Sending.{SendsSecure};
ghost use Rattle.cx_node.specs.steps.Upkeep.{acknowledged, answered, is_keepalive, upkept};

use crate::payload;
use crate::steps_sending::send_secure;
use cx_base::{Blob, Items};
use cx_control::{Keepalive2, Keepalive2Ack};
use cx_enc::{ReadRefusal, encoding_laws, read_whole};
use cx_frame::Frame;
use cx_journal::BytesFault;
use cx_link::{SecureLink, SentFrame, tag};
use std::alloc::{AllocError, Global};

/// Whether a frame keeps an open link alive: KEEPALIVE2 or KEEPALIVE2_ACK.
pub fn is_keepalive(frame: &Frame) -> bool
    ensures { result ≡ is_keepalive frame.now }
{
    frame.tag == tag::KEEPALIVE2 || frame.tag == tag::KEEPALIVE2_ACK
}

/// What comes of a frame on an open link: the link as it goes on, with what is sent on it and logged of that, or why it is shut. No other
/// frame than a keepalive is due.
pub fn upkept(
    alloc: Global,
    link: SecureLink,
    frame: &Frame,
) -> Result<Result<SentFrame, BytesFault>, AllocError>
    ensures { IfOk result (SendsSecure link (upkept link.keys frame.now)) }
{
    match frame.tag {
        tag::KEEPALIVE2 => {
            let read = keepalive_of(alloc, frame)?;
            answered(alloc, link, read)
        }
        tag::KEEPALIVE2_ACK => {
            let read = payload::<Keepalive2Ack>(alloc, frame)?;
            Ok(acknowledged(alloc, link, read))
        }
        tag => Ok(Err(BytesFault::Unexpected(tag))),
    }
}

// The payload of KEEPALIVE2: a time that can be spelled again.
fn keepalive_of(alloc: Global, frame: &Frame) -> Result<Result<Keepalive2, BytesFault>, AllocError>
    ensures read { IfOk result (λ read. read ≡ payload keepalive2_layout.form frame.now) }
    ensures time { IfOk result (λ read. IfOk read (λ keepalive. IsReading keepalive.time)) }
{
    match frame.segments.all() {
        [segment] => keepalive_in(alloc, segment.bytes.bytes()),
        _ => Ok(Err(BytesFault::Unexpected(frame.tag))),
    }
}

fn keepalive_in(alloc: Global, bytes: &[u8]) -> Result<Result<Keepalive2, BytesFault>, AllocError>
    ensures read { IfOk result (λ read. read ≡ whole keepalive2_layout.form bytes.now) }
    ensures time { IfOk result (λ read. IfOk read (λ keepalive. IsReading keepalive.time)) }
{
    encoding_laws();
    match read_whole::<Keepalive2>(alloc, bytes) {
        Ok(keepalive) => Ok(Ok(keepalive)),
        Err(ReadRefusal::Fault(fault)) => Ok(Err(BytesFault::Malformed(fault.place()))),
        Err(ReadRefusal::LeftOver(place)) => Ok(Err(BytesFault::Malformed(place))),
        Err(ReadRefusal::OutOfMemory) => Err(AllocError),
    }
}

// The same time is sent back.
fn answered(
    alloc: Global,
    link: SecureLink,
    read: Result<Keepalive2, BytesFault>,
) -> Result<Result<SentFrame, BytesFault>, AllocError>
    requires { IfOk read (λ keepalive. IsReading keepalive.time) }
    ensures { IfOk result (SendsSecure link (answered link.keys read)) }
{
    match read {
        Err(why) => Ok(Err(why)),
        Ok(keepalive) => {
            let ack = Keepalive2Ack {
                time: keepalive.time,
            };
            send_secure(alloc, link, tag::KEEPALIVE2_ACK, &ack)
        }
    }
}

// Nothing is sent.
fn acknowledged(
    alloc: Global,
    link: SecureLink,
    read: Result<Keepalive2Ack, BytesFault>,
) -> Result<SentFrame, BytesFault>
    ensures { SendsSecure link (acknowledged link.keys read) result }
{
    match read {
        Err(why) => Err(why),
        Ok(_) => Ok(SentFrame {
            link,
            bytes: Blob::new(alloc),
            seals: Items::new(alloc),
        }),
    }
}
