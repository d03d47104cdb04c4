//! What is sent on a link.

ghost use Rattle.std.specs.Prelude.{◌≡◌, ◌≤◌, IfOk};
ghost use Rattle.cx_node.specs.cx_rules.specs.Payloads.{control};
ghost use Rattle.cx_node.specs.cx_rules.specs.Secured.{plain_frame, secure_frame};
ghost use Rattle.cx_node.specs.steps.Sending.{SendsPlain, SendsSecure};

use crate::control;
use cx_base::Blob;
use cx_enc::Encoded;
use cx_journal::BytesFault;
use cx_link::{LinkRefusal, PlainLink, SecureLink, SentFrame, plain_bytes};
use std::alloc::{AllocError, Global};

/// A link on which a plain frame was sent, and the bytes of that.
#[derive(Drop)]
pub struct SentPlain {
    pub link: PlainLink,
    pub bytes: Blob,
}

/// Sends a plain control frame on a link, or says why it can't be written. The link keeps the bytes, which a signature will have to cover.
#[tactic(auto, using(crate::proofs::steps::Controls::control_frame))]
pub fn send_plain<T: Encoded>(
    alloc: Global,
    mut link: PlainLink,
    tag: u8,
    value: &T,
) -> Result<Result<SentPlain, BytesFault>, AllocError>
    requires bound { T.Bound value.now }
    requires low { 1 ≤ tag }
    requires high { tag ≤ 20 }
    ensures { IfOk result (SendsPlain link (plain_frame (control tag T.layout.form value.now))) }
{
    let frame = control(alloc, tag, value)?;
    match plain_bytes(alloc, &frame) {
        Ok(bytes) => {
            link.send(alloc, bytes.bytes())?;
            Ok(Ok(SentPlain { link, bytes }))
        }
        Err(LinkRefusal::Fault(why)) => Ok(Err(why)),
        Err(LinkRefusal::OutOfMemory) => Err(AllocError),
    }
}

/// Sends a control frame on a secured link, or says why it can't be written: then the link is given up.
#[tactic(auto, using(crate::proofs::steps::Controls::control_frame))]
pub fn send_secure<T: Encoded>(
    alloc: Global,
    link: SecureLink,
    tag: u8,
    value: &T,
) -> Result<Result<SentFrame, BytesFault>, AllocError>
    requires bound { T.Bound value.now }
    requires low { 1 ≤ tag }
    requires high { tag ≤ 20 }
    ensures { IfOk result (SendsSecure link (secure_frame link.keys (control tag T.layout.form value.now))) }
{
    let frame = control(alloc, tag, value)?;
    match link.put(alloc, &frame) {
        Ok(sent) => Ok(Ok(sent)),
        Err(LinkRefusal::Fault(why)) => Ok(Err(why)),
        Err(LinkRefusal::OutOfMemory) => Err(AllocError),
    }
}
