//! Payloads of control frames and of the method, read to their end.

ghost use Rattle.std.specs.Prelude.{◌≡◌, IfOk};
ghost use Rattle.cx_rules.specs.Payloads.{whole, payload, due};
ghost use Rattle.cx_node.specs.Parts.{part_of};

use cx_enc::{Encoded, ReadRefusal, ReadsPart, read_whole, read_whole_part};
use cx_frame::Frame;
use cx_journal::BytesFault;
use std::alloc::{AllocError, Global};

/// All of these bytes as one value, or what is wrong with them.
pub fn whole<T: Encoded>(alloc: Global, bytes: &[u8]) -> Result<Result<T, BytesFault>, AllocError>
    ensures { IfOk result (λ read. read ≡ whole T.layout.form bytes.now) }
{
    match read_whole(alloc, bytes) {
        Ok(value) => Ok(Ok(value)),
        Err(ReadRefusal::Fault(fault)) => Ok(Err(BytesFault::Malformed(fault.place()))),
        Err(ReadRefusal::LeftOver(place)) => Ok(Err(BytesFault::Malformed(place))),
        Err(ReadRefusal::OutOfMemory) => Err(AllocError),
    }
}

/// The payload of a control frame.
pub fn payload<T: Encoded>(
    alloc: Global,
    frame: &Frame,
) -> Result<Result<T, BytesFault>, AllocError>
    ensures { IfOk result (λ read. read ≡ payload T.layout.form frame.now) }
{
    match frame.segments.all() {
        [segment] => whole(alloc, segment.bytes.bytes()),
        _ => Ok(Err(BytesFault::Unexpected(frame.tag))),
    }
}

/// The payload of the one control frame that is due.
pub fn due<T: Encoded>(
    alloc: Global,
    tag: u8,
    frame: &Frame,
) -> Result<Result<T, BytesFault>, AllocError>
    ensures { IfOk result (λ read. read ≡ due tag T.layout.form frame.now) }
{
    if frame.tag == tag {
        payload(alloc, frame)
    } else {
        Ok(Err(BytesFault::Unexpected(frame.tag)))
    }
}

/// The part that is kept of what all of these bytes spell, as of the header of a message.
pub fn whole_part<T: ReadsPart>(
    alloc: Global,
    bytes: &[u8],
) -> Result<Result<T, BytesFault>, AllocError>
    ensures { IfOk result (λ read. read ≡ part_of T.kept (whole T.whole.form bytes.now)) }
{
    match read_whole_part(alloc, bytes) {
        Ok(value) => Ok(Ok(value)),
        Err(ReadRefusal::Fault(fault)) => Ok(Err(BytesFault::Malformed(fault.place()))),
        Err(ReadRefusal::LeftOver(place)) => Ok(Err(BytesFault::Malformed(place))),
        Err(ReadRefusal::OutOfMemory) => Err(AllocError),
    }
}

/// The part that is kept of the payload of a control frame, as of AUTH_BAD_METHOD.
pub fn payload_part<T: ReadsPart>(
    alloc: Global,
    frame: &Frame,
) -> Result<Result<T, BytesFault>, AllocError>
    ensures { IfOk result (λ read. read ≡ part_of T.kept (payload T.whole.form frame.now)) }
{
    match frame.segments.all() {
        [segment] => whole_part(alloc, segment.bytes.bytes()),
        _ => Ok(Err(BytesFault::Unexpected(frame.tag))),
    }
}
