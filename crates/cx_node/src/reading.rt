//! What a frame with a message says.

ghost use Rattle.std.specs.Prelude.{ℕ, ◌≡◌, List, IfOk};
ghost use Rattle.std.specs.List.{list_all};
ghost use Rattle.cx_node.specs.cx_rules.specs.Messages.{body_as, is_empty, message_by, message_in, message_of};
ghost use Rattle.cx_node.specs.cx_rules.specs.Payloads.{whole};
ghost use Rattle.cx_wire.specs.Bodies.{reply_layout, request_layout};
ghost use Rattle.cx_wire.specs.Headers.{header_layout};
ghost use Rattle.cx_node.specs.messages.Reading.{body_in, body_of, IfSpelled, with_body};

use crate::{Body, whole_part};
use cx_base::Blob;
use cx_frame::{Frame, Segment};
use cx_journal::BytesFault;
use cx_link::tag;
use cx_wire::{BodyRefusal, Header, Reply, Request, read_reply, read_request};
use std::alloc::{AllocError, Global};

/// The header of the message of a frame, or why the frame holds none. What stands in it behind the header and the body is looked at too.
pub fn header_in(alloc: Global, frame: &Frame) -> Result<Result<Header, BytesFault>, AllocError>
    ensures { IfOk result (λ read. message_in frame.now ≡ with_body (body_in frame.now) read) }
{
    if frame.tag == tag::MESSAGE {
        header_of(alloc, frame.segments.all())
    } else {
        Ok(Err(BytesFault::Unexpected(frame.tag)))
    }
}

/// The body of the message of a frame: its second segment, or nothing.
pub fn body_in(frame: &Frame) -> &[u8]
    ensures { result.now ≡ body_in frame.now }
{
    match frame.segments.all() {
        [_, body, ..] => body.bytes.bytes(),
        _ => &[],
    }
}

// The header in these segments.
fn header_of(alloc: Global, segments: &[Segment]) -> Result<Result<Header, BytesFault>, AllocError>
    ensures { IfOk result (λ read. message_of segments.now ≡ with_body (body_of segments.now) read) }
{
    match segments {
        [header, _, more @ ..] => header_before(alloc, header.bytes.bytes(), more),
        _ => Ok(Err(BytesFault::Unexpected(tag::MESSAGE))),
    }
}

// The header in these bytes, before the segments behind the body.
fn header_before(
    alloc: Global,
    bytes: &[u8],
    more: &[Segment],
) -> Result<Result<Header, BytesFault>, AllocError>
    ensures { (body : List ℕ) → IfOk result (λ read. message_by body more.now (whole header_layout.form bytes.now) ≡ with_body body read) }
{
    match whole_part::<Header>(alloc, bytes)? {
        Err(why) => Ok(Err(why)),
        Ok(header) => {
            if are_empty(more) {
                Ok(Ok(header))
            } else {
                Ok(Err(BytesFault::Malformed(41)))
            }
        }
    }
}

fn are_empty(segments: &[Segment]) -> bool
    ensures { result ≡ list_all is_empty segments.now }
{
    segments
        .iter()
        .all(|segment| segment.bytes.bytes().is_empty())
}

/// What the body of message 17 says.
pub fn request_in(alloc: Global, body: &[u8]) -> Result<Body<Request>, AllocError>
    ensures { IfOk result (λ read. read ≡ body_as request_layout.form body.now) }
{
    match read_request(alloc, body) {
        Ok(request) => Ok(Body::Spelled(request)),
        Err(refusal) => match refusal {
            BodyRefusal::OtherCode(_) => Ok(Body::OtherCode),
            BodyRefusal::Malformed(place) => Ok(Body::Misspelled(BytesFault::Malformed(place))),
            BodyRefusal::OutOfMemory => Err(AllocError),
        },
    }
}

/// What the body of message 18 says.
pub fn reply_in(alloc: Global, body: &[u8]) -> Result<Body<Reply>, AllocError>
    ensures read { IfOk result (λ read. read ≡ body_as reply_layout.form body.now) }
    // A reply that is read is one that the form fits.
    ensures fits { IfOk result (IfSpelled reply_layout.form.Fits) }
{
    match read_reply(alloc, body) {
        Ok(reply) => Ok(Body::Spelled(reply)),
        Err(refusal) => match refusal {
            BodyRefusal::OtherCode(_) => Ok(Body::OtherCode),
            BodyRefusal::Malformed(place) => Ok(Body::Misspelled(BytesFault::Malformed(place))),
            BodyRefusal::OutOfMemory => Err(AllocError),
        },
    }
}
