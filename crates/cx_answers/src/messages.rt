//! The segments of messages.

use crate::answered::{Answered, Refused, answered, copied, told};
use crate::bounds::is_operation;
use crate::shown::{Hex, Tickets};
use cx_base::{Blob, Duplicate};
use cx_control::read_payload_part;
use cx_enc::put_blob;
use cx_wire::{
    Header, Reply, Request, put_answer, put_header, put_operation, put_reply, put_request,
    read_answer, read_operation, read_reply, read_request, take_empty,
};
use std::alloc::{AllocError, Global};

/// What bytes of the kind of this name mean. What the blob of a request or a reply holds is a kind of its own: its places are those
/// in the body, so that each cut and each byte more is one of what the blob holds.
pub fn message(alloc: Global, kind: &str, bytes: &[u8]) -> Result<Answered, Refused> {
    match kind {
        "header" => header(alloc, bytes),
        "request" => request(alloc, bytes),
        "reply" => reply(alloc, bytes),
        "operation" => operation(alloc, bytes),
        "answer" => answer(alloc, bytes),
        "empty" => empty(alloc, bytes),
        "request-content" => content(alloc, request(alloc, in_blob(alloc, bytes)?.bytes())?),
        "reply-content" => content(alloc, reply(alloc, in_blob(alloc, bytes)?.bytes())?),
        _ => Err(Refused::NoKind),
    }
}

fn header(alloc: Global, bytes: &[u8]) -> Result<Answered, Refused> {
    answered!(
        alloc,
        x = read_payload_part::<Header>(alloc, bytes)?,
        put_header,
        "seq {} tid {} type {}",
        x.seq,
        x.tid,
        x.type_
    )
}

fn request(alloc: Global, bytes: &[u8]) -> Result<Answered, Refused> {
    let request = read_request(alloc, bytes)?;
    let mut again = Blob::new(alloc);
    let put = put_request(alloc, &mut again, &request);
    let meaning = match request {
        Request::Tickets(keys) => format!(in alloc; "tickets {keys}"),
        Request::Rotating => String::from_str(alloc, "rotating"),
    };
    told(put, again, meaning)
}

fn reply(alloc: Global, bytes: &[u8]) -> Result<Answered, Refused> {
    let reply = read_reply(alloc, bytes)?.copy(alloc)?;
    let mut again = Blob::new(alloc);
    let put = put_reply(alloc, &mut again, &reply);
    let meaning = match &reply {
        Reply::Tickets(tickets) => format!(in alloc; "tickets{}", Tickets(tickets)),
        Reply::Rotating(sealed) => format!(in alloc; "rotating {}", Hex(sealed.bytes())),
    };
    told(put, again, meaning)
}

fn operation(alloc: Global, bytes: &[u8]) -> Result<Answered, Refused> {
    let x = copied(alloc, read_operation(alloc, bytes))?;
    is_operation(&x)?;
    answered!(
        alloc,
        x = x,
        put_operation,
        "access {} pool {} namespace {} object {} bytes {}",
        x.access,
        Hex(x.pool.bytes()),
        Hex(x.namespace.bytes()),
        Hex(x.object.bytes()),
        Hex(x.bytes.bytes())
    )
}

fn answer(alloc: Global, bytes: &[u8]) -> Result<Answered, Refused> {
    let x = copied(alloc, read_answer(alloc, bytes))?;
    if x.outcome > 2 || x.bytes.bytes().len() > 65_536 {
        return Err(Refused::Unfit);
    }
    answered!(
        alloc,
        x = x,
        put_answer,
        "outcome {} bytes {}",
        x.outcome,
        Hex(x.bytes.bytes())
    )
}

fn empty(alloc: Global, bytes: &[u8]) -> Result<Answered, Refused> {
    take_empty(bytes)?;
    Ok(Answered {
        meaning: String::from_str(alloc, "nothing")?,
        again: Blob::new(alloc),
    })
}

// The body whose blob holds these bytes.
fn in_blob(alloc: Global, bytes: &[u8]) -> Result<Blob, AllocError> {
    let mut body = Blob::new(alloc);
    if bytes.len() > 0xffff_ffff {
        return Err(AllocError);
    }
    put_blob(alloc, &mut body, bytes)?;
    Ok(body)
}

// The same answer without the length of the blob.
fn content(alloc: Global, answered: Answered) -> Result<Answered, Refused> {
    let content = answered.again.bytes().get(4..).unwrap_or(&[]);
    let again = Blob::of(alloc, content)?;
    Ok(Answered {
        meaning: answered.meaning,
        again,
    })
}
