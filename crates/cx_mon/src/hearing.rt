//! What is asked of the monitor.

ghost use Rattle.std.specs.Prelude.{◌≡◌, Ok, IfOk};
ghost use Rattle.cx_node.specs.messages.Reading.{with_body};
ghost use Rattle.cx_rules.specs.Messages.{message_in};
ghost use Rattle.cx_rules.specs.MonitorRequests.{demand_of, heard, in_order, ordered};

use cx_frame::Frame;
use cx_journal::{BytesFault, Reason, SessionFault};
use cx_node::{body_in, header_in, request_in};
use cx_rules::{Bearer, Body, Demand};
use cx_wire::{Header, REQUEST, Request};
use std::alloc::{AllocError, Global};

/// What a frame on the open link of this entity asks for, behind the messages that it sent there, or why the link is refused.
pub fn hear(
    alloc: Global,
    bearer: &Bearer,
    frame: &Frame,
) -> Result<Result<Demand, Reason>, AllocError>
    ensures { IfOk result (λ found. found ≡ heard bearer.now frame.now) }
{
    let read = demand_in(alloc, frame)?;
    Ok(ordered(bearer.last, read))
}

// The message of a frame.
fn demand_in(alloc: Global, frame: &Frame) -> Result<Result<Demand, BytesFault>, AllocError>
    ensures { IfOk result (λ read. read ≡ demand_of (message_in frame.now)) }
{
    match header_in(alloc, frame)? {
        Err(why) => Ok(Err(why)),
        Ok(header) => demand_of(alloc, header, body_in(frame)),
    }
}

// A message with this header and body.
fn demand_of(
    alloc: Global,
    header: Header,
    body: &[u8],
) -> Result<Result<Demand, BytesFault>, AllocError>
    ensures { IfOk result (λ read. read ≡ demand_of (with_body body.now (Ok header))) }
{
    if header.type_ != REQUEST {
        return Ok(Ok(demand_as(header, None)));
    }
    match request_in(alloc, body)? {
        Body::Spelled(request) => Ok(Ok(demand_as(header, Some(request)))),
        Body::OtherCode => Ok(Ok(demand_as(header, None))),
        Body::Misspelled(why) => Ok(Err(why)),
    }
}

fn demand_as(header: Header, request: Option<Request>) -> Demand
    ensures { result ≡ record { seq = header.seq; tid = header.tid; request = request } }
{
    Demand {
        seq: header.seq,
        tid: header.tid,
        request,
    }
}

// A body that can't be read goes before a wrong number.
fn ordered(last: u64, read: Result<Demand, BytesFault>) -> Result<Demand, Reason>
    ensures { result ≡ ordered last read }
{
    match read {
        Err(why) => Err(Reason::Bytes(why)),
        Ok(demand) => in_order(last, demand),
    }
}

// Messages come in the order of their numbers.
fn in_order(last: u64, demand: Demand) -> Result<Demand, Reason>
    ensures { result ≡ in_order last demand }
{
    if last == u64::MAX {
        return Err(Reason::Spent);
    }
    if demand.seq == last + 1 {
        Ok(demand)
    } else {
        Err(Reason::Session(SessionFault::Gap(last + 1)))
    }
}
