//! The bodies of a request to the monitor and of its reply.

ghost use Rattle.std.specs.Prelude.{Some};
ghost use Rattle.cx_base.specs.declared.kinds.EntityType.TheVariants.{Auth};
ghost use Rattle.cx_control.specs.Calls.{IsPutBy};
ghost use Rattle.cx_wire.specs.Bodies.{request_layout, reply_layout, IsShortReply, request_content, reply_content};
ghost use Rattle.cx_wire.specs.BodyCalls.{IsBodyReadBy};

use crate::contents::{ROTATING, TICKETS, put_body, read_body};
use crate::refusals::BodyRefusal;
use crate::tickets::TicketPart;
use cx_base::{Blob, EntityType, Items};
use cx_enc::{
    Cut, Encoded, ReadFault, ReadRefusal, put_blob, put_chain, put_u8, put_u16, put_u32, take_chain,
};
use std::alloc::{AllocError, Global};

/// Request, the body of message 17.
#[derive(Clone, Copy, PartialEq, Eq)]
pub enum Request {
    /// Tickets for services, by the sum of their numbers (2 mds, 4 osd, 16 mgr); other bits mean nothing.
    Tickets(u32),
    /// The generations of the daemon's own type.
    Rotating,
}

impl Encoded for Request {
    ghost layout = { request_content };

    fn read(_alloc: Global, cut: &mut Cut<'_>) -> Result<Request, ReadRefusal> {
        let place = cut.place();
        match cut.take_u16()? {
            TICKETS => {
                cut.take_fixed_u8(1)?;
                Ok(Request::Tickets(cut.take_u32()?))
            }
            ROTATING => {
                cut.take_fixed_u8(1)?;
                Ok(Request::Rotating)
            }
            _ => Err(ReadRefusal::Fault(ReadFault::BadField(place))),
        }
    }

    fn write(&self, alloc: Global, into: &mut Blob) -> Result<(), AllocError> {
        match self {
            Request::Tickets(keys) => {
                put_u16(alloc, into, TICKETS)?;
                put_u8(alloc, into, 1)?;
                put_u32(alloc, into, *keys)
            }
            Request::Rotating => {
                put_u16(alloc, into, ROTATING)?;
                put_u8(alloc, into, 1)
            }
        }
    }
}

/// Reads the body of message 17.
pub fn read_request(alloc: Global, bytes: &[u8]) -> Result<Request, BodyRefusal>
    ensures { IsBodyReadBy request_layout.form bytes.now result }
{
    read_body(alloc, bytes)
}

/// Writes the body of message 17 behind some bytes.
pub fn put_request(alloc: Global, into: &mut Blob, value: &Request) -> Result<(), AllocError>
    ensures { IsPutBy request_layout.form value.now into.old into.new result }
{
    put_body(alloc, into, value)
}

/// Reply, the body of message 18.
#[derive(PartialEq, Eq, Drop)]
pub enum Reply {
    /// Tickets for MDS, OSD and MGR, in this order, as far as they are issued.
    Tickets(Items<TicketPart>),
    /// The sealed RotatingReply.
    Rotating(Blob),
}

impl Encoded for Reply {
    ghost layout = { reply_content };

    ghost Bound = { IsShortReply };

    fn read(alloc: Global, cut: &mut Cut<'_>) -> Result<Reply, ReadRefusal> {
        let place = cut.place();
        match cut.take_u16()? {
            TICKETS => {
                cut.take_fixed_u8(1)?;
                let count = cut.take_u32()?;
                let tickets = take_chain(alloc, cut, Some(EntityType::Auth), count)?;
                Ok(Reply::Tickets(tickets))
            }
            ROTATING => Ok(Reply::Rotating(Blob::read(alloc, cut)?)),
            _ => Err(ReadRefusal::Fault(ReadFault::BadField(place))),
        }
    }

    #[tactic(auto, using(crate::proofs::FewTickets::few))]
    fn write(&self, alloc: Global, into: &mut Blob) -> Result<(), AllocError> {
        match self {
            Reply::Tickets(tickets) => {
                put_u16(alloc, into, TICKETS)?;
                put_u8(alloc, into, 1)?;
                put_u32(alloc, into, tickets.all().len() as u32)?;
                put_chain(alloc, into, Some(EntityType::Auth), tickets)
            }
            Reply::Rotating(sealed) => {
                put_u16(alloc, into, ROTATING)?;
                put_blob(alloc, into, sealed.bytes())
            }
        }
    }
}

/// Reads the body of message 18.
pub fn read_reply(alloc: Global, bytes: &[u8]) -> Result<Reply, BodyRefusal>
    ensures { IsBodyReadBy reply_layout.form bytes.now result }
{
    read_body(alloc, bytes)
}

/// Writes the body of message 18 behind some bytes. A reply that takes 2^32 bytes or more fits no blob, and is answered as want of
/// memory.
pub fn put_reply(alloc: Global, into: &mut Blob, value: &Reply) -> Result<(), AllocError>
    requires { IsShortReply value.now }
    ensures { IsPutBy reply_layout.form value.now into.old into.new result }
{
    put_body(alloc, into, value)
}
