//! Replies that are taken.

ghost use Rattle.std.specs.Prelude.{◌≡◌, [], All, IfOk, Ok};
ghost use Rattle.cx_journal.specs.declared.premises.KeyKind.TheVariants.{Principal};
ghost use Rattle.cx_login.specs.Held.{IsShort};
ghost use Rattle.cx_login.specs.Unlocking.{Unlocks, told_each, unlocked};
ghost use Rattle.cx_node.specs.messages.Reading.{IfSpelled, with_body};
ghost use Rattle.cx_rules.specs.Requests.{body_taken, message_taken, reply_taken, rotating_taken, taken, tickets_taken, waiting_taken};
ghost use Rattle.cx_rules.specs.declared.requests.Taken.TheVariants.{Refuses};
ghost use Rattle.cx_sealed.specs.Records.{rotating_reply_layout};
ghost use Rattle.cx_wire.specs.Bodies.{reply_layout};

use crate::kept::Requests;
use cx_base::{Blob, Items, Reading};
use cx_frame::Frame;
use cx_journal::{BytesFault, KeyKind, LoginFault, Reason};
use cx_login::{LoginRefusal, held_tickets, logged};
use cx_node::{body_in, header_in, reply_in};
use cx_rules::{Body, Taken, Waiting, Want};
use cx_sealed::{RotatingReply, unseal_rotating_reply};
use cx_steps::SealEntry;
use cx_wire::{Header, REPLY, Reply, TicketPart};
use std::alloc::{AllocError, Global};

/// What comes of a frame on an open link, for an entity with this secret: the reply to the request that waits longest is taken, or it is
/// refused. Nothing is held yet.
pub fn take_reply(
    alloc: Global,
    secret: &[u8; 16],
    requests: &Requests,
    frame: &Frame,
) -> Result<Taken, AllocError>
    ensures { IfOk result (λ found. found ≡ taken secret.now requests.now frame.now) }
{
    match header_in(alloc, frame)? {
        Err(why) => Ok(refused(alloc, Reason::Bytes(why))),
        Ok(header) => message_taken(alloc, secret, requests, header, body_in(frame)),
    }
}

// Nothing opened of it.
fn refused(alloc: Global, why: Reason) -> Taken
    ensures { result ≡ Refuses why [] }
{
    Taken::Refuses {
        why,
        opened: Items::new(alloc),
    }
}

// A message with this header and body.
fn message_taken(
    alloc: Global,
    secret: &[u8; 16],
    requests: &Requests,
    header: Header,
    body: &[u8],
) -> Result<Taken, AllocError>
    ensures { IfOk result (λ found. found ≡ message_taken secret.now requests.now (with_body body.now (Ok header))) }
{
    if header.type_ != REPLY {
        return Ok(refused(alloc, Reason::Bytes(BytesFault::Unexpected(17))));
    }
    let read = reply_in(alloc, body)?;
    body_taken(alloc, secret, requests, header.tid, read)
}

// What the body says.
fn body_taken(
    alloc: Global,
    secret: &[u8; 16],
    requests: &Requests,
    tid: u64,
    body: Body<Reply>,
) -> Result<Taken, AllocError>
    requires { IfSpelled reply_layout.form.Fits body }
    ensures { IfOk result (λ found. found ≡ body_taken secret.now requests.now tid body) }
{
    match body {
        Body::Spelled(reply) => {
            let session = requests.session();
            waiting_taken(alloc, secret, &session, requests.waiting(), tid, &reply)
        }
        Body::OtherCode => Ok(refused(alloc, Reason::BadReply)),
        Body::Misspelled(why) => Ok(refused(alloc, Reason::Bytes(why))),
    }
}

// It has to answer the request that waits longest.
fn waiting_taken(
    alloc: Global,
    secret: &[u8; 16],
    session: &[u8; 16],
    waiting: &[Waiting],
    tid: u64,
    reply: &Reply,
) -> Result<Taken, AllocError>
    requires { reply_layout.form.Fits reply.now }
    ensures { IfOk result (λ found. found ≡ waiting_taken secret.now session.now waiting.now tid reply.now) }
{
    match waiting {
        [] => Ok(refused(alloc, Reason::BadReply)),
        [first, ..] => {
            if tid == first.tid {
                reply_taken(alloc, secret, session, first.want, reply)
            } else {
                Ok(refused(alloc, Reason::BadReply))
            }
        }
    }
}

// By what was asked for.
fn reply_taken(
    alloc: Global,
    secret: &[u8; 16],
    session: &[u8; 16],
    want: Want,
    reply: &Reply,
) -> Result<Taken, AllocError>
    requires { reply_layout.form.Fits reply.now }
    ensures { IfOk result (λ found. found ≡ reply_taken secret.now session.now want reply.now) }
{
    match want {
        Want::Tickets => match reply {
            Reply::Tickets(parts) => tickets_taken(alloc, session, parts.all()),
            Reply::Rotating(_) => Ok(refused(alloc, Reason::BadReply)),
        },
        Want::Rotating(reading) => match reply {
            Reply::Rotating(sealed) => rotating_taken(alloc, secret, reading, sealed),
            Reply::Tickets(_) => Ok(refused(alloc, Reason::BadReply)),
        },
    }
}

// Tickets, told under the session key of the ticket for AUTH.
fn tickets_taken(
    alloc: Global,
    session: &[u8; 16],
    parts: &[TicketPart],
) -> Result<Taken, AllocError>
    requires { All IsShort parts.now }
    ensures { IfOk result (λ found. found ≡ tickets_taken (told_each session.now parts.now).seals (told_each session.now parts.now).value) }
{
    let mut opened = Items::new(alloc);
    match held_tickets(alloc, session, parts, &mut opened) {
        Ok(held) => Ok(Taken::Holds { held, opened }),
        Err(refusal) => match refusal {
            LoginRefusal::Unopened => Ok(Taken::Refuses {
                why: Reason::Login(LoginFault::Unopened),
                opened,
            }),
            LoginRefusal::Malformed(_) => unreachable!(),
            LoginRefusal::OutOfMemory => Err(AllocError),
        },
    }
}

// Generations, told under the entity's own secret.
fn rotating_taken(
    alloc: Global,
    secret: &[u8; 16],
    reading: Reading,
    sealed: &Blob,
) -> Result<Taken, AllocError>
    ensures { IfOk result (λ found. found ≡ rotating_taken reading (unlocked rotating_reply_layout.form Principal secret.now sealed.now).seals
        (unlocked rotating_reply_layout.form Principal secret.now sealed.now).value) }
{
    let mut opened = Items::new(alloc);
    match unlocked_reply(alloc, secret, sealed.bytes(), &mut opened)? {
        Some(told) => Ok(Taken::Views {
            asked: reading,
            generations: told.generations,
            opened,
        }),
        None => Ok(Taken::Refuses {
            why: Reason::Login(LoginFault::Unopened),
            opened,
        }),
    }
}

// The RotatingReply that these bytes open to.
fn unlocked_reply(
    alloc: Global,
    secret: &[u8; 16],
    sealed: &[u8],
    opened: &mut Items<SealEntry>,
) -> Result<Option<RotatingReply>, AllocError>
    ensures { Unlocks (unlocked rotating_reply_layout.form Principal secret.now sealed.now) opened.old opened.new result }
{
    let found = unseal_rotating_reply(alloc, secret, sealed)?;
    logged(alloc, KeyKind::Principal, secret, found, opened)
}
