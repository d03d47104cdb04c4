//! Requests that are sent.

ghost use Rattle.std.specs.Prelude.{◌≡◌, ◌<◌, ◌-◌, ◌^◌, IfOk, length};
ghost use Rattle.cx_node.specs.steps.Sending.{SealsSecure};
ghost use Rattle.cx_rules.specs.Requests.{request_message, sealed_request};
ghost use Rattle.cx_rules.specs.Secured.{secure_frame};
ghost use Rattle.cx_rules.specs.declared.requests.Want.TheVariants.{Rotating, Tickets};
ghost use Rattle.cx_wire.specs.Bodies.{request_layout};
ghost use Rattle.cx_wire.specs.declared.bodies.Request.TheVariants as asked;
ghost use Rattle.cx_monclient.specs.requests.Asking.{AsksFor, IsNoted};

use crate::kept::Requests;
use crate::links::OpenAhead;
use cx_base::{Blob, Duplicate, Items, Reading};
use cx_journal::{BytesFault, Reason};
use cx_node::{AheadFrame, SecureLink, seal_message};
use cx_rules::Want;
use cx_steps::SealEntry;
use cx_wire::{Header, REQUEST, Request, put_request};
use std::alloc::{AllocError, Global};

/// A request that was sealed ahead on a link: what that goes on by behind it, the bytes, and what is logged of them.
#[derive(Drop)]
pub struct Asked {
    pub ahead: OpenAhead,
    pub bytes: Blob,
    pub seals: Items<SealEntry>,
}

/// Asks for tickets, by the sum of the numbers of their services, or says why the link is refused. The link stays as it is until it goes on behind the request.
pub fn ask_tickets(
    alloc: Global,
    link: &SecureLink,
    requests: &Requests,
    services: u32,
) -> Result<Result<Asked, Reason>, AllocError>
    ensures { IfOk result (AsksFor link.now requests.now Tickets (sealed_request link.now.keys requests.now (asked.Tickets services))) }
{
    ask(
        alloc,
        link,
        requests,
        Want::Tickets,
        &Request::Tickets(services),
    )
}

/// Asks for the generations of a daemon's own type, at this reading, or says why the link is refused. The link stays as it is until it goes on behind the request.
pub fn ask_rotating(
    alloc: Global,
    link: &SecureLink,
    requests: &Requests,
    reading: Reading,
) -> Result<Result<Asked, Reason>, AllocError>
    ensures { IfOk result (AsksFor link.now requests.now (Rotating reading) (sealed_request link.now.keys requests.now asked.Rotating)) }
{
    ask(
        alloc,
        link,
        requests,
        Want::Rotating(reading),
        &Request::Rotating,
    )
}

// The next request, while there is one.
fn ask(
    alloc: Global,
    link: &SecureLink,
    requests: &Requests,
    want: Want,
    request: &Request,
) -> Result<Result<Asked, Reason>, AllocError>
    ensures { IfOk result (AsksFor link.now requests.now want (sealed_request link.now.keys requests.now request.now)) }
{
    if requests.count() == u64::MAX {
        return Ok(Err(Reason::Spent));
    }
    let number = requests.count() + 1;
    match seal_request(alloc, link, number, request)? {
        Err(why) => Ok(Err(Reason::Bytes(why))),
        Ok(sealed) => noted(alloc, sealed, requests, want),
    }
}

// A request that was sealed is noted.
fn noted(
    alloc: Global,
    sealed: AheadFrame,
    requests: &Requests,
    want: Want,
) -> Result<Result<Asked, Reason>, AllocError>
    requires { requests.now.count < 2 ^ 64 - 1 }
    ensures { IfOk result (IsNoted sealed requests.now want) }
{
    let mut requests = requests.copy(alloc)?;
    requests.note(alloc, want)?;
    let AheadFrame {
        ahead,
        bytes,
        seals,
    } = sealed;
    Ok(Ok(Asked {
        ahead: OpenAhead {
            link: ahead,
            requests,
        },
        bytes,
        seals,
    }))
}

// Message 17 with this number.
fn seal_request(
    alloc: Global,
    link: &SecureLink,
    number: u64,
    request: &Request,
) -> Result<Result<AheadFrame, BytesFault>, AllocError>
    ensures { IfOk result (SealsSecure link.now (secure_frame link.now.keys (request_message number request.now))) }
{
    let body = request_body(alloc, request)?;
    let header = Header {
        seq: number,
        tid: number,
        type_: REQUEST,
    };
    seal_message(alloc, link, &header, body)
}

fn request_body(alloc: Global, request: &Request) -> Result<Blob, AllocError>
    ensures text { IfOk result (λ body. body ≡ request_layout.form.text request.now) }
    ensures short { IfOk result (λ body. length body < 2 ^ 32) }
{
    let mut body = Blob::new(alloc);
    put_request(alloc, &mut body, request)?;
    Ok(body)
}
