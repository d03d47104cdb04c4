//! How a daemon judges an authorizer: one chain of refusals, for the first and for the second.

ghost use Rattle.std.specs.Prelude.{◌≡◌};
ghost use Rattle.cx_authorize.specs.Verdict.{raised, answering, fault_of};
ghost use Rattle.cx_authorize.specs.Judging.{judged, judged_by_service, judged_by_key, judged_by_ticket, Judges};

use crate::opening::{opened_authorize, opened_ticket};
use crate::refusals::{AuthFault, AuthRefusal};
use cx_base::{EntityType, Items, Reading};
use cx_rotate::View;
use cx_sealed::{Authorize, ServiceTicket};
use cx_steps::SealEntry;
use cx_wire::{Authorizer, WireRefusal, read_authorizer};
use std::alloc::{AllocError, Global};

/// By what an authorizer is judged: the daemon's service, the challenge that a second authorizer has to answer, the view of the
/// service's generations and the reading.
#[derive(Drop)]
pub(crate) struct Terms {
    pub(crate) service: EntityType,
    pub(crate) challenge: Option<u64>,
    pub(crate) view: View,
    pub(crate) reading: Reading,
}

/// What an authorizer has shown that no fault stands against.
#[derive(Drop)]
pub struct Shown {
    pub ticket: ServiceTicket,
    pub authorize: Authorize,
}

// The verdict on the authorizer of this payload. What opens on the way is appended to the log.
pub(crate) fn judge(
    alloc: Global,
    terms: &Terms,
    payload: &[u8],
    log: &mut Items<SealEntry>,
) -> Result<Result<Shown, AuthRefusal>, AllocError>
    ensures { Judges (judged terms.now payload.now) log.old log.new result }
{
    match read_authorizer(alloc, payload) {
        Ok(authorizer) => judge_service(alloc, terms, authorizer, log),
        Err(WireRefusal::Malformed(place)) => Ok(Err(AuthRefusal::Malformed(place))),
        Err(WireRefusal::OutOfMemory) => Err(AllocError),
    }
}

fn judge_service(
    alloc: Global,
    terms: &Terms,
    authorizer: Authorizer,
    log: &mut Items<SealEntry>,
) -> Result<Result<Shown, AuthRefusal>, AllocError>
    ensures { Judges (judged_by_service terms.now authorizer) log.old log.new result }
{
    if !terms.service.is(authorizer.service) {
        return Ok(Err(AuthRefusal::WrongService {
            kept: terms.service,
            got: authorizer.service,
        }));
    }
    let key = terms.view.generations.find(authorizer.ticket.generation);
    match judge_by_key(alloc, terms, &authorizer, key, log)? {
        Ok(shown) => Ok(Ok(shown)),
        Err(fault) => Ok(Err(AuthRefusal::Ticket {
            fault,
            blob: authorizer.ticket.blob,
        })),
    }
}

// By the key of the ticket's generation, where the view has it.
fn judge_by_key(
    alloc: Global,
    terms: &Terms,
    authorizer: &Authorizer,
    key: Option<[u8; 16]>,
    log: &mut Items<SealEntry>,
) -> Result<Result<Shown, AuthFault>, AllocError>
    ensures { Judges (judged_by_key terms.now authorizer.now key) log.old log.new result }
{
    let id = authorizer.ticket.generation;
    let Some(key) = key else {
        return Ok(Err(AuthFault::UnknownGeneration { id }));
    };
    let ticket = opened_ticket(alloc, &key, authorizer.ticket.blob.bytes(), log)?;
    judge_by_ticket(alloc, terms, authorizer, ticket, log)
}

// By the ticket to which the blob opened.
fn judge_by_ticket(
    alloc: Global,
    terms: &Terms,
    authorizer: &Authorizer,
    ticket: Option<ServiceTicket>,
    log: &mut Items<SealEntry>,
) -> Result<Result<Shown, AuthFault>, AllocError>
    ensures { Judges (judged_by_ticket terms.now authorizer.now ticket) log.old log.new result }
{
    let Some(ticket) = ticket else {
        let id = authorizer.ticket.generation;
        return Ok(Err(AuthFault::TicketUnopened { id }));
    };
    if let Some(fault) = fault_of(terms.reading, authorizer, &ticket) {
        return Ok(Err(fault));
    }
    let opened = opened_authorize(alloc, &ticket.session, authorizer.authorize.bytes(), log)?;
    Ok(answering(terms.challenge, ticket, opened))
}

// What stands against a ticket that opened.
fn fault_of(now: Reading, authorizer: &Authorizer, ticket: &ServiceTicket) -> Option<AuthFault>
    ensures { result ≡ fault_of now authorizer.now ticket.now }
{
    if authorizer.gid != ticket.gid {
        return Some(AuthFault::GidDiffers {
            claimed: authorizer.gid,
            sealed: ticket.gid,
        });
    }
    if ticket.expires <= now {
        return Some(AuthFault::Expired {
            expires: ticket.expires,
            now,
        });
    }
    None
}

// By the Authorize to which the sealed part opened.
fn answering(
    challenge: Option<u64>,
    ticket: ServiceTicket,
    opened: Option<Authorize>,
) -> Result<Shown, AuthFault>
    ensures { result ≡ answering challenge ticket opened }
{
    let Some(authorize) = opened else {
        return Err(AuthFault::AuthorizerUnopened);
    };
    let Some(challenge) = challenge else {
        return Ok(Shown { ticket, authorize });
    };
    let expected = raised(challenge);
    if !authorize.have_challenge || authorize.server_challenge_plus_one != expected {
        return Err(AuthFault::ChallengeWrong {
            expected,
            got: authorize.server_challenge_plus_one,
        });
    }
    Ok(Shown { ticket, authorize })
}

// A challenge or a nonce plus one, modulo 2^64.
pub(crate) fn raised(n: u64) -> u64
    ensures { result ≡ raised n }
{
    n.wrapping_add(1)
}
