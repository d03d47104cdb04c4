//! The client's side of an authorizer.

ghost use Rattle.std.specs.Prelude.{◌≡◌, Some, None, IfOk};
ghost use Rattle.cx_authorize.specs.Answers.{shown_as};
ghost use Rattle.cx_authorize.specs.Client.{AnswersOne, IsAgreed, IsAnswered, IsAsked, Presents};
ghost use Rattle.cx_authorize.specs.Passing.{authorize_sealed};

use crate::judging::raised;
use crate::opening::{opened_challenge, opened_reply};
use crate::refusals::PresentRefusal;
use crate::sealing::{authorize_sealed, authorizer_bytes};
use cx_base::{Blob, Duplicate, Items};
use cx_login::HeldTicket;
use cx_sealed::Authorize;
use cx_steps::SealEntry;
use cx_wire::{WireRefusal, read_authorize_challenge, read_authorize_reply};
use std::alloc::{AllocError, Global};
use std::marker::Model;

/// A client that showed its ticket and awaits the daemon's challenge. It is not copied: one challenge is answered once.
#[derive(Drop)]
pub struct Presenting {
    held: HeldTicket,
    gid: u64,
    nonce: u64,
}

impl Model for Presenting {
    ghost use Rattle.cx_authorize.specs.Client.{Presented};

    ghost Value = { Presented };

    ghost view = { λ p. record { held = p.held; gid = p.gid; nonce = p.nonce } };
}

impl Presenting {
    /// Shows a held ticket for this global id, and answers the bytes of the first authorizer.
    pub fn new(
        alloc: Global,
        held: &HeldTicket,
        gid: u64,
        nonce: u64,
    ) -> Result<(Presenting, Blob), AllocError>
        ensures { IfOk result (Presents held.now gid nonce) }
    {
        let bytes = authorizer_bytes(alloc, held, gid, &shown(nonce, None))?;
        let held = held.copy(alloc)?;
        Ok((Presenting { held, gid, nonce }, bytes))
    }

    /// The challenge in the AuthorizeChallenge of this payload. What opened is appended to the log, also where the challenge is refused.
    pub fn asked(
        &self,
        alloc: Global,
        payload: &[u8],
        log: &mut Items<SealEntry>,
    ) -> Result<u64, PresentRefusal>
        ensures { IsAsked self.now payload.now log.old log.new result }
    {
        asked(alloc, &self.held, self.gid, self.nonce, payload, log)
    }

    /// Answers a challenge by the bytes of the second authorizer.
    pub fn answers(self, alloc: Global, challenge: u64) -> Result<(Answering, Blob), AllocError>
        ensures { IfOk result (AnswersOne self challenge) }
    {
        answer_to(alloc, &self.held, self.gid, self.nonce, challenge)
    }

    /// That its first authorizer was sealed, or the one by which it answers a challenge, as an entry of the log.
    pub fn sealed(&self, alloc: Global, challenge: Option<u64>) -> Result<SealEntry, AllocError>
        ensures { IfOk result (λ entry. entry ≡ authorize_sealed self.now.held.session self.now.nonce challenge) }
    {
        let held = &self.held;
        let session = held.session;
        authorize_sealed(alloc, &session, &shown(self.nonce, challenge))
    }

    /// Answers the AuthorizeChallenge of this payload by the bytes of the second authorizer. What opened is appended to the log,
    /// also where the challenge is refused.
    pub fn challenged(
        self,
        alloc: Global,
        payload: &[u8],
        log: &mut Items<SealEntry>,
    ) -> Result<(Answering, Blob), PresentRefusal>
        ensures { IsAnswered self payload.now log.old log.new result }
    {
        answer(alloc, &self.held, self.gid, self.nonce, payload, log)
    }
}

// Answers a challenge to this ticket, shown for this global id with this nonce.
fn answer(
    alloc: Global,
    held: &HeldTicket,
    gid: u64,
    nonce: u64,
    payload: &[u8],
    log: &mut Items<SealEntry>,
) -> Result<(Answering, Blob), PresentRefusal>
    ensures { IsAnswered (record { held = held.now; gid = gid; nonce = nonce }) payload.now log.old log.new result }
{
    let sent = match read_authorize_challenge(alloc, payload) {
        Ok(sent) => sent,
        Err(WireRefusal::Malformed(place)) => return Err(PresentRefusal::Malformed(place)),
        Err(WireRefusal::OutOfMemory) => return Err(PresentRefusal::OutOfMemory),
    };
    let session = held.session;
    let Some(asked) = opened_challenge(alloc, &session, sent.sealed.bytes(), log)? else {
        return Err(PresentRefusal::Unopened);
    };
    let shown = shown(nonce, Some(asked.challenge));
    let bytes = authorizer_bytes(alloc, held, gid, &shown)?;
    Ok((Answering { session, nonce }, bytes))
}

// The challenge to this ticket, shown for this global id with this nonce.
fn asked(
    alloc: Global,
    held: &HeldTicket,
    gid: u64,
    nonce: u64,
    payload: &[u8],
    log: &mut Items<SealEntry>,
) -> Result<u64, PresentRefusal>
    ensures { IsAsked (record { held = held.now; gid = gid; nonce = nonce }) payload.now log.old log.new result }
{
    let sent = match read_authorize_challenge(alloc, payload) {
        Ok(sent) => sent,
        Err(WireRefusal::Malformed(place)) => return Err(PresentRefusal::Malformed(place)),
        Err(WireRefusal::OutOfMemory) => return Err(PresentRefusal::OutOfMemory),
    };
    let session = held.session;
    let Some(asked) = opened_challenge(alloc, &session, sent.sealed.bytes(), log)? else {
        return Err(PresentRefusal::Unopened);
    };
    Ok(asked.challenge)
}

// Answers this challenge.
fn answer_to(
    alloc: Global,
    held: &HeldTicket,
    gid: u64,
    nonce: u64,
    challenge: u64,
) -> Result<(Answering, Blob), AllocError>
    ensures { IfOk result (AnswersOne (record { held = held.now; gid = gid; nonce = nonce }) challenge) }
{
    let session = held.session;
    let bytes = authorizer_bytes(alloc, held, gid, &shown(nonce, Some(challenge)))?;
    Ok((Answering { session, nonce }, bytes))
}

// What an authorizer shows: the first one its nonce, the second one the challenge plus one too.
fn shown(nonce: u64, challenge: Option<u64>) -> Authorize
    ensures { result ≡ shown_as nonce challenge }
{
    match challenge {
        None => Authorize {
            nonce,
            have_challenge: false,
            server_challenge_plus_one: 0,
        },
        Some(challenge) => Authorize {
            nonce,
            have_challenge: true,
            server_challenge_plus_one: raised(challenge),
        },
    }
}

/// A client that answered the challenge and awaits the daemon's reply. It is not copied: one connection comes of it.
#[derive(Drop)]
pub struct Answering {
    session: [u8; 16],
    nonce: u64,
}

impl Model for Answering {
    ghost use Rattle.cx_authorize.specs.Client.{Answered};

    ghost Value = { Answered };

    ghost view = { λ a. record { session = a.session; nonce = a.nonce } };
}

/// What a client agreed on with a daemon.
#[derive(Clone, Copy, Debug, PartialEq, Eq)]
pub struct Agreed {
    /// The secret of the connection.
    pub secret: [u8; 64],
    /// The session key of the ticket.
    pub session: [u8; 16],
}

impl Answering {
    /// Opens the AuthorizeReply of this payload. What opened is appended to the log, also where the reply is refused.
    pub fn done(
        self,
        alloc: Global,
        payload: &[u8],
        log: &mut Items<SealEntry>,
    ) -> Result<Agreed, PresentRefusal>
        ensures { IsAgreed self payload.now log.old log.new result }
    {
        agree(alloc, &self.session, self.nonce, payload, log)
    }
}

// Takes the reply under this session key to this nonce.
fn agree(
    alloc: Global,
    session: &[u8; 16],
    nonce: u64,
    payload: &[u8],
    log: &mut Items<SealEntry>,
) -> Result<Agreed, PresentRefusal>
    ensures { IsAgreed (record { session = session.now; nonce = nonce }) payload.now log.old log.new result }
{
    let sent = match read_authorize_reply(alloc, payload) {
        Ok(sent) => sent,
        Err(WireRefusal::Malformed(place)) => return Err(PresentRefusal::Malformed(place)),
        Err(WireRefusal::OutOfMemory) => return Err(PresentRefusal::OutOfMemory),
    };
    let Some(reply) = opened_reply(alloc, session, sent.sealed.bytes(), log)? else {
        return Err(PresentRefusal::Unopened);
    };
    let expected = raised(nonce);
    if reply.nonce_plus_one != expected {
        return Err(PresentRefusal::NonceWrong {
            expected,
            got: reply.nonce_plus_one,
        });
    }
    let secret = reply.secret;
    let session = *session;
    Ok(Agreed { secret, session })
}
