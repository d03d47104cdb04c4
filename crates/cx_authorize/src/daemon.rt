//! The daemon's side of an authorizer.

ghost use Rattle.std.specs.Prelude.{◌≡◌};
ghost use Rattle.cx_authorize.specs.Judging.{judged, judged_first, judged_second, IsChecked};
ghost use Rattle.cx_authorize.specs.Passing.{IsAdmitted, IsChallenged};

use crate::authorized::Authorized;
use crate::judging::{Terms, judge};
use crate::refusals::AuthRefusal;
use crate::sealing::{challenge_bytes, challenge_sealed, reply_bytes, reply_sealed};
use cx_base::{Blob, EntityType, Items, Reading};
use cx_rotate::View;
use cx_steps::SealEntry;
use std::alloc::Global;
use std::marker::Model;

/// A first authorizer that passed: the daemon awaits the answer to its challenge, which these bytes tell. What was sealed in them is to be logged
/// where they are sent.
#[derive(Drop)]
pub struct FirstPassed {
    pub awaiting: Awaiting,
    pub bytes: Blob,
    pub sealed: SealEntry,
}

/// A second authorizer that passed: what a session may be admitted on, and the reply in bytes. What was sealed in them is to be logged where they
/// are sent.
#[derive(Drop)]
pub struct SecondPassed {
    pub authorized: Authorized,
    pub bytes: Blob,
    pub sealed: SealEntry,
}

/// A daemon of a service that awaits a client's first authorizer. It is not copied: one authorizer is challenged once.
#[derive(Drop)]
pub struct First {
    service: EntityType,
}

impl Model for First {
    ghost use Rattle.cx_base.specs.declared.kinds.EntityType.{EntityType};

    ghost Value = { EntityType };

    ghost view = { λ f. f.service };
}

impl First {
    pub fn new(service: EntityType) -> First
        ensures { result ≡ service }
    {
        First { service }
    }

    /// Judges the authorizer of this payload, and answers it by this challenge. What opened is appended to the log, also where the
    /// authorizer is refused.
    pub fn check(
        self,
        alloc: Global,
        payload: &[u8],
        view: &View,
        now: Reading,
        challenge: u64,
        log: &mut Items<SealEntry>,
    ) -> Result<FirstPassed, AuthRefusal>
        ensures { IsChecked (judged_first self view.now now payload.now) (IsChallenged self challenge) log.old log.new result }
    {
        let terms = Terms {
            service: self.service,
            challenge: None,
            view: *view,
            reading: now,
        };
        check_first(alloc, &terms, payload, challenge, log)
    }
}

fn check_first(
    alloc: Global,
    terms: &Terms,
    payload: &[u8],
    challenge: u64,
    log: &mut Items<SealEntry>,
) -> Result<FirstPassed, AuthRefusal>
    ensures { IsChecked (judged terms.now payload.now) (IsChallenged terms.now.service challenge) log.old log.new result }
{
    let service = terms.service;
    match judge(alloc, terms, payload, log)? {
        Ok(shown) => {
            let session = shown.ticket.session;
            let bytes = challenge_bytes(alloc, &session, challenge)?;
            let sealed = challenge_sealed(alloc, &session, challenge)?;
            Ok(FirstPassed {
                awaiting: Awaiting { service, challenge },
                bytes,
                sealed,
            })
        }
        Err(refusal) => Err(refusal),
    }
}

/// A daemon that challenged a client and awaits its second authorizer. It is not copied: a challenge is answered once.
#[derive(Drop)]
pub struct Awaiting {
    service: EntityType,
    challenge: u64,
}

impl Model for Awaiting {
    ghost use Rattle.cx_authorize.specs.Daemon.{Awaited};

    ghost Value = { Awaited };

    ghost view = { λ a. record { service = a.service; challenge = a.challenge } };
}

impl Awaiting {
    /// Judges the authorizer of this payload, which has to answer the challenge, and answers it by this secret of the connection.
    /// What opened is appended to the log, also where the authorizer is refused.
    pub fn check(
        self,
        alloc: Global,
        payload: &[u8],
        view: &View,
        now: Reading,
        secret: &[u8; 64],
        log: &mut Items<SealEntry>,
    ) -> Result<SecondPassed, AuthRefusal>
        ensures { IsChecked (judged_second self view.now now payload.now) (IsAdmitted view.now now secret.now) log.old log.new result }
    {
        let terms = Terms {
            service: self.service,
            challenge: Some(self.challenge),
            view: *view,
            reading: now,
        };
        check_second(alloc, &terms, payload, secret, log)
    }
}

fn check_second(
    alloc: Global,
    terms: &Terms,
    payload: &[u8],
    secret: &[u8; 64],
    log: &mut Items<SealEntry>,
) -> Result<SecondPassed, AuthRefusal>
    ensures { IsChecked (judged terms.now payload.now) (IsAdmitted terms.now.view terms.now.reading secret.now) log.old log.new result }
{
    match judge(alloc, terms, payload, log)? {
        Ok(shown) => {
            let session = shown.ticket.session;
            let nonce = shown.authorize.nonce;
            let bytes = reply_bytes(alloc, &session, nonce, secret)?;
            let sealed = reply_sealed(alloc, &session, nonce, secret)?;
            let authorized = Authorized::new(shown.ticket, &terms.view, terms.reading);
            Ok(SecondPassed {
                authorized,
                bytes,
                sealed,
            })
        }
        Err(refusal) => Err(refusal),
    }
}
