//! The client's side of a login.

ghost use Rattle.std.specs.Prelude.{◌≡◌, ◌≤◌, ◌<◌, ◌^◌, ◌∷◌, All, length, IsTrue, IfOk};
ghost use Rattle.cx_sealed.specs.cx_aes.specs.Cipher.{IsBlock};
ghost use Rattle.cx_enc.specs.Whole.{Spells};
ghost use Rattle.cx_wire.specs.Logins.{authenticate_layout, login_done_layout, is_version};
ghost use Rattle.cx_login.specs.Held.{IsShort};
ghost use Rattle.cx_login.specs.Client.{version_of, shown_ticket, authenticate, IsAnswered, IsDone};
ghost use Rattle.cx_login.specs.Handed.{TakesHandedOut};
ghost use Rattle.cx_login.specs.Unlocking.{login_of_parts, login_in, Unlocks};

use crate::held::{HeldTicket, told, told_each};
use crate::opening::unlocked_secret;
use crate::proving::due_proof;
use crate::refusals::LoginRefusal;
use cx_base::{Blob, Duplicate, Items};
use cx_enc::{Key, TicketBlob};
use cx_sealed::SealKey;
use cx_steps::{KeyKind, SealEntry};
use cx_wire::{
    Authenticate, LoginDone, TicketPart, WireRefusal, put_authenticate, read_login_done,
    read_server_challenge,
};
use std::alloc::{AllocError, Global};
use std::marker::Model;

/// A client that asked to log in and awaits the monitor's challenge. It is not copied: one challenge is answered once.
#[derive(Drop)]
pub struct Asking {
    key: Key,
    old: Option<HeldTicket>,
    other_keys: u32,
}

impl Model for Asking {
    ghost use Rattle.cx_login.specs.Client.{Ask};

    ghost Value = { Ask };

    ghost view = { λ a. record { secret = a.key.secret; old = a.old; other_keys = a.other_keys } };
}

impl Asking {
    /// The client's key, the AUTH ticket that it hands in so that its global id is kept, and the sum of the numbers of the services
    /// for which it asks tickets (2 mds, 4 osd, 16 mgr).
    pub fn new(key: Key, old: Option<HeldTicket>, other_keys: u32) -> Asking
        ensures { result ≡ record { secret = key.secret; old = old; other_keys = other_keys } }
    {
        Asking {
            key,
            old,
            other_keys,
        }
    }

    /// Answers the ServerChallenge of this payload by an Authenticate: of version 3 beside an old ticket, else of version 2.
    pub fn challenged(
        self,
        alloc: Global,
        payload: &[u8],
        client_challenge: u64,
    ) -> Result<(Challenged, Blob), LoginRefusal>
        ensures { IsAnswered self payload.now client_challenge result }
    {
        match read_server_challenge(alloc, payload) {
            Ok(server) => {
                let answer = self.authenticate(alloc, server.challenge, client_challenge)?;
                let bytes = authenticate_bytes(alloc, &answer)?;
                Ok((Challenged { key: self.key }, bytes))
            }
            Err(WireRefusal::Malformed(place)) => Err(LoginRefusal::Malformed(place)),
            Err(WireRefusal::OutOfMemory) => Err(LoginRefusal::OutOfMemory),
        }
    }

    // The Authenticate that answers this challenge.
    fn authenticate(
        &self,
        alloc: Global,
        server_challenge: u64,
        client_challenge: u64,
    ) -> Result<Authenticate, AllocError>
        ensures answer { IfOk result (λ answer. answer ≡ authenticate self.now server_challenge client_challenge) }
        ensures version { IfOk result (λ answer. IsTrue (is_version answer.version)) }
        ensures short { IfOk result (λ answer. length answer.old_ticket.blob < 2 ^ 32) }
    {
        let key = due_proof(&self.key, server_challenge, client_challenge);
        let old_ticket = shown_ticket(alloc, &self.old)?;
        Ok(Authenticate {
            version: version_of(&self.old),
            client_challenge,
            key,
            old_ticket,
            other_keys: self.other_keys,
        })
    }
}

// The bytes of an Authenticate.
#[tactic(auto, using(crate::proofs::Put::put_spells))]
fn authenticate_bytes(alloc: Global, answer: &Authenticate) -> Result<Blob, AllocError>
    requires version { IsTrue (is_version answer.now.version) }
    requires short { length answer.now.old_ticket.blob < 2 ^ 32 }
    ensures { IfOk result (λ bytes. Spells authenticate_layout.form bytes answer.now) }
{
    let mut bytes = Blob::new(alloc);
    put_authenticate(alloc, &mut bytes, answer)?;
    Ok(bytes)
}

fn version_of(old: &Option<HeldTicket>) -> u8
    ensures value { result ≡ version_of old.now }
    ensures version { IsTrue (is_version result) }
{
    match old {
        None => 2,
        Some(_) => 3,
    }
}

// The old ticket as it is shown.
fn shown_ticket(alloc: Global, old: &Option<HeldTicket>) -> Result<TicketBlob, AllocError>
    ensures { IfOk result (λ shown. (shown ≡ shown_ticket old.now) × (length shown.blob < 2 ^ 32)) }
{
    match old {
        None => Ok(TicketBlob {
            generation: 0,
            blob: Blob::new(alloc),
        }),
        Some(held) => Ok(TicketBlob {
            generation: held.generation,
            blob: held.blob.copy(alloc)?,
        }),
    }
}

/// A client that answered the challenge and awaits the monitor's LoginDone. It comes of an answered challenge alone, and is not copied: one
/// login comes of it.
#[derive(Drop)]
pub struct Challenged {
    key: Key,
}

// Seen as the secret under which the TicketInfo for AUTH opens.
impl Model for Challenged {
    ghost use Rattle.std.specs.Prelude.{ℕ, List};

    ghost Value = { List ℕ };

    ghost view = { λ c. c.key.secret };
}

impl Challenged {
    /// Opens the LoginDone of this payload. What opened is appended to the log, also where the login is refused.
    pub fn done(
        self,
        alloc: Global,
        payload: &[u8],
        seals: &mut Items<SealEntry>,
    ) -> Result<LoggedIn, LoginRefusal>
        ensures login { IsDone self payload.now seals.old seals.new result }
        // What the key server hands out to the entity of this secret is read as exactly that.
        ensures handed { TakesHandedOut self payload.now result }
    {
        opened_login(alloc, &self.key.secret, payload, seals)
    }
}

/// Opens the LoginDone of this payload under the secret of a client that answered the challenge, as one that keeps its stages itself
/// does. What opened is appended to the log, also where the login is refused.
pub fn opened_login(
    alloc: Global,
    secret: &[u8; 16],
    payload: &[u8],
    seals: &mut Items<SealEntry>,
) -> Result<LoggedIn, LoginRefusal>
    ensures login { IsDone secret.now payload.now seals.old seals.new result }
    // What the key server hands out to the entity of this secret is read as exactly that.
    ensures handed { TakesHandedOut secret.now payload.now result }
{
    taken(alloc, secret, payload, seals)
}

// Takes the LoginDone of this payload.
#[tactic(auto, using(crate::proofs::Handing::is_block))]
fn taken(
    alloc: Global,
    secret: &[u8; 16],
    payload: &[u8],
    seals: &mut Items<SealEntry>,
) -> Result<LoggedIn, LoginRefusal>
    ensures login { IsDone secret.now payload.now seals.old seals.new result }
    ensures block { IsBlock secret.now }
{
    match read_login_done(alloc, payload) {
        Ok(done) => match login_in(alloc, secret, &done, seals)? {
            Some(login) => Ok(login),
            None => Err(LoginRefusal::Unopened),
        },
        Err(WireRefusal::Malformed(place)) => Err(LoginRefusal::Malformed(place)),
        Err(WireRefusal::OutOfMemory) => Err(LoginRefusal::OutOfMemory),
    }
}

/// What a client holds behind its login.
#[derive(PartialEq, Eq, Drop)]
pub struct LoggedIn {
    /// The ticket for AUTH.
    pub auth: HeldTicket,
    /// Those for MDS, OSD and MGR, in this order, as far as they were issued.
    pub tickets: Items<HeldTicket>,
    /// The secret of the connection to the monitor.
    pub secret: [u8; 64],
}

// The login of a LoginDone.
#[tactic(auto, using(crate::proofs::Holding::some_tickets, crate::proofs::Holding::short_tickets))]
fn login_in(
    alloc: Global,
    secret: &[u8; 16],
    done: &LoginDone,
    seals: &mut Items<SealEntry>,
) -> Result<Option<LoggedIn>, AllocError>
    requires { login_done_layout.form.Fits done.now }
    ensures { Unlocks (login_in secret.now done.now) seals.old seals.new result }
{
    let connection = done.connection_secret.bytes();
    match done.tickets.all().split_first() {
        Some((auth, parts)) => login_of_parts(alloc, secret, auth, parts, connection, seals),
        None => unreachable!(),
    }
}

// Opens the TicketInfo for AUTH under the secret, and all else under the session key that it tells.
fn login_of_parts(
    alloc: Global,
    own: &[u8; 16],
    auth: &TicketPart,
    parts: &[TicketPart],
    connection: &[u8],
    seals: &mut Items<SealEntry>,
) -> Result<Option<LoggedIn>, AllocError>
    requires auth { IsShort auth.now }
    requires parts { All IsShort parts.now }
    ensures { Unlocks (login_of_parts own.now (auth.now ∷ parts.now) connection.now) seals.old seals.new result }
{
    let Some(auth) = told(alloc, KeyKind::Principal, &SealKey::new(own), auth, seals)? else {
        return Ok(None);
    };
    let session = SealKey::new(&auth.session);
    let Some(tickets) = told_each(alloc, &session, parts, seals)? else {
        return Ok(None);
    };
    let Some(opened) = unlocked_secret(alloc, &session, connection, seals)? else {
        return Ok(None);
    };
    let secret = opened.secret;
    Ok(Some(LoggedIn {
        auth,
        tickets,
        secret,
    }))
}
