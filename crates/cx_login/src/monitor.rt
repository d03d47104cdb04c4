//! The monitor's side of a login.

ghost use Rattle.std.specs.Prelude.{◌≡◌, ◌++◌, IfOk, OnOk};
ghost use Rattle.cx_login.specs.Monitor.{IsProved, proving, proof_found, kept_gid, reclaimed};
ghost use Rattle.cx_login.specs.Unlocking.{old_ticket, Unlocks};

use crate::opening::unlocked_ticket;
use crate::proving::due_proof;
use crate::refusals::WrongProof;
use cx_base::{Blob, EntityName, Items, Reading};
use cx_enc::{Key, TicketBlob};
use cx_sealed::{Generations, ServiceTicket};
use cx_steps::{KeyKind, SealEntry, SealMark};
use cx_wire::Authenticate;
use std::alloc::{AllocError, Global};
use std::marker::Model;

/// A challenge that the monitor offered to the entity of this name, which has this key. It is not copied: a challenge is proved
/// once.
#[derive(Drop)]
pub struct Offered {
    name: EntityName,
    key: Key,
    challenge: u64,
}

impl Model for Offered {
    ghost use Rattle.cx_login.specs.Monitor.{Offer};

    ghost Value = { Offer };

    ghost view = { λ o. record { name = o.name; secret = o.key.secret; challenge = o.challenge } };
}

impl Offered {
    pub fn new(name: EntityName, key: Key, challenge: u64) -> Offered
        ensures { result ≡ record { name = name; secret = key.secret; challenge = challenge } }
    {
        Offered {
            name,
            key,
            challenge,
        }
    }

    /// Compares the proof of an Authenticate with the one that the entity's key makes of both challenges.
    pub fn prove(self, ask: Authenticate) -> Result<Proved, WrongProof>
        ensures { result ≡ proving self ask }
    {
        let expected = due_proof(&self.key, self.challenge, ask.client_challenge);
        if expected != ask.key {
            return Err(WrongProof {
                expected,
                got: ask.key,
            });
        }
        Ok(Proved { offered: self, ask })
    }
}

/// An entity that proved that it knows its key. It is not copied: a proof logs in once. There is none but by `Offered::prove`.
#[derive(Drop)]
pub struct Proved {
    offered: Offered,
    ask: Authenticate,
}

impl Model for Proved {
    ghost use Rattle.cx_login.specs.Monitor.{Proven, IsProved};

    ghost Value = { Proven };

    ghost view = { λ p. record { offer = p.offered; ask = p.ask } };

    ghost invariant = { λ p. IsProved p.offered p.ask };
}

/// Which global id a proved entity is to have.
#[derive(Clone, Copy, PartialEq, Eq)]
pub enum Reclaim {
    /// The one of its old ticket.
    Kept(u64),
    /// A new one.
    Fresh,
    /// It asked for this one alone, by version 3, and its old ticket doesn't keep it.
    Denied { gid: u64 },
}

impl Proved {
    /// The entity whose proof was equal.
    pub fn name(&self) -> &EntityName
        ensures name { result.now ≡ self.now.offer.name }
        ensures proved { IsProved self.now.offer self.now.ask }
    {
        &self.offered.name
    }

    /// What was found equal, as an entry of the log: under the entity's key both challenges, the monitor's first.
    pub fn found(&self, alloc: Global) -> Result<SealEntry, AllocError>
        ensures { IfOk result (λ entry. entry ≡ proof_found self.now.offer self.now.ask.client_challenge) }
    {
        let mut content = Blob::of(alloc, &self.offered.challenge.to_le_bytes())?;
        content.append(alloc, &self.ask.client_challenge.to_le_bytes())?;
        Ok(SealEntry::Checked(SealMark {
            key: self.offered.key.secret,
            kind: KeyKind::Proof,
            content,
        }))
    }

    /// The services for which it asks tickets, as the sum of their numbers.
    pub fn asked(&self) -> u32
        ensures { result ≡ self.now.ask.other_keys }
    {
        self.ask.other_keys
    }

    /// Whether the global id is kept: by its old ticket, which one of these generations of AUTH sealed for it and which expires
    /// after this reading. `hello_gid` is the global id of the entity's LoginHello. Where the old ticket opens, that is appended to
    /// the log.
    pub fn reclaim(
        &self,
        alloc: Global,
        hello_gid: u64,
        auth: &Generations,
        now: Reading,
        seals: &mut Items<SealEntry>,
    ) -> Result<Reclaim, AllocError>
        ensures reclaimed { IfOk result (λ reclaim. reclaim ≡ reclaimed hello_gid self.now.ask.version
            (kept_gid self.now.offer.name now (old_ticket auth.now self.now.ask.old_ticket).value)) }
        ensures opened { OnOk result (seals.new ≡ seals.old ++ (old_ticket auth.now self.now.ask.old_ticket).seals) }
    {
        let ticket = old_ticket(alloc, auth, &self.ask.old_ticket, seals)?;
        let kept = kept_gid(&self.offered.name, now, &ticket);
        Ok(reclaimed(hello_gid, self.ask.version, kept))
    }
}

// An old ticket, under its generation of AUTH, where that is there.
fn old_ticket(
    alloc: Global,
    auth: &Generations,
    old: &TicketBlob,
    seals: &mut Items<SealEntry>,
) -> Result<Option<ServiceTicket>, AllocError>
    ensures { Unlocks (old_ticket auth.now old.now) seals.old seals.new result }
{
    let key = auth.find(old.generation);
    unlocked_ticket(alloc, key, old.blob.bytes(), seals)
}

// The global id of an old ticket, where it is this entity's and expires after the reading.
fn kept_gid(name: &EntityName, now: Reading, ticket: &Option<ServiceTicket>) -> Option<u64>
    ensures { result ≡ kept_gid name.now now ticket.now }
{
    let ticket = ticket.as_ref()?;
    if ticket.name != *name || ticket.expires <= now {
        return None;
    }
    Some(ticket.gid)
}

// What comes of an old ticket that keeps this global id, or none.
fn reclaimed(hello_gid: u64, version: u8, kept: Option<u64>) -> Reclaim
    ensures { result ≡ reclaimed hello_gid version kept }
{
    match kept {
        Some(gid) => Reclaim::Kept(gid),
        None => {
            if version == 3 && hello_gid != 0 {
                Reclaim::Denied { gid: hello_gid }
            } else {
                Reclaim::Fresh
            }
        }
    }
}
