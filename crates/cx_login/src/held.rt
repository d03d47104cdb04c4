//! Tickets as a client holds them.

ghost use Rattle.std.specs.Prelude.{◌≡◌, ◌<◌, ◌^◌, All, length, IfOk};
ghost use Rattle.cx_login.specs.Held.{held_as, IsShort};
ghost use Rattle.cx_login.specs.Unlocking.{told, told_each, Unlocks, AreHeld};

use crate::opening::unlocked_info;
use crate::refusals::LoginRefusal;
use cx_base::{Blob, Duplicate, EntityType, Items, Reading};
use cx_sealed::{SealKey, TicketInfo};
use cx_steps::{KeyKind, SealEntry};
use cx_wire::TicketPart;
use std::alloc::{AllocError, Global};
use std::marker::Model;

/// A ticket that a client holds: the generation that sealed its blob, which only the service opens, and what the client was told
/// of it. The blob has below 2^32 bytes, so that it can be shown.
#[derive(PartialEq, Eq, Drop)]
pub struct HeldTicket {
    pub service: EntityType,
    pub generation: u64,
    pub blob: Blob,
    /// The session key.
    pub session: [u8; 16],
    pub expires: Reading,
}

impl Model for HeldTicket {
    ghost use Rattle.std.specs.Prelude.{◌<◌, ◌^◌, length};
    ghost use Rattle.cx_login.specs.Held.{Held};

    ghost Value = { Held };

    ghost view = { λ h. record { service = h.service; generation = h.generation; blob = h.blob; session = h.session; expires = h.expires } };

    ghost invariant = { λ h. length h.blob < 2 ^ 32 };

    ghost inverse = { λ h. record { service = h.service; generation = h.generation; blob = h.blob; session = h.session; expires = h.expires } };
}

impl Duplicate for HeldTicket {
    fn copy(&self, alloc: Global) -> Result<HeldTicket, AllocError> {
        Ok(HeldTicket {
            service: self.service,
            generation: self.generation,
            blob: self.blob.copy(alloc)?,
            session: self.session,
            expires: self.expires,
        })
    }
}

// A ticket as its entry and its TicketInfo tell it.
pub(crate) fn held_as(
    alloc: Global,
    part: &TicketPart,
    info: &TicketInfo,
) -> Result<HeldTicket, AllocError>
    requires { length part.now.ticket.blob < 2 ^ 32 }
    ensures { IfOk result (λ held. held ≡ held_as part.now info.now) }
{
    Ok(HeldTicket {
        service: part.service,
        generation: part.ticket.generation,
        blob: part.ticket.blob.copy(alloc)?,
        session: info.session,
        expires: info.expires,
    })
}

/// The tickets of a list, each with what its TicketInfo tells under this key: of a LoginDone those behind the one for AUTH, and
/// those of a Reply, under the session key of the AUTH ticket. What opened is appended to the log.
pub fn held_tickets(
    alloc: Global,
    key: &[u8; 16],
    parts: &[TicketPart],
    seals: &mut Items<SealEntry>,
) -> Result<Items<HeldTicket>, LoginRefusal>
    requires { All IsShort parts.now }
    ensures { AreHeld key.now parts.now seals.old seals.new result }
{
    match told_each(alloc, &SealKey::new(key), parts, seals)? {
        Some(held) => Ok(held),
        None => Err(LoginRefusal::Unopened),
    }
}

// The ticket of an entry, or none where its TicketInfo doesn't open.
pub(crate) fn told(
    alloc: Global,
    kind: KeyKind,
    key: &SealKey,
    part: &TicketPart,
    seals: &mut Items<SealEntry>,
) -> Result<Option<HeldTicket>, AllocError>
    requires { IsShort part.now }
    ensures { Unlocks (told kind key.now part.now) seals.old seals.new result }
{
    let Some(info) = unlocked_info(alloc, kind, key, part.info.bytes(), seals)? else {
        return Ok(None);
    };
    let held = held_as(alloc, part, &info)?;
    Ok(Some(held))
}

// The tickets of a list, or none where the TicketInfo of one of them doesn't open.
pub(crate) fn told_each(
    alloc: Global,
    key: &SealKey,
    parts: &[TicketPart],
    seals: &mut Items<SealEntry>,
) -> Result<Option<Items<HeldTicket>>, AllocError>
    requires { All IsShort parts.now }
    ensures { Unlocks (told_each key.now parts.now) seals.old seals.new result }
{
    let mut held = Items::new(alloc);
    for part in parts {
        let Some(ticket) = told(alloc, KeyKind::Session, key, part, seals)? else {
            return Ok(None);
        };
        held.push(alloc, ticket)?;
    }
    Ok(Some(held))
}
