//! The payloads of a login at the monitor.

ghost use Rattle.std.specs.Prelude.{length, ◌≤◌, ◌<◌, ◌^◌, IsTrue, None};
ghost use Rattle.cx_control.specs.Calls.{IsReadBy, IsPutBy};
ghost use Rattle.cx_wire.specs.Logins.{login_hello_layout, server_challenge_layout, authenticate_layout, is_version, login_done_layout};
ghost use Rattle.cx_wire.specs.Services.{AreTickets};

use crate::tickets::TicketPart;
use cx_base::{Blob, EntityName, EntityType, Items};
use cx_control::{WireRefusal, put_payload, read_payload};
use cx_enc::{
    Cut, Encoded, ReadFault, ReadRefusal, TicketBlob, put_blob, put_chain, put_name, put_ticket,
    put_u8, put_u16, put_u32, put_u64, take_chain,
};
use std::alloc::{AllocError, Global};

/// LoginHello, in AUTH_REQUEST to the monitor: who logs in, and the global id that is held beside an AUTH ticket, 0 for none.
#[derive(PartialEq, Eq, Drop)]
pub struct LoginHello {
    pub name: EntityName,
    pub gid: u64,
}

impl Encoded for LoginHello {
    ghost layout = { login_hello_layout };

    fn read(alloc: Global, cut: &mut Cut<'_>) -> Result<LoginHello, ReadRefusal> {
        cut.take_fixed_u8(10)?;
        Ok(LoginHello {
            name: EntityName::read(alloc, cut)?,
            gid: cut.take_u64()?,
        })
    }

    fn write(&self, alloc: Global, into: &mut Blob) -> Result<(), AllocError> {
        put_u8(alloc, into, 10)?;
        put_name(alloc, into, &self.name)?;
        put_u64(alloc, into, self.gid)
    }
}

/// Reads a LoginHello.
pub fn read_login_hello(alloc: Global, bytes: &[u8]) -> Result<LoginHello, WireRefusal>
    ensures { IsReadBy login_hello_layout.form bytes.now result }
{
    read_payload(alloc, bytes)
}

/// Writes a LoginHello behind some bytes.
pub fn put_login_hello(alloc: Global, into: &mut Blob, value: &LoginHello) -> Result<(), AllocError>
    ensures { IsPutBy login_hello_layout.form value.now into.old into.new result }
{
    put_payload(alloc, into, value)
}

/// ServerChallenge, in AUTH_REPLY_MORE from the monitor.
#[derive(Clone, Copy, PartialEq, Eq)]
pub struct ServerChallenge {
    pub challenge: u64,
}

impl Encoded for ServerChallenge {
    ghost layout = { server_challenge_layout };

    fn read(_alloc: Global, cut: &mut Cut<'_>) -> Result<ServerChallenge, ReadRefusal> {
        cut.take_fixed_u8(1)?;
        Ok(ServerChallenge {
            challenge: cut.take_u64()?,
        })
    }

    fn write(&self, alloc: Global, into: &mut Blob) -> Result<(), AllocError> {
        put_u8(alloc, into, 1)?;
        put_u64(alloc, into, self.challenge)
    }
}

/// Reads a ServerChallenge.
pub fn read_server_challenge(alloc: Global, bytes: &[u8]) -> Result<ServerChallenge, WireRefusal>
    ensures { IsReadBy server_challenge_layout.form bytes.now result }
{
    read_payload(alloc, bytes)
}

/// Writes a ServerChallenge behind some bytes.
pub fn put_server_challenge(
    alloc: Global,
    into: &mut Blob,
    value: &ServerChallenge,
) -> Result<(), AllocError>
    ensures { IsPutBy server_challenge_layout.form value.now into.old into.new result }
{
    put_payload(alloc, into, value)
}

/// Authenticate, in AUTH_REQUEST_MORE to the monitor. Version 2 lets the monitor give a new global id, version 3 asks it to keep
/// the one of the LoginHello. `key` is the proof. No old ticket is the generation 0 with no bytes. `other_keys` is the sum of the
/// numbers of the services (2 mds, 4 osd, 16 mgr) for which tickets are asked; other bits mean nothing.
#[derive(PartialEq, Eq, Drop)]
pub struct Authenticate {
    pub version: u8,
    pub client_challenge: u64,
    pub key: u64,
    pub old_ticket: TicketBlob,
    pub other_keys: u32,
}

impl Encoded for Authenticate {
    ghost layout = { authenticate_layout };

    ghost Bound = { λ a. IsTrue (is_version a.version) × (length a.old_ticket.blob < 2 ^ 32) };

    fn read(alloc: Global, cut: &mut Cut<'_>) -> Result<Authenticate, ReadRefusal> {
        cut.take_fixed_u16(0x0100)?;
        let place = cut.place();
        let version = cut.take_u8()?;
        if version != 2 && version != 3 {
            return Err(ReadRefusal::Fault(ReadFault::BadField(place)));
        }
        Ok(Authenticate {
            version,
            client_challenge: cut.take_u64()?,
            key: cut.take_u64()?,
            old_ticket: TicketBlob::read(alloc, cut)?,
            other_keys: cut.take_u32()?,
        })
    }

    fn write(&self, alloc: Global, into: &mut Blob) -> Result<(), AllocError> {
        put_u16(alloc, into, 0x0100)?;
        put_u8(alloc, into, self.version)?;
        put_u64(alloc, into, self.client_challenge)?;
        put_u64(alloc, into, self.key)?;
        put_ticket(alloc, into, &self.old_ticket)?;
        put_u32(alloc, into, self.other_keys)
    }
}

/// Reads an Authenticate.
pub fn read_authenticate(alloc: Global, bytes: &[u8]) -> Result<Authenticate, WireRefusal>
    ensures { IsReadBy authenticate_layout.form bytes.now result }
{
    read_payload(alloc, bytes)
}

/// Writes an Authenticate behind some bytes.
pub fn put_authenticate(
    alloc: Global,
    into: &mut Blob,
    value: &Authenticate,
) -> Result<(), AllocError>
    requires version { IsTrue (is_version value.now.version) }
    requires old_ticket { length value.now.old_ticket.blob < 2 ^ 32 }
    ensures { IsPutBy authenticate_layout.form value.now into.old into.new result }
{
    put_payload(alloc, into, value)
}

/// LoginDone, in AUTH_DONE from the monitor: the tickets that it issues, the one for AUTH first and then for MDS, OSD and MGR as far
/// as they are issued, and the sealed ConnectionSecret.
#[derive(PartialEq, Eq, Drop)]
pub struct LoginDone {
    pub tickets: Items<TicketPart>,
    pub connection_secret: Blob,
}

impl Encoded for LoginDone {
    ghost layout = { login_done_layout };

    ghost Bound = { λ d. (1 ≤ length d.tickets) × AreTickets None d.tickets × (length d.connection_secret < 2 ^ 32) };

    fn read(alloc: Global, cut: &mut Cut<'_>) -> Result<LoginDone, ReadRefusal> {
        cut.take_fixed_u16(0x0100)?;
        cut.take_fixed_u32(0)?;
        cut.take_fixed_u8(1)?;
        let count = cut.take_count(1, u32::MAX)?;
        Ok(LoginDone {
            tickets: take_chain(alloc, cut, None, count)?,
            connection_secret: Blob::read(alloc, cut)?,
        })
    }

    #[tactic(auto, using(crate::proofs::FewTickets::few))]
    fn write(&self, alloc: Global, into: &mut Blob) -> Result<(), AllocError> {
        put_u16(alloc, into, 0x0100)?;
        put_u32(alloc, into, 0)?;
        put_u8(alloc, into, 1)?;
        put_u32(alloc, into, self.tickets.all().len() as u32)?;
        put_chain(alloc, into, None, &self.tickets)?;
        put_blob(alloc, into, self.connection_secret.bytes())
    }
}

/// Reads a LoginDone.
pub fn read_login_done(alloc: Global, bytes: &[u8]) -> Result<LoginDone, WireRefusal>
    ensures { IsReadBy login_done_layout.form bytes.now result }
{
    read_payload(alloc, bytes)
}

/// Writes a LoginDone behind some bytes.
pub fn put_login_done(alloc: Global, into: &mut Blob, value: &LoginDone) -> Result<(), AllocError>
    requires some { 1 ≤ length value.now.tickets }
    requires tickets { AreTickets None value.now.tickets }
    requires connection_secret { length value.now.connection_secret < 2 ^ 32 }
    ensures { IsPutBy login_done_layout.form value.now into.old into.new result }
{
    put_payload(alloc, into, value)
}
