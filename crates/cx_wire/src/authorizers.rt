//! The payloads of an authorizer, which a client shows to a daemon.

ghost use Rattle.std.specs.Prelude.{length, ◌<◌, ◌^◌};
ghost use Rattle.cx_control.specs.Calls.{IsReadBy, IsPutBy};
ghost use Rattle.cx_wire.specs.Logins.{authorizer_layout, authorize_challenge_layout, authorize_reply_layout};

use cx_base::{Blob, EntityType};
use cx_control::{WireRefusal, put_payload, read_payload};
use cx_enc::{
    Cut, Encoded, ReadRefusal, TicketBlob, put_blob, put_kind, put_ticket, put_u8, put_u64,
};
use std::alloc::{AllocError, Global};

/// Authorizer, in AUTH_REQUEST and AUTH_REQUEST_MORE to a daemon: the ticket for its service, and the sealed Authorize.
#[derive(PartialEq, Eq, Drop)]
pub struct Authorizer {
    pub gid: u64,
    pub service: EntityType,
    pub ticket: TicketBlob,
    pub authorize: Blob,
}

impl Encoded for Authorizer {
    ghost layout = { authorizer_layout };

    ghost Bound = { λ a. (length a.ticket.blob < 2 ^ 32) × (length a.authorize < 2 ^ 32) };

    fn read(alloc: Global, cut: &mut Cut<'_>) -> Result<Authorizer, ReadRefusal> {
        cut.take_fixed_u8(1)?;
        Ok(Authorizer {
            gid: cut.take_u64()?,
            service: cut.take_kind()?,
            ticket: TicketBlob::read(alloc, cut)?,
            authorize: Blob::read(alloc, cut)?,
        })
    }

    fn write(&self, alloc: Global, into: &mut Blob) -> Result<(), AllocError> {
        put_u8(alloc, into, 1)?;
        put_u64(alloc, into, self.gid)?;
        put_kind(alloc, into, self.service)?;
        put_ticket(alloc, into, &self.ticket)?;
        put_blob(alloc, into, self.authorize.bytes())
    }
}

/// Reads an Authorizer.
pub fn read_authorizer(alloc: Global, bytes: &[u8]) -> Result<Authorizer, WireRefusal>
    ensures { IsReadBy authorizer_layout.form bytes.now result }
{
    read_payload(alloc, bytes)
}

/// Writes an Authorizer behind some bytes.
pub fn put_authorizer(alloc: Global, into: &mut Blob, value: &Authorizer) -> Result<(), AllocError>
    requires ticket { length value.now.ticket.blob < 2 ^ 32 }
    requires authorize { length value.now.authorize < 2 ^ 32 }
    ensures { IsPutBy authorizer_layout.form value.now into.old into.new result }
{
    put_payload(alloc, into, value)
}

/// AuthorizeChallenge, in AUTH_REPLY_MORE from a daemon: the sealed record of that name.
#[derive(PartialEq, Eq, Drop)]
pub struct AuthorizeChallenge {
    pub sealed: Blob,
}

impl Encoded for AuthorizeChallenge {
    ghost layout = { authorize_challenge_layout };

    ghost Bound = { λ c. length c.sealed < 2 ^ 32 };

    fn read(alloc: Global, cut: &mut Cut<'_>) -> Result<AuthorizeChallenge, ReadRefusal> {
        Ok(AuthorizeChallenge {
            sealed: Blob::read(alloc, cut)?,
        })
    }

    fn write(&self, alloc: Global, into: &mut Blob) -> Result<(), AllocError> {
        put_blob(alloc, into, self.sealed.bytes())
    }
}

/// Reads an AuthorizeChallenge.
pub fn read_authorize_challenge(
    alloc: Global,
    bytes: &[u8],
) -> Result<AuthorizeChallenge, WireRefusal>
    ensures { IsReadBy authorize_challenge_layout.form bytes.now result }
{
    read_payload(alloc, bytes)
}

/// Writes an AuthorizeChallenge behind some bytes.
pub fn put_authorize_challenge(
    alloc: Global,
    into: &mut Blob,
    value: &AuthorizeChallenge,
) -> Result<(), AllocError>
    requires { length value.now.sealed < 2 ^ 32 }
    ensures { IsPutBy authorize_challenge_layout.form value.now into.old into.new result }
{
    put_payload(alloc, into, value)
}

/// AuthorizeReply, in AUTH_DONE from a daemon: the sealed record of that name.
#[derive(PartialEq, Eq, Drop)]
pub struct AuthorizeReply {
    pub sealed: Blob,
}

impl Encoded for AuthorizeReply {
    ghost layout = { authorize_reply_layout };

    ghost Bound = { λ r. length r.sealed < 2 ^ 32 };

    fn read(alloc: Global, cut: &mut Cut<'_>) -> Result<AuthorizeReply, ReadRefusal> {
        Ok(AuthorizeReply {
            sealed: Blob::read(alloc, cut)?,
        })
    }

    fn write(&self, alloc: Global, into: &mut Blob) -> Result<(), AllocError> {
        put_blob(alloc, into, self.sealed.bytes())
    }
}

/// Reads an AuthorizeReply.
pub fn read_authorize_reply(alloc: Global, bytes: &[u8]) -> Result<AuthorizeReply, WireRefusal>
    ensures { IsReadBy authorize_reply_layout.form bytes.now result }
{
    read_payload(alloc, bytes)
}

/// Writes an AuthorizeReply behind some bytes.
pub fn put_authorize_reply(
    alloc: Global,
    into: &mut Blob,
    value: &AuthorizeReply,
) -> Result<(), AllocError>
    requires { length value.now.sealed < 2 ^ 32 }
    ensures { IsPutBy authorize_reply_layout.form value.now into.old into.new result }
{
    put_payload(alloc, into, value)
}
