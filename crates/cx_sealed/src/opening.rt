//! Opening and sealing.

ghost use Rattle.std.specs.Prelude.{◌≡◌, IfOk};
ghost use Rattle.cx_cbc.specs.cx_aes.specs.KeyOf.{key_of};
ghost use Rattle.cx_sealed.specs.Records.{service_ticket_layout, ticket_info_layout, authorize_layout, authorize_challenge_layout, authorize_reply_layout, rotating_reply_layout, connection_secret_layout};
ghost use Rattle.cx_sealed.specs.Sealing.{IsOpened, IsSealed};

use crate::authorize::Authorize;
use crate::authorize_challenge::AuthorizeChallenge;
use crate::authorize_reply::AuthorizeReply;
use crate::connection_secret::ConnectionSecret;
use crate::records::Record;
use crate::refusals::SealedRefusal;
use crate::rotating_reply::RotatingReply;
use crate::seal_key::SealKey;
use crate::sealed_record::SealedRecord;
use crate::service_ticket::ServiceTicket;
use crate::ticket_info::TicketInfo;
use crate::unsealing::unseal;
use cx_base::Blob;
use cx_cbc::{Schedule, SealRefusal, seal};
use cx_enc::{Encoded, write_whole};
use std::alloc::{AllocError, Global};

// Opens a record.
pub(crate) fn open_record<T: Record>(
    alloc: Global,
    key: &[u8; 16],
    sealed: &[u8],
) -> Result<T, SealedRefusal>
    ensures { IsOpened T.layout.form key.now sealed.now result }
{
    let Some(found) = unseal(alloc, key, sealed)? else {
        return Err(SealedRefusal::Unopened);
    };
    let value = found.value;
    match value {
        Some(value) => Ok(value),
        None => Err(SealedRefusal::Misread),
    }
}

// Seals a record.
fn seal_record<T: Record>(alloc: Global, key: &[u8; 16], value: &T) -> Result<Blob, AllocError>
    requires { T.Bound value.now }
    ensures { IfOk result (IsSealed T.layout.form key.now value.now) }
{
    let made = sealed_record(alloc, &Schedule::new(key), value)?;
    Ok(made.envelope)
}

// Seals a record under a key of this schedule, and keeps its content.
fn sealed_record<T: Record>(
    alloc: Global,
    key: &Schedule,
    value: &T,
) -> Result<SealedRecord, AllocError>
    requires { T.Bound value.now }
    ensures sealed { IfOk result (λ made. IsSealed T.layout.form (key_of key.now) value.now made.envelope) }
    ensures content { IfOk result (λ made. made.content ≡ T.layout.form.text value.now) }
{
    let content = write_whole(alloc, value)?;
    match seal(alloc, key, content.bytes()) {
        Ok(envelope) => Ok(SealedRecord { content, envelope }),
        Err(SealRefusal::OutOfMemory) => Err(AllocError),
        Err(SealRefusal::TooLong) => unreachable!(),
    }
}

/// Opens a `ServiceTicket`.
pub fn open_service_ticket(
    alloc: Global,
    key: &[u8; 16],
    sealed: &[u8],
) -> Result<ServiceTicket, SealedRefusal>
    ensures { IsOpened service_ticket_layout.form key.now sealed.now result }
{
    open_record(alloc, key, sealed)
}

/// Seals a `ServiceTicket`.
pub fn seal_service_ticket(
    alloc: Global,
    key: &[u8; 16],
    value: &ServiceTicket,
) -> Result<Blob, AllocError>
    requires { ⟦<ServiceTicket as Encoded>⟧.Bound value.now }
    ensures { IfOk result (IsSealed service_ticket_layout.form key.now value.now) }
{
    seal_record(alloc, key, value)
}

/// Seals a `ServiceTicket`, and keeps its content.
pub fn sealed_service_ticket(
    alloc: Global,
    key: &SealKey,
    value: &ServiceTicket,
) -> Result<SealedRecord, AllocError>
    requires { ⟦<ServiceTicket as Encoded>⟧.Bound value.now }
    ensures sealed { IfOk result (λ made. IsSealed service_ticket_layout.form key.now value.now made.envelope) }
    ensures content { IfOk result (λ made. made.content ≡ service_ticket_layout.form.text value.now) }
{
    sealed_record(alloc, key.schedule(), value)
}

/// Opens a `TicketInfo`.
pub fn open_ticket_info(
    alloc: Global,
    key: &[u8; 16],
    sealed: &[u8],
) -> Result<TicketInfo, SealedRefusal>
    ensures { IsOpened ticket_info_layout.form key.now sealed.now result }
{
    open_record(alloc, key, sealed)
}

/// Seals a `TicketInfo`.
pub fn seal_ticket_info(
    alloc: Global,
    key: &[u8; 16],
    value: &TicketInfo,
) -> Result<Blob, AllocError>
    requires { ⟦<TicketInfo as Encoded>⟧.Bound value.now }
    ensures { IfOk result (IsSealed ticket_info_layout.form key.now value.now) }
{
    seal_record(alloc, key, value)
}

/// Seals a `TicketInfo`, and keeps its content.
pub fn sealed_ticket_info(
    alloc: Global,
    key: &SealKey,
    value: &TicketInfo,
) -> Result<SealedRecord, AllocError>
    requires { ⟦<TicketInfo as Encoded>⟧.Bound value.now }
    ensures sealed { IfOk result (λ made. IsSealed ticket_info_layout.form key.now value.now made.envelope) }
    ensures content { IfOk result (λ made. made.content ≡ ticket_info_layout.form.text value.now) }
{
    sealed_record(alloc, key.schedule(), value)
}

/// Opens an `Authorize`.
pub fn open_authorize(
    alloc: Global,
    key: &[u8; 16],
    sealed: &[u8],
) -> Result<Authorize, SealedRefusal>
    ensures { IsOpened authorize_layout.form key.now sealed.now result }
{
    open_record(alloc, key, sealed)
}

/// Seals an `Authorize`.
pub fn seal_authorize(alloc: Global, key: &[u8; 16], value: &Authorize) -> Result<Blob, AllocError>
    requires { ⟦<Authorize as Encoded>⟧.Bound value.now }
    ensures { IfOk result (IsSealed authorize_layout.form key.now value.now) }
{
    seal_record(alloc, key, value)
}

/// Opens an `AuthorizeChallenge`.
pub fn open_authorize_challenge(
    alloc: Global,
    key: &[u8; 16],
    sealed: &[u8],
) -> Result<AuthorizeChallenge, SealedRefusal>
    ensures { IsOpened authorize_challenge_layout.form key.now sealed.now result }
{
    open_record(alloc, key, sealed)
}

/// Seals an `AuthorizeChallenge`.
pub fn seal_authorize_challenge(
    alloc: Global,
    key: &[u8; 16],
    value: &AuthorizeChallenge,
) -> Result<Blob, AllocError>
    requires { ⟦<AuthorizeChallenge as Encoded>⟧.Bound value.now }
    ensures { IfOk result (IsSealed authorize_challenge_layout.form key.now value.now) }
{
    seal_record(alloc, key, value)
}

/// Opens an `AuthorizeReply`.
pub fn open_authorize_reply(
    alloc: Global,
    key: &[u8; 16],
    sealed: &[u8],
) -> Result<AuthorizeReply, SealedRefusal>
    ensures { IsOpened authorize_reply_layout.form key.now sealed.now result }
{
    open_record(alloc, key, sealed)
}

/// Seals an `AuthorizeReply`.
pub fn seal_authorize_reply(
    alloc: Global,
    key: &[u8; 16],
    value: &AuthorizeReply,
) -> Result<Blob, AllocError>
    requires { ⟦<AuthorizeReply as Encoded>⟧.Bound value.now }
    ensures { IfOk result (IsSealed authorize_reply_layout.form key.now value.now) }
{
    seal_record(alloc, key, value)
}

/// Opens a `RotatingReply`.
pub fn open_rotating_reply(
    alloc: Global,
    key: &[u8; 16],
    sealed: &[u8],
) -> Result<RotatingReply, SealedRefusal>
    ensures { IsOpened rotating_reply_layout.form key.now sealed.now result }
{
    open_record(alloc, key, sealed)
}

/// Seals a `RotatingReply`.
pub fn seal_rotating_reply(
    alloc: Global,
    key: &[u8; 16],
    value: &RotatingReply,
) -> Result<Blob, AllocError>
    requires { ⟦<RotatingReply as Encoded>⟧.Bound value.now }
    ensures { IfOk result (IsSealed rotating_reply_layout.form key.now value.now) }
{
    seal_record(alloc, key, value)
}

/// Opens a `ConnectionSecret`.
pub fn open_connection_secret(
    alloc: Global,
    key: &[u8; 16],
    sealed: &[u8],
) -> Result<ConnectionSecret, SealedRefusal>
    ensures { IsOpened connection_secret_layout.form key.now sealed.now result }
{
    open_record(alloc, key, sealed)
}

/// Seals a `ConnectionSecret`.
pub fn seal_connection_secret(
    alloc: Global,
    key: &[u8; 16],
    value: &ConnectionSecret,
) -> Result<Blob, AllocError>
    requires { ⟦<ConnectionSecret as Encoded>⟧.Bound value.now }
    ensures { IfOk result (IsSealed connection_secret_layout.form key.now value.now) }
{
    seal_record(alloc, key, value)
}

/// Seals a `ConnectionSecret`, and keeps its content.
pub fn sealed_connection_secret(
    alloc: Global,
    key: &SealKey,
    value: &ConnectionSecret,
) -> Result<SealedRecord, AllocError>
    requires { ⟦<ConnectionSecret as Encoded>⟧.Bound value.now }
    ensures sealed { IfOk result (λ made. IsSealed connection_secret_layout.form key.now value.now made.envelope) }
    ensures content { IfOk result (λ made. made.content ≡ connection_secret_layout.form.text value.now) }
{
    sealed_record(alloc, key.schedule(), value)
}
