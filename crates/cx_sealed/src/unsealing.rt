//! What sealed bytes open to, whether or not it is the record that is due.

ghost use Rattle.std.specs.Prelude.{◌≡◌, IfOk};
ghost use Rattle.cx_cbc.specs.cx_aes.specs.KeyOf.{key_of};
ghost use Rattle.cx_sealed.specs.Records.{service_ticket_layout, ticket_info_layout, authorize_layout, authorize_challenge_layout, authorize_reply_layout, rotating_reply_layout, connection_secret_layout};
ghost use Rattle.cx_sealed.specs.Unsealing.{spelled_by, unsealed};

use crate::authorize::Authorize;
use crate::authorize_challenge::AuthorizeChallenge;
use crate::authorize_reply::AuthorizeReply;
use crate::connection_secret::ConnectionSecret;
use crate::records::Record;
use crate::rotating_reply::RotatingReply;
use crate::seal_key::SealKey;
use crate::service_ticket::ServiceTicket;
use crate::ticket_info::TicketInfo;
use crate::unsealed::Unsealed;
use cx_cbc::{OpenRefusal, Schedule, open};
use cx_enc::{ReadRefusal, read_whole};
use std::alloc::{AllocError, Global};

// What these sealed bytes open to, or none where they open to no content.
pub(crate) fn unseal<T: Record>(
    alloc: Global,
    key: &[u8; 16],
    sealed: &[u8],
) -> Result<Option<Unsealed<T>>, AllocError>
    ensures { IfOk result (λ found. found ≡ unsealed T.layout.form key.now sealed.now) }
{
    unseal_by(alloc, &Schedule::new(key), sealed)
}

// The same under a key of this schedule.
fn unseal_by<T: Record>(
    alloc: Global,
    key: &Schedule,
    sealed: &[u8],
) -> Result<Option<Unsealed<T>>, AllocError>
    ensures { IfOk result (λ found. found ≡ unsealed T.layout.form (key_of key.now) sealed.now) }
{
    match open(alloc, key, sealed) {
        Ok(content) => {
            let value = spelled(alloc, content.bytes())?;
            Ok(Some(Unsealed { content, value }))
        }
        Err(OpenRefusal::Unopened) => Ok(None),
        Err(OpenRefusal::OutOfMemory) => Err(AllocError),
    }
}

// The record that a content spells, if it spells one.
fn spelled<T: Record>(alloc: Global, content: &[u8]) -> Result<Option<T>, AllocError>
    ensures { IfOk result (λ value. value ≡ spelled_by T.layout.form content.now) }
{
    match read_whole(alloc, content) {
        Ok(value) => Ok(Some(value)),
        Err(ReadRefusal::OutOfMemory) => Err(AllocError),
        Err(ReadRefusal::Fault(_)) => Ok(None),
        Err(ReadRefusal::LeftOver(_)) => Ok(None),
    }
}

/// What bytes open to that are to be a `ServiceTicket`.
pub fn unseal_service_ticket(
    alloc: Global,
    key: &[u8; 16],
    sealed: &[u8],
) -> Result<Option<Unsealed<ServiceTicket>>, AllocError>
    ensures { IfOk result (λ found. found ≡ unsealed service_ticket_layout.form key.now sealed.now) }
{
    unseal(alloc, key, sealed)
}

/// What bytes open to that are to be a `TicketInfo`, under a key that opens more than one.
pub fn unseal_ticket_info_by(
    alloc: Global,
    key: &SealKey,
    sealed: &[u8],
) -> Result<Option<Unsealed<TicketInfo>>, AllocError>
    ensures { IfOk result (λ found. found ≡ unsealed ticket_info_layout.form key.now sealed.now) }
{
    unseal_by(alloc, key.schedule(), sealed)
}

/// What bytes open to that are to be an `Authorize`.
pub fn unseal_authorize(
    alloc: Global,
    key: &[u8; 16],
    sealed: &[u8],
) -> Result<Option<Unsealed<Authorize>>, AllocError>
    ensures { IfOk result (λ found. found ≡ unsealed authorize_layout.form key.now sealed.now) }
{
    unseal(alloc, key, sealed)
}

/// What bytes open to that are to be an `AuthorizeChallenge`.
pub fn unseal_authorize_challenge(
    alloc: Global,
    key: &[u8; 16],
    sealed: &[u8],
) -> Result<Option<Unsealed<AuthorizeChallenge>>, AllocError>
    ensures { IfOk result (λ found. found ≡ unsealed authorize_challenge_layout.form key.now sealed.now) }
{
    unseal(alloc, key, sealed)
}

/// What bytes open to that are to be an `AuthorizeReply`.
pub fn unseal_authorize_reply(
    alloc: Global,
    key: &[u8; 16],
    sealed: &[u8],
) -> Result<Option<Unsealed<AuthorizeReply>>, AllocError>
    ensures { IfOk result (λ found. found ≡ unsealed authorize_reply_layout.form key.now sealed.now) }
{
    unseal(alloc, key, sealed)
}

/// What bytes open to that are to be a `RotatingReply`.
pub fn unseal_rotating_reply(
    alloc: Global,
    key: &[u8; 16],
    sealed: &[u8],
) -> Result<Option<Unsealed<RotatingReply>>, AllocError>
    ensures { IfOk result (λ found. found ≡ unsealed rotating_reply_layout.form key.now sealed.now) }
{
    unseal(alloc, key, sealed)
}

/// What bytes open to that are to be a `ConnectionSecret`, under a key that opens more than one.
pub fn unseal_connection_secret_by(
    alloc: Global,
    key: &SealKey,
    sealed: &[u8],
) -> Result<Option<Unsealed<ConnectionSecret>>, AllocError>
    ensures { IfOk result (λ found. found ≡ unsealed connection_secret_layout.form key.now sealed.now) }
{
    unseal_by(alloc, key.schedule(), sealed)
}
