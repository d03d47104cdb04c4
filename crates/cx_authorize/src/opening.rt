//! Opening the records of an authorizer: what opens is appended to the log, and its record is answered, where there is one.

ghost use Rattle.cx_journal.specs.declared.premises.KeyKind.TheVariants.{Service, Session};
ghost use Rattle.cx_sealed.specs.Records.{service_ticket_layout, authorize_layout, authorize_challenge_layout, authorize_reply_layout};
ghost use Rattle.cx_login.specs.Unlocking.{unlocked, Unlocks};

use cx_base::Items;
use cx_journal::KeyKind;
use cx_login::logged;
use cx_sealed::{
    Authorize, AuthorizeChallenge, AuthorizeReply, ServiceTicket, unseal_authorize,
    unseal_authorize_challenge, unseal_authorize_reply, unseal_service_ticket,
};
use cx_steps::SealEntry;
use std::alloc::{AllocError, Global};

// The `ServiceTicket` that these bytes open to under a generation of a service.
pub(crate) fn opened_ticket(
    alloc: Global,
    key: &[u8; 16],
    sealed: &[u8],
    log: &mut Items<SealEntry>,
) -> Result<Option<ServiceTicket>, AllocError>
    ensures { Unlocks (unlocked service_ticket_layout.form Service key.now sealed.now) log.old log.new result }
{
    let found = unseal_service_ticket(alloc, key, sealed)?;
    logged(alloc, KeyKind::Service, key, found, log)
}

// The `Authorize` that these bytes open to under a session key.
pub(crate) fn opened_authorize(
    alloc: Global,
    key: &[u8; 16],
    sealed: &[u8],
    log: &mut Items<SealEntry>,
) -> Result<Option<Authorize>, AllocError>
    ensures { Unlocks (unlocked authorize_layout.form Session key.now sealed.now) log.old log.new result }
{
    let found = unseal_authorize(alloc, key, sealed)?;
    logged(alloc, KeyKind::Session, key, found, log)
}

// The `AuthorizeChallenge` that these bytes open to under a session key.
pub(crate) fn opened_challenge(
    alloc: Global,
    key: &[u8; 16],
    sealed: &[u8],
    log: &mut Items<SealEntry>,
) -> Result<Option<AuthorizeChallenge>, AllocError>
    ensures { Unlocks (unlocked authorize_challenge_layout.form Session key.now sealed.now) log.old log.new result }
{
    let found = unseal_authorize_challenge(alloc, key, sealed)?;
    logged(alloc, KeyKind::Session, key, found, log)
}

// The `AuthorizeReply` that these bytes open to under a session key.
pub(crate) fn opened_reply(
    alloc: Global,
    key: &[u8; 16],
    sealed: &[u8],
    log: &mut Items<SealEntry>,
) -> Result<Option<AuthorizeReply>, AllocError>
    ensures { Unlocks (unlocked authorize_reply_layout.form Session key.now sealed.now) log.old log.new result }
{
    let found = unseal_authorize_reply(alloc, key, sealed)?;
    logged(alloc, KeyKind::Session, key, found, log)
}
