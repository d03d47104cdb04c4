//! What comes of opening a sealed record: the record, or none where the bytes open to no spelling of it; and what opened, as an entry
//! of the log.

ghost use Rattle.cx_sealed.specs.Records.{ticket_info_layout, connection_secret_layout};
ghost use Rattle.cx_steps.specs.cx_journal.specs.declared.premises.KeyKind.TheVariants.{Session};
ghost use Rattle.cx_login.specs.Unlocking.{unlocked_as, unlocked, old_under, Unlocks};

use cx_base::Items;
use cx_sealed::{
    ConnectionSecret, SealKey, ServiceTicket, TicketInfo, Unsealed, unseal_connection_secret_by,
    unseal_service_ticket, unseal_ticket_info_by,
};
use cx_steps::{KeyKind, SealEntry, SealMark};
use std::alloc::{AllocError, Global};

/// What was found in bytes that are sealed by this key: what opened is appended to the log, and its record is answered, where there
/// is one.
pub fn logged<T: Drop>(
    alloc: Global,
    kind: KeyKind,
    key: &[u8; 16],
    found: Option<Unsealed<T>>,
    seals: &mut Items<SealEntry>,
) -> Result<Option<T>, AllocError>
    ensures { Unlocks (unlocked_as kind key.now found) seals.old seals.new result }
{
    let Some(found) = found else {
        return Ok(None);
    };
    let content = found.content;
    let value = found.value;
    let mark = SealMark {
        key: *key,
        kind,
        content,
    };
    seals.push(alloc, SealEntry::Opened(mark))?;
    Ok(value)
}

// The `ServiceTicket` that these bytes open to under a generation of AUTH, where that is there.
pub(crate) fn unlocked_ticket(
    alloc: Global,
    key: Option<[u8; 16]>,
    sealed: &[u8],
    seals: &mut Items<SealEntry>,
) -> Result<Option<ServiceTicket>, AllocError>
    ensures { Unlocks (old_under key sealed.now) seals.old seals.new result }
{
    let Some(key) = key else {
        return Ok(None);
    };
    let found = unseal_service_ticket(alloc, &key, sealed)?;
    logged(alloc, KeyKind::Auth, &key, found, seals)
}

// The `TicketInfo` that these bytes open to.
pub(crate) fn unlocked_info(
    alloc: Global,
    kind: KeyKind,
    key: &SealKey,
    sealed: &[u8],
    seals: &mut Items<SealEntry>,
) -> Result<Option<TicketInfo>, AllocError>
    ensures { Unlocks (unlocked ticket_info_layout.form kind key.now sealed.now) seals.old seals.new result }
{
    let found = unseal_ticket_info_by(alloc, key, sealed)?;
    logged(alloc, kind, key.bytes(), found, seals)
}

// The `ConnectionSecret` that these bytes open to under a session key.
pub(crate) fn unlocked_secret(
    alloc: Global,
    key: &SealKey,
    sealed: &[u8],
    seals: &mut Items<SealEntry>,
) -> Result<Option<ConnectionSecret>, AllocError>
    ensures { Unlocks (unlocked connection_secret_layout.form Session key.now sealed.now) seals.old seals.new result }
{
    let found = unseal_connection_secret_by(alloc, key, sealed)?;
    logged(alloc, KeyKind::Session, key.bytes(), found, seals)
}
