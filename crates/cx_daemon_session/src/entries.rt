//! What is entered and kept of a session that a client got.

ghost use Rattle.std.specs.Prelude.{◌≡◌, ◌==◌, ◌%◌, IfOk};
ghost use Rattle.cx_daemon_session.specs.cx_rules_session.specs.Hosting.{admission_of, served_as};
ghost use Rattle.cx_daemon_session.specs.cx_rules_session.specs.Lossy.{is_lossy, lossy_flags};
ghost use Rattle.cx_daemon_session.specs.cx_verifying.specs.Rows.{arrived};
ghost use Rattle.cx_daemon_session.specs.cx_verifying.specs.Stages.{IncomingLink};

use crate::{Served, SessionOwner};
use cx_base::{Duplicate, Owner};
use cx_holdings::MonClient;
use cx_journal::Admitted;
use cx_node::Moment;
use std::alloc::{AllocError, Global};

// What a session's ticket gives from now on: all but the numbers is what was authorized, whatever the peer claims.
pub(crate) fn admission_of(
    alloc: Global,
    mon_client: &MonClient,
    at: &Moment<'_>,
    owner: &SessionOwner,
    number: u64,
    epoch: u64,
    cookie: u64,
) -> Result<Admitted, AllocError>
    ensures { (link : IncomingLink) → IfOk result (λ told. told ≡ admission_of (arrived mon_client.now at.now link) owner.now number epoch cookie) }
{
    let daemon = mon_client.name().copy(alloc)?;
    let entity = owner.entity().copy(alloc)?;
    let caps = owner.caps().copy(alloc)?;
    Ok(Admitted {
        daemon,
        session: number,
        epoch,
        cookie,
        entity,
        gid: owner.gid(),
        at: owner.at(),
        caps,
    })
}

// What is kept of it on its link.
pub(crate) fn served_as(
    alloc: Global,
    owner: &SessionOwner,
    number: u64,
    epoch: u64,
    cookie: u64,
    lossy: bool,
) -> Result<Served, AllocError>
    ensures { IfOk result (λ served. served ≡ served_as owner.now number epoch cookie lossy) }
{
    let caps = owner.caps().copy(alloc)?;
    Ok(Served {
        number,
        epoch,
        cookie,
        lossy,
        caps,
    })
}

// Whether a session ends with its link, by the flags of CLIENT_IDENT.
pub(crate) fn is_lossy(flags: u64) -> bool
    ensures { result ≡ is_lossy flags }
{
    flags % 2 == 1
}

// The flags of SERVER_IDENT.
pub(crate) fn lossy_flags(lossy: bool) -> u64
    ensures { result ≡ lossy_flags lossy }
{
    match lossy {
        true => 1,
        false => 0,
    }
}
