//! The payload of AUTH_DONE, and the body of a reply.

ghost use Rattle.std.specs.Prelude.{◌≡◌, ◌≤◌, ◌<◌, ◌^◌, None, All, length, IfOk};
ghost use Rattle.cx_wire.specs.Services.{AreTickets};
ghost use Rattle.cx_mon_grants.specs.Handing.{IsShort};
ghost use Rattle.cx_mon_grants.specs.Telling.{IsTellable};
ghost use Rattle.cx_wire.specs.Bodies.{reply_layout};
ghost use Rattle.cx_rules.specs.Verdicts.{done_payload};

use cx_base::Blob;
use cx_control::{AuthDone, put_auth_done};
use cx_wire::{LoginDone, Reply, put_login_done, put_reply};
use std::alloc::{AllocError, Global};

/// Room for four tickets with short caps, and the secret of a connection, so that they are seldom moved as they are written.
const FOUR_TICKETS: usize = 1_008;

/// The global id, the secure mode, and a LoginDone.
pub(crate) fn done_payload(alloc: Global, gid: u64, done: &LoginDone) -> Result<Blob, AllocError>
    requires some { 1 ≤ length done.now.tickets }
    requires tickets { AreTickets None done.now.tickets }
    requires short { All IsShort done.now.tickets }
    requires secret { length done.now.connection_secret ≤ 1048601 }
    ensures { IfOk result (λ payload. payload ≡ done_payload gid done.now) }
{
    let mut payload = Blob::with_room(alloc, FOUR_TICKETS)?;
    put_login_done(alloc, &mut payload, done)?;
    let room = payload.bytes().len().saturating_add(16);
    let mut bytes = Blob::with_room(alloc, room)?;
    put_auth_done(
        alloc,
        &mut bytes,
        &AuthDone {
            gid,
            mode: 2,
            payload,
        },
    )?;
    Ok(bytes)
}

/// The body of message 18.
pub(crate) fn reply_body(alloc: Global, reply: &Reply) -> Result<Blob, AllocError>
    requires { IsTellable reply.now }
    ensures body { IfOk result (λ body. body ≡ reply_layout.form.text reply.now) }
    ensures short { IfOk result (λ body. length body < 2 ^ 32) }
{
    let mut body = Blob::with_room(alloc, FOUR_TICKETS)?;
    put_reply(alloc, &mut body, reply)?;
    Ok(body)
}
