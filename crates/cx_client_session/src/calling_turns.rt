//! A turn of a link whose daemon is to sign, or has signed, until it is open.

ghost use Rattle.std.specs.Prelude.{◌≡◌, Option, IfOk};
ghost use Rattle.std.specs.Option.{option_copied};
ghost use Rattle.cx_client_connect.specs.cx_rules_session.specs.Sessions.{HeldSession};
ghost use Rattle.cx_client_connect.specs.presenting.Rows.{IsCallTurn, caller};
ghost use Rattle.cx_client_connect.specs.presenting.Stages.{awaiting_ident, awaiting_reconnect, awaiting_signature};

use crate::idents::while_identified;
use crate::reconnects::while_reconnecting;
use crate::signatures::on_signature;
use cx_base::Items;
use cx_client_connect::{Callee, Change, HeldSession, Link, Stage, handles};
use cx_control::AuthSignature;
use cx_holdings::MonClient;
use cx_link::{LinkTurn, SecureLink, Signing, tag};
use cx_node::{Came, Moment, due};
use std::alloc::{AllocError, Global};

/// What stands next on a link on which the daemon's signature is awaited, by the session that the client has with it. `global_seq` is the client's
/// count of connections to daemons.
pub fn signature_turn(
    alloc: Global,
    mon_client: &MonClient,
    global_seq: u64,
    session: Option<&HeldSession>,
    at: &Moment<'_>,
    signing: Signing,
    callee: Callee,
) -> Result<Came<Link, Change>, AllocError>
    requires { global_seq ≡ mon_client.now.global_seq }
    ensures { IfOk result (IsCallTurn (caller mon_client.now (option_copied session.entry)) at.now (awaiting_signature at.now.number signing callee)) }
{
    let mut opened = Items::new(alloc);
    match signing.turn(alloc, &mut opened)? {
        LinkTurn::Waits(signing) => {
            let link = Link::new(alloc, at.number, Stage::AwaitsSignature(signing, callee))?;
            Ok(Came::Waits(link))
        }
        LinkTurn::Refuses(why) => Ok(Came::Refuses(why, opened)),
        LinkTurn::Takes(signing, frame) => {
            let found = due::<AuthSignature>(alloc, tag::AUTH_SIGNATURE, &frame)?;
            let made = on_signature(
                alloc, mon_client, global_seq, session, at, signing, callee, found,
            );
            handles(alloc, mon_client, at, opened, made)
        }
    }
}

/// The same where SERVER_IDENT is awaited, whatever session the client has.
pub fn ident_turn(
    alloc: Global,
    mon_client: &MonClient,
    at: &Moment<'_>,
    link: SecureLink,
    callee: Callee,
    cookie: u64,
) -> Result<Came<Link, Change>, AllocError>
    ensures { (session : Option HeldSession) → IfOk result (IsCallTurn (caller mon_client.now session) at.now (awaiting_ident at.now.number link callee cookie)) }
{
    let mut opened = Items::new(alloc);
    match link.turn(alloc, &mut opened)? {
        LinkTurn::Waits(link) => {
            let link = Link::new(alloc, at.number, Stage::AwaitsIdent(link, callee, cookie))?;
            Ok(Came::Waits(link))
        }
        LinkTurn::Refuses(why) => Ok(Came::Refuses(why, opened)),
        LinkTurn::Takes(link, frame) => {
            let made = while_identified(alloc, mon_client, at, link, callee, cookie, &frame);
            handles(alloc, mon_client, at, opened, made)
        }
    }
}

/// The same where the daemon is to say of the session whether it goes on.
pub fn reconnect_turn(
    alloc: Global,
    mon_client: &MonClient,
    global_seq: u64,
    session: Option<&HeldSession>,
    at: &Moment<'_>,
    link: SecureLink,
    callee: Callee,
    cookie: u64,
) -> Result<Came<Link, Change>, AllocError>
    requires { global_seq ≡ mon_client.now.global_seq }
    ensures { IfOk result (IsCallTurn (caller mon_client.now (option_copied session.entry)) at.now (awaiting_reconnect at.now.number link callee cookie)) }
{
    let mut opened = Items::new(alloc);
    match link.turn(alloc, &mut opened)? {
        LinkTurn::Waits(link) => {
            let link = Link::new(
                alloc,
                at.number,
                Stage::AwaitsReconnect(link, callee, cookie),
            )?;
            Ok(Came::Waits(link))
        }
        LinkTurn::Refuses(why) => Ok(Came::Refuses(why, opened)),
        LinkTurn::Takes(link, frame) => {
            let made = while_reconnecting(
                alloc, mon_client, global_seq, session, at, link, callee, cookie, &frame,
            );
            handles(alloc, mon_client, at, opened, made)
        }
    }
}
