//! A turn of a link, by its stage.

ghost use Rattle.std.specs.Prelude.{◌≡◌, Option, IfOk};
ghost use Rattle.std.specs.Option.{option_copied};
ghost use Rattle.cx_client_session.specs.cx_rules_session.specs.Sessions.{HeldSession};
ghost use Rattle.cx_client_session.specs.cx_client_connect.specs.presenting.Rows.{IsCallTurn, caller};
ghost use Rattle.cx_client_session.specs.cx_client_connect.specs.presenting.Stages.{link_held, open_link};

use crate::open::on_open;
use crate::{
    Callee, Change, HeldSession, Link, Stage, banner_turn, challenge_turn, done_turn, handles,
    hello_turn, ident_turn, reconnect_turn, signature_turn,
};
use cx_base::Items;
use cx_holdings::MonClient;
use cx_link::{LinkTurn, SecureLink};
use cx_node::{Came, Moment};
use std::alloc::{AllocError, Global};

/// What stands next on a link, by the session that the client has with its daemon. What the client has changes only as the change of the row is
/// settled. `global_seq` is its count of connections to daemons.
pub fn turned(
    alloc: Global,
    mon_client: &MonClient,
    global_seq: u64,
    session: Option<&HeldSession>,
    at: &Moment<'_>,
    link: Link,
) -> Result<Came<Link, Change>, AllocError>
    requires number { link.number ≡ at.now.number }
    requires count { global_seq ≡ mon_client.now.global_seq }
    ensures { IfOk result (IsCallTurn (caller mon_client.now (option_copied session.entry)) at.now link) }
{
    let Link { number: _, stage } = link;
    by_stage(
        alloc,
        mon_client,
        global_seq,
        session,
        at,
        Box::into_inner(stage),
    )
}

// The turn of a link in this stage.
fn by_stage(
    alloc: Global,
    mon_client: &MonClient,
    global_seq: u64,
    session: Option<&HeldSession>,
    at: &Moment<'_>,
    stage: Stage,
) -> Result<Came<Link, Change>, AllocError>
    requires { global_seq ≡ mon_client.now.global_seq }
    ensures { IfOk result (IsCallTurn (caller mon_client.now (option_copied session.entry)) at.now (link_held at.now.number stage)) }
{
    match stage {
        Stage::AwaitsBanner(link, called) => banner_turn(alloc, mon_client, at, link, called),
        Stage::AwaitsHello(link, called) => hello_turn(alloc, mon_client, at, link, called),
        Stage::AwaitsChallenge(link, callee, presenting) => {
            challenge_turn(alloc, mon_client, at, link, callee, presenting)
        }
        Stage::AwaitsDone(link, callee, answering) => {
            done_turn(alloc, mon_client, at, link, callee, answering)
        }
        Stage::AwaitsSignature(signing, callee) => {
            signature_turn(alloc, mon_client, global_seq, session, at, signing, callee)
        }
        Stage::AwaitsIdent(link, callee, cookie) => {
            ident_turn(alloc, mon_client, at, link, callee, cookie)
        }
        Stage::AwaitsReconnect(link, callee, cookie) => {
            reconnect_turn(
                alloc, mon_client, global_seq, session, at, link, callee, cookie,
            )
        }
        Stage::Open(link, callee, cookie) => {
            open_turn(alloc, mon_client, at, link, callee, cookie)
        }
    }
}

fn open_turn(
    alloc: Global,
    mon_client: &MonClient,
    at: &Moment<'_>,
    link: SecureLink,
    callee: Callee,
    cookie: u64,
) -> Result<Came<Link, Change>, AllocError>
    ensures { (session : Option HeldSession) → IfOk result (IsCallTurn (caller mon_client.now session) at.now (open_link at.now.number link callee cookie)) }
{
    let mut opened = Items::new(alloc);
    match link.turn(alloc, &mut opened)? {
        LinkTurn::Waits(link) => {
            let link = Link::new(alloc, at.number, Stage::Open(link, callee, cookie))?;
            Ok(Came::Waits(link))
        }
        LinkTurn::Refuses(why) => Ok(Came::Refuses(why, opened)),
        LinkTurn::Takes(link, frame) => {
            let made = on_open(alloc, mon_client, at, link, callee, cookie, &frame);
            handles(alloc, mon_client, at, opened, made)
        }
    }
}
