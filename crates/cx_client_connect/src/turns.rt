//! A turn of a link, by its stage, until the daemon is to sign.

ghost use Rattle.std.specs.Prelude.{Option, IfOk};
ghost use Rattle.cx_link.specs.Wires.{wired};
ghost use Rattle.cx_client_connect.specs.cx_rules_session.specs.Presenter.{AwaitsBanner, AwaitsHello};
ghost use Rattle.cx_client_connect.specs.cx_rules_session.specs.Sessions.{HeldSession};
ghost use Rattle.cx_client_connect.specs.presenting.Rows.{IsCallTurn, caller};
ghost use Rattle.cx_client_connect.specs.presenting.Stages.{awaiting_challenge, awaiting_done};

use crate::Callee;
use crate::called::Called;
use crate::challenges::while_challenged;
use crate::dones::while_answered;
use crate::greetings::{on_banner, on_hello};
use crate::links::{Link, Stage};
use crate::making::handles;
use crate::rows::Change;
use cx_authorize::{Answering, Presenting};
use cx_base::Items;
use cx_control::Hello;
use cx_holdings::MonClient;
use cx_link::{BannerLink, BannerTurn, LinkTurn, PlainLink, tag};
use cx_node::{Came, Moment, due};
use std::alloc::{AllocError, Global};

/// What stands next on a link on which the daemon's banner is awaited.
pub fn banner_turn(
    alloc: Global,
    mon_client: &MonClient,
    at: &Moment<'_>,
    link: BannerLink,
    called: Called,
) -> Result<Came<Link, Change>, AllocError>
    ensures { (session : Option HeldSession) → IfOk result (IsCallTurn (caller mon_client.now session) at.now (wired at.now.number link (AwaitsBanner called))) }
{
    match link.turn() {
        BannerTurn::Waits(link) => {
            let link = Link::new(alloc, at.number, Stage::AwaitsBanner(link, called))?;
            Ok(Came::Waits(link))
        }
        BannerTurn::Refuses(why) => Ok(Came::Refuses(why, Items::new(alloc))),
        BannerTurn::Takes(link) => {
            let made = on_banner(alloc, mon_client, at, link, called);
            handles(alloc, mon_client, at, Items::new(alloc), made)
        }
    }
}

/// The same where HELLO is awaited.
pub fn hello_turn(
    alloc: Global,
    mon_client: &MonClient,
    at: &Moment<'_>,
    link: PlainLink,
    called: Called,
) -> Result<Came<Link, Change>, AllocError>
    ensures { (session : Option HeldSession) → IfOk result (IsCallTurn (caller mon_client.now session) at.now (wired at.now.number link (AwaitsHello called))) }
{
    match link.turn(alloc)? {
        LinkTurn::Waits(link) => {
            let link = Link::new(alloc, at.number, Stage::AwaitsHello(link, called))?;
            Ok(Came::Waits(link))
        }
        LinkTurn::Refuses(why) => Ok(Came::Refuses(why, Items::new(alloc))),
        LinkTurn::Takes(link, frame) => {
            let hello = due::<Hello>(alloc, tag::HELLO, &frame)?;
            let made = on_hello(alloc, mon_client, at, link, called, hello);
            handles(alloc, mon_client, at, Items::new(alloc), made)
        }
    }
}

/// The same where the daemon's challenge is awaited.
pub fn challenge_turn(
    alloc: Global,
    mon_client: &MonClient,
    at: &Moment<'_>,
    link: PlainLink,
    callee: Callee,
    presenting: Presenting,
) -> Result<Came<Link, Change>, AllocError>
    ensures { (session : Option HeldSession) → IfOk result (IsCallTurn (caller mon_client.now session) at.now (awaiting_challenge at.now.number link callee presenting)) }
{
    match link.turn(alloc)? {
        LinkTurn::Waits(link) => {
            let link = Link::new(
                alloc,
                at.number,
                Stage::AwaitsChallenge(link, callee, presenting),
            )?;
            Ok(Came::Waits(link))
        }
        LinkTurn::Refuses(why) => Ok(Came::Refuses(why, Items::new(alloc))),
        LinkTurn::Takes(link, frame) => {
            let made = while_challenged(alloc, mon_client, at, link, callee, presenting, &frame);
            handles(alloc, mon_client, at, Items::new(alloc), made)
        }
    }
}

/// The same where AUTH_DONE is awaited.
pub fn done_turn(
    alloc: Global,
    mon_client: &MonClient,
    at: &Moment<'_>,
    link: PlainLink,
    callee: Callee,
    answering: Answering,
) -> Result<Came<Link, Change>, AllocError>
    ensures { (session : Option HeldSession) → IfOk result (IsCallTurn (caller mon_client.now session) at.now (awaiting_done at.now.number link callee answering)) }
{
    match link.turn(alloc)? {
        LinkTurn::Waits(link) => {
            let link = Link::new(alloc, at.number, Stage::AwaitsDone(link, callee, answering))?;
            Ok(Came::Waits(link))
        }
        LinkTurn::Refuses(why) => Ok(Came::Refuses(why, Items::new(alloc))),
        LinkTurn::Takes(link, frame) => {
            let made = while_answered(alloc, mon_client, at, link, callee, answering, &frame);
            handles(alloc, mon_client, at, Items::new(alloc), made)
        }
    }
}
