//! The banner, HELLO and AUTH_REQUEST with the ticket that is shown.

ghost use Rattle.std.specs.Prelude.{◌≡◌, [], ◌∷◌, None, IfOk};
ghost use Rattle.std.specs.Option.{option_copied};
ghost use Rattle.cx_node.specs.cx_dice.specs.Draws.{challenge_of};
ghost use Rattle.cx_link.specs.Wires.{wired};
ghost use Rattle.cx_client_connect.specs.cx_rules_session.specs.Envelopes.{authorize_content, sends_holding, session_sealed};
ghost use Rattle.cx_client_connect.specs.cx_rules_session.specs.Presenter.{AwaitsBanner, AwaitsChallenge, AwaitsHello, CallStage, authorizer_bytes, first_frame, on_banner, on_hello, presented, presents};
ghost use Rattle.cx_client_connect.specs.cx_rules_session.specs.Sessions.{held_gid, ticket_for};
ghost use Rattle.cx_client_connect.specs.presenting.Rows.{IsShown, Makes, opening_row};

use crate::Callee;
use crate::called::Called;
use crate::links::{Link, Stage};
use crate::making::unless_refused;
use crate::rows::Change;
use crate::sending::send_request;
use cx_authorize::Presenting;
use cx_base::{Blob, EntityType, Items};
use cx_control::Hello;
use cx_holdings::MonClient;
use cx_journal::BytesFault;
use cx_link::PlainLink;
use cx_login::HeldTicket;
use cx_node::{Moment, NoRow, NodeRow, Row, goes_on_unchanged, send_banner, send_hello};
use cx_steps::{DrawMark, SealEntry};
use std::alloc::{AllocError, Global};

/// The ticket that is held for a service.
pub fn ticket_for(mon_client: &MonClient, kind: EntityType) -> Option<&HeldTicket>
    ensures { option_copied result ≡ ticket_for kind mon_client.now.holdings }
{
    let holdings = mon_client.holdings();
    match kind {
        EntityType::Auth => holdings.auth(),
        EntityType::Mds => holdings.mds(),
        EntityType::Osd => holdings.osd(),
        EntityType::Mgr => holdings.mgr(),
        EntityType::Mon => None,
        EntityType::Client => None,
    }
}

/// The global id that is held, else 0.
pub fn held_gid(mon_client: &MonClient) -> u64
    ensures { result ≡ held_gid mon_client.now.holdings }
{
    let holdings = mon_client.holdings();
    holdings.gid().unwrap_or(0)
}

/// The row of a link of this number that opens: the banner is sent.
pub fn greeting(alloc: Global, number: u32, called: Called) -> Result<Row<Link>, AllocError>
    ensures { IfOk result (λ row. row ≡ opening_row number called) }
{
    let sent = send_banner(alloc)?;
    let link = Link::new(alloc, number, Stage::AwaitsBanner(sent.link, called))?;
    Ok(cx_node::goes_on(alloc, link, sent.bytes, Items::new(alloc)))
}

// The peer's banner: HELLO is sent, with one's own type and nothing of the peer's address.
pub(crate) fn on_banner(
    alloc: Global,
    mon_client: &MonClient,
    at: &Moment<'_>,
    link: PlainLink,
    called: Called,
) -> Result<NodeRow<Link, Change>, NoRow>
    ensures { Makes mon_client.now at.now (wired at.now.number link (AwaitsBanner called)) (λ a. on_banner a called) result }
{
    let name = mon_client.name();
    let sent = send_hello(alloc, link, name.kind)??;
    let link = Link::new(alloc, at.number, Stage::AwaitsHello(sent.link, called))?;
    Ok(goes_on_unchanged(alloc, link, sent.bytes, Items::new(alloc)))
}

// A nonce is drawn, and the ticket shown.
pub(crate) fn on_hello(
    alloc: Global,
    mon_client: &MonClient,
    at: &Moment<'_>,
    link: PlainLink,
    called: Called,
    read: Result<Hello, BytesFault>,
) -> Result<NodeRow<Link, Change>, NoRow>
    ensures { Makes mon_client.now at.now (wired at.now.number link (AwaitsHello called)) (λ a. on_hello a called read) result }
{
    let _ = read?;
    let (presenting, bytes) = presenting_for(alloc, mon_client, &called, at.draw.challenge())?;
    present(
        alloc,
        mon_client,
        at,
        link,
        called.callee,
        presenting,
        bytes,
    )
}

// What is shown with a nonce: the ticket of the daemon's service and the global id that are held now; where no such ticket is held any more,
// those with which the link was asked for.
fn presenting_for(
    alloc: Global,
    mon_client: &MonClient,
    called: &Called,
    nonce: u64,
) -> Result<(Presenting, Blob), AllocError>
    ensures { IfOk result (IsShown (presented called.now mon_client.now nonce)) }
{
    match ticket_for(mon_client, service_of(called)) {
        Some(held) => Presenting::new(alloc, held, held_gid(mon_client), nonce),
        None => Presenting::new(alloc, &called.held, called.gid, nonce),
    }
}

// The service of the daemon that is called.
fn service_of(called: &Called) -> EntityType
    ensures { result ≡ called.now.callee.daemon.kind }
{
    called.callee.daemon.kind
}

// The nonce is logged as drawn, also where the ticket is too long to be shown.
fn present(
    alloc: Global,
    mon_client: &MonClient,
    at: &Moment<'_>,
    link: PlainLink,
    callee: Callee,
    presenting: Presenting,
    bytes: Blob,
) -> Result<NodeRow<Link, Change>, NoRow>
    ensures { (stage : CallStage) → presenting.nonce ≡ challenge_of at.now.draw.now.bytes → bytes ≡ authorizer_bytes presenting None
        → Makes mon_client.now at.now (wired at.now.number link stage) (λ a. presents a callee presenting) result }
{
    let mut drawn = Items::new(alloc);
    drawn.push(
        alloc,
        SealEntry::Drawn(DrawMark::Nonce(at.draw.challenge())),
    )?;
    let made = awaits_challenge(alloc, mon_client, at, link, callee, presenting, bytes);
    let row = unless_refused(alloc, mon_client, at, drawn, made)?;
    Ok(row)
}

// AUTH_REQUEST is sent, and logged as sealed.
fn awaits_challenge(
    alloc: Global,
    mon_client: &MonClient,
    at: &Moment<'_>,
    link: PlainLink,
    callee: Callee,
    presenting: Presenting,
    bytes: Blob,
) -> Result<NodeRow<Link, Change>, NoRow>
    ensures { (stage : CallStage) → bytes ≡ authorizer_bytes presenting None → Makes mon_client.now at.now (wired at.now.number link stage)
        (λ a. sends_holding a (AwaitsChallenge callee presenting) [] (session_sealed presenting.held.session (authorize_content presenting.nonce None) ∷ []) (first_frame mon_client.now presenting)) result }
{
    let sealed = presenting.sealed(alloc, None)?;
    let sent = send_request(alloc, link, mon_client, bytes)??;
    let mut seals = Items::new(alloc);
    seals.push(alloc, sealed)?;
    let link = Link::new(
        alloc,
        at.number,
        Stage::AwaitsChallenge(sent.link, callee, presenting),
    )?;
    Ok(goes_on_unchanged(alloc, link, sent.bytes, seals))
}
