//! A turn of a link, by its stage, until the peer has signed.

ghost use Rattle.std.specs.Prelude.{◌≡◌, IfOk};
ghost use Rattle.cx_base.specs.declared.nodes.NodeName.TheVariants as node;
ghost use Rattle.cx_rules_session.specs.cx_desk.specs.Handlers.{Handlers};
ghost use Rattle.cx_link.specs.Wires.{wired};
ghost use Rattle.cx_node.specs.cx_rules.specs.Acceptor.{AwaitsBanner, AwaitsHello, AwaitsRequest};
ghost use Rattle.cx_node.specs.steps.Making.{IsHandled};
ghost use Rattle.cx_verifying.specs.Stages.{awaiting_proof, awaiting_signature, link_held};
ghost use Rattle.cx_verifying.specs.Turns.{IsIncomingTurn, IsTurnedBy};

use crate::greetings::{on_banner, on_hello};
use crate::links::{Link, Stage};
use crate::owners::SessionOwner;
use crate::requests::{on_auth_request, on_auth_request_more};
use crate::served::Served;
use crate::signatures::on_signature;
use cx_authorize::Awaiting;
use cx_base::Items;
use cx_control::{AuthRequest, AuthRequestMore, AuthSignature, Hello};
use cx_holdings::MonClient;
use cx_link::{BannerLink, BannerTurn, LinkTurn, PlainLink, SecureLink, Signing, tag};
use cx_node::{Came, Moment, NoRow, NodeRow, due};
use cx_steps::SealEntry;
use std::alloc::{AllocError, Global};

/// What an incoming link comes to: its turn, until the peer has signed; behind that, what is held of it is given out, for whoever hosts sessions.
#[derive(Drop)]
pub enum IncomingTurn {
    Came(Came<Link, ()>),
    AwaitsIdent(SecureLink, SessionOwner),
    Open(SecureLink, Served),
}

/// What stands next on an incoming link. Nothing of what the daemon has is changed.
pub fn turned(
    alloc: Global,
    mon_client: &MonClient,
    at: &Moment<'_>,
    link: Link,
) -> Result<IncomingTurn, AllocError>
    requires { link.number ≡ at.now.number }
    ensures { (handlers : Handlers) → IfOk result (IsTurnedBy handlers mon_client.now at.now link) }
{
    let Link { number: _, stage } = link;
    by_stage(alloc, mon_client, at, Box::into_inner(stage))
}

// The turn of a link in this stage.
fn by_stage(
    alloc: Global,
    mon_client: &MonClient,
    at: &Moment<'_>,
    stage: Stage,
) -> Result<IncomingTurn, AllocError>
    ensures { (handlers : Handlers) → IfOk result (IsTurnedBy handlers mon_client.now at.now (link_held at.now.number stage)) }
{
    match stage {
        Stage::AwaitsBanner(link) => Ok(IncomingTurn::Came(banner_turn(
            alloc, mon_client, at, link,
        )?)),
        Stage::AwaitsHello(link) => Ok(IncomingTurn::Came(hello_turn(
            alloc, mon_client, at, link,
        )?)),
        Stage::AwaitsRequest(link) => Ok(IncomingTurn::Came(request_turn(
            alloc, mon_client, at, link,
        )?)),
        Stage::AwaitsProof(link, awaiting) => Ok(IncomingTurn::Came(proof_turn(
            alloc, mon_client, at, link, awaiting,
        )?)),
        Stage::AwaitsSignature(signing, owner) => Ok(IncomingTurn::Came(signature_turn(
            alloc, mon_client, at, signing, owner,
        )?)),
        Stage::AwaitsIdent(link, owner) => Ok(IncomingTurn::AwaitsIdent(link, owner)),
        Stage::Open(link, served) => Ok(IncomingTurn::Open(link, served)),
    }
}

// What a turn comes to whose banner or frame is handled so, behind what opened of it.
fn handles(
    alloc: Global,
    mon_client: &MonClient,
    at: &Moment<'_>,
    opened: Items<SealEntry>,
    made: Result<NodeRow<Link, ()>, NoRow>,
) -> Result<Came<Link, ()>, AllocError>
    ensures { IfOk result (IsHandled (node.Entity mon_client.now.name) at.now.number opened made) }
{
    let me = mon_client.node_name(alloc)?;
    cx_node::handles(alloc, &me, at.number, opened, made)
}

fn banner_turn(
    alloc: Global,
    mon_client: &MonClient,
    at: &Moment<'_>,
    link: BannerLink,
) -> Result<Came<Link, ()>, AllocError>
    ensures { (handlers : Handlers) → IfOk result (IsIncomingTurn handlers mon_client.now at.now (wired at.now.number link AwaitsBanner)) }
{
    match link.turn() {
        BannerTurn::Waits(link) => {
            let link = Link::new(alloc, at.number, Stage::AwaitsBanner(link))?;
            Ok(Came::Waits(link))
        }
        BannerTurn::Refuses(why) => Ok(Came::Refuses(why, Items::new(alloc))),
        BannerTurn::Takes(link) => {
            let made = on_banner(alloc, mon_client, at, link);
            handles(alloc, mon_client, at, Items::new(alloc), made)
        }
    }
}

fn hello_turn(
    alloc: Global,
    mon_client: &MonClient,
    at: &Moment<'_>,
    link: PlainLink,
) -> Result<Came<Link, ()>, AllocError>
    ensures { (handlers : Handlers) → IfOk result (IsIncomingTurn handlers mon_client.now at.now (wired at.now.number link AwaitsHello)) }
{
    match link.turn(alloc)? {
        LinkTurn::Waits(link) => {
            let link = Link::new(alloc, at.number, Stage::AwaitsHello(link))?;
            Ok(Came::Waits(link))
        }
        LinkTurn::Refuses(why) => Ok(Came::Refuses(why, Items::new(alloc))),
        LinkTurn::Takes(link, frame) => {
            let hello = due::<Hello>(alloc, tag::HELLO, &frame)?;
            let made = on_hello(alloc, mon_client, at, link, hello);
            handles(alloc, mon_client, at, Items::new(alloc), made)
        }
    }
}

fn request_turn(
    alloc: Global,
    mon_client: &MonClient,
    at: &Moment<'_>,
    link: PlainLink,
) -> Result<Came<Link, ()>, AllocError>
    ensures { (handlers : Handlers) → IfOk result (IsIncomingTurn handlers mon_client.now at.now (wired at.now.number link AwaitsRequest)) }
{
    match link.turn(alloc)? {
        LinkTurn::Waits(link) => {
            let link = Link::new(alloc, at.number, Stage::AwaitsRequest(link))?;
            Ok(Came::Waits(link))
        }
        LinkTurn::Refuses(why) => Ok(Came::Refuses(why, Items::new(alloc))),
        LinkTurn::Takes(link, frame) => {
            let request = due::<AuthRequest>(alloc, tag::AUTH_REQUEST, &frame)?;
            let made = on_auth_request(alloc, mon_client, at, link, request);
            handles(alloc, mon_client, at, Items::new(alloc), made)
        }
    }
}

fn proof_turn(
    alloc: Global,
    mon_client: &MonClient,
    at: &Moment<'_>,
    link: PlainLink,
    awaiting: Awaiting,
) -> Result<Came<Link, ()>, AllocError>
    ensures { (handlers : Handlers) → IfOk result (IsIncomingTurn handlers mon_client.now at.now (awaiting_proof at.now.number link awaiting)) }
{
    match link.turn(alloc)? {
        LinkTurn::Waits(link) => {
            let link = Link::new(alloc, at.number, Stage::AwaitsProof(link, awaiting))?;
            Ok(Came::Waits(link))
        }
        LinkTurn::Refuses(why) => Ok(Came::Refuses(why, Items::new(alloc))),
        LinkTurn::Takes(link, frame) => {
            let more = due::<AuthRequestMore>(alloc, tag::AUTH_REQUEST_MORE, &frame)?;
            let made = on_auth_request_more(alloc, mon_client, at, link, awaiting, more);
            handles(alloc, mon_client, at, Items::new(alloc), made)
        }
    }
}

fn signature_turn(
    alloc: Global,
    mon_client: &MonClient,
    at: &Moment<'_>,
    signing: Signing,
    owner: SessionOwner,
) -> Result<Came<Link, ()>, AllocError>
    ensures { (handlers : Handlers) → IfOk result (IsIncomingTurn handlers mon_client.now at.now (awaiting_signature at.now.number signing owner)) }
{
    let mut opened = Items::new(alloc);
    match signing.turn(alloc, &mut opened)? {
        LinkTurn::Waits(signing) => {
            let link = Link::new(alloc, at.number, Stage::AwaitsSignature(signing, owner))?;
            Ok(Came::Waits(link))
        }
        LinkTurn::Refuses(why) => Ok(Came::Refuses(why, opened)),
        LinkTurn::Takes(signing, frame) => {
            let found = due::<AuthSignature>(alloc, tag::AUTH_SIGNATURE, &frame)?;
            let made = on_signature(alloc, mon_client, at, signing, owner, found);
            handles(alloc, mon_client, at, opened, made)
        }
    }
}
