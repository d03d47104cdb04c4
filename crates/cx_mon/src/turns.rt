//! A turn of a link, by its stage.

ghost use Rattle.std.specs.Prelude.{◌≡◌, ◌<◌, IfOk};
ghost use Rattle.cx_link.specs.Wires.{wired};
ghost use Rattle.cx_rules.specs.Acceptor.{AwaitsBanner, AwaitsHello, AwaitsRequest};
ghost use Rattle.cx_node.specs.steps.Turns.{HasNumber};
ghost use Rattle.cx_mon.specs.acceptor.Rows.{IsMonitorTurn};
ghost use Rattle.cx_mon.specs.acceptor.Stages.{awaiting_ident, awaiting_proof, awaiting_signature, link_held, open_link};

use crate::greetings::{on_banner, on_hello};
use crate::idents::on_ident;
use crate::links::{Link, Stage};
use crate::logins::on_auth_request_more;
use crate::own::{KeyChange, Own};
use crate::requests::on_auth_request;
use crate::signatures::on_signature;
use crate::upkeep::on_open;
use cx_base::{Items, NodeName};
use cx_control::{AuthRequest, AuthRequestMore, AuthSignature, Hello};
use cx_link::{BannerLink, BannerTurn, LinkTurn, PlainLink, SecureLink, Signing, tag};
use cx_login::Offered;
use cx_node::{Came, Moment, due, handles};
use cx_rules::Bearer;
use std::alloc::{AllocError, Global};

/// What stands next on a link. Nothing of the monitor's own is changed yet.
pub fn turned(
    alloc: Global,
    own: &mut Own,
    at: &Moment<'_>,
    link: Link,
) -> Result<Came<Link, KeyChange>, AllocError>
    requires time { at.now.reading < 4000000000000000000 }
    requires number { link.number ≡ at.now.number }
    ensures number { IfOk result (HasNumber (λ link. link.number) at.now.number) }
    ensures come { IfOk result (IsMonitorTurn own.old at.now.reading at.now.draw.now.bytes link) }
    ensures same { own.new ≡ own.old }
{
    let Link { number: _, stage } = link;
    by_stage(alloc, own, at, Box::into_inner(stage))
}

// The turn of a link in this stage.
fn by_stage(
    alloc: Global,
    own: &mut Own,
    at: &Moment<'_>,
    stage: Stage,
) -> Result<Came<Link, KeyChange>, AllocError>
    requires { at.now.reading < 4000000000000000000 }
    ensures come { IfOk result (IsMonitorTurn own.old at.now.reading at.now.draw.now.bytes (link_held at.now.number stage)) }
    ensures same { own.new ≡ own.old }
{
    match stage {
        Stage::AwaitsBanner(link) => banner_turn(alloc, own, at, link),
        Stage::AwaitsHello(link) => hello_turn(alloc, own, at, link),
        Stage::AwaitsRequest(link) => request_turn(alloc, own, at, link),
        Stage::AwaitsProof(link, offered, gid) => proof_turn(alloc, own, at, link, offered, gid),
        Stage::AwaitsSignature(signing, bearer) => signature_turn(alloc, own, at, signing, bearer),
        Stage::AwaitsIdent(link, bearer) => ident_turn(alloc, own, at, link, bearer),
        Stage::Open(link, bearer) => open_turn(alloc, own, at, link, bearer),
    }
}

fn banner_turn(
    alloc: Global,
    own: &Own,
    at: &Moment<'_>,
    link: BannerLink,
) -> Result<Came<Link, KeyChange>, AllocError>
    ensures { IfOk result (IsMonitorTurn own.now at.now.reading at.now.draw.now.bytes (wired at.now.number link AwaitsBanner)) }
{
    match link.turn() {
        BannerTurn::Waits(link) => {
            let link = Link::new(alloc, at.number, Stage::AwaitsBanner(link))?;
            Ok(Came::Waits(link))
        }
        BannerTurn::Refuses(why) => Ok(Came::Refuses(why, Items::new(alloc))),
        BannerTurn::Takes(link) => {
            let made = on_banner(alloc, own, at, link);
            handles(
                alloc,
                &NodeName::Monitor,
                at.number,
                Items::new(alloc),
                made,
            )
        }
    }
}

fn hello_turn(
    alloc: Global,
    own: &Own,
    at: &Moment<'_>,
    link: PlainLink,
) -> Result<Came<Link, KeyChange>, AllocError>
    ensures { IfOk result (IsMonitorTurn own.now at.now.reading at.now.draw.now.bytes (wired at.now.number link AwaitsHello)) }
{
    match link.turn(alloc)? {
        LinkTurn::Waits(link) => {
            let link = Link::new(alloc, at.number, Stage::AwaitsHello(link))?;
            Ok(Came::Waits(link))
        }
        LinkTurn::Refuses(why) => Ok(Came::Refuses(why, Items::new(alloc))),
        LinkTurn::Takes(link, frame) => {
            let hello = due::<Hello>(alloc, tag::HELLO, &frame)?;
            let made = on_hello(alloc, own, at, link, hello);
            handles(
                alloc,
                &NodeName::Monitor,
                at.number,
                Items::new(alloc),
                made,
            )
        }
    }
}

fn request_turn(
    alloc: Global,
    own: &Own,
    at: &Moment<'_>,
    link: PlainLink,
) -> Result<Came<Link, KeyChange>, AllocError>
    ensures { IfOk result (IsMonitorTurn own.now at.now.reading at.now.draw.now.bytes (wired at.now.number link AwaitsRequest)) }
{
    match link.turn(alloc)? {
        LinkTurn::Waits(link) => {
            let link = Link::new(alloc, at.number, Stage::AwaitsRequest(link))?;
            Ok(Came::Waits(link))
        }
        LinkTurn::Refuses(why) => Ok(Came::Refuses(why, Items::new(alloc))),
        LinkTurn::Takes(link, frame) => {
            let request = due::<AuthRequest>(alloc, tag::AUTH_REQUEST, &frame)?;
            let made = on_auth_request(alloc, own, at, link, request);
            handles(
                alloc,
                &NodeName::Monitor,
                at.number,
                Items::new(alloc),
                made,
            )
        }
    }
}

fn proof_turn(
    alloc: Global,
    own: &mut Own,
    at: &Moment<'_>,
    link: PlainLink,
    offered: Offered,
    gid: u64,
) -> Result<Came<Link, KeyChange>, AllocError>
    requires { at.now.reading < 4000000000000000000 }
    ensures come { IfOk result (IsMonitorTurn own.old at.now.reading at.now.draw.now.bytes (awaiting_proof at.now.number link offered gid)) }
    ensures same { own.new ≡ own.old }
{
    match link.turn(alloc)? {
        LinkTurn::Waits(link) => {
            let link = Link::new(alloc, at.number, Stage::AwaitsProof(link, offered, gid))?;
            Ok(Came::Waits(link))
        }
        LinkTurn::Refuses(why) => Ok(Came::Refuses(why, Items::new(alloc))),
        LinkTurn::Takes(link, frame) => {
            let more = due::<AuthRequestMore>(alloc, tag::AUTH_REQUEST_MORE, &frame)?;
            let made = on_auth_request_more(alloc, own, at, link, offered, gid, more);
            handles(
                alloc,
                &NodeName::Monitor,
                at.number,
                Items::new(alloc),
                made,
            )
        }
    }
}

fn signature_turn(
    alloc: Global,
    own: &Own,
    at: &Moment<'_>,
    signing: Signing,
    bearer: Bearer,
) -> Result<Came<Link, KeyChange>, AllocError>
    ensures { IfOk result (IsMonitorTurn own.now at.now.reading at.now.draw.now.bytes (awaiting_signature at.now.number signing bearer)) }
{
    let mut opened = Items::new(alloc);
    match signing.turn(alloc, &mut opened)? {
        LinkTurn::Waits(signing) => {
            let link = Link::new(alloc, at.number, Stage::AwaitsSignature(signing, bearer))?;
            Ok(Came::Waits(link))
        }
        LinkTurn::Refuses(why) => Ok(Came::Refuses(why, opened)),
        LinkTurn::Takes(signing, frame) => {
            let found = due::<AuthSignature>(alloc, tag::AUTH_SIGNATURE, &frame)?;
            let made = on_signature(alloc, own, at, signing, bearer, found);
            handles(alloc, &NodeName::Monitor, at.number, opened, made)
        }
    }
}

fn ident_turn(
    alloc: Global,
    own: &Own,
    at: &Moment<'_>,
    link: SecureLink,
    bearer: Bearer,
) -> Result<Came<Link, KeyChange>, AllocError>
    ensures { IfOk result (IsMonitorTurn own.now at.now.reading at.now.draw.now.bytes (awaiting_ident at.now.number link bearer)) }
{
    let mut opened = Items::new(alloc);
    match link.turn(alloc, &mut opened)? {
        LinkTurn::Waits(link) => {
            let link = Link::new(alloc, at.number, Stage::AwaitsIdent(link, bearer))?;
            Ok(Came::Waits(link))
        }
        LinkTurn::Refuses(why) => Ok(Came::Refuses(why, opened)),
        LinkTurn::Takes(link, frame) => {
            let made = on_ident(alloc, own, at, link, bearer, &frame);
            handles(alloc, &NodeName::Monitor, at.number, opened, made)
        }
    }
}

fn open_turn(
    alloc: Global,
    own: &mut Own,
    at: &Moment<'_>,
    link: SecureLink,
    bearer: Bearer,
) -> Result<Came<Link, KeyChange>, AllocError>
    requires { at.now.reading < 4000000000000000000 }
    ensures come { IfOk result (IsMonitorTurn own.old at.now.reading at.now.draw.now.bytes (open_link at.now.number link bearer)) }
    ensures same { own.new ≡ own.old }
{
    let mut opened = Items::new(alloc);
    match link.turn(alloc, &mut opened)? {
        LinkTurn::Waits(link) => {
            let link = Link::new(alloc, at.number, Stage::Open(link, bearer))?;
            Ok(Came::Waits(link))
        }
        LinkTurn::Refuses(why) => Ok(Came::Refuses(why, opened)),
        LinkTurn::Takes(link, frame) => {
            let made = on_open(alloc, own, at, link, bearer, &frame);
            handles(alloc, &NodeName::Monitor, at.number, opened, made)
        }
    }
}
