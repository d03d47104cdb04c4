//! A turn of a link, by its stage.

ghost use Rattle.std.specs.Prelude.{◌≡◌, IfOk};
ghost use Rattle.cx_link.specs.Wires.{wired};
ghost use Rattle.cx_node.specs.cx_rules.specs.Connector.{AwaitsBanner, AwaitsHello, AwaitsChallenge, AwaitsDone};
ghost use Rattle.cx_node.specs.steps.Turns.{HasNumber};
ghost use Rattle.cx_monclient.specs.connector.Rows.{IsMonClientTurn};
ghost use Rattle.cx_monclient.specs.connector.Stages.{awaiting_ident, awaiting_signature, link_held, open_link};

use crate::Requests;
use crate::challenges::while_challenged;
use crate::dones::while_proved;
use crate::greetings::{on_banner, on_hello};
use crate::idents::while_identified;
use crate::links::{Link, Stage};
use crate::making::handles;
use crate::replies::on_open;
use crate::rows::BoxedChange;
use crate::signatures::on_signature;
use cx_base::Items;
use cx_control::{AuthSignature, Hello};
use cx_holdings::{Login, MonClient};
use cx_link::{BannerLink, BannerTurn, LinkTurn, PlainLink, SecureLink, Signing, tag};
use cx_node::{Came, Moment, due};
use std::alloc::{AllocError, Global};

/// What stands next on a link. What is held changes only as the change of the row is settled.
pub fn turned(
    alloc: Global,
    mon_client: &MonClient,
    at: &Moment<'_>,
    link: Link,
) -> Result<Came<Link, BoxedChange>, AllocError>
    requires { link.number ≡ at.now.number }
    ensures number { IfOk result (HasNumber (λ link. link.number) at.now.number) }
    ensures come { IfOk result (IsMonClientTurn mon_client.now at.now link) }
{
    let Link { number: _, stage } = link;
    by_stage(alloc, mon_client, at, Box::into_inner(stage))
}

// The turn of a link in this stage.
fn by_stage(
    alloc: Global,
    mon_client: &MonClient,
    at: &Moment<'_>,
    stage: Stage,
) -> Result<Came<Link, BoxedChange>, AllocError>
    ensures { IfOk result (IsMonClientTurn mon_client.now at.now (link_held at.now.number stage)) }
{
    match stage {
        Stage::AwaitsBanner(link, asked) => banner_turn(alloc, mon_client, at, link, asked),
        Stage::AwaitsHello(link, asked) => hello_turn(alloc, mon_client, at, link, asked),
        Stage::AwaitsChallenge(link, asked) => challenge_turn(alloc, mon_client, at, link, asked),
        Stage::AwaitsDone(link) => done_turn(alloc, mon_client, at, link),
        Stage::AwaitsSignature(signing, login) => signature_turn(
            alloc, mon_client, at, signing, login,
        ),
        Stage::AwaitsIdent(link, session) => ident_turn(alloc, mon_client, at, link, session),
        Stage::Open(link, requests) => open_turn(alloc, mon_client, at, link, requests),
    }
}

fn banner_turn(
    alloc: Global,
    mon_client: &MonClient,
    at: &Moment<'_>,
    link: BannerLink,
    asked: u32,
) -> Result<Came<Link, BoxedChange>, AllocError>
    ensures { IfOk result (IsMonClientTurn mon_client.now at.now (wired at.now.number link (AwaitsBanner asked))) }
{
    match link.turn() {
        BannerTurn::Waits(link) => {
            let link = Link::new(alloc, at.number, Stage::AwaitsBanner(link, asked))?;
            Ok(Came::Waits(link))
        }
        BannerTurn::Refuses(why) => Ok(Came::Refuses(why, Items::new(alloc))),
        BannerTurn::Takes(link) => {
            let made = on_banner(alloc, mon_client, at, link, asked);
            handles(alloc, mon_client, at, Items::new(alloc), made)
        }
    }
}

fn hello_turn(
    alloc: Global,
    mon_client: &MonClient,
    at: &Moment<'_>,
    link: PlainLink,
    asked: u32,
) -> Result<Came<Link, BoxedChange>, AllocError>
    ensures { IfOk result (IsMonClientTurn mon_client.now at.now (wired at.now.number link (AwaitsHello asked))) }
{
    match link.turn(alloc)? {
        LinkTurn::Waits(link) => {
            let link = Link::new(alloc, at.number, Stage::AwaitsHello(link, asked))?;
            Ok(Came::Waits(link))
        }
        LinkTurn::Refuses(why) => Ok(Came::Refuses(why, Items::new(alloc))),
        LinkTurn::Takes(link, frame) => {
            let hello = due::<Hello>(alloc, tag::HELLO, &frame)?;
            let made = on_hello(alloc, mon_client, at, link, asked, hello);
            handles(alloc, mon_client, at, Items::new(alloc), made)
        }
    }
}

fn challenge_turn(
    alloc: Global,
    mon_client: &MonClient,
    at: &Moment<'_>,
    link: PlainLink,
    asked: u32,
) -> Result<Came<Link, BoxedChange>, AllocError>
    ensures { IfOk result (IsMonClientTurn mon_client.now at.now (wired at.now.number link (AwaitsChallenge asked))) }
{
    match link.turn(alloc)? {
        LinkTurn::Waits(link) => {
            let link = Link::new(alloc, at.number, Stage::AwaitsChallenge(link, asked))?;
            Ok(Came::Waits(link))
        }
        LinkTurn::Refuses(why) => Ok(Came::Refuses(why, Items::new(alloc))),
        LinkTurn::Takes(link, frame) => {
            let made = while_challenged(alloc, mon_client, at, link, asked, &frame);
            handles(alloc, mon_client, at, Items::new(alloc), made)
        }
    }
}

fn done_turn(
    alloc: Global,
    mon_client: &MonClient,
    at: &Moment<'_>,
    link: PlainLink,
) -> Result<Came<Link, BoxedChange>, AllocError>
    ensures { IfOk result (IsMonClientTurn mon_client.now at.now (wired at.now.number link AwaitsDone)) }
{
    match link.turn(alloc)? {
        LinkTurn::Waits(link) => {
            let link = Link::new(alloc, at.number, Stage::AwaitsDone(link))?;
            Ok(Came::Waits(link))
        }
        LinkTurn::Refuses(why) => Ok(Came::Refuses(why, Items::new(alloc))),
        LinkTurn::Takes(link, frame) => {
            let made = while_proved(alloc, mon_client, at, link, &frame);
            handles(alloc, mon_client, at, Items::new(alloc), made)
        }
    }
}

fn signature_turn(
    alloc: Global,
    mon_client: &MonClient,
    at: &Moment<'_>,
    signing: Signing,
    login: Login,
) -> Result<Came<Link, BoxedChange>, AllocError>
    ensures { IfOk result (IsMonClientTurn mon_client.now at.now (awaiting_signature at.now.number signing login)) }
{
    let mut opened = Items::new(alloc);
    match signing.turn(alloc, &mut opened)? {
        LinkTurn::Waits(signing) => {
            let link = Link::new(alloc, at.number, Stage::AwaitsSignature(signing, login))?;
            Ok(Came::Waits(link))
        }
        LinkTurn::Refuses(why) => Ok(Came::Refuses(why, opened)),
        LinkTurn::Takes(signing, frame) => {
            let found = due::<AuthSignature>(alloc, tag::AUTH_SIGNATURE, &frame)?;
            let made = on_signature(alloc, mon_client, at, signing, login, found);
            handles(alloc, mon_client, at, opened, made)
        }
    }
}

fn ident_turn(
    alloc: Global,
    mon_client: &MonClient,
    at: &Moment<'_>,
    link: SecureLink,
    session: [u8; 16],
) -> Result<Came<Link, BoxedChange>, AllocError>
    ensures { IfOk result (IsMonClientTurn mon_client.now at.now (awaiting_ident at.now.number link session)) }
{
    let mut opened = Items::new(alloc);
    match link.turn(alloc, &mut opened)? {
        LinkTurn::Waits(link) => {
            let link = Link::new(alloc, at.number, Stage::AwaitsIdent(link, session))?;
            Ok(Came::Waits(link))
        }
        LinkTurn::Refuses(why) => Ok(Came::Refuses(why, opened)),
        LinkTurn::Takes(link, frame) => {
            let made = while_identified(alloc, mon_client, at, link, session, &frame);
            handles(alloc, mon_client, at, opened, made)
        }
    }
}

fn open_turn(
    alloc: Global,
    mon_client: &MonClient,
    at: &Moment<'_>,
    link: SecureLink,
    requests: Requests,
) -> Result<Came<Link, BoxedChange>, AllocError>
    ensures { IfOk result (IsMonClientTurn mon_client.now at.now (open_link at.now.number link requests)) }
{
    let mut opened = Items::new(alloc);
    match link.turn(alloc, &mut opened)? {
        LinkTurn::Waits(link) => {
            let link = Link::new(alloc, at.number, Stage::Open(link, requests))?;
            Ok(Came::Waits(link))
        }
        LinkTurn::Refuses(why) => Ok(Came::Refuses(why, opened)),
        LinkTurn::Takes(link, frame) => {
            let made = on_open(alloc, mon_client, at, link, requests, &frame);
            handles(alloc, mon_client, at, opened, made)
        }
    }
}
