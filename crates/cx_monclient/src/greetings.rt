//! The banner, HELLO and AUTH_REQUEST.

ghost use Rattle.std.specs.Prelude.{◌≡◌, [], IfOk};
ghost use Rattle.cx_link.specs.Wires.{wired};
ghost use Rattle.cx_node.specs.cx_rules.specs.Connector.{AwaitsBanner, AwaitsHello, AwaitsChallenge, login_request, on_banner, on_hello};
ghost use Rattle.cx_node.specs.cx_rules.specs.Rows.{sends_plain};
ghost use Rattle.cx_monclient.specs.connector.Rows.{Makes, opening_row};

use crate::links::{Link, Stage};
use crate::rows::BoxedChange;
use cx_base::Items;
use cx_control::Hello;
use cx_holdings::MonClient;
use cx_journal::BytesFault;
use cx_link::{PlainLink, tag};
use cx_node::{
    Moment, NoRow, NodeRow, Row, goes_on_unchanged, send_banner, send_hello, send_plain,
};
use std::alloc::{AllocError, Global};

/// The row of a link of this number that opens: the banner is sent. `asked` is the sum of the services for which the login asks tickets.
pub fn greeting(alloc: Global, number: u32, asked: u32) -> Result<Row<Link>, AllocError>
    ensures { IfOk result (λ row. row ≡ opening_row number asked) }
{
    let sent = send_banner(alloc)?;
    let link = Link::new(alloc, number, Stage::AwaitsBanner(sent.link, asked))?;
    Ok(cx_node::goes_on(alloc, link, sent.bytes, Items::new(alloc)))
}

// The peer's banner: HELLO is sent, with one's own type and nothing of the peer's address.
pub(crate) fn on_banner(
    alloc: Global,
    mon_client: &MonClient,
    at: &Moment<'_>,
    link: PlainLink,
    asked: u32,
) -> Result<NodeRow<Link, BoxedChange>, NoRow>
    ensures { Makes mon_client.now at.now (wired at.now.number link (AwaitsBanner asked)) (λ a. on_banner a asked) result }
{
    let name = mon_client.name();
    let sent = send_hello(alloc, link, name.kind)??;
    let link = Link::new(alloc, at.number, Stage::AwaitsHello(sent.link, asked))?;
    Ok(goes_on_unchanged(alloc, link, sent.bytes, Items::new(alloc)))
}

pub(crate) fn on_hello(
    alloc: Global,
    mon_client: &MonClient,
    at: &Moment<'_>,
    link: PlainLink,
    asked: u32,
    read: Result<Hello, BytesFault>,
) -> Result<NodeRow<Link, BoxedChange>, NoRow>
    ensures { Makes mon_client.now at.now (wired at.now.number link (AwaitsHello asked)) (λ a. on_hello a asked read) result }
{
    let _ = read?;
    requests(alloc, mon_client, at, link, asked)
}

// AUTH_REQUEST is sent.
fn requests(
    alloc: Global,
    mon_client: &MonClient,
    at: &Moment<'_>,
    link: PlainLink,
    asked: u32,
) -> Result<NodeRow<Link, BoxedChange>, NoRow>
    ensures { Makes mon_client.now at.now (wired at.now.number link (AwaitsHello asked)) (λ a. sends_plain a (AwaitsChallenge asked) [] (login_request mon_client.now)) result }
{
    let request = mon_client.login_request(alloc)?;
    let sent = send_plain(alloc, link, tag::AUTH_REQUEST, &request)??;
    let link = Link::new(alloc, at.number, Stage::AwaitsChallenge(sent.link, asked))?;
    Ok(goes_on_unchanged(alloc, link, sent.bytes, Items::new(alloc)))
}
