//! A link that opens, the banner and HELLO.

ghost use Rattle.std.specs.Prelude.{◌≡◌, IfOk};
ghost use Rattle.cx_link.specs.Wires.{wired};
ghost use Rattle.cx_node.specs.Made.{as_row};
ghost use Rattle.cx_node.specs.cx_rules.specs.Abridged.{abridged_link};
ghost use Rattle.cx_node.specs.cx_rules.specs.Acceptor.{AwaitsBanner, AwaitsHello, on_banner, on_hello};
ghost use Rattle.cx_node.specs.cx_rules.specs.Rows.{new_link};
ghost use Rattle.cx_node.specs.steps.Greetings.{opening};
ghost use Rattle.cx_node.specs.steps.Making.{row_due};
ghost use Rattle.cx_verifying.specs.Rows.{Makes, arrived};

use crate::links::{Link, Stage};
use cx_base::{Blob, Items};
use cx_control::Hello;
use cx_holdings::MonClient;
use cx_journal::{BytesFault, Reason};
use cx_link::PlainLink;
use cx_node::{Moment, NoRow, NodeRow, Row, goes_on_unchanged, refuses, send_banner, send_hello};
use std::alloc::{AllocError, Global};

/// The row of a link that opens: the banner is sent, or the link is shut where as many live as there are places.
pub fn greeting(
    alloc: Global,
    mon_client: &MonClient,
    at: &Moment<'_>,
    full: bool,
) -> Result<Row<Link>, AllocError>
    ensures { IfOk result (λ row. as_row mon_client.now row ≡ row_due abridged_link (opening full (arrived mon_client.now at.now (new_link at.now.number AwaitsBanner)))) }
{
    let seals = Items::new(alloc);
    if full {
        let me = mon_client.node_name(alloc)?;
        return refuses(alloc, &me, at.number, Reason::LinksFull, seals);
    }
    let sent = send_banner(alloc)?;
    let link = Link::new(alloc, at.number, Stage::AwaitsBanner(sent.link))?;
    Ok(cx_node::goes_on(alloc, link, sent.bytes, seals))
}

// The peer's banner: HELLO is sent, with one's own type.
pub(crate) fn on_banner(
    alloc: Global,
    mon_client: &MonClient,
    at: &Moment<'_>,
    link: PlainLink,
) -> Result<NodeRow<Link, ()>, NoRow>
    ensures { Makes mon_client.now at.now (wired at.now.number link AwaitsBanner) (on_banner mon_client.now.name.kind) result }
{
    let name = mon_client.name();
    let sent = send_hello(alloc, link, name.kind)??;
    let link = Link::new(alloc, at.number, Stage::AwaitsHello(sent.link))?;
    Ok(goes_on_unchanged(alloc, link, sent.bytes, Items::new(alloc)))
}

pub(crate) fn on_hello(
    alloc: Global,
    mon_client: &MonClient,
    at: &Moment<'_>,
    link: PlainLink,
    read: Result<Hello, BytesFault>,
) -> Result<NodeRow<Link, ()>, NoRow>
    ensures { Makes mon_client.now at.now (wired at.now.number link AwaitsHello) (λ a. on_hello a read) result }
{
    let _ = read?;
    let link = Link::new(alloc, at.number, Stage::AwaitsRequest(link))?;
    Ok(goes_on_unchanged(alloc, link, Blob::new(alloc), Items::new(alloc)))
}
