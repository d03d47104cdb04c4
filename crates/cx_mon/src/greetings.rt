//! A link that opens, the banner and HELLO.

ghost use Rattle.std.specs.Prelude.{◌≡◌, IfOk};
ghost use Rattle.cx_base.specs.declared.kinds.EntityType.TheVariants.{Mon};
ghost use Rattle.cx_link.specs.Wires.{wired};
ghost use Rattle.cx_node.specs.Made.{as_row};
ghost use Rattle.cx_rules.specs.Abridged.{abridged_link};
ghost use Rattle.cx_rules.specs.Acceptor.{AwaitsBanner, AwaitsHello, on_banner, on_hello};
ghost use Rattle.cx_rules.specs.Rows.{new_link};
ghost use Rattle.cx_node.specs.steps.Making.{row_due};
ghost use Rattle.cx_mon.specs.acceptor.Rows.{Makes, arrived, opening};

use crate::links::{Link, Stage};
use crate::own::{KeyChange, Own};
use cx_base::{Addr, Blob, EntityType, Items, NodeName};
use cx_control::Hello;
use cx_journal::{BytesFault, Reason};
use cx_link::{BannerLink, PlainLink, own_banner, tag};
use cx_node::{Moment, NoRow, NodeRow, Row, goes_on_unchanged, refuses, send_plain};
use std::alloc::{AllocError, Global};

/// The row of a link that opens: the banner is sent, or the link is shut where as many live as there are places.
pub fn greeting(
    alloc: Global,
    own: &Own,
    at: &Moment<'_>,
    full: bool,
) -> Result<Row<Link>, AllocError>
    ensures { IfOk result (λ row. as_row own.now row ≡ row_due abridged_link (opening full (arrived own.now at.now (new_link at.now.number AwaitsBanner)))) }
{
    let seals = Items::new(alloc);
    if full {
        return refuses(
            alloc,
            &NodeName::Monitor,
            at.number,
            Reason::LinksFull,
            seals,
        );
    }
    let banner = own_banner(alloc)?;
    let mut wire = BannerLink::new(alloc);
    wire.send(alloc, banner.bytes())?;
    let link = Link::new(alloc, at.number, Stage::AwaitsBanner(wire))?;
    Ok(cx_node::goes_on(alloc, link, banner, seals))
}

// The peer's banner: HELLO is sent, with one's own type and nothing of the peer's address.
pub(crate) fn on_banner(
    alloc: Global,
    own: &Own,
    at: &Moment<'_>,
    link: PlainLink,
) -> Result<NodeRow<Link, KeyChange>, NoRow>
    ensures { Makes own.now at.now (wired at.now.number link AwaitsBanner) (on_banner Mon) result }
{
    let nothing_said = Addr {
        nonce: 0,
        ip: [0; 4],
        port: 0,
    };
    let hello = Hello {
        kind: EntityType::Mon,
        addr: nothing_said,
    };
    let sent = send_plain(alloc, link, tag::HELLO, &hello)??;
    let link = Link::new(alloc, at.number, Stage::AwaitsHello(sent.link))?;
    Ok(goes_on_unchanged(alloc, link, sent.bytes, Items::new(alloc)))
}

pub(crate) fn on_hello(
    alloc: Global,
    own: &Own,
    at: &Moment<'_>,
    link: PlainLink,
    read: Result<Hello, BytesFault>,
) -> Result<NodeRow<Link, KeyChange>, NoRow>
    ensures { Makes own.now at.now (wired at.now.number link AwaitsHello) (λ a. on_hello a read) result }
{
    let _ = read?;
    let link = Link::new(alloc, at.number, Stage::AwaitsRequest(link))?;
    Ok(goes_on_unchanged(alloc, link, Blob::new(alloc), Items::new(alloc)))
}
