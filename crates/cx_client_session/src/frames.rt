//! Secure frames that are sent on a link to a daemon.

ghost use Rattle.std.specs.Prelude.{◌≡◌, IfOk};
ghost use Rattle.cx_base.specs.declared.nodes.NodeName.TheVariants as node;
ghost use Rattle.cx_client_session.specs.calling.Sent.{link_ahead, sent_row};

use cx_base::Items;
use cx_client_connect::{Callee, Link, Stage};
use cx_holdings::MonClient;
use cx_journal::BytesFault;
use cx_link::{SecureLink, SentFrame};
use cx_node::{Moment, Row, goes_on, refuses_bytes};
use cx_steps::SealEntry;
use std::alloc::{AllocError, Global};

/// What a link waits for behind a frame that is sent on it.
#[derive(Clone, Copy)]
pub enum Ahead {
    /// SERVER_IDENT.
    Ident,
    /// What is said of the session that is to be taken up again.
    Reconnect,
    /// The link is open.
    Open,
}

/// The row of a frame that was sent, or couldn't be sealed, behind these entries of the log.
pub fn sent_row(
    alloc: Global,
    mon_client: &MonClient,
    at: &Moment<'_>,
    ahead: Ahead,
    callee: Callee,
    cookie: u64,
    before: Items<SealEntry>,
    made: Result<SentFrame, BytesFault>,
) -> Result<Row<Link>, AllocError>
    ensures { IfOk result (λ row. row ≡ sent_row (node.Entity mon_client.now.name) at.now.number ahead callee cookie before made) }
{
    match made {
        Ok(sent) => {
            let mut seals = before;
            seals.append(alloc, sent.seals)?;
            let link = link_ahead(alloc, at.number, sent.link, ahead, callee, cookie)?;
            Ok(goes_on(alloc, link, sent.bytes, seals))
        }
        Err(why) => {
            let me = mon_client.node_name(alloc)?;
            refuses_bytes(alloc, &me, at.number, why, before)
        }
    }
}

// The link of this number, which waits for that.
fn link_ahead(
    alloc: Global,
    number: u32,
    link: SecureLink,
    ahead: Ahead,
    callee: Callee,
    cookie: u64,
) -> Result<Link, AllocError>
    ensures { IfOk result (λ made. made ≡ link_ahead number link ahead callee cookie) }
{
    match ahead {
        Ahead::Ident => Link::new(alloc, number, Stage::AwaitsIdent(link, callee, cookie)),
        Ahead::Reconnect => Link::new(alloc, number, Stage::AwaitsReconnect(link, callee, cookie)),
        Ahead::Open => Link::new(alloc, number, Stage::Open(link, callee, cookie)),
    }
}
