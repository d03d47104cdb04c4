//! AUTH_SIGNATURE.

ghost use Rattle.cx_link.specs.Sending.{secured_of};
ghost use Rattle.cx_node.specs.cx_rules.specs.Acceptor.{on_signature};
ghost use Rattle.cx_verifying.specs.Rows.{Makes};
ghost use Rattle.cx_verifying.specs.Stages.{awaiting_signature};

use crate::links::{Link, Stage};
use crate::owners::SessionOwner;
use cx_base::{Blob, Items};
use cx_control::AuthSignature;
use cx_holdings::MonClient;
use cx_journal::BytesFault;
use cx_link::Signing;
use cx_node::{Moment, NoRow, NodeRow, checked, goes_on_unchanged};
use std::alloc::Global;

// The peer's signature has to cover all that was sent before one's own.
pub(crate) fn on_signature(
    alloc: Global,
    mon_client: &MonClient,
    at: &Moment<'_>,
    signing: Signing,
    owner: SessionOwner,
    read: Result<AuthSignature, BytesFault>,
) -> Result<NodeRow<Link, ()>, NoRow>
    ensures { Makes mon_client.now at.now (awaiting_signature at.now.number signing owner) (λ a. on_signature a (secured_of signing) owner read) result }
{
    let found = checked(signing, read)?;
    let mut seals = Items::new(alloc);
    seals.push(alloc, found.entry)?;
    let link = Link::new(alloc, at.number, Stage::AwaitsIdent(found.link, owner))?;
    Ok(goes_on_unchanged(alloc, link, Blob::new(alloc), seals))
}
