//! AUTH_SIGNATURE.

ghost use Rattle.cx_link.specs.Sending.{secured_of};
ghost use Rattle.cx_rules.specs.Acceptor.{on_signature};
ghost use Rattle.cx_mon.specs.acceptor.Rows.{Makes};
ghost use Rattle.cx_mon.specs.acceptor.Stages.{awaiting_signature};

use crate::links::{Link, Stage};
use crate::own::{KeyChange, Own};
use cx_base::{Blob, Items};
use cx_control::AuthSignature;
use cx_journal::BytesFault;
use cx_link::Signing;
use cx_node::{Moment, NoRow, NodeRow, checked, goes_on_unchanged};
use cx_rules::Bearer;
use std::alloc::Global;

// The peer's signature has to cover all that was sent before one's own.
pub(crate) fn on_signature(
    alloc: Global,
    own: &Own,
    at: &Moment<'_>,
    signing: Signing,
    bearer: Bearer,
    read: Result<AuthSignature, BytesFault>,
) -> Result<NodeRow<Link, KeyChange>, NoRow>
    ensures { Makes own.now at.now (awaiting_signature at.now.number signing bearer) (λ a. on_signature a (secured_of signing) bearer read) result }
{
    let found = checked(signing, read)?;
    let mut seals = Items::new(alloc);
    seals.push(alloc, found.entry)?;
    let link = Link::new(alloc, at.number, Stage::AwaitsIdent(found.link, bearer))?;
    Ok(goes_on_unchanged(alloc, link, Blob::new(alloc), seals))
}
