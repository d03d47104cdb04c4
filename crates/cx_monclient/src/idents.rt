//! SERVER_IDENT and IDENT_MISSING_FEATURES.

ghost use Rattle.std.specs.Prelude.{ℕ, ◌≡◌, List};
ghost use Rattle.cx_base.specs.Names.{is_daemon_type};
ghost use Rattle.cx_link.specs.Wires.{secured_link};
ghost use Rattle.cx_node.specs.cx_rules.specs.Connector as connector;
ghost use Rattle.cx_node.specs.cx_rules.specs.Connector.{Open, on_missing_features, while_identified};
ghost use Rattle.cx_node.specs.cx_rules.specs.Requests.{on_server_ident, opens_to};
ghost use Rattle.cx_monclient.specs.connector.Rows.{Makes};
ghost use Rattle.cx_monclient.specs.connector.Stages.{awaiting_ident};
ghost use Rattle.cx_node.specs.steps.Stages.{keys_alone};

use crate::Requests;
use crate::connector_asking::asks_rotating;
use crate::links::{Link, Stage};
use crate::rows::BoxedChange;
use cx_base::{Blob, Items};
use cx_control::{IdentMissingFeatures, ServerIdent};
use cx_frame::Frame;
use cx_holdings::MonClient;
use cx_journal::BytesFault;
use cx_link::{SecureLink, tag};
use cx_node::{Moment, NoRow, NodeRow, due, goes_on_unchanged, payload};
use std::alloc::Global;

// A frame behind CLIENT_IDENT.
pub(crate) fn while_identified(
    alloc: Global,
    mon_client: &MonClient,
    at: &Moment<'_>,
    link: SecureLink,
    session: [u8; 16],
    frame: &Frame,
) -> Result<NodeRow<Link, BoxedChange>, NoRow>
    ensures { Makes mon_client.now at.now (awaiting_ident at.now.number link session) (λ a. while_identified a (keys_alone link.keys) session frame.now) result }
{
    if frame.tag == tag::IDENT_MISSING_FEATURES {
        let read = payload::<IdentMissingFeatures>(alloc, frame)?;
        on_missing_features(mon_client, at, read)
    } else {
        let read = due::<ServerIdent>(alloc, tag::SERVER_IDENT, frame)?;
        on_server_ident(alloc, mon_client, at, link, session, read)
    }
}

// The link is open, and no request was sent on it yet.
fn on_server_ident(
    alloc: Global,
    mon_client: &MonClient,
    at: &Moment<'_>,
    link: SecureLink,
    session: [u8; 16],
    read: Result<ServerIdent, BytesFault>,
) -> Result<NodeRow<Link, BoxedChange>, NoRow>
    ensures { Makes mon_client.now at.now (awaiting_ident at.now.number link session) (λ a. on_server_ident Open a (keys_alone link.keys) session read) result }
{
    let _ = read?;
    opens_to(alloc, mon_client, at, link, Requests::new(alloc, session))
}

// A daemon, which opens a link in order to fetch, asks for its generations at once.
fn opens_to(
    alloc: Global,
    mon_client: &MonClient,
    at: &Moment<'_>,
    link: SecureLink,
    requests: Requests,
) -> Result<NodeRow<Link, BoxedChange>, NoRow>
    ensures { (stage : connector.Stage) → Makes mon_client.now at.now (secured_link at.now.number link.ahead stage) (λ a. opens_to Open a (keys_alone link.keys) requests) result }
{
    if is_daemon(mon_client) {
        asks_rotating(alloc, mon_client, at, link, requests)
    } else {
        let link = Link::new(alloc, at.number, Stage::Open(link, requests))?;
        Ok(goes_on_unchanged(alloc, link, Blob::new(alloc), Items::new(alloc)))
    }
}

// Whether the entity is a daemon.
fn is_daemon(mon_client: &MonClient) -> bool
    ensures { result ≡ is_daemon_type mon_client.now.name.kind }
{
    let name = mon_client.name();
    name.kind.is_daemon()
}

// The monitor requires features that aren't there.
fn on_missing_features(
    mon_client: &MonClient,
    at: &Moment<'_>,
    read: Result<IdentMissingFeatures, BytesFault>,
) -> Result<NodeRow<Link, BoxedChange>, NoRow>
    ensures { (ahead : List ℕ) (stage : connector.Stage) → Makes mon_client.now at.now (secured_link at.now.number ahead stage) (λ a. on_missing_features a read) result }
{
    let missing = read?;
    Err(NoRow::from(BytesFault::Features(missing.features)))
}
