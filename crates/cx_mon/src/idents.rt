//! CLIENT_IDENT and SESSION_RECONNECT.

ghost use Rattle.std.specs.Prelude.{[]};
ghost use Rattle.cx_node.specs.steps.Stages.{keys_alone};
ghost use Rattle.cx_rules.specs.Acceptor.{Open, misses, server_ident};
ghost use Rattle.cx_rules.specs.MonitorRule.{on_client_ident, on_ident, on_session_reconnect};
ghost use Rattle.cx_rules.specs.Rows.{sends_secure};
ghost use Rattle.cx_mon.specs.acceptor.Rows.{Makes};
ghost use Rattle.cx_mon.specs.acceptor.Stages.{awaiting_ident};

use crate::links::{Link, Stage};
use crate::own::{KeyChange, Own};
use cx_base::NodeName;
use cx_control::{ClientIdent, IdentMissingFeatures, ServerIdent, SessionReconnect, SessionReset};
use cx_frame::Frame;
use cx_journal::{BytesFault, Reason};
use cx_link::{SecureLink, tag};
use cx_node::{Moment, NoRow, NodeRow, Row, goes_on_unchanged, payload, refuses, send_secure};
use cx_rules::Bearer;
use std::alloc::Global;

// A frame behind the peer's signature.
pub(crate) fn on_ident(
    alloc: Global,
    own: &Own,
    at: &Moment<'_>,
    link: SecureLink,
    bearer: Bearer,
    frame: &Frame,
) -> Result<NodeRow<Link, KeyChange>, NoRow>
    ensures { Makes own.now at.now (awaiting_ident at.now.number link bearer) (λ a. on_ident a (keys_alone link.keys) bearer frame.now) result }
{
    match frame.tag {
        tag::CLIENT_IDENT => {
            let read = payload::<ClientIdent>(alloc, frame)?;
            on_client_ident(alloc, own, at, link, bearer, read)
        }
        tag::SESSION_RECONNECT => {
            let read = payload::<SessionReconnect>(alloc, frame)?;
            on_session_reconnect(alloc, own, at, link, bearer, read)
        }
        tag => Err(NoRow::from(BytesFault::Unexpected(tag))),
    }
}

// The monitor answers with SERVER_IDENT, unless the client requires features.
pub(crate) fn on_client_ident(
    alloc: Global,
    own: &Own,
    at: &Moment<'_>,
    link: SecureLink,
    bearer: Bearer,
    read: Result<ClientIdent, BytesFault>,
) -> Result<NodeRow<Link, KeyChange>, NoRow>
    ensures { Makes own.now at.now (awaiting_ident at.now.number link bearer) (λ a. on_client_ident a (keys_alone link.keys) bearer read) result }
{
    let ident = read?;
    if ident.required == 0 {
        opens_to(alloc, own, at, link, bearer)
    } else {
        misses(alloc, own, at, link, bearer, ident.required)
    }
}

// SERVER_IDENT is sent: the monitor's sessions are lossy, and have no cookie. The link is open.
fn opens_to(
    alloc: Global,
    own: &Own,
    at: &Moment<'_>,
    link: SecureLink,
    bearer: Bearer,
) -> Result<NodeRow<Link, KeyChange>, NoRow>
    ensures { Makes own.now at.now (awaiting_ident at.now.number link bearer)
        (λ a. sends_secure a (keys_alone link.keys) (λ behind. Open behind bearer) [] (server_ident own.now.address 1 0)) result }
{
    let ident = ServerIdent {
        addr: own.address(),
        gid: 0,
        global_seq: 0,
        supported: 0,
        required: 0,
        flags: 1,
        cookie: 0,
    };
    let sent = send_secure(alloc, link, tag::SERVER_IDENT, &ident)??;
    let link = Link::new(alloc, at.number, Stage::Open(sent.link, bearer))?;
    Ok(goes_on_unchanged(alloc, link, sent.bytes, sent.seals))
}

// IDENT_MISSING_FEATURES is sent, and the link is shut.
fn misses(
    alloc: Global,
    own: &Own,
    at: &Moment<'_>,
    link: SecureLink,
    bearer: Bearer,
    features: u64,
) -> Result<NodeRow<Link, KeyChange>, NoRow>
    ensures { Makes own.now at.now (awaiting_ident at.now.number link bearer) (λ a. misses a (keys_alone link.keys) features) result }
{
    let sent = send_secure(
        alloc,
        link,
        tag::IDENT_MISSING_FEATURES,
        &IdentMissingFeatures { features },
    )??;
    let why = Reason::Bytes(BytesFault::Features(features));
    let refusal = refuses(alloc, &NodeName::Monitor, at.number, why, sent.seals)?;
    Ok(NodeRow::keeping(Row {
        sends: sent.bytes,
        ..refusal
    }))
}

// The monitor has no session to go on with: SESSION_RESET is sent, and CLIENT_IDENT is waited for.
pub(crate) fn on_session_reconnect(
    alloc: Global,
    own: &Own,
    at: &Moment<'_>,
    link: SecureLink,
    bearer: Bearer,
    read: Result<SessionReconnect, BytesFault>,
) -> Result<NodeRow<Link, KeyChange>, NoRow>
    ensures { Makes own.now at.now (awaiting_ident at.now.number link bearer) (λ a. on_session_reconnect a (keys_alone link.keys) bearer read) result }
{
    let _ = read?;
    let sent = send_secure(
        alloc,
        link,
        tag::SESSION_RESET,
        &SessionReset { full: true },
    )??;
    let link = Link::new(alloc, at.number, Stage::AwaitsIdent(sent.link, bearer))?;
    Ok(goes_on_unchanged(alloc, link, sent.bytes, sent.seals))
}
