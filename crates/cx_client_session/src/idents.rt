//! CLIENT_IDENT, SERVER_IDENT and IDENT_MISSING_FEATURES.

ghost use Rattle.std.specs.Prelude.{ℕ, ◌≡◌, List, Option, IfOk, Ok};
ghost use Rattle.cx_link.specs.Wires.{secured_link};
ghost use Rattle.cx_client_connect.specs.cx_rules_session.specs.Lossy.{lossy_flags};
ghost use Rattle.cx_client_connect.specs.cx_rules_session.specs.Presenter.{CallStage, identifies, on_missing_features, on_server_ident, resets, while_identified};
ghost use Rattle.cx_client_connect.specs.cx_rules_session.specs.Sessions.{HeldSession};
ghost use Rattle.cx_node.specs.steps.Stages.{keys_alone};
ghost use Rattle.cx_client_connect.specs.presenting.Rows.{MakesFor, caller};
ghost use Rattle.cx_client_connect.specs.presenting.Stages.{awaiting_ident};
ghost use Rattle.cx_client_session.specs.calling.Sent.{IsRowAt};

use crate::frames::{Ahead, sent_row};
use cx_base::{Blob, Items};
use cx_client_connect::{Callee, Change, HeldSession, Link, SessionChange, Stage, held_gid};
use cx_control::{IdentMissingFeatures, ServerIdent};
use cx_frame::Frame;
use cx_holdings::MonClient;
use cx_journal::{BytesFault, Reason};
use cx_link::{SecureLink, tag};
use cx_node::{
    Moment, NoRow, NodeRow, Row, due, entered_before, payload, refused_entry, send_secure,
};
use cx_steps::{DrawMark, SealEntry};
use std::alloc::{AllocError, Global};

// CLIENT_IDENT is sent with a drawn cookie, whatever session the client has.
pub(crate) fn identifies(
    alloc: Global,
    mon_client: &MonClient,
    at: &Moment<'_>,
    link: SecureLink,
    callee: Callee,
    before: Items<SealEntry>,
) -> Result<Row<Link>, AllocError>
    ensures { (session : Option HeldSession) (stage : CallStage)
        → IfOk result (IsRowAt (caller mon_client.now session) at.now (secured_link at.now.number link.ahead stage) (λ a. identifies a (keys_alone link.keys) callee before)) }
{
    let cookie = at.draw.cookie();
    let mut drawn = before;
    drawn.push(alloc, SealEntry::Drawn(DrawMark::Cookie(cookie)))?;
    let ident = mon_client.client_ident(held_gid(mon_client), lossy_flags(callee.lossy), cookie);
    let made = send_secure(alloc, link, tag::CLIENT_IDENT, &ident)?;
    let row = sent_row(
        alloc,
        mon_client,
        at,
        Ahead::Ident,
        callee,
        cookie,
        drawn,
        made,
    )?;
    Ok(row)
}

fn lossy_flags(lossy: bool) -> u64
    ensures { result ≡ lossy_flags lossy }
{
    if lossy { 1 } else { 0 }
}

// The session and what waits in it are forgotten, which is entered, and another one is asked for.
pub(crate) fn resets(
    alloc: Global,
    mon_client: &MonClient,
    at: &Moment<'_>,
    link: SecureLink,
    callee: Callee,
    before: Items<SealEntry>,
) -> Result<NodeRow<Link, Change>, AllocError>
    ensures { (session : Option HeldSession) (stage : CallStage)
        → IfOk result (λ row. MakesFor (caller mon_client.now session) at.now (secured_link at.now.number link.ahead stage) (λ a. resets a (keys_alone link.keys) callee before) (Ok row)) }
{
    let row = identifies(alloc, mon_client, at, link, callee, before)?;
    let me = mon_client.node_name(alloc)?;
    let first = refused_entry(alloc, &me, at.number, Reason::Reset)?;
    let forgetting = NodeRow {
        row,
        change: Some(Change::Session(SessionChange::Forgets)),
    };
    let entered = entered_before(alloc, first, forgetting)?;
    Ok(entered)
}

// A frame behind CLIENT_IDENT.
pub(crate) fn while_identified(
    alloc: Global,
    mon_client: &MonClient,
    at: &Moment<'_>,
    link: SecureLink,
    callee: Callee,
    cookie: u64,
    frame: &Frame,
) -> Result<NodeRow<Link, Change>, NoRow>
    ensures { (session : Option HeldSession)
        → MakesFor (caller mon_client.now session) at.now (awaiting_ident at.now.number link callee cookie) (λ a. while_identified a (keys_alone link.keys) callee cookie frame.now) result }
{
    if frame.tag == tag::IDENT_MISSING_FEATURES {
        let read = payload::<IdentMissingFeatures>(alloc, frame)?;
        on_missing_features(mon_client, at, read)
    } else {
        let read = due::<ServerIdent>(alloc, tag::SERVER_IDENT, frame)?;
        on_server_ident(alloc, mon_client, at, link, callee, cookie, read)
    }
}

// The daemon requires features that aren't there.
fn on_missing_features(
    mon_client: &MonClient,
    at: &Moment<'_>,
    read: Result<IdentMissingFeatures, BytesFault>,
) -> Result<NodeRow<Link, Change>, NoRow>
    ensures { (session : Option HeldSession) (ahead : List ℕ) (stage : CallStage)
        → MakesFor (caller mon_client.now session) at.now (secured_link at.now.number ahead stage) (λ a. on_missing_features a read) result }
{
    let missing = read?;
    Err(NoRow::from(BytesFault::Features(missing.features)))
}

// The session is held with both cookies, and the link is open; nothing waits in it yet.
fn on_server_ident(
    alloc: Global,
    mon_client: &MonClient,
    at: &Moment<'_>,
    link: SecureLink,
    callee: Callee,
    cookie: u64,
    read: Result<ServerIdent, BytesFault>,
) -> Result<NodeRow<Link, Change>, NoRow>
    ensures { (session : Option HeldSession)
        → MakesFor (caller mon_client.now session) at.now (awaiting_ident at.now.number link callee cookie) (λ a. on_server_ident a (keys_alone link.keys) callee cookie read) result }
{
    let ident = read?;
    let session = HeldSession::new(alloc, &callee, cookie, ident.cookie)?;
    let link = Link::new(alloc, at.number, Stage::Open(link, callee, cookie))?;
    let row = cx_node::goes_on(alloc, link, Blob::new(alloc), Items::new(alloc));
    Ok(NodeRow {
        row,
        change: Some(Change::Session(SessionChange::Opens(session))),
    })
}
