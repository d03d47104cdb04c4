//! SESSION_RECONNECT, and what a daemon says of it.

ghost use Rattle.std.specs.Prelude.{◌≡◌, ◌+◌, Option, Some, IfOk, Ok};
ghost use Rattle.std.specs.Option.{option_copied};
ghost use Rattle.cx_link.specs.Wires.{secured_link};
ghost use Rattle.cx_client_connect.specs.cx_rules_session.specs.Presenter.{CallStage, counting, on_reconnect_ok, on_reset, on_retry, on_retry_global, reconnects, retries, retries_global, taken_up, takes_up, while_reconnecting};
ghost use Rattle.cx_control.specs.Reconnects.{session_reconnect_layout};
ghost use Rattle.cx_node.specs.cx_rules.specs.Payloads.{control};
ghost use Rattle.cx_client_connect.specs.cx_rules_session.specs.Sessions.{HeldSession, session_reconnect};
ghost use Rattle.cx_client_connect.specs.session.Table as table;
ghost use Rattle.cx_node.specs.steps.Stages.{keys_alone};
ghost use Rattle.cx_client_connect.specs.presenting.Rows.{MakesFor, caller};
ghost use Rattle.cx_client_connect.specs.presenting.Stages.{awaiting_reconnect};
ghost use Rattle.cx_client_session.specs.calling.Sent.{IsRowAt};

use crate::frames::{Ahead, sent_row};
use crate::idents::resets;
use cx_base::{Blob, Items};
use cx_client_connect::{Callee, Change, HeldSession, Link, SessionChange, Stage, send_waiting};
use cx_control::{
    SessionReconnect, SessionReconnectOk, SessionReset, SessionRetry, SessionRetryGlobal,
};
use cx_frame::Frame;
use cx_holdings::MonClient;
use cx_journal::BytesFault;
use cx_link::{SecureLink, tag};
use cx_node::{Moment, NoRow, NodeRow, Row, goes_on_unchanged, payload, send_secure};
use cx_steps::SealEntry;
use std::alloc::{AllocError, Global};

/// No number follows this one.
const LAST: u64 = u64::MAX;

// SESSION_RECONNECT is sent for a session that was taken up so often, by a client that has so many connections.
fn reconnects(
    alloc: Global,
    mon_client: &MonClient,
    at: &Moment<'_>,
    link: SecureLink,
    callee: Callee,
    before: Items<SealEntry>,
    session: &HeldSession,
    connect_seq: u64,
    global_seq: u64,
) -> Result<Row<Link>, AllocError>
    ensures { (stage : CallStage)
        → IfOk result (IsRowAt (caller (record mon_client.now { global_seq = global_seq }) (Some (table.taken_up connect_seq session.now))) at.now (secured_link at.now.number link.ahead stage)
        (λ a. reconnects a (keys_alone link.keys) callee before (table.taken_up connect_seq session.now))) }
{
    let cookie = session.client_cookie();
    let reconnect = session_reconnect(mon_client, global_seq, session, connect_seq);
    let made = send_secure(alloc, link, tag::SESSION_RECONNECT, &reconnect)?;
    let row = sent_row(
        alloc,
        mon_client,
        at,
        Ahead::Reconnect,
        callee,
        cookie,
        before,
        made,
    )?;
    Ok(row)
}

// The payload of SESSION_RECONNECT for a session that was taken up so often, by a client that has so many connections.
fn session_reconnect(
    mon_client: &MonClient,
    global_seq: u64,
    session: &HeldSession,
    connect_seq: u64,
) -> SessionReconnect
    ensures { control 11 session_reconnect_layout.form result ≡ session_reconnect (record mon_client.now { global_seq = global_seq }) (table.taken_up connect_seq session.now) }
{
    SessionReconnect {
        addr: mon_client.address(),
        client_cookie: session.client_cookie(),
        server_cookie: session.server_cookie(),
        global_seq,
        connect_seq,
        msg_seq: 0,
    }
}

// The session is taken up again, and was so often from now on.
fn reconnects_after(
    alloc: Global,
    mon_client: &MonClient,
    global_seq: u64,
    at: &Moment<'_>,
    link: SecureLink,
    callee: Callee,
    before: Items<SealEntry>,
    session: &HeldSession,
    connect_seq: u64,
) -> Result<NodeRow<Link, Change>, AllocError>
    requires { global_seq ≡ mon_client.now.global_seq }
    ensures { (stage : CallStage)
        → IfOk result (λ row. MakesFor (caller mon_client.now (Some session.now)) at.now (secured_link at.now.number link.ahead stage)
        (λ a. reconnects a (keys_alone link.keys) callee before (table.taken_up connect_seq session.now)) (Ok row)) }
{
    let row = reconnects(
        alloc,
        mon_client,
        at,
        link,
        callee,
        before,
        session,
        connect_seq,
        global_seq,
    )?;
    Ok(NodeRow {
        row,
        change: Some(Change::Session(SessionChange::TakesUp(connect_seq))),
    })
}

// A session that is held is taken up again, once more than before; behind the last time it is as if it was reset.
pub(crate) fn takes_up(
    alloc: Global,
    mon_client: &MonClient,
    global_seq: u64,
    at: &Moment<'_>,
    link: SecureLink,
    callee: Callee,
    before: Items<SealEntry>,
    session: &HeldSession,
) -> Result<NodeRow<Link, Change>, AllocError>
    requires { global_seq ≡ mon_client.now.global_seq }
    ensures { (stage : CallStage)
        → IfOk result (λ row. MakesFor (caller mon_client.now (Some session.now)) at.now (secured_link at.now.number link.ahead stage)
        (λ a. takes_up a (keys_alone link.keys) callee before session.now) (Ok row)) }
{
    let count = session.connect_seq();
    if count == LAST {
        resets(alloc, mon_client, at, link, callee, before)
    } else {
        reconnects_after(
            alloc,
            mon_client,
            global_seq,
            at,
            link,
            callee,
            before,
            session,
            count + 1,
        )
    }
}

// A frame behind SESSION_RECONNECT.
pub(crate) fn while_reconnecting(
    alloc: Global,
    mon_client: &MonClient,
    global_seq: u64,
    session: Option<&HeldSession>,
    at: &Moment<'_>,
    link: SecureLink,
    callee: Callee,
    cookie: u64,
    frame: &Frame,
) -> Result<NodeRow<Link, Change>, NoRow>
    requires { global_seq ≡ mon_client.now.global_seq }
    ensures { MakesFor (caller mon_client.now (option_copied session.entry)) at.now (awaiting_reconnect at.now.number link callee cookie)
        (λ a. while_reconnecting a (keys_alone link.keys) callee cookie frame.now) result }
{
    if frame.tag == tag::SESSION_RECONNECT_OK {
        let read = payload::<SessionReconnectOk>(alloc, frame)?;
        on_reconnect_ok(alloc, mon_client, session, at, link, callee, cookie, read)
    } else if frame.tag == tag::SESSION_RESET {
        let read = payload::<SessionReset>(alloc, frame)?;
        on_reset(alloc, mon_client, at, link, callee, read)
    } else if frame.tag == tag::SESSION_RETRY {
        let read = payload::<SessionRetry>(alloc, frame)?;
        on_retry(
            alloc, mon_client, global_seq, session, at, link, callee, read,
        )
    } else if frame.tag == tag::SESSION_RETRY_GLOBAL {
        let read = payload::<SessionRetryGlobal>(alloc, frame)?;
        on_retry_global(alloc, mon_client, session, at, link, callee, read)
    } else {
        Err(NoRow::from(BytesFault::Unexpected(frame.tag)))
    }
}

// What the daemon took doesn't wait any more, the rest is sent again in order, in one piece, and the link is open.
fn on_reconnect_ok(
    alloc: Global,
    mon_client: &MonClient,
    session: Option<&HeldSession>,
    at: &Moment<'_>,
    link: SecureLink,
    callee: Callee,
    cookie: u64,
    read: Result<SessionReconnectOk, BytesFault>,
) -> Result<NodeRow<Link, Change>, NoRow>
    ensures { (stage : CallStage) → MakesFor (caller mon_client.now (option_copied session.entry)) at.now (secured_link at.now.number link.ahead stage)
        (λ a. on_reconnect_ok a (keys_alone link.keys) callee cookie read) result }
{
    let ok = read?;
    match session {
        Some(session) => {
            let row = goes_on_in(alloc, mon_client, at, link, callee, cookie, session, ok.seq)?;
            Ok(row)
        }
        None => {
            let link = Link::new(alloc, at.number, Stage::Open(link, callee, cookie))?;
            Ok(goes_on_unchanged(alloc, link, Blob::new(alloc), Items::new(alloc)))
        }
    }
}

fn goes_on_in(
    alloc: Global,
    mon_client: &MonClient,
    at: &Moment<'_>,
    link: SecureLink,
    callee: Callee,
    cookie: u64,
    session: &HeldSession,
    last: u64,
) -> Result<NodeRow<Link, Change>, AllocError>
    ensures { (stage : CallStage) → IfOk result (λ row. MakesFor (caller mon_client.now (Some session.now)) at.now (secured_link at.now.number link.ahead stage)
        (λ a. taken_up a (keys_alone link.keys) callee cookie last (Some session.now)) (Ok row)) }
{
    let made = send_waiting(alloc, link, session, last)?;
    let row = sent_row(
        alloc,
        mon_client,
        at,
        Ahead::Open,
        callee,
        cookie,
        Items::new(alloc),
        made,
    )?;
    Ok(NodeRow {
        row,
        change: Some(Change::Session(SessionChange::Acknowledges(last))),
    })
}

fn on_reset(
    alloc: Global,
    mon_client: &MonClient,
    at: &Moment<'_>,
    link: SecureLink,
    callee: Callee,
    read: Result<SessionReset, BytesFault>,
) -> Result<NodeRow<Link, Change>, NoRow>
    ensures { (session : Option HeldSession) (stage : CallStage) → MakesFor (caller mon_client.now session) at.now (secured_link at.now.number link.ahead stage)
        (λ a. on_reset a (keys_alone link.keys) callee read) result }
{
    let _ = read?;
    let row = resets(alloc, mon_client, at, link, callee, Items::new(alloc))?;
    Ok(row)
}

// The session is taken up as if it had been so often as the daemon says, and once more.
fn on_retry(
    alloc: Global,
    mon_client: &MonClient,
    global_seq: u64,
    session: Option<&HeldSession>,
    at: &Moment<'_>,
    link: SecureLink,
    callee: Callee,
    read: Result<SessionRetry, BytesFault>,
) -> Result<NodeRow<Link, Change>, NoRow>
    requires { global_seq ≡ mon_client.now.global_seq }
    ensures { (stage : CallStage) → MakesFor (caller mon_client.now (option_copied session.entry)) at.now (secured_link at.now.number link.ahead stage)
        (λ a. on_retry a (keys_alone link.keys) callee read) result }
{
    let retry = read?;
    let row = retries(
        alloc,
        mon_client,
        global_seq,
        session,
        at,
        link,
        callee,
        retry.connect_seq,
    )?;
    Ok(row)
}

fn retries(
    alloc: Global,
    mon_client: &MonClient,
    global_seq: u64,
    session: Option<&HeldSession>,
    at: &Moment<'_>,
    link: SecureLink,
    callee: Callee,
    kept: u64,
) -> Result<NodeRow<Link, Change>, AllocError>
    requires { global_seq ≡ mon_client.now.global_seq }
    ensures { (stage : CallStage) → IfOk result (λ row. MakesFor (caller mon_client.now (option_copied session.entry)) at.now (secured_link at.now.number link.ahead stage)
        (λ a. retries a (keys_alone link.keys) callee kept (option_copied session.entry)) (Ok row)) }
{
    let before = Items::new(alloc);
    match session {
        Some(session) => {
            if kept == LAST {
                resets(alloc, mon_client, at, link, callee, before)
            } else {
                let again = kept + 1;
                reconnects_after(
                    alloc, mon_client, global_seq, at, link, callee, before, session, again,
                )
            }
        }
        None => resets(alloc, mon_client, at, link, callee, before),
    }
}

// The same with the client's count of connections.
fn on_retry_global(
    alloc: Global,
    mon_client: &MonClient,
    session: Option<&HeldSession>,
    at: &Moment<'_>,
    link: SecureLink,
    callee: Callee,
    read: Result<SessionRetryGlobal, BytesFault>,
) -> Result<NodeRow<Link, Change>, NoRow>
    ensures { (stage : CallStage) → MakesFor (caller mon_client.now (option_copied session.entry)) at.now (secured_link at.now.number link.ahead stage)
        (λ a. on_retry_global a (keys_alone link.keys) callee read) result }
{
    let retry = read?;
    let row = retries_global(
        alloc,
        mon_client,
        session,
        at,
        link,
        callee,
        retry.global_seq,
    )?;
    Ok(row)
}

fn retries_global(
    alloc: Global,
    mon_client: &MonClient,
    session: Option<&HeldSession>,
    at: &Moment<'_>,
    link: SecureLink,
    callee: Callee,
    kept: u64,
) -> Result<NodeRow<Link, Change>, AllocError>
    ensures { (stage : CallStage) → IfOk result (λ row. MakesFor (caller mon_client.now (option_copied session.entry)) at.now (secured_link at.now.number link.ahead stage)
        (λ a. retries_global a (keys_alone link.keys) callee kept (option_copied session.entry)) (Ok row)) }
{
    let before = Items::new(alloc);
    match session {
        Some(session) => {
            if kept == LAST {
                resets(alloc, mon_client, at, link, callee, before)
            } else {
                counts(
                    alloc,
                    mon_client,
                    at,
                    link,
                    callee,
                    before,
                    session,
                    kept + 1,
                )
            }
        }
        None => resets(alloc, mon_client, at, link, callee, before),
    }
}

// The session is taken up again by a client that has so many connections from now on.
fn counts(
    alloc: Global,
    mon_client: &MonClient,
    at: &Moment<'_>,
    link: SecureLink,
    callee: Callee,
    before: Items<SealEntry>,
    session: &HeldSession,
    count: u64,
) -> Result<NodeRow<Link, Change>, AllocError>
    ensures { (stage : CallStage)
        → IfOk result (λ row. MakesFor (caller mon_client.now (Some session.now)) at.now (secured_link at.now.number link.ahead stage)
        (λ a. reconnects (counting a count) (keys_alone link.keys) callee before session.now) (Ok row)) }
{
    let connect_seq = session.connect_seq();
    let row = reconnects(
        alloc,
        mon_client,
        at,
        link,
        callee,
        before,
        session,
        connect_seq,
        count,
    )?;
    Ok(NodeRow {
        row,
        change: Some(Change::Counts(count)),
    })
}
