//! Frames on an open link: KEEPALIVE2, KEEPALIVE2_ACK, acknowledgements, and answers to operations.

ghost use Rattle.std.specs.Prelude.{◌≡◌, [], Option, IfOk};
ghost use Rattle.cx_node.specs.cx_rules.specs.Rows.{secure_sent};
ghost use Rattle.cx_client_session.specs.cx_rules_session.specs.Presenter.{OperationEnd, Open, answered_entry, on_ack, on_answer, on_answer_or_ack};
ghost use Rattle.cx_client_session.specs.cx_rules_session.specs.Sessions.{HeldSession};
ghost use Rattle.cx_node.specs.steps.Stages.{keys_alone};
ghost use Rattle.cx_node.specs.steps.Upkeep.{upkept};
ghost use Rattle.cx_client_session.specs.cx_client_connect.specs.presenting.Rows.{MakesFor, caller};
ghost use Rattle.cx_client_session.specs.cx_client_connect.specs.presenting.Stages.{open_link};
ghost use Rattle.cx_client_session.specs.operations.Frames.{on_open};

use crate::{Callee, Change, Link, OperationEnd, SessionChange, Stage, end_in};
use cx_base::{Blob, Duplicate, Items};
use cx_control::Ack;
use cx_frame::Frame;
use cx_holdings::MonClient;
use cx_journal::{Answered, BytesFault, Entry};
use cx_link::{SecureLink, tag};
use cx_node::{Moment, NoRow, NodeRow, goes_on_unchanged, is_keepalive, payload, upkept};
use std::alloc::{AllocError, Global};

// A keepalive is answered as ever; any other frame has to be an acknowledgement or an answer.
pub(crate) fn on_open(
    alloc: Global,
    mon_client: &MonClient,
    at: &Moment<'_>,
    link: SecureLink,
    callee: Callee,
    cookie: u64,
    frame: &Frame,
) -> Result<NodeRow<Link, Change>, NoRow>
    ensures { (session : Option HeldSession) → MakesFor (caller mon_client.now session) at.now (open_link at.now.number link callee cookie)
        (λ a. on_open a (keys_alone link.keys) callee cookie frame.now) result }
{
    if is_keepalive(frame) {
        stays_open(alloc, mon_client, at, link, callee, cookie, frame)
    } else {
        on_answer_or_ack(alloc, mon_client, at, link, callee, cookie, frame)
    }
}

// What is sent behind a keepalive is sent, and the link stays open.
fn stays_open(
    alloc: Global,
    mon_client: &MonClient,
    at: &Moment<'_>,
    link: SecureLink,
    callee: Callee,
    cookie: u64,
    frame: &Frame,
) -> Result<NodeRow<Link, Change>, NoRow>
    ensures { (session : Option HeldSession) → MakesFor (caller mon_client.now session) at.now (open_link at.now.number link callee cookie)
        (λ a. secure_sent a (keys_alone link.keys) (λ behind. Open behind callee cookie) [] (upkept link.keys frame.now)) result }
{
    let sent = upkept(alloc, link, frame)??;
    let link = Link::new(alloc, at.number, Stage::Open(sent.link, callee, cookie))?;
    Ok(goes_on_unchanged(alloc, link, sent.bytes, sent.seals))
}

fn on_answer_or_ack(
    alloc: Global,
    mon_client: &MonClient,
    at: &Moment<'_>,
    link: SecureLink,
    callee: Callee,
    cookie: u64,
    frame: &Frame,
) -> Result<NodeRow<Link, Change>, NoRow>
    ensures { (session : Option HeldSession) → MakesFor (caller mon_client.now session) at.now (open_link at.now.number link callee cookie)
        (λ a. on_answer_or_ack a (keys_alone link.keys) callee cookie frame.now) result }
{
    if frame.tag == tag::ACK {
        let read = payload::<Ack>(alloc, frame)?;
        on_ack(alloc, mon_client, at, link, callee, cookie, read)
    } else {
        let read = end_in(alloc, frame)?;
        on_answer(alloc, mon_client, at, link, callee, cookie, read)
    }
}

// What was acknowledged doesn't wait any more.
fn on_ack(
    alloc: Global,
    mon_client: &MonClient,
    at: &Moment<'_>,
    link: SecureLink,
    callee: Callee,
    cookie: u64,
    read: Result<Ack, BytesFault>,
) -> Result<NodeRow<Link, Change>, NoRow>
    ensures { (session : Option HeldSession) → MakesFor (caller mon_client.now session) at.now (open_link at.now.number link callee cookie)
        (λ a. on_ack a (keys_alone link.keys) callee cookie read) result }
{
    let ack = read?;
    let link = Link::new(alloc, at.number, Stage::Open(link, callee, cookie))?;
    let row = cx_node::goes_on(alloc, link, Blob::new(alloc), Items::new(alloc));
    Ok(NodeRow {
        row,
        change: Some(Change::Session(SessionChange::Acknowledges(ack.seq))),
    })
}

// The answer is entered.
fn on_answer(
    alloc: Global,
    mon_client: &MonClient,
    at: &Moment<'_>,
    link: SecureLink,
    callee: Callee,
    cookie: u64,
    read: Result<OperationEnd, BytesFault>,
) -> Result<NodeRow<Link, Change>, NoRow>
    ensures { (session : Option HeldSession) → MakesFor (caller mon_client.now session) at.now (open_link at.now.number link callee cookie)
        (λ a. on_answer a (keys_alone link.keys) callee cookie read) result }
{
    let end = read?;
    let mut entries = Items::new(alloc);
    let entry = answered_entry(alloc, mon_client, &callee, cookie, &end)?;
    entries.push(alloc, entry)?;
    let link = Link::new(alloc, at.number, Stage::Open(link, callee, cookie))?;
    let mut row = cx_node::goes_on(alloc, link, Blob::new(alloc), Items::new(alloc));
    row.entries = entries;
    Ok(NodeRow::keeping(row))
}

fn answered_entry(
    alloc: Global,
    mon_client: &MonClient,
    callee: &Callee,
    cookie: u64,
    end: &OperationEnd,
) -> Result<Entry, AllocError>
    ensures { IfOk result (λ entry. entry ≡ answered_entry mon_client.now callee.now cookie end.now) }
{
    let client = mon_client.name().copy(alloc)?;
    let daemon = callee.daemon.copy(alloc)?;
    Ok(Entry::Answered(Answered {
        client,
        daemon,
        cookie,
        tid: end.tid,
        outcome: end.outcome,
    }))
}
