//! Send: an operation in the session with a daemon.

ghost use Rattle.std.specs.Prelude.{◌≡◌, [], ◌∷◌, Some, None, true, false, IfOk, IfSome, OnErr};
ghost use Rattle.std.specs.Option.{option_map};
ghost use Rattle.cx_node.specs.Tables.{behind, with_number};
ghost use Rattle.cx_client_session.specs.cx_rules_session.specs.ClientRule as rule;
ghost use Rattle.cx_client_session.specs.cx_rules_session.specs.Presenter.{is_open};
ghost use Rattle.cx_client_session.specs.cx_rules_session.specs.Sessions.{session_with};
ghost use Rattle.cx_steps.specs.Nothing.{nothing};
ghost use Rattle.cx_node.specs.steps.Steps.{node_of};
ghost use Rattle.cx_node.specs.steps.Turns.{IsCarried};
ghost use Rattle.cx_client_session.specs.cx_wire.specs.Operations.{IsWritable};
ghost use Rattle.cx_client_events.specs.Machine.{AreHeld, IsStep};
ghost use Rattle.cx_client_events.specs.linking.Kinds.{ClientLink};
ghost use Rattle.cx_client.specs.calls.Ahead.{IsAheadAt, IsStanding, link_ahead, row_on};
ghost use Rattle.cx_client.specs.calls.Sending.{IsSentRow, numbered, with_pushed};

use cx_base::{Duplicate, EntityName, Items, Operation, Reading};
use cx_client_events::{CallLink, HeldSession, Kind, Link, Own, first_call, refuses};
use cx_client_session::go_on;
use cx_dice::Draw;
use cx_journal::{Entry, Reason, Sent};
use cx_node::{Carried, Links, Moment, Numbered, Row, SealedAhead, carried_out, enters};
use cx_session::QueueFault;
use cx_steps::Effects;
use std::alloc::{AllocError, Global};

/// An operation waits in the session with this daemon until it is acknowledged, and is sent where a link is open; else with the next one that is. Where
/// memory is wanting, it doesn't wait, and all is as before.
pub fn sends(
    alloc: Global,
    own: &mut Own,
    links: &mut Links<Link>,
    daemon: &EntityName,
    operation: Operation,
    now: Reading,
    draw: &Draw,
) -> Result<Effects, AllocError>
    requires writable { IsWritable operation }
    requires room { links.old.room ≡ None }
    requires held { AreHeld links.old.links }
    ensures step { IfOk result (IsStep (node_of own.new.client links.new.links) (rule.sends (node_of own.old.client links.old.links) daemon.now operation now draw.now.bytes)) }
    ensures err { OnErr result (node_of own.new.client links.new.links ≡ node_of own.old.client links.old.links) }
    ensures room { links.new.room ≡ None }
    ensures held { AreHeld links.new.links }
{
    match numbered(alloc, own, daemon, &operation)? {
        Err(why) => refuses(alloc, own, why),
        Ok((number, sent)) => {
            pushes(
                alloc, own, links, daemon, operation, number, sent, now, draw,
            )
        }
    }
}

// ---- the number of an operation

// The number under which an operation would wait in the session with this daemon, with that it was sent, or why it can't wait.
fn numbered(
    alloc: Global,
    own: &Own,
    daemon: &EntityName,
    operation: &Operation,
) -> Result<Result<(u64, Entry), Reason>, AllocError>
    ensures { IfOk result (λ taken. taken ≡ numbered own.now.client operation.now (session_with daemon.now own.now.client.sessions)) }
{
    match own.session_with(daemon) {
        None => Ok(Err(Reason::NoSession)),
        Some(session) => numbered_in(alloc, own, session, operation),
    }
}

fn numbered_in(
    alloc: Global,
    own: &Own,
    session: &HeldSession,
    operation: &Operation,
) -> Result<Result<(u64, Entry), Reason>, AllocError>
    ensures { IfOk result (λ taken. taken ≡ numbered own.now.client operation.now (Some session.now)) }
{
    match session.push_reply() {
        Err(why) => Ok(Err(queue_reason(why))),
        Ok(number) => {
            let sent = sent_entry(alloc, own, session, number, operation)?;
            Ok(Ok((number, sent)))
        }
    }
}

// Why an operation can't wait.
fn queue_reason(why: QueueFault) -> Reason
    ensures { result ≡ rule.queue_reason why }
{
    match why {
        QueueFault::QueueFull { .. } => Reason::QueueFull,
        QueueFault::Spent => Reason::Spent,
        QueueFault::OutOfMemory => Reason::Spent,
    }
}

// That it was sent is entered.
fn sent_entry(
    alloc: Global,
    own: &Own,
    session: &HeldSession,
    number: u64,
    operation: &Operation,
) -> Result<Entry, AllocError>
    ensures { IfOk result (λ entry. entry ≡ rule.sent_entry own.now.client session.now number operation.now) }
{
    let mon_client = own.mon_client();
    let client = mon_client.name().copy(alloc)?;
    let daemon = session.daemon().copy(alloc)?;
    let operation = operation.copy(alloc)?;
    Ok(Entry::Sent(Sent {
        client,
        daemon,
        cookie: session.client_cookie(),
        seq: number,
        operation,
    }))
}

// ---- it waits, and is sent

// An operation that was numbered is entered, and is sent where a link is open. It waits last of all, so that where memory is wanting it doesn't.
fn pushes(
    alloc: Global,
    own: &mut Own,
    links: &mut Links<Link>,
    daemon: &EntityName,
    operation: Operation,
    number: u64,
    sent: Entry,
    now: Reading,
    draw: &Draw,
) -> Result<Effects, AllocError>
    requires writable { IsWritable operation }
    requires room { links.old.room ≡ None }
    requires held { AreHeld links.old.links }
    ensures step { IfOk result (IsStep (node_of own.new.client links.new.links)
        (rule.sends_on (node_of (with_pushed daemon.now operation own.old.client) links.old.links) sent (number, operation) now draw.now.bytes
        (rule.first_call daemon.now links.old.links))) }
    ensures err { OnErr result (node_of own.new.client links.new.links ≡ node_of own.old.client links.old.links) }
    ensures room { links.new.room ≡ None }
    ensures held { AreHeld links.new.links }
{
    let Some(link) = first_call(links, daemon) else {
        return waits(alloc, own, daemon, operation, sent);
    };
    let at = Moment {
        number: link.number(),
        reading: now,
        draw,
    };
    let row = sent_row(alloc, own, &at, link, number, &operation, sent)?;
    goes_out(alloc, own, links, at.number, row, daemon, operation)
}

// No link is open: it waits for the next one.
fn waits(
    alloc: Global,
    own: &mut Own,
    daemon: &EntityName,
    operation: Operation,
    sent: Entry,
) -> Result<Effects, AllocError>
    requires { IsWritable operation }
    ensures out { IfOk result (λ out. out ≡ record nothing { entries = sent ∷ [] }) }
    ensures own { IfOk result (λ _. own.new.client ≡ with_pushed daemon.now operation own.old.client) }
    ensures err { OnErr result (own.new.client ≡ own.old.client) }
{
    let out = enters(alloc, sent)?;
    own.push(alloc, daemon, operation)?;
    Ok(out)
}

// The row by which it is sent on a link that is open, behind what is entered first: by what that goes on by behind the message, which is sealed ahead on it.
fn sent_row(
    alloc: Global,
    own: &Own,
    at: &Moment<'_>,
    link: &CallLink,
    number: u64,
    operation: &Operation,
    sent: Entry,
) -> Result<Row<SealedAhead>, AllocError>
    requires number { link.now.number ≡ at.now.number }
    requires open { is_open link.now.stage ≡ true }
    requires writable { IsWritable operation.now }
    ensures { IfOk result (IsSentRow own.now.client at.now.reading at.now.draw.now.bytes sent (number, operation.now) link.now) }
{
    let row = cx_client_session::sends(alloc, own.mon_client(), at, link, number, operation)?;
    enters_first(alloc, sent, row)
}

fn enters_first<L: Drop>(alloc: Global, first: Entry, row: Row<L>) -> Result<Row<L>, AllocError>
    ensures { IfOk result (λ behind. behind ≡ record row { entries = first ∷ row.entries }) }
{
    let mut row = row;
    let mut entries = Items::new(alloc);
    entries.push(alloc, first)?;
    entries.append(alloc, row.entries)?;
    row.entries = entries;
    Ok(row)
}

// The row is carried out, and the operation waits: then the link goes on behind the message that was sealed ahead on it, or is shut, for which no memory is
// wanted.
fn goes_out(
    alloc: Global,
    own: &mut Own,
    links: &mut Links<Link>,
    number: u32,
    row: Row<SealedAhead>,
    daemon: &EntityName,
    operation: Operation,
) -> Result<Effects, AllocError>
    requires writable { IsWritable operation }
    requires room { links.old.room ≡ None }
    requires ahead { IfSome row.link (IsStanding number links.old.links) }
    ensures carried { (link : ClientLink) → with_number (λ l. l.number) number links.old.links ≡ Some link
        → IfOk result (IsCarried (λ l. l.number) number false (row_on link row) links.old.links links.new.links) }
    ensures own { IfOk result (λ _. own.new.client ≡ with_pushed daemon.now operation own.old.client) }
    ensures err { OnErr result (own.new.client ≡ own.old.client) }
    ensures links { OnErr result (links.new ≡ links.old) }
    ensures room { links.new.room ≡ None }
{
    let Carried { link, out } = carried_out(alloc, number, false, row)?;
    own.push(alloc, daemon, operation)?;
    goes_on(links, number, link);
    Ok(out)
}

// The link of this number goes on behind what was sealed ahead on it, or is shut. It wants no memory.
fn goes_on(links: &mut Links<Link>, number: u32, ahead: Option<SealedAhead>)
    requires room { links.old.room ≡ None }
    requires ahead { IfSome ahead (IsStanding number links.old.links) }
    ensures links { (link : ClientLink) → with_number (λ l. l.number) number links.old.links ≡ Some link
        → links.new.links ≡ behind (λ l. l.number) number (option_map (link_ahead link) ahead) links.old.links }
    ensures room { links.new.room ≡ None }
{
    let Some(ahead) = ahead else {
        links.remove(number);
        return;
    };
    match links.take(number) {
        Some(link) => links.settle(number, Some(behind_sealed(link, ahead))),
        None => unreachable!(),
    }
}

// A link to a daemon behind the message that was sealed ahead on it.
fn behind_sealed(link: Link, ahead: SealedAhead) -> Link
    requires { IsAheadAt link.stage ahead }
    ensures { result ≡ link_ahead link ahead }
{
    match link.kind {
        Kind::Daemon(call) => {
            let mut call = call;
            go_on(call.as_mut(), ahead);
            Link {
                kind: Kind::Daemon(call),
            }
        }
        Kind::Monitor(_) => unreachable!(),
    }
}
