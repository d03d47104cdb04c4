//! A turn of a link of a client.

ghost use Rattle.std.specs.Prelude.{◌≡◌, ◌<◌, List, None, Some, IfOk, OnOk, OnErr};
ghost use Rattle.cx_node.specs.Tables.{with_number, without};
ghost use Rattle.cx_node.specs.cx_rules.specs.Links.{link_of, without_link};
ghost use Rattle.cx_client_session.specs.cx_rules_session.specs.ClientRule as rule;
ghost use Rattle.cx_client_session.specs.cx_rules_session.specs.ClientRule.{ToDaemon, ToMonitor, me};
ghost use Rattle.cx_client_session.specs.cx_rules_session.specs.Kinds.{of_kind};
ghost use Rattle.cx_node.specs.steps.Making.{own_behind};
ghost use Rattle.cx_node.specs.steps.Steps.{node_of};
ghost use Rattle.cx_node.specs.steps.Turns.{HasNumber, IsSettled, IsTurned, Turning};
ghost use Rattle.cx_client_events.specs.linking.Kinds.{ClientLink};
ghost use Rattle.cx_client_events.specs.Machine.{AreHeld, IsStep};
ghost use Rattle.cx_client_events.specs.Turns.{IsClientTurn, with_change};

use cx_base::Duplicate;
use cx_client_events::{
    CallLink, Change, Kind, Link, MonitorLink, Own, came_of_daemon, came_of_monitor, monitor_turned,
};
use cx_client_session as operations;
use cx_node::{Came, Links, Moment, NodeRow, carries, refuses_bytes};
use cx_steps::Effects;
use std::alloc::{AllocError, Global};

/// One banner or frame of what came on a link is handled, if it lives.
pub fn turn_link(
    alloc: Global,
    own: &mut Own,
    links: &mut Links<Link>,
    at: &Moment<'_>,
) -> Result<Effects, AllocError>
    requires room { links.old.room ≡ None }
    requires held { AreHeld links.old.links }
    ensures step { IfOk result (IsStep (node_of own.new.client links.new.links)
        (rule.turn (node_of own.old.client links.old.links) at.now.reading at.now.draw.now.bytes (link_of at.now.number links.old.links))) }
    ensures own { OnErr result (own.new.client ≡ own.old.client) }
    ensures lost { OnErr result (links.new.links ≡ without_link at.now.number links.old.links) }
    ensures room { links.new.room ≡ None }
    ensures held { AreHeld links.new.links }
{
    turn_link_inner(alloc, own, links, at)
}

fn turn_link_inner(
    alloc: Global,
    own: &mut Own,
    links: &mut Links<Link>,
    at: &Moment<'_>,
) -> Result<Effects, AllocError>
    requires { links.old.room ≡ None }
    ensures turned { IfOk result (λ out. Turning (λ link. link.number) with_change (me own.old.client) at.now.number
        (IsClientTurn own.old.client at.now.reading at.now.draw.now.bytes) (record { own = own.old.client; links = links.old.links })
        (record { own = own.new.client; links = links.new.links }) out (with_number (λ link. link.number) at.now.number links.old.links)) }
    ensures own { OnErr result (own.new.client ≡ own.old.client) }
    ensures lost { OnErr result (links.new.links ≡ without_link at.now.number links.old.links) }
    ensures room { links.new.room ≡ None }
{
    let Some(link) = links.take(at.number) else {
        return Ok(Effects::new(alloc));
    };
    match takes_turn(alloc, own, links, at, link) {
        Ok(out) => Ok(out),
        Err(error) => {
            links.give_up();
            Err(error)
        }
    }
}

// The link that was taken out of all is turned, and settled. Memory for a session that is opened is made ready first.
fn takes_turn(
    alloc: Global,
    own: &mut Own,
    links: &mut Links<Link>,
    at: &Moment<'_>,
    link: Link,
) -> Result<Effects, AllocError>
    requires number { link.number ≡ at.now.number }
    requires room { links.old.room ≡ Some at.now.number }
    ensures turned { (all : List ClientLink) → links.old.links ≡ without (λ link. link.number) at.now.number all → IfOk result (λ out.
        IsTurned (λ link. link.number) with_change (me own.old.client) at.now.number (IsClientTurn own.old.client at.now.reading at.now.draw.now.bytes link)
        (record { own = own.old.client; links = all }) (record { own = own.new.client; links = links.new.links }) out) }
    ensures own { OnErr result (own.new.client ≡ own.old.client) }
    ensures err { OnErr result (links.new ≡ links.old) }
    ensures room { OnOk result (links.new.room ≡ None) }
{
    own.reserve(alloc)?;
    let came = by_kind(alloc, own, at, link)?;
    settles(alloc, own, links, at.number, came)
}

// ---- by the kind of the link

fn by_kind(
    alloc: Global,
    own: &Own,
    at: &Moment<'_>,
    link: Link,
) -> Result<Came<Link, Change>, AllocError>
    requires { link.number ≡ at.now.number }
    ensures come { IfOk result (IsClientTurn own.now.client at.now.reading at.now.draw.now.bytes link) }
    ensures number { IfOk result (HasNumber (λ link. link.number) at.now.number) }
{
    match link.kind {
        Kind::Monitor(link) => monitor_turn(alloc, own, at, link),
        Kind::Daemon(link) => daemon_turn(alloc, own, at, Box::into_inner(link)),
    }
}

// A turn of a link to the monitor.
#[tactic(auto, using(crate::proofs::calls::ByKind::monitor_come, crate::proofs::calls::ByKind::monitor_number))]
fn monitor_turn(
    alloc: Global,
    own: &Own,
    at: &Moment<'_>,
    link: MonitorLink,
) -> Result<Came<Link, Change>, AllocError>
    requires { link.number ≡ at.now.number }
    ensures come { IfOk result (IsClientTurn own.now.client at.now.reading at.now.draw.now.bytes (of_kind ToMonitor link)) }
    ensures number { IfOk result (HasNumber (λ link. link.number) at.now.number) }
{
    let came = monitor_turned(alloc, own.mon_client(), at, link)?;
    Ok(came_of_monitor(came))
}

// A turn of a link to a daemon, by the session with it.
#[tactic(auto, using(crate::proofs::calls::ByKind::daemon_come, crate::proofs::calls::ByKind::daemon_number))]
fn daemon_turn(
    alloc: Global,
    own: &Own,
    at: &Moment<'_>,
    link: CallLink,
) -> Result<Came<Link, Change>, AllocError>
    requires { link.number ≡ at.now.number }
    ensures come { IfOk result (IsClientTurn own.now.client at.now.reading at.now.draw.now.bytes (of_kind ToDaemon link)) }
    ensures number { IfOk result (HasNumber (λ link. link.number) at.now.number) }
{
    let daemon = link.callee().daemon.copy(alloc)?;
    let mon_client = own.mon_client();
    let count = mon_client.global_seq();
    let made = operations::turned(
        alloc,
        mon_client,
        count,
        own.session_with(&daemon),
        at,
        link,
    )?;
    let came = came_of_daemon(alloc, daemon, made)?;
    Ok(came)
}

// ---- what a turn came to is settled

// The link comes back, or is shut; what is changed of the client's own is changed last.
fn settles(
    alloc: Global,
    own: &mut Own,
    links: &mut Links<Link>,
    number: u32,
    came: Came<Link, Change>,
) -> Result<Effects, AllocError>
    requires numbered { HasNumber (λ link. link.number) number came }
    requires ready { 0 < own.old.room }
    requires room { links.old.room ≡ Some number }
    ensures settled { (all : List ClientLink) → links.old.links ≡ without (λ link. link.number) number all → IfOk result (λ out.
        IsSettled (λ link. link.number) with_change (me own.old.client) number came
        (record { own = own.old.client; links = all }) (record { own = own.new.client; links = links.new.links }) out) }
    ensures own { OnErr result (own.new ≡ own.old) }
    ensures err { OnErr result (links.new ≡ links.old) }
    ensures room { OnOk result (links.new.room ≡ None) }
{
    match came {
        Came::Waits(link) => {
            links.settle(number, Some(link));
            Ok(Effects::new(alloc))
        }
        Came::Refuses(why, opened) => {
            let me = own.named(alloc)?;
            let row = refuses_bytes(alloc, &me, number, why, opened)?;
            carries(alloc, links, number, false, row)
        }
        Came::Handles(NodeRow { row, change }) => {
            let out = carries(alloc, links, number, true, row)?;
            changes(own, change);
            Ok(out)
        }
    }
}

// What a row changes of the client's own, if anything, is changed.
fn changes(own: &mut Own, change: Option<Change>)
    requires { 0 < own.old.room }
    ensures { own.new.client ≡ own_behind with_change own.old.client change }
{
    match change {
        Some(change) => own.settle(change),
        None => (),
    }
}
