//! What a client does at a command: Login, Renew and Connect.

ghost use Rattle.std.specs.Prelude.{◌≡◌, ◌<◌, ◌-◌, ◌^◌, [], ◌∷◌, None, Some, false, IfOk, IfSome, OnErr};
ghost use Rattle.std.specs.Option.{option_map};
ghost use Rattle.cx_node.specs.Tables.{behind, with_number};
ghost use Rattle.cx_node.specs.steps.Turns.{IsCarried};
ghost use Rattle.cx_client_events.specs.linking.Ahead.{IsStanding, link_ahead, row_on};
ghost use Rattle.cx_client_events.specs.linking.Kinds.{ClientLink};
ghost use Rattle.cx_node.specs.cx_rules.specs.Rows as rows;
ghost use Rattle.cx_client_events.specs.cx_rules_session.specs.ClientRule as rule;
ghost use Rattle.cx_client_events.specs.cx_rules_session.specs.ClientRule.{me};
ghost use Rattle.cx_steps.specs.Nothing.{nothing};
ghost use Rattle.cx_steps.specs.declared.events.Peer.TheVariants.{Daemon};
ghost use Rattle.cx_node.specs.steps.Steps.{node_of};
ghost use Rattle.cx_client_events.specs.Machine.{AreHeld, IsStep};

use crate::own::Own;
use crate::{Called, Callee, Link, OpenAhead, calls, first_open, numbers_to_monitor, shut_all};
use cx_base::{Duplicate, EntityName, Items, Reading};
use cx_dice::Draw;
use cx_journal::Reason;
use cx_node::{Carried, Links, Moment, Numbered, Row, carried_out, enters, refused_entry};
use cx_steps::{Effects, Peer};
use std::alloc::{AllocError, Global};

// ---- Login, Renew

/// The older links to the monitor are shut, and a new one is opened. Those to daemons stay.
pub fn logs_in(
    alloc: Global,
    own: &mut Own,
    links: &mut Links<Link>,
    services: u32,
) -> Result<Effects, AllocError>
    requires room { links.old.room ≡ None }
    requires held { AreHeld links.old.links }
    ensures step { IfOk result (IsStep (node_of own.new.client links.new.links) (rule.logs_in (node_of own.old.client links.old.links) services)) }
    ensures err { OnErr result (node_of own.new.client links.new.links ≡ node_of own.old.client links.old.links) }
    ensures room { links.new.room ≡ None }
    ensures held { AreHeld links.new.links }
{
    let shuts = numbers_to_monitor(alloc, links)?;
    let mut opens = Items::new(alloc);
    opens.push(alloc, Peer::Monitor)?;
    own.wait_for_login(services)?;
    shut_all(links, &shuts);
    let mut out = Effects::new(alloc);
    out.opens = opens;
    out.shuts = shuts;
    Ok(out)
}

/// Tickets are asked for on the first link to the monitor that is open. Where memory is wanting, the link is as it was: the request is sealed ahead on it, and it goes on last.
pub fn renews(
    alloc: Global,
    own: &Own,
    links: &mut Links<Link>,
    services: u32,
    now: Reading,
    draw: &Draw,
) -> Result<Effects, AllocError>
    requires room { links.old.room ≡ None }
    requires held { AreHeld links.old.links }
    ensures step { IfOk result (IsStep (node_of own.now.client links.new.links) (rule.renews (node_of own.now.client links.old.links) services now draw.now.bytes)) }
    ensures err { OnErr result (links.new ≡ links.old) }
    ensures room { links.new.room ≡ None }
    ensures held { AreHeld links.new.links }
{
    let Some(link) = first_open(links) else {
        return refuses(alloc, own, Reason::NoSession);
    };
    let number = link.number();
    let at = Moment {
        number,
        reading: now,
        draw,
    };
    let asked = own.asks_tickets(alloc, &at, link, services)?;
    goes_ahead(alloc, links, number, asked)
}

// A row is carried out on the link of this number, which then goes on behind the request that was sealed ahead on it, or is shut. Where memory is wanting all is as before.
fn goes_ahead(
    alloc: Global,
    links: &mut Links<Link>,
    number: u32,
    row: Row<OpenAhead>,
) -> Result<Effects, AllocError>
    requires room { links.old.room ≡ None }
    requires ahead { IfSome row.link (IsStanding number links.old.links) }
    ensures carried { (link : ClientLink) → with_number (λ l. l.number) number links.old.links ≡ Some link
        → IfOk result (IsCarried (λ l. l.number) number false (row_on link row) links.old.links links.new.links) }
    ensures err { OnErr result (links.new ≡ links.old) }
    ensures room { links.new.room ≡ None }
{
    let Carried { link, out } = carried_out(alloc, number, false, row)?;
    goes_on(links, number, link);
    Ok(out)
}

fn goes_on(links: &mut Links<Link>, number: u32, ahead: Option<OpenAhead>)
    requires room { links.old.room ≡ None }
    requires ahead { IfSome ahead (IsStanding number links.old.links) }
    ensures links { (link : ClientLink) → with_number (λ l. l.number) number links.old.links ≡ Some link
        → links.new.links ≡ behind (λ l. l.number) number (option_map (link_ahead link) ahead) links.old.links }
    ensures room { links.new.room ≡ None }
{
    let Some(ahead) = ahead else {
        links.remove(number);
        return;
    };
    match links.take(number) {
        Some(link) => links.settle(number, Some(link.go_on(ahead))),
        None => unreachable!(),
    }
}

// ---- Connect

/// A link to a daemon is opened. While one to it lives there is no other.
pub fn connects(
    alloc: Global,
    own: &mut Own,
    links: &Links<Link>,
    daemon: EntityName,
    lossy: bool,
) -> Result<Effects, AllocError>
    requires room { links.now.room ≡ None }
    requires held { AreHeld links.now.links }
    ensures step { IfOk result (IsStep (node_of own.new.client links.now.links) (rule.connects (node_of own.old.client links.now.links) daemon lossy)) }
    ensures err { OnErr result (own.new.client ≡ own.old.client) }
{
    if calls(links, &daemon) {
        return refuses(alloc, own, Reason::Busy);
    }
    let callee = Callee { daemon, lossy };
    match own.called(alloc, callee)? {
        Ok(called) => dials(alloc, own, called),
        Err(why) => refuses(alloc, own, why),
    }
}

// A link to the daemon is opened, and the client's connections to daemons are counted.
fn dials(alloc: Global, own: &mut Own, called: Called) -> Result<Effects, AllocError>
    requires { own.old.client.mon_client.global_seq < 2 ^ 64 - 1 }
    ensures out { IfOk result (λ out. out ≡ record nothing { opens = Daemon called.callee.daemon ∷ [] }) }
    ensures own { IfOk result (λ _. own.new.client ≡ (rule.calls (node_of own.old.client []) called).state.own) }
    ensures err { OnErr result (own.new ≡ own.old) }
{
    let peer = Peer::Daemon(called.callee.daemon.copy(alloc)?);
    let mut opens = Items::new(alloc);
    opens.push(alloc, peer)?;
    own.call(called)?;
    let mut out = Effects::new(alloc);
    out.opens = opens;
    Ok(out)
}

/// A command is refused, which shuts nothing.
pub fn refuses(alloc: Global, own: &Own, why: Reason) -> Result<Effects, AllocError>
    ensures { IfOk result (λ out. out ≡ record nothing { entries = rows.refused_entry (me own.now.client) 0 why ∷ [] }) }
{
    let named = own.named(alloc)?;
    let entry = refused_entry(alloc, &named, 0, why)?;
    enters(alloc, entry)
}
