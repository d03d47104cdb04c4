//! The generations of a daemon's own type, asked for on its link to the monitor.

ghost use Rattle.std.specs.Prelude.{◌≡◌, [], ◌∷◌, None, Some, true, false, IfOk, IfSome, OnErr};
ghost use Rattle.std.specs.Option.{option_map};
ghost use Rattle.cx_node.specs.Tables.{behind, with_number};
ghost use Rattle.cx_node.specs.steps.Turns.{IsCarried};
ghost use Rattle.cx_daemon_events.specs.Ahead.{IsStanding, link_ahead, row_on};
ghost use Rattle.cx_daemon_events.specs.Kinds.{DaemonLink};
ghost use Rattle.cx_node.specs.cx_rules.specs.Requests.{first_open};
ghost use Rattle.cx_verifying.specs.cx_rules_session.specs.DaemonRule as rule;
ghost use Rattle.cx_verifying.specs.cx_rules_session.specs.DaemonRule.{asking_open};
ghost use Rattle.cx_steps.specs.Nothing.{nothing};
ghost use Rattle.cx_steps.specs.declared.events.Peer.TheVariants.{Monitor};
ghost use Rattle.cx_node.specs.steps.Steps.{node_of};
ghost use Rattle.cx_daemon_events.specs.Machine.{AreHeld, IsStep};

use crate::links::Link;
use crate::own::Own;
use crate::scans::{first_open, is_fetching};
use cx_base::{Items, Reading};
use cx_dice::Draw;
use cx_monclient::OpenAhead;
use cx_node::{Carried, Links, Moment, Numbered, Row, carried_out};
use cx_steps::{Effects, Peer};
use std::alloc::{AllocError, Global};

/// At a tick a daemon fetches where it holds no generations, or the second of them has expired.
#[tactic(auto, using(crate::proofs::Steps::idles_step))]
pub fn ticks(
    alloc: Global,
    own: &mut Own,
    links: &mut Links<Link>,
    now: Reading,
    draw: &Draw,
) -> Result<Effects, AllocError>
    requires room { links.old.room ≡ None }
    requires held { AreHeld links.old.links }
    ensures step { IfOk result (IsStep (node_of own.new links.new.links) (rule.ticks (node_of own.old links.old.links) now draw.now.bytes)) }
    ensures err { OnErr result (node_of own.new links.new.links ≡ node_of own.old links.old.links) }
    ensures room { links.new.room ≡ None }
    ensures held { AreHeld links.new.links }
{
    if own.is_outdated(now) {
        fetches(alloc, own, links, now, draw)
    } else {
        Ok(Effects::new(alloc))
    }
}

/// While a fetch is under way there is no other.
#[tactic(auto, using(crate::proofs::Steps::idles_step))]
pub fn fetches(
    alloc: Global,
    own: &mut Own,
    links: &mut Links<Link>,
    now: Reading,
    draw: &Draw,
) -> Result<Effects, AllocError>
    requires room { links.old.room ≡ None }
    requires held { AreHeld links.old.links }
    ensures step { IfOk result (IsStep (node_of own.new links.new.links) (rule.fetches (node_of own.old links.old.links) now draw.now.bytes)) }
    ensures err { OnErr result (node_of own.new links.new.links ≡ node_of own.old links.old.links) }
    ensures room { links.new.room ≡ None }
    ensures held { AreHeld links.new.links }
{
    if is_busy(own, links) {
        return Ok(Effects::new(alloc));
    }
    fetches_on(alloc, own, links, now, draw)
}

/// Whether a fetch is under way.
pub fn is_busy(own: &Own, links: &Links<Link>) -> bool
    requires { links.now.room ≡ None }
    ensures { result ≡ rule.is_fetching (node_of own.now links.now.links) }
{
    own.dials() || is_fetching(links)
}

// The generations are asked for on the link to the monitor that is open; where none is, one is opened. Where memory is wanting, the link is as it was:
// the request is sealed ahead on it, and it goes on last.
fn fetches_on(
    alloc: Global,
    own: &mut Own,
    links: &mut Links<Link>,
    now: Reading,
    draw: &Draw,
) -> Result<Effects, AllocError>
    requires room { links.old.room ≡ None }
    requires held { AreHeld links.old.links }
    ensures step { IfOk result (IsStep (node_of own.new links.new.links)
        (rule.fetches_on (node_of own.old links.old.links) now draw.now.bytes (first_open asking_open links.old.links))) }
    ensures err { OnErr result (node_of own.new links.new.links ≡ node_of own.old links.old.links) }
    ensures room { links.new.room ≡ None }
    ensures held { AreHeld links.new.links }
{
    let Some(link) = first_open(links) else {
        return dials(alloc, own);
    };
    let number = link.number();
    let at = Moment {
        number,
        reading: now,
        draw,
    };
    let asked = own.asks_generations(alloc, &at, link)?;
    goes_ahead(alloc, links, number, asked)
}

// A row is carried out on the link of this number, which then goes on behind the request that was sealed ahead on it, or is shut. Where memory is
// wanting, all is as before.
fn goes_ahead(
    alloc: Global,
    links: &mut Links<Link>,
    number: u32,
    row: Row<OpenAhead>,
) -> Result<Effects, AllocError>
    requires room { links.old.room ≡ None }
    requires ahead { IfSome row.link (IsStanding number links.old.links) }
    ensures carried { (link : DaemonLink) → with_number (λ l. l.number) number links.old.links ≡ Some link
        → IfOk result (IsCarried (λ l. l.number) number false (row_on link row) links.old.links links.new.links) }
    ensures err { OnErr result (links.new ≡ links.old) }
    ensures room { links.new.room ≡ None }
{
    let Carried { link, out } = carried_out(alloc, number, false, row)?;
    goes_on(links, number, link);
    Ok(out)
}

// The link of this number goes on behind what was sealed ahead on it, or is shut. It wants no memory.
fn goes_on(links: &mut Links<Link>, number: u32, ahead: Option<OpenAhead>)
    requires room { links.old.room ≡ None }
    requires ahead { IfSome ahead (IsStanding number links.old.links) }
    ensures links { (link : DaemonLink) → with_number (λ l. l.number) number links.old.links ≡ Some link
        → links.new.links ≡ behind (λ l. l.number) number (option_map (link_ahead link) ahead) links.old.links }
    ensures room { links.new.room ≡ None }
{
    let Some(ahead) = ahead else {
        links.remove(number);
        return;
    };
    match links.take(number) {
        Some(link) => links.settle(number, Some(link.go_on(ahead))),
        None => unreachable!(),
    }
}

// A link to the monitor is opened.
fn dials(alloc: Global, own: &mut Own) -> Result<Effects, AllocError>
    ensures out { IfOk result (λ out. out ≡ record nothing { opens = Monitor ∷ [] }) }
    ensures own { IfOk result (λ _. own.new ≡ record own.old { dials = true }) }
    ensures err { OnErr result (own.new ≡ own.old) }
{
    let mut opens = Items::new(alloc);
    opens.push(alloc, Peer::Monitor)?;
    own.dial(true);
    let mut out = Effects::new(alloc);
    out.opens = opens;
    Ok(out)
}
