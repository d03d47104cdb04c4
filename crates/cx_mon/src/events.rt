//! What the monitor does at each event.

ghost use Rattle.std.specs.Prelude.{◌≡◌, ◌<◌, None, IfOk, IfSome, OnErr};
ghost use Rattle.cx_node.specs.steps.Events.{link_in};
ghost use Rattle.cx_rotate.specs.Keeping.{IsKeptState};
ghost use Rattle.cx_rules.specs.Inputs.{input_of};
ghost use Rattle.cx_rules.specs.Links.{link_of, without_link};
ghost use Rattle.cx_rules.specs.MonitorRule as rule;
ghost use Rattle.cx_rules.specs.Rows as rows;
ghost use Rattle.cx_rules.specs.Acceptor.{AwaitsBanner};
ghost use Rattle.cx_rules.specs.Rows.{forgotten, new_link};
ghost use Rattle.cx_node.specs.steps.Steps.{node_of, without_lost};
ghost use Rattle.cx_mon.specs.Machine.{AreHeld, IsStep, lost};

use crate::{Link, Own, greeting};
use cx_base::{NodeName, Reading};
use cx_dice::Draw;
use cx_journal::Entry;
use cx_node::{Links, Moment, enters, turn, unopened};
use cx_rules::rule_laws;
use cx_steps::{Effects, Event};
use std::alloc::{AllocError, Global};

// What the monitor does at an event. What was saved last is noted before.
pub(crate) fn steps(
    alloc: Global,
    own: &mut Own,
    links: &mut Links<Link>,
    event: Event<'_>,
    now: Reading,
    draw: &Draw,
) -> Result<Effects, AllocError>
    requires reading { now < 4000000000000000000 }
    requires room { links.old.room ≡ None }
    requires held { AreHeld links.old.links }
    ensures step { IfOk result (IsStep (node_of own.new links.new.links)
        (rule.monitor_rule (node_of own.old links.old.links) (input_of event.entry) now draw.now.bytes)) }
    ensures kept { IfOk result (λ out. IfSome out.save IsKeptState) }
    ensures lost { OnErr result (node_of own.new links.new.links ≡ lost (node_of own.old links.old.links) (input_of event.entry)) }
    ensures room { links.new.room ≡ None }
    ensures held { AreHeld links.new.links }
{
    rule_laws();
    own.note();
    let out = happens(alloc, own, links, event, now, draw)?;
    own.is_kept();
    Ok(out)
}

fn happens(
    alloc: Global,
    own: &mut Own,
    links: &mut Links<Link>,
    event: Event<'_>,
    now: Reading,
    draw: &Draw,
) -> Result<Effects, AllocError>
    requires reading { now < 4000000000000000000 }
    requires room { links.old.room ≡ None }
    requires held { AreHeld links.old.links }
    ensures step { IfOk result (IsStep (node_of own.new links.new.links)
        (rule.monitor_step (node_of own.old links.old.links) (input_of event.entry) now draw.now.bytes)) }
    ensures lost { OnErr result (node_of own.new links.new.links ≡ without_lost (link_in (input_of event.entry)) (node_of own.old links.old.links)) }
    ensures room { links.new.room ≡ None }
    ensures held { AreHeld links.new.links }
{
    match event {
        Event::Opened(number, _) => {
            let at = Moment {
                number,
                reading: now,
                draw,
            };
            opens(alloc, own, links, &at)
        }
        Event::Bytes(number, bytes) => comes(alloc, own, links, number, bytes),
        Event::Turn(number) => {
            let at = Moment {
                number,
                reading: now,
                draw,
            };
            turns(alloc, own, links, &at)
        }
        Event::Gone(number) => Ok(goes(alloc, own, links, number)),
        Event::Restart => restarts(alloc, own, links),
        Event::NoLink(_) => unopened(alloc, &NodeName::Monitor),
        Event::Look(_) => Ok(Effects::new(alloc)),
        Event::Tick => Ok(Effects::new(alloc)),
        Event::Submit(_) => Ok(Effects::new(alloc)),
    }
}

// A link is gone.
#[tactic(auto, using(crate::proofs::Steps::goes_step, crate::proofs::Steps::without_held))]
fn goes(alloc: Global, own: &Own, links: &mut Links<Link>, number: u32) -> Effects
    requires room { links.old.room ≡ None }
    requires held { AreHeld links.old.links }
    ensures step { IsStep (node_of own.now links.new.links) (rows.idles (forgotten (node_of own.now links.old.links) number)) result }
    ensures room { links.new.room ≡ None }
    ensures held { AreHeld links.new.links }
{
    links.remove(number);
    Effects::new(alloc)
}

// ---- a link opens, bytes come, a link is turned

/// The links that a node has places for.
const MOST_LINKS: usize = 1024;

// The banner is sent, unless as many links live as there are places.
fn opens(
    alloc: Global,
    own: &Own,
    links: &mut Links<Link>,
    at: &Moment<'_>,
) -> Result<Effects, AllocError>
    requires room { links.old.room ≡ None }
    requires held { AreHeld links.old.links }
    ensures step { IfOk result (IsStep (node_of own.now links.new.links)
        (rule.opens (node_of own.now links.old.links) at.now.reading at.now.draw.now.bytes (new_link at.now.number AwaitsBanner))) }
    ensures lost { OnErr result (links.new.links ≡ without_link at.now.number links.old.links) }
    ensures room { links.new.room ≡ None }
    ensures held { AreHeld links.new.links }
{
    let full = links.len() >= MOST_LINKS;
    let greeted = greeting(alloc, own, at, full);
    cx_node::opens(alloc, links, at.number, greeted)
}

// Bytes come on a link, if it lives.
fn comes(
    alloc: Global,
    own: &Own,
    links: &mut Links<Link>,
    number: u32,
    bytes: &[u8],
) -> Result<Effects, AllocError>
    requires room { links.old.room ≡ None }
    requires held { AreHeld links.old.links }
    ensures step { IfOk result (IsStep (node_of own.now links.new.links)
        (rows.fed (node_of own.now links.old.links) bytes.now (link_of number links.old.links))) }
    ensures lost { OnErr result (links.new.links ≡ without_link number links.old.links) }
    ensures room { links.new.room ≡ None }
    ensures held { AreHeld links.new.links }
{
    cx_node::comes(alloc, links, number, bytes)
}

// One banner or frame of what came on a link is handled, if it lives.
fn turns(
    alloc: Global,
    own: &mut Own,
    links: &mut Links<Link>,
    at: &Moment<'_>,
) -> Result<Effects, AllocError>
    requires reading { at.now.reading < 4000000000000000000 }
    requires room { links.old.room ≡ None }
    requires held { AreHeld links.old.links }
    ensures step { IfOk result (IsStep (node_of own.new links.new.links)
        (rule.turn (node_of own.old links.old.links) at.now.reading at.now.draw.now.bytes (link_of at.now.number links.old.links))) }
    ensures lost { OnErr result (node_of own.new links.new.links ≡ forgotten (node_of own.old links.old.links) at.now.number) }
    ensures room { links.new.room ≡ None }
    ensures held { AreHeld links.new.links }
{
    turn(alloc, own, links, at)
}

// ---- the monitor begins anew

// The monitor begins anew, from what it saved last.
fn restarts(alloc: Global, own: &mut Own, links: &mut Links<Link>) -> Result<Effects, AllocError>
    requires room { links.old.room ≡ None }
    requires held { AreHeld links.old.links }
    ensures step { IfOk result (IsStep (node_of own.new links.new.links) (rule.restarted (node_of own.old links.old.links))) }
    ensures err { OnErr result (own.new ≡ own.old) }
    ensures links { OnErr result (links.new ≡ links.old) }
    ensures room { links.new.room ≡ None }
    ensures held { AreHeld links.new.links }
{
    let out = enters(alloc, Entry::Restarted(NodeName::Monitor))?;
    own.restore();
    links.clear();
    Ok(out)
}
