//! What a daemon does at an event that needs no book of sessions.

ghost use Rattle.std.specs.Prelude.{◌≡◌, List, [], ◌∷◌, Some, None, IfOk, OnErr, if◌then◌else◌};
ghost use Rattle.cx_journal.specs.declared.outcomes.Reason.TheVariants as reason;
ghost use Rattle.cx_node.specs.cx_rules.specs.Inputs.{Opened};
ghost use Rattle.cx_node.specs.cx_rules.specs.Links.{link_of, without_link};
ghost use Rattle.cx_node.specs.cx_rules.specs.Rows as rows;
ghost use Rattle.cx_verifying.specs.cx_rules_session.specs.DaemonRule as rule;
ghost use Rattle.cx_verifying.specs.cx_rules_session.specs.DaemonRule.{me};
ghost use Rattle.cx_steps.specs.Nothing.{nothing};
ghost use Rattle.cx_steps.specs.declared.events.Peer.TheVariants.{Monitor};
ghost use Rattle.cx_node.specs.steps.Steps.{node_of};
ghost use Rattle.cx_daemon_events.specs.Kinds.{DaemonLink};
ghost use Rattle.cx_daemon_events.specs.Machine.{AreHeld, IsStep, lost};

use crate::links::Link;
use crate::own::Own;
use cx_journal::{Entry, Reason};
use cx_node::{Links, Moment, enters, refused_entry, unopened};
use cx_rotate::View;
use cx_steps::{Effects, Peer};
use std::alloc::{AllocError, Global};

/// How many links a node has places for.
const MOST_LINKS: usize = 1024;

// ---- a link opens, or can't be opened

/// An incoming link is greeted, and one that the daemon waits for; any other is passed over.
#[tactic(auto, using(crate::proofs::Steps::idles_step))]
pub fn opens(
    alloc: Global,
    own: &mut Own,
    links: &mut Links<Link>,
    at: &Moment<'_>,
    peer: &Option<Peer>,
) -> Result<Effects, AllocError>
    requires room { links.old.room ≡ None }
    requires held { AreHeld links.old.links }
    ensures step { IfOk result (IsStep (node_of own.new links.new.links)
        (rule.opens (node_of own.old links.old.links) at.now.reading at.now.draw.now.bytes at.now.number peer.now)) }
    ensures lost { OnErr result (node_of own.new links.new.links ≡ lost (node_of own.old links.old.links) (Opened at.now.number peer.now)) }
    ensures room { links.new.room ≡ None }
    ensures held { AreHeld links.new.links }
{
    match peer {
        None => greets_incoming(alloc, own, links, at),
        Some(Peer::Monitor) => opens_own(alloc, own, links, at),
        Some(Peer::Daemon(_)) => Ok(Effects::new(alloc)),
    }
}

// The banner is sent on an incoming link, unless as many links live as there are places.
fn greets_incoming(
    alloc: Global,
    own: &Own,
    links: &mut Links<Link>,
    at: &Moment<'_>,
) -> Result<Effects, AllocError>
    requires room { links.old.room ≡ None }
    requires held { AreHeld links.old.links }
    ensures step { IfOk result (IsStep (node_of own.now links.new.links)
        (rule.opens_incoming (node_of own.now links.old.links) at.now.reading at.now.draw.now.bytes at.now.number)) }
    ensures lost { OnErr result (links.new.links ≡ without_link at.now.number links.old.links) }
    ensures room { links.new.room ≡ None }
    ensures held { AreHeld links.new.links }
{
    let full = links.len() >= MOST_LINKS;
    let greeted = own.greets_incoming(alloc, at, full);
    cx_node::opens(alloc, links, at.number, greeted)
}

// A link to the monitor that is waited for is greeted, and isn't waited for any more.
#[tactic(auto, using(crate::proofs::Steps::idles_step))]
fn opens_own(
    alloc: Global,
    own: &mut Own,
    links: &mut Links<Link>,
    at: &Moment<'_>,
) -> Result<Effects, AllocError>
    requires room { links.old.room ≡ None }
    requires held { AreHeld links.old.links }
    ensures step { IfOk result (IsStep (node_of own.new links.new.links)
        (rule.opens (node_of own.old links.old.links) at.now.reading at.now.draw.now.bytes at.now.number (Some Monitor))) }
    ensures lost { OnErr result (node_of own.new links.new.links ≡ lost (node_of own.old links.old.links) (Opened at.now.number (Some Monitor))) }
    ensures room { links.new.room ≡ None }
    ensures held { AreHeld links.new.links }
{
    if !own.dials() {
        return Ok(Effects::new(alloc));
    }
    own.dial(false);
    greets_monitor(alloc, own, links, at)
}

// The banner is sent on a link to the monitor.
fn greets_monitor(
    alloc: Global,
    own: &Own,
    links: &mut Links<Link>,
    at: &Moment<'_>,
) -> Result<Effects, AllocError>
    requires room { links.old.room ≡ None }
    requires held { AreHeld links.old.links }
    ensures step { IfOk result (IsStep (node_of own.now links.new.links)
        (rule.opens_own (node_of own.now links.old.links) at.now.reading at.now.draw.now.bytes at.now.number)) }
    ensures lost { OnErr result (links.new.links ≡ without_link at.now.number links.old.links) }
    ensures room { links.new.room ≡ None }
    ensures held { AreHeld links.new.links }
{
    let greeted = own.greets(alloc, at);
    cx_node::opens(alloc, links, at.number, greeted)
}

/// A link could not be opened; one to the monitor isn't waited for any more.
#[tactic(auto, using(crate::proofs::Steps::unopened_step))]
pub fn opens_none(
    alloc: Global,
    own: &mut Own,
    links: &Links<Link>,
    peer: &Peer,
) -> Result<Effects, AllocError>
    requires { AreHeld links.now.links }
    ensures step { IfOk result (IsStep (node_of own.new links.now.links) (rule.unreached (node_of own.old links.now.links) peer.now)) }
    ensures own { node_of own.new links.now.links ≡ (rule.unreached (node_of own.old links.now.links) peer.now).state }
{
    gives_up(own, peer);
    let named = own.named(alloc)?;
    unopened(alloc, &named)
}

fn gives_up(own: &mut Own, peer: &Peer)
    ensures { (links : List DaemonLink) → node_of own.new links ≡ (rule.unreached (node_of own.old links) peer.now).state }
{
    match peer {
        Peer::Monitor => own.dial(false),
        Peer::Daemon(_) => (),
    }
}

// ---- bytes come

/// Bytes come on a link, if it lives.
pub fn comes(
    alloc: Global,
    own: &Own,
    links: &mut Links<Link>,
    number: u32,
    bytes: &[u8],
) -> Result<Effects, AllocError>
    requires room { links.old.room ≡ None }
    requires held { AreHeld links.old.links }
    ensures step { IfOk result (IsStep (node_of own.now links.new.links)
        (rows.fed (node_of own.now links.old.links) bytes.now (link_of number links.old.links))) }
    ensures lost { OnErr result (links.new.links ≡ without_link number links.old.links) }
    ensures room { links.new.room ≡ None }
    ensures held { AreHeld links.new.links }
{
    cx_node::comes(alloc, links, number, bytes)
}

// ---- a link of the daemon's own is gone

/// What is told of a link to the monitor that is lost: nothing where it was open.
pub fn told_lost(
    alloc: Global,
    own: &Own,
    number: u32,
    was_open: bool,
) -> Result<Effects, AllocError>
    ensures { IfOk result (λ out. out ≡ record nothing { entries = if was_open then [] else rows.refused_entry (me own.now) number reason.Lost ∷ [] }) }
{
    if was_open {
        return Ok(Effects::new(alloc));
    }
    let named = own.named(alloc)?;
    let entry = refused_entry(alloc, &named, number, Reason::Lost)?;
    enters(alloc, entry)
}

// ---- a look, and a daemon that begins anew

/// Another view is looked at from now on.
#[tactic(auto, using(crate::proofs::Steps::idles_step))]
pub fn looks(alloc: Global, own: &mut Own, links: &Links<Link>, view: View) -> Effects
    requires { AreHeld links.now.links }
    ensures { IsStep (node_of own.new links.now.links) (rule.looks (node_of own.old links.now.links) view) result }
{
    own.put_view(view);
    Effects::new(alloc)
}

/// The daemon begins anew, with what it is.
pub fn restarts(
    alloc: Global,
    own: &mut Own,
    links: &mut Links<Link>,
) -> Result<Effects, AllocError>
    ensures step { IfOk result (IsStep (node_of own.new links.new.links) (rule.restarted (node_of own.old links.old.links))) }
    ensures err { OnErr result (own.new ≡ own.old) }
    ensures links { OnErr result (links.new ≡ links.old) }
    ensures room { IfOk result (λ _. links.new.room ≡ None) }
    ensures held { IfOk result (λ _. AreHeld links.new.links) }
{
    let named = own.named(alloc)?;
    let out = enters(alloc, Entry::Restarted(named))?;
    own.begin_anew();
    links.clear();
    Ok(out)
}
