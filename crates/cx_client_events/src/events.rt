//! Links that open, that can't be opened and that are gone, bytes that come, and a client that begins anew.

ghost use Rattle.std.specs.Prelude.{◌≡◌, [], ◌∷◌, Some, None, false, IfOk, OnErr, if◌then◌else◌};
ghost use Rattle.cx_journal.specs.declared.outcomes.Reason.TheVariants as reason;
ghost use Rattle.cx_node.specs.cx_rules.specs.Inputs.{Opened};
ghost use Rattle.cx_node.specs.cx_rules.specs.Links.{link_of, without_link};
ghost use Rattle.cx_node.specs.cx_rules.specs.Rows as rows;
ghost use Rattle.cx_client_events.specs.cx_rules_session.specs.ClientRule as rule;
ghost use Rattle.cx_client_events.specs.cx_rules_session.specs.ClientRule.{me};
ghost use Rattle.cx_client_events.specs.cx_rules_session.specs.Presenter as call;
ghost use Rattle.cx_steps.specs.Nothing.{nothing};
ghost use Rattle.cx_node.specs.steps.Steps.{node_of};
ghost use Rattle.cx_client_events.specs.Machine.{AreHeld, IsStep, banner_sent, lost};

use crate::own::Own;
use crate::{CallLink, Dial, Kind, Link};
use cx_journal::{Entry, Reason};
use cx_node::{Links, Moment, enters, refused_entry, unopened};
use cx_steps::{Effects, Peer};
use std::alloc::{AllocError, Global};

// ---- a link opens, or can't be opened

/// A link that is waited for is greeted, and isn't waited for any more; any other is passed over.
#[tactic(auto, using(crate::proofs::Steps::idles_step))]
pub fn opens(
    alloc: Global,
    own: &mut Own,
    links: &mut Links<Link>,
    at: &Moment<'_>,
    peer: &Option<Peer>,
) -> Result<Effects, AllocError>
    requires room { links.old.room ≡ None }
    requires held { AreHeld links.old.links }
    ensures step { IfOk result (IsStep (node_of own.new.client links.new.links)
        (rule.opens (node_of own.old.client links.old.links) at.now.reading at.now.draw.now.bytes at.now.number peer.now)) }
    ensures lost { OnErr result (node_of own.new.client links.new.links ≡ lost (node_of own.old.client links.old.links) (Opened at.now.number peer.now)) }
    ensures room { links.new.room ≡ None }
    ensures held { AreHeld links.new.links }
{
    let Some(peer) = peer else {
        return Ok(Effects::new(alloc));
    };
    let Some(dial) = own.take_dial(peer) else {
        return Ok(Effects::new(alloc));
    };
    greets(alloc, own, links, at, dial)
}

// The banner is sent on a link that was waited for.
fn greets(
    alloc: Global,
    own: &Own,
    links: &mut Links<Link>,
    at: &Moment<'_>,
    dial: Dial,
) -> Result<Effects, AllocError>
    requires room { links.old.room ≡ None }
    requires held { AreHeld links.old.links }
    ensures step { IfOk result (IsStep (node_of own.now.client links.new.links)
        (rows.carried_out (node_of own.now.client links.old.links) at.now.number false (banner_sent own.now.client at.now.number at.now.reading at.now.draw.now.bytes dial))) }
    ensures lost { OnErr result (links.new.links ≡ without_link at.now.number links.old.links) }
    ensures room { links.new.room ≡ None }
    ensures held { AreHeld links.new.links }
{
    let greeted = own.greets(alloc, at, dial);
    cx_node::opens(alloc, links, at.number, greeted)
}

/// A link could not be opened, and isn't waited for any more.
#[tactic(auto, using(crate::proofs::Steps::unopened_step))]
pub fn opens_none(
    alloc: Global,
    own: &mut Own,
    links: &Links<Link>,
    peer: &Peer,
) -> Result<Effects, AllocError>
    requires { AreHeld links.now.links }
    ensures step { IfOk result (IsStep (node_of own.new.client links.now.links) (rule.unreached (node_of own.old.client links.now.links) peer.now)) }
    ensures own { node_of own.new.client links.now.links ≡ rule.undialled (node_of own.old.client links.now.links) peer.now }
{
    own.give_up_dial(peer);
    let named = own.named(alloc)?;
    unopened(alloc, &named)
}

// ---- bytes come

/// Bytes come on a link, if it lives.
pub fn comes(
    alloc: Global,
    own: &Own,
    links: &mut Links<Link>,
    number: u32,
    bytes: &[u8],
) -> Result<Effects, AllocError>
    requires room { links.old.room ≡ None }
    requires held { AreHeld links.old.links }
    ensures step { IfOk result (IsStep (node_of own.now.client links.new.links)
        (rows.fed (node_of own.now.client links.old.links) bytes.now (link_of number links.old.links))) }
    ensures lost { OnErr result (links.new.links ≡ without_link number links.old.links) }
    ensures room { links.new.room ≡ None }
    ensures held { AreHeld links.new.links }
{
    cx_node::comes(alloc, links, number, bytes)
}

// ---- a link is gone

/// A link is gone, if it lived: that it is lost is entered where it wasn't open yet, and a session that ends with it is forgotten.
pub fn goes(
    alloc: Global,
    own: &mut Own,
    links: &mut Links<Link>,
    number: u32,
) -> Result<Effects, AllocError>
    requires room { links.old.room ≡ None }
    requires held { AreHeld links.old.links }
    ensures step { IfOk result (IsStep (node_of own.new.client links.new.links)
        (rule.loses (node_of own.old.client links.old.links) (link_of number links.old.links))) }
    ensures lost { OnErr result (node_of own.new.client links.new.links ≡ node_of own.old.client (without_link number links.old.links)) }
    ensures room { links.new.room ≡ None }
    ensures held { AreHeld links.new.links }
{
    let Some(link) = links.take(number) else {
        return Ok(Effects::new(alloc));
    };
    links.give_up();
    match link.kind {
        Kind::Monitor(link) => told_lost(alloc, own, number, link.is_open()),
        Kind::Daemon(link) => call_gone(alloc, own, number, link.as_ref()),
    }
}

// A link to a daemon is gone.
fn call_gone(
    alloc: Global,
    own: &mut Own,
    number: u32,
    link: &CallLink,
) -> Result<Effects, AllocError>
    ensures out { IfOk result (λ out. out ≡ record nothing { entries = if call.is_open link.now.stage then [] else rows.refused_entry (me own.old.client) number reason.Lost ∷ [] }) }
    ensures own { IfOk result (λ _. own.new.client ≡ rule.own_behind_gone own.old.client (rule.ToDaemon link.now.stage)) }
    ensures err { OnErr result (own.new ≡ own.old) }
{
    let out = told_lost(alloc, own, number, link.is_open())?;
    own.forget_lossy(&link.callee().daemon);
    Ok(out)
}

// What is told of a link that is lost: nothing where it was open.
fn told_lost(alloc: Global, own: &Own, number: u32, was_open: bool) -> Result<Effects, AllocError>
    ensures { IfOk result (λ out. out ≡ record nothing { entries = if was_open then [] else rows.refused_entry (me own.now.client) number reason.Lost ∷ [] }) }
{
    if was_open {
        return Ok(Effects::new(alloc));
    }
    let named = own.named(alloc)?;
    let entry = refused_entry(alloc, &named, number, Reason::Lost)?;
    enters(alloc, entry)
}

// ---- a client begins anew

/// The client begins anew, with what it is.
pub fn restarts(
    alloc: Global,
    own: &mut Own,
    links: &mut Links<Link>,
) -> Result<Effects, AllocError>
    ensures step { IfOk result (IsStep (node_of own.new.client links.new.links) (rule.restarted (node_of own.old.client links.old.links))) }
    ensures err { OnErr result (own.new ≡ own.old) }
    ensures links { OnErr result (links.new ≡ links.old) }
    ensures room { IfOk result (λ _. links.new.room ≡ None) }
    ensures held { IfOk result (λ _. AreHeld links.new.links) }
{
    let named = own.named(alloc)?;
    let out = enters(alloc, Entry::Restarted(named))?;
    own.begin_anew();
    links.clear();
    Ok(out)
}
