//! What a daemon does at each event.

ghost use Rattle.std.specs.Prelude.{◌≡◌, None, IfOk, OnErr};
ghost use Rattle.cx_desk.specs.Held.{handlers_of};
ghost use Rattle.cx_node.specs.cx_rules.specs.Inputs.{input_of};
ghost use Rattle.cx_daemon_events.specs.cx_rules_session.specs.DaemonRule as rule;
ghost use Rattle.cx_session.specs.Book.{empty_book};
ghost use Rattle.cx_node.specs.steps.Steps.{node_of};
ghost use Rattle.cx_daemon_events.specs.Machine.{AreHeld, IsBookStep, IsStateStep, IsStep, lost, state_of};

use crate::turns::turns;
use cx_base::Reading;
use cx_daemon_events::{
    Book, Link, Own, comes, drops, fetches, goes, looks, opens, opens_none, restarts, ticks,
};
use cx_desk::Desk;
use cx_dice::Draw;
use cx_node::{Links, Moment};
use cx_steps::{Command, Effects, Event};
use std::alloc::{AllocError, Global};

// What the daemon does at an event.
pub(crate) fn steps(
    alloc: Global,
    own: &mut Own,
    book: &mut Book,
    links: &mut Links<Link>,
    desk: &Desk,
    event: Event<'_>,
    now: Reading,
    draw: &Draw,
) -> Result<Effects, AllocError>
    requires room { links.old.room ≡ None }
    requires held { AreHeld links.old.links }
    ensures step { IfOk result (IsStateStep (state_of own.new links.new.links book.new.book)
        (rule.daemon_step (handlers_of desk.now) (state_of own.old links.old.links book.old.book) (input_of event.entry) now draw.now.bytes)) }
    ensures lost { OnErr result (node_of own.new links.new.links ≡ lost (node_of own.old links.old.links) (input_of event.entry)) }
    ensures book { OnErr result (book.new.book ≡ book.old.book) }
    ensures room { links.new.room ≡ None }
    ensures held { AreHeld links.new.links }
{
    match event {
        Event::Opened(number, peer) => {
            let at = Moment {
                number,
                reading: now,
                draw,
            };
            opens(alloc, own, links, &at, &peer)
        }
        Event::NoLink(peer) => opens_none(alloc, own, links, &peer),
        Event::Bytes(number, bytes) => comes(alloc, own, links, number, bytes),
        Event::Turn(number) => {
            let at = Moment {
                number,
                reading: now,
                draw,
            };
            turns(alloc, own, book, links, desk, &at)
        }
        Event::Gone(number) => goes(alloc, own, book, links, number),
        Event::Submit(command) => submits(alloc, own, book, links, &command, now, draw),
        Event::Tick => ticks(alloc, own, links, now, draw),
        Event::Look(view) => Ok(looks(alloc, own, links, view)),
        Event::Restart => begins_anew(alloc, own, book, links),
    }
}

// A command is carried out: of those to a daemon alone.
#[tactic(auto, using(crate::proofs::Idling::idles_step))]
fn submits(
    alloc: Global,
    own: &mut Own,
    book: &mut Book,
    links: &mut Links<Link>,
    command: &Command,
    now: Reading,
    draw: &Draw,
) -> Result<Effects, AllocError>
    requires room { links.old.room ≡ None }
    requires held { AreHeld links.old.links }
    ensures step { IfOk result (IsBookStep (node_of own.new links.new.links) book.old.book book.new.book
        (rule.submits (node_of own.old links.old.links) now draw.now.bytes command.now)) }
    ensures err { OnErr result (node_of own.new links.new.links ≡ node_of own.old links.old.links) }
    ensures book { OnErr result (book.new.book ≡ book.old.book) }
    ensures room { links.new.room ≡ None }
    ensures held { AreHeld links.new.links }
{
    match command {
        Command::Fetch => fetches(alloc, own, links, now, draw),
        Command::Drop(session) => drops(alloc, own, book, links, *session),
        Command::Login(_) => Ok(Effects::new(alloc)),
        Command::Renew(_) => Ok(Effects::new(alloc)),
        Command::Connect { .. } => Ok(Effects::new(alloc)),
        Command::Send { .. } => Ok(Effects::new(alloc)),
    }
}

// The daemon begins anew: no session outlives that.
fn begins_anew(
    alloc: Global,
    own: &mut Own,
    book: &mut Book,
    links: &mut Links<Link>,
) -> Result<Effects, AllocError>
    requires room { links.old.room ≡ None }
    requires held { AreHeld links.old.links }
    ensures step { IfOk result (IsStep (node_of own.new links.new.links) (rule.restarted (node_of own.old links.old.links))) }
    ensures book { IfOk result (λ _. book.new.book ≡ empty_book) }
    ensures err { OnErr result (node_of own.new links.new.links ≡ node_of own.old links.old.links) }
    ensures sessions { OnErr result (book.new.book ≡ book.old.book) }
    ensures room { links.new.room ≡ None }
    ensures held { AreHeld links.new.links }
{
    let out = restarts(alloc, own, links)?;
    *book = Book::new(alloc);
    Ok(out)
}
