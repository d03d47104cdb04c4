//! Sessions that end: with their links, or by a command.

ghost use Rattle.std.specs.Prelude.{◌≡◌, None, IfOk, OnErr, is_some};
ghost use Rattle.cx_node.specs.cx_rules.specs.Links.{link_of, without_link};
ghost use Rattle.cx_verifying.specs.cx_rules_session.specs.DaemonRule as rule;
ghost use Rattle.cx_session.specs.Book.{ended, with_number};
ghost use Rattle.cx_node.specs.steps.Steps.{node_of};
ghost use Rattle.cx_daemon_events.specs.Ending.{IsIncomingGone, told_dropped, told_ended};
ghost use Rattle.cx_verifying.specs.Stages.{lossy_session};
ghost use Rattle.cx_daemon_events.specs.Machine.{AreHeld, IsBookStep};

use crate::events::told_lost;
use crate::links::{Kind, Link};
use crate::own::Own;
use crate::scans::{numbers_in, shut_all};
use cx_base::Duplicate;
use cx_journal::{Ended, Entry};
use cx_node::{Links, enters};
use cx_session::{BookCall, BookReply, SessionBook};
use cx_steps::Effects;
use cx_verifying as incoming_links;
use cx_verifying::SessionOwner;
use std::alloc::{AllocError, Global};

/// The sessions of a daemon.
pub type Book = SessionBook<SessionOwner>;

// ---- a link is gone

/// A link is gone, if it lived: a lossy session ends with it, and that it is lost is entered of the daemon's own one that wasn't open yet.
pub fn goes(
    alloc: Global,
    own: &Own,
    book: &mut Book,
    links: &mut Links<Link>,
    number: u32,
) -> Result<Effects, AllocError>
    requires room { links.old.room ≡ None }
    requires held { AreHeld links.old.links }
    ensures step { IfOk result (IsBookStep (node_of own.now links.new.links) book.old.book book.new.book
        (rule.gone (node_of own.now links.old.links) (link_of number links.old.links))) }
    ensures lost { OnErr result (links.new.links ≡ without_link number links.old.links) }
    ensures book { OnErr result (book.new.book ≡ book.old.book) }
    ensures room { links.new.room ≡ None }
    ensures held { AreHeld links.new.links }
{
    let Some(link) = links.take(number) else {
        return Ok(Effects::new(alloc));
    };
    links.give_up();
    match link.kind {
        Kind::Incoming(link) => incoming_gone(alloc, own, book, &link),
        Kind::Own(link) => told_lost(alloc, own, number, link.is_open()),
    }
}

// What is told of an incoming link that is gone.
fn incoming_gone(
    alloc: Global,
    own: &Own,
    book: &mut Book,
    link: &incoming_links::Link,
) -> Result<Effects, AllocError>
    ensures gone { IfOk result (IsIncomingGone own.now (lossy_session link.now.stage) book.old.book book.new.book) }
    ensures err { OnErr result (book.new ≡ book.old) }
{
    match link.lossy_session() {
        None => Ok(Effects::new(alloc)),
        Some(session) => ends(alloc, own, book, session),
    }
}

// A session ends, if it lives.
fn ends(alloc: Global, own: &Own, book: &mut Book, session: u64) -> Result<Effects, AllocError>
    ensures out { IfOk result (λ out. out ≡ told_ended own.now session (is_some (with_number session book.old.book.live))) }
    ensures book { IfOk result (λ _. book.new.book ≡ ended book.old.book session) }
    ensures err { OnErr result (book.new ≡ book.old) }
{
    let lived = lives(alloc, book, session);
    let out = told_ended(alloc, own, session, lived)?;
    book.apply(BookCall::End { number: session });
    Ok(out)
}

// What is told of a session that ends.
fn told_ended(alloc: Global, own: &Own, session: u64, lived: bool) -> Result<Effects, AllocError>
    ensures { IfOk result (λ out. out ≡ told_ended own.now session lived) }
{
    if !lived {
        return Ok(Effects::new(alloc));
    }
    let daemon = own.mon_client().name().copy(alloc)?;
    enters(alloc, Entry::Ended(Ended { daemon, session }))
}

// Whether the session of this number lives.
fn lives(alloc: Global, book: &Book, number: u64) -> bool
    ensures { result ≡ is_some (with_number number book.now.book.live) }
{
    match book.reply(alloc, &BookCall::End { number }) {
        BookReply::Ended(lived) => lived,
        BookReply::Admitted { .. } => unreachable!(),
        BookReply::Resumed { .. } => unreachable!(),
        BookReply::Fine => unreachable!(),
        BookReply::Refused(_) => unreachable!(),
        BookReply::OutOfMemory => unreachable!(),
    }
}

// ---- a command

/// A session ends, if it lives, and its links are shut.
pub fn drops(
    alloc: Global,
    own: &Own,
    book: &mut Book,
    links: &mut Links<Link>,
    session: u64,
) -> Result<Effects, AllocError>
    requires room { links.old.room ≡ None }
    requires held { AreHeld links.old.links }
    ensures step { IfOk result (IsBookStep (node_of own.now links.new.links) book.old.book book.new.book (rule.drops (node_of own.now links.old.links) session)) }
    ensures links { OnErr result (links.new ≡ links.old) }
    ensures book { OnErr result (book.new.book ≡ book.old.book) }
    ensures room { links.new.room ≡ None }
    ensures held { AreHeld links.new.links }
{
    let lived = lives(alloc, book, session);
    let out = told_dropped(alloc, own, links, session, lived)?;
    shut_all(links, &out.shuts);
    book.apply(BookCall::End { number: session });
    Ok(out)
}

// What is told of a session that is dropped, with the links that are shut.
fn told_dropped(
    alloc: Global,
    own: &Own,
    links: &Links<Link>,
    session: u64,
    lived: bool,
) -> Result<Effects, AllocError>
    requires { links.now.room ≡ None }
    ensures { IfOk result (λ out. out ≡ told_dropped own.now session links.now.links lived) }
{
    let mut out = told_ended(alloc, own, session, lived)?;
    if lived {
        out.shuts = numbers_in(alloc, links, session, None)?;
    }
    Ok(out)
}
