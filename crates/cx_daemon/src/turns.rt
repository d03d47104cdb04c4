//! A turn of a link.

ghost use Rattle.std.specs.Prelude.{◌≡◌, List, None, Some, IfOk, IfSome, OnOk, OnErr};
ghost use Rattle.cx_desk.specs.Held.{handlers_of};
ghost use Rattle.cx_node.specs.Tables.{without};
ghost use Rattle.cx_node.specs.cx_rules.specs.Links.{link_of, without_link};
ghost use Rattle.cx_daemon_events.specs.cx_rules_session.specs.DaemonRule as rule;
ghost use Rattle.cx_daemon_events.specs.cx_rules_session.specs.DaemonRule.{AsAcceptor};
ghost use Rattle.cx_daemon_events.specs.cx_rules_session.specs.Kinds.{of_kind};
ghost use Rattle.cx_session.specs.Answers.{IsReserved};
ghost use Rattle.cx_node.specs.steps.Steps.{node_of};
ghost use Rattle.cx_daemon_events.specs.Kinds.{DaemonLink};
ghost use Rattle.cx_daemon_events.specs.Machine.{AreHeld, IsBookStep};
ghost use Rattle.cx_daemon_session.specs.turn.Hosting.{behind_call};
ghost use Rattle.cx_daemon.specs.Turned.{IsLinkTurned};

use crate::moving::shuts_older;
use cx_daemon_events::{
    Book, IncomingLink, Kind, Link, Own, SessionOwner, came_of_incoming, own_turns, settles,
};
use cx_daemon_session::{HostedTurn, hosts};
use cx_desk::Desk;
use cx_node::{Links, Moment};
use cx_session::BookCall;
use cx_steps::Effects;
use std::alloc::{AllocError, Global};

// One banner or frame of what came on a link is handled, if it lives.
pub(crate) fn turns(
    alloc: Global,
    own: &mut Own,
    book: &mut Book,
    links: &mut Links<Link>,
    desk: &Desk,
    at: &Moment<'_>,
) -> Result<Effects, AllocError>
    requires room { links.old.room ≡ None }
    requires held { AreHeld links.old.links }
    ensures step { IfOk result (IsBookStep (node_of own.new links.new.links) book.old.book book.new.book
        (rule.turn (handlers_of desk.now) (node_of own.old links.old.links) at.now.reading at.now.draw.now.bytes (link_of at.now.number links.old.links))) }
    ensures own { OnErr result (own.new ≡ own.old) }
    ensures book { OnErr result (book.new.book ≡ book.old.book) }
    ensures lost { OnErr result (links.new.links ≡ without_link at.now.number links.old.links) }
    ensures room { links.new.room ≡ None }
    ensures held { AreHeld links.new.links }
{
    let Some(link) = links.take(at.number) else {
        return Ok(Effects::new(alloc));
    };
    match by_kind(alloc, own, book, links, desk, at, link) {
        Ok(out) => Ok(out),
        Err(error) => {
            links.give_up();
            links.remove(at.number);
            Err(error)
        }
    }
}

// The link that was taken out of all is turned, and settled.
fn by_kind(
    alloc: Global,
    own: &mut Own,
    book: &mut Book,
    links: &mut Links<Link>,
    desk: &Desk,
    at: &Moment<'_>,
    link: Link,
) -> Result<Effects, AllocError>
    requires number { link.number ≡ at.now.number }
    requires room { links.old.room ≡ Some at.now.number }
    ensures turned { (all : List DaemonLink) → links.old.links ≡ without (λ link. link.number) at.now.number all → link_of at.now.number all ≡ Some link
        → AreHeld all → IfOk result (IsLinkTurned (handlers_of desk.now) at.now link own.old own.new all links.new.links book.old.book book.new.book) }
    ensures own { (all : List DaemonLink) → links.old.links ≡ without (λ link. link.number) at.now.number all → OnErr result (own.new ≡ own.old) }
    ensures book { OnErr result (book.new.book ≡ book.old.book) }
    ensures lost { (all : List DaemonLink) → links.old.links ≡ without (λ link. link.number) at.now.number all → AreHeld all
        → OnErr result (without (λ link. link.number) at.now.number links.new.links ≡ without (λ link. link.number) at.now.number all) }
    ensures room { OnOk result (links.new.room ≡ None) }
{
    match link.kind {
        Kind::Incoming(link) => incoming_turns(alloc, own, book, links, desk, at, link),
        Kind::Own(link) => own_turns(alloc, own, links, at, link),
    }
}

// ---- an incoming link

// What a turn of an incoming link came to is settled; a session that moved to it has its older links shut; and the book is changed last.
fn incoming_turns(
    alloc: Global,
    own: &mut Own,
    book: &mut Book,
    links: &mut Links<Link>,
    desk: &Desk,
    at: &Moment<'_>,
    link: IncomingLink,
) -> Result<Effects, AllocError>
    requires number { link.number ≡ at.now.number }
    requires room { links.old.room ≡ Some at.now.number }
    ensures turned { (all : List DaemonLink) → links.old.links ≡ without (λ link. link.number) at.now.number all
        → link_of at.now.number all ≡ Some (of_kind AsAcceptor link) → AreHeld all
        → IfOk result (IsLinkTurned (handlers_of desk.now) at.now (of_kind AsAcceptor link) own.old own.new all links.new.links book.old.book book.new.book) }
    ensures own { (all : List DaemonLink) → links.old.links ≡ without (λ link. link.number) at.now.number all → OnErr result (own.new ≡ own.old) }
    ensures book { OnErr result (book.new.book ≡ book.old.book) }
    ensures lost { (all : List DaemonLink) → links.old.links ≡ without (λ link. link.number) at.now.number all → AreHeld all
        → OnErr result (without (λ link. link.number) at.now.number links.new.links ≡ without (λ link. link.number) at.now.number all) }
    ensures room { OnOk result (links.new.room ≡ None) }
{
    let HostedTurn { came, moved, call } = hosts(alloc, own.mon_client(), book, desk, at, link)?;
    let out = settles(alloc, own, links, at.number, came_of_incoming(came))?;
    let out = shuts_older(alloc, links, at.number, moved, out)?;
    applies(book, call);
    Ok(out)
}

// The book is changed by the call that changes it, if one does.
fn applies(book: &mut Book, call: Option<BookCall<SessionOwner>>)
    requires { IfSome call (IsReserved book.old) }
    ensures { book.new.book ≡ behind_call book.old.book call }
{
    match call {
        Some(call) => book.apply(call),
        None => (),
    }
}
