//! A turn of an open link, with the book of sessions.

ghost use Rattle.std.specs.Prelude.{◌≡◌, IfOk, IfSome};
ghost use Rattle.cx_desk.specs.Held.{handlers_of};
ghost use Rattle.cx_daemon_session.specs.messages.Pending.{begun_as, checked_as};
ghost use Rattle.cx_daemon_session.specs.declared.messages_pending.CheckedTurn.TheVariants as checked;
ghost use Rattle.cx_daemon_session.specs.declared.messages_pending.OpenTurn.TheVariants as begun;
ghost use Rattle.cx_session.specs.Answers.{IsReserved};
ghost use Rattle.cx_daemon_session.specs.cx_verifying.specs.Stages.{open_link};
ghost use Rattle.cx_daemon_session.specs.turn.Hosting.{IsHosted, IsMade};

use crate::asking::{Book, asks};
use crate::hosting::HostedTurn;
use crate::{CheckedTurn, Checking, OpenTurn, Served, Taking, checked, open_turn, took};
use cx_desk::Desk;
use cx_holdings::MonClient;
use cx_link::SecureLink;
use cx_node::Moment;
use std::alloc::{AllocError, Global};

// The turn is done, or a message is to be checked.
pub(crate) fn operates(
    alloc: Global,
    mon_client: &MonClient,
    book: &mut Book,
    desk: &Desk,
    at: &Moment<'_>,
    secure: SecureLink,
    served: Served,
) -> Result<HostedTurn, AllocError>
    ensures hosted { IfOk result (IsHosted (handlers_of desk.now) mon_client.now at.now (open_link at.now.number secure served) book.old.book) }
    ensures ready { IfOk result (λ h. IfSome h.call (IsReserved book.new)) }
    ensures seen { book.new.book ≡ book.old.book }
{
    match open_turn(alloc, mon_client, at, secure, served)? {
        OpenTurn::Done(came) => Ok(HostedTurn::of(came)),
        OpenTurn::Checks(checking) => checks(alloc, mon_client, book, desk, at, checking),
    }
}

// The next message of its session is to be taken; the turn of any other is done.
fn checks(
    alloc: Global,
    mon_client: &MonClient,
    book: &mut Book,
    desk: &Desk,
    at: &Moment<'_>,
    checking: Checking,
) -> Result<HostedTurn, AllocError>
    ensures made { IfOk result (IsMade mon_client.now at.now.number book.old.book (begun_as (handlers_of desk.now) mon_client.now at.now (begun.Checks checking))) }
    ensures ready { IfOk result (λ h. IfSome h.call (IsReserved book.new)) }
    ensures seen { book.new.book ≡ book.old.book }
{
    let reply = asks(alloc, book, &checking.call())?;
    match checked(alloc, mon_client, at, checking, &reply)? {
        CheckedTurn::Done(came) => Ok(HostedTurn::of(came)),
        CheckedTurn::Takes(taking) => takes(alloc, mon_client, book, desk, at, taking),
    }
}

// A message is taken, or isn't: its call changes nothing then.
fn takes(
    alloc: Global,
    mon_client: &MonClient,
    book: &mut Book,
    desk: &Desk,
    at: &Moment<'_>,
    taking: Taking,
) -> Result<HostedTurn, AllocError>
    ensures made { IfOk result (IsMade mon_client.now at.now.number book.old.book (checked_as (handlers_of desk.now) mon_client.now at.now (checked.Takes taking))) }
    ensures ready { IfOk result (λ h. IfSome h.call (IsReserved book.new)) }
    ensures seen { book.new.book ≡ book.old.book }
{
    let call = taking.call();
    let reply = asks(alloc, book, &call)?;
    let came = took(alloc, mon_client, at, desk, taking, &reply)?;
    Ok(HostedTurn {
        came,
        moved: None,
        call: Some(call),
    })
}
