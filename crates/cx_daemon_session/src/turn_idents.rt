//! A turn of a link whose peer has signed, with the book of sessions.

ghost use Rattle.std.specs.Prelude.{◌≡◌, IfOk, IfSome};
ghost use Rattle.cx_desk.specs.Handlers.{Handlers};
ghost use Rattle.cx_daemon_session.specs.idents.Pending.{begun_as};
ghost use Rattle.cx_daemon_session.specs.declared.idents_pending.IdentTurn.TheVariants as begun;
ghost use Rattle.cx_session.specs.Answers.{IsReserved};
ghost use Rattle.cx_daemon_session.specs.cx_verifying.specs.Stages.{awaiting_ident};
ghost use Rattle.cx_daemon_session.specs.turn.Hosting.{IsHosted, IsMade};

use crate::asking::{Book, asks};
use crate::hosting::HostedTurn;
use crate::{Admitting, IdentTurn, Resuming, SessionOwner, admitted, ident_turn, resumed};
use cx_holdings::MonClient;
use cx_link::SecureLink;
use cx_node::Moment;
use std::alloc::{AllocError, Global};

// The turn is done, or the book is asked for a session.
pub(crate) fn identifies(
    alloc: Global,
    mon_client: &MonClient,
    book: &mut Book,
    at: &Moment<'_>,
    secure: SecureLink,
    owner: SessionOwner,
) -> Result<HostedTurn, AllocError>
    ensures hosted { (handlers : Handlers) → IfOk result (IsHosted handlers mon_client.now at.now (awaiting_ident at.now.number secure owner) book.old.book) }
    ensures ready { IfOk result (λ h. IfSome h.call (IsReserved book.new)) }
    ensures seen { book.new.book ≡ book.old.book }
{
    match ident_turn(alloc, mon_client, at, secure, owner)? {
        IdentTurn::Done(came) => Ok(HostedTurn::of(came)),
        IdentTurn::Admits(admitting) => admits(alloc, mon_client, book, at, admitting),
        IdentTurn::Resumes(resuming) => resumes(alloc, mon_client, book, at, resuming),
    }
}

// A session is admitted, or isn't: its call changes nothing then.
fn admits(
    alloc: Global,
    mon_client: &MonClient,
    book: &mut Book,
    at: &Moment<'_>,
    admitting: Admitting,
) -> Result<HostedTurn, AllocError>
    ensures made { IfOk result (IsMade mon_client.now at.now.number book.old.book (begun_as mon_client.now at.now (begun.Admits admitting))) }
    ensures ready { IfOk result (λ h. IfSome h.call (IsReserved book.new)) }
    ensures seen { book.new.book ≡ book.old.book }
{
    let reply = asks(alloc, book, admitting.call())?;
    let turn = admitted(alloc, mon_client, at, admitting, &reply)?;
    Ok(HostedTurn {
        came: turn.came,
        moved: None,
        call: Some(turn.call),
    })
}

// A session is resumed, or isn't: there is no call then.
fn resumes(
    alloc: Global,
    mon_client: &MonClient,
    book: &mut Book,
    at: &Moment<'_>,
    resuming: Resuming,
) -> Result<HostedTurn, AllocError>
    ensures made { IfOk result (IsMade mon_client.now at.now.number book.old.book (begun_as mon_client.now at.now (begun.Resumes resuming))) }
    ensures ready { IfOk result (λ h. IfSome h.call (IsReserved book.new)) }
    ensures seen { book.new.book ≡ book.old.book }
{
    let reply = asks(alloc, book, resuming.call())?;
    let turn = resumed(alloc, mon_client, at, resuming, &reply)?;
    Ok(HostedTurn {
        came: turn.came,
        moved: turn.moved,
        call: turn.call,
    })
}
