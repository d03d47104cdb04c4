//! A turn of an incoming link, with the book of sessions.

ghost use Rattle.std.specs.Prelude.{◌≡◌, None, IfOk, IfSome};
ghost use Rattle.cx_desk.specs.Held.{handlers_of};
ghost use Rattle.cx_session.specs.Answers.{IsReserved};
ghost use Rattle.cx_daemon_session.specs.turn.Hosting.{IsHosted};

use crate::asking::Book;
use crate::operations::operates;
use crate::turn_idents::identifies;
use crate::{IncomingTurn, Link, SessionOwner, turned};
use cx_desk::Desk;
use cx_holdings::MonClient;
use cx_node::{Came, Moment};
use cx_session::BookCall;
use std::alloc::{AllocError, Global};

/// What a turn of an incoming link came to: the session that moved to it, whose other links are to be shut, and the call that changes the book last, if
/// there is one.
#[derive(Drop)]
pub struct HostedTurn {
    pub came: Came<Link, ()>,
    pub moved: Option<u64>,
    pub call: Option<BookCall<SessionOwner>>,
}

impl HostedTurn {
    // A turn by which no session moves, and that leaves the book as it is.
    pub(crate) fn of(came: Came<Link, ()>) -> HostedTurn
        ensures { result ≡ record { came = came; moved = None; call = None } }
    {
        HostedTurn {
            came,
            moved: None,
            call: None,
        }
    }
}

/// What stands next on an incoming link. The book stays as it is, and memory stands ready in it for the call. Nothing else of what the daemon has is
/// changed; a handler is called where a message is taken.
pub fn hosts(
    alloc: Global,
    mon_client: &MonClient,
    book: &mut Book,
    desk: &Desk,
    at: &Moment<'_>,
    link: Link,
) -> Result<HostedTurn, AllocError>
    requires { link.number ≡ at.now.number }
    ensures hosted { IfOk result (IsHosted (handlers_of desk.now) mon_client.now at.now link book.old.book) }
    ensures ready { IfOk result (λ h. IfSome h.call (IsReserved book.new)) }
    ensures seen { book.new.book ≡ book.old.book }
{
    match turned(alloc, mon_client, at, link)? {
        IncomingTurn::Came(came) => Ok(HostedTurn::of(came)),
        IncomingTurn::AwaitsIdent(secure, owner) => identifies(
            alloc, mon_client, book, at, secure, owner,
        ),
        IncomingTurn::Open(secure, served) => operates(
            alloc, mon_client, book, desk, at, secure, served,
        ),
    }
}
