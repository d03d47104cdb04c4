//! What the book of sessions is asked.

ghost use Rattle.std.specs.Prelude.{◌≡◌, IfOk, OnOk};
ghost use Rattle.cx_daemon_session.specs.cx_rules_session.specs.DaemonRule.{book_reply};
ghost use Rattle.cx_session.specs.Answers.{IsReserved};

use crate::SessionOwner;
use cx_session::{BookCall, BookReply, SessionBook};
use std::alloc::{AllocError, Global};

/// The sessions of a daemon.
pub(crate) type Book = SessionBook<SessionOwner>;

/// The book's reply to a call, with memory ready for its change. The book stays as it is.
pub(crate) fn asks(
    alloc: Global,
    book: &mut Book,
    call: &BookCall<SessionOwner>,
) -> Result<BookReply, AllocError>
    ensures reply { IfOk result (λ reply. reply ≡ book_reply book.old.book call.now) }
    ensures ready { OnOk result (IsReserved book.new call.now) }
    ensures seen { book.new.book ≡ book.old.book }
{
    match book.reply(alloc, call) {
        BookReply::OutOfMemory => Err(AllocError),
        reply => {
            book.reserve(alloc, call)?;
            Ok(reply)
        }
    }
}
