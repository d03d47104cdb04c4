//! What lies under the lock: a book of sessions, and the history of its calls.

ghost use Rattle.std.specs.Prelude.{◌≡◌, [], OnErr, IfOk, IfSome, IfNone, IsNone, IsSome};
ghost use Rattle.cx_session.specs.declared.call.BookCall.TheVariants.{Check, Take, End};
ghost use Rattle.cx_session.specs.declared.call.BookReply.TheVariants as reply;
ghost use Rattle.cx_session.specs.Book.{empty_book};
ghost use Rattle.cx_session.specs.Answers.{replied, after, message_reply, IsReserved};
ghost use Rattle.cx_hall.specs.History.{MakesEntry, book_of};
ghost use Rattle.cx_hall.specs.Passes.{Made, Looked, Answered};
ghost use Rattle.cx_hall.specs.Rule.{IsWord, keeper_of};

use crate::history::History;
use crate::pass::{Pass, Receipt};
use crate::rule::{HallName, HallSeat, HallTable};
use cx_base::Owner;
use cx_session::{BookCall, BookReply, SessionBook, TakeRefusal, message_reply};
use std::alloc::{AllocError, Global};
use std::marker::Model;

/// A book that records its calls. To a contract it is their history.
#[derive(Drop)]
pub(crate) struct RecordedBook<O: Owner, N: HallName> {
    pub(crate) book: SessionBook<O>,
    pub(crate) history: History<O, N>,
}

impl<O: Owner, N: HallName> Model for RecordedBook<O, N> {
    ghost use Rattle.std.specs.Prelude.{◌≡◌, List};
    ghost use Rattle.cx_hall.specs.declared.entry.HallEntry.{HallEntry};
    ghost use Rattle.cx_hall.specs.History.{book_of};

    ghost Value = { List (HallEntry O) };

    ghost view = { λ b. b.history };

    ghost invariant = { λ b. b.book.book ≡ book_of O.entity_of O.gid_of b.history };
}

impl<O: Owner, N: HallName> RecordedBook<O, N> {
    pub(crate) fn new(book: SessionBook<O>, keeper: HallSeat<O>) -> RecordedBook<O, N>
        requires book { book.book ≡ empty_book }
        requires keeper { (keeper.table_id ≡ N.table) × (keeper.me ≡ (keeper_of [], [])) }
        ensures { result ≡ [] }
    {
        RecordedBook {
            book,
            history: History::new(keeper),
        }
    }

    // Makes a call, whatever it is.
    #[tactic(auto, using(crate::proofs::Calls::message_is_no_want))]
    pub(crate) fn answer(
        &mut self,
        alloc: Global,
        table: &HallTable<O>,
        pass: &mut Pass<O, N>,
        call: BookCall<O>,
    ) -> (BookReply, Option<Receipt>)
        requires { (table.now.shared.table_id ≡ N.table) × IsWord table.now.shared.table_id }
        ensures answered { IfSome result.1 (λ receipt. Answered O.entity_of O.gid_of pass.old call result.0 receipt.place pass.new) }
        ensures none { IfNone result.1 ((result.0 ≡ reply.OutOfMemory) × (pass.new ≡ pass.old)) }
        ensures wants { result.0 ≡ reply.OutOfMemory → IsNone result.1 }
    {
        match checked(&call) {
            Some((number, epoch, seq)) => {
                let (answer, receipt) = self.check(table, pass, number, epoch, seq);
                (message_reply(answer), Some(receipt))
            }
            None => self.make(alloc, table, pass, call),
        }
    }

    // Makes a call that is no check.
    #[tactic(auto, using(crate::proofs::Calls::answered_by_entry))]
    fn make(
        &mut self,
        alloc: Global,
        table: &HallTable<O>,
        pass: &mut Pass<O, N>,
        call: BookCall<O>,
    ) -> (BookReply, Option<Receipt>)
        requires table { (table.now.shared.table_id ≡ N.table) × IsWord table.now.shared.table_id }
        requires entry { MakesEntry call }
        ensures answered { IfSome result.1 (λ receipt. Answered O.entity_of O.gid_of pass.old call result.0 receipt.place pass.new) }
        ensures none { IfNone result.1 ((result.0 ≡ reply.OutOfMemory) × (pass.new ≡ pass.old)) }
        ensures wants { result.0 ≡ reply.OutOfMemory → IsNone result.1 }
    {
        match self.book.reply(alloc, &call) {
            BookReply::OutOfMemory => (BookReply::OutOfMemory, None),
            reply => match record(&mut self.book, &mut self.history, alloc, table, pass, &call) {
                None => (BookReply::OutOfMemory, None),
                Some(receipt) => {
                    self.book.apply(call);
                    (reply, Some(receipt))
                }
            },
        }
    }

    // Answers a check. It makes no entry.
    pub(crate) fn check(
        &mut self,
        table: &HallTable<O>,
        pass: &mut Pass<O, N>,
        number: u64,
        epoch: u64,
        seq: u64,
    ) -> (Result<(), TakeRefusal>, Receipt)
        requires { (table.now.shared.table_id ≡ N.table) × IsWord table.now.shared.table_id }
        ensures { Looked O.entity_of O.gid_of pass.old (Check number epoch seq) (message_reply result.0) result.1.place pass.new }
    {
        let receipt = self.history.show(table, pass);
        (self.book.check(number, epoch, seq), receipt)
    }

    // Takes a message.
    pub(crate) fn take(
        &mut self,
        alloc: Global,
        table: &HallTable<O>,
        pass: &mut Pass<O, N>,
        number: u64,
        epoch: u64,
        seq: u64,
    ) -> Result<(Result<(), TakeRefusal>, Receipt), AllocError>
        requires { (table.now.shared.table_id ≡ N.table) × IsWord table.now.shared.table_id }
        ensures made { IfOk result (λ given. Made O.entity_of O.gid_of pass.old (Take number epoch seq) (message_reply given.0) given.1.place pass.new) }
        ensures err { OnErr result (pass.new ≡ pass.old) }
    {
        let answer = self.book.check(number, epoch, seq);
        let call = BookCall::Take { number, epoch, seq };
        match record(&mut self.book, &mut self.history, alloc, table, pass, &call) {
            None => Err(AllocError),
            Some(receipt) => {
                self.book.apply(call);
                Ok((answer, receipt))
            }
        }
    }

    // Ends a session.
    pub(crate) fn end(
        &mut self,
        alloc: Global,
        table: &HallTable<O>,
        pass: &mut Pass<O, N>,
        number: u64,
    ) -> Result<(bool, Receipt), AllocError>
        requires { (table.now.shared.table_id ≡ N.table) × IsWord table.now.shared.table_id }
        ensures made { IfOk result (λ given. Made O.entity_of O.gid_of pass.old (End number) (reply.Ended given.0) given.1.place pass.new) }
        ensures err { OnErr result (pass.new ≡ pass.old) }
    {
        let call = BookCall::End { number };
        match record(&mut self.book, &mut self.history, alloc, table, pass, &call) {
            None => Err(AllocError),
            Some(receipt) => Ok((self.book.end(number), receipt)),
        }
    }
}

// Takes the memory for a call, and puts it behind the history. Without a receipt nothing has changed that is seen.
pub(crate) fn record<O: Owner, N: HallName>(
    book: &mut SessionBook<O>,
    history: &mut History<O, N>,
    alloc: Global,
    table: &HallTable<O>,
    pass: &mut Pass<O, N>,
    call: &BookCall<O>,
) -> Option<Receipt>
    requires table { (table.now.shared.table_id ≡ N.table) × IsWord table.now.shared.table_id }
    requires entry { MakesEntry call.now }
    requires history { book.old.book ≡ book_of O.entity_of O.gid_of history.old }
    ensures book { book.new.book ≡ book.old.book }
    ensures ready { IsSome result → IsReserved book.new call.now }
    ensures added { IsSome result → book_of O.entity_of O.gid_of history.new ≡ after O.entity_of O.gid_of book.old.book call.now }
    ensures made { IfSome result (λ receipt. Made O.entity_of O.gid_of pass.old call.now (replied O.entity_of O.gid_of book.old.book call.now) receipt.place pass.new) }
    ensures none { IfNone result ((history.new ≡ history.old) × (pass.new ≡ pass.old)) }
{
    if !history.has_room() {
        return None;
    }
    match book.reserve(alloc, call) {
        Ok(()) => Some(history.add(table, pass, call)),
        Err(_) => None,
    }
}

// What a check asks about; nothing where the call is another one.
fn checked<O: Owner>(call: &BookCall<O>) -> Option<(u64, u64, u64)>
    ensures some { IfSome result (λ c. call.now ≡ Check c.0 c.1 c.2) }
    ensures none { IfNone result (MakesEntry call.now) }
{
    match call {
        BookCall::Check { number, epoch, seq } => Some((*number, *epoch, *seq)),
        BookCall::Admit { .. } => None,
        BookCall::Resume { .. } => None,
        BookCall::Take { .. } => None,
        BookCall::End { .. } => None,
    }
}
