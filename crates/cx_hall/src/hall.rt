//! The hall: a book under a lock, and the word that counts its history.

ghost use Rattle.std.specs.Prelude.{◌≡◌, ◌<◌, [], All, IfOk, IfErr, IfSome, IfNone, IsNone, OnErr, Err, length};
ghost use Rattle.cx_session.specs.declared.call.BookCall.TheVariants.{Admit, Resume, Check, Take, End};
ghost use Rattle.cx_session.specs.declared.call.BookReply.TheVariants as reply;
ghost use Rattle.cx_session.specs.declared.faults.AdmitFault.TheVariants as admit;
ghost use Rattle.cx_session.specs.declared.faults.ResumeFault.TheVariants as resume;
ghost use Rattle.cx_session.specs.Answers.{message_reply};
ghost use Rattle.cx_hall.specs.Answers.{admission_as_reply, resumption_as_reply};
ghost use Rattle.cx_hall.specs.Passes.{Made, Looked, Answered};
ghost use Rattle.cx_hall.specs.Rule.{IsWord, keeper_of};

use crate::book::RecordedBook;
use crate::pass::{Pass, Receipt};
use crate::rule::{Enters, HallName, HallSeat, HallTable};
use cx_base::Owner;
use cx_session::{AdmitRefusal, BookCall, BookReply, ResumeRefusal, SessionBook, TakeRefusal};
use std::alloc::{AllocError, Global};
use std::marker::{Model, PhantomData};
use std::sync::{Mutex, Wait};

/// What a hall is made of: the word that counts its history. To a contract it is the name of the word, which becomes the hall's.
#[derive(Drop)]
pub struct UnnamedHall<O: Owner> {
    table: HallTable<O>,
    keeper: HallSeat<O>,
}

impl<O: Owner> Model for UnnamedHall<O> {
    ghost use Rattle.std.specs.Prelude.{◌≡◌, []};
    ghost use Rattle.atomic_table.specs.Seated.{TableId};
    ghost use Rattle.cx_hall.specs.Rule.{IsWord, keeper_of};

    ghost Value = { TableId };

    ghost view = { λ h. h.table.shared.table_id };

    ghost invariant = { λ h. (h.keeper.table_id ≡ h.table.shared.table_id) × IsWord h.table.shared.table_id × (h.keeper.me ≡ (keeper_of [], [])) };
}

impl<O: Owner> UnnamedHall<O> {
    pub fn new(alloc: Global) -> Result<UnnamedHall<O>, AllocError> {
        let (table, keeper) = HallTable::<O>::of_words(alloc, &[0], &())?;
        Ok(UnnamedHall { table, keeper })
    }
}

// The word, under its name.
#[derive(Drop)]
struct Counter<O: Owner, N: HallName> {
    table: HallTable<O>,
    hall: PhantomData<N>,
    ghost named: { table.shared.table_id ≡ N.table },
    ghost word: { IsWord table.shared.table_id },
}

/// A session book that threads share, and the history of its calls, each of which needs a pass of this hall. Contracts speak of
/// passes alone: between two calls the hall belongs to all threads.
#[derive(Drop)]
pub struct Hall<O: Owner, N: HallName> {
    counter: Counter<O, N>,
    book: Mutex<RecordedBook<O, N>>,
}

impl<O: Owner, N: HallName> Hall<O, N> {
    /// A hall without sessions, and so many passes.
    pub fn new(
        alloc: Global,
        unnamed: UnnamedHall<O>,
        passes: u32,
    ) -> Result<(Hall<O, N>, Vec<Pass<O, N>>), AllocError>
        requires name { unnamed ≡ N.table }
        ensures { IfOk result (λ made. (length made.1.items ≡ passes) × All (λ pass. pass.mine ≡ []) made.1.items) }
    {
        let hall = Hall::named(alloc, unnamed);
        let made = hall.passes(alloc, passes)?;
        Ok((hall, made))
    }

    fn named(alloc: Global, unnamed: UnnamedHall<O>) -> Hall<O, N>
        requires { unnamed ≡ N.table }
    {
        let UnnamedHall { table, keeper } = unnamed;
        Hall {
            counter: Counter {
                table,
                hall: PhantomData,
            },
            book: Mutex::new(RecordedBook::new(SessionBook::new(alloc), keeper)),
        }
    }

    fn passes(&self, alloc: Global, passes: u32) -> Result<Vec<Pass<O, N>>, AllocError>
        ensures { IfOk result (λ made. (length made.items ≡ passes) × All (λ pass. pass.mine ≡ []) made.items) }
    {
        let mut made = Vec::new(alloc);
        for _ in 0..passes {
            made.push(self.pass())?;
        }
        Ok(made)
    }

    fn pass(&self) -> Pass<O, N>
        ensures { result.mine ≡ [] }
    {
        Pass {
            badge: self
                .counter
                .table
                .shared
                .load_new_seat::<Enters>(0)
                .1
                .into_badge(),
            hall: PhantomData,
        }
    }

    /// Makes the hall's call of that name and gives its answer. The owner of a refused call is given up. Want of memory gives no
    /// receipt. A check makes no entry, and its place is the length of the history.
    pub fn answer<R: Wait>(
        &self,
        rt: &R,
        alloc: Global,
        pass: &mut Pass<O, N>,
        call: BookCall<O>,
    ) -> (BookReply, Option<Receipt>)
        ensures answered { IfSome result.1 (λ receipt. Answered O.entity_of O.gid_of pass.old call result.0 receipt.place pass.new) }
        ensures none { IfNone result.1 ((result.0 ≡ reply.OutOfMemory) × (pass.new ≡ pass.old)) }
        ensures wants { result.0 ≡ reply.OutOfMemory → IsNone result.1 }
    {
        self.book
            .lock(rt)
            .answer(alloc, &self.counter.table, pass, call)
    }

    /// Admits a session, and answers its number and its epoch, which is 1.
    pub fn admit<R: Wait>(
        &self,
        rt: &R,
        alloc: Global,
        pass: &mut Pass<O, N>,
        owner: O,
        client_cookie: u64,
        server_cookie: u64,
        global_seq: u64,
        lossy: bool,
    ) -> (Result<(u64, u64), AdmitRefusal<O>>, Option<Receipt>)
        ensures made { IfSome result.1 (λ receipt. Made O.entity_of O.gid_of pass.old (Admit owner client_cookie server_cookie global_seq lossy) (admission_as_reply result.0) receipt.place pass.new) }
        ensures none { IfNone result.1 ((result.0 ≡ Err (record { owner = owner; fault = admit.OutOfMemory })) × (pass.new ≡ pass.old)) }
        ensures kept { IfErr result.0 (λ refusal. refusal.owner ≡ owner) }
    {
        self.book.lock(rt).admit(
            alloc,
            &self.counter.table,
            pass,
            owner,
            client_cookie,
            server_cookie,
            global_seq,
            lossy,
        )
    }

    /// Gives a session to its owner again, and answers its number, its new epoch, the last message taken, and whether it is
    /// lossy.
    pub fn resume<R: Wait>(
        &self,
        rt: &R,
        alloc: Global,
        pass: &mut Pass<O, N>,
        owner: O,
        client_cookie: u64,
        server_cookie: u64,
        global_seq: u64,
        connect_seq: u64,
    ) -> (
        Result<(u64, u64, u64, bool), ResumeRefusal<O>>,
        Option<Receipt>,
    )
        ensures made { IfSome result.1 (λ receipt. Made O.entity_of O.gid_of pass.old (Resume owner client_cookie server_cookie global_seq connect_seq) (resumption_as_reply result.0) receipt.place pass.new) }
        ensures none { IfNone result.1 ((result.0 ≡ Err (record { owner = owner; fault = resume.OutOfMemory })) × (pass.new ≡ pass.old)) }
        ensures kept { IfErr result.0 (λ refusal. refusal.owner ≡ owner) }
    {
        self.book.lock(rt).resume(
            alloc,
            &self.counter.table,
            pass,
            owner,
            client_cookie,
            server_cookie,
            global_seq,
            connect_seq,
        )
    }

    /// What a message with this epoch and sequence number is answered. It makes no entry, and its place is the length of the
    /// history.
    pub fn check<R: Wait>(
        &self,
        rt: &R,
        pass: &mut Pass<O, N>,
        number: u64,
        epoch: u64,
        seq: u64,
    ) -> (Result<(), TakeRefusal>, Receipt)
        ensures { Looked O.entity_of O.gid_of pass.old (Check number epoch seq) (message_reply result.0) result.1.place pass.new }
    {
        self.book
            .lock(rt)
            .check(&self.counter.table, pass, number, epoch, seq)
    }

    /// Takes a message, as `check` answers it.
    pub fn take<R: Wait>(
        &self,
        rt: &R,
        alloc: Global,
        pass: &mut Pass<O, N>,
        number: u64,
        epoch: u64,
        seq: u64,
    ) -> Result<(Result<(), TakeRefusal>, Receipt), AllocError>
        ensures made { IfOk result (λ given. Made O.entity_of O.gid_of pass.old (Take number epoch seq) (message_reply given.0) given.1.place pass.new) }
        ensures err { OnErr result (pass.new ≡ pass.old) }
    {
        self.book
            .lock(rt)
            .take(alloc, &self.counter.table, pass, number, epoch, seq)
    }

    /// Ends a session, and answers whether it lived.
    pub fn end<R: Wait>(
        &self,
        rt: &R,
        alloc: Global,
        pass: &mut Pass<O, N>,
        number: u64,
    ) -> Result<(bool, Receipt), AllocError>
        ensures made { IfOk result (λ given. Made O.entity_of O.gid_of pass.old (End number) (reply.Ended given.0) given.1.place pass.new) }
        ensures err { OnErr result (pass.new ≡ pass.old) }
    {
        self.book
            .lock(rt)
            .end(alloc, &self.counter.table, pass, number)
    }
}
