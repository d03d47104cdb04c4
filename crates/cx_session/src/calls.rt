//! The calls of a book: the reply, the memory that the change takes, and the change.

ghost use Rattle.std.specs.Prelude.{◌≡◌, ◌≢◌, ◌⊎◌, IsOk, IfOk, IfErr, OnOk, OnErr, Ok, Err, Some, is_some};
ghost use Rattle.cx_session.specs.Book.{with_number, admit_reply, admitted, take_reply, taken, ended, resume_reply, resumed};
ghost use Rattle.cx_session.specs.Answers.{replied, after, NamesOwner, IsReserved, IsResumeCause};

use crate::book::SessionBook;
use crate::call::{BookCall, BookReply};
use crate::faults::{AdmitFault, AdmitRefusal, ResumeRefusal, TakeRefusal};
use cx_base::Owner;
use std::alloc::Global;

impl<O: Owner> SessionBook<O> {
    /// Makes the book's call of that name and gives its answer. The owner of a refused call is given up.
    pub fn answer(&mut self, alloc: Global, call: BookCall<O>) -> BookReply
        ensures reply { result ≢ BookReply.OutOfMemory → result ≡ replied O.entity_of O.gid_of self.old.book call }
        ensures after { result ≢ BookReply.OutOfMemory → self.new.book ≡ after O.entity_of O.gid_of self.old.book call }
        ensures err { result ≡ BookReply.OutOfMemory → self.new ≡ self.old }
        ensures wants { result ≡ BookReply.OutOfMemory → NamesOwner (replied O.entity_of O.gid_of self.old.book call) ⊎ (IsReserved self.old call → ⊥) }
    {
        match self.reply(alloc, &call) {
            BookReply::OutOfMemory => BookReply::OutOfMemory,
            reply => {
                if self.reserve(alloc, &call).is_err() {
                    return BookReply::OutOfMemory;
                }
                self.apply(call);
                reply
            }
        }
    }

    /// Admits a session, and answers its number and its epoch, which is 1.
    pub fn admit(
        &mut self,
        _alloc: Global,
        owner: O,
        client_cookie: u64,
        server_cookie: u64,
        global_seq: u64,
        lossy: bool,
    ) -> Result<(u64, u64), AdmitRefusal<O>>
        ensures ok { IfOk result (λ given. admit_reply self.old.book client_cookie ≡ Ok given) }
        ensures admitted { OnOk result (self.new.book ≡ admitted self.old.book owner client_cookie server_cookie global_seq lossy) }
        ensures cause { IfErr result (λ refusal. (refusal.fault ≡ AdmitFault.OutOfMemory) ⊎ (admit_reply self.old.book client_cookie ≡ Err refusal.fault)) }
        ensures wants { IfErr result (λ refusal. refusal.fault ≡ AdmitFault.OutOfMemory → IsOk (admit_reply self.old.book client_cookie) × (self.old.room ≢ Some client_cookie)) }
        ensures kept { IfErr result (λ refusal. refusal.owner ≡ owner) }
        ensures err { OnErr result (self.new ≡ self.old) }
    {
        let given = match self.admit_reply(client_cookie) {
            Ok(given) => given,
            Err(fault) => return Err(AdmitRefusal { owner, fault }),
        };
        if self.reserve_admission(client_cookie).is_err() {
            return Err(AdmitRefusal {
                owner,
                fault: AdmitFault::OutOfMemory,
            });
        }
        self.apply(BookCall::Admit {
            owner,
            client_cookie,
            server_cookie,
            global_seq,
            lossy,
        });
        Ok(given)
    }

    /// Gives a session to its owner again, and answers its number, its new epoch, the last message taken, and whether it is
    /// lossy.
    pub fn resume(
        &mut self,
        alloc: Global,
        owner: O,
        client_cookie: u64,
        server_cookie: u64,
        global_seq: u64,
        connect_seq: u64,
    ) -> Result<(u64, u64, u64, bool), ResumeRefusal<O>>
        ensures ok { IfOk result (λ given. resume_reply O.entity_of O.gid_of self.old.book owner client_cookie server_cookie global_seq connect_seq ≡ Ok given) }
        ensures resumed { IfOk result (λ given. self.new.book ≡ resumed self.old.book given.0 owner global_seq connect_seq) }
        ensures cause { IfErr result (λ refusal. IsResumeCause (resume_reply O.entity_of O.gid_of self.old.book owner client_cookie server_cookie global_seq connect_seq) refusal.fault) }
        ensures kept { IfErr result (λ refusal. refusal.owner ≡ owner) }
        ensures err { OnErr result (self.new ≡ self.old) }
    {
        let given = match self.resume_reply(
            alloc,
            &owner,
            client_cookie,
            server_cookie,
            global_seq,
            connect_seq,
        ) {
            Ok(given) => given,
            Err(fault) => return Err(ResumeRefusal { owner, fault }),
        };
        self.apply(BookCall::Resume {
            owner,
            client_cookie,
            server_cookie,
            global_seq,
            connect_seq,
        });
        Ok(given)
    }

    /// Takes a message, as `check` answers it.
    pub fn take(&mut self, number: u64, epoch: u64, seq: u64) -> Result<(), TakeRefusal>
        ensures reply { result ≡ take_reply self.old.book number epoch seq }
        ensures taken { OnOk result (self.new.book ≡ taken self.old.book number seq) }
        ensures err { OnErr result (self.new ≡ self.old) }
    {
        self.check(number, epoch, seq)?;
        self.apply(BookCall::Take { number, epoch, seq });
        Ok(())
    }

    /// Ends a session, and answers whether it lived.
    pub fn end(&mut self, number: u64) -> bool
        ensures live { result ≡ is_some (with_number number self.old.book.live) }
        ensures ended { self.new.book ≡ ended self.old.book number }
    {
        let lived = self.is_live(number);
        self.apply(BookCall::End { number });
        lived
    }
}
