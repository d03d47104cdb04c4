//! What changes a book. The memory that a change takes is reserved before it, and no change can fail.

ghost use Rattle.std.specs.Prelude.{◌≡◌, ◌+◌, ◌^◌, ◌<◌, IsOk, OnOk, OnErr, Some, None, IsSome, IfSome};
ghost use Rattle.std.specs.Option.{option_map};
ghost use Rattle.cx_session.specs.Book.{with_number, admit_reply, admitted, take_reply, taken, ended, resume_reply, resumed};
ghost use Rattle.cx_session.specs.Answers.{behind, after, IsReserved};

use crate::book::SessionBook;
use crate::call::BookCall;
use crate::numbers::{forget, make_known, note, unless_reserved};
use crate::places::{fill, make_ready, raise, renew};
use crate::session::Session;
use cx_base::Owner;
use std::alloc::{AllocError, Global};

impl<O: Owner> SessionBook<O> {
    /// Takes all the memory that `apply` takes for this call. The book stays as it is.
    pub fn reserve(&mut self, _alloc: Global, call: &BookCall<O>) -> Result<(), AllocError>
        ensures ok { OnOk result (IsReserved self.new call.now) }
        ensures seen { self.new.book ≡ self.old.book }
        ensures err { OnErr result (self.new ≡ self.old) }
        ensures ready { IsReserved self.old call.now → IsOk result }
        ensures still { IsReserved self.old call.now → self.new ≡ self.old }
    {
        match call {
            BookCall::Admit { client_cookie, .. } => self.reserve_admission(*client_cookie),
            BookCall::Resume { .. } => Ok(()),
            BookCall::Check { .. } => Ok(()),
            BookCall::Take { .. } => Ok(()),
            BookCall::End { .. } => Ok(()),
        }
    }

    // Takes all the memory that an admission with this client cookie takes, unless it would be refused.
    pub(crate) fn reserve_admission(&mut self, client_cookie: u64) -> Result<(), AllocError>
        ensures ok { OnOk result (IsOk (admit_reply self.new.book client_cookie) → self.new.room ≡ Some client_cookie) }
        ensures seen { self.new.book ≡ self.old.book }
        ensures err { OnErr result (self.new ≡ self.old) }
        ensures ready { (IsOk (admit_reply self.old.book client_cookie) → self.old.room ≡ Some client_cookie) → IsOk result }
        ensures still { (IsOk (admit_reply self.old.book client_cookie) → self.old.room ≡ Some client_cookie) → self.new ≡ self.old }
    {
        match self.admit_reply(client_cookie) {
            Err(_) => Ok(()),
            Ok(_) => self.make_room(client_cookie),
        }
    }

    // Takes all the memory that an admission with this client cookie takes.
    fn make_room(&mut self, client_cookie: u64) -> Result<(), AllocError>
        ensures ok { OnOk result (self.new ≡ record self.old { room = Some client_cookie }) }
        ensures err { OnErr result (self.new ≡ self.old) }
        ensures ready { self.old.room ≡ Some client_cookie → IsOk result }
    {
        if self.room == Some(client_cookie) {
            return Ok(());
        }
        self.change_room(client_cookie)
    }

    // Takes the memory for this client cookie, and gives up that for another.
    fn change_room(&mut self, client_cookie: u64) -> Result<(), AllocError>
        ensures ok { OnOk result (self.new ≡ record self.old { room = Some client_cookie }) }
        ensures err { OnErr result (self.new ≡ self.old) }
    {
        let stale = self.stale(client_cookie);
        make_ready(&mut self.places, self.next)?;
        make_known(&mut self.numbers, client_cookie, self.next)?;
        forget(&mut self.numbers, stale);
        self.room = Some(client_cookie);
        Ok(())
    }

    /// Makes the change of this call, for which memory stands ready. A call that would be refused changes nothing, and its
    /// owner is given up.
    pub fn apply(&mut self, call: BookCall<O>)
        requires { IsReserved self.old call }
        ensures { self.new.book ≡ after O.entity_of O.gid_of self.old.book call }
    {
        match call {
            BookCall::Admit {
                owner,
                client_cookie,
                server_cookie,
                global_seq,
                lossy,
            } => self.apply_admission(owner, client_cookie, server_cookie, global_seq, lossy),
            BookCall::Resume {
                owner,
                client_cookie,
                server_cookie,
                global_seq,
                connect_seq,
            } => self.apply_resumption(
                owner,
                client_cookie,
                server_cookie,
                global_seq,
                connect_seq,
            ),
            BookCall::Check { .. } => {}
            BookCall::Take { number, epoch, seq } => self.apply_message(number, epoch, seq),
            BookCall::End { number } => self.remove(number),
        }
    }

    // Admits a session, unless it would be refused.
    fn apply_admission(
        &mut self,
        owner: O,
        client_cookie: u64,
        server_cookie: u64,
        global_seq: u64,
        lossy: bool,
    )
        requires { IsOk (admit_reply self.old.book client_cookie) → self.old.room ≡ Some client_cookie }
        ensures { self.new.book ≡ behind (admit_reply self.old.book client_cookie) (λ _. admitted self.old.book owner client_cookie server_cookie global_seq lossy) self.old.book }
    {
        match self.admit_reply(client_cookie) {
            Err(_) => {}
            Ok(_) => {
                self.admit_reserved(owner, client_cookie, server_cookie, global_seq, lossy);
            }
        }
    }

    // Admits a session that would not be refused, with the memory that was reserved for it.
    fn admit_reserved(
        &mut self,
        owner: O,
        client_cookie: u64,
        server_cookie: u64,
        global_seq: u64,
        lossy: bool,
    )
        requires reply { IsOk (admit_reply self.old.book client_cookie) }
        requires room { self.old.room ≡ Some client_cookie }
        ensures { self.new ≡ record { book = admitted self.old.book owner client_cookie server_cookie global_seq lossy; room = None } }
    {
        let session = Session {
            number: self.next,
            epoch: 1,
            owner,
            client_cookie,
            server_cookie,
            global_seq,
            connect_seq: 0,
            last: 0,
            lossy,
        };
        fill(&mut self.places, session);
        note(&mut self.numbers, client_cookie, self.next);
        self.next += 1;
        self.count += 1;
        self.room = None;
    }

    // Gives a session to its owner again, unless that would be refused.
    fn apply_resumption(
        &mut self,
        owner: O,
        client_cookie: u64,
        server_cookie: u64,
        global_seq: u64,
        connect_seq: u64,
    )
        ensures { self.new.book ≡ behind (resume_reply O.entity_of O.gid_of self.old.book owner client_cookie server_cookie global_seq connect_seq) (λ given. resumed self.old.book given.0 owner global_seq connect_seq) self.old.book }
    {
        match self.resumable(
            &owner,
            client_cookie,
            server_cookie,
            global_seq,
            connect_seq,
        ) {
            None => {}
            Some(given) => self.renew(given.0, owner, global_seq, connect_seq),
        }
    }

    // Gives a live session to its owner again, in a new epoch.
    fn renew(&mut self, number: u64, owner: O, global_seq: u64, connect_seq: u64)
        requires live { IsSome (with_number number self.old.book.live) }
        requires epoch { IfSome (with_number number self.old.book.live) (λ s. s.epoch + 1 < 2 ^ 64) }
        ensures { self.new ≡ record self.old { book = resumed self.old.book number owner global_seq connect_seq } }
    {
        renew(&mut self.places, number, owner, global_seq, connect_seq);
    }

    // Takes a message, unless it would be refused.
    fn apply_message(&mut self, number: u64, epoch: u64, seq: u64)
        ensures { self.new.book ≡ behind (take_reply self.old.book number epoch seq) (λ _. taken self.old.book number seq) self.old.book }
    {
        match self.check(number, epoch, seq) {
            Err(_) => {}
            Ok(()) => self.raise(number, seq),
        }
    }

    // Raises the last message taken of a live session.
    fn raise(&mut self, number: u64, seq: u64)
        requires { IsSome (with_number number self.old.book.live) }
        ensures { self.new ≡ record self.old { book = taken self.old.book number seq } }
    {
        raise(&mut self.places, number, seq);
    }

    // Ends a session, if it lives.
    fn remove(&mut self, number: u64)
        ensures { self.new ≡ record self.old { book = ended self.old.book number } }
    {
        let Some(session) = self.session(number) else {
            return;
        };
        let client_cookie = session.client_cookie;
        self.give_up(number, client_cookie);
    }

    // Gives up the place of a live session and the one of its client cookie.
    fn give_up(&mut self, number: u64, client_cookie: u64)
        requires { option_map (λ s. s.client_cookie) (with_number number self.old.book.live) ≡ Some client_cookie }
        ensures { self.new ≡ record self.old { book = ended self.old.book number } }
    {
        let gone = unless_reserved(client_cookie, self.room);
        self.places.remove(&number);
        forget(&mut self.numbers, gone);
        self.count -= 1;
    }
}
