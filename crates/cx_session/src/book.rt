//! How a book keeps its sessions: by number, and by client cookie.

ghost use Rattle.std.specs.Prelude.{◌≡◌, ◌≢◌, ◌≤◌, IfSome, IfNone, IsSome, None, Some, length};
ghost use Rattle.std.specs.Option.{option_copied, option_map};
ghost use Rattle.cx_session.specs.Book.{empty_book, IsInOrder, with_number, with_client_cookie, with_cookies};

use crate::numbers::Numbers;
use crate::places::ByNumber;
use crate::session::Session;
use std::alloc::Global;
use std::collections::BTreeMap;
use std::marker::Model;

/// The sessions that a daemon keeps. No owner is looked into beyond what `Owner` tells.
#[derive(Drop)]
pub struct SessionBook<O> {
    pub(crate) next: u64,
    pub(crate) count: usize,
    pub(crate) places: ByNumber<O>,
    pub(crate) numbers: Numbers,
    pub(crate) room: Option<u64>,
}

impl<O> Model for SessionBook<O> {
    ghost use Rattle.cx_session.specs.Book.{KeptBook};
    ghost use Rattle.cx_session.specs.Kept.{sessions, IsKept};

    ghost Value = { KeptBook O };

    ghost view = { λ b. record { book = record { next = b.next; live = sessions b.places.entries }; room = b.room } };

    ghost invariant = { λ b. IsKept b.next b.count b.places b.numbers b.room };
}

impl<O> SessionBook<O> {
    /// No sessions.
    pub fn new(alloc: Global) -> SessionBook<O>
        ensures { result ≡ record { book = empty_book; room = None } }
    {
        SessionBook {
            next: 1,
            count: 0,
            places: BTreeMap::new(alloc),
            numbers: BTreeMap::new(alloc),
            room: None,
        }
    }

    /// How many sessions live.
    pub fn count(&self) -> usize
        ensures count { result ≡ length self.now.book.live }
        ensures few { result ≤ 4096 }
        ensures order { IsInOrder 0 self.now.book.next self.now.book.live }
    {
        self.count
    }

    // The live session with this number.
    pub(crate) fn session(&self, number: u64) -> Option<&Session<O>>
        ensures found { option_copied result ≡ with_number number self.now.book.live }
        ensures numbered { IfSome result (λ s. with_number s.now.number self.now.book.live ≡ Some s.now) }
    {
        match self.places.get(&number) {
            None => None,
            Some(None) => None,
            Some(Some(session)) => Some(session),
        }
    }

    // The live session with this client cookie.
    pub(crate) fn session_of_client(&self, client_cookie: u64) -> Option<&Session<O>>
        ensures found { option_copied result ≡ with_client_cookie client_cookie self.now.book.live }
        ensures numbered { IfSome result (λ s. with_number s.now.number self.now.book.live ≡ Some s.now) }
    {
        let number = self.numbers.get(&client_cookie)?;
        let session = self.session(*number)?;
        if session.client_cookie != client_cookie {
            return None;
        }
        Some(session)
    }

    // The live session with both cookies.
    pub(crate) fn session_of(&self, client_cookie: u64, server_cookie: u64) -> Option<&Session<O>>
        ensures found { option_copied result ≡ with_cookies client_cookie server_cookie self.now.book.live }
        ensures numbered { IfSome result (λ s. with_number s.now.number self.now.book.live ≡ Some s.now) }
    {
        let _ = &self.numbers;
        let session = self.session_of_client(client_cookie)?;
        if session.server_cookie != server_cookie {
            return None;
        }
        Some(session)
    }

    // The cookie for which memory stands ready, where that is another one and no session has it.
    pub(crate) fn stale(&self, client_cookie: u64) -> Option<u64>
        ensures other { IfSome result (λ cookie. cookie ≢ client_cookie) }
        ensures free { IfSome result (λ cookie. with_client_cookie cookie self.now.book.live ≡ None) }
        ensures none { IfNone result (IfSome self.now.room (λ cookie. cookie ≢ client_cookie → IsSome (with_client_cookie cookie self.now.book.live))) }
    {
        let reserved = self.room?;
        if reserved == client_cookie {
            return None;
        }
        match self.session_of_client(reserved) {
            Some(_) => None,
            None => Some(reserved),
        }
    }

    /// The owner of the live session with this number.
    pub fn owner(&self, number: u64) -> Option<&O>
        ensures { option_copied result ≡ option_map (λ s. s.owner) (with_number number self.now.book.live) }
    {
        let session = self.session(number)?;
        Some(&session.owner)
    }
}
