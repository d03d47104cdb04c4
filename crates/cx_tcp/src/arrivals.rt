//! Peers that open links to a table.

ghost use Rattle.std.specs.Prelude.{ℕ, ◌≡◌, ◌<◌, IfSome};
ghost use Rattle.cx_outside.specs.linking.Events.{IsWithin};

use crate::crowd::{count_unshut, crowding, first_shut, oldest_stranger};
use crate::limits::MOST;
use crate::table::{LISTENER, Table, address_of};
use cx_base::Addr;
use cx_outside::LinkEvent;
use mio::net::{TcpListener, TcpStream};
use mio::{Interest, Token};
use std::io;
use std::io::{Eprint, ErrorKind};
use std::net::{IpAddr, Net};
use std::random::RandomSource;
use std::time::{Clock, Instant};

// How many links a node takes: it refuses further ones. Where so many stand that it didn't shut, strangers go for newcomers.
const CROWD: usize = 1_024;

// How many places are left to links that the node opens.
const OWN: usize = 16;

// How many newcomers are turned away at one look.
const TURNED_AWAY: usize = 64;

// What the system answers where the process has opened as many files as it may.
const TOO_MANY_FILES: i32 = 24;

// Who goes for a newcomer: the link at a place, the newcomer itself, or nobody.
#[derive(Clone, Copy)]
enum Displaced {
    Link(usize),
    Newcomer,
    Nobody,
}

impl<R: Net + Eprint + Clock + RandomSource + Drop> Table<R> {
    pub fn listen(&mut self, at: &Addr) -> io::Result<()> {
        let address = address_of(at);
        let mut listener = TcpListener::bind(&self.rt, address)?;
        let poll = self.poll()?;
        poll.registry()
            .register(&mut listener, Token(LISTENER), Interest::READABLE)?;
        self.listener = Some(listener);
        self.may_accept = true;
        let _ = eprintln!(self.rt; "cephx_cli: listens on {address}");
        Ok(())
    }

    /// A link that a peer opened. Where many stand, another one goes first, and the newcomer is taken behind that. A peer that is gone
    /// again, or for which the system has no room now, is no fault.
    pub fn accept(&mut self, now: Instant) -> Option<LinkEvent>
        ensures { IfSome result (λ event. (room : ℕ) → IsWithin event room) }
    {
        for _ in 0..TURNED_AWAY {
            if self.newcomer.is_none() && !self.meets() {
                return None;
            }
            match self.displaced(now) {
                Displaced::Link(place) => {
                    let gone = self.close(place, now);
                    if gone.is_some() {
                        return gone;
                    }
                }
                Displaced::Newcomer => self.newcomer = None,
                Displaced::Nobody => return self.let_in(now),
            }
        }
        None
    }

    // The newcomer's link, if there is a place for it.
    fn let_in(&mut self, now: Instant) -> Option<LinkEvent>
        ensures { IfSome result (λ event. (room : ℕ) → IsWithin event room) }
    {
        if self.is_full() {
            return None;
        }
        let (stream, peer) = self.newcomer.take()?;
        match self.take_in(stream, peer, now) {
            Ok(number) => Some(LinkEvent::Opened(number)),
            Err(error) => {
                self.drops(&error);
                None
            }
        }
    }

    // Whether a peer came that can be taken in, now or once another one went.
    fn meets(&mut self) -> bool {
        if !self.may_accept {
            return false;
        }
        if self.is_full() {
            self.tell_limit();
            if first_shut(&self.places).is_none() && oldest_stranger(&self.places, None).is_none() {
                return false;
            }
        }
        let Some(listener) = &self.listener else {
            return false;
        };
        match listener.accept() {
            Ok((stream, peer)) => self.newcomer = Some((stream, peer.ip())),
            Err(error) => self.meets_none(&error),
        }
        self.newcomer.is_some()
    }

    // Nobody came, or there is no room for who did. Where this process has opened all files that it may, fewer links may stand from now
    // on.
    fn meets_none(&mut self, error: &io::Error) {
        self.may_accept = error.kind() != ErrorKind::WouldBlock;
        if error.raw_os_error() == Some(TOO_MANY_FILES) {
            self.most = self.most.min(self.standing.saturating_sub(OWN));
            self.tell_limit();
        }
    }

    // Says once that fewer links may stand than there are places for.
    fn tell_limit(&mut self) {
        if self.most < MOST && !self.is_limit_told {
            self.is_limit_told = true;
            let most = self.most;
            let _ = eprintln!(self.rt;
                "cephx_cli: links: {most} stand, and more are not taken: this process may open no more files (ulimit -n)"
            );
        }
    }

    // Whether no further link of a peer may stand.
    fn is_full(&self) -> bool {
        self.standing.saturating_add(OWN) >= self.most
    }

    // Who goes for the newcomer: where no place is left the link that was shut first, and where none is or as many stand that are not
    // shut as the node takes, a stranger.
    fn displaced(&mut self, now: Instant) -> Displaced {
        if self.is_full() {
            match first_shut(&self.places) {
                Some(place) => Displaced::Link(place),
                None => self.displaced_stranger(now),
            }
        } else if self.standing < CROWD || count_unshut(&self.places) < CROWD {
            Displaced::Nobody
        } else {
            self.displaced_stranger(now)
        }
    }

    // The stranger that goes for the newcomer: of an address that has more than half of them the one that stands longest. Where there is
    // no such address, the one of all that does, at most once in 50 ms for newcomers of one address; in between the one of its own
    // address that does, or, where none stands, the newcomer.
    fn displaced_stranger(&mut self, now: Instant) -> Displaced {
        let (Some((_, peer)), Some(oldest)) = (&self.newcomer, oldest_stranger(&self.places, None))
        else {
            return Displaced::Nobody;
        };
        let peer = *peer;
        let crowding = crowding(&self.places);
        if crowding.is_none() && self.displacing.takes(peer, now) {
            return Displaced::Link(oldest);
        }
        match oldest_stranger(&self.places, Some(crowding.unwrap_or(peer))) {
            Some(place) => Displaced::Link(place),
            None => Displaced::Newcomer,
        }
    }

    // Puts the link of a peer into a free place.
    fn take_in(&mut self, mut stream: TcpStream, peer: IpAddr, now: Instant) -> io::Result<u32> {
        let (place, number) = self.free_place()?;
        self.register(&mut stream, place)?;
        self.put(
            place,
            crate::socket::Socket::accepted(self.alloc, stream, number, peer, now),
        )
    }
}
