//! What is sent on the links of a table, and what waits there.

ghost use Rattle.std.specs.Prelude.{◌≡◌, IfSome, slice_get};
ghost use Rattle.cx_tcp.specs.Loads.{IsMost, load_of};

use crate::socket::{Socket, Unsent};
use crate::table::{Table, WAIT};
use cx_base::Failed;
use std::alloc::AllocError;
use std::io;
use std::io::Eprint;
use std::net::Net;
use std::random::RandomSource;
use std::time::{Clock, Duration, Instant};

// The most bytes that wait on all links.
const MOST: usize = 256 << 20;

impl<R: Net + Eprint + Clock + RandomSource + Drop> Table<R> {
    /// A link on which bytes can't be sent is closed at once. Where too many wait on all links, the one for which the most wait goes.
    pub fn send(&mut self, link: u32, bytes: &[u8]) -> Result<(), Failed> {
        let place = self.place_of(link).ok_or(Failed)?;
        let (sent, waits) = match self.places.get_mut(place) {
            Some(Some(socket)) => (socket.send(bytes), socket.waits()),
            _ => (Err(Unsent::Ended), false),
        };
        if let Err(why) = sent {
            let _ = self.take_away(place);
            if why == Unsent::OutOfMemory {
                self.drops(&io::Error::from(AllocError));
            }
            return Err(Failed);
        }
        if waits { self.relieve(link) } else { Ok(()) }
    }

    // Gives links up until no more waits than may. Where it is the one that was sent on last, the send fails.
    fn relieve(&mut self, link: u32) -> Result<(), Failed> {
        for _ in 0..self.places.len() {
            if load_of_all(&self.places) <= MOST {
                break;
            }
            let most = most_load(&self.places);
            let heaviest = place_of(&self.places, most).ok_or(Failed)?;
            match self.places.get_mut(heaviest) {
                Some(Some(socket)) if socket.number != link && !socket.is_closing() => {
                    socket.give_up(self.alloc);
                }
                Some(Some(socket)) if socket.number == link => {
                    let _ = self.take_away(heaviest);
                    return Err(Failed);
                }
                _ => {
                    let _ = self.take_away(heaviest);
                }
            }
        }
        Ok(())
    }

    /// Sends what waits, and then tells the peer of the end. Where the connect is still under way, nothing was sent.
    pub fn shut(&mut self, link: u32) {
        let now = Instant::now(&self.rt);
        let Some(place) = self.place_of(link) else {
            return;
        };
        match (self.places.get_mut(place), now) {
            (Some(Some(socket)), Ok(now)) if socket.is_connected() => socket.shut(now),
            _ => {
                let _ = self.take_away(place);
            }
        }
    }

    /// Sends on what waits, for at most 1 s.
    pub fn finish(&mut self) {
        for _ in 0..20 {
            if !self.send_on() || self.hear(Duration::from_millis(WAIT)).is_err() {
                return;
            }
        }
    }

    // Sends on what waits, and answers whether anything still does.
    fn send_on(&mut self) -> bool {
        let mut waits = false;
        for place in 0..self.places.len() {
            if let Some(Some(socket)) = self.places.get_mut(place) {
                if socket.send_on().is_err() {
                    let _ = self.take_away(place);
                } else if socket.waits() {
                    waits = true;
                }
            }
        }
        waits
    }
}

// How many bytes wait at a place.
fn load_of(slot: &Option<Socket>) -> usize
    ensures { result ≡ load_of slot.now }
{
    match slot {
        Some(socket) => socket.load(),
        None => 0,
    }
}

// How many bytes wait at all places.
fn load_of_all(places: &[Option<Socket>]) -> usize {
    let mut load = 0usize;
    for slot in places {
        load = load.saturating_add(load_of(slot));
    }
    load
}

// The most bytes that wait at a place.
fn most_load(places: &[Option<Socket>]) -> usize
    ensures { IsMost result places.now }
{
    let mut most = 0usize;
    for slot in places {
        most = most.max(load_of(slot));
    }
    most
}

// The first place at which so many bytes wait.
fn place_of(places: &[Option<Socket>], load: usize) -> Option<usize>
    ensures { IfSome result (λ place. IfSome (slice_get places.now place) (λ slot. load_of slot ≡ load)) }
{
    for (place, slot) in places.iter().enumerate() {
        if load_of(slot) == load {
            return Some(place);
        }
    }
    None
}
