//! The table of links over TCP.

ghost use Rattle.std.specs.Prelude.{ℕ, ◌≡◌, ◌<◌, length, IfOk, IfSome};
ghost use Rattle.cx_outside.specs.linking.Events.{IsWithin};

use crate::dials::Dials;
use crate::displacing::Displacing;
use crate::limits;
use crate::socket::{Served, Socket};
use cx_base::Addr;
use cx_outside::{LinkEvent, Regard};
use mio::net::{TcpListener, TcpStream};
use mio::{Events, Interest, Poll, Token};
use std::alloc::{AllocError, Global};
use std::io;
use std::io::Eprint;
use std::net::{IpAddr, Ipv4Addr, Net, SocketAddr};
use std::random::RandomSource;
use std::time::{Clock, Duration, Instant};

// How many pieces of news are taken from the system at once.
const NEWS: usize = 256;

/// The place of the listener, behind those of the links. A token is a place.
pub const LISTENER: usize = limits::MOST;

/// How many milliseconds are waited for news. A node that listens nowhere begins with fewer and doubles them, since it goes on by its
/// orders where nothing comes.
pub const WAIT: u64 = 50;

const FIRST_WAIT: u64 = 1;

// How many milliseconds lie between two looks for links that are overdue.
const SWEEP: u64 = 250;

/// All links of a node by their places, of which there are as many as there ever were links at a time, and at most `most`, and how many
/// stand; the listener, and a peer that came and for which a stranger went. The place at which the last look ended goes round.
#[derive(Drop)]
pub struct Table<R> {
    pub rt: R,
    pub alloc: Global,
    poll: Option<Poll>,
    news: Events,
    pub listener: Option<TcpListener>,
    pub may_accept: bool,
    pub newcomer: Option<(TcpStream, IpAddr)>,
    pub displacing: Displacing,
    pub places: Vec<Option<Socket>>,
    pub standing: usize,
    pub most: usize,
    pub is_limit_told: bool,
    dials: Dials,
    dropped: u64,
    last_number: u32,
    is_turn_of_newcomers: bool,
    place: usize,
    wait: u64,
    swept: Option<Instant>,
}

impl<R: Net + Eprint + Clock + RandomSource + Drop> Table<R> {
    pub fn new(alloc: Global, rt: R) -> Result<Table<R>, AllocError> {
        Ok(Table {
            rt,
            alloc,
            poll: None,
            news: Events::with_capacity(alloc, NEWS)?,
            listener: None,
            may_accept: false,
            newcomer: None,
            displacing: Displacing::new(alloc)?,
            places: Vec::with_capacity(alloc, limits::MOST)?,
            standing: 0,
            most: limits::places_within(limits::most_files()),
            is_limit_told: false,
            dials: Dials::new(alloc)?,
            dropped: 0,
            last_number: 0,
            is_turn_of_newcomers: true,
            place: 0,
            wait: FIRST_WAIT,
            swept: None,
        })
    }

    /// Says on standard error what the system refused. Where that fails too, the status is left.
    pub fn tell(&self, what: &str, error: &io::Error) {
        let _ = eprintln!(self.rt; "cephx_cli: {what}: {error}");
    }

    /// A link couldn't be kept, and was closed. That is counted, and said of the first one and whenever there are twice as many.
    pub fn drops(&mut self, error: &io::Error) {
        self.dropped = self.dropped.saturating_add(1);
        if self.dropped.is_power_of_two() {
            let count = self.dropped;
            let _ = eprintln!(self.rt;
                "cephx_cli: links: {count} so far could not be kept: {error}"
            );
        }
    }

    /// Opens a link: it is dialled now, or, where the last dial to this address failed, when the next one is due.
    pub fn open(&mut self, to: &Addr) -> io::Result<u32> {
        let now = Instant::now(&self.rt)?;
        match self.dials.due(to) {
            Some(due) if now < due => {
                let (place, number) = self.free_place()?;
                self.put(place, Socket::postponed(self.alloc, number, *to, due))
            }
            _ => self.dial(to, now),
        }
    }

    fn dial(&mut self, to: &Addr, now: Instant) -> io::Result<u32> {
        let (place, number) = self.free_place()?;
        let stream = self.connect(place, to, now)?;
        self.put(place, Socket::dialled(self.alloc, stream, number, *to, now))
    }

    // A connect to this address, of a link at this place.
    fn connect(&mut self, place: usize, to: &Addr, now: Instant) -> io::Result<TcpStream> {
        match TcpStream::connect(&self.rt, address_of(to)) {
            Ok(mut stream) => {
                self.register(&mut stream, place)?;
                Ok(stream)
            }
            Err(error) => {
                self.fails(to, now);
                Err(error)
            }
        }
    }

    // A dial to this address failed.
    fn fails(&mut self, to: &Addr, now: Instant) {
        let mut roll = [0; 1];
        // Without a random byte the wait is the whole one.
        let _ = self.rt.fill_bytes(&mut roll);
        let [roll] = roll;
        self.dials.fails(to, now, roll);
    }

    /// What is there, or what comes within 50 ms.
    pub fn next(&mut self, into: &mut [u8]) -> io::Result<LinkEvent>
        requires { 0 < length into.old }
        ensures bound { IfOk result (λ event. IsWithin event (length into.old)) }
        ensures room { length into.new ≡ length into.old }
    {
        self.hear(Duration::ZERO)?;
        if let Some(event) = self.look(into)? {
            self.wait = FIRST_WAIT;
            return Ok(event);
        }
        self.hear(self.patience())?;
        match self.look(into)? {
            Some(event) => {
                self.wait = FIRST_WAIT;
                Ok(event)
            }
            None => {
                self.wait = self.wait.saturating_mul(2);
                Ok(LinkEvent::Quiet)
            }
        }
    }

    // How long the next wait is.
    fn patience(&self) -> Duration {
        if self.listener.is_some() {
            Duration::from_millis(WAIT)
        } else {
            Duration::from_millis(self.wait.min(WAIT))
        }
    }

    /// The poll, which is made where it is first asked for.
    pub fn poll(&mut self) -> io::Result<&mut Poll> {
        if self.poll.is_none() {
            self.poll = Some(Poll::new(&self.rt)?);
        }
        match &mut self.poll {
            Some(poll) => Ok(poll),
            None => Err(io::Error::other("no poll")),
        }
    }

    /// The place of the link of this number, which isn't shut. Mostly it is the one at which something came last.
    pub fn place_of(&self, link: u32) -> Option<usize> {
        if self.stands_at(self.place, link) {
            return Some(self.place);
        }
        (0..self.places.len()).find(|place| self.stands_at(*place, link))
    }

    fn stands_at(&self, place: usize, link: u32) -> bool {
        match self.places.get(place) {
            Some(Some(socket)) => socket.number == link && !socket.is_closing(),
            _ => false,
        }
    }

    /// The link of this number, which isn't shut.
    pub fn socket_of(&mut self, link: u32) -> Option<&mut Socket> {
        let place = self.place_of(link)?;
        self.places.get_mut(place)?.as_mut()
    }

    /// Takes the link at this place away.
    pub fn take_away(&mut self, place: usize) -> Option<Socket> {
        let socket = self.places.get_mut(place)?.take()?;
        self.standing = self.standing.saturating_sub(1);
        Some(socket)
    }

    /// The node regards a link so from now on.
    pub fn regard(&mut self, link: u32, regard: Regard) {
        let now = Instant::now(&self.rt);
        if let (Some(socket), Ok(now)) = (self.socket_of(link), now) {
            socket.regards(regard, now);
        }
    }

    /// A place without a link, which may be a new one behind the others, and the number of the next link; an error where as many stand as
    /// may.
    pub fn free_place(&self) -> io::Result<(usize, u32)> {
        let full = || io::Error::other("all places for links are taken");
        if self.standing >= self.most {
            return Err(full());
        }
        let number = self.last_number.checked_add(1).ok_or_else(full)?;
        let free = self.places.iter().position(|slot| slot.is_none());
        Ok((free.unwrap_or(self.places.len()), number))
    }

    /// The system tells from now on of a stream what comes on it, by its place.
    pub fn register(&mut self, stream: &mut TcpStream, place: usize) -> io::Result<()> {
        // A stream that can't be told so is a slower one.
        let _ = stream.set_nodelay(true);
        let both = Interest::READABLE | Interest::WRITABLE;
        self.poll()?.registry().register(stream, Token(place), both)
    }

    /// Puts a new link into its place.
    pub fn put(&mut self, place: usize, socket: Socket) -> io::Result<u32> {
        let number = socket.number;
        let _ = self.take_away(place);
        match self.places.get_mut(place) {
            Some(slot) => *slot = Some(socket),
            None => self.places.push(Some(socket))?,
        }
        self.standing = self.standing.saturating_add(1);
        self.last_number = number;
        Ok(number)
    }

    /// Takes the link at this place away. Of one that the node didn't shut it hears that it is gone. A link that the node opened and on
    /// which nothing came is a dial that failed.
    pub fn close(&mut self, place: usize, now: Instant) -> Option<LinkEvent>
        ensures { IfSome result (λ event. (room : ℕ) → IsWithin event room) }
    {
        let socket = self.take_away(place)?;
        if socket.is_closing() {
            return None;
        }
        if let Some(to) = socket.unanswered() {
            self.fails(&to, now);
        }
        Some(LinkEvent::Gone(socket.number))
    }

    /// Waits for news of links that is not known yet, at most so long, and notes it.
    pub fn hear(&mut self, wait: Duration) -> io::Result<()> {
        self.poll()?;
        let Some(poll) = &mut self.poll else {
            return Ok(());
        };
        poll.poll(&mut self.news, Some(wait))?;
        for event in self.news.iter() {
            let Token(place) = event.token();
            if place == LISTENER {
                self.may_accept = true;
            } else if let Some(Some(socket)) = self.places.get_mut(place) {
                socket.note(event);
            }
        }
        Ok(())
    }

    // The next of what is there. Peers that come and links are served by turns, so that neither keeps the other waiting; a newcomer for
    // which a stranger went is taken at once.
    fn look(&mut self, into: &mut [u8]) -> io::Result<Option<LinkEvent>>
        ensures bound { IfOk result (λ event. IfSome event (λ event. IsWithin event (length into.old))) }
        ensures room { length into.new ≡ length into.old }
    {
        let now = Instant::now(&self.rt)?;
        if let Some(gone) = self.sweep(now) {
            return Ok(Some(gone));
        }
        let is_turn_of_newcomers = self.is_turn_of_newcomers || self.newcomer.is_some();
        self.is_turn_of_newcomers = !is_turn_of_newcomers;
        if is_turn_of_newcomers {
            if let Some(event) = self.accept(now) {
                return Ok(Some(event));
            }
        }
        let event = self.go_round(into, now);
        if event.is_some() || is_turn_of_newcomers {
            return Ok(event);
        }
        Ok(self.accept(now))
    }

    // The next of what is there on links, which are served in turn.
    fn go_round(&mut self, into: &mut [u8], now: Instant) -> Option<LinkEvent>
        ensures bound { IfSome result (λ event. IsWithin event (length into.old)) }
        ensures room { length into.new ≡ length into.old }
    {
        let count = self.places.len();
        for _ in 0..count {
            let next = self.place.saturating_add(1);
            self.place = if next < count { next } else { 0 };
            let event = self.serve(into, now);
            if event.is_some() {
                return event;
            }
        }
        None
    }

    // What is there at the place of this look.
    fn serve(&mut self, into: &mut [u8], now: Instant) -> Option<LinkEvent>
        ensures bound { IfSome result (λ event. IsWithin event (length into.old)) }
        ensures room { length into.new ≡ length into.old }
    {
        let place = self.place;
        let socket = self.places.get_mut(place)?.as_mut()?;
        if let Some(to) = socket.due(now) {
            return self.redial(place, &to, now);
        }
        let number = socket.number;
        let is_first = socket.unanswered();
        match socket.serve(into, now) {
            Served::Bytes(count) if !socket.is_closing() => {
                if let Some(to) = is_first {
                    self.dials.goes_well(&to);
                }
                Some(LinkEvent::Bytes(number, count))
            }
            Served::Bytes(_) | Served::Nothing => None,
            Served::Ended => self.close(place, now),
        }
    }

    // Dials for the link at this place, which waited for that.
    fn redial(&mut self, place: usize, to: &Addr, now: Instant) -> Option<LinkEvent>
        ensures { IfSome result (λ event. (room : ℕ) → IsWithin event room) }
    {
        match TcpStream::connect(&self.rt, address_of(to)) {
            Ok(mut stream) => {
                let registered = self.register(&mut stream, place);
                let socket = self.places.get_mut(place)?.as_mut()?;
                socket.connects(stream, now);
                if registered.is_ok() {
                    None
                } else {
                    self.close(place, now)
                }
            }
            Err(_) => self.close(place, now),
        }
    }

    // Now and then: closes the next link that is overdue.
    fn sweep(&mut self, now: Instant) -> Option<LinkEvent>
        ensures { IfSome result (λ event. (room : ℕ) → IsWithin event room) }
    {
        if let Some(swept) = self.swept {
            if now.duration_since(swept) < Duration::from_millis(SWEEP) {
                return None;
            }
        }
        for place in 0..self.places.len() {
            if self.is_overdue(place, now) {
                let gone = self.close(place, now);
                if gone.is_some() {
                    return gone;
                }
            }
        }
        self.swept = Some(now);
        None
    }

    fn is_overdue(&self, place: usize, now: Instant) -> bool {
        match self.places.get(place) {
            Some(Some(socket)) => socket.is_overdue(now),
            _ => false,
        }
    }
}

pub fn address_of(address: &Addr) -> SocketAddr {
    let [first, second, third, fourth] = address.ip;
    SocketAddr::from((Ipv4Addr::new(first, second, third, fourth), address.port))
}
