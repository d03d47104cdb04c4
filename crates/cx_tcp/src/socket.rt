//! One link over TCP.

ghost use Rattle.std.specs.Prelude.{◌≡◌, ◌≤◌, length, IfOk};
ghost use Rattle.cx_tcp.specs.Serving.{IsServedWithin};

use bytes::{Buf, BytesMut};
use cx_base::Addr;
use cx_outside::Regard;
use mio::event::Event;
use mio::net::TcpStream;
use std::alloc::{AllocError, Global};
use std::io;
use std::io::{ErrorKind, Read, Write};
use std::net::{IpAddr, Shutdown};
use std::time::{Duration, Instant};

// The most bytes that wait for a peer that doesn't read.
const MOST: usize = 4 << 20;

// How many seconds a stranger may stay after it was accepted, how many nothing may come where the node awaits an answer, how many a
// connect may take, and how many the end of a link.
const STRANGE: u64 = 10;

const AWAITING: u64 = 30;

const CONNECTING: u64 = 30;

const CLOSING: u64 = 2;

/// How far a link is: its dial still waits; the system hasn't said yet whether its connect goes well; it is open; the node shut it;
/// it was given up, which the node hasn't heard yet.
#[derive(Clone, Copy, PartialEq, Eq)]
pub enum Stage {
    Waiting,
    Connecting,
    Open,
    Closing,
    Lost,
}

/// What is there on a link: nothing, so many bytes, or its end.
#[derive(Clone, Copy)]
pub enum Served {
    Nothing,
    Bytes(usize),
    Ended,
}

/// Why bytes aren't sent: the link has ended, too many wait for a peer that doesn't read, or memory is wanting.
#[derive(Clone, Copy, PartialEq, Eq)]
pub enum Unsent {
    Ended,
    Full,
    OutOfMemory,
}

impl From<AllocError> for Unsent {
    fn from(_error: AllocError) -> Unsent {
        Unsent::OutOfMemory
    }
}

/// A link: its stream, which one whose dial waits hasn't yet, its number, the address to which the node opened it, or that of the peer
/// which did, how far it is and since when (of a dial that waits: until when), how the node regards it, since when nothing came (or
/// nothing was awaited), whether anything ever came, whether the system told that it may be read or written, whether the peer was told
/// of the end, and what waits to be sent.
#[derive(Drop)]
pub struct Socket {
    stream: Option<TcpStream>,
    pub number: u32,
    to: Option<Addr>,
    pub peer: Option<IpAddr>,
    stage: Stage,
    pub since: Instant,
    regard: Regard,
    silent: Instant,
    is_heard: bool,
    may_read: bool,
    may_write: bool,
    is_end_told: bool,
    waiting: BytesMut,
}

impl Socket {
    /// A link that a peer opened.
    pub fn accepted(
        alloc: Global,
        stream: TcpStream,
        number: u32,
        peer: IpAddr,
        now: Instant,
    ) -> Socket {
        let mut socket = Socket::new(alloc, Some(stream), number, None, Stage::Open, now);
        socket.peer = Some(peer);
        socket.regard = Regard::Stranger;
        socket
    }

    /// A link that the node opens, of which the connect is under way.
    pub fn dialled(
        alloc: Global,
        stream: TcpStream,
        number: u32,
        to: Addr,
        now: Instant,
    ) -> Socket {
        Socket::new(
            alloc,
            Some(stream),
            number,
            Some(to),
            Stage::Connecting,
            now,
        )
    }

    /// A link that the node opens, and that is to be dialled at this time.
    pub fn postponed(alloc: Global, number: u32, to: Addr, due: Instant) -> Socket {
        Socket::new(alloc, None, number, Some(to), Stage::Waiting, due)
    }

    fn new(
        alloc: Global,
        stream: Option<TcpStream>,
        number: u32,
        to: Option<Addr>,
        stage: Stage,
        since: Instant,
    ) -> Socket {
        Socket {
            stream,
            number,
            to,
            peer: None,
            stage,
            since,
            regard: Regard::Awaited,
            silent: since,
            is_heard: false,
            may_read: false,
            may_write: false,
            is_end_told: false,
            waiting: BytesMut::new(alloc),
        }
    }

    /// The connect of a link that was to be dialled is under way.
    pub fn connects(&mut self, stream: TcpStream, now: Instant) {
        self.stream = Some(stream);
        self.stage = Stage::Connecting;
        self.since = now;
        self.silent = now;
    }

    /// Where it is to be dialled now: to which address.
    pub fn due(&self, now: Instant) -> Option<Addr> {
        if self.stage == Stage::Waiting && self.since <= now {
            self.to
        } else {
            None
        }
    }

    /// The address to which the node opened it, where no byte came from there.
    pub fn unanswered(&self) -> Option<Addr> {
        if self.is_heard { None } else { self.to }
    }

    /// The node regards it so from now on. An answer that is awaited already is awaited since then.
    pub fn regards(&mut self, regard: Regard, now: Instant) {
        if regard == Regard::Awaited && self.regard != Regard::Awaited {
            self.silent = now;
        }
        self.regard = regard;
    }

    /// Whether a peer opened it that hasn't proved itself.
    pub fn is_stranger(&self) -> bool {
        self.stage == Stage::Open && self.regard == Regard::Stranger
    }

    pub fn is_closing(&self) -> bool {
        self.stage == Stage::Closing
    }

    pub fn is_connected(&self) -> bool {
        matches!(self.stage, Stage::Open | Stage::Closing)
    }

    /// Whether bytes wait to be sent.
    pub fn waits(&self) -> bool {
        !self.waiting.is_empty()
    }

    /// How many bytes wait to be sent.
    pub fn load(&self) -> usize
        ensures { result ≡ length self.now.waiting.items }
    {
        self.waiting.len()
    }

    /// Whether it should go: its connect takes too long, or it was shut long ago, or, of an open one, what the node regards it as may stay no
    /// longer.
    pub fn is_overdue(&self, now: Instant) -> bool {
        let age = now.duration_since(self.since);
        match self.stage {
            Stage::Connecting => age >= Duration::from_secs(CONNECTING),
            Stage::Closing => age >= Duration::from_secs(CLOSING),
            Stage::Open => self.outstays(age, now.duration_since(self.silent)),
            Stage::Waiting | Stage::Lost => false,
        }
    }

    // Whether an open link outstays its time: a stranger that is so old, or one on which nothing came for so long while an answer is awaited.
    fn outstays(&self, age: Duration, silence: Duration) -> bool {
        match self.regard {
            Regard::Stranger => age >= Duration::from_secs(STRANGE),
            Regard::Awaited => silence >= Duration::from_secs(AWAITING),
            Regard::Known => false,
        }
    }

    /// Notes what the system told: an error is seen by whoever reads or writes.
    pub fn note(&mut self, event: &Event) {
        self.may_read = self.may_read
            || event.is_readable()
            || event.is_read_closed()
            || event.is_error();
        self.may_write = self.may_write
            || event.is_writable()
            || event.is_write_closed()
            || event.is_error();
    }

    /// Sends on where that was told to go, and reads once where that was.
    pub fn serve(&mut self, into: &mut [u8], now: Instant) -> Served
        ensures bound { IsServedWithin (length into.old) result }
        ensures room { length into.new ≡ length into.old }
    {
        if self.stage == Stage::Lost {
            return Served::Ended;
        }
        if self.may_write {
            self.may_write = false;
            if self.go_on().is_err() {
                return Served::Ended;
            }
        }
        if !self.may_read || !self.is_connected() {
            return Served::Nothing;
        }
        self.read(into, now)
    }

    // Reads once. A read that a signal interrupts is made at the next look.
    fn read(&mut self, into: &mut [u8], now: Instant) -> Served
        ensures bound { IsServedWithin (length into.old) result }
        ensures room { length into.new ≡ length into.old }
    {
        let Some(stream) = &mut self.stream else {
            return Served::Nothing;
        };
        match stream.read(into) {
            Ok(0) => Served::Ended,
            Ok(count) => {
                self.is_heard = true;
                self.silent = now;
                Served::Bytes(count)
            }
            Err(error) if error.kind() == ErrorKind::WouldBlock => {
                self.may_read = false;
                Served::Nothing
            }
            Err(error) if error.kind() == ErrorKind::Interrupted => Served::Nothing,
            Err(_) => Served::Ended,
        }
    }

    // At a writable edge: a connect that was under way has gone well or not, and what waits is sent on.
    fn go_on(&mut self) -> io::Result<()> {
        let Some(stream) = &self.stream else {
            return Ok(());
        };
        if self.stage == Stage::Connecting {
            if let Some(error) = stream.take_error()? {
                return Err(error);
            }
            match stream.peer_addr() {
                Ok(_) => self.stage = Stage::Open,
                Err(error) if error.kind() == ErrorKind::NotConnected => return Ok(()),
                Err(error) => return Err(error),
            }
        }
        self.send_on()
    }

    /// Sends what goes at once, and keeps the rest until the peer reads on. Beyond 4 MiB that wait it fails.
    pub fn send(&mut self, bytes: &[u8]) -> Result<(), Unsent> {
        if self.stage == Stage::Lost {
            return Err(Unsent::Ended);
        }
        let mut sent = 0;
        if self.is_connected() && !self.waits() {
            sent = self.write(bytes)?;
        }
        let rest = bytes.get(sent..).unwrap_or(&[]);
        if rest.len() > MOST.saturating_sub(self.waiting.len()) {
            return Err(Unsent::Full);
        }
        self.waiting.extend_from_slice(rest)?;
        Ok(())
    }

    // Writes of these bytes what the system takes, and answers how many that are.
    fn write(&mut self, bytes: &[u8]) -> Result<usize, Unsent> {
        match &mut self.stream {
            Some(stream) => write_front(stream, bytes).map_err(|_| Unsent::Ended),
            None => Ok(0),
        }
    }

    /// Sends on of what waits. Where the link was shut and nothing waits any more, the peer is told of the end, once: the system tells of a
    /// stream whose end was told as of one that may be written.
    pub fn send_on(&mut self) -> io::Result<()> {
        if !self.is_connected() {
            return Ok(());
        }
        let Some(stream) = &mut self.stream else {
            return Ok(());
        };
        let sent = write_front(stream, &self.waiting)?;
        self.waiting.advance(sent);
        if self.stage == Stage::Closing && self.waiting.is_empty() && !self.is_end_told {
            self.is_end_told = true;
            return stream.shutdown(Shutdown::Write);
        }
        Ok(())
    }

    /// From now on what comes is dropped, until the peer ends the link too.
    pub fn shut(&mut self, now: Instant) {
        self.stage = Stage::Closing;
        self.since = now;
        self.may_read = true;
        self.may_write = true;
    }

    /// The system closes the link at once, and what waits is dropped. The node hears of its end at the next look.
    pub fn give_up(&mut self, alloc: Global) {
        self.stream = None;
        self.stage = Stage::Lost;
        self.waiting = BytesMut::new(alloc);
    }
}

// Writes until the system takes no more, and answers how many of the bytes it took.
fn write_front(stream: &mut TcpStream, bytes: &[u8]) -> io::Result<usize>
    ensures { IfOk result (λ count. count ≤ length bytes.now) }
{
    let mut sent = 0usize;
    for _ in 0..u64::MAX {
        let rest = bytes.get(sent..).unwrap_or(&[]);
        if rest.is_empty() {
            break;
        }
        match stream.write(rest) {
            Ok(0) => break,
            Ok(count) => sent = sent.saturating_add(count),
            Err(error) if error.kind() == ErrorKind::WouldBlock => break,
            Err(error) if error.kind() == ErrorKind::Interrupted => {}
            Err(error) => return Err(error),
        }
    }
    Ok(sent.min(bytes.len()))
}
