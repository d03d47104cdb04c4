//! What a row says that comes to a node.

ghost use Rattle.std.specs.Prelude.{◌<◌};

use crate::named::entity_name;
use cx_base::{Access, Blob, Operation, Reading, SECOND, Text, TextRefusal};
use cx_steps::{Command, Event, Peer};
use std::alloc::{AllocError, Global};

/// The words of a row `NODE READING DRAW WHAT FIRST SECOND`, and what stands behind these. Words that aren't there are empty.
#[derive(Clone, Copy)]
pub struct Coming<'a> {
    row: &'a str,
    pub node: &'a str,
    pub reading: &'a str,
    pub draw: &'a str,
    what: &'a str,
    first: &'a str,
    second: &'a str,
}

impl<'a> Coming<'a> {
    pub fn of(row: &'a str) -> Coming<'a> {
        let mut words = row.split(' ');
        Coming {
            row,
            node: words.next().unwrap_or(""),
            reading: words.next().unwrap_or(""),
            draw: words.next().unwrap_or(""),
            what: words.next().unwrap_or(""),
            first: words.next().unwrap_or(""),
            second: words.next().unwrap_or(""),
        }
    }

    /// The bytes that come, where bytes come.
    pub fn bytes(&self, alloc: Global) -> Vec<u8> {
        match hex::decode(alloc, self.second) {
            Ok(bytes) => bytes,
            Err(_) => Vec::new(alloc),
        }
    }

    /// The link on which it comes.
    pub fn link(&self) -> u32 {
        number_of(self.first)
    }

    // The word at a place behind the second one; empty where there is none.
    fn word(&self, place: usize) -> &'a str {
        let mut words = self.row.split(' ').skip(6).skip(place);
        words.next().unwrap_or("")
    }

    // What the node is told to do, with these services, with the session of this number, or with this daemon.
    fn command(&self, alloc: Global) -> Result<Command, AllocError> {
        match self.first {
            "renew" => Ok(Command::Renew(number_of(self.second))),
            "fetch" => Ok(Command::Fetch),
            "drop" => Ok(Command::Drop(u64::from(number_of(self.second)))),
            "connect" => self.connect(alloc),
            "send" => self.send(alloc),
            _ => Ok(Command::Login(number_of(self.second))),
        }
    }

    // No daemon of that name is a command that does nothing.
    fn connect(&self, alloc: Global) -> Result<Command, AllocError> {
        let Some(daemon) = entity_name(alloc, self.second)? else {
            return Ok(Command::Drop(0));
        };
        let lossy = self.word(0) == "True";
        Ok(Command::Connect { daemon, lossy })
    }

    fn send(&self, alloc: Global) -> Result<Command, AllocError> {
        let Some(daemon) = entity_name(alloc, self.second)? else {
            return Ok(Command::Drop(0));
        };
        let access = match self.word(0) {
            "write" => Access::Write,
            "exec" => Access::Exec,
            _ => Access::Read,
        };
        let pool = text_of(alloc, self.word(1))?;
        let namespace = text_of(alloc, self.word(2))?;
        let object = text_of(alloc, self.word(3))?;
        let bytes = data_of(alloc, self.word(4))?;
        let operation = Operation {
            access,
            pool,
            namespace,
            object,
            bytes,
        };
        Ok(Command::Send { daemon, operation })
    }

    /// The event, with these bytes where bytes come.
    pub fn event<'b>(&self, alloc: Global, bytes: &'b [u8]) -> Result<Event<'b>, AllocError> {
        let link = self.link();
        match self.what {
            "submit" => {
                let command = self.command(alloc)?;
                Ok(Event::Submit(command))
            }
            "opened" => {
                let peer = peer_of(alloc, self.second)?;
                Ok(Event::Opened(link, peer))
            }
            "nolink" => self.no_link(alloc),
            "bytes" => Ok(Event::Bytes(link, bytes)),
            "turn" => Ok(Event::Turn(link)),
            "gone" => Ok(Event::Gone(link)),
            "restart" => Ok(Event::Restart),
            _ => Ok(Event::Tick),
        }
    }

    fn no_link<'b>(&self, alloc: Global) -> Result<Event<'b>, AllocError> {
        match peer_of(alloc, self.first)? {
            Some(peer) => Ok(Event::NoLink(peer)),
            None => Ok(Event::NoLink(Peer::Monitor)),
        }
    }

    /// The event in a few words.
    pub fn told(&self, alloc: Global) -> Result<String, AllocError> {
        if self.first.is_empty() {
            return format!(in alloc; "{} {}\n", self.node, self.what);
        }
        format!(in alloc; "{} {} {}\n", self.node, self.what, self.first)
    }
}

fn peer_of(alloc: Global, word: &str) -> Result<Option<Peer>, AllocError> {
    if word == "mon" {
        return Ok(Some(Peer::Monitor));
    }
    match entity_name(alloc, word)? {
        Some(name) => Ok(Some(Peer::Daemon(name))),
        None => Ok(None),
    }
}

// A text; an empty one where the word isn't of ASCII.
fn text_of(alloc: Global, word: &str) -> Result<Text, AllocError> {
    match Text::of(alloc, word.as_bytes()) {
        Ok(text) => Ok(text),
        Err(TextRefusal::NotAscii(_)) => Text::new(alloc),
        Err(TextRefusal::OutOfMemory) => Err(AllocError),
    }
}

// Data in hexadecimal; none where the word is none.
fn data_of(alloc: Global, word: &str) -> Result<Blob, AllocError> {
    match hex::decode(alloc, word) {
        Ok(bytes) => Blob::of(alloc, &bytes),
        Err(_) => Ok(Blob::new(alloc)),
    }
}

/// A number; 0 where the word is none.
pub fn number_of(word: &str) -> u32 {
    word.parse::<u32>().unwrap_or(0)
}

/// A seed; 0 where the word is none.
pub fn seed_of(word: &str) -> u64 {
    word.parse::<u64>().unwrap_or(0)
}

/// A reading of so many seconds; 0 where the word is none.
pub fn reading_of(word: &str) -> Reading
    ensures { result < 4000000000000000000 }
{
    match word.parse::<u64>() {
        Ok(seconds) if seconds < 4_000_000_000 => seconds * SECOND,
        Ok(_) => 0,
        Err(_) => 0,
    }
}
