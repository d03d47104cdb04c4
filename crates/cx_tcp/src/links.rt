//! Links over TCP.

ghost use Rattle.std.specs.Prelude.{◌≡◌, ◌≤◌};
ghost use Rattle.cx_base.specs.Streams.{Rose};

use crate::table::Table;
use cx_base::{Addr, Failed};
use cx_outside::{LinkEvent, Links, Regard};
use std::alloc::{AllocError, Global};
use std::io;
use std::io::Eprint;
use std::net::Net;
use std::random::RandomSource;
use std::time::Clock;

/// Links over TCP, at most 2,048 at a time and 32 fewer than the process may open files, with a wait of 50 ms for what comes next, or,
/// where the node listens nowhere, of 1 ms at first, doubled up to 50. Links are served in turn.
///
/// A dial to an address to which the last one failed waits: the link is opened at once and takes what is sent, the connect is made
/// when it is due, and where it fails the link is gone. A stranger is gone 10 s after it was accepted; where 1,024 links stand that
/// weren't shut, or all places are taken, one goes for a newcomer: of an address that has more than half of them, or else of all the one
/// that stands longest, at most once in 50 ms for newcomers of one address, and in between one of theirs. A link on which nothing came for 30 s while the node awaits an answer there is gone; one that is known never is for its
/// time. So does one for which more than 4 MiB wait, and, where more than 256 MiB wait in all, that for which the most do. A link that
/// is shut still sends what waits, for at most 2 s. While all places are taken nothing is accepted, and peers wait with the system. What the system refuses is printed on
/// standard error, and at which address the node listens.
#[derive(Drop)]
pub struct TcpLinks<R> {
    table: Table<R>,
    faults: u64,
    misses: u64,
}

impl<R: Net + Eprint + Clock + RandomSource + Drop> TcpLinks<R> {
    /// No links yet.
    pub fn new(alloc: Global, rt: R) -> Result<TcpLinks<R>, AllocError> {
        Ok(TcpLinks {
            table: Table::new(alloc, rt)?,
            faults: 0,
            misses: 0,
        })
    }

    /// Sends on what waits on all links, for at most 1 s: the last thing that a node does.
    pub fn send_on(&mut self) {
        self.table.finish();
    }

    // A fault of the system, which is told and counted.
    fn failed(&mut self, what: &str, error: &io::Error) -> Failed
        ensures risen { (self.old.faults ≤ self.new.faults) × Rose self.old.faults self.new.faults }
        ensures other { self.new.misses ≡ self.old.misses }
    {
        self.table.tell(what, error);
        self.faults = self.faults.saturating_add(1);
        Failed
    }

    // A link that can't be opened, or that takes no bytes.
    fn missed(&mut self) -> Failed
        ensures risen { (self.old.misses ≤ self.new.misses) × Rose self.old.misses self.new.misses }
        ensures other { self.new.faults ≡ self.old.faults }
    {
        self.misses = self.misses.saturating_add(1);
        Failed
    }
}

impl<R: Net + Eprint + Clock + RandomSource + Drop> Links for TcpLinks<R> {
    ghost follows = { λ _ _ _. Unit {0} };

    ghost stays = { λ _. tt };

    ghost goes_on = { λ _ _ _ _ _ _ _. tt };

    ghost faults = { λ l. l.faults };

    ghost misses = { λ l. l.misses };

    fn listen(&mut self, at: &Addr) -> Result<(), Failed> {
        match self.table.listen(at) {
            Ok(()) => Ok(()),
            Err(error) => Err(self.failed("listen", &error)),
        }
    }

    fn open(&mut self, to: &Addr) -> Result<u32, Failed> {
        match self.table.open(to) {
            Ok(number) => Ok(number),
            Err(_) => Err(self.missed()),
        }
    }

    fn next(&mut self, into: &mut [u8]) -> Result<LinkEvent, Failed> {
        match self.table.next(into) {
            Ok(event) => Ok(event),
            Err(error) => Err(self.failed("links", &error)),
        }
    }

    fn send(&mut self, link: u32, bytes: &[u8]) -> Result<(), Failed> {
        match self.table.send(link, bytes) {
            Ok(()) => Ok(()),
            Err(Failed) => Err(self.missed()),
        }
    }

    fn shut(&mut self, link: u32) {
        self.table.shut(link);
    }

    fn regard(&mut self, link: u32, regard: Regard) {
        self.table.regard(link, regard);
    }
}
