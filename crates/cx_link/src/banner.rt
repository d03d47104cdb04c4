//! The stage of the banner.

ghost use Rattle.std.specs.Prelude.{◌≡◌, ◌++◌, OnOk, OnErr};
ghost use Rattle.cx_link.specs.Turning.{BannerTurns};
ghost use Rattle.cx_link.specs.Wires.{new_wire};

use crate::links::{BannerLink, PlainLink};
use crate::refusals::banner_fault;
use crate::turns::BannerTurn;
use cx_base::Blob;
use cx_rules::{Greeted, Greeting, StreamFault};
use std::alloc::{AllocError, Global};

impl BannerLink {
    /// A link on which nothing came or was sent yet. It takes no memory.
    pub fn new(alloc: Global) -> BannerLink
        ensures { result ≡ new_wire }
    {
        BannerLink {
            stream: Greeting::new(alloc),
            sent: Blob::new(alloc),
        }
    }

    /// Puts bytes that came behind those that are there.
    pub fn feed(&mut self, alloc: Global, bytes: &[u8]) -> Result<(), AllocError>
        ensures ok { OnOk result (self.new ≡ record self.old { received = self.old.received ++ bytes.now }) }
        ensures err { OnErr result (self.new ≡ self.old) }
    {
        self.stream.feed(alloc, bytes)
    }

    /// Notes that these bytes are sent.
    pub fn send(&mut self, alloc: Global, bytes: &[u8]) -> Result<(), AllocError>
        ensures ok { OnOk result (self.new ≡ record self.old { sent = self.old.sent ++ bytes.now }) }
        ensures err { OnErr result (self.new ≡ self.old) }
    {
        self.sent.append(alloc, bytes)
    }

    /// All bytes that were sent.
    pub fn sent(&self) -> &[u8]
        ensures { result.now ≡ self.now.sent }
    {
        self.sent.bytes()
    }

    /// Takes the peer's banner, where it is all there. It wants no memory.
    pub fn turn(self) -> BannerTurn
        ensures { BannerTurns self result }
    {
        let BannerLink { stream, sent } = self;
        match stream.turn() {
            Greeted::NotYet(stream) => BannerTurn::Waits(BannerLink { stream, sent }),
            Greeted::Done(_, stream) => BannerTurn::Takes(PlainLink { stream, sent }),
            Greeted::Refused(StreamFault::Banner(refusal), _) => {
                BannerTurn::Refuses(banner_fault(refusal))
            }
            Greeted::Refused(_, _) => unreachable!(),
        }
    }
}
