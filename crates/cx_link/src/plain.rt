//! The stage of plain frames.

ghost use Rattle.std.specs.Prelude.{◌≡◌, ◌≤◌, ◌++◌, IfOk, OnOk, OnErr, length, take};
ghost use Rattle.cx_link.specs.Turning.{PlainTurns};
ghost use Rattle.cx_link.specs.Wires.{ahead_in, keys_of_side};

use crate::links::{PlainLink, SecureLink};
use crate::refusals::LinkRefusal;
use crate::turns::LinkTurn;
use cx_base::Blob;
use cx_rules::Sealing;
use std::alloc::{AllocError, Global};

impl PlainLink {
    /// Puts bytes that came behind those that are there.
    pub fn feed(&mut self, alloc: Global, bytes: &[u8]) -> Result<(), AllocError>
        ensures ok { OnOk result (self.new ≡ record self.old { received = self.old.received ++ bytes.now }) }
        ensures err { OnErr result (self.new ≡ self.old) }
    {
        self.stream.feed(alloc, bytes)
    }

    /// Notes that these bytes are sent.
    pub fn send(&mut self, alloc: Global, bytes: &[u8]) -> Result<(), AllocError>
        ensures ok { OnOk result (self.new ≡ record self.old { sent = self.old.sent ++ bytes.now }) }
        ensures err { OnErr result (self.new ≡ self.old) }
    {
        self.sent.append(alloc, bytes)
    }

    /// The bytes of the banner and of the frames that were handled.
    pub fn taken(&self) -> &[u8]
        ensures value { result.now ≡ take self.now.taken self.now.received }
        ensures within { self.now.taken ≤ length self.now.received }
    {
        self.stream.received()
    }

    /// All bytes that were sent.
    pub fn sent(&self) -> &[u8]
        ensures { result.now ≡ self.now.sent }
    {
        self.sent.bytes()
    }

    /// Takes the next frame, where it is all there.
    pub fn turn(self, alloc: Global) -> Result<LinkTurn<PlainLink>, AllocError>
        ensures { IfOk result (PlainTurns self) }
    {
        let PlainLink { mut stream, sent } = self;
        match stream.turn(alloc) {
            Ok(Some(frame)) => Ok(LinkTurn::Takes(PlainLink { stream, sent }, frame)),
            Ok(None) => Ok(LinkTurn::Waits(PlainLink { stream, sent })),
            Err(fault) => match LinkRefusal::from(fault) {
                LinkRefusal::Fault(why) => Ok(LinkTurn::Refuses(why)),
                LinkRefusal::OutOfMemory => Err(AllocError),
            },
        }
    }

    // Goes on to secure frames under the secret of the connection: the bytes that weren't handled yet are the first of them. With it come all
    // bytes that were sent.
    pub(crate) fn secured(
        self,
        alloc: Global,
        secret: &[u8; 64],
        connector: bool,
    ) -> Result<(SecureLink, Blob), AllocError>
        ensures link { IfOk result (λ r. r.0 ≡ record { keys = keys_of_side connector secret.now; ahead = ahead_in self }) }
        ensures sent { IfOk result (λ r. r.1 ≡ self.sent) }
    {
        let PlainLink { stream, sent } = self;
        let key = key_of(secret);
        let stream = Box::new(alloc, stream.secure(Sealing::new(secret, connector)))?;
        Ok((SecureLink { key, stream }, sent))
    }
}

// The key of a connection.
fn key_of(secret: &[u8; 64]) -> [u8; 16]
    ensures { result ≡ take 16 secret.now }
{
    let Some((key, _)) = secret.split_first_chunk::<16>() else {
        unreachable!();
    };
    *key
}
