//! The stage of the banner.

ghost use Rattle.std.specs.Prelude.{◌≡◌, [], ◌++◌, OnOk, OnErr};
ghost use Rattle.cx_stream.specs.Greetings.{Greets};

use crate::faults::StreamFault;
use crate::room::put_behind;
use crate::stages::{Ended, Greeted, Greeting, Plain};
use bytes::BytesMut;
use cx_frame::read_banner;
use std::alloc::{AllocError, Global};

impl Greeting {
    /// A stream that has no bytes yet. It takes no memory.
    pub fn new(alloc: Global) -> Greeting
        ensures { result ≡ [] }
    {
        Greeting {
            bytes: BytesMut::new(alloc),
        }
    }

    /// Puts bytes that came behind those that are there. Where memory is wanting, all is as before.
    pub fn feed(&mut self, _alloc: Global, bytes: &[u8]) -> Result<(), AllocError>
        ensures ok { OnOk result (self.new ≡ self.old ++ bytes.now) }
        ensures err { OnErr result (self.new ≡ self.old) }
    {
        put_behind(&mut self.bytes, bytes)
    }

    /// Goes on to plain frames, where the banner is all there. It wants no memory.
    pub fn turn(self) -> Greeted
        ensures { Greets self result }
    {
        let Greeting { bytes } = self;
        match read_banner(bytes.as_slice()) {
            Ok(None) => Greeted::NotYet(Greeting { bytes }),
            Ok(Some((banner, length))) => {
                let stream = Plain {
                    bytes,
                    taken: length,
                };
                Greeted::Done(banner, stream)
            }
            Err(refusal) => Greeted::Refused(StreamFault::Banner(refusal), Ended),
        }
    }
}
