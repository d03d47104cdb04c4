//! The stage of plain frames.

ghost use Rattle.std.specs.Prelude.{◌≡◌, ℕ, List, Ok, None, ◌++◌, IfOk, IfSome, OnOk, OnErr, length};
ghost use Rattle.cx_frame.specs.Preambles.{IsAllowed};
ghost use Rattle.cx_frame.specs.Frames.{Agrees};
ghost use Rattle.cx_frame.specs.declared.frame.Frame.{Frame};
ghost use Rattle.cx_stream.specs.Fronts.{frame_in, given_by};
ghost use Rattle.cx_stream.specs.PlainStreams.{AgreesPlain, BeginsNoPlain, IsPlainAt, IsPlainBehind, Stands, TakesGiven, behind_preamble, plain_frame_at};

use crate::faults::StreamFault;
use crate::room::put_behind;
use crate::stages::{Ended, Plain, Secure};
use cx_frame::{Frame, FrameRefusal, Preamble, read_preamble, read_rest, rest_len};
use cx_secure::Sealing;
use std::alloc::{AllocError, Global};

/// The bytes of a preamble.
const PREAMBLE: usize = 32;

impl Plain {
    /// Puts bytes that came behind those that are there. Where memory is wanting, all is as before.
    pub fn feed(&mut self, _alloc: Global, bytes: &[u8]) -> Result<(), AllocError>
        ensures ok { OnOk result (self.new ≡ record self.old { rest = self.old.rest ++ bytes.now }) }
        ensures err { OnErr result (self.new ≡ self.old) }
        // Fed so much more, it stands for that.
        ensures stands { (fed : List ℕ) (given : List Frame) → Stands self.old fed given → OnOk result (Stands self.new (fed ++ bytes.now) given) }
    {
        self.push(bytes)
    }

    fn push(&mut self, bytes: &[u8]) -> Result<(), AllocError>
        ensures ok { OnOk result (self.new ≡ record self.old { rest = self.old.rest ++ bytes.now }) }
        ensures err { OnErr result (self.new ≡ self.old) }
    {
        put_behind(&mut self.bytes, bytes)
    }

    /// Gives the next frame, where all of it is there. A fault is answered again by every later call; want of memory changes nothing.
    pub fn turn(&mut self, alloc: Global) -> Result<Option<Frame>, StreamFault>
        // It is the frame at the front of the bytes that aren't taken, or the first check of it that fails.
        ensures exact { AgreesPlain result (frame_in (plain_frame_at self.old.rest)) }
        ensures taken { TakesGiven self.old self.new result }
        // Having given so many more, it stands for that.
        ensures stands { (fed : List ℕ) (given : List Frame) → Stands self.old fed given → Stands self.new fed (given ++ given_by result) }
        // Nothing is given where no whole frame is there.
        ensures none { result ≡ Ok None → BeginsNoPlain self.old.rest }
    {
        self.next(alloc)
    }

    fn next(&mut self, alloc: Global) -> Result<Option<Frame>, StreamFault>
        ensures exact { AgreesPlain result (frame_in (plain_frame_at self.old.rest)) }
        ensures taken { TakesGiven self.old self.new result }
    {
        let (_, rest) = self.bytes.as_slice().split_at(self.taken);
        match plain_frame_at(alloc, rest) {
            Ok(Some((frame, length))) => {
                self.taken += length;
                Ok(Some(frame))
            }
            Ok(None) => Ok(None),
            Err(refusal) => Err(StreamFault::Plain(refusal)),
        }
    }

    /// The bytes of the banner and of the frames that were given.
    pub fn received(&self) -> &[u8]
        ensures { result.now ≡ self.now.taken }
    {
        let (taken, _) = self.bytes.as_slice().split_at(self.taken);
        taken
    }

    /// The number of bytes that were fed and not taken.
    pub fn kept(&self) -> usize
        ensures { result ≡ length self.now.rest }
    {
        self.bytes.len() - self.taken
    }

    /// Goes on to secure frames. The bytes that weren't taken yet are the first of them. It takes no memory.
    pub fn secure(self, sealing: Sealing) -> Secure
        ensures { result ≡ record { sealing = sealing; head = None; rest = self.rest } }
    {
        let Plain { bytes, taken } = self;
        let mut rest = bytes;
        rest.advance(taken);
        Secure {
            sealing,
            head: None,
            rest,
        }
    }

    /// Ends the stream, with all bytes that it holds.
    pub fn end(self) -> Ended {
        Ended
    }
}

// The frame at the front of some bytes, and its length.
#[tactic(auto, unfolding(crate::specs::PlainStreams::plain_frame_at))]
fn plain_frame_at(alloc: Global, bytes: &[u8]) -> Result<Option<(Frame, usize)>, FrameRefusal>
    ensures exact { Agrees result (plain_frame_at bytes.now) }
    ensures found { IfOk result (λ read. IfSome read (λ x. IsPlainAt bytes.now x.0 x.1)) }
{
    let Some((front, left)) = bytes.split_first_chunk::<PREAMBLE>() else {
        return Ok(None);
    };
    match read_preamble(front) {
        Ok(head) => behind_preamble(alloc, &head, left),
        Err(refusal) => Err(refusal),
    }
}

// The frame whose preamble was read, in what stands behind that.
#[tactic(auto, unfolding(crate::specs::PlainStreams::behind_preamble, crate::specs::Fronts::with_length))]
fn behind_preamble(
    alloc: Global,
    head: &Preamble,
    left: &[u8],
) -> Result<Option<(Frame, usize)>, FrameRefusal>
    requires { IsAllowed 65536 head.now }
    ensures exact { Agrees result (behind_preamble left.now (Ok head.now)) }
    ensures found { IfOk result (λ read. IfSome read (λ x. IsPlainBehind head.now left.now x.0 x.1)) }
{
    let length = rest_len(head);
    if left.len() < length {
        return Ok(None);
    }
    let (rest, _) = left.split_at(length);
    match read_rest(alloc, head, rest) {
        Ok(frame) => Ok(Some((frame, PREAMBLE + length))),
        Err(refusal) => Err(refusal),
    }
}
