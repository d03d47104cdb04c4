//! The stage of secure frames.

ghost use Rattle.std.specs.Prelude.{◌≡◌, ◌≢◌, ◌≤◌, ◌-◌, ◌^◌, ℕ, List, Ok, Err, Some, None, ◌++◌, IfOk, OnOk, OnErr, IfErr, length};
ghost use Rattle.cx_frame.specs.Frames.{IsAnnounceable, total};
ghost use Rattle.cx_frame.specs.Preambles.{IsAllowed};
ghost use Rattle.cx_frame.specs.declared.frame.Frame.{Frame};
ghost use Rattle.cx_secure.specs.Commits.{IsAheadOf, after_commit};
ghost use Rattle.cx_secure.specs.Contents.{frame_contents};
ghost use Rattle.cx_secure.specs.Plains.{rest_len, secure_text};
ghost use Rattle.cx_secure.specs.Sealings.{connection_key, put_refusal, unless_kept};
ghost use Rattle.cx_secure.specs.declared.refusals.SecureRefusal.{SecureRefusal};
ghost use Rattle.cx_secure.specs.declared.refusals.SecureRefusal.TheVariants.{OutOfMemory};
ghost use Rattle.cx_stream.specs.Fronts.{frame_in, given_by};
ghost use Rattle.cx_stream.specs.Openings.{NeedsNoMemory, front_contents, open_contents};
ghost use Rattle.cx_stream.specs.SecureStreams.{AgreesSecure, BeginsNoSecure, Holds, IsAnswer, IsPutFault, IsSecure, KeepsFault, PassesGiven, after_put, ahead, secure_frame_at};
ghost use Rattle.cx_stream.specs.Turning.{Finished, Readied};

use crate::faults::StreamFault;
use crate::room::put_behind;
use crate::stages::{Ended, Secure};
use cx_frame::{Blob, Frame, Items};
use cx_secure::{Head, SealedAhead, SecureRefusal, rest_len};
use std::alloc::{AllocError, Global};

/// The bytes of a head, as it is sealed.
const HEAD: usize = 96;

impl Secure {
    /// Puts bytes that came behind those that are there. Where memory is wanting, all is as before.
    pub fn feed(&mut self, _alloc: Global, bytes: &[u8]) -> Result<(), AllocError>
        ensures ok { OnOk result (self.new ≡ record self.old { rest = self.old.rest ++ bytes.now }) }
        ensures err { OnErr result (self.new ≡ self.old) }
        // Fed so much more, it stands for that.
        ensures holds { (fed : List ℕ) (given : List Frame) → Holds (ahead self.old) fed given → OnOk result (Holds (ahead self.new) (fed ++ bytes.now) given) }
    {
        self.push(bytes)
    }

    fn push(&mut self, bytes: &[u8]) -> Result<(), AllocError>
        ensures ok { OnOk result (self.new ≡ record self.old { rest = self.old.rest ++ bytes.now }) }
        ensures err { OnErr result (self.new ≡ self.old) }
    {
        put_behind(&mut self.rest, bytes)
    }

    /// Gives the next frame, where all of it is there. A fault is answered again by every later call; want of memory changes nothing of the
    /// stream. The content of each part that opened, its nonce and its plain bytes, is handed out once, with the frame or the fault.
    pub fn turn(
        &mut self,
        alloc: Global,
        opened: &mut Items<Blob>,
    ) -> Result<Option<Frame>, StreamFault>
        // It is the frame at the front of what stands behind the frames that were given, or the first check of it that fails; a fault that is
        // kept goes before.
        ensures exact { AgreesSecure result (unless_kept self.old.sealing.kept (frame_in (secure_frame_at (ahead self.old)))) }
        ensures passes { PassesGiven (ahead self.old) (ahead self.new) result }
        ensures kept { KeepsFault self.old.sealing.kept self.new.sealing.kept result }
        // Having given so many more, it stands for that.
        ensures holds { (fed : List ℕ) (given : List Frame) → Holds (ahead self.old) fed given → Holds (ahead self.new) fed (given ++ given_by result) }
        // A fault that is kept is answered always, whatever memory there is, and so are bytes that hold no whole frame, a spent counter and a
        // wrong tag of a head.
        ensures sure { NeedsNoMemory self.old → IsAnswer result (unless_kept self.old.sealing.kept (frame_in (secure_frame_at (ahead self.old)))) }
        // Nothing is given where no whole frame is there.
        ensures none { result ≡ Ok None → BeginsNoSecure (ahead self.old) }
        // What opened is handed out where a frame is given or refused, but for want of memory.
        ensures opened { self.old.sealing.kept ≡ None → result ≢ Ok None → result ≢ Err (StreamFault.Secure OutOfMemory)
            → opened.new ≡ opened.old ++ front_contents (ahead self.old) }
        ensures waits { result ≡ Ok None → opened.new ≡ opened.old }
        ensures still { (refusal : SecureRefusal) → self.old.sealing.kept ≡ Some refusal → opened.new ≡ opened.old }
        // What is sent the other way isn't touched.
        ensures out { self.new.sealing.out ≡ self.old.sealing.out }
    {
        self.next(alloc, opened)
    }

    fn next(
        &mut self,
        alloc: Global,
        opened: &mut Items<Blob>,
    ) -> Result<Option<Frame>, StreamFault>
        ensures exact { AgreesSecure result (unless_kept self.old.sealing.kept (frame_in (secure_frame_at (ahead self.old)))) }
        ensures sure { NeedsNoMemory self.old → IsAnswer result (unless_kept self.old.sealing.kept (frame_in (secure_frame_at (ahead self.old)))) }
        ensures passes { PassesGiven (ahead self.old) (ahead self.new) result }
        ensures kept { KeepsFault self.old.sealing.kept self.new.sealing.kept result }
        ensures opened { self.old.sealing.kept ≡ None → result ≢ Ok None → result ≢ Err (StreamFault.Secure OutOfMemory)
            → opened.new ≡ opened.old ++ front_contents (ahead self.old) }
        ensures waits { result ≡ Ok None → opened.new ≡ opened.old }
        ensures still { (refusal : SecureRefusal) → self.old.sealing.kept ≡ Some refusal → opened.new ≡ opened.old }
        ensures out { self.new.sealing.out ≡ self.old.sealing.out }
    {
        match self.ready(alloc, opened) {
            Ok(Some(head)) => match self.finish(alloc, head, opened) {
                Ok(given) => Ok(given),
                Err(refusal) => Err(StreamFault::Secure(refusal)),
            },
            Ok(None) => Ok(None),
            Err(refusal) => Err(StreamFault::Secure(refusal)),
        }
    }

    // The head of the next frame, where it is there: it is opened once. What opened of one that is refused is handed out.
    fn ready(
        &mut self,
        alloc: Global,
        opened: &mut Items<Blob>,
    ) -> Result<Option<Head>, SecureRefusal>
        ensures readied { Readied self.old self.new result }
        ensures sure { (refusal : SecureRefusal) → NeedsNoMemory self.old → result ≡ Err refusal
            → unless_kept self.old.sealing.kept (secure_frame_at (ahead self.old)) ≡ Err refusal }
        ensures handed { (refusal : SecureRefusal) → self.old.sealing.kept ≡ None → result ≡ Err refusal → refusal ≢ OutOfMemory
            → opened.new ≡ opened.old ++ front_contents (ahead self.old) }
        ensures read { OnOk result (opened.new ≡ opened.old) }
        ensures still { (refusal : SecureRefusal) → self.old.sealing.kept ≡ Some refusal → opened.new ≡ opened.old }
        ensures out { self.new.sealing.out ≡ self.old.sealing.out }
    {
        if let Some(refusal) = self.sealing.kept() {
            return Err(refusal);
        }
        if let Some(head) = self.head {
            return Ok(Some(head));
        }
        let Some((front, _)) = self.rest.as_slice().split_first_chunk::<HEAD>() else {
            return Ok(None);
        };
        match self.sealing.read_head(front) {
            Ok(head) => {
                self.sealing.pass_head();
                self.rest.advance(HEAD);
                self.head = Some(head);
                Ok(Some(head))
            }
            Err(refusal) => {
                self.sealing.hand_out_head(alloc, front, opened)?;
                self.sealing.keep(refusal);
                Err(refusal)
            }
        }
    }

    // The frame behind its head, where it is there. What opened of the whole frame is handed out.
    fn finish(
        &mut self,
        alloc: Global,
        head: Head,
        opened: &mut Items<Blob>,
    ) -> Result<Option<Frame>, SecureRefusal>
        requires allowed { IsAllowed 1048576 head.preamble }
        requires free { self.old.sealing.kept ≡ None }
        ensures finished { Finished self.old self.new head result }
        ensures whole { IfErr result (λ _. rest_len head.preamble ≤ length self.old.rest) }
        ensures handed { result ≢ Ok None → result ≢ Err OutOfMemory → opened.new ≡ opened.old ++ open_contents self.old head }
        ensures waits { result ≡ Ok None → opened.new ≡ opened.old }
        ensures out { self.new.sealing.out ≡ self.old.sealing.out }
    {
        let length = rest_len(&head);
        if self.rest.len() < length {
            return Ok(None);
        }
        let (behind, _) = self.rest.as_slice().split_at(length);
        let content = self.sealing.head_content(alloc, &head)?;
        opened.push(alloc, content)?;
        match self.sealing.open_rest(alloc, head, behind, opened) {
            Ok(frame) => {
                self.rest.advance(length);
                self.head = None;
                Ok(Some(frame))
            }
            Err(refusal) => Err(refusal),
        }
    }

    /// Seals a frame, and puts it behind some bytes. After a refusal the bytes are as before.
    pub fn put(&mut self, alloc: Global, into: &mut Blob, frame: &Frame) -> Result<(), StreamFault>
        requires { IsAnnounceable frame.now }
        ensures ok { OnOk result (into.new ≡ into.old ++ secure_text (connection_key self.old.sealing) self.old.sealing.out.fixed self.old.sealing.out.counter frame.now) }
        // A frame that is put is one that is read.
        ensures secure { OnOk result (IsSecure frame.now) }
        ensures free { OnOk result (put_refusal self.old.sealing frame.now ≡ None) }
        // It is refused for what was refused before, then for the counter, then for the limit.
        ensures refused { IfErr result (IsPutFault (put_refusal self.old.sealing frame.now)) }
        // The counter rises by the parts of the frame; nothing else is touched.
        ensures after { self.new ≡ record self.old { sealing = after_put self.old.sealing frame.now result } }
        ensures err { OnErr result (into.new ≡ into.old) }
    {
        match self.sealing.put_frame(alloc, into, frame) {
            Ok(()) => Ok(()),
            Err(refusal) => Err(StreamFault::Secure(refusal)),
        }
    }

    /// Seals a frame ahead, puts it behind some bytes, and changes nothing: `commit` then goes on behind it. After a refusal the bytes are as
    /// before.
    pub fn put_ahead(
        &self,
        alloc: Global,
        into: &mut Blob,
        frame: &Frame,
    ) -> Result<SealedAhead, StreamFault>
        requires { IsAnnounceable frame.now }
        ensures ok { OnOk result (into.new ≡ into.old ++ secure_text (connection_key self.now.sealing) self.now.sealing.out.fixed self.now.sealing.out.counter frame.now) }
        // It uses the counters from the next one on, one for each part.
        ensures ahead { IfOk result (IsAheadOf self.now.sealing frame.now) }
        // A frame that is put is one that is read.
        ensures secure { OnOk result (IsSecure frame.now) }
        ensures free { OnOk result (put_refusal self.now.sealing frame.now ≡ None) }
        // It is refused for what was refused before, then for the counter, then for the limit.
        ensures refused { IfErr result (IsPutFault (put_refusal self.now.sealing frame.now)) }
        ensures err { OnErr result (into.new ≡ into.old) }
    {
        match self.sealing.put_ahead(alloc, into, frame) {
            Ok(ahead) => Ok(ahead),
            Err(refusal) => Err(StreamFault::Secure(refusal)),
        }
    }

    /// Goes on behind a frame that was sealed ahead, where no other was committed since. It wants no memory, and nothing else is touched.
    pub fn commit(&mut self, ahead: SealedAhead)
        requires { ahead.from ≡ self.old.sealing.out.counter }
        ensures { self.new ≡ record self.old { sealing = after_commit self.old.sealing ahead } }
    {
        self.sealing.commit(ahead);
    }

    /// The content of each part of a frame that was sealed ahead: its nonce and its plain bytes.
    pub fn ahead_contents(
        &self,
        alloc: Global,
        ahead: &SealedAhead,
        frame: &Frame,
    ) -> Result<Items<Blob>, AllocError>
        requires announced { IsAnnounceable frame.now }
        requires short { total frame.now ≤ 1048576 }
        ensures { IfOk result (λ contents. contents ≡ frame_contents (after_commit self.now.sealing ahead.now).out frame.now) }
    {
        self.sealing.ahead_contents(alloc, ahead, frame)
    }

    /// The content of each part of the frame that was put last: its nonce and its plain bytes.
    pub fn put_contents(&self, alloc: Global, frame: &Frame) -> Result<Items<Blob>, AllocError>
        requires announced { IsAnnounceable frame.now }
        requires short { total frame.now ≤ 1048576 }
        ensures { IfOk result (λ contents. contents ≡ frame_contents self.now.sealing.out frame.now) }
    {
        self.sealing.put_contents(alloc, frame)
    }

    /// The number of parts that can still be sealed.
    pub fn parts_left(&self) -> u64
        ensures { result ≡ 2 ^ 64 - 1 - self.now.sealing.out.counter }
    {
        self.sealing.parts_left()
    }

    /// The number of bytes that were fed and not taken. A head that was opened is taken.
    pub fn kept(&self) -> usize
        ensures { result ≡ length self.now.rest }
    {
        self.rest.len()
    }

    /// Ends the stream, with all bytes that it holds.
    pub fn end(self) -> Ended {
        Ended
    }
}
