//! The stage of secure frames.

ghost use Rattle.std.specs.Prelude.{◌≡◌, ◌++◌, List, IfOk, OnOk, OnErr, if◌then◌else◌, map, nat_lt};
ghost use Rattle.cx_journal.specs.declared.faults.BytesFault.TheVariants.{CounterSpent, TooLong};
ghost use Rattle.cx_link.specs.Sending.{IsControl, SealsAhead, Sends, behind_ahead, logged_behind, opened_entry, sealed_entry};
ghost use Rattle.cx_frame.specs.Frames.{IsAnnounceable};
ghost use Rattle.cx_link.specs.Turning.{SecureTurns};
ghost use Rattle.cx_link.specs.Wires.{IsLive, held_keys, secure_wire};
ghost use Rattle.cx_rules.specs.Secured.{secure_frame};

use crate::links::{AheadFrame, SecureLink, SentFrame};
use crate::refusals::LinkRefusal;
use crate::turns::LinkTurn;
use cx_base::{Blob, Items};
use cx_frame::Frame;
use cx_journal::{BytesFault, KeyKind};
use cx_rules::{SealedAhead, Secure};
use cx_steps::{SealEntry, SealMark};
use std::alloc::{AllocError, Global};

/// The segments of a secure frame have at most so many bytes together.
const MAX_SECURE: usize = 1_048_576;

impl SecureLink {
    /// Puts bytes that came behind those that are there.
    pub fn feed(&mut self, alloc: Global, bytes: &[u8]) -> Result<(), AllocError>
        ensures ok { OnOk result (self.new ≡ record self.old { ahead = self.old.ahead ++ bytes.now }) }
        ensures err { OnErr result (self.new ≡ self.old) }
    {
        self.stream.feed(alloc, bytes)
    }

    /// Takes the next frame, where it is all there. Each part that opens is logged, also of a frame that is refused.
    pub fn turn(
        self,
        alloc: Global,
        seals: &mut Items<SealEntry>,
    ) -> Result<LinkTurn<SecureLink>, AllocError>
        ensures { IfOk result (SecureTurns self seals.old seals.new) }
    {
        let SecureLink { key, mut stream } = self;
        let mut contents = Items::new(alloc);
        match stream.turn(alloc, &mut contents) {
            Ok(Some(frame)) => {
                log_opened(alloc, &key, contents, seals)?;
                Ok(LinkTurn::Takes(SecureLink { key, stream }, frame))
            }
            Ok(None) => Ok(LinkTurn::Waits(SecureLink { key, stream })),
            Err(fault) => match LinkRefusal::from(fault) {
                LinkRefusal::Fault(why) => {
                    log_opened(alloc, &key, contents, seals)?;
                    Ok(LinkTurn::Refuses(why))
                }
                LinkRefusal::OutOfMemory => Err(AllocError),
            },
        }
    }
}

impl SecureLink {
    /// Seals a frame of one to four segments ahead, and changes nothing: `commit` then goes on behind it. Each part of it is logged.
    pub fn seal_ahead(&self, alloc: Global, frame: &Frame) -> Result<AheadFrame, LinkRefusal>
        requires { IsAnnounceable frame.now }
        ensures { SealsAhead self.now result (secure_frame self.now.keys frame.now) }
    {
        let stream = self.stream.as_ref();
        let mut bytes = Blob::new(alloc);
        match stream.put_ahead(alloc, &mut bytes, frame) {
            Ok(ahead) => {
                let contents = stream.ahead_contents(alloc, &ahead, frame)?;
                let mut seals = Items::new(alloc);
                log_sealed(alloc, &self.key, contents, &mut seals)?;
                Ok(AheadFrame {
                    ahead,
                    bytes,
                    seals,
                })
            }
            Err(fault) => Err(LinkRefusal::from(fault)),
        }
    }

    /// Goes on behind a frame that was sealed ahead, where no other was sent since. It wants no memory.
    pub fn commit(&mut self, ahead: SealedAhead)
        requires { ahead.from ≡ self.old.keys.out.counter }
        ensures { self.new ≡ behind_ahead self.old ahead }
    {
        self.stream.commit(ahead);
    }

    /// Seals a control frame. Each part of it is logged: its nonce and its plain bytes.
    pub fn put(self, alloc: Global, frame: &Frame) -> Result<SentFrame, LinkRefusal>
        requires { IsControl frame.now }
        ensures { Sends self.ahead result (secure_frame self.keys frame.now) }
    {
        self.put_behind(alloc, frame, Items::new(alloc))
    }

    /// Seals a frame of one to four segments, as a message. Each part of it is logged.
    pub fn put_frame(self, alloc: Global, frame: &Frame) -> Result<SentFrame, LinkRefusal>
        requires { IsAnnounceable frame.now }
        ensures { Sends self.ahead result (secure_frame self.keys frame.now) }
    {
        let SecureLink { key, stream } = self;
        seal_behind(alloc, key, stream, frame, Items::new(alloc))
    }

    // Seals a control frame, and logs it behind these entries.
    pub(crate) fn put_behind(
        self,
        alloc: Global,
        frame: &Frame,
        before: Items<SealEntry>,
    ) -> Result<SentFrame, LinkRefusal>
        requires { IsControl frame.now }
        ensures { Sends self.ahead result (logged_behind before (secure_frame self.keys frame.now)) }
    {
        let SecureLink { key, stream } = self;
        if frame.segments.all()[0].bytes.bytes().len() > MAX_SECURE {
            return Err(LinkRefusal::Fault(long_fault(stream.parts_left())));
        }
        seal_behind(alloc, key, stream, frame, before)
    }
}

// Seals a frame on the stream of a link, and logs it behind these entries.
fn seal_behind(
    alloc: Global,
    key: [u8; 16],
    stream: Box<Secure>,
    frame: &Frame,
    before: Items<SealEntry>,
) -> Result<SentFrame, LinkRefusal>
    requires live { IsLive key stream.value }
    requires frame { IsAnnounceable frame.now }
    ensures { Sends (secure_wire stream.value).ahead result (logged_behind before (secure_frame (held_keys stream.value) frame.now)) }
{
    let mut stream = stream;
    let mut bytes = Blob::new(alloc);
    match stream.put(alloc, &mut bytes, frame) {
        Ok(()) => {
            let contents = stream.put_contents(alloc, frame)?;
            let mut seals = before;
            log_sealed(alloc, &key, contents, &mut seals)?;
            let link = SecureLink { key, stream };
            Ok(SentFrame { link, bytes, seals })
        }
        Err(fault) => Err(LinkRefusal::from(fault)),
    }
}

// Why a frame that is too long isn't sealed, where so many parts can still be sealed: it has two.
fn long_fault(parts_left: u64) -> BytesFault
    ensures { result ≡ (if nat_lt parts_left 2 then CounterSpent else TooLong) }
{
    if parts_left < 2 {
        BytesFault::CounterSpent
    } else {
        BytesFault::TooLong
    }
}

// A content under the key of a connection.
fn mark(key: &[u8; 16], content: Blob) -> SealMark
    ensures { result ≡ record { key = key.now; kind = KeyKind.Connection; content = content } }
{
    SealMark {
        key: *key,
        kind: KeyKind::Connection,
        content,
    }
}

// Logs what was sealed under the key of a connection.
fn log_sealed(
    alloc: Global,
    key: &[u8; 16],
    contents: Items<Blob>,
    seals: &mut Items<SealEntry>,
) -> Result<(), AllocError>
    ensures { OnOk result (seals.new ≡ seals.old ++ map (sealed_entry key.now) contents) }
{
    for content in contents.into_vec() {
        seals.push(alloc, SealEntry::Sealed(mark(key, content)))?;
    }
    Ok(())
}

// Logs what opened under the key of a connection.
fn log_opened(
    alloc: Global,
    key: &[u8; 16],
    contents: Items<Blob>,
    seals: &mut Items<SealEntry>,
) -> Result<(), AllocError>
    ensures { OnOk result (seals.new ≡ seals.old ++ map (opened_entry key.now) contents) }
{
    for content in contents.into_vec() {
        seals.push(alloc, SealEntry::Opened(mark(key, content)))?;
    }
    Ok(())
}
