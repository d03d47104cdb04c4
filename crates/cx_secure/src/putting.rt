//! Sealing frames.

ghost use Rattle.std.specs.Prelude.{◌≡◌, ◌≢◌, ℕ, ◌+◌, ◌-◌, ◌<◌, ◌≤◌, ◌^◌, ◌++◌, List, All, None, Err, IfOk, IfErr, OnOk, OnErr, length, sum_by};
ghost use Rattle.cx_gcm.specs.GcmKeyOf.{gcm_key_of};
ghost use Rattle.cx_frame.specs.Frames.{IsAnnounceable, total};
ghost use Rattle.cx_frame.specs.Preambles.{IsAllowed, length_of, preamble_of};
ghost use Rattle.cx_frame.specs.declared.frame.Frame.{Frame};
ghost use Rattle.cx_secure.specs.Commits.{IsAheadOf, after_commit};
ghost use Rattle.cx_secure.specs.Contents.{frame_contents, sealed_contents};
ghost use Rattle.cx_secure.specs.Parts.{sealed_parts};
ghost use Rattle.cx_secure.specs.Plains.{bodies, filled, inline_of, last_plain, nonempty, padded, parts_of, plains, second_plain, secure_text};
ghost use Rattle.cx_secure.specs.Refusing.{IsRefusal};
ghost use Rattle.cx_secure.specs.Sealings.{after_putting, connection_key, put_refusal};

use crate::opening::MAX_SECURE;
use crate::parts::{TAG, hand_out, nonce_at, seal_part, seal_some};
use crate::refusals::SecureRefusal;
use crate::rooms::{COMPLETE, END, INLINE, one_if, up16};
use crate::sealing::{SealedAhead, Sealing, Way};
use cx_base::{Blob, Items};
use cx_frame::{Frame, Segment, preamble_bytes, preamble_of, put_text, total};
use cx_gcm::GcmKey;
use std::alloc::{AllocError, Global};

/// The bytes of a head, as it is sealed.
const HEAD: usize = 96;

impl Sealing {
    /// Seals a frame, and puts it behind some bytes. After a refusal the bytes are as before.
    pub fn put_frame(
        &mut self,
        alloc: Global,
        into: &mut Blob,
        frame: &Frame,
    ) -> Result<(), SecureRefusal>
        requires { IsAnnounceable frame.now }
        ensures ok { OnOk result (into.new ≡ into.old ++ secure_text (connection_key self.old) self.old.out.fixed self.old.out.counter frame.now) }
        // A frame that is sealed is one that a preamble announces within the limit.
        ensures allowed { OnOk result (IsAllowed 1048576 (preamble_of frame.now)) }
        ensures free { OnOk result (put_refusal self.old frame.now ≡ None) }
        // It is refused for what was refused before, then for the counter, then for the limit.
        ensures refused { IfErr result (IsRefusal (put_refusal self.old frame.now)) }
        ensures after { self.new ≡ after_putting self.old frame.now result }
        ensures err { OnErr result (into.new ≡ into.old) }
    {
        match self.put_ahead(alloc, into, frame) {
            Ok(ahead) => {
                self.commit(ahead);
                Ok(())
            }
            Err(refusal) => {
                self.keep_unsent(refusal);
                Err(refusal)
            }
        }
    }

    /// Seals a frame under the counter of this direction, puts it behind some bytes, and changes nothing: `commit` then goes on behind it. After a
    /// refusal the bytes are as before.
    pub fn put_ahead(
        &self,
        alloc: Global,
        into: &mut Blob,
        frame: &Frame,
    ) -> Result<SealedAhead, SecureRefusal>
        requires { IsAnnounceable frame.now }
        ensures ok { OnOk result (into.new ≡ into.old ++ secure_text (connection_key self.now) self.now.out.fixed self.now.out.counter frame.now) }
        // It uses the counters from the one of this direction on, one for each part.
        ensures ahead { IfOk result (IsAheadOf self.now frame.now) }
        // A frame that is sealed is one that a preamble announces within the limit.
        ensures allowed { OnOk result (IsAllowed 1048576 (preamble_of frame.now)) }
        ensures free { OnOk result (put_refusal self.now frame.now ≡ None) }
        // It is refused for what was refused before, then for the counter, then for the limit.
        ensures refused { IfErr result (IsRefusal (put_refusal self.now frame.now)) }
        ensures err { OnErr result (into.new ≡ into.old) }
    {
        if let Some(refusal) = self.kept {
            return Err(refusal);
        }
        let from = self.out.counter;
        let parts = parts_of(frame);
        if from > u64::MAX - parts {
            return Err(SecureRefusal::CounterSpent);
        }
        let total = total(frame);
        if total > MAX_SECURE {
            return Err(SecureRefusal::TooLong(total));
        }
        let text = sealed(alloc, &self.key, &self.out, frame)?;
        put_text(alloc, into, text)?;
        let next = from + parts;
        Ok(SealedAhead { from, next })
    }

    /// Goes on behind a frame that was sealed ahead, where no other was committed since. It wants no memory.
    pub fn commit(&mut self, ahead: SealedAhead)
        requires { ahead.from ≡ self.old.out.counter }
        ensures { self.new ≡ after_commit self.old ahead }
    {
        self.out.go_on_at(ahead.next);
    }

    // Keeps why a frame wasn't sealed, but for want of memory and one that is too long.
    fn keep_unsent(&mut self, refusal: SecureRefusal)
        ensures { (f : Frame) → self.new ≡ after_putting self.old f (Err refusal) }
    {
        match refusal {
            SecureRefusal::OutOfMemory => {}
            SecureRefusal::TooLong(_) => {}
            refusal => self.kept = Some(refusal),
        }
    }

    /// The content of each part of a frame that was sealed ahead: its nonce and its plain bytes.
    pub fn ahead_contents(
        &self,
        alloc: Global,
        ahead: &SealedAhead,
        frame: &Frame,
    ) -> Result<Items<Blob>, AllocError>
        requires announced { IsAnnounceable frame.now }
        requires short { total frame.now ≤ 1048576 }
        ensures { IfOk result (λ contents. contents ≡ frame_contents (after_commit self.now ahead.now).out frame.now) }
    {
        let counter = ahead.next.saturating_sub(parts_of(frame));
        contents(alloc, &self.out.fixed, counter, frame)
    }

    /// The content of each part of the frame that was put last: its nonce and its plain bytes.
    pub fn put_contents(&self, alloc: Global, frame: &Frame) -> Result<Items<Blob>, AllocError>
        requires announced { IsAnnounceable frame.now }
        requires short { total frame.now ≤ 1048576 }
        ensures { IfOk result (λ contents. contents ≡ frame_contents self.now.out frame.now) }
    {
        let counter = self.out.counter.saturating_sub(parts_of(frame));
        contents(alloc, &self.out.fixed, counter, frame)
    }

    /// The number of parts that can still be sealed.
    pub fn parts_left(&self) -> u64
        ensures { result ≡ 2 ^ 64 - 1 - self.now.out.counter }
    {
        u64::MAX - self.out.counter
    }
}

// The number of parts.
fn parts_of(frame: &Frame) -> u64
    requires { IsAnnounceable frame.now }
    ensures value { result ≡ length (plains frame.now) }
    ensures some { 1 ≤ result }
    ensures small { result ≤ 3 }
{
    let segments = frame.segments.all();
    let first = segments[0].bytes.bytes().len();
    1 + one_if(first.saturating_sub(INLINE)) + one_if(segments.len() - 1)
}

// The parts of a frame, one behind the other.
#[tactic(auto, using(crate::proofs::PlainLaws::preamble_len), unfolding(crate::specs::Plains::plains, crate::specs::Plains::plains_of))]
fn sealed(alloc: Global, key: &GcmKey, way: &Way, frame: &Frame) -> Result<Blob, AllocError>
    requires fine { IsAnnounceable frame.now }
    requires short { total frame.now ≤ 1048576 }
    requires counter { way.now.counter + length (plains frame.now) < 2 ^ 64 }
    ensures allowed { OnOk result (IsAllowed 1048576 (preamble_of frame.now)) }
    ensures text { IfOk result (λ text. text ≡ secure_text (gcm_key_of key.now) way.now.fixed way.now.counter frame.now) }
{
    let preamble = preamble_bytes(&preamble_of(frame));
    let [first, others @ ..] = frame.segments.all() else {
        return Ok(Blob::new(alloc));
    };
    let first = first.bytes.bytes();
    sealed_behind(alloc, key, way, &preamble, first, others)
}

// The parts of a frame with this preamble.
#[tactic(auto, using(crate::proofs::PlainLaws::parts_before))]
fn sealed_behind(
    alloc: Global,
    key: &GcmKey,
    way: &Way,
    preamble: &[u8],
    first: &[u8],
    others: &[Segment],
) -> Result<Blob, AllocError>
    requires preamble { length preamble.now ≡ 32 }
    requires first { length first.now ≤ 1048576 }
    requires others { sum_by length_of others.now ≤ 1048576 }
    requires few { length others.now ≤ 3 }
    requires counter { way.now.counter + length (parts_of preamble.now first.now others.now) < 2 ^ 64 }
    ensures { IfOk result (λ text. text ≡ sealed_parts (gcm_key_of key.now) way.now.fixed way.now.counter (parts_of preamble.now first.now others.now)) }
{
    let mut head = head_plain(preamble, first);
    let mut second = second_plain(alloc, &[], first)?;
    let mut last = last_plain(alloc, &[], others)?;
    let next = way.counter + 1;
    let behind = next + one_if(first.len().saturating_sub(INLINE));
    let mut text = Blob::with_room(alloc, room_for(&second, &last))?;
    seal_part(
        alloc,
        &mut text,
        key,
        nonce_at(&way.fixed, way.counter),
        &mut head,
    )?;
    seal_some(alloc, &mut text, key, &way.fixed, next, &mut second)?;
    seal_some(alloc, &mut text, key, &way.fixed, behind, &mut last)?;
    Ok(text)
}

// Room for a sealed head, and for what is sealed behind it.
fn room_for(second: &[u8], last: &[u8]) -> usize {
    let behind = second.len().saturating_add(last.len());
    behind.saturating_add(HEAD + 2 * TAG)
}

// The contents of a frame's parts.
#[tactic(auto, using(crate::proofs::PlainLaws::preamble_len), unfolding(crate::specs::Plains::plains, crate::specs::Plains::plains_of))]
fn contents(
    alloc: Global,
    fixed: &[u8; 4],
    counter: u64,
    frame: &Frame,
) -> Result<Items<Blob>, AllocError>
    requires announced { IsAnnounceable frame.now }
    requires short { total frame.now ≤ 1048576 }
    requires counter { counter + length (plains frame.now) < 2 ^ 64 }
    ensures { IfOk result (λ contents. contents ≡ sealed_contents fixed.now counter (plains frame.now)) }
{
    let preamble = preamble_bytes(&preamble_of(frame));
    let [first, others @ ..] = frame.segments.all() else {
        return Ok(Items::new(alloc));
    };
    let first = first.bytes.bytes();
    contents_behind(alloc, fixed, counter, &preamble, first, others)
}

// The contents of the parts of a frame with this preamble.
#[tactic(auto, using(crate::proofs::PlainLaws::parts_before))]
fn contents_behind(
    alloc: Global,
    fixed: &[u8; 4],
    counter: u64,
    preamble: &[u8],
    first: &[u8],
    others: &[Segment],
) -> Result<Items<Blob>, AllocError>
    requires preamble { length preamble.now ≡ 32 }
    requires first { length first.now ≤ 1048576 }
    requires others { sum_by length_of others.now ≤ 1048576 }
    requires counter { counter + length (parts_of preamble.now first.now others.now) < 2 ^ 64 }
    ensures { IfOk result (λ contents. contents ≡ sealed_contents fixed.now counter (parts_of preamble.now first.now others.now)) }
{
    let head = head_plain(preamble, first);
    let next = counter + 1;
    let behind = next + one_if(first.len().saturating_sub(INLINE));
    let mut contents = Items::new(alloc);
    hand_out(alloc, &nonce_at(fixed, counter), &head, &mut contents)?;
    hand_out_second(alloc, fixed, next, first, &mut contents)?;
    hand_out_last(alloc, fixed, behind, others, &mut contents)?;
    Ok(contents)
}

// Hands out the content of the second part with this counter, where there is one.
#[tactic(auto, using(crate::proofs::PlainLaws::no_second, crate::proofs::PlainLaws::second_content))]
fn hand_out_second(
    alloc: Global,
    fixed: &[u8; 4],
    counter: u64,
    first: &[u8],
    contents: &mut Items<Blob>,
) -> Result<(), AllocError>
    requires { length first.now ≤ 1048576 }
    ensures { OnOk result (contents.new ≡ contents.old ++ sealed_contents fixed.now counter (nonempty (second_plain first.now))) }
{
    if first.len() <= INLINE {
        return Ok(());
    }
    let content = second_plain(alloc, &nonce_at(fixed, counter), first)?;
    contents.push(alloc, Blob::from(content))
}

// The same for the last part.
#[tactic(auto, using(crate::proofs::PlainLaws::no_last, crate::proofs::PlainLaws::last_content))]
fn hand_out_last(
    alloc: Global,
    fixed: &[u8; 4],
    counter: u64,
    others: &[Segment],
    contents: &mut Items<Blob>,
) -> Result<(), AllocError>
    requires { sum_by length_of others.now ≤ 1048576 }
    ensures { OnOk result (contents.new ≡ contents.old ++ sealed_contents fixed.now counter (nonempty (last_plain others.now))) }
{
    if others.is_empty() {
        return Ok(());
    }
    let content = last_plain(alloc, &nonce_at(fixed, counter), others)?;
    contents.push(alloc, Blob::from(content))
}

// The plain bytes of the first part.
fn head_plain(preamble: &[u8], first: &[u8]) -> [u8; 80]
    requires { length preamble.now ≡ 32 }
    ensures { result ≡ preamble.now ++ inline_of first.now }
{
    let (inline, _) = first.split_at(first.len().min(INLINE));
    let mut plain = [0; 80];
    let (front, room) = plain.split_at_mut(32);
    front.copy_from_slice(preamble);
    let (filled, _) = room.split_at_mut(inline.len());
    filled.copy_from_slice(inline);
    plain
}

// The plain bytes of the second part, behind some bytes.
#[tactic(auto, using(crate::proofs::Lists::front_alone), unfolding(crate::specs::Plains::second_plain))]
fn second_plain(alloc: Global, front: &[u8], first: &[u8]) -> Result<Vec<u8>, AllocError>
    requires { length first.now ≤ 1048576 }
    ensures { IfOk result (λ plain. plain.items ≡ front.now ++ second_plain first.now) }
{
    if first.len() <= INLINE {
        return Vec::from_slice(alloc, front);
    }
    let (_, rest) = first.split_at(INLINE);
    let room = up16(rest.len());
    let mut plain = Vec::with_capacity(alloc, room.saturating_add(front.len()))?;
    plain.extend_from_slice(front)?;
    put_filled(&mut plain, rest, room)?;
    Ok(plain)
}

// The plain bytes of the last part, behind some bytes.
#[tactic(auto, unfolding(crate::specs::Plains::last_plain))]
fn last_plain(alloc: Global, front: &[u8], others: &[Segment]) -> Result<Vec<u8>, AllocError>
    requires { sum_by length_of others.now ≤ 1048576 }
    ensures { IfOk result (λ plain. plain.items ≡ front.now ++ last_plain others.now) }
{
    if others.is_empty() {
        return Vec::from_slice(alloc, front);
    }
    let mut plain = Vec::with_capacity(alloc, room_behind(front, others))?;
    plain.extend_from_slice(front)?;
    put_bodies(&mut plain, others)?;
    put_filled(&mut plain, &[COMPLETE], END)?;
    Ok(plain)
}

// Room for some bytes, and for the last part behind them.
fn room_behind(front: &[u8], others: &[Segment]) -> usize
    requires { sum_by length_of others.now ≤ 1048576 }
{
    let mut room = front.len().saturating_add(END);
    for segment in others {
        room = room.saturating_add(up16(segment.bytes.bytes().len()));
    }
    room
}

// The segments, each filled to a multiple of 16.
fn put_bodies(into: &mut Vec<u8>, others: &[Segment]) -> Result<(), AllocError>
    requires { sum_by length_of others.now ≤ 1048576 }
    ensures { OnOk result (into.new.items ≡ into.old.items ++ bodies others.now) }
{
    for segment in others {
        put_padded(into, segment)?;
    }
    Ok(())
}

// A segment filled to a multiple of 16.
#[tactic(auto, unfolding(crate::specs::Plains::padded))]
fn put_padded(into: &mut Vec<u8>, segment: &Segment) -> Result<(), AllocError>
    requires { length segment.now.bytes ≤ 1048576 }
    ensures { OnOk result (into.new.items ≡ into.old.items ++ padded segment.now) }
{
    let bytes = segment.bytes.bytes();
    put_filled(into, bytes, up16(bytes.len()))
}

// Bytes filled with zeros.
#[tactic(auto, using(crate::proofs::Lists::zeros_taken), unfolding(crate::specs::Plains::filled))]
fn put_filled(into: &mut Vec<u8>, bytes: &[u8], room: usize) -> Result<(), AllocError>
    requires { room ≤ length bytes.now + 64 }
    ensures { OnOk result (into.new.items ≡ into.old.items ++ filled room bytes.now) }
{
    let zeros = [0u8; 64];
    let (fill, _) = zeros.split_at(room.saturating_sub(bytes.len()));
    into.extend_from_slice(bytes)?;
    into.extend_from_slice(fill)?;
    Ok(())
}
