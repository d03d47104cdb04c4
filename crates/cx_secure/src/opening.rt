//! Opening secure frames.

ghost use Rattle.std.specs.Prelude.{◌≡◌, ◌≢◌, ℕ, ◌+◌, ◌<◌, ◌≤◌, ◌^◌, ◌++◌, List, [], ◌∷◌, Some, None, Ok, Err, IfOk, OnOk, OnErr, length, take, drop};
ghost use Rattle.cx_gcm.specs.GcmKeyOf.{gcm_key_of};
ghost use Rattle.cx_frame.specs.Preambles.{IsAllowed, preamble_text};
ghost use Rattle.cx_frame.specs.declared.frame.Frame.{Frame};
ghost use Rattle.cx_frame.specs.declared.preamble.Preamble.{Preamble};
ghost use Rattle.cx_secure.specs.Contents.{head_content, head_contents, parts_contents, rest_contents};
ghost use Rattle.cx_secure.specs.Opening.{IsHead, IsPlainHead, IsRestBehind, head_of, head_step, rest_of, rest_step, with_inline};
ghost use Rattle.cx_secure.specs.Parts.{nonce_at, part};
ghost use Rattle.cx_secure.specs.Plains.{rest_len, rest_parts};
ghost use Rattle.cx_secure.specs.Refusing.{Agrees};
ghost use Rattle.cx_secure.specs.Sealings.{after_opened, after_opening, connection_key, open_head_at, open_rest_at};
ghost use Rattle.cx_secure.specs.declared.refusals.SecureRefusal.{SecureRefusal};
ghost use Rattle.cx_secure.specs.declared.refusals.SecureRefusal.TheVariants.{OutOfMemory};
ghost use Rattle.cx_secure.specs.declared.sealing.Head.{Head};

use crate::parts::{hand_out, nonce_at, opened_head, opened_some};
use crate::refusals::SecureRefusal;
use crate::rooms::{frame_at, last_len, one_if, rest_parts, second_len, tagged};
use crate::sealing::{Head, Sealing, Way};
use cx_base::{Blob, Items};
use cx_frame::{Frame, put_preamble, read_preamble_within};
use cx_gcm::GcmKey;
use std::alloc::{AllocError, Global};

/// The bytes that the segments of a secure frame have together, at most.
pub const MAX_SECURE: u64 = 1_048_576;

// The bytes of a head's content: its nonce, its preamble and the front of its first segment.
const HEAD_CONTENT: usize = 92;

/// The number of bytes that stand behind the head of a secure frame.
#[tactic(auto, unfolding(crate::specs::Plains::rest_len))]
pub fn rest_len(head: &Head) -> usize
    requires { IsAllowed 1048576 head.now.preamble }
    ensures { result ≡ rest_len head.now.preamble }
{
    let preamble = &head.preamble;
    tagged(second_len(preamble)) + tagged(last_len(preamble))
}

impl Sealing {
    /// Reads the head of a frame and changes nothing. It takes no memory. `pass_head` then goes on behind a head that is answered, and `keep`
    /// keeps why one is refused. Its content is `head_content` where it is answered, and where it is refused `hand_out_head` hands it out.
    pub fn read_head(&self, bytes: &[u8; 96]) -> Result<Head, SecureRefusal>
        // What is read was sealed so, under the counter of this direction.
        ensures found { IfOk result (IsHead (connection_key self.now) (nonce_at self.now.into.fixed self.now.into.counter) bytes.now) }
        // What was sealed so is read.
        ensures only { (h : Head) → self.now.kept ≡ None → self.now.into.counter + 1 < 2 ^ 64
            → IsHead (connection_key self.now) (nonce_at self.now.into.fixed self.now.into.counter) bytes.now h → result ≡ Ok h }
        // It is refused for what was refused before, then for the counter, the tag, and the first check of the preamble that fails: always,
        // since no memory can be wanting.
        ensures exact { result ≡ open_head_at self.now bytes.now }
        // So `pass_head` can follow.
        ensures below { IfOk result (λ _. self.now.into.counter + 1 < 2 ^ 64) }
    {
        if let Some(refusal) = self.kept {
            return Err(refusal);
        }
        head_step(&self.key, &self.into, bytes)
    }

    /// Goes on behind a head that was read.
    pub fn pass_head(&mut self)
        requires { self.old.into.counter + 1 < 2 ^ 64 }
        ensures { self.new ≡ after_opened self.old 1 }
    {
        self.into.raise(1);
    }

    /// Keeps why a part was refused, so that every later call answers it. Want of memory isn't kept.
    pub fn keep(&mut self, refusal: SecureRefusal)
        ensures { self.new ≡ after_opening {X = Head} self.old 1 (Err refusal) }
    {
        match refusal {
            SecureRefusal::OutOfMemory => {}
            refusal => self.kept = Some(refusal),
        }
    }

    /// Hands out the content of the head in these bytes, its nonce and its plain bytes, where its tag is right under the counter of this
    /// direction. A head that was refused is still under it.
    pub fn hand_out_head(
        &self,
        alloc: Global,
        bytes: &[u8; 96],
        contents: &mut Items<Blob>,
    ) -> Result<(), AllocError>
        ensures ok { OnOk result (contents.new ≡ contents.old ++ head_contents (connection_key self.now) self.now.into.fixed self.now.into.counter bytes.now) }
        ensures err { OnErr result (contents.new ≡ contents.old) }
        // Memory is wanting only where something opens.
        ensures memory { OnErr result (head_contents (connection_key self.now) self.now.into.fixed self.now.into.counter bytes.now ≢ []) }
    {
        hand_out_opened(alloc, &self.key, &self.into, bytes, contents)
    }

    /// The content of a head that was opened last: its nonce and its plain bytes.
    pub fn head_content(&self, alloc: Global, head: &Head) -> Result<Blob, AllocError>
        ensures { IfOk result (λ content. content ≡ head_content self.now.into head.now) }
    {
        let nonce = nonce_at(&self.into.fixed, self.into.counter.saturating_sub(1));
        let mut content = Blob::with_room(alloc, HEAD_CONTENT)?;
        content.append(alloc, &nonce)?;
        put_preamble(alloc, &mut content, &head.preamble)?;
        content.append(alloc, &head.inline)?;
        Ok(content)
    }

    /// Opens what stands behind a head. The content of each part that opens is handed out, also where a frame is refused.
    pub fn open_rest(
        &mut self,
        alloc: Global,
        head: Head,
        bytes: &[u8],
        contents: &mut Items<Blob>,
    ) -> Result<Frame, SecureRefusal>
        requires allowed { IsAllowed 1048576 head.preamble }
        requires len { length bytes.now ≡ rest_len head.preamble }
        // What is read was sealed so, behind this head and under the counter of this direction.
        ensures found { IfOk result (IsRestBehind (connection_key self.old) self.old.into.fixed self.old.into.counter head bytes.now) }
        // What was sealed so is read.
        ensures only { (f : Frame) → self.old.kept ≡ None → self.old.into.counter + rest_parts head.preamble < 2 ^ 64
            → IsRestBehind (connection_key self.old) self.old.into.fixed self.old.into.counter head bytes.now f → Agrees result (Ok f) }
        // It is refused for what was refused before, then for the counter, the tags, the fills, and the late status.
        ensures exact { Agrees result (open_rest_at self.old head bytes.now) }
        ensures after { self.new ≡ after_opening self.old (rest_parts head.preamble) result }
        // What opened is handed out, but for want of memory.
        ensures handed { self.old.kept ≡ None → result ≢ Err OutOfMemory
            → contents.new ≡ contents.old ++ rest_contents (connection_key self.old) self.old.into.fixed self.old.into.counter head.preamble bytes.now }
        ensures still { (refusal : SecureRefusal) → self.old.kept ≡ Some refusal → contents.new ≡ contents.old }
    {
        if let Some(refusal) = self.kept {
            return Err(refusal);
        }
        match rest_step(alloc, &self.key, &self.into, &head, bytes, contents) {
            Ok(frame) => {
                self.into.raise(rest_parts(&head.preamble));
                Ok(frame)
            }
            Err(refusal) => {
                self.keep(refusal);
                Err(refusal)
            }
        }
    }

    /// The refusal that every later call answers.
    pub fn kept(&self) -> Option<SecureRefusal>
        ensures { result ≡ self.now.kept }
    {
        self.kept
    }
}

// The head in 96 bytes, which comes under the counter.
#[tactic(auto, unfolding(crate::specs::Opening::head_step, crate::specs::Opening::head_of))]
fn head_step(key: &GcmKey, way: &Way, bytes: &[u8; 96]) -> Result<Head, SecureRefusal>
    ensures value { result ≡ head_step (gcm_key_of key.now) way.now.fixed way.now.counter bytes.now }
    ensures below { IfOk result (λ _. way.now.counter + 1 < 2 ^ 64) }
    ensures found { IfOk result (IsHead (gcm_key_of key.now) (nonce_at way.now.fixed way.now.counter) bytes.now) }
    ensures only { (h : Head) → way.now.counter + 1 < 2 ^ 64 → IsHead (gcm_key_of key.now) (nonce_at way.now.fixed way.now.counter) bytes.now h → result ≡ Ok h }
{
    if way.counter == u64::MAX {
        return Err(SecureRefusal::CounterSpent);
    }
    let nonce = nonce_at(&way.fixed, way.counter);
    match opened_head(key, nonce, bytes) {
        Some(plain) => head_of(&plain),
        None => Err(SecureRefusal::BadTag),
    }
}

// Hands out what opens of a head, which comes under the counter.
#[tactic(auto, unfolding(crate::specs::Contents::head_contents))]
fn hand_out_opened(
    alloc: Global,
    key: &GcmKey,
    way: &Way,
    bytes: &[u8; 96],
    contents: &mut Items<Blob>,
) -> Result<(), AllocError>
    ensures ok { OnOk result (contents.new ≡ contents.old ++ head_contents (gcm_key_of key.now) way.now.fixed way.now.counter bytes.now) }
    ensures err { OnErr result (contents.new ≡ contents.old) }
    ensures memory { OnErr result (head_contents (gcm_key_of key.now) way.now.fixed way.now.counter bytes.now ≢ []) }
{
    if way.counter == u64::MAX {
        return Ok(());
    }
    let nonce = nonce_at(&way.fixed, way.counter);
    match opened_head(key, nonce, bytes) {
        Some(plain) => hand_out(alloc, &nonce, &plain, contents),
        None => Ok(()),
    }
}

// The head in the plain bytes of the first part.
#[tactic(auto, unfolding(crate::specs::Opening::head_of, crate::specs::Opening::with_inline))]
fn head_of(plain: &[u8; 80]) -> Result<Head, SecureRefusal>
    ensures value { result ≡ head_of (Some plain.now) }
    ensures found { IfOk result (IsPlainHead plain.now) }
{
    let preamble = read_preamble_within(&front_of(plain), MAX_SECURE)?;
    Ok(Head {
        preamble,
        inline: inline_of(plain),
    })
}

fn front_of(plain: &[u8; 80]) -> [u8; 32]
    ensures { result ≡ take 32 plain.now }
{
    let Some((front, _)) = plain.split_first_chunk::<32>() else {
        unreachable!();
    };
    *front
}

#[tactic(auto, using(crate::proofs::Lists::all_taken))]
fn inline_of(plain: &[u8; 80]) -> [u8; 48]
    ensures { result ≡ drop 32 plain.now }
{
    let (_, rest) = plain.split_at(32);
    let Some((inline, _)) = rest.split_first_chunk::<48>() else {
        unreachable!();
    };
    *inline
}

// The frame behind a head, whose parts come from the counter on.
#[tactic(auto, using(crate::proofs::Lengths::parts_front), unfolding(crate::specs::Opening::rest_step, crate::specs::Contents::rest_contents))]
fn rest_step(
    alloc: Global,
    key: &GcmKey,
    way: &Way,
    head: &Head,
    bytes: &[u8],
    contents: &mut Items<Blob>,
) -> Result<Frame, SecureRefusal>
    requires allowed { IsAllowed 1048576 head.now.preamble }
    requires len { length bytes.now ≡ rest_len head.now.preamble }
    ensures value { Agrees result (rest_step (gcm_key_of key.now) way.now.fixed way.now.counter head.now bytes.now) }
    ensures below { IfOk result (λ _. way.now.counter + rest_parts head.now.preamble < 2 ^ 64) }
    ensures found { IfOk result (IsRestBehind (gcm_key_of key.now) way.now.fixed way.now.counter head.now bytes.now) }
    ensures only { (f : Frame) → way.now.counter + rest_parts head.now.preamble < 2 ^ 64
        → IsRestBehind (gcm_key_of key.now) way.now.fixed way.now.counter head.now bytes.now f → Agrees result (Ok f) }
    ensures handed { result ≢ Err OutOfMemory
        → contents.new ≡ contents.old ++ rest_contents (gcm_key_of key.now) way.now.fixed way.now.counter head.now.preamble bytes.now }
{
    if way.counter > u64::MAX - rest_parts(&head.preamble) {
        return Err(SecureRefusal::CounterSpent);
    }
    let next = way.counter + one_if(second_len(&head.preamble));
    let first_nonce = nonce_at(&way.fixed, way.counter);
    let next_nonce = nonce_at(&way.fixed, next);
    rest_of(alloc, key, first_nonce, next_nonce, head, bytes, contents)
}

// The frame in what stands behind its head, whose parts have these nonces.
#[tactic(auto, unfolding(crate::specs::Opening::rest_of, crate::specs::Opening::with_parts, crate::specs::Plains::rest_len, crate::specs::Contents::parts_contents))]
fn rest_of(
    alloc: Global,
    key: &GcmKey,
    first: [u8; 12],
    next: [u8; 12],
    head: &Head,
    bytes: &[u8],
    contents: &mut Items<Blob>,
) -> Result<Frame, SecureRefusal>
    requires allowed { IsAllowed 1048576 head.now.preamble }
    requires len { length bytes.now ≡ rest_len head.now.preamble }
    ensures value { Agrees result (rest_of (gcm_key_of key.now) first next head.now bytes.now) }
    ensures inline { IfOk result (λ _. length head.now.inline ≡ 48) }
    ensures handed { result ≢ Err OutOfMemory → contents.new ≡ contents.old ++ parts_contents (gcm_key_of key.now) first next head.now.preamble bytes.now }
{
    let front = tagged(second_len(&head.preamble));
    let (second, last) = bytes.split_at(front);
    let second = opened_some(alloc, key, first, second, contents)?;
    let last = opened_some(alloc, key, next, last, contents)?;
    let Some(second) = second else {
        return Err(SecureRefusal::BadTag);
    };
    let Some(last) = last else {
        return Err(SecureRefusal::BadTag);
    };
    let room = room_of(alloc, &head.inline, second.bytes())?;
    frame_at(alloc, &head.preamble, room, last.bytes())
}

// The first segment with its fill.
fn room_of(alloc: Global, inline: &[u8; 48], second: &[u8]) -> Result<Vec<u8>, AllocError>
    ensures text { IfOk result (λ room. room.items ≡ inline.now ++ second.now) }
    ensures len { IfOk result (λ room. length room.items ≡ 48 + length second.now) }
{
    let mut room = Vec::from_slice(alloc, inline)?;
    room.extend_from_slice(second)?;
    Ok(room)
}
