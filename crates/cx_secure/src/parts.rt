//! Parts: sealed and opened, each under a nonce of its own.

ghost use Rattle.std.specs.Prelude.{◌≡◌, ◌≢◌, ℕ, ◌+◌, ◌-◌, ◌≤◌, ◌++◌, List, [], ◌∷◌, Some, None, OnOk, OnErr, IfOk, IfSome, length};
ghost use Rattle.std.specs.Bool.{OnTrue, OnFalse};
ghost use Rattle.cx_gcm.specs.GcmKeyOf.{gcm_key_of};
ghost use Rattle.cx_gcm.specs.Gcm.{IsNonce};
ghost use Rattle.cx_secure.specs.Contents.{content_of, part_content};
ghost use Rattle.cx_secure.specs.Parts.{nonce_at, opened, opened_some, opened_text, part, sealed_parts};
ghost use Rattle.cx_secure.specs.Plains.{nonempty};

use cx_base::{Blob, Items};
use cx_gcm::GcmKey;
use std::alloc::{AllocError, Global};

/// The bytes of a tag.
pub(crate) const TAG: usize = 16;

// The nonce of the part with this counter.
#[tactic(auto, using(crate::proofs::Lists::four_front), unfolding(crate::specs::Parts::nonce_at))]
pub(crate) fn nonce_at(fixed: &[u8; 4], counter: u64) -> [u8; 12]
    ensures value { result ≡ nonce_at fixed.now counter }
    ensures nonce { IsNonce (nonce_at fixed.now counter) }
{
    let c = counter.to_le_bytes();
    [
        fixed[0], fixed[1], fixed[2], fixed[3], c[0], c[1], c[2], c[3], c[4], c[5], c[6], c[7],
    ]
}

// Seals a plain text in place, and puts the part behind some bytes.
#[tactic(auto, unfolding(crate::specs::Parts::part, crate::specs::Parts::ciphered))]
pub(crate) fn seal_part(
    alloc: Global,
    into: &mut Blob,
    key: &GcmKey,
    nonce: [u8; 12],
    text: &mut [u8],
) -> Result<(), AllocError>
    requires { length text.old ≤ 2097152 }
    ensures { OnOk result (into.new ≡ into.old ++ part (gcm_key_of key.now) nonce text.old) }
{
    let tag = key.seal_in_place(nonce, text);
    into.append_both(alloc, text, &tag)
}

// The same, where there may be no part; the counter behind it.
#[tactic(auto, unfolding(crate::specs::Parts::sealed_parts))]
pub(crate) fn seal_some(
    alloc: Global,
    into: &mut Blob,
    key: &GcmKey,
    fixed: &[u8; 4],
    counter: u64,
    text: &mut [u8],
) -> Result<(), AllocError>
    requires { length text.old ≤ 2097152 }
    ensures { OnOk result (into.new ≡ into.old ++ sealed_parts (gcm_key_of key.now) fixed.now counter (nonempty text.old)) }
{
    if text.is_empty() {
        return Ok(());
    }
    seal_part(alloc, into, key, nonce_at(fixed, counter), text)
}

// Opens a cipher text in place, where its tag is right.
#[tactic(auto, unfolding(crate::specs::Parts::opened_text))]
fn open_in_place(key: &GcmKey, nonce: &[u8; 12], text: &mut [u8], tag: &[u8; 16]) -> bool
    requires { length text.old ≤ 2097152 }
    ensures opens { OnTrue result (opened_text (gcm_key_of key.now) nonce.now text.old tag.now ≡ Some text.new) }
    ensures wrong { OnFalse result (opened_text (gcm_key_of key.now) nonce.now text.old tag.now ≡ None) }
{
    match key.open_in_place(*nonce, text, tag) {
        Ok(()) => true,
        Err(_) => false,
    }
}

// The plain text of a head's part.
#[tactic(auto, unfolding(crate::specs::Parts::opened))]
pub(crate) fn opened_head(key: &GcmKey, nonce: [u8; 12], bytes: &[u8; 96]) -> Option<[u8; 80]>
    ensures { result ≡ opened (gcm_key_of key.now) nonce 80 bytes.now }
{
    let (cipher, tag) = bytes.split_at(80);
    let mut plain = eighty(cipher);
    if open_in_place(key, &nonce, &mut plain, &sixteen(tag)) {
        Some(plain)
    } else {
        None
    }
}

// Eighty bytes as an array.
#[tactic(auto, using(crate::proofs::Lists::all_taken))]
fn eighty(bytes: &[u8]) -> [u8; 80]
    requires { length bytes.now ≡ 80 }
    ensures { result ≡ bytes.now }
{
    let Some((all, _)) = bytes.split_first_chunk::<80>() else {
        unreachable!();
    };
    *all
}

// Sixteen bytes as an array.
#[tactic(auto, using(crate::proofs::Lists::all_taken))]
fn sixteen(bytes: &[u8]) -> [u8; 16]
    requires { length bytes.now ≡ 16 }
    ensures { result ≡ bytes.now }
{
    let Some((all, _)) = bytes.split_first_chunk::<TAG>() else {
        unreachable!();
    };
    *all
}

// The plain text of a part, where its tag is right.
#[tactic(auto, unfolding(crate::specs::Parts::opened))]
fn opened(
    alloc: Global,
    key: &GcmKey,
    nonce: [u8; 12],
    bytes: &[u8],
) -> Result<Option<Blob>, AllocError>
    requires long { 16 ≤ length bytes.now }
    requires short { length bytes.now ≤ 2097168 }
    ensures text { IfOk result (λ plain. plain ≡ opened (gcm_key_of key.now) nonce (length bytes.now - 16) bytes.now) }
    ensures len { IfOk result (λ plain. IfSome plain (λ text. length text ≡ length bytes.now - 16)) }
{
    let (cipher, tag) = bytes.split_at(bytes.len() - TAG);
    let mut plain = Vec::from_slice(alloc, cipher)?;
    if open_in_place(key, &nonce, &mut plain, &sixteen(tag)) {
        Ok(Some(Blob::from(plain)))
    } else {
        Ok(None)
    }
}

// The plain text of a part, where there may be none. What opens is handed out.
#[tactic(auto, unfolding(crate::specs::Parts::opened_some, crate::specs::Contents::part_content))]
pub(crate) fn opened_some(
    alloc: Global,
    key: &GcmKey,
    nonce: [u8; 12],
    bytes: &[u8],
    contents: &mut Items<Blob>,
) -> Result<Option<Blob>, AllocError>
    requires long { length bytes.now ≢ 0 → 16 ≤ length bytes.now }
    requires short { length bytes.now ≤ 2097168 }
    ensures text { IfOk result (λ plain. plain ≡ opened_some (gcm_key_of key.now) nonce bytes.now) }
    ensures len { IfOk result (λ plain. IfSome plain (λ text. length text ≡ length bytes.now - 16)) }
    ensures handed { OnOk result (contents.new ≡ contents.old ++ part_content (gcm_key_of key.now) nonce bytes.now) }
{
    if bytes.is_empty() {
        return Ok(Some(Blob::new(alloc)));
    }
    let plain = opened(alloc, key, nonce, bytes)?;
    hand_out_some(alloc, &nonce, &plain, contents)?;
    Ok(plain)
}

// Hands out the content of a part, where it opened.
fn hand_out_some(
    alloc: Global,
    nonce: &[u8; 12],
    plain: &Option<Blob>,
    contents: &mut Items<Blob>,
) -> Result<(), AllocError>
    ensures { OnOk result (contents.new ≡ contents.old ++ content_of nonce.now plain.now) }
{
    match plain {
        Some(plain) => hand_out(alloc, nonce, plain.bytes(), contents),
        None => Ok(()),
    }
}

// Hands out the content of a part with this nonce and these plain bytes.
pub(crate) fn hand_out(
    alloc: Global,
    nonce: &[u8; 12],
    plain: &[u8],
    contents: &mut Items<Blob>,
) -> Result<(), AllocError>
    ensures ok { OnOk result (contents.new ≡ contents.old ++ (nonce.now ++ plain.now) ∷ []) }
    ensures err { OnErr result (contents.new ≡ contents.old) }
{
    let mut content = Blob::with_room(alloc, plain.len().saturating_add(12))?;
    content.append_both(alloc, nonce, plain)?;
    contents.push(alloc, content)
}
