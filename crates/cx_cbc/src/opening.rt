//! Opening.

ghost use Rattle.std.specs.Prelude.{◌≡◌, ℕ, List, Some, None, IfOk};
ghost use Rattle.cx_aes.specs.Cipher.{IsBlock};
ghost use Rattle.cx_aes.specs.KeyOf.{key_of};
ghost use Rattle.cx_cbc.specs.Envelope.{Opens, OpensOne};
ghost use Rattle.cx_cbc.specs.Opened.{opened};

use crate::LONGEST;
use crate::chain::unchained;
use crate::envelope::{HEAD, content_of};
use crate::refusals::OpenRefusal;
use cx_aes::Schedule;
use cx_base::Blob;
use std::alloc::Global;

// The bytes of the longest envelope: 9 of the head, the longest content and 7 of padding.
const LONGEST_ENVELOPE: usize = 1_048_592;

/// The content of a sealed envelope. What is longer than any envelope is refused before anything is decrypted.
pub fn open(alloc: Global, key: &Schedule, sealed: &[u8]) -> Result<Blob, OpenRefusal>
    ensures opened { IfOk result (λ content. Opens (key_of key.now) sealed.now content) }
    ensures unopened { result ≡ Err OpenRefusal.Unopened → (content : List ℕ) → Opens (key_of key.now) sealed.now content → ⊥ }
    ensures exact { IfOk result (λ content. opened (key_of key.now) sealed.now ≡ Some content) }
    ensures none { result ≡ Err OpenRefusal.Unopened → opened (key_of key.now) sealed.now ≡ None }
{
    if sealed.len() > LONGEST_ENVELOPE {
        return Err(OpenRefusal::Unopened);
    }
    if sealed.len() % 16 != 0 {
        return Err(OpenRefusal::Unopened);
    }
    let mut plain = unchained(alloc, key, sealed)?;
    let Some(content) = content_of(plain.as_slice()) else {
        return Err(OpenRefusal::Unopened);
    };
    let length = content.len();
    if length > LONGEST {
        return Err(OpenRefusal::Unopened);
    }
    plain.copy_within(HEAD.len()..HEAD.len() + length, 0);
    plain.truncate(length);
    Ok(Blob::from(plain))
}

/// Bytes open to one content at most, under a key of 16 bytes.
pub fn opens_one_content()
    ensures { OpensOne }
{}

/// The content that is found, as a function of key and bytes, is the one that opens.
pub fn opening_laws()
    ensures found { (key bytes content : List ℕ) → opened key bytes ≡ Some content → Opens key bytes content }
    ensures only { (key bytes content : List ℕ) → IsBlock key → Opens key bytes content → opened key bytes ≡ Some content }
{}
