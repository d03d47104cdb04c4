//! Sealing.

ghost use Rattle.std.specs.Prelude.{◌≡◌, ◌<◌, ◌↔◌, ◌++◌, IfOk, length};
ghost use Rattle.cx_aes.specs.KeyOf.{key_of};
ghost use Rattle.cx_cbc.specs.Envelope.{sealed, Opens};

use crate::LONGEST;
use crate::chain::{INITIAL_VECTOR, chain_in_place};
use crate::envelope::{HEAD, enveloped};
use crate::refusals::SealRefusal;
use cx_aes::{Schedule, add};
use cx_base::Blob;
use std::alloc::Global;

/// The sealed envelope of a content of at most 1,048,576 bytes: a multiple of 16 bytes, 10 to 25 more than the content.
pub fn seal(alloc: Global, key: &Schedule, content: &[u8]) -> Result<Blob, SealRefusal>
    ensures bytes { IfOk result (λ blob. blob ≡ sealed (key_of key.now) content.now) }
    ensures opens { IfOk result (λ blob. Opens (key_of key.now) blob content.now) }
    ensures long { (result ≡ Err SealRefusal.TooLong) ↔ (1048576 < length content.now) }
{
    if content.len() > LONGEST {
        return Err(SealRefusal::TooLong);
    }
    let mut bytes = enveloped(alloc, content)?;
    chain_in_place(key, bytes.as_mut_slice());
    Ok(Blob::from(bytes))
}

/// The sealed envelope of a content of 16 bytes, as `seal` gives it.
pub fn seal_16(key: &Schedule, content: &[u8; 16]) -> [u8; 32]
    ensures { result ≡ sealed (key_of key.now) content.now }
{
    // The head and the content are 25 bytes, so seven are missing to 32.
    let bytes = content;
    let first = [
        HEAD[0], HEAD[1], HEAD[2], HEAD[3], HEAD[4], HEAD[5], HEAD[6], HEAD[7], HEAD[8], bytes[0],
        bytes[1], bytes[2], bytes[3], bytes[4], bytes[5], bytes[6],
    ];
    let second = [
        bytes[7], bytes[8], bytes[9], bytes[10], bytes[11], bytes[12], bytes[13], bytes[14],
        bytes[15], 7, 7, 7, 7, 7, 7, 7,
    ];
    let first = key.encrypt(&add(&first, &INITIAL_VECTOR));
    let second = key.encrypt(&add(&second, &first));
    joined(&first, &second)
}

// One block behind the other.
fn joined(first: &[u8; 16], second: &[u8; 16]) -> [u8; 32]
    ensures { result ≡ first.now ++ second.now }
{
    let mut both = [0u8; 32];
    for place in 0..32usize {
        both[place] = if place < 16 {
            first[place]
        } else {
            second[place - 16]
        };
    }
    both
}
