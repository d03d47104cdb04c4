//! The hash of a cipher text (SP 800-38D, 6.4 and 7.1).

ghost use Rattle.std.specs.Prelude.{◌≡◌, ℕ, ◌+◌, ◌*◌, ◌/◌, ◌<◌, ◌≤◌, ◌^◌, ◌↔◌, IsTrue, length, slice_index};
ghost use Rattle.cx_gcm.specs.Base.{base_of};
ghost use Rattle.cx_gcm.specs.Blocks.{spelled};
ghost use Rattle.cx_gcm.specs.Gcm.{ghash, hashed};

use crate::gcm_key::MAX_BYTES;
use crate::{Powers, spelled};
use cx_aes::are_sixteen;
use std::simd::prelude::*;

// Four blocks at a time, then one, and at last the lengths.
pub(crate) fn hash(powers: &Powers, cipher: &[u8]) -> [u8; 16]
    requires { length cipher.now ≤ MAX_BYTES }
    ensures { result ≡ spelled (ghash (base_of powers.now) (hashed cipher.now) (length (hashed cipher.now) / 16)) }
{
    let mut sum = u8x16::splat(0);
    let fours = cipher.len() / 64;
    for n in 0..fours {
        let a = u8x16::from_slice(&cipher[64 * n..]);
        let b = u8x16::from_slice(&cipher[64 * n + 16..]);
        let c = u8x16::from_slice(&cipher[64 * n + 32..]);
        let d = u8x16::from_slice(&cipher[64 * n + 48..]);
        sum = powers.four_more(sum, a, b, c, d);
    }
    for n in 4 * fours..cipher.len().div_ceil(16) {
        sum = powers.one_more(sum, u8x16::from_array(block_at(cipher, 16 * n)));
    }
    let bits = 8 * cipher.len() as u128;
    let all = powers.one_more(sum, u8x16::from_array(spelled(bits)));
    are_sixteen(all);
    all.to_array()
}

// Sixteen bytes from a place on, with zeros past the end.
fn block_at(bytes: &[u8], start: usize) -> [u8; 16]
    requires { start < 2 ^ 32 }
    ensures len { length result ≡ 16 }
    ensures places { (k : ℕ) → k < 16 → slice_index result k ≡ slice_index bytes.now (start + k) }
{
    let mut block = [0u8; 16];
    for k in 0..16usize {
        block[k] = bytes.get(start + k).copied().unwrap_or(0);
    }
    block
}

// All sixteen differences are looked at, whatever the first ones are.
pub(crate) fn is_same_tag(first: &[u8; 16], second: &[u8; 16]) -> bool
    ensures { IsTrue result ↔ (first.now ≡ second.now) }
{
    let mut differences = 0u8;
    for i in 0..16usize {
        differences |= first[i] ^ second[i];
    }
    differences == 0
}
