//! The key expansion (FIPS 197, 5.2), and the round keys in the bases of the rounds.

ghost use Rattle.std.specs.Prelude.{◌≡◌, ℕ, List, map};
ghost use Rattle.std.specs.List.{range_with_len};
ghost use Rattle.cx_aes.specs.Basis.{into};
ghost use Rattle.cx_aes.specs.Cipher.{add, next_key, round_constant, round_key, turned_word, word};
ghost use Rattle.cx_aes.specs.Inverse.{inverse_mix_columns};
ghost use Rattle.cx_aes.specs.InverseBasis.{back};
ghost use Rattle.cx_aes.specs.Schedule.{AreBackward, AreForward};

use crate::basis::into;
use crate::cipher_rounds::sub_bytes;
use crate::field::doubled;
use crate::inverse_basis::back;
use crate::inverse_steps::inverse_mix_columns;
use std::simd::prelude::*;

// The round keys, from the key itself on.
pub(crate) fn round_keys(key: &[u8; 16]) -> [[u8; 16]; 11]
    ensures { result ≡ map (round_key key.now) (range_with_len 0 11) }
{
    let mut keys = [[0u8; 16]; 11];
    keys[0] = *key;
    let mut constant = 1u8;
    for made in 0..10usize {
        keys[made + 1] = next_key(&keys[made], constant);
        constant = doubled(constant);
    }
    keys
}

// For the rounds: in the basis, but for the last.
pub(crate) fn forward_keys(keys: &[[u8; 16]; 11]) -> [[u8; 16]; 11]
    ensures { (k : List ℕ) → keys.now ≡ map (round_key k) (range_with_len 0 11) → AreForward k result }
{
    let mut forward = *keys;
    for n in 0..10usize {
        forward[n] = into(u8x16::from_array(keys[n])).to_array();
    }
    forward
}

// For the inverse rounds: in the second basis, but for the first, and unmixed where a round unmixes.
pub(crate) fn backward_keys(keys: &[[u8; 16]; 11]) -> [[u8; 16]; 11]
    ensures { (k : List ℕ) → keys.now ≡ map (round_key k) (range_with_len 0 11) → AreBackward k result }
{
    let mut backward = *keys;
    for n in 1..10usize {
        backward[n] = back(u8x16::from_array(inverse_mix_columns(&keys[n]))).to_array();
    }
    backward[10] = back(u8x16::from_array(keys[10])).to_array();
    backward
}

fn add_word(a: &[u8; 4], b: &[u8; 4]) -> [u8; 4]
    ensures { result ≡ add a.now b.now }
{
    [a[0] ^ b[0], a[1] ^ b[1], a[2] ^ b[2], a[3] ^ b[3]]
}

// Of the last word of a key.
fn turned_word(k: &[u8; 16], constant: u8) -> [u8; 4]
    ensures { (n : ℕ) → constant ≡ round_constant n → result ≡ turned_word (word k.now 3) n }
{
    let s = sub_bytes(k);
    [s[13] ^ constant, s[14], s[15], s[12]]
}

fn next_key(k: &[u8; 16], constant: u8) -> [u8; 16]
    ensures { (n : ℕ) → constant ≡ round_constant n → result ≡ next_key k.now n }
{
    let turned = turned_word(k, constant);
    let a = add_word(&[k[0], k[1], k[2], k[3]], &turned);
    let b = add_word(&[k[4], k[5], k[6], k[7]], &a);
    let c = add_word(&[k[8], k[9], k[10], k[11]], &b);
    let d = add_word(&[k[12], k[13], k[14], k[15]], &c);
    [
        a[0], a[1], a[2], a[3], b[0], b[1], b[2], b[3], c[0], c[1], c[2], c[3], d[0], d[1], d[2],
        d[3],
    ]
}
