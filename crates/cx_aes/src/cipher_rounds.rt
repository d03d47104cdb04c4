//! The rounds (FIPS 197, 5.1) on a state of sixteen bytes in the basis of the tables.

ghost use Rattle.std.specs.Prelude.{◌≡◌, List, ℕ, map};
ghost use Rattle.cx_aes.specs.Basis.{into};
ghost use Rattle.cx_aes.specs.Cipher.{IsBlock, add, mix_columns, shift_rows, sub_bytes};

use crate::basis::{into, last, once, twice};
use std::simd::prelude::*;

/// Each byte through the S-box (FIPS 197, 5.1.1).
pub(crate) fn sub_bytes(bytes: &[u8; 16]) -> [u8; 16]
    ensures { result ≡ sub_bytes bytes.now }
{
    last(into(u8x16::from_array(*bytes))).to_array()
}

// A block and the first key, in the basis.
#[inline(always)]
pub(crate) fn first_sum(block: &[u8; 16], key: u8x16) -> u8x16
    ensures sum { (k : List ℕ) → IsBlock k → key ≡ map into k → result ≡ map into (add block.now k) }
    ensures block { IsBlock block.now }
{
    into(u8x16::from_array(*block)) ^ key
}

// One round, with the key in the basis. The rows are shifted by the swizzles: at each place stands twice the byte of its own, three
// times the next one of its column, and the other two.
#[inline(always)]
pub(crate) fn round(state: u8x16, key: u8x16) -> u8x16
    ensures { (s k : List ℕ) → IsBlock s → IsBlock k → state ≡ map into s → key ≡ map into k
        → result ≡ map into (add (mix_columns (shift_rows (sub_bytes s))) k) }
{
    let single = once(state);
    let double = twice(state);
    let triple = double ^ single;
    let own = double.swizzle([0, 5, 10, 15, 4, 9, 14, 3, 8, 13, 2, 7, 12, 1, 6, 11]);
    let next = triple.swizzle([5, 10, 15, 0, 9, 14, 3, 4, 13, 2, 7, 8, 1, 6, 11, 12]);
    let third = single.swizzle([10, 15, 0, 5, 14, 3, 4, 9, 2, 7, 8, 13, 6, 11, 12, 1]);
    let fourth = single.swizzle([15, 0, 5, 10, 3, 4, 9, 14, 7, 8, 13, 2, 11, 12, 1, 6]);
    (own ^ next) ^ (third ^ fourth) ^ key
}

// The tenth round, which mixes no columns and leaves the basis.
#[inline(always)]
pub(crate) fn last_round(state: u8x16, key: u8x16) -> u8x16
    ensures { (s k : List ℕ) → IsBlock s → IsBlock k → state ≡ map into s → key ≡ k → result ≡ add (shift_rows (sub_bytes s)) k }
{
    last(state).swizzle([0, 5, 10, 15, 4, 9, 14, 3, 8, 13, 2, 7, 12, 1, 6, 11]) ^ key
}
