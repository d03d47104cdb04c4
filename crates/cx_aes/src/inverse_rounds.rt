//! The rounds of the inverse cipher (FIPS 197, 5.3) on a state of sixteen bytes in the second basis. The key is added last in each: it has
//! gone through InvMixColumns before (5.3.5).

ghost use Rattle.std.specs.Prelude.{◌≡◌, List, ℕ, map};
ghost use Rattle.cx_aes.specs.InverseBasis.{back};
ghost use Rattle.cx_aes.specs.Cipher.{IsBlock, add};
ghost use Rattle.cx_aes.specs.Inverse.{inverse_mix_columns, inverse_shift_rows, inverse_sub_bytes};

use crate::inverse_basis::{eleven, fourteen, linear, nine, thirteen, undone};
use std::simd::prelude::*;

// A block and the last key, in the second basis.
#[inline(always)]
pub(crate) fn last_sum(block: &[u8; 16], key: u8x16) -> u8x16
    ensures sum { (k : List ℕ) → IsBlock k → key ≡ map back k → result ≡ map back (add block.now k) }
    ensures block { IsBlock block.now }
{
    linear(u8x16::from_array(*block)) ^ key
}

// One round, with the key in the second basis.
#[inline(always)]
pub(crate) fn inverse_round(state: u8x16, key: u8x16) -> u8x16
    ensures { (s k : List ℕ) → IsBlock s → IsBlock k → state ≡ map back s → key ≡ map back k
        → result ≡ map back (add (inverse_mix_columns (inverse_sub_bytes (inverse_shift_rows s))) k) }
{
    let own = fourteen(state).swizzle([0, 13, 10, 7, 4, 1, 14, 11, 8, 5, 2, 15, 12, 9, 6, 3]);
    let next = eleven(state).swizzle([13, 10, 7, 0, 1, 14, 11, 4, 5, 2, 15, 8, 9, 6, 3, 12]);
    let third = thirteen(state).swizzle([10, 7, 0, 13, 14, 11, 4, 1, 2, 15, 8, 5, 6, 3, 12, 9]);
    let fourth = nine(state).swizzle([7, 0, 13, 10, 11, 4, 1, 14, 15, 8, 5, 2, 3, 12, 9, 6]);
    (own ^ next) ^ (third ^ fourth) ^ key
}

// The round that unmixes no columns and leaves the basis.
#[inline(always)]
pub(crate) fn last_inverse_round(state: u8x16, key: u8x16) -> u8x16
    ensures { (s k : List ℕ) → IsBlock s → IsBlock k → state ≡ map back s → key ≡ k
        → result ≡ add (inverse_sub_bytes (inverse_shift_rows s)) k }
{
    undone(state).swizzle([0, 13, 10, 7, 4, 1, 14, 11, 8, 5, 2, 15, 12, 9, 6, 3]) ^ key
}
