//! Tables of sixteen bytes, read at all sixteen places of a vector at once by one instruction, so that
//! no address and no jump depends on a byte.
ghost use Rattle.std.specs.Prelude.{◌≡◌, length, map, bit_xor};
ghost use lib.Lanes.{zip2};
ghost use Rattle.cx_aes.specs.Lookup.{AreIndices, IsSixteen, by_halves, entry, high, low};

use std::simd::prelude::*;

/// The lower four bits of each byte.
#[inline(always)]
pub fn low(bytes: u8x16) -> u8x16
    ensures { result ≡ map low bytes }
{
    bytes & u8x16::splat(15)
}

/// The upper four bits of each byte.
#[inline(always)]
pub fn high(bytes: u8x16) -> u8x16
    ensures { result ≡ map high bytes }
{
    bytes >> u8x16::splat(4)
}

/// The exclusive or of each two bytes.
#[inline(always)]
pub fn sum(first: u8x16, second: u8x16) -> u8x16
    ensures { result ≡ zip2 bit_xor first second }
{
    first ^ second
}

/// The entry of the table at each index: 0 at an index of 128 or more.
#[inline(always)]
pub fn looked_up(table: [u8; 16], at: u8x16) -> u8x16
    requires { AreIndices at }
    ensures { result ≡ map (entry table) at }
{
    u8x16::from_array(table).swizzle_dyn(at)
}

/// The sum of a table's entry at the lower four bits of each byte and another's at the upper four.
#[inline(always)]
pub fn by_halves(lower: [u8; 16], upper: [u8; 16], bytes: u8x16) -> u8x16
    ensures { result ≡ map (by_halves lower upper) bytes }
{
    sum(looked_up(lower, low(bytes)), looked_up(upper, high(bytes)))
}

/// Nothing is done. A proof is told what a vector is, where it is the result of a call.
#[inline(always)]
pub fn are_sixteen(bytes: u8x16)
    ensures { IsSixteen bytes }
{}
