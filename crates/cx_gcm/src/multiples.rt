//! Products of blocks (SP 800-38D, 6.3), sixteen bytes at once, by look-ups in tables of sixteen.

ghost use Rattle.std.specs.Prelude.{◌≡◌, ℕ, ◌<◌, List, map, bit_xor};
ghost use Rattle.std.specs.List.{range_with_len};
ghost use lib.Lanes.{zip2};
ghost use Rattle.cx_gcm.specs.Blocks.{number, product, shifted, spelled};
ghost use Rattle.cx_gcm.specs.Multiples.{IsTable, chosen_by, columns, sum_of};

use crate::blocks::{number, spelled};
use crate::polynomials::{next_lower, next_upper, reduced};
use cx_aes::{are_sixteen, by_halves};
use std::simd::prelude::*;

// R of the standard: 11100001 and 120 zeros.
const POLYNOMIAL: u128 = 0xe1000000000000000000000000000000;

/// The products of one block with the sixteen values of four bits, as the upper half of a byte and as the lower one. At place j stands
/// byte j of the sixteen products.
#[derive(Clone, Copy)]
pub struct Multiples {
    upper: [[u8; 16]; 16],
    lower: [[u8; 16]; 16],
    ghost products: { IsTable upper lower },
}

impl Multiples {
    ghost use Rattle.cx_gcm.specs.Key.{block_of, column_of};

    /// The tables of a block. The multiples by one bit are shifts of the block, and all others are sums of these.
    pub fn new(h: &[u8; 16]) -> Multiples
        ensures { block_of result ≡ number h.now }
    {
        let eight = number(h);
        let four = shifted(eight);
        let two = shifted(four);
        let one = shifted(two);
        let lower_eight = shifted(one);
        let lower_four = shifted(lower_eight);
        let lower_two = shifted(lower_four);
        let lower_one = shifted(lower_two);
        Multiples {
            upper: columns(eight, four, two, one),
            lower: columns(lower_eight, lower_four, lower_two, lower_one),
        }
    }

    /// The product of a block with the tables' block.
    pub fn times(&self, x: &[u8; 16]) -> [u8; 16]
        ensures { result ≡ spelled (product (number x.now) (block_of self.now)) }
    {
        let product = self.product(u8x16::from_array(*x));
        are_sixteen(product);
        product.to_array()
    }

    /// The product of a block with the tables' block, in a vector.
    #[inline(always)]
    pub fn product(&self, x: u8x16) -> u8x16
        ensures { number result ≡ product (number x) (block_of self.now) }
    {
        let mut lower = self.column(15, x);
        let mut upper = u8x16::splat(0);
        for n in 0..15usize {
            upper = next_upper(lower, upper);
            lower = next_lower(lower, self.column(14 - n, x));
        }
        let product = reduced(lower, upper);
        are_sixteen(product);
        product
    }

    // Byte `place` of the product of each byte of `x` alone.
    #[inline(always)]
    pub(crate) fn column(&self, place: usize, x: u8x16) -> u8x16
        requires { place < 16 }
        ensures { result ≡ map (column_of self.now place) x }
    {
        by_halves(self.lower[place], self.upper[place], x)
    }
}

// No jump depends on a bit of the block.
fn shifted(v: u128) -> u128
    ensures { result ≡ shifted v }
{
    (v >> 1) ^ POLYNOMIAL * (v % 2)
}

// Place by place the bytes of the sixteen sums of these four blocks.
fn columns(eight: u128, four: u128, two: u128, one: u128) -> [[u8; 16]; 16]
    ensures { result ≡ columns (λ bits. sum_of bits eight four two one) }
{
    let eight = spelled(eight);
    let four = spelled(four);
    let two = spelled(two);
    let one = spelled(one);
    let mut columns = [[0u8; 16]; 16];
    for place in 0..16usize {
        columns[place] = sums(eight[place], four[place], two[place], one[place]);
    }
    columns
}

// The sixteen sums of these four bytes.
#[inline(always)]
fn sums(eight: u8, four: u8, two: u8, one: u8) -> [u8; 16]
    ensures { result ≡ map (λ bits. sum_of bits eight four two one) (range_with_len 0 16) }
{
    let mut sums = [0u8; 16];
    for bits in 0..16usize {
        sums[bits] = sum_of(bits, eight, four, two, one);
    }
    sums
}

// The sum of those that the four bits choose.
#[inline(always)]
fn sum_of(bits: usize, eight: u8, four: u8, two: u8, one: u8) -> u8
    ensures { result ≡ sum_of bits eight four two one }
{
    (chosen(bits, 3, eight) ^ chosen(bits, 2, four)) ^ (chosen(bits, 1, two) ^ chosen(bits, 0, one))
}

#[inline(always)]
fn chosen(bits: usize, place: u32, byte: u8) -> u8
    requires { place < 4 }
    ensures { result ≡ chosen_by bits place byte }
{
    if (bits >> place) % 2 == 1 { byte } else { 0 }
}
