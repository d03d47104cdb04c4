//! Four blocks at a time, by the powers of the block.

ghost use Rattle.std.specs.Prelude.{◌≡◌, ◌<◌, bit_xor, map};
ghost use lib.Lanes.{zip2};
ghost use Rattle.cx_gcm.specs.Blocks.{number, stepped};
ghost use Rattle.cx_gcm.specs.Key.{block_of, column_of};
ghost use Rattle.cx_gcm.specs.Powers.{ArePowers};

use crate::multiples::Multiples;
use crate::polynomials::{next_lower, next_upper, reduced};
use cx_aes::are_sixteen;
use std::simd::prelude::*;

/// The multiples of a block and of its square, its cube and its fourth power.
#[derive(Clone, Copy)]
pub struct Powers {
    first: Multiples,
    second: Multiples,
    third: Multiples,
    fourth: Multiples,
    ghost powers: { ArePowers first second third fourth },
}

impl Powers {
    ghost use Rattle.cx_gcm.specs.Base.{base_of};

    /// The tables of a block.
    pub fn new(h: &[u8; 16]) -> Powers
        ensures { base_of result ≡ number h.now }
    {
        let first = Multiples::new(h);
        let square = first.times(h);
        let second = Multiples::new(&square);
        let cube = first.times(&square);
        let third = Multiples::new(&cube);
        let fourth = Multiples::new(&first.times(&cube));
        Powers {
            first,
            second,
            third,
            fourth,
        }
    }

    /// GHASH (SP 800-38D, 6.4) over one block more.
    #[inline(always)]
    pub fn one_more(&self, sum: u8x16, block: u8x16) -> u8x16
        ensures { number result ≡ stepped (base_of self.now) (number sum) (number block) }
    {
        self.first.product(sum ^ block)
    }

    /// GHASH over four blocks more.
    #[inline(always)]
    pub fn four_more(&self, sum: u8x16, a: u8x16, b: u8x16, c: u8x16, d: u8x16) -> u8x16
        ensures { number result ≡ stepped (base_of self.now) (stepped (base_of self.now) (stepped (base_of self.now)
            (stepped (base_of self.now) (number sum) (number a)) (number b)) (number c)) (number d) }
    {
        let a = sum ^ a;
        let mut lower = self.column(15, a, b, c, d);
        let mut upper = u8x16::splat(0);
        for n in 0..15usize {
            upper = next_upper(lower, upper);
            lower = next_lower(lower, self.column(14 - n, a, b, c, d));
        }
        let sum = reduced(lower, upper);
        are_sixteen(sum);
        sum
    }

    #[inline(always)]
    fn column(&self, place: usize, a: u8x16, b: u8x16, c: u8x16, d: u8x16) -> u8x16
        requires { place < 16 }
        ensures { result ≡ zip2 bit_xor (zip2 bit_xor (map (column_of self.now.fourth place) a) (map (column_of self.now.third place) b))
            (zip2 bit_xor (map (column_of self.now.second place) c) (map (column_of self.now.first place) d)) }
    {
        (self.fourth.column(place, a) ^ self.third.column(place, b))
            ^ (self.second.column(place, c) ^ self.first.column(place, d))
    }
}

// Values of `T` may be sent to another thread, and shared between threads.
fn is_sendable<T: Send + Sync>() {}

// The tables may.
fn sends_tables() {
    is_sendable::<Multiples>();
    is_sendable::<Powers>();
}
