//! The S-box without a table of 256 bytes: in a basis of GF(2^8) over GF(2^4) it takes a few look-ups in tables of sixteen
//! (M. Hamburg, "Accelerating AES with vector permute instructions", 2009). Each function goes over sixteen bytes at once.

ghost use Rattle.std.specs.Prelude.{◌≡◌, map};
ghost use Rattle.cx_aes.specs.Basis.{by_parts, into, last, left, once, right, twice};

use crate::{by_halves, high, looked_up, low, sum};
use std::simd::prelude::*;

// The change of basis, by the lower and the upper four bits.
const INTO_LOW: [u8; 16] = [
    0x00, 0x70, 0x2a, 0x5a, 0x98, 0xe8, 0xb2, 0xc2, 0x08, 0x78, 0x22, 0x52, 0x90, 0xe0, 0xba, 0xca,
];

const INTO_HIGH: [u8; 16] = [
    0x00, 0x4d, 0x7c, 0x31, 0x7d, 0x30, 0x01, 0x4c, 0x81, 0xcc, 0xfd, 0xb0, 0xfc, 0xb1, 0x80, 0xcd,
];

// In GF(2^4): the inverse, and the quotient of a constant. Of 0 they are 0x80, which stands for infinity.
const INVERSE: [u8; 16] = [
    0x80, 0x01, 0x08, 0x0d, 0x0f, 0x06, 0x05, 0x0e, 0x02, 0x0c, 0x0b, 0x0a, 0x09, 0x03, 0x07, 0x04,
];

const QUOTIENT: [u8; 16] = [
    0x80, 0x07, 0x0b, 0x0f, 0x06, 0x0a, 0x04, 0x01, 0x09, 0x08, 0x05, 0x02, 0x0c, 0x0e, 0x0d, 0x03,
];

// From the two parts of the inverse, in the basis: the S-box, and the S-box times two.
const ONCE_LEFT: [u8; 16] = [
    0x00, 0x3e, 0x50, 0xcb, 0x8f, 0xe1, 0x9b, 0xb1, 0x44, 0xf5, 0x2a, 0x14, 0x6e, 0x7a, 0xdf, 0xa5,
];

const ONCE_RIGHT: [u8; 16] = [
    0x00, 0x23, 0xe2, 0xfa, 0x15, 0xd4, 0x18, 0x36, 0xef, 0xd9, 0x2e, 0x0d, 0xc1, 0xcc, 0xf7, 0x3b,
];

const ONCE: u8 = 0x5b;

const TWICE_LEFT: [u8; 16] = [
    0x00, 0x24, 0x71, 0x0b, 0xc6, 0x93, 0x7a, 0xe2, 0xcd, 0x2f, 0x98, 0xbc, 0x55, 0xe9, 0xb7, 0x5e,
];

const TWICE_RIGHT: [u8; 16] = [
    0x00, 0x29, 0xe1, 0x0a, 0x40, 0x88, 0xeb, 0x69, 0x4a, 0x23, 0x82, 0xab, 0xc8, 0x63, 0xa1, 0xc2,
];

const TWICE: u8 = 0x4e;

// The S-box as a byte of the cipher again.
const LAST_LEFT: [u8; 16] = [
    0x00, 0xc7, 0xbd, 0x6f, 0x17, 0x6d, 0xd2, 0xd0, 0x78, 0xa8, 0x02, 0xc5, 0x7a, 0xbf, 0xaa, 0x15,
];

const LAST_RIGHT: [u8; 16] = [
    0x00, 0x6a, 0xbb, 0x5f, 0xa5, 0x74, 0xe4, 0xcf, 0xfa, 0x35, 0x2b, 0x41, 0xd1, 0x90, 0x1e, 0x8e,
];

const LAST: u8 = 0x63;

#[inline(always)]
pub(crate) fn into(bytes: u8x16) -> u8x16
    ensures { result ≡ map into bytes }
{
    by_halves(INTO_LOW, INTO_HIGH, bytes)
}

// The two parts. The compiler finds what calls have in common, and makes it once.
#[inline(always)]
fn left(state: u8x16) -> u8x16
    ensures { result ≡ map left state }
{
    let inner = sum(
        looked_up(INVERSE, high(state)),
        looked_up(QUOTIENT, low(state)),
    );
    sum(looked_up(INVERSE, inner), sum(low(state), high(state)))
}

#[inline(always)]
fn right(state: u8x16) -> u8x16
    ensures { result ≡ map right state }
{
    let difference = sum(low(state), high(state));
    let inner = sum(
        looked_up(INVERSE, difference),
        looked_up(QUOTIENT, low(state)),
    );
    sum(looked_up(INVERSE, inner), high(state))
}

// The sum of a table's entry at the left part of each byte and another's at the right one.
#[inline(always)]
pub(crate) fn by_parts(first: [u8; 16], second: [u8; 16], state: u8x16) -> u8x16
    ensures { result ≡ map (by_parts first second) state }
{
    sum(
        looked_up(first, left(state)),
        looked_up(second, right(state)),
    )
}

#[inline(always)]
pub(crate) fn once(state: u8x16) -> u8x16
    ensures { result ≡ map once state }
{
    sum(by_parts(ONCE_LEFT, ONCE_RIGHT, state), u8x16::splat(ONCE))
}

#[inline(always)]
pub(crate) fn twice(state: u8x16) -> u8x16
    ensures { result ≡ map twice state }
{
    sum(
        by_parts(TWICE_LEFT, TWICE_RIGHT, state),
        u8x16::splat(TWICE),
    )
}

#[inline(always)]
pub(crate) fn last(state: u8x16) -> u8x16
    ensures { result ≡ map last state }
{
    sum(by_parts(LAST_LEFT, LAST_RIGHT, state), u8x16::splat(LAST))
}
