//! Sums of products before they are reduced: 32 bytes in two vectors, each byte eight shifts behind the one before it.

ghost use Rattle.std.specs.Prelude.{◌≡◌, ◌∷◌, bit_xor, take, map, slice_index};
ghost use lib.Lanes.{zip2};
ghost use Rattle.cx_gcm.specs.Blocks.{shifted_by};
ghost use Rattle.cx_gcm.specs.Fronts.{across, carried, front};

use std::simd::prelude::*;

// The last sixteen bytes, when all go one place on.
#[inline(always)]
pub(crate) fn next_upper(lower: u8x16, upper: u8x16) -> u8x16
    ensures { result ≡ slice_index lower 15 ∷ take 15 upper }
{
    lower.shuffle(
        upper,
        [
            15, 16, 17, 18, 19, 20, 21, 22, 23, 24, 25, 26, 27, 28, 29, 30,
        ],
    )
}

// The first sixteen bytes, when all go one place on, and a column is added.
#[inline(always)]
pub(crate) fn next_lower(lower: u8x16, column: u8x16) -> u8x16
    ensures { result ≡ zip2 bit_xor (0 ∷ take 15 lower) column }
{
    one_on(lower) ^ column
}

#[inline(always)]
fn one_on(bytes: u8x16) -> u8x16
    ensures { result ≡ 0 ∷ take 15 bytes }
{
    u8x16::splat(0).shuffle(
        bytes,
        [
            0, 16, 17, 18, 19, 20, 21, 22, 23, 24, 25, 26, 27, 28, 29, 30,
        ],
    )
}

// What the bytes become when they are shifted out as a whole: in their own place, and one place on.
#[inline(always)]
fn across(bytes: u8x16) -> u8x16
    ensures { result ≡ map across bytes }
{
    (bytes ^ (bytes >> u8x16::splat(1))) ^ ((bytes >> u8x16::splat(2)) ^ (bytes >> u8x16::splat(7)))
}

#[inline(always)]
fn carried(bytes: u8x16) -> u8x16
    ensures { result ≡ map carried bytes }
{
    (bytes << u8x16::splat(7)) ^ ((bytes << u8x16::splat(6)) ^ (bytes << u8x16::splat(1)))
}

// The sum as sixteen bytes.
#[inline(always)]
pub(crate) fn reduced(lower: u8x16, upper: u8x16) -> u8x16
    requires { slice_index upper 15 ≡ 0 }
    ensures { front result ≡ bit_xor (front lower) (shifted_by (front upper) 128) }
{
    lower ^ (across(upper) ^ one_on(carried(upper)))
}
