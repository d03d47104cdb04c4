//! Bytes as elements of the field GF(2^8): the S-box and its inverse, and products by the constants
//! of MixColumns and InvMixColumns.

ghost use Rattle.std.specs.Prelude.{◌≡◌, ℕ, ◌<◌};
ghost use Rattle.cx_aes.specs.Field.{inverse_sbox, sbox, times, xtimes};

use crate::tables::{INVERSE_SBOX, SBOX};

/// The S-box of FIPS 197, 5.1.1.
pub fn sbox(x: u8) -> u8
    ensures value { result ≡ sbox x }
    ensures undone { inverse_sbox result ≡ x }
{
    SBOX[x as usize]
}

/// The inverse S-box of FIPS 197, 5.3.2: the byte that the S-box takes to `x`.
pub fn inv_sbox(x: u8) -> u8
    ensures value { result ≡ inverse_sbox x }
    ensures undone { sbox result ≡ x }
{
    INVERSE_SBOX[x as usize]
}

pub(crate) fn doubled(a: u8) -> u8
    ensures { result ≡ xtimes a }
{
    (a << 1) ^ 0x1b * (a >> 7)
}

pub(crate) fn nine_times(a: u8) -> u8
    ensures { result ≡ times a 9 }
{
    doubled(doubled(doubled(a))) ^ a
}

pub(crate) fn eleven_times(a: u8) -> u8
    ensures { result ≡ times a 11 }
{
    let two = doubled(a);
    doubled(doubled(two)) ^ two ^ a
}

pub(crate) fn thirteen_times(a: u8) -> u8
    ensures { result ≡ times a 13 }
{
    let four = doubled(doubled(a));
    doubled(four) ^ four ^ a
}

pub(crate) fn fourteen_times(a: u8) -> u8
    ensures { result ≡ times a 14 }
{
    let two = doubled(a);
    let four = doubled(two);
    doubled(four) ^ four ^ two
}
