//! InvMixColumns (FIPS 197, 5.3.3), which the round keys go through.

ghost use Rattle.std.specs.Prelude.{◌≡◌};
ghost use Rattle.cx_aes.specs.Cipher.{row};
ghost use Rattle.cx_aes.specs.Inverse.{inverse_mix_columns};

use crate::field::{eleven_times, fourteen_times, nine_times, thirteen_times};
use crate::steps::turned;

// The first row of the matrix times a column. The other rows are this one turned, so that the matrix
// times all columns is this function at each place, of the column turned to that place.
fn unmixed(a: u8, b: u8, c: u8, d: u8) -> u8
    ensures { result ≡ row 14 11 13 9 a b c d }
{
    (fourteen_times(a) ^ eleven_times(b)) ^ (thirteen_times(c) ^ nine_times(d))
}

pub(crate) fn inverse_mix_columns(s: &[u8; 16]) -> [u8; 16]
    ensures { result ≡ inverse_mix_columns s.now }
{
    let second = turned(s);
    let third = turned(&second);
    let fourth = turned(&third);
    let mut columns = [0u8; 16];
    for i in 0..16usize {
        columns[i] = unmixed(s[i], second[i], third[i], fourth[i]);
    }
    columns
}
