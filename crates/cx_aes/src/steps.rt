//! Steps on a state of 16 bytes, column by column.

ghost use Rattle.std.specs.Prelude.{◌≡◌};
ghost use Rattle.cx_aes.specs.Cipher.{add};
ghost use Rattle.cx_aes.specs.Columns.{turned_columns};

/// The sum of two blocks, byte by byte: the exclusive or, as a round adds its key (FIPS 197, 5.1.4) and a mode of operation
/// its chain (SP 800-38A, 6.2).
pub fn add(first: &[u8; 16], second: &[u8; 16]) -> [u8; 16]
    ensures { result ≡ add first.now second.now }
{
    let mut sum = [0u8; 16];
    for i in 0..16usize {
        sum[i] = first[i] ^ second[i];
    }
    sum
}

// Each column turned by one place: at the place of each byte stands the byte below it.
pub(crate) fn turned(s: &[u8; 16]) -> [u8; 16]
    ensures { result ≡ turned_columns s.now }
{
    [
        s[1], s[2], s[3], s[0], s[5], s[6], s[7], s[4], s[9], s[10], s[11], s[8], s[13], s[14],
        s[15], s[12],
    ]
}
