//! The check sum of frames, CRC-32C.
ghost use Rattle.std.specs.Prelude.{◌≡◌, ◌<◌, ◌+◌};
ghost use Rattle.cx_digest.specs.Checksum.{after_bits, low_bits, crc32c, GoesOn};
ghost use Rattle.cx_digest.specs.Moved.{moved};

use crate::tables::TABLES;

/// The CRC-32C of `bytes` (RFC 3720, section 12.1, in reflected order), from the register's state
/// `seed`. Nothing is inverted: a caller who wants the published sum begins with `0xffffffff` and
/// inverts all bits of the result.
pub fn crc32c(seed: u32, bytes: &[u8]) -> u32
    ensures { result ≡ crc32c seed bytes.now }
{
    let mut state = seed;
    let (blocks, rest) = bytes.as_chunks::<8>();
    for block in blocks {
        state = after_eight(state, block);
    }
    for byte in rest {
        state = after_byte(state, *byte);
    }
    state // nothing is inverted
}

// The register after eight bytes. Each goes through the table of what stands behind it, the first four with the register's own.
#[inline(always)]
fn after_eight(state: u32, block: &[u8; 8]) -> u32
    ensures { result ≡ crc32c state block.now }
{
    let first = moved(7, (state % 256) as u8 ^ block[0])
        ^ moved(6, ((state >> 8) % 256) as u8 ^ block[1]);
    let second = moved(5, ((state >> 16) % 256) as u8 ^ block[2])
        ^ moved(4, ((state >> 24) % 256) as u8 ^ block[3]);
    (first ^ second)
        ^ ((moved(3, block[4]) ^ moved(2, block[5])) ^ (moved(1, block[6]) ^ moved(0, block[7])))
}

// The register after the eight bits of `byte`.
#[inline(always)]
fn after_byte(state: u32, byte: u8) -> u32
    ensures { result ≡ after_bits state (low_bits 8 byte) }
{
    (state >> 8) ^ moved(0, (state % 256) as u8 ^ byte)
}

// What a byte in a register of zeros becomes, with so many bytes of zeros behind it.
#[inline(always)]
fn moved(behind: usize, byte: u8) -> u32
    requires { behind < 8 }
    ensures { result ≡ moved (behind + 1) byte }
{
    TABLES[behind][byte as usize]
}

/// A sum may be taken in parts: that of a concatenation is that of the second part, from the sum of
/// the first on.
pub fn crc32c_goes_on()
    ensures { GoesOn }
{}
