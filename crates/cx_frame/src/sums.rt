//! Check sums.

ghost use Rattle.std.specs.Prelude.{◌≡◌};
ghost use Rattle.cx_frame.specs.Preambles.{is_four_bytes};
ghost use Rattle.cx_frame.specs.Frames.{check_sum};

use cx_digest::crc32c;

/// The seed of a segment's check sum.
const SEED: u32 = 0xffff_ffff;

// Whether these bytes are this number.
#[tactic(auto, unfolding(crate::specs::Preambles::is_four_bytes))]
pub(crate) fn is_four_bytes(bytes: &[u8], number: u32) -> bool
    ensures { result ≡ is_four_bytes bytes.now number }
{
    bytes == &number.to_le_bytes()[..]
}

#[tactic(auto, unfolding(crate::specs::Frames::check_sum))]
pub(crate) fn check_sum(bytes: &[u8]) -> u32
    ensures { result ≡ check_sum bytes.now }
{
    crc32c(SEED, bytes)
}
