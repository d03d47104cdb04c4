//! Reading and checking the preamble of a frame, once for plain and secure frames.

ghost use Rattle.std.specs.Prelude.{◌≡◌, Ok, IfOk, ◌==◌, sum};
ghost use Rattle.std.specs.List.{list_all};
ghost use Rattle.cx_frame.specs.Preambles.{IsAllowed, preamble_text, preamble_at, fields_of, is_shaped, has_sum, ends_in_zeros};
ghost use Rattle.cx_frame.specs.declared.preamble.Preamble.{Preamble};

use crate::preamble::Preamble;
use crate::refusals::FrameRefusal;
use crate::sums::is_four_bytes;
use cx_digest::crc32c;

/// The bytes that the segments of a plain frame have together, at most.
pub const MAX_PLAIN: u64 = 65_536;

/// The bytes of a preamble in front of its check sum.
const FRONT: usize = 28;

/// Reads the preamble of a plain frame. It wants no memory.
pub fn read_preamble(bytes: &[u8; 32]) -> Result<Preamble, FrameRefusal>
    // What is read is spelled so.
    ensures found { IfOk result (λ p. IsAllowed 65536 p × (bytes.now ≡ preamble_text p)) }
    // What is spelled so is read.
    ensures only { (p : Preamble) → IsAllowed 65536 p → bytes.now ≡ preamble_text p → result ≡ Ok p }
    // It is refused for the first check that fails.
    ensures exact { result ≡ preamble_at 65536 bytes.now }
{
    read_preamble_within(bytes, MAX_PLAIN)
}

/// Reads the preamble of a frame whose segments have at most `limit` bytes together. It wants no memory.
pub fn read_preamble_within(bytes: &[u8; 32], limit: u64) -> Result<Preamble, FrameRefusal>
    ensures found { IfOk result (λ p. IsAllowed limit p × (bytes.now ≡ preamble_text p)) }
    ensures only { (p : Preamble) → IsAllowed limit p → bytes.now ≡ preamble_text p → result ≡ Ok p }
    ensures exact { result ≡ preamble_at limit bytes.now }
{
    checked(bytes, limit)
}

#[tactic(auto, unfolding(crate::specs::Preambles::preamble_at))]
fn checked(bytes: &[u8; 32], limit: u64) -> Result<Preamble, FrameRefusal>
    ensures { result ≡ preamble_at limit bytes.now }
{
    if !has_sum(bytes) {
        return Err(FrameRefusal::BadCrc);
    }
    let head = fields_of(bytes);
    if !(is_shaped(&head) && ends_in_zeros(bytes)) {
        return Err(FrameRefusal::BadShape);
    }
    let total = total(&head);
    if total > limit {
        return Err(FrameRefusal::TooLong(total));
    }
    Ok(head)
}

#[tactic(auto, unfolding(crate::specs::Preambles::has_sum))]
fn has_sum(bytes: &[u8; 32]) -> bool
    ensures { result ≡ has_sum bytes.now }
{
    let (front, stored) = bytes.split_at(FRONT);
    is_four_bytes(stored, crc32c(0, front))
}

#[tactic(auto, unfolding(crate::specs::Preambles::fields_of))]
fn fields_of(bytes: &[u8; 32]) -> Preamble
    ensures { result ≡ fields_of bytes.now }
{
    let b = bytes;
    Preamble {
        tag: b[0],
        count: b[1],
        lengths: [
            u32::from_le_bytes([b[2], b[3], b[4], b[5]]),
            u32::from_le_bytes([b[8], b[9], b[10], b[11]]),
            u32::from_le_bytes([b[14], b[15], b[16], b[17]]),
            u32::from_le_bytes([b[20], b[21], b[22], b[23]]),
        ],
        aligns: [
            u16::from_le_bytes([b[6], b[7]]),
            u16::from_le_bytes([b[12], b[13]]),
            u16::from_le_bytes([b[18], b[19]]),
            u16::from_le_bytes([b[24], b[25]]),
        ],
    }
}

#[tactic(auto, unfolding(crate::specs::Preambles::is_shaped))]
fn is_shaped(head: &Preamble) -> bool
    ensures { result ≡ is_shaped head.now }
{
    let count = head.count as usize;
    1 <= head.tag
        && (head.tag <= 20
            && (1 <= head.count
                && (head.count <= 4
                    && (are_no_lengths(&head.lengths[count..])
                        && are_no_aligns(&head.aligns[count..])))))
}

fn are_no_lengths(lengths: &[u32]) -> bool
    ensures { result ≡ list_all (λ n. n == 0) lengths.now }
{
    lengths.iter().all(|n| *n == 0)
}

fn are_no_aligns(aligns: &[u16]) -> bool
    ensures { result ≡ list_all (λ a. a == 0) aligns.now }
{
    aligns.iter().all(|a| *a == 0)
}

#[tactic(auto, unfolding(crate::specs::Preambles::ends_in_zeros))]
fn ends_in_zeros(bytes: &[u8; 32]) -> bool
    ensures { result ≡ ends_in_zeros bytes.now }
{
    bytes[26] == 0 && bytes[27] == 0
}

// The bytes that the segments have together.
fn total(head: &Preamble) -> u64
    ensures { result ≡ sum head.now.lengths }
{
    let [a, b, c, d] = head.lengths;
    a as u64 + b as u64 + c as u64 + d as u64
}
