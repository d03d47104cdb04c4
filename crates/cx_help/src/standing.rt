//! Where in a keyring something stands: what a line repeats, and what was meant as the key of a section.

ghost use Rattle.std.specs.Prelude.{◌≡◌, IfOk};
ghost use Rattle.cx_words.specs.Cutting.{lines_of};
ghost use Rattle.cx_help.specs.keyring.Standing.{is_gap, key_like_from, label_of, or_found, stood_from};

use crate::settings::{is_blank, opens_section, stands_for_key};
use cx_words::first_line;
use std::alloc::{AllocError, Global};

/// What a line sets: its bytes up to an equals sign, without blanks and CRs.
pub(crate) fn label_of(alloc: Global, line: &[u8]) -> Result<Vec<u8>, AllocError>
    ensures { IfOk result (λ label. label.items ≡ label_of line.now) }
{
    let mut label = Vec::new(alloc);
    let mut rest = line;
    while let [b, after @ ..] = rest {
        if *b == b'=' {
            return Ok(label);
        }
        if !is_gap(*b) {
            label.push(*b)?;
        }
        rest = after;
    }
    Ok(label)
}

fn is_gap(b: u8) -> bool
    ensures { result ≡ is_gap b }
{
    is_blank(b) || b == b'\r'
}

/// The number of the last line before the line of this number that sets what the label says, or 0.
pub(crate) fn stood_before(
    alloc: Global,
    bytes: &[u8],
    stop: u64,
    label: &[u8],
) -> Result<u64, AllocError>
    ensures { IfOk result (λ found. found ≡ stood_from label.now stop 1 0 (lines_of bytes.now)) }
{
    let mut number: u64 = 1;
    let mut found: u64 = 0;
    let mut rest = bytes;
    'lines: while let Some((line, after)) = first_line(rest) {
        if stop <= number {
            return Ok(found);
        }
        found = or_found(alloc, label, number, found, line)?;
        number += 1;
        rest = after;
    }
    Ok(found)
}

fn or_found(
    alloc: Global,
    label: &[u8],
    number: u64,
    found: u64,
    line: &[u8],
) -> Result<u64, AllocError>
    ensures { IfOk result (λ now. now ≡ or_found label.now number found line.now) }
{
    let set = label_of(alloc, line)?;
    if set.as_slice() == label {
        Ok(number)
    } else {
        Ok(found)
    }
}

/// The number of the first line behind the line of this number that is meant for a key, before another section begins.
pub(crate) fn key_like_behind(bytes: &[u8], at: u64) -> Option<u64>
    ensures { result ≡ key_like_from at 1 (lines_of bytes.now) }
{
    let mut number: u64 = 1;
    let mut rest = bytes;
    'lines: while let Some((line, after)) = first_line(rest) {
        if number > at {
            if opens_section(line) {
                return None;
            }
            if stands_for_key(line) {
                return Some(number);
            }
        }
        number += 1;
        rest = after;
    }
    None
}
