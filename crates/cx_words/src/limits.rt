//! The bounds of every text file that the program reads.

ghost use Rattle.std.specs.Prelude.{◌≡◌, ◌↔◌, length, IsTrue};
ghost use Rattle.cx_words.specs.Cutting.{lines_of, IsShort};

use crate::cut::first_line;

/// The most bytes of such a file.
pub const MOST_BYTES: usize = 1_048_576;

/// The most lines of such a file.
const MOST_LINES: usize = 20_000;

/// Whether a file is within these bounds.
pub fn is_short(bytes: &[u8]) -> bool
    ensures { IsTrue result ↔ IsShort bytes.now }
{
    bytes.len() <= MOST_BYTES && count_lines(bytes) <= MOST_LINES
}

fn count_lines(bytes: &[u8]) -> usize
    ensures { result ≡ length (lines_of bytes.now) }
{
    let mut count = 0;
    let mut rest = bytes;
    'lines: while let Some((_, after)) = first_line(rest) {
        count += 1;
        rest = after;
    }
    count
}
