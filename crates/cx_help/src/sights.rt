//! What a user is told of a line that is none, as it is seen in the file.

ghost use Rattle.std.specs.Prelude.{◌≡◌, IfOk};
ghost use Rattle.cx_help.specs.line.Sights.{line_at, sight_of};
ghost use Rattle.cx_words.specs.Cutting.{lines_of};

use crate::misfits::told_of;
use crate::remarks::{Remark, groups, remark_of};
use cx_lines::BadWord;
use cx_words::{first_line, words};
use std::alloc::{AllocError, Global};

/// What a user is told of a line that is none.
#[derive(Clone, Copy, Debug, PartialEq, Eq)]
pub struct LineSight {
    /// Its first fault, or the first word that doesn't fit, with what stands there.
    pub bad: BadWord,
    /// What the line shows as a whole.
    pub remark: Option<Remark>,
}

/// What is told of a line with this first fault.
pub fn sight_of(alloc: Global, line: &[u8], bad: &BadWord) -> Result<LineSight, AllocError>
    ensures { IfOk result (λ sight. sight ≡ sight_of line.now bad.now) }
{
    let words = words(alloc, groups(line), line)?;
    let told = told_of(alloc, &words, bad)?;
    Ok(LineSight {
        bad: told,
        remark: remark_of(line, &words),
    })
}

/// The line of this number, from 1, of a file; no bytes where there is none.
pub fn line_at(bytes: &[u8], number: u64) -> &[u8]
    ensures { result.now ≡ line_at (lines_of bytes.now) number }
{
    let mut left = number;
    let mut rest = bytes;
    'lines: while let Some((line, after)) = first_line(rest) {
        if left <= 1 {
            return line;
        }
        left -= 1;
        rest = after;
    }
    &[]
}
