//! Why bytes are no journal.

use crate::WrongWord;
use cx_words::Shown;
use std::alloc::AllocError;

/// The first wrong word of a line, and what stands there.
#[derive(Clone, Copy, Debug, PartialEq, Eq)]
pub struct WrongLine {
    pub wrong: WrongWord,
    /// The word, or the last one of the line, as it is shown.
    pub shown: Shown,
}

/// Why words are no line of a journal.
#[derive(Drop)]
pub enum LineRefusal {
    Wrong(WrongLine),
    OutOfMemory,
}

impl From<AllocError> for LineRefusal {
    ghost use Rattle.std.specs.Prelude.{◌≡◌};
    ghost use Rattle.cx_audit_text.specs.declared.refusals.LineRefusal.TheVariants.{OutOfMemory};

    ghost from_gives = { λ _ e. e ≡ OutOfMemory };

    fn from(_: AllocError) -> LineRefusal {
        LineRefusal::OutOfMemory
    }
}

/// Why bytes are no journal.
#[derive(Drop)]
pub enum JournalRefusal {
    /// The line of this number, from 1, is the first that is no line of a journal.
    BadLine(u64, WrongLine),
    OutOfMemory,
}

impl From<AllocError> for JournalRefusal {
    ghost use Rattle.std.specs.Prelude.{◌≡◌};
    ghost use Rattle.cx_audit_text.specs.declared.refusals.JournalRefusal.TheVariants.{OutOfMemory};

    ghost from_gives = { λ _ e. e ≡ OutOfMemory };

    fn from(_: AllocError) -> JournalRefusal {
        JournalRefusal::OutOfMemory
    }
}
