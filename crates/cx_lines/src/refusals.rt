//! Why a line isn't read.

use crate::sight::BadWord;
use std::alloc::AllocError;

/// Why a line isn't read.
#[derive(Clone, Copy, PartialEq, Eq)]
pub enum LineRefusal {
    /// It is outside of the grammar.
    Fault(BadWord),
    /// Memory was wanting.
    OutOfMemory,
}

impl From<AllocError> for LineRefusal {
    ghost use Rattle.std.specs.Prelude.{◌≡◌};
    ghost use Rattle.cx_lines.specs.declared.refusals.LineRefusal.TheVariants.{OutOfMemory};

    ghost from_gives = { λ _ refusal. refusal ≡ OutOfMemory };

    fn from(_error: AllocError) -> LineRefusal {
        LineRefusal::OutOfMemory
    }
}
