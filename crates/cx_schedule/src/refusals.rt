//! The refusals of a schedule.

use cx_lines::BadWord;
use std::alloc::AllocError;
use thiserror::Error;

/// Why bytes are no schedule.
#[derive(Clone, Copy, Debug, PartialEq, Eq, Error)]
pub enum ScheduleRefusal {
    /// It has more bytes or more lines than a schedule may have.
    #[error("a schedule has at most 1048576 bytes and 20000 lines")]
    TooLong,
    /// This line, from 1, is the first outside of the grammar, and this is the first of its faults with its word.
    #[error("line {line} is outside of the grammar")]
    BadLine { line: u32, bad: BadWord },
    /// Memory was wanting.
    #[error("out of memory")]
    OutOfMemory,
}

impl From<AllocError> for ScheduleRefusal {
    ghost use Rattle.std.specs.Prelude.{◌≡◌};
    ghost use Rattle.cx_schedule.specs.declared.refusals.ScheduleRefusal.TheVariants.{OutOfMemory};

    ghost from_gives = { λ _ refusal. refusal ≡ OutOfMemory };

    fn from(_error: AllocError) -> ScheduleRefusal {
        ScheduleRefusal::OutOfMemory
    }
}
