//! The refusals of the types that own bytes and text.

use std::alloc::AllocError;
use thiserror::Error;

/// Why bytes are no text.
#[derive(Debug, PartialEq, Eq, Drop, Error)]
pub enum TextRefusal {
    /// The byte at this place, from 0, is the first above 0x7f.
    #[error("the byte at place {0} is not ASCII")]
    NotAscii(usize),
    /// Memory was wanting.
    #[error("out of memory")]
    OutOfMemory,
}

impl From<AllocError> for TextRefusal {
    ghost use Rattle.std.specs.Prelude.{◌≡◌};
    ghost use Rattle.cx_base.specs.declared.refusals.TextRefusal.TheVariants.{OutOfMemory};

    ghost from_gives = { λ _ refusal. refusal ≡ OutOfMemory };

    fn from(_error: AllocError) -> TextRefusal {
        TextRefusal::OutOfMemory
    }
}
