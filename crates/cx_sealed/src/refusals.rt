//! Why sealed bytes are no record.

use std::alloc::AllocError;
use thiserror::Error;

/// Why sealed bytes are no record.
#[derive(Debug, PartialEq, Eq, Drop, Error)]
pub enum SealedRefusal {
    /// They open to no content under this key.
    #[error("the bytes do not open")]
    Unopened,
    /// They open to a content that is no spelling of the record.
    #[error("the content is no spelling of the record")]
    Misread,
    /// Memory was wanting.
    #[error("out of memory")]
    OutOfMemory,
}

impl From<AllocError> for SealedRefusal {
    ghost use Rattle.std.specs.Prelude.{◌≡◌};
    ghost use Rattle.cx_sealed.specs.declared.refusals.SealedRefusal.TheVariants.{OutOfMemory};

    ghost from_gives = { λ _ refusal. refusal ≡ OutOfMemory };

    fn from(_error: AllocError) -> SealedRefusal {
        SealedRefusal::OutOfMemory
    }
}
