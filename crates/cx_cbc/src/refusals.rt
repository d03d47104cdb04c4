//! Why a content is not sealed, and why bytes do not open.

use std::alloc::AllocError;
use thiserror::Error;

/// Why a content is not sealed.
#[derive(Debug, PartialEq, Eq, Drop, Error)]
pub enum SealRefusal {
    /// The content has more than 1,048,576 bytes.
    #[error("the content is too long")]
    TooLong,
    /// Memory was wanting.
    #[error("out of memory")]
    OutOfMemory,
}

impl From<AllocError> for SealRefusal {
    ghost use Rattle.std.specs.Prelude.{◌≡◌};
    ghost use Rattle.cx_cbc.specs.declared.refusals.SealRefusal.TheVariants.{OutOfMemory};

    ghost from_gives = { λ _ refusal. refusal ≡ OutOfMemory };

    fn from(_error: AllocError) -> SealRefusal {
        SealRefusal::OutOfMemory
    }
}

/// Why bytes do not open.
#[derive(Debug, PartialEq, Eq, Drop, Error)]
pub enum OpenRefusal {
    /// No content seals to these bytes under this key.
    #[error("the bytes do not open")]
    Unopened,
    /// Memory was wanting.
    #[error("out of memory")]
    OutOfMemory,
}

impl From<AllocError> for OpenRefusal {
    ghost use Rattle.std.specs.Prelude.{◌≡◌};
    ghost use Rattle.cx_cbc.specs.declared.refusals.OpenRefusal.TheVariants.{OutOfMemory};

    ghost from_gives = { λ _ refusal. refusal ≡ OutOfMemory };

    fn from(_error: AllocError) -> OpenRefusal {
        OpenRefusal::OutOfMemory
    }
}

// Values of `T` may be sent to another thread, and shared between threads.
fn is_sendable<T: Send + Sync>() {}

// The refusals may.
fn sends_refusals() {
    is_sendable::<SealRefusal>();
    is_sendable::<OpenRefusal>();
}
