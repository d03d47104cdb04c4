//! Why an operation was not served.

use cx_base::Access;
use std::alloc::AllocError;
use thiserror::Error;

/// Why a permitted operation was not served.
#[derive(Debug, PartialEq, Eq, Drop, Error)]
pub enum ServeRefusal {
    /// No handler was set for operations of this kind.
    #[error("there is no handler for a {kind}")]
    NoHandler { kind: Access },
    /// Memory was wanting.
    #[error("out of memory")]
    OutOfMemory,
}

impl From<AllocError> for ServeRefusal {
    ghost use Rattle.std.specs.Prelude.{◌≡◌};
    ghost use Rattle.cx_desk.specs.declared.refusals.ServeRefusal.TheVariants.{OutOfMemory};

    ghost from_gives = { λ _ refusal. refusal ≡ OutOfMemory };

    fn from(_error: AllocError) -> ServeRefusal {
        ServeRefusal::OutOfMemory
    }
}
