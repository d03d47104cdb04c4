//! Why a login is refused.

use std::alloc::AllocError;
use thiserror::Error;

/// Why a client refuses what the monitor sends in a login.
#[derive(Clone, Copy, Debug, PartialEq, Eq, Error)]
pub enum LoginRefusal {
    /// The payload spells none of its kind: the first field that can't be read begins at this place, or bytes are left over there.
    #[error("malformed at byte {0}")]
    Malformed(usize),
    /// A sealed part opens, under the key that is due, to no spelling of its record.
    #[error("a sealed part does not open")]
    Unopened,
    /// Memory was wanting.
    #[error("out of memory")]
    OutOfMemory,
}

impl From<AllocError> for LoginRefusal {
    ghost use Rattle.std.specs.Prelude.{◌≡◌};
    ghost use Rattle.cx_login.specs.declared.refusals.LoginRefusal.TheVariants.{OutOfMemory};

    ghost from_gives = { λ _ refusal. refusal ≡ OutOfMemory };

    fn from(_error: AllocError) -> LoginRefusal {
        LoginRefusal::OutOfMemory
    }
}

/// The proof of a login isn't the one that the key and both challenges make.
#[derive(Clone, Copy, Debug, PartialEq, Eq, Error)]
#[error("the proof is {got} in place of {expected}")]
pub struct WrongProof {
    pub expected: u64,
    pub got: u64,
}
