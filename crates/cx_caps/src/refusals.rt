//! The refusals of capability texts and operations.

use cx_base::Operation;
use std::alloc::AllocError;
use thiserror::Error;

/// Why a text is no capability text.
#[derive(Debug, PartialEq, Eq, Drop, Error)]
pub enum CapRefusal {
    /// It has more than 4,096 bytes.
    #[error("a capability text has at most 4096 bytes")]
    TooLong,
    /// The byte at this place, from 0, is the first that is a quotation mark, a backslash or outside of 0x20 to 0x7e.
    #[error("the byte at place {0} stands in no capability text")]
    BadByte(usize),
    /// Memory was wanting.
    #[error("out of memory")]
    OutOfMemory,
}

impl From<AllocError> for CapRefusal {
    ghost use Rattle.std.specs.Prelude.{◌≡◌};
    ghost use Rattle.cx_caps.specs.declared.refusals.CapRefusal.TheVariants.{OutOfMemory};

    ghost from_gives = { λ _ refusal. refusal ≡ OutOfMemory };

    fn from(_error: AllocError) -> CapRefusal {
        CapRefusal::OutOfMemory
    }
}

/// No clause of the capability text allows the operation, which is given back.
#[derive(Debug, PartialEq, Eq, Drop, Error)]
#[error("none of the {clauses} clauses of the capability text allows the operation")]
pub struct Denied {
    /// How many clauses the text has: one more than its commas.
    pub clauses: u32,
    pub ask: Operation,
}
