//! Why a book refuses a call.

use cx_base::EntityName;
use std::alloc::AllocError;
use thiserror::Error;

/// Why no session was admitted.
#[derive(Clone, Copy, Debug, PartialEq, Eq, Error)]
pub enum AdmitFault {
    /// The live session with this number has the client's cookie.
    #[error("session {number} has this client cookie")]
    CookieInUse { number: u64 },
    /// As many sessions live as a book has places.
    #[error("{limit} sessions live")]
    BookFull { limit: u32 },
    /// The last number was given.
    #[error("no session number is left")]
    Spent,
    /// Memory was wanting.
    #[error("out of memory")]
    OutOfMemory,
}

/// Why no session was resumed.
#[derive(Debug, PartialEq, Eq, Drop, Error)]
pub enum ResumeFault {
    /// No live session has both cookies.
    #[error("no session has these cookies")]
    Unknown,
    /// The session belongs to another entity, or to the same one under another global id.
    #[error("the session belongs to {entity} with global id {gid}")]
    OwnerDiffers { entity: EntityName, gid: u64 },
    /// The count of reconnections is not above the kept one.
    #[error("the reconnection count must be above {kept}")]
    StaleConnect { kept: u64 },
    /// The count of connections is below the kept one.
    #[error("the connection count must be at least {kept}")]
    StaleGlobal { kept: u64 },
    /// The session has its last epoch.
    #[error("no epoch is left")]
    Spent,
    /// Memory was wanting.
    #[error("out of memory")]
    OutOfMemory,
}

impl From<AllocError> for ResumeFault {
    ghost use Rattle.std.specs.Prelude.{◌≡◌};
    ghost use Rattle.cx_session.specs.declared.faults.ResumeFault.TheVariants.{OutOfMemory};

    ghost from_gives = { λ _ fault. fault ≡ OutOfMemory };

    fn from(_error: AllocError) -> ResumeFault {
        ResumeFault::OutOfMemory
    }
}

/// Why a message was not taken.
#[derive(Clone, Copy, Debug, PartialEq, Eq, Error)]
pub enum TakeRefusal {
    /// The session has this epoch, or does not live, which counts as epoch 0.
    #[error("the session has epoch {epoch}")]
    Stale { epoch: u64 },
    /// The message was taken before; this is the last one taken.
    #[error("messages up to {last} were taken")]
    Repeat { last: u64 },
    /// Messages are missing before this one; this is the next one due.
    #[error("message {expected} is due")]
    Gap { expected: u64 },
}

/// An owner who was not admitted, and why.
#[derive(Drop)]
pub struct AdmitRefusal<O> {
    pub owner: O,
    pub fault: AdmitFault,
}

/// An owner who did not resume a session, and why.
#[derive(Drop)]
pub struct ResumeRefusal<O> {
    pub owner: O,
    pub fault: ResumeFault,
}
