//! Why an authorizer is refused, and why a client refuses a daemon's answer to one.

use cx_base::{Blob, EntityType, Reading};
use std::alloc::AllocError;
use thiserror::Error;

/// Why a daemon refuses an authorizer for its service, in the order in which the causes are looked for.
#[derive(Clone, Copy, Debug, PartialEq, Eq, Error)]
pub enum AuthFault {
    /// The daemon's view lacks the generation with this id, under which the ticket is shown.
    #[error("there is no generation {id}")]
    UnknownGeneration { id: u64 },
    /// The blob opens under that generation to no ticket.
    #[error("the ticket does not open under generation {id}")]
    TicketUnopened { id: u64 },
    /// The global id that is claimed isn't the ticket's.
    #[error("the global id is {sealed}, not {claimed}")]
    GidDiffers { claimed: u64, sealed: u64 },
    /// The ticket doesn't expire after the reading.
    #[error("the ticket expired at {expires} ns, and it is {now} ns")]
    Expired { expires: Reading, now: Reading },
    /// The authorizer opens under the ticket's session key to no Authorize.
    #[error("the authorizer does not open")]
    AuthorizerUnopened,
    /// The authorizer has no challenge, or it isn't the daemon's own plus one.
    #[error("the challenge plus one is {expected}, not {got}")]
    ChallengeWrong { expected: u64, got: u64 },
}

/// Why a daemon refuses what a client shows.
#[derive(Debug, PartialEq, Eq, Drop, Error)]
pub enum AuthRefusal {
    /// The payload spells no authorizer: the first field that can't be read begins at this place, or bytes are left over there.
    #[error("malformed at byte {0}")]
    Malformed(usize),
    /// The ticket is shown as one for another service than the daemon's own.
    #[error("the daemon serves as {kept}, and the ticket is for {got}")]
    WrongService { kept: EntityType, got: EntityType },
    /// The authorizer is refused for this fault. The blob is that of its ticket.
    #[error("{fault}")]
    Ticket { fault: AuthFault, blob: Blob },
    /// Memory was wanting.
    #[error("out of memory")]
    OutOfMemory,
}

impl From<AllocError> for AuthRefusal {
    ghost use Rattle.std.specs.Prelude.{◌≡◌};
    ghost use Rattle.cx_authorize.specs.declared.refusals.AuthRefusal.TheVariants.{OutOfMemory};

    ghost from_gives = { λ _ refusal. refusal ≡ OutOfMemory };

    fn from(_error: AllocError) -> AuthRefusal {
        AuthRefusal::OutOfMemory
    }
}

/// Why a client refuses what a daemon answers.
#[derive(Clone, Copy, Debug, PartialEq, Eq, Error)]
pub enum PresentRefusal {
    /// The payload spells none of its kind: the first field that can't be read begins at this place, or bytes are left over there.
    #[error("malformed at byte {0}")]
    Malformed(usize),
    /// The sealed part opens under the session key to no spelling of its record.
    #[error("the answer does not open")]
    Unopened,
    /// The reply isn't to this client's nonce.
    #[error("the nonce plus one is {expected}, not {got}")]
    NonceWrong { expected: u64, got: u64 },
    /// Memory was wanting.
    #[error("out of memory")]
    OutOfMemory,
}

impl From<AllocError> for PresentRefusal {
    ghost use Rattle.std.specs.Prelude.{◌≡◌};
    ghost use Rattle.cx_authorize.specs.declared.refusals.PresentRefusal.TheVariants.{OutOfMemory};

    ghost from_gives = { λ _ refusal. refusal ≡ OutOfMemory };

    fn from(_error: AllocError) -> PresentRefusal {
        PresentRefusal::OutOfMemory
    }
}
