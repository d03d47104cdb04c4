//! Why the key server refuses.

use std::alloc::AllocError;
use thiserror::Error;

/// Why no ticket is issued. The first of these that holds is answered.
#[derive(Clone, Copy, Debug, PartialEq, Eq, Error)]
pub enum IssueRefusal {
    /// The keyring has no entity of this name.
    #[error("the keyring has no such entity")]
    UnknownEntity,
    /// There are tickets for MDS, OSD, MGR and AUTH, and for no MON or CLIENT.
    #[error("there are no tickets for this service")]
    NotAService,
    /// The entity has no caps for the service, as its keyring entry says.
    #[error("the entity has no caps for this service")]
    NoCaps,
    /// The service's current generation has expired, and no more can be added: its ids or its expiries are at their bounds.
    #[error("the service has no unexpired generation")]
    IdsSpent,
    /// Memory was wanting.
    #[error("out of memory")]
    OutOfMemory,
}

impl From<AllocError> for IssueRefusal {
    ghost use Rattle.std.specs.Prelude.{◌≡◌};
    ghost use Rattle.cx_keyserver.specs.declared.refusals.IssueRefusal.TheVariants.{OutOfMemory};

    ghost from_gives = { λ _ refusal. refusal ≡ OutOfMemory };

    fn from(_error: AllocError) -> IssueRefusal {
        IssueRefusal::OutOfMemory
    }
}

/// All global ids are given out.
#[derive(Clone, Copy, Debug, PartialEq, Eq, Error)]
#[error("all global ids are given out")]
pub struct GidsSpent;

/// The keyring has no entity of this name, or it is no daemon.
#[derive(Clone, Copy, Debug, PartialEq, Eq, Error)]
#[error("the keyring has no such daemon")]
pub struct NotADaemon;
