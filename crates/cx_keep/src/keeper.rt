//! Where a keyring and a state are kept.

ghost use Rattle.std.specs.Prelude.{ℕ, ◌≡◌, Option, IfOk, OnOk, OnErr};
ghost use Rattle.cx_base.specs.Streams.{Counts};

use cx_base::{Blob, Failed};
use std::alloc::{AllocError, Global};
use thiserror::Error;

/// What is kept: a keyring, and the monitor's state.
#[derive(Clone, Copy, Debug, PartialEq, Eq)]
pub enum Slot {
    Keyring,
    State,
}

/// Why a slot isn't loaded.
#[derive(Clone, Copy, Debug, PartialEq, Eq, Error)]
pub enum KeepError {
    /// The call failed. The keeper's count of faults rose in it; a count at `u64::MAX` counts as risen.
    #[error("a call of the keeper failed")]
    Failed,
    /// Memory was wanting, which is no fault of the keeper.
    #[error("out of memory")]
    OutOfMemory,
}

impl From<AllocError> for KeepError {
    ghost use Rattle.std.specs.Prelude.{◌≡◌};
    ghost use Rattle.cx_keep.specs.declared.keeper.KeepError.TheVariants.{OutOfMemory};

    ghost from_gives = { λ _ refusal. refusal ≡ OutOfMemory };

    fn from(_error: AllocError) -> KeepError {
        KeepError::OutOfMemory
    }
}

/// Where a keyring and a state are kept. `kept` is what stands in the slots, where the object tells that. `faults` counts the
/// calls that failed: it stands where a call goes well or wants memory.
pub trait Keeper {
    ghost use Rattle.cx_keep.specs.Slots.{Kept, Loads, Saves, SavesOrNot, LoadCounts};

    ghost kept: { Self → Option Kept };

    ghost faults: { Self → ℕ };

    /// What stands in the slot, if anything does. No slot changes.
    fn load(&mut self, alloc: Global, slot: Slot) -> Result<Option<Blob>, KeepError>
        ensures loads { IfOk result (Loads (kept self.old) slot) }
        ensures same { kept self.new ≡ kept self.old }
        ensures count { LoadCounts (faults self.old) (faults self.new) result };

    /// Puts the bytes into the slot in place of those that stand there. After a failure either the old ones or the new ones
    /// stand there. The other slot stays as it is.
    fn save(&mut self, slot: Slot, bytes: &[u8]) -> Result<(), Failed>
        ensures saves { OnOk result (Saves (kept self.old) (kept self.new) slot bytes.now) }
        ensures failed { OnErr result (SavesOrNot (kept self.old) (kept self.new) slot bytes.now) }
        ensures count { Counts (faults self.old) (faults self.new) result };
}
