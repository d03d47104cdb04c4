//! Saving the monitor's state.

ghost use Rattle.std.specs.Prelude.{ℕ, ◌≡◌, ◌≢◌, ◌≤◌, Err, OnOk};
ghost use Rattle.cx_base.specs.Streams.{Rose};
ghost use Rattle.cx_rotate.specs.Keeping.{IsKeptState};
ghost use Rattle.cx_keep.specs.Formats.{SpellsState, state_text};
ghost use Rattle.cx_keep.specs.Slots.{Saves, SavesOrNot};

use crate::format::encode_state;
use crate::keeper::{Keeper, Slot};
use cx_rotate::KeptState;
use std::alloc::{AllocError, Global};
use thiserror::Error;

/// Why a state isn't committed.
#[derive(Clone, Copy, Debug, PartialEq, Eq, Error)]
pub enum CommitRefusal {
    /// The keeper failed, and its count of faults rose. The old state or the new one is kept.
    #[error("the keeper failed")]
    KeepFault,
    /// Memory was wanting, before the keeper was asked.
    #[error("out of memory")]
    OutOfMemory,
}

impl From<AllocError> for CommitRefusal {
    ghost use Rattle.std.specs.Prelude.{◌≡◌};
    ghost use Rattle.cx_keep.specs.declared.commits.CommitRefusal.TheVariants.{OutOfMemory};

    ghost from_gives = { λ _ refusal. refusal ≡ OutOfMemory };

    fn from(_error: AllocError) -> CommitRefusal {
        CommitRefusal::OutOfMemory
    }
}

/// Saves the state in the keeper's slot.
pub fn commit<K: Keeper>(
    alloc: Global,
    keeper: &mut K,
    state: &KeptState,
) -> Result<(), CommitRefusal>
    requires { IsKeptState state.now }
    ensures saved { OnOk result (Saves (K.kept keeper.old) (K.kept keeper.new) Slot.State (state_text state.now)) }
    ensures fault { result ≡ Err CommitRefusal.KeepFault → SavesOrNot (K.kept keeper.old) (K.kept keeper.new) Slot.State (state_text state.now) }
    // What was to be saved is read again as this state, whatever lives are handed in.
    ensures spells { result ≢ Err CommitRefusal.OutOfMemory → (lives : ℕ × ℕ) → SpellsState lives (state_text state.now) state.now }
    ensures once { OnOk result (K.faults keeper.new ≡ K.faults keeper.old) }
    ensures cause { result ≡ Err CommitRefusal.KeepFault → Rose (K.faults keeper.old) (K.faults keeper.new) }
    ensures later { K.faults keeper.old ≤ K.faults keeper.new }
    ensures memory { result ≡ Err CommitRefusal.OutOfMemory → keeper.new ≡ keeper.old }
{
    let bytes = encode_state(alloc, state)?;
    match keeper.save(Slot::State, bytes.bytes()) {
        Ok(()) => Ok(()),
        Err(_) => Err(CommitRefusal::KeepFault),
    }
}
