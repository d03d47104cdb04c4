//! Why a node doesn't run.

use cx_keep::{BadState, KeepError};
use cx_keyring::KeyringRefusal;
use cx_schedule::ScheduleRefusal;
use std::alloc::AllocError;

/// Why a node doesn't run: its script, or what it needs of what is kept.
#[derive(Clone, Copy, Debug, PartialEq, Eq)]
pub enum Unloaded {
    /// The script isn't read.
    Script(ScheduleRefusal),
    /// The keeper failed.
    Keeper,
    /// No keyring is kept.
    NoKeyring,
    /// What is kept as the keyring is none.
    Keyring(KeyringRefusal),
    /// The keyring has no entry of the node's name.
    NoEntity,
    /// What is kept as the monitor's state is none.
    State(BadState),
    /// Memory was wanting.
    OutOfMemory,
}

impl From<AllocError> for Unloaded {
    ghost use Rattle.std.specs.Prelude.{◌≡◌};
    ghost use Rattle.cx_loading.specs.declared.unloaded.Unloaded.TheVariants.{OutOfMemory};

    ghost from_gives = { λ _ why. why ≡ OutOfMemory };

    fn from(_error: AllocError) -> Unloaded {
        Unloaded::OutOfMemory
    }
}

impl From<KeepError> for Unloaded {
    ghost use Rattle.std.specs.Prelude.{◌≡◌};
    ghost use Rattle.cx_loading.specs.Loading.{keep_refusal};

    ghost from_gives = { λ error why. why ≡ keep_refusal error };

    fn from(error: KeepError) -> Unloaded {
        match error {
            KeepError::Failed => Unloaded::Keeper,
            KeepError::OutOfMemory => Unloaded::OutOfMemory,
        }
    }
}

impl From<KeyringRefusal> for Unloaded {
    ghost use Rattle.std.specs.Prelude.{◌≡◌};
    ghost use Rattle.cx_loading.specs.Loading.{ring_refusal};

    ghost from_gives = { λ refusal why. why ≡ ring_refusal refusal };

    fn from(refusal: KeyringRefusal) -> Unloaded {
        match refusal {
            KeyringRefusal::OutOfMemory => Unloaded::OutOfMemory,
            refusal => Unloaded::Keyring(refusal),
        }
    }
}

impl From<BadState> for Unloaded {
    ghost use Rattle.std.specs.Prelude.{◌≡◌};
    ghost use Rattle.cx_loading.specs.declared.unloaded.Unloaded.TheVariants.{State};

    ghost from_gives = { λ bad why. why ≡ State bad };

    fn from(bad: BadState) -> Unloaded {
        Unloaded::State(bad)
    }
}

impl From<ScheduleRefusal> for Unloaded {
    ghost use Rattle.std.specs.Prelude.{◌≡◌};
    ghost use Rattle.cx_loading.specs.Loading.{script_refusal};

    ghost from_gives = { λ refusal why. why ≡ script_refusal refusal };

    fn from(refusal: ScheduleRefusal) -> Unloaded {
        match refusal {
            ScheduleRefusal::OutOfMemory => Unloaded::OutOfMemory,
            refusal => Unloaded::Script(refusal),
        }
    }
}
