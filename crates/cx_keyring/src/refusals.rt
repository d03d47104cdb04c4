//! Why bytes are no keyring, and why an entry isn't added.

use crate::entries::Entry;
use crate::faults::KeyringFault;
use std::alloc::AllocError;
use thiserror::Error;

/// Why bytes are not read as a keyring.
#[derive(Clone, Copy, Debug, PartialEq, Eq, Error)]
pub enum KeyringRefusal {
    /// The first line that is wrong, counted from 1, and what is wrong with it.
    #[error("line {line}: {why}")]
    BadLine { line: u64, why: KeyringFault },
    /// There are more sections than this.
    #[error("a keyring has at most {0} sections")]
    TooMany(usize),
    /// Memory was wanting.
    #[error("out of memory")]
    OutOfMemory,
}

impl From<AllocError> for KeyringRefusal {
    ghost use Rattle.std.specs.Prelude.{◌≡◌};
    ghost use Rattle.cx_keyring.specs.declared.refusals.KeyringRefusal.TheVariants.{OutOfMemory};

    ghost from_gives = { λ _ refusal. refusal ≡ OutOfMemory };

    fn from(_error: AllocError) -> KeyringRefusal {
        KeyringRefusal::OutOfMemory
    }
}

/// Why an entry isn't added to a keyring.
#[derive(Debug, PartialEq, Eq, Drop, Error)]
pub enum AddRefusal {
    /// The keyring has an entry of this name. The new one comes back.
    #[error("the keyring has an entry of this name")]
    Repeated(Entry),
    /// Memory was wanting, and the entry is given up.
    #[error("out of memory")]
    OutOfMemory,
}

impl From<AllocError> for AddRefusal {
    ghost use Rattle.std.specs.Prelude.{◌≡◌};
    ghost use Rattle.cx_keyring.specs.declared.refusals.AddRefusal.TheVariants.{OutOfMemory};

    ghost from_gives = { λ _ refusal. refusal ≡ OutOfMemory };

    fn from(_error: AllocError) -> AddRefusal {
        AddRefusal::OutOfMemory
    }
}
