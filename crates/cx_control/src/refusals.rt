//! Why the bytes of a payload are refused.

use cx_enc::{ReadFault, ReadRefusal};
use std::alloc::AllocError;
use thiserror::Error;

/// Why bytes are read as no payload.
#[derive(Clone, Copy, Debug, PartialEq, Eq, Error)]
pub enum WireRefusal {
    /// The bytes spell no value: the first field that can't be read begins at this place, or the value ends there and bytes are
    /// left over.
    #[error("malformed at byte {0}")]
    Malformed(usize),
    /// Memory was wanting.
    #[error("out of memory")]
    OutOfMemory,
}

impl From<ReadFault> for WireRefusal {
    ghost use Rattle.std.specs.Prelude.{◌≡◌};
    ghost use Rattle.cx_enc.specs.Faults.{fault_place};
    ghost use Rattle.cx_control.specs.declared.refusals.WireRefusal.TheVariants.{Malformed};

    ghost from_gives = { λ fault refusal. refusal ≡ Malformed (fault_place fault) };

    fn from(fault: ReadFault) -> WireRefusal {
        WireRefusal::Malformed(fault.place())
    }
}

impl From<ReadRefusal> for WireRefusal {
    ghost use Rattle.std.specs.Prelude.{◌≡◌};
    ghost use Rattle.cx_control.specs.Refusing.{refusal_of};

    ghost from_gives = { λ read refusal. refusal ≡ refusal_of read };

    fn from(refusal: ReadRefusal) -> WireRefusal {
        match refusal {
            ReadRefusal::Fault(fault) => WireRefusal::Malformed(fault.place()),
            ReadRefusal::LeftOver(place) => WireRefusal::Malformed(place),
            ReadRefusal::OutOfMemory => WireRefusal::OutOfMemory,
        }
    }
}

impl From<AllocError> for WireRefusal {
    ghost use Rattle.std.specs.Prelude.{◌≡◌};
    ghost use Rattle.cx_control.specs.declared.refusals.WireRefusal.TheVariants.{OutOfMemory};

    ghost from_gives = { λ _ refusal. refusal ≡ OutOfMemory };

    fn from(_error: AllocError) -> WireRefusal {
        WireRefusal::OutOfMemory
    }
}
