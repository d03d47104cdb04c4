//! Why bytes can't be read.

ghost use Rattle.std.specs.Prelude.{◌≡◌};
ghost use Rattle.cx_enc.specs.Faults.{fault_place};

use std::alloc::AllocError;
use thiserror::Error;

/// What is wrong at the first field that can't be read, with the place at which that field begins.
#[derive(Clone, Copy, Debug, PartialEq, Eq, Error)]
pub enum ReadFault {
    /// The field needs more bytes than are left.
    #[error("the field at byte {0} falls short")]
    Short(usize),
    /// The bytes of the field are there and spell no value of it.
    #[error("the field at byte {0} spells no value")]
    BadField(usize),
}

impl ReadFault {
    /// The place at which the field begins.
    pub fn place(&self) -> usize
        ensures { result ≡ fault_place self.now }
    {
        match self {
            ReadFault::Short(place) => *place,
            ReadFault::BadField(place) => *place,
        }
    }
}

/// Why bytes are no spelling of a value that is read with no memory.
#[derive(Clone, Copy, Debug, PartialEq, Eq, Error)]
pub enum Misspelling {
    /// A field can't be read.
    #[error("{0}")]
    Fault(ReadFault),
    /// The value ends at this place, and bytes are left over.
    #[error("bytes are left over at byte {0}")]
    LeftOver(usize),
}

impl From<ReadFault> for Misspelling {
    ghost use Rattle.std.specs.Prelude.{◌≡◌};
    ghost use Rattle.cx_enc.specs.declared.faults.Misspelling.TheVariants.{Fault};

    ghost from_gives = { λ fault refusal. refusal ≡ Fault fault };

    fn from(fault: ReadFault) -> Misspelling {
        Misspelling::Fault(fault)
    }
}

/// Why bytes are no spelling of a value.
#[derive(Clone, Copy, Debug, PartialEq, Eq, Error)]
pub enum ReadRefusal {
    /// A field can't be read.
    #[error("{0}")]
    Fault(ReadFault),
    /// The value ends at this place, and bytes are left over.
    #[error("bytes are left over at byte {0}")]
    LeftOver(usize),
    /// Memory was wanting.
    #[error("out of memory")]
    OutOfMemory,
}

impl From<ReadFault> for ReadRefusal {
    ghost use Rattle.std.specs.Prelude.{◌≡◌};
    ghost use Rattle.cx_enc.specs.declared.faults.ReadRefusal.TheVariants.{Fault};

    ghost from_gives = { λ fault refusal. refusal ≡ Fault fault };

    fn from(fault: ReadFault) -> ReadRefusal {
        ReadRefusal::Fault(fault)
    }
}

impl From<AllocError> for ReadRefusal {
    ghost use Rattle.std.specs.Prelude.{◌≡◌};
    ghost use Rattle.cx_enc.specs.declared.faults.ReadRefusal.TheVariants.{OutOfMemory};

    ghost from_gives = { λ _ refusal. refusal ≡ OutOfMemory };

    fn from(_error: AllocError) -> ReadRefusal {
        ReadRefusal::OutOfMemory
    }
}
