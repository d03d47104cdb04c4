//! What is told of bytes of a kind.

use cx_base::{Blob, Duplicate};
use cx_control::WireRefusal;
use cx_enc::{Misspelling, ReadFault, ReadRefusal};
use cx_sealed::SealedRefusal;
use cx_wire::BodyRefusal;
use std::alloc::{AllocError, Global};
use std::fmt;

/// What bytes mean, and the bytes that are written for it.
#[derive(Drop)]
pub struct Answered {
    pub meaning: String,
    pub again: Blob,
}

/// Why bytes are refused.
#[derive(Clone, Copy, Debug, PartialEq, Eq)]
pub enum Refused {
    /// They are malformed at this place.
    At(usize),
    /// The field at this place falls short.
    Short(usize),
    /// The field at this place spells no value.
    Bad(usize),
    /// Bytes are left over from this place on.
    LeftOver(usize),
    /// They hold no key.
    NoKey,
    /// They don't open.
    Unopened,
    /// They open to a content that spells no such record.
    Misread,
    /// They are a body of another code.
    Code(u16),
    OutOfMemory,
    /// They were read as a value that no bytes spell.
    Unfit,
    /// No kind has this name.
    NoKind,
}

impl fmt::Display for Refused {
    fn fmt<W: fmt::Write>(&self, f: &mut fmt::Formatter<W>) -> fmt::Result {
        match self {
            Refused::At(place) => write!(f, "at {place}"),
            Refused::Short(place) => write!(f, "short at {place}"),
            Refused::Bad(place) => write!(f, "bad at {place}"),
            Refused::LeftOver(place) => write!(f, "left over at {place}"),
            Refused::NoKey => write!(f, "no key"),
            Refused::Unopened => write!(f, "unopened"),
            Refused::Misread => write!(f, "misread"),
            Refused::Code(code) => write!(f, "for the code {code}"),
            Refused::OutOfMemory => write!(f, "out of memory"),
            Refused::Unfit => write!(f, "fits no field"),
            Refused::NoKind => write!(f, "no such kind"),
        }
    }
}

impl From<ReadFault> for Refused {
    fn from(fault: ReadFault) -> Refused {
        match fault {
            ReadFault::Short(place) => Refused::Short(place),
            ReadFault::BadField(place) => Refused::Bad(place),
        }
    }
}

impl From<ReadRefusal> for Refused {
    fn from(refusal: ReadRefusal) -> Refused {
        match refusal {
            ReadRefusal::Fault(fault) => Refused::from(fault),
            ReadRefusal::LeftOver(place) => Refused::LeftOver(place),
            ReadRefusal::OutOfMemory => Refused::OutOfMemory,
        }
    }
}

impl From<Misspelling> for Refused {
    fn from(misspelling: Misspelling) -> Refused {
        match misspelling {
            Misspelling::Fault(fault) => Refused::from(fault),
            Misspelling::LeftOver(place) => Refused::LeftOver(place),
        }
    }
}

impl From<WireRefusal> for Refused {
    fn from(refusal: WireRefusal) -> Refused {
        match refusal {
            WireRefusal::Malformed(place) => Refused::At(place),
            WireRefusal::OutOfMemory => Refused::OutOfMemory,
        }
    }
}

impl From<BodyRefusal> for Refused {
    fn from(refusal: BodyRefusal) -> Refused {
        match refusal {
            BodyRefusal::OtherCode(code) => Refused::Code(code),
            BodyRefusal::Malformed(place) => Refused::At(place),
            BodyRefusal::OutOfMemory => Refused::OutOfMemory,
        }
    }
}

impl From<SealedRefusal> for Refused {
    fn from(refusal: SealedRefusal) -> Refused {
        match refusal {
            SealedRefusal::Unopened => Refused::Unopened,
            SealedRefusal::Misread => Refused::Misread,
            SealedRefusal::OutOfMemory => Refused::OutOfMemory,
        }
    }
}

impl From<AllocError> for Refused {
    fn from(_: AllocError) -> Refused {
        Refused::OutOfMemory
    }
}

/// A copy of what was read, to stand in its place.
pub fn copied<T: Duplicate, E>(alloc: Global, read: Result<T, E>) -> Result<T, Refused>
where
    Refused: From<E>,
{
    let copy = read?.copy(alloc)?;
    Ok(copy)
}

/// What was written into these bytes, and what they mean.
pub fn told(
    put: Result<(), AllocError>,
    again: Blob,
    meaning: Result<String, AllocError>,
) -> Result<Answered, Refused> {
    put?;
    let meaning = meaning?;
    Ok(Answered { meaning, again })
}

/// What was written whole or sealed, and what it means.
pub fn told_whole<E>(
    again: Result<Blob, E>,
    meaning: Result<String, AllocError>,
) -> Result<Answered, Refused>
where
    Refused: From<E>,
{
    told(Ok(()), again?, meaning)
}

// The value that was read is written again and printed.
macro_rules! answered {
    ($alloc:ident, $value:ident = $read:expr, $put:ident, $($format:tt)*) => {{
        let $value = $read;
        let mut again = Blob::new($alloc);
        let put = $put($alloc, &mut again, &$value);
        crate::answered::told(put, again, format!(in $alloc; $($format)*))
    }};
}

// The value that was read is written whole and printed.
macro_rules! spelled {
    ($alloc:ident, $value:ident = $read:expr, $($format:tt)*) => {{
        let $value = $read;
        let again = write_whole($alloc, &$value);
        crate::answered::told_whole(again, format!(in $alloc; $($format)*))
    }};
}

pub(crate) use answered;
pub(crate) use spelled;
