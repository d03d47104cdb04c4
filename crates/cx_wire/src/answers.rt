//! The body by which a daemon answers an operation.

ghost use Rattle.std.specs.Prelude.{length, ◌≤◌};
ghost use Rattle.cx_control.specs.Calls.{IsReadBy, IsPutBy};
ghost use Rattle.cx_wire.specs.Operations.{answer_layout};

use crate::operations::take_data;
use cx_base::Blob;
use cx_control::{WireRefusal, put_payload, read_payload};
use cx_enc::{Cut, Encoded, ReadFault, ReadRefusal, put_blob, put_u8};
use std::alloc::{AllocError, Global};

/// Answer, the body of message 43: how an operation ended (0 done, 1 denied, 2 no handler), and at most 65,536 bytes of data.
#[derive(PartialEq, Eq, Drop)]
pub struct Answer {
    pub outcome: u8,
    pub bytes: Blob,
}

impl Encoded for Answer {
    ghost layout = { answer_layout };

    ghost Bound = { λ a. (a.outcome ≤ 2) × (length a.bytes ≤ 65536) };

    fn read(alloc: Global, cut: &mut Cut<'_>) -> Result<Answer, ReadRefusal> {
        let place = cut.place();
        let outcome = cut.take_u8()?;
        if outcome > 2 {
            return Err(ReadRefusal::Fault(ReadFault::BadField(place)));
        }
        Ok(Answer {
            outcome,
            bytes: Blob::of(alloc, take_data(cut)?)?,
        })
    }

    fn write(&self, alloc: Global, into: &mut Blob) -> Result<(), AllocError> {
        put_u8(alloc, into, self.outcome)?;
        put_blob(alloc, into, self.bytes.bytes())
    }
}

/// Reads the body of message 43.
pub fn read_answer(alloc: Global, bytes: &[u8]) -> Result<Answer, WireRefusal>
    ensures { IsReadBy answer_layout.form bytes.now result }
{
    read_payload(alloc, bytes)
}

/// Writes the body of message 43 behind some bytes.
pub fn put_answer(alloc: Global, into: &mut Blob, value: &Answer) -> Result<(), AllocError>
    requires outcome { value.now.outcome ≤ 2 }
    requires bytes { length value.now.bytes ≤ 65536 }
    ensures { IsPutBy answer_layout.form value.now into.old into.new result }
{
    put_payload(alloc, into, value)
}
