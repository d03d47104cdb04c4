//! What a writer asks of a value, tested of one that was read.

ghost use Rattle.std.specs.Prelude.{length, ◌<◌, ◌≤◌, ◌^◌, IsTrue, OnOk};
ghost use Rattle.cx_base.specs.Texts.{is_caps, is_part};
ghost use Rattle.cx_enc.specs.Moments.{IsReading};
ghost use Rattle.cx_wire.specs.Operations.{IsWritable};

use crate::answered::Refused;
use cx_base::{Blob, Items, Operation, Reading, SECOND, Text, is_caps, is_part};

/// That a blob field can hold these bytes.
pub fn fits_blob_field(bytes: &Blob) -> Result<(), Refused>
    ensures { OnOk result (length bytes.now < 2 ^ 32) }
{
    if bytes.bytes().len() > 0xffff_ffff {
        return Err(Refused::Unfit);
    }
    Ok(())
}

/// That these are no more modes than a request has.
pub fn is_few(modes: &Items<u32>) -> Result<(), Refused>
    ensures { OnOk result (length modes.now ≤ 16) }
{
    if modes.all().len() > 16 {
        return Err(Refused::Unfit);
    }
    Ok(())
}

/// That a time field can hold this reading.
pub fn is_reading(reading: Reading) -> Result<(), Refused>
    ensures { OnOk result (IsReading reading) }
{
    if reading >= 4_294_967_296 * SECOND {
        return Err(Refused::Unfit);
    }
    Ok(())
}

/// That these are caps.
pub fn is_capped(caps: &Text) -> Result<(), Refused>
    ensures { OnOk result (IsTrue (is_caps caps.now)) }
{
    if !is_caps(caps.bytes()) {
        return Err(Refused::Unfit);
    }
    Ok(())
}

/// That its pool, namespace and object are such, and a message can hold its bytes.
pub fn is_operation(operation: &Operation) -> Result<(), Refused>
    ensures { OnOk result (IsWritable operation.now) }
{
    is_name(&operation.pool)?;
    is_name(&operation.namespace)?;
    is_name(&operation.object)?;
    if operation.bytes.bytes().len() > 65_536 {
        return Err(Refused::Unfit);
    }
    Ok(())
}

// That this is a pool, a namespace or an object.
fn is_name(part: &Text) -> Result<(), Refused>
    ensures { OnOk result (IsTrue (is_part part.now)) }
{
    if !is_part(part.bytes()) {
        return Err(Refused::Unfit);
    }
    Ok(())
}
