//! Reading and writing any payload.

ghost use Rattle.std.specs.Prelude.{◌≡◌, ◌++◌, OnOk};
ghost use Rattle.cx_enc.specs.Layouts.{Layout};
ghost use Rattle.cx_control.specs.Calls.{IsReadBy, IsPutBy, IsPartReadBy, IsWholePutBy};

use crate::refusals::WireRefusal;
use cx_base::Blob;
use cx_enc::{Encoded, ReadsPart, read_whole, read_whole_part};
use std::alloc::{AllocError, Global};

/// Reads the payload that all of these bytes spell.
pub fn read_payload<T: Encoded>(alloc: Global, bytes: &[u8]) -> Result<T, WireRefusal>
    ensures { IsReadBy T.layout.form bytes.now result }
{
    let value = read_whole(alloc, bytes)?;
    Ok(value)
}

/// Writes a payload behind some bytes.
pub fn put_payload<T: Encoded>(alloc: Global, into: &mut Blob, value: &T) -> Result<(), AllocError>
    requires { T.Bound value.now }
    ensures { IsPutBy T.layout.form value.now into.old into.new result }
{
    value.put(alloc, into)
}

/// Reads the part that is kept of the payload that all of these bytes spell.
pub fn read_payload_part<T: ReadsPart>(alloc: Global, bytes: &[u8]) -> Result<T, WireRefusal>
    ensures { IsPartReadBy T.whole.form T.kept bytes.now result }
{
    let value = read_whole_part(alloc, bytes)?;
    Ok(value)
}

/// A payload that is read more widely than it is written: it writes a whole, of which it is the part that is kept.
pub trait WritesWhole: Sized + Drop {
    ghost Written: { Type 0 };

    ghost whole: { Layout Written };

    // the whole that is written
    ghost written: { Self → Written };

    // the part of a whole that is kept
    ghost kept: { Written → Self };

    /// Writes the payload behind some bytes, field by field. Where memory is wanting, some fields may stand there.
    fn write_whole(&self, alloc: Global, into: &mut Blob) -> Result<(), AllocError>
        ensures ok { OnOk result (into.new ≡ into.old ++ whole.form.text (written self.now)) }
        ensures fits { OnOk result (whole.form.Fits (written self.now)) }
        ensures kept { OnOk result (kept (written self.now) ≡ self.now) };
}

/// Writes a payload that is read more widely behind some bytes.
pub fn put_payload_whole<T: WritesWhole>(
    alloc: Global,
    into: &mut Blob,
    value: &T,
) -> Result<(), AllocError>
    ensures { IsWholePutBy T.whole.form T.kept (T.written value.now) value.now into.old into.new result }
{
    let mut spelled = Blob::new(alloc);
    value.write_whole(alloc, &mut spelled)?;
    into.append(alloc, spelled.bytes())
}
