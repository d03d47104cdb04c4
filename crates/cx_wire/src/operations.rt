//! The body by which a client asks an operation.

ghost use Rattle.std.specs.Prelude.{◌≡◌, ◌++◌, OnOk, OnErr, IfOk, None};
ghost use Rattle.std.specs.List.{position};
ghost use Rattle.cx_base.specs.Owners.{is_above_ascii};
ghost use Rattle.cx_enc.specs.Reading.{spot, ReadsAs};
ghost use Rattle.cx_enc.specs.Whole.{GivesInPlace};
ghost use Rattle.cx_control.specs.Calls.{IsReadBy, IsPutBy};
ghost use Rattle.cx_wire.specs.Operations.{access_number, access_of, access_field, part_field, data_field, operation_layout, IsWritable};
ghost use Rattle.cx_wire.specs.Asked.{asked_layout};

use cx_base::{Access, Blob, Operation, Text, is_part};
use cx_control::{WireRefusal, read_payload};
use cx_enc::{Cut, Encoded, ReadFault, ReadRefusal, put_blob, put_u8};
use std::alloc::{AllocError, Global};

// An operation as a payload: the traits of payloads and operations are both of crates below.
#[derive(Drop)]
struct Asked {
    ask: Operation,
}

impl Encoded for Asked {
    ghost layout = { asked_layout };

    ghost Bound = { λ asked. IsWritable asked.ask };

    fn read(alloc: Global, cut: &mut Cut<'_>) -> Result<Asked, ReadRefusal> {
        Ok(Asked {
            ask: Operation {
                access: take_access(cut)?,
                pool: Text::from_ascii(alloc, take_part(cut)?)?,
                namespace: Text::from_ascii(alloc, take_part(cut)?)?,
                object: Text::from_ascii(alloc, take_part(cut)?)?,
                bytes: Blob::of(alloc, take_data(cut)?)?,
            },
        })
    }

    fn write(&self, alloc: Global, into: &mut Blob) -> Result<(), AllocError> {
        write_operation(alloc, into, &self.ask)
    }
}

fn write_operation(alloc: Global, into: &mut Blob, ask: &Operation) -> Result<(), AllocError>
    requires { IsWritable ask.now }
    ensures ok { OnOk result (into.new ≡ into.old ++ operation_layout.form.text ask.now) }
    ensures fits { OnOk result (operation_layout.form.Fits ask.now) }
{
    put_u8(alloc, into, access_number(ask.access))?;
    put_blob(alloc, into, ask.pool.bytes())?;
    put_blob(alloc, into, ask.namespace.bytes())?;
    put_blob(alloc, into, ask.object.bytes())?;
    put_blob(alloc, into, ask.bytes.bytes())
}

// An access, one byte.
fn take_access(cut: &mut Cut<'_>) -> Result<Access, ReadFault>
    ensures { GivesInPlace (spot cut.new) result (access_field.form.at (spot cut.old)) }
{
    let place = cut.place();
    match cut.take_u8()? {
        1 => Ok(Access::Read),
        2 => Ok(Access::Write),
        4 => Ok(Access::Exec),
        _ => Err(ReadFault::BadField(place)),
    }
}

fn access_number(access: Access) -> u8
    ensures { result ≡ access_number access }
{
    match access {
        Access::Read => 1,
        Access::Write => 2,
        Access::Exec => 4,
    }
}

// A pool, a namespace or an object.
fn take_part<'a>(cut: &mut Cut<'a>) -> Result<&'a [u8], ReadFault>
    ensures read { ReadsAs (λ part. part.now) (spot cut.old) (spot cut.new) result (part_field.form.at (spot cut.old)) }
    ensures ascii { IfOk result (λ part. position is_above_ascii part.now ≡ None) }
{
    let mut at = *cut;
    let place = at.place();
    let part = at.take_blob()?;
    if !is_part(part) {
        return Err(ReadFault::BadField(place));
    }
    *cut = at;
    Ok(part)
}

/// Data: at most 65,536 bytes. After a fault the cut stands as before.
pub(crate) fn take_data<'a>(cut: &mut Cut<'a>) -> Result<&'a [u8], ReadFault>
    ensures { ReadsAs (λ bytes. bytes.now) (spot cut.old) (spot cut.new) result (data_field.form.at (spot cut.old)) }
{
    let mut at = *cut;
    let place = at.place();
    let bytes = at.take_blob()?;
    if bytes.len() > 65_536 {
        return Err(ReadFault::BadField(place));
    }
    *cut = at;
    Ok(bytes)
}

/// Reads the body of message 42: an access, the pool, the namespace and the object, each empty or 1 to 255 bytes among letters,
/// digits and `_ - .` and not `-` alone, and at most 65,536 bytes of data.
#[tactic(auto, using(crate::proofs::Asking::asked_ok, crate::proofs::Asking::asked_err))]
pub fn read_operation(alloc: Global, bytes: &[u8]) -> Result<Operation, WireRefusal>
    ensures { IsReadBy operation_layout.form bytes.now result }
{
    let asked: Asked = read_payload(alloc, bytes)?;
    Ok(asked.ask)
}

/// Writes the body of message 42 behind some bytes.
#[tactic(auto, using(crate::proofs::Asking::operation_again))]
pub fn put_operation(alloc: Global, into: &mut Blob, value: &Operation) -> Result<(), AllocError>
    requires { IsWritable value.now }
    ensures { IsPutBy operation_layout.form value.now into.old into.new result }
{
    let mut spelled = Blob::new(alloc);
    write_operation(alloc, &mut spelled, value)?;
    into.append(alloc, spelled.bytes())
}
