//! Bodies that are a blob, and in it a value to its end.

ghost use Rattle.std.specs.Prelude.{◌≡◌};
ghost use Rattle.cx_control.specs.Calls.{IsReadBy, IsPutBy};
ghost use Rattle.cx_wire.specs.BodyCalls.{IsBodyReadBy, IsOpened};
ghost use Rattle.cx_wire.specs.CodeLaws.{inside};
ghost use Rattle.cx_wire.specs.Codes.{other_code, tickets_code, rotating_code};

use crate::refusals::BodyRefusal;
use cx_base::Blob;
use cx_control::WireRefusal;
use cx_enc::{Cut, Encoded, ReadFault, put_blob};
use std::alloc::{AllocError, Global};

/// The code of tickets.
pub(crate) const TICKETS: u16 = 0x0200;

/// The code of generations.
pub(crate) const ROTATING: u16 = 0x0400;

/// Reads a body; one of another code is told from others that are malformed.
pub(crate) fn read_body<T: Encoded>(alloc: Global, bytes: &[u8]) -> Result<T, BodyRefusal>
    ensures { IsBodyReadBy (inside T.layout).form bytes.now result }
{
    match read_content(alloc, bytes) {
        Ok(value) => Ok(value),
        Err(WireRefusal::OutOfMemory) => Err(BodyRefusal::OutOfMemory),
        Err(WireRefusal::Malformed(place)) => match other_code(bytes) {
            Some(code) => Err(BodyRefusal::OtherCode(code)),
            None => Err(BodyRefusal::Malformed(place)),
        },
    }
}

/// Writes a body behind some bytes. A value whose spelling has 2^32 bytes or more fits no blob, and is answered as want of memory.
pub(crate) fn put_body<T: Encoded>(
    alloc: Global,
    into: &mut Blob,
    value: &T,
) -> Result<(), AllocError>
    requires { T.Bound value.now }
    ensures { IsPutBy (inside T.layout).form value.now into.old into.new result }
{
    let mut content = Blob::new(alloc);
    value.write(alloc, &mut content)?;
    if content.bytes().len() > 0xffff_ffff {
        return Err(AllocError);
    }
    put_blob(alloc, into, content.bytes())
}

// The value that the blob of these bytes holds.
fn read_content<T: Encoded>(alloc: Global, bytes: &[u8]) -> Result<T, WireRefusal>
    ensures { IsReadBy (inside T.layout).form bytes.now result }
{
    let (mut content, behind) = opened(bytes)?;
    let value = T::read(alloc, &mut content)?;
    if content.left() > 0 {
        return Err(WireRefusal::Malformed(content.place()));
    }
    if behind.left() > 0 {
        return Err(WireRefusal::Malformed(behind.place()));
    }
    Ok(value)
}

// The place in these bytes before what their blob holds, as far as it goes, and the one behind the blob.
fn opened(bytes: &[u8]) -> Result<(Cut<'_>, Cut<'_>), ReadFault>
    ensures { IsOpened bytes.now result }
{
    let mut behind = Cut::new(bytes);
    behind.take_blob()?;
    let mut content = Cut::new(&bytes[..bytes.len() - behind.left()]);
    content.take_u32()?;
    Ok((content, behind))
}

// The code of these bytes, where their blob is whole and begins with another code than a body's.
fn other_code(bytes: &[u8]) -> Option<u16>
    ensures { result ≡ other_code bytes.now }
{
    let Ok(content) = Cut::new(bytes).take_blob() else {
        return None;
    };
    let Ok(code) = Cut::new(content).take_u16() else {
        return None;
    };
    if code == TICKETS || code == ROTATING {
        return None;
    }
    Some(code)
}
