//! Tickets as a service opens them.

ghost use Rattle.std.specs.Prelude.{◌≡◌, None, IfOk};
ghost use Rattle.std.specs.List.{position};
ghost use Rattle.cx_base.specs.Owners.{is_above_ascii};
ghost use Rattle.cx_base.specs.Texts.{is_caps};
ghost use Rattle.cx_enc.specs.Layouts.{only_if, blob_field};
ghost use Rattle.cx_enc.specs.Reading.{spot};
ghost use Rattle.cx_enc.specs.Whole.{Gives};

use crate::records::Record;
use cx_base::{Blob, Duplicate, EntityName, Reading, Text, TextRefusal, is_caps};
use cx_enc::{
    Cut, Encoded, ReadFault, ReadRefusal, put_blob, put_name, put_reading, put_secret, put_u8,
    put_u64,
};
use std::alloc::{AllocError, Global};

/// A ticket: for whom it is, with which session key and caps, and from when until when. A generation of the service seals it.
#[derive(PartialEq, Eq, Drop)]
pub struct ServiceTicket {
    /// The session key.
    pub session: [u8; 16],
    pub name: EntityName,
    pub gid: u64,
    pub created: Reading,
    pub expires: Reading,
    /// At most 4,096 bytes of 0x20 to 0x7e, none of them a quotation mark or a backslash.
    pub caps: Text,
}

impl Encoded for ServiceTicket {
    ghost use Rattle.std.specs.Prelude.{IsTrue};
    ghost use Rattle.cx_base.specs.Texts.{is_caps};
    ghost use Rattle.cx_enc.specs.Moments.{IsReading};
    ghost use Rattle.cx_sealed.specs.Records.{service_ticket_layout};

    ghost layout = { service_ticket_layout };

    ghost Bound = { λ t. IsReading t.created × IsReading t.expires × IsTrue (is_caps t.caps) };

    fn read(alloc: Global, cut: &mut Cut<'_>) -> Result<ServiceTicket, ReadRefusal> {
        cut.take_fixed_u8(1)?;
        Ok(ServiceTicket {
            session: cut.take_secret()?,
            name: cut.take_name()?.own(alloc)?,
            gid: cut.take_u64()?,
            created: cut.take_reading()?,
            expires: cut.take_reading()?,
            caps: take_caps(alloc, cut)?,
        })
    }

    fn write(&self, alloc: Global, into: &mut Blob) -> Result<(), AllocError> {
        put_u8(alloc, into, 1)?;
        put_secret(alloc, into, &self.session)?;
        put_name(alloc, into, &self.name)?;
        put_u64(alloc, into, self.gid)?;
        put_reading(alloc, into, self.created)?;
        put_reading(alloc, into, self.expires)?;
        put_blob(alloc, into, self.caps.bytes())
    }
}

impl Record for ServiceTicket {
    ghost use Rattle.cx_sealed.specs.Lengths.{service_ticket_short};

    ghost short = { service_ticket_short };
}

// Takes a blob that is a capability text.
fn take_caps(alloc: Global, cut: &mut Cut<'_>) -> Result<Text, ReadRefusal>
    ensures { Gives (spot cut.new) result ((only_if is_caps blob_field).form.at (spot cut.old)) }
{
    let place = cut.place();
    let bytes = cut.take_blob()?;
    if !is_caps(bytes) {
        return Err(ReadRefusal::Fault(ReadFault::BadField(place)));
    }
    let caps = text_of(alloc, bytes)?;
    Ok(caps)
}

// The text of ASCII bytes.
fn text_of(alloc: Global, bytes: &[u8]) -> Result<Text, AllocError>
    requires { position is_above_ascii bytes.now ≡ None }
    ensures { IfOk result (λ text. text ≡ bytes.now) }
{
    match Text::of(alloc, bytes) {
        Ok(text) => Ok(text),
        Err(TextRefusal::OutOfMemory) => Err(AllocError),
        Err(TextRefusal::NotAscii(_)) => unreachable!(),
    }
}

impl Duplicate for ServiceTicket {
    fn copy(&self, alloc: Global) -> Result<ServiceTicket, AllocError> {
        let name = self.name.copy(alloc)?;
        let caps = self.caps.copy(alloc)?;
        Ok(ServiceTicket {
            session: self.session,
            name,
            gid: self.gid,
            created: self.created,
            expires: self.expires,
            caps,
        })
    }
}
