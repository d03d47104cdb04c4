//! The primitive fields.

use crate::answered::{Answered, Refused, spelled};
use crate::bounds::fits_blob_field;
use crate::shown::{Hex, Numbers, ShownAddr, Ticket};
use cx_base::{Addr, Blob, EntityName, EntityType, Items};
use cx_enc::{Key, TicketBlob, Time, read_whole, write_whole};
use std::alloc::Global;

/// What bytes of the kind of this name mean.
pub fn field(alloc: Global, kind: &str, bytes: &[u8]) -> Result<Answered, Refused> {
    match kind {
        "blob" => blob(alloc, bytes),
        "numbers" => numbers(alloc, bytes),
        "name" => name(alloc, bytes),
        "kind" => entity_type(alloc, bytes),
        "flag" => flag(alloc, bytes),
        "time" => time(alloc, bytes),
        "key" => key(alloc, bytes),
        "ticket" => ticket(alloc, bytes),
        "addr" => addr(alloc, bytes),
        _ => Err(Refused::NoKind),
    }
}

fn blob(alloc: Global, bytes: &[u8]) -> Result<Answered, Refused> {
    spelled!(
        alloc,
        x = read_whole::<Blob>(alloc, bytes)?,
        "{}",
        Hex(x.bytes())
    )
}

fn numbers(alloc: Global, bytes: &[u8]) -> Result<Answered, Refused> {
    spelled!(
        alloc,
        x = read_whole::<Items<u32>>(alloc, bytes)?,
        "list{}",
        Numbers(x.all())
    )
}

fn name(alloc: Global, bytes: &[u8]) -> Result<Answered, Refused> {
    spelled!(alloc, x = read_whole::<EntityName>(alloc, bytes)?, "{x}")
}

fn entity_type(alloc: Global, bytes: &[u8]) -> Result<Answered, Refused> {
    spelled!(alloc, x = read_whole::<EntityType>(alloc, bytes)?, "{x}")
}

fn flag(alloc: Global, bytes: &[u8]) -> Result<Answered, Refused> {
    spelled!(alloc, x = read_whole::<bool>(alloc, bytes)?, "{x}")
}

fn time(alloc: Global, bytes: &[u8]) -> Result<Answered, Refused> {
    spelled!(
        alloc,
        x = read_whole::<Time>(alloc, bytes)?,
        "secs {} nanos {}",
        x.secs,
        x.nanos
    )
}

fn key(alloc: Global, bytes: &[u8]) -> Result<Answered, Refused> {
    spelled!(
        alloc,
        x = read_whole::<Key>(alloc, bytes)?,
        "secs {} nanos {} secret {}",
        x.created.secs,
        x.created.nanos,
        Hex(&x.secret)
    )
}

fn ticket(alloc: Global, bytes: &[u8]) -> Result<Answered, Refused> {
    let x = read_whole::<TicketBlob>(alloc, bytes)?;
    fits_blob_field(&x.blob)?;
    spelled!(alloc, x = x, "{}", Ticket(&x))
}

fn addr(alloc: Global, bytes: &[u8]) -> Result<Answered, Refused> {
    spelled!(
        alloc,
        x = read_whole::<Addr>(alloc, bytes)?,
        "{}",
        ShownAddr(&x)
    )
}
