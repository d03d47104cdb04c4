//! A list of renewals that begins: its writer and its readers.

ghost use Rattle.std.specs.Prelude.{◌≡◌, ◌+◌, ◌<◌, [], IfOk, All, length};

use crate::looks::first_look;
use crate::reader::SecretsReader;
use crate::rule::LookWriter;
use crate::writer::SecretsWriter;
use std::alloc::{AllocError, Global};
use std::sync::Wait;

/// A writer that published nothing, and so many readers. So many of the writer's tellings may be out at a time, which no reader
/// has learned yet. Where memory is wanting the writer is ended again, which waits for no look, since none has begun.
pub fn share<R: Wait>(
    rt: &R,
    alloc: Global,
    readers: u32,
    tells: u32,
) -> Result<(SecretsWriter, Vec<SecretsReader>), AllocError>
    requires some { 0 < readers }
    requires places { readers + tells < 4294967296 }
    ensures writer { IfOk result (λ shared. shared.0 ≡ []) }
    ensures readers { IfOk result (λ shared. (length shared.1.items ≡ readers) × All (λ reader. reader ≡ []) shared.1.items) }
{
    let places = (readers + tells) as usize;
    let writer = LookWriter::new(alloc, first_look(), first_look(), places)?;
    let made = readers_of(alloc, &writer, readers);
    let writer = SecretsWriter::over(writer);
    match made {
        Ok(made) => Ok((writer, made)),
        Err(error) => {
            writer.end(rt);
            Err(error)
        }
    }
}

fn readers_of(
    alloc: Global,
    writer: &LookWriter,
    readers: u32,
) -> Result<Vec<SecretsReader>, AllocError>
    ensures { IfOk result (λ made. (length made.items ≡ readers) × All (λ reader. reader ≡ []) made.items) }
{
    let mut made = Vec::new(alloc);
    for _ in 0..readers {
        made.push(SecretsReader::over(writer.factory().reader()?))?;
    }
    Ok(made)
}
