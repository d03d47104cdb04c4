//! The form of send lines.

ghost use Rattle.std.specs.Prelude.{◌≡◌, ◌∷◌, [], map, is_some, IfOk, IfSome};
ghost use Rattle.cx_words.specs.declared.choices.CommandForm.{CommandForm};
ghost use Rattle.cx_words.specs.lines.Known.{nothing};
ghost use Rattle.cx_words.specs.lines.Places.{are_good};
ghost use Rattle.cx_words.specs.lines.Values.{SpellsItems};
ghost use Rattle.cx_lines.specs.Commands.{operation_items, operation_places, IsCommand};

use crate::commands::LineCommand;
use cx_base::Operation;
use cx_words::{Known, WordPlace, access, client, daemon, operation_data, part};
use std::alloc::{AllocError, Global};

/// The places of a send line.
pub const SEND_PLACES: [WordPlace; 7] = [
    WordPlace::Client,
    WordPlace::Daemon,
    WordPlace::Access,
    WordPlace::Part,
    WordPlace::Part,
    WordPlace::Part,
    WordPlace::Data,
];

/// The words of an operation.
#[derive(Clone, Copy)]
struct Written<'a> {
    access: &'a [u8],
    pool: &'a [u8],
    namespace: &'a [u8],
    object: &'a [u8],
    bytes: &'a [u8],
}

/// The command that these words behind `send` spell.
pub fn send_of(
    alloc: Global,
    known: &Known,
    words: &[&[u8]],
) -> Result<Option<LineCommand>, AllocError>
    ensures { IfOk result (IsCommand known.now [] CommandForm.Send (map (λ w. w.now) words.now)) }
{
    let [from, to, access, pool, namespace, object, bytes] = words else {
        return Ok(None);
    };
    let written = Written {
        access,
        pool,
        namespace,
        object,
        bytes,
    };
    send(alloc, known, from, to, written)
}

fn send(
    alloc: Global,
    known: &Known,
    from: &[u8],
    to: &[u8],
    written: Written,
) -> Result<Option<LineCommand>, AllocError>
    ensures { IfOk result (IsCommand known.now [] CommandForm.Send (from.now ∷ to.now ∷ written.entry.access.now ∷ written.entry.pool.now ∷ written.entry.namespace.now ∷ written.entry.object.now ∷ written.entry.bytes.now ∷ [])) }
{
    let Some(client) = client(alloc, known, from)? else {
        return Ok(None);
    };
    let Some(daemon) = daemon(alloc, known, to)? else {
        return Ok(None);
    };
    let Some(operation) = operation(alloc, written)? else {
        return Ok(None);
    };
    Ok(Some(LineCommand::Send(client, daemon, operation)))
}

/// The operation that the words spell; none where one of them is no value of its place.
fn operation(alloc: Global, written: Written) -> Result<Option<Operation>, AllocError>
    ensures read { IfOk result (λ found. is_some found ≡ are_good nothing [] operation_places (written.entry.access.now ∷ written.entry.pool.now ∷ written.entry.namespace.now ∷ written.entry.object.now ∷ written.entry.bytes.now ∷ [])) }
    ensures spelled { IfOk result (λ found. IfSome found (λ operation. SpellsItems nothing [] (operation_items operation) (written.entry.access.now ∷ written.entry.pool.now ∷ written.entry.namespace.now ∷ written.entry.object.now ∷ written.entry.bytes.now ∷ []))) }
{
    let Some(access) = access(written.access) else {
        return Ok(None);
    };
    let Some(pool) = part(alloc, written.pool)? else {
        return Ok(None);
    };
    let Some(namespace) = part(alloc, written.namespace)? else {
        return Ok(None);
    };
    let Some(object) = part(alloc, written.object)? else {
        return Ok(None);
    };
    let Some(bytes) = operation_data(alloc, written.bytes)? else {
        return Ok(None);
    };
    Ok(Some(Operation {
        access,
        pool,
        namespace,
        object,
        bytes,
    }))
}
