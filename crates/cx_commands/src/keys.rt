//! The command that writes a new key.

ghost use Rattle.std.specs.Prelude.{◌≡◌, ◌≤◌, [], IfOk, string_bytes};
ghost use Rattle.cx_commands.specs.Keys.{IsKeyEnd, key_line, rolled_from};
ghost use Rattle.cx_keyring.specs.Keys.{key_text};

use crate::ends::{CommandEnd, CommandStatus};
use base64::engine::general_purpose::STANDARD;
use cx_base::{EntityType, Sink};
use cx_dice::{Dice, Draw};
use cx_enc::{Key, Time, write_whole};
use cx_loading::NodeEnd;
use cx_top::Status;
use std::alloc::{AllocError, Global};

/// `key`: writes a new key of the next draw, as a keyring takes it, on a line of its own.
pub(crate) fn key<O: Sink, D: Dice>(alloc: Global, out: &mut O, dice: &mut D) -> CommandEnd
    ensures ends { IsKeyEnd (rolled_from (D.coming dice.old) (D.coming dice.new) (D.faults dice.old) (D.faults dice.new))
        (O.taken out.old) (O.taken out.new) (O.faults out.old) (O.faults out.new) out.old out.new result.status }
    ensures told { string_bytes result.told ≡ [] }
    ensures writes { O.faults out.old ≤ O.faults out.new }
{
    let Ok(draw) = dice.block() else {
        return CommandEnd::plain(alloc, CommandStatus::Node(NodeEnd::Dice));
    };
    let Ok(line) = key_line(alloc, &draw) else {
        return CommandEnd::plain(alloc, CommandStatus::Text(Status::OutOfMemory));
    };
    match out.push(line.as_bytes()) {
        Ok(()) => CommandEnd::plain(alloc, CommandStatus::Text(Status::Done)),
        Err(_) => CommandEnd::plain(alloc, CommandStatus::Text(Status::WriteFault)),
    }
}

// The key of a draw, on a line of its own.
fn key_line(alloc: Global, draw: &Draw) -> Result<String, AllocError>
    ensures { IfOk result (λ line. string_bytes line ≡ key_line draw.now.bytes) }
{
    let key = Key {
        created: Time { secs: 0, nanos: 0 },
        secret: draw.session_key(EntityType::Auth),
    };
    let text = key_text(alloc, &key)?;
    format!(in alloc; "{}\n", text)
}

// A key in base64.
fn key_text(alloc: Global, key: &Key) -> Result<String, AllocError>
    ensures { IfOk result (λ text. string_bytes text ≡ key_text key.now) }
{
    let bytes = write_whole(alloc, key)?;
    let text = STANDARD.encode(alloc, bytes.bytes())?;
    Ok(text)
}
