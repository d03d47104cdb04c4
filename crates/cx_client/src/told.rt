//! What may come to a client: an operation that is to be sent can be written.

ghost use Rattle.std.specs.Prelude.{IsTrue};
ghost use Rattle.cx_node.specs.cx_rules.specs.Inputs.{input_of};
ghost use Rattle.cx_node.specs.cx_wire.specs.Operations.{IsWritable};
ghost use Rattle.cx_client.specs.Machine.{IsWritableCommand, IsWritableInput};

use cx_base::{Operation, is_part};
use cx_steps::{Command, Event};

/// Whether this may come to a client.
pub fn can_come(event: &Event<'_>) -> bool
    ensures writable { IsTrue result → IsWritableInput (input_of event.now) }
    ensures exact { IsWritableInput (input_of event.now) → IsTrue result }
{
    match event {
        Event::Submit(command) => can_be_told(command),
        Event::Opened(_, _) => true,
        Event::NoLink(_) => true,
        Event::Bytes(_, _) => true,
        Event::Turn(_) => true,
        Event::Gone(_) => true,
        Event::Look(_) => true,
        Event::Tick => true,
        Event::Restart => true,
    }
}

/// Whether a client may be told to do this.
pub fn can_be_told(command: &Command) -> bool
    ensures writable { IsTrue result → IsWritableCommand command.now }
    ensures exact { IsWritableCommand command.now → IsTrue result }
{
    match command {
        Command::Send { operation, .. } => can_be_written(operation),
        Command::Login(_) => true,
        Command::Renew(_) => true,
        Command::Fetch => true,
        Command::Connect { .. } => true,
        Command::Drop(_) => true,
    }
}

fn can_be_written(operation: &Operation) -> bool
    ensures writable { IsTrue result → IsWritable operation.now }
    ensures exact { IsWritable operation.now → IsTrue result }
{
    is_part(operation.pool.bytes())
        && is_part(operation.namespace.bytes())
        && is_part(operation.object.bytes())
        && operation.bytes.bytes().len() <= 65_536
}
