//! What the lines of a script tell a node.

ghost use Rattle.std.specs.Prelude.{◌≡◌, map, sum_by, IfOk};
ghost use Rattle.cx_drive_commands.specs.nodes.Orders.{command_told, order_of};
ghost use Rattle.cx_enc.specs.Values.{number_of};

use cx_base::{Duplicate, EntityName, EntityType, Items, Operation};
use cx_drive::{Order, Told};
use cx_enc::number_of;
use cx_lines::LineCommand;
use cx_schedule::{NodeLine, NodeScript};
use cx_steps::Command;
use std::alloc::{AllocError, Global};

/// The orders that a script says, one a line. Where the sum of a line's services is above the numbers of 32 bits, memory counts as wanting.
pub fn orders(alloc: Global, script: &NodeScript) -> Result<Items<Order>, AllocError>
    ensures { IfOk result (λ orders. orders ≡ map order_of script.now) }
{
    orders_of(alloc, script.lines())
}

fn orders_of(alloc: Global, lines: &[NodeLine]) -> Result<Items<Order>, AllocError>
    ensures { IfOk result (λ orders. orders ≡ map order_of lines.now) }
{
    let mut orders = Items::new(alloc);
    for line in lines {
        orders.push(alloc, order_of(alloc, line)?)?;
    }
    Ok(orders)
}

fn order_of(alloc: Global, line: &NodeLine) -> Result<Order, AllocError>
    ensures { IfOk result (λ order. order ≡ order_of line.now) }
{
    match line {
        NodeLine::Submit(command) => submit(command_told(alloc, command)?),
        NodeLine::DropSession(_, session) => submit(Command::Drop(*session)),
        NodeLine::Gone(links) => Ok(Order::Gone(*links)),
        NodeLine::Stop => Ok(Order::Stop),
    }
}

// That the node is told to do this. An operation that can't be written counts as memory wanting; no line of a script has one.
fn submit(command: Command) -> Result<Order, AllocError>
    ensures { IfOk result (λ order. order ≡ Order.Submit command) }
{
    match Told::of(command) {
        Some(told) => Ok(Order::Submit(told)),
        None => Err(AllocError),
    }
}

// What the node is told to do.
fn command_told(alloc: Global, command: &LineCommand) -> Result<Command, AllocError>
    ensures { IfOk result (λ told. told ≡ command_told command.now) }
{
    match command {
        LineCommand::Fetch(_) => Ok(Command::Fetch),
        LineCommand::Login(_, services) => Ok(Command::Login(services_sum(services.all())?)),
        LineCommand::Renew(_, services) => Ok(Command::Renew(services_sum(services.all())?)),
        LineCommand::Connect(_, daemon, lossy) => connect_told(alloc, daemon, *lossy),
        LineCommand::Send(_, daemon, operation) => send_told(alloc, daemon, operation),
    }
}

fn connect_told(alloc: Global, daemon: &EntityName, lossy: bool) -> Result<Command, AllocError>
    ensures { IfOk result (λ told. told ≡ Command.Connect daemon.now lossy) }
{
    let daemon = daemon.copy(alloc)?;
    Ok(Command::Connect { daemon, lossy })
}

fn send_told(
    alloc: Global,
    daemon: &EntityName,
    operation: &Operation,
) -> Result<Command, AllocError>
    ensures { IfOk result (λ told. told ≡ Command.Send daemon.now operation.now) }
{
    let daemon = daemon.copy(alloc)?;
    let operation = operation.copy(alloc)?;
    Ok(Command::Send { daemon, operation })
}

// The sum of services, by the numbers of their types.
fn services_sum(services: &[EntityType]) -> Result<u32, AllocError>
    ensures { IfOk result (λ sum. sum ≡ sum_by number_of services.now) }
{
    let mut sum: u32 = 0;
    for service in services {
        match sum.checked_add(number_of(*service)) {
            Some(more) => sum = more,
            None => return Err(AllocError),
        }
    }
    Ok(sum)
}
