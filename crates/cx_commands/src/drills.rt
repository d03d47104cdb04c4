//! The command that runs the schedule of a drill.

ghost use Rattle.std.specs.Prelude.{◌≤◌};
ghost use Rattle.cx_desk.specs.Held.{handlers_of};
ghost use Rattle.cx_commands.specs.Drills.{DrillEnds, IsDrillCommand};

use cx_base::Sink;
use cx_command_line::DrillCommand;
use cx_desk::Desk;
use cx_top::ProgramEnd;
use std::alloc::Global;

/// `drill`.
pub(crate) fn drill<O: Sink>(
    alloc: Global,
    command: &DrillCommand,
    out: &mut O,
    desk: &Desk,
) -> ProgramEnd
    requires { IsDrillCommand command.now }
    ensures ends { DrillEnds (handlers_of desk.now) command.now (O.taken out.old) (O.taken out.new) (O.faults out.old) (O.faults out.new) out.old out.new result }
    ensures writes { O.faults out.old ≤ O.faults out.new }
{
    cx_top::drill(alloc, command.clients, command.seed, out, desk)
}
