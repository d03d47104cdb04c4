//! The commands that run a node: the script is read before it, and what it entered is written behind it.

ghost use Rattle.std.specs.Prelude.{◌≡◌, ◌≤◌, true, IfOk, None, Some, string_bytes};
ghost use Rattle.cx_base.specs.Names.{is_daemon_type};
ghost use Rattle.cx_base.specs.declared.kinds.EntityType.TheVariants as entity_type;
ghost use Rattle.std.specs.Option.{option_map};
ghost use Rattle.cx_drive_commands.specs.nodes.Monitors.{IsMonitorCommand};
ghost use Rattle.cx_drive_commands.specs.nodes.Outside.{outside};
ghost use Rattle.cx_command_line.specs.Commands.{asked_client, asked_daemon};
ghost use Rattle.cx_desk.specs.Held.{handlers_of};
ghost use Rattle.cx_enc.specs.Names.{name_seen};
ghost use Rattle.cx_help.specs.node.Told.{node_told};
ghost use Rattle.cx_commands.specs.Lent.{lent, streams};
ghost use Rattle.cx_commands.specs.NodeRuns.{ClientRun, DaemonRun, MonitorRun};
ghost use Rattle.cx_commands.specs.declared.ends.CommandStatus.{CommandStatus};
ghost use Rattle.cx_commands.specs.Nodes.{IsAnswered, IsNodeTold, NodeAnswers, unwritten};
ghost use Rattle.cx_help.specs.declared.scripts.NodeKind.TheVariants as kind;

use crate::ends::{CommandEnd, CommandStatus};
use cx_base::{Blob, Sink, Source};
use cx_command_line::{ClientCommand, DaemonCommand, MonitorCommand};
use cx_desk::Desk;
use cx_dice::Dice;
use cx_drive_commands::{NodeReport, run_client, run_daemon, run_monitor};
use cx_enc::NameRef;
use cx_help::{NodeKind, node_told};
use cx_journal::put_text;
use cx_keep::Keeper;
use cx_loading::NodeEnd;
use cx_outside::{Clock, Links};
use cx_top::{Status, read_all};
use std::alloc::{AllocError, Global};

/// Runs the monitor.
pub(crate) fn monitor<I: Source, O: Sink, K: Keeper, L: Links, C: Clock, D: Dice>(
    alloc: Global,
    command: &MonitorCommand,
    input: &mut I,
    out: &mut O,
    keeper: &mut K,
    links: &mut L,
    clock: &mut C,
    dice: &mut D,
) -> CommandEnd
    requires { IsMonitorCommand command.now }
    ensures ends { NodeAnswers kind.Monitor None (MonitorRun L.follows (lent keeper.old links.old clock.old dice.old) (lent keeper.new links.new clock.new dice.new)
        (outside (K.kept keeper.old) (K.faults keeper.old) links.old (L.faults links.old) (L.misses links.old) (C.coming clock.old) (D.coming dice.old) (D.faults dice.old))
        (outside (K.kept keeper.new) (K.faults keeper.new) links.new (L.faults links.new) (L.misses links.new) (C.coming clock.new) (D.coming dice.new) (D.faults dice.new))
        command.now)
        (streams input.old (I.left input.old) (I.faults input.old) out.old (O.taken out.old) (O.faults out.old))
        (streams input.new (I.left input.new) (I.faults input.new) out.new (O.taken out.new) (O.faults out.new))
        (lent keeper.old links.old clock.old dice.old) (lent keeper.new links.new clock.new dice.new) result }
    ensures reads { I.faults input.old ≤ I.faults input.new }
    ensures writes { O.faults out.old ≤ O.faults out.new }
{
    let bytes = match read_all(alloc, input) {
        Ok(bytes) => bytes,
        Err(unread) => return CommandEnd::plain(alloc, CommandStatus::Text(Status::from(unread))),
    };
    let script = bytes.bytes();
    let report = run_monitor(alloc, command, script, keeper, links, clock, dice);
    answers(alloc, NodeKind::Monitor, None, script, report, out)
}

/// Runs a client.
pub(crate) fn client<I: Source, O: Sink, K: Keeper, L: Links, C: Clock, D: Dice>(
    alloc: Global,
    command: &ClientCommand<'_>,
    input: &mut I,
    out: &mut O,
    keeper: &mut K,
    links: &mut L,
    clock: &mut C,
    dice: &mut D,
) -> CommandEnd
    requires { command.now.name.kind ≡ entity_type.Client }
    ensures ends { NodeAnswers kind.Client (Some (name_seen command.now.name)) (ClientRun L.follows (lent keeper.old links.old clock.old dice.old) (lent keeper.new links.new clock.new dice.new)
        (outside (K.kept keeper.old) (K.faults keeper.old) links.old (L.faults links.old) (L.misses links.old) (C.coming clock.old) (D.coming dice.old) (D.faults dice.old))
        (outside (K.kept keeper.new) (K.faults keeper.new) links.new (L.faults links.new) (L.misses links.new) (C.coming clock.new) (D.coming dice.new) (D.faults dice.new))
        (asked_client command.now))
        (streams input.old (I.left input.old) (I.faults input.old) out.old (O.taken out.old) (O.faults out.old))
        (streams input.new (I.left input.new) (I.faults input.new) out.new (O.taken out.new) (O.faults out.new))
        (lent keeper.old links.old clock.old dice.old) (lent keeper.new links.new clock.new dice.new) result }
    ensures reads { I.faults input.old ≤ I.faults input.new }
    ensures writes { O.faults out.old ≤ O.faults out.new }
{
    let bytes = match read_all(alloc, input) {
        Ok(bytes) => bytes,
        Err(unread) => return CommandEnd::plain(alloc, CommandStatus::Text(Status::from(unread))),
    };
    let script = bytes.bytes();
    let report = run_client(alloc, command, script, keeper, links, clock, dice);
    let name = Some(command.name);
    answers(alloc, NodeKind::Client, name, script, report, out)
}

/// Runs a daemon, whose operations are served by `desk`.
pub(crate) fn daemon<I: Source, O: Sink, K: Keeper, L: Links, C: Clock, D: Dice>(
    alloc: Global,
    command: &DaemonCommand<'_>,
    input: &mut I,
    out: &mut O,
    keeper: &mut K,
    links: &mut L,
    clock: &mut C,
    dice: &mut D,
    desk: &Desk,
) -> CommandEnd
    requires { is_daemon_type command.now.name.kind ≡ true }
    ensures ends { NodeAnswers kind.Daemon (Some (name_seen command.now.name)) (DaemonRun L.follows (lent keeper.old links.old clock.old dice.old) (lent keeper.new links.new clock.new dice.new)
        (outside (K.kept keeper.old) (K.faults keeper.old) links.old (L.faults links.old) (L.misses links.old) (C.coming clock.old) (D.coming dice.old) (D.faults dice.old))
        (outside (K.kept keeper.new) (K.faults keeper.new) links.new (L.faults links.new) (L.misses links.new) (C.coming clock.new) (D.coming dice.new) (D.faults dice.new))
        (handlers_of desk.now) (asked_daemon command.now))
        (streams input.old (I.left input.old) (I.faults input.old) out.old (O.taken out.old) (O.faults out.old))
        (streams input.new (I.left input.new) (I.faults input.new) out.new (O.taken out.new) (O.faults out.new))
        (lent keeper.old links.old clock.old dice.old) (lent keeper.new links.new clock.new dice.new) result }
    ensures reads { I.faults input.old ≤ I.faults input.new }
    ensures writes { O.faults out.old ≤ O.faults out.new }
{
    let bytes = match read_all(alloc, input) {
        Ok(bytes) => bytes,
        Err(unread) => return CommandEnd::plain(alloc, CommandStatus::Text(Status::from(unread))),
    };
    let script = bytes.bytes();
    let report = run_daemon(alloc, command, desk, script, keeper, links, clock, dice);
    let name = Some(command.name);
    answers(alloc, NodeKind::Daemon, name, script, report, out)
}

// What the node entered is written, and what is to be told of it is told.
fn answers<O: Sink>(
    alloc: Global,
    kind: NodeKind,
    name: Option<NameRef<'_>>,
    script: &[u8],
    report: NodeReport,
    out: &mut O,
) -> CommandEnd
    ensures ends { IsAnswered report.end report.journal (O.taken out.old) (O.taken out.new) (O.faults out.old) (O.faults out.new) out.old out.new result.status }
    ensures told { IsNodeTold kind (option_map name_seen name.entry) script.now report.end result.status (string_bytes result.told) }
    ensures writes { O.faults out.old ≤ O.faults out.new }
{
    let mut text = Blob::new(alloc);
    if put_text(alloc, &report.journal, &mut text).is_err() {
        return CommandEnd::plain(alloc, CommandStatus::Text(Status::OutOfMemory));
    }
    let told = match told_of(alloc, kind, name, script, report.end) {
        Ok(told) => told,
        Err(_) => return CommandEnd::plain(alloc, CommandStatus::Text(Status::OutOfMemory)),
    };
    match out.push(text.bytes()) {
        Ok(()) => CommandEnd {
            status: CommandStatus::Node(report.end),
            told,
        },
        Err(_) => CommandEnd {
            status: unwritten(report.end),
            told,
        },
    }
}

// What is told of its script, or of the section that its keyring lacks.
fn told_of(
    alloc: Global,
    kind: NodeKind,
    name: Option<NameRef<'_>>,
    script: &[u8],
    end: NodeEnd,
) -> Result<String, AllocError>
    ensures { IfOk result (λ told. string_bytes told ≡ node_told kind (option_map name_seen name.entry) script.now end) }
{
    match name {
        Some(name) => {
            let name = name.own(alloc)?;
            node_told(alloc, kind, Some(&name), script, end)
        }
        None => node_told(alloc, kind, None, script, end),
    }
}

// Where the output failed.
fn unwritten(end: NodeEnd) -> CommandStatus
    ensures { result ≡ unwritten end }
{
    match end {
        NodeEnd::Done => CommandStatus::Text(Status::WriteFault),
        end => CommandStatus::Node(end),
    }
}
