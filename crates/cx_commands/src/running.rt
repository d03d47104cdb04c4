//! The top call.

ghost use Rattle.std.specs.Prelude.{◌≡◌, ◌≤◌, [], ◌∷◌, map, None, Some};
ghost use Rattle.cx_command_line.specs.Commands as asked;
ghost use Rattle.cx_command_line.specs.Commands.{AskedClient, AskedDaemon, spelled};
ghost use Rattle.cx_command_line.specs.declared.commands.DrillCommand.{DrillCommand};
ghost use Rattle.cx_command_line.specs.declared.commands.MonitorCommand.{MonitorCommand};
ghost use Rattle.cx_drive_commands.specs.nodes.Outside.{outside};
ghost use Rattle.cx_desk.specs.Held.{handlers_of};
ghost use Rattle.cx_top.specs.Commands.{command_word};
ghost use Rattle.cx_top.specs.declared.commands.Subcommand.{Subcommand};
ghost use Rattle.cx_commands.specs.Drills.{DrillAnswers};
ghost use Rattle.cx_commands.specs.Lent.{lent, streams};
ghost use Rattle.cx_commands.specs.Misread.{UsageAnswers};
ghost use Rattle.cx_commands.specs.Keys.{KeyAnswers, rolled_from};
ghost use Rattle.cx_commands.specs.NodeRuns.{ClientRun, DaemonRun, MonitorRun};
ghost use Rattle.cx_commands.specs.Nodes.{NodeAnswers};
ghost use Rattle.cx_commands.specs.Texts.{TextAnswers};
ghost use Rattle.cx_help.specs.declared.scripts.NodeKind.TheVariants as kind;

use crate::drills::drill;
use crate::ends::CommandEnd;
use crate::keys::key;
use crate::misread::misread;
use crate::nodes::{client, daemon, monitor};
use crate::texts::text;
use cx_base::{Sink, Source};
use cx_command_line::{Invocation, read};
use cx_desk::Desk;
use cx_dice::Dice;
use cx_keep::Keeper;
use cx_outside::{Clock, Links};
use std::alloc::Global;

/// Does what these words of the command line ask for. `replay`, `keyring` and `audit` read a text from `input` and write another to `out`; `drill` reads nothing,
/// and writes how many entries of five kinds the journal of its schedule has; `key` writes a new key of `dice`; `mon`, `daemon` and `client` read a script from `input`, run a node over `keeper`, `links`, `clock` and `dice`, and write what it entered to `out`. The operations of a
/// schedule, and those that come to a daemon, are served by `desk`.
pub fn run<I: Source, O: Sink, K: Keeper, L: Links, C: Clock, D: Dice>(
    alloc: Global,
    words: &[&str],
    input: &mut I,
    out: &mut O,
    keeper: &mut K,
    links: &mut L,
    clock: &mut C,
    dice: &mut D,
    desk: &Desk,
) -> CommandEnd
    // Words that spell no command, and no others, are wrong, and which of them is told; nothing is done then.
    ensures usage { UsageAnswers
        (streams input.old (I.left input.old) (I.faults input.old) out.old (O.taken out.old) (O.faults out.old))
        (streams input.new (I.left input.new) (I.faults input.new) out.new (O.taken out.new) (O.faults out.new))
        (lent keeper.old links.old clock.old dice.old) (lent keeper.new links.new clock.new dice.new) (map (λ w. w.now) words.now) result }
    // `replay`, `keyring` and `audit`.
    ensures texts { (command : Subcommand) → map (λ w. w.now) words.now ≡ command_word command ∷ []
        → TextAnswers (handlers_of desk.now) command
        (streams input.old (I.left input.old) (I.faults input.old) out.old (O.taken out.old) (O.faults out.old))
        (streams input.new (I.left input.new) (I.faults input.new) out.new (O.taken out.new) (O.faults out.new))
        (lent keeper.old links.old clock.old dice.old) (lent keeper.new links.new clock.new dice.new) result }
    // `drill`.
    ensures drill { (command : DrillCommand) → spelled (map (λ w. w.now) words.now) ≡ Some (asked.Drill command)
        → DrillAnswers (handlers_of desk.now) command
        (streams input.old (I.left input.old) (I.faults input.old) out.old (O.taken out.old) (O.faults out.old))
        (streams input.new (I.left input.new) (I.faults input.new) out.new (O.taken out.new) (O.faults out.new))
        (lent keeper.old links.old clock.old dice.old) (lent keeper.new links.new clock.new dice.new) result }
    // `key`.
    ensures key { spelled (map (λ w. w.now) words.now) ≡ Some asked.Key
        → KeyAnswers (rolled_from (D.coming dice.old) (D.coming dice.new) (D.faults dice.old) (D.faults dice.new))
        (streams input.old (I.left input.old) (I.faults input.old) out.old (O.taken out.old) (O.faults out.old))
        (streams input.new (I.left input.new) (I.faults input.new) out.new (O.taken out.new) (O.faults out.new))
        (lent keeper.old links.old clock.old dice.old) (lent keeper.new links.new clock.new dice.new) result }
    // `mon`.
    ensures mon { (command : MonitorCommand) → spelled (map (λ w. w.now) words.now) ≡ Some (asked.Monitor command)
        → NodeAnswers kind.Monitor None (MonitorRun L.follows (lent keeper.old links.old clock.old dice.old) (lent keeper.new links.new clock.new dice.new)
        (outside (K.kept keeper.old) (K.faults keeper.old) links.old (L.faults links.old) (L.misses links.old) (C.coming clock.old) (D.coming dice.old) (D.faults dice.old))
        (outside (K.kept keeper.new) (K.faults keeper.new) links.new (L.faults links.new) (L.misses links.new) (C.coming clock.new) (D.coming dice.new) (D.faults dice.new))
        command)
        (streams input.old (I.left input.old) (I.faults input.old) out.old (O.taken out.old) (O.faults out.old))
        (streams input.new (I.left input.new) (I.faults input.new) out.new (O.taken out.new) (O.faults out.new))
        (lent keeper.old links.old clock.old dice.old) (lent keeper.new links.new clock.new dice.new) result }
    // `daemon`.
    ensures daemon { (command : AskedDaemon) → spelled (map (λ w. w.now) words.now) ≡ Some (asked.Daemon command)
        → NodeAnswers kind.Daemon (Some command.name) (DaemonRun L.follows (lent keeper.old links.old clock.old dice.old) (lent keeper.new links.new clock.new dice.new)
        (outside (K.kept keeper.old) (K.faults keeper.old) links.old (L.faults links.old) (L.misses links.old) (C.coming clock.old) (D.coming dice.old) (D.faults dice.old))
        (outside (K.kept keeper.new) (K.faults keeper.new) links.new (L.faults links.new) (L.misses links.new) (C.coming clock.new) (D.coming dice.new) (D.faults dice.new))
        (handlers_of desk.now) command)
        (streams input.old (I.left input.old) (I.faults input.old) out.old (O.taken out.old) (O.faults out.old))
        (streams input.new (I.left input.new) (I.faults input.new) out.new (O.taken out.new) (O.faults out.new))
        (lent keeper.old links.old clock.old dice.old) (lent keeper.new links.new clock.new dice.new) result }
    // `client`.
    ensures client { (command : AskedClient) → spelled (map (λ w. w.now) words.now) ≡ Some (asked.Client command)
        → NodeAnswers kind.Client (Some command.name) (ClientRun L.follows (lent keeper.old links.old clock.old dice.old) (lent keeper.new links.new clock.new dice.new)
        (outside (K.kept keeper.old) (K.faults keeper.old) links.old (L.faults links.old) (L.misses links.old) (C.coming clock.old) (D.coming dice.old) (D.faults dice.old))
        (outside (K.kept keeper.new) (K.faults keeper.new) links.new (L.faults links.new) (L.misses links.new) (C.coming clock.new) (D.coming dice.new) (D.faults dice.new))
        command)
        (streams input.old (I.left input.old) (I.faults input.old) out.old (O.taken out.old) (O.faults out.old))
        (streams input.new (I.left input.new) (I.faults input.new) out.new (O.taken out.new) (O.faults out.new))
        (lent keeper.old links.old clock.old dice.old) (lent keeper.new links.new clock.new dice.new) result }
    // No count of faults falls.
    ensures counts { (I.faults input.old ≤ I.faults input.new) × (O.faults out.old ≤ O.faults out.new) }
{
    match read(alloc, words) {
        Ok(invocation) => invoked(
            alloc, invocation, words, input, out, keeper, links, clock, dice, desk,
        ),
        Err(why) => misread(alloc, words, why),
    }
}

// Does what was asked for.
fn invoked<I: Source, O: Sink, K: Keeper, L: Links, C: Clock, D: Dice>(
    alloc: Global,
    invocation: Invocation<'_>,
    words: &[&str],
    input: &mut I,
    out: &mut O,
    keeper: &mut K,
    links: &mut L,
    clock: &mut C,
    dice: &mut D,
    desk: &Desk,
) -> CommandEnd
    requires { spelled (map (λ w. w.now) words.now) ≡ Some (asked.asked invocation) }
    ensures usage { UsageAnswers
        (streams input.old (I.left input.old) (I.faults input.old) out.old (O.taken out.old) (O.faults out.old))
        (streams input.new (I.left input.new) (I.faults input.new) out.new (O.taken out.new) (O.faults out.new))
        (lent keeper.old links.old clock.old dice.old) (lent keeper.new links.new clock.new dice.new) (map (λ w. w.now) words.now) result }
    ensures texts { (command : Subcommand) → map (λ w. w.now) words.now ≡ command_word command ∷ []
        → TextAnswers (handlers_of desk.now) command
        (streams input.old (I.left input.old) (I.faults input.old) out.old (O.taken out.old) (O.faults out.old))
        (streams input.new (I.left input.new) (I.faults input.new) out.new (O.taken out.new) (O.faults out.new))
        (lent keeper.old links.old clock.old dice.old) (lent keeper.new links.new clock.new dice.new) result }
    ensures drill { (command : DrillCommand) → asked.asked invocation.entry ≡ asked.Drill command
        → DrillAnswers (handlers_of desk.now) command
        (streams input.old (I.left input.old) (I.faults input.old) out.old (O.taken out.old) (O.faults out.old))
        (streams input.new (I.left input.new) (I.faults input.new) out.new (O.taken out.new) (O.faults out.new))
        (lent keeper.old links.old clock.old dice.old) (lent keeper.new links.new clock.new dice.new) result }
    ensures key { asked.asked invocation.entry ≡ asked.Key
        → KeyAnswers (rolled_from (D.coming dice.old) (D.coming dice.new) (D.faults dice.old) (D.faults dice.new))
        (streams input.old (I.left input.old) (I.faults input.old) out.old (O.taken out.old) (O.faults out.old))
        (streams input.new (I.left input.new) (I.faults input.new) out.new (O.taken out.new) (O.faults out.new))
        (lent keeper.old links.old clock.old dice.old) (lent keeper.new links.new clock.new dice.new) result }
    ensures mon { (command : MonitorCommand) → asked.asked invocation.entry ≡ asked.Monitor command
        → NodeAnswers kind.Monitor None (MonitorRun L.follows (lent keeper.old links.old clock.old dice.old) (lent keeper.new links.new clock.new dice.new)
        (outside (K.kept keeper.old) (K.faults keeper.old) links.old (L.faults links.old) (L.misses links.old) (C.coming clock.old) (D.coming dice.old) (D.faults dice.old))
        (outside (K.kept keeper.new) (K.faults keeper.new) links.new (L.faults links.new) (L.misses links.new) (C.coming clock.new) (D.coming dice.new) (D.faults dice.new))
        command)
        (streams input.old (I.left input.old) (I.faults input.old) out.old (O.taken out.old) (O.faults out.old))
        (streams input.new (I.left input.new) (I.faults input.new) out.new (O.taken out.new) (O.faults out.new))
        (lent keeper.old links.old clock.old dice.old) (lent keeper.new links.new clock.new dice.new) result }
    ensures daemon { (command : AskedDaemon) → asked.asked invocation.entry ≡ asked.Daemon command
        → NodeAnswers kind.Daemon (Some command.name) (DaemonRun L.follows (lent keeper.old links.old clock.old dice.old) (lent keeper.new links.new clock.new dice.new)
        (outside (K.kept keeper.old) (K.faults keeper.old) links.old (L.faults links.old) (L.misses links.old) (C.coming clock.old) (D.coming dice.old) (D.faults dice.old))
        (outside (K.kept keeper.new) (K.faults keeper.new) links.new (L.faults links.new) (L.misses links.new) (C.coming clock.new) (D.coming dice.new) (D.faults dice.new))
        (handlers_of desk.now) command)
        (streams input.old (I.left input.old) (I.faults input.old) out.old (O.taken out.old) (O.faults out.old))
        (streams input.new (I.left input.new) (I.faults input.new) out.new (O.taken out.new) (O.faults out.new))
        (lent keeper.old links.old clock.old dice.old) (lent keeper.new links.new clock.new dice.new) result }
    ensures client { (command : AskedClient) → asked.asked invocation.entry ≡ asked.Client command
        → NodeAnswers kind.Client (Some command.name) (ClientRun L.follows (lent keeper.old links.old clock.old dice.old) (lent keeper.new links.new clock.new dice.new)
        (outside (K.kept keeper.old) (K.faults keeper.old) links.old (L.faults links.old) (L.misses links.old) (C.coming clock.old) (D.coming dice.old) (D.faults dice.old))
        (outside (K.kept keeper.new) (K.faults keeper.new) links.new (L.faults links.new) (L.misses links.new) (C.coming clock.new) (D.coming dice.new) (D.faults dice.new))
        command)
        (streams input.old (I.left input.old) (I.faults input.old) out.old (O.taken out.old) (O.faults out.old))
        (streams input.new (I.left input.new) (I.faults input.new) out.new (O.taken out.new) (O.faults out.new))
        (lent keeper.old links.old clock.old dice.old) (lent keeper.new links.new clock.new dice.new) result }
    ensures counts { (I.faults input.old ≤ I.faults input.new) × (O.faults out.old ≤ O.faults out.new) }
{
    match invocation {
        Invocation::Replay => CommandEnd::of_text(text(alloc, words, input, out, desk)),
        Invocation::Keyring => CommandEnd::of_text(text(alloc, words, input, out, desk)),
        Invocation::Audit => CommandEnd::of_text(text(alloc, words, input, out, desk)),
        Invocation::Drill(command) => CommandEnd::of_text(drill(alloc, &command, out, desk)),
        Invocation::Key => key(alloc, out, dice),
        Invocation::Monitor(command) => monitor(
            alloc, &command, input, out, keeper, links, clock, dice,
        ),
        Invocation::Daemon(command) => daemon(
            alloc, &command, input, out, keeper, links, clock, dice, desk,
        ),
        Invocation::Client(command) => client(
            alloc, &command, input, out, keeper, links, clock, dice,
        ),
    }
}
