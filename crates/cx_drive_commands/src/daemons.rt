//! The command that runs a daemon.

ghost use Rattle.std.specs.Prelude.{◌≡◌, ◌<◌, true, [], vec_len, IfErr, IfOk, MatchResult, OnOk};
ghost use Rattle.cx_base.specs.Names.{is_daemon_type};
ghost use Rattle.cx_base.specs.Streams.{Rose};
ghost use Rattle.cx_drive_commands.specs.daemon.Daemons.{DaemonEnds, IsDaemonReady, daemon_with, monitor_at};
ghost use Rattle.cx_drive_commands.specs.daemon.Held.{lost_daemon, regard_daemon, rests_daemon};
ghost use Rattle.cx_command_line.specs.Commands.{asked_daemon};
ghost use Rattle.cx_drive_commands.specs.nodes.Named.{IsNamedReason, IsNamedRefusal, IsNamedServed};
ghost use Rattle.cx_drive_commands.specs.nodes.Outside.{outside};
ghost use Rattle.cx_drive_commands.specs.nodes.Runs.{HasCause, IsFaultless, IsRefusedFor, IsServed, Listens};
ghost use Rattle.cx_desk.specs.Held.{handlers_of};
ghost use Rattle.cx_enc.specs.Names.{name_seen};
ghost use Rattle.cx_loading.specs.Loading.{IsOrMemory};
ghost use Rattle.cx_loading.specs.declared.ends.NodeEnd.{NodeEnd};
ghost use Rattle.cx_loading.specs.declared.unloaded.Unloaded.{Unloaded};
ghost use Rattle.cx_rules_session.specs.DaemonRule.{daemon_step};
ghost use Rattle.cx_rules_session.specs.Forgets.{DaemonStandsFor};

use crate::serving::Serving;
use crate::{Kit, NodeReport, Peers, Ready, listens, named, room};
use cx_base::{Addr, EntityName, Items};
use cx_command_line::DaemonCommand;
use cx_daemon::Daemon;
use cx_desk::Desk;
use cx_dice::Dice;
use cx_enc::Key;
use cx_holdings::OfferedModes;
use cx_journal::Journal;
use cx_keep::Keeper;
use cx_loading::{NodeEnd, Unloaded};
use cx_outside::{Clock, Links};
use cx_rules_session::daemon_forgetting_laws;
use std::alloc::Global;

/// Runs a daemon: it reads its script, loads its key, listens, and is driven until so many events came or the script says that it ends. What it sends
/// and enters is what its written rule gives, for the kinds of operations for which the desk has a handler.
pub fn run_daemon<K: Keeper, L: Links, C: Clock, D: Dice>(
    alloc: Global,
    command: &DaemonCommand<'_>,
    desk: &Desk,
    bytes: &[u8],
    keeper: &mut K,
    links: &mut L,
    clock: &mut C,
    dice: &mut D,
) -> NodeReport
    requires { is_daemon_type command.now.name.kind ≡ true }
    // What it ran from, and the run of its rule behind what was told; or why it didn't run.
    ensures ends { DaemonEnds L.follows (handlers_of desk.now) (asked_daemon command.now) bytes.now
        (outside (K.kept keeper.old) (K.faults keeper.old) links.old (L.faults links.old) (L.misses links.old) (C.coming clock.old) (D.coming dice.old) (D.faults dice.old))
        (outside (K.kept keeper.new) (K.faults keeper.new) links.new (L.faults links.new) (L.misses links.new) (C.coming clock.new) (D.coming dice.new) (D.faults dice.new))
        result.end result.journal }
    // What failed is counted.
    ensures cause { HasCause
        (outside (K.kept keeper.old) (K.faults keeper.old) links.old (L.faults links.old) (L.misses links.old) (C.coming clock.old) (D.coming dice.old) (D.faults dice.old))
        (outside (K.kept keeper.new) (K.faults keeper.new) links.new (L.faults links.new) (L.misses links.new) (C.coming clock.new) (D.coming dice.new) (D.faults dice.new))
        result.end }
    // Where all that it needs is there, and no count of faults rose, it runs to its end, or memory is wanting.
    ensures complete { IsNamedServed (name_seen command.now.name) [] bytes.now (K.kept keeper.old) → IsFaultless
        (outside (K.kept keeper.old) (K.faults keeper.old) links.old (L.faults links.old) (L.misses links.old) (C.coming clock.old) (D.coming dice.old) (D.faults dice.old))
        (outside (K.kept keeper.new) (K.faults keeper.new) links.new (L.faults links.new) (L.misses links.new) (C.coming clock.new) (D.coming dice.new) (D.faults dice.new))
        → IsServed result.end }
    // Where its script is none, or else its key, it doesn't run for that, or memory is wanting.
    ensures exact { (why : Unloaded) → IsNamedReason (name_seen command.now.name) [] bytes.now (K.kept keeper.old) why
        → ¬ Rose (K.faults keeper.old) (K.faults keeper.new) → IsRefusedFor why result.end }
    // Where it didn't run, nothing was done but to load.
    ensures untouched { (why : Unloaded) → result.end ≡ NodeEnd.Unloaded why
        → (K.kept keeper.new ≡ K.kept keeper.old) × (links.new ≡ links.old) × (clock.new ≡ clock.old) × (dice.new ≡ dice.old) }
{
    let mut journal = Journal::new(alloc);
    let end = match loads(alloc, command, bytes, keeper) {
        Ok(ready) => serves(
            alloc,
            command,
            desk,
            ready,
            keeper,
            links,
            clock,
            dice,
            &mut journal,
        ),
        Err(why) => NodeEnd::Unloaded(why),
    };
    NodeReport { end, journal }
}

// What the daemon begins with.
fn loads<K: Keeper>(
    alloc: Global,
    command: &DaemonCommand<'_>,
    bytes: &[u8],
    keeper: &mut K,
) -> Result<Ready<Daemon>, Unloaded>
    requires { is_daemon_type command.now.name.kind ≡ true }
    ensures ok { IfOk result (IsDaemonReady (asked_daemon command.now) bytes.now (K.kept keeper.old)) }
    ensures err { IfErr result (IsNamedRefusal (name_seen command.now.name) [] bytes.now (K.kept keeper.old) (K.faults keeper.old) (K.faults keeper.new)) }
    ensures only { IsNamedServed (name_seen command.now.name) [] bytes.now (K.kept keeper.old) → ¬ Rose (K.faults keeper.old) (K.faults keeper.new)
        → IfErr result (λ why. why ≡ Unloaded.OutOfMemory) }
    ensures exact { (why : Unloaded) → IsNamedReason (name_seen command.now.name) [] bytes.now (K.kept keeper.old) why → ¬ Rose (K.faults keeper.old) (K.faults keeper.new)
        → MatchResult result (λ _. ⊥) (IsOrMemory why) }
    ensures same { K.kept keeper.new ≡ K.kept keeper.old }
    ensures count { OnOk result (K.faults keeper.new ≡ K.faults keeper.old) }
{
    let name = command.name.own(alloc)?;
    let Kit { orders, key } = named(alloc, &name, &[], bytes, keeper)?;
    let room = room(alloc)?;
    Ok(Ready {
        node: daemon_with(alloc, name, key, command.listen),
        peers: monitor_at(alloc, command.monitor),
        orders,
        events: command.events,
        room,
    })
}

// A daemon that offers the secure mode alone.
fn daemon_with(alloc: Global, name: EntityName, key: Key, at: Addr) -> Daemon
    requires { is_daemon_type name.kind ≡ true }
    ensures value { result ≡ daemon_with name key at }
    ensures stands { DaemonStandsFor result (daemon_with name key at) }
{
    let modes = OfferedModes {
        crc: false,
        secure: true,
    };
    Daemon::new(alloc, name, key, modes, at)
}

// It knows the monitor alone.
fn monitor_at(alloc: Global, at: Addr) -> Peers
    ensures { result ≡ monitor_at at }
{
    Peers {
        monitor: Some(at),
        daemons: Items::new(alloc),
    }
}

// It listens, and runs by its desk, as its rule has it.
fn serves<K: Keeper, L: Links, C: Clock, D: Dice>(
    alloc: Global,
    command: &DaemonCommand<'_>,
    desk: &Desk,
    ready: Ready<Daemon>,
    keeper: &mut K,
    links: &mut L,
    clock: &mut C,
    dice: &mut D,
    journal: &mut Journal,
) -> NodeEnd
    requires room { 0 < vec_len ready.room }
    requires stands { DaemonStandsFor ready.node ready.node }
    requires empty { journal.old ≡ [] }
    ensures ran { Listens L.follows (daemon_step (handlers_of desk.now)) lost_daemon rests_daemon regard_daemon ready.peers command.now.listen
        (outside (K.kept keeper.old) (K.faults keeper.old) links.old (L.faults links.old) (L.misses links.old) (C.coming clock.old) (D.coming dice.old) (D.faults dice.old))
        (outside (K.kept keeper.new) (K.faults keeper.new) links.new (L.faults links.new) (L.misses links.new) (C.coming clock.new) (D.coming dice.new) (D.faults dice.new))
        ready.node ready.orders ready.events result journal.new }
    ensures cause { HasCause
        (outside (K.kept keeper.old) (K.faults keeper.old) links.old (L.faults links.old) (L.misses links.old) (C.coming clock.old) (D.coming dice.old) (D.faults dice.old))
        (outside (K.kept keeper.new) (K.faults keeper.new) links.new (L.faults links.new) (L.misses links.new) (C.coming clock.new) (D.coming dice.new) (D.faults dice.new))
        result }
{
    daemon_forgetting_laws();
    let Ready {
        node: daemon,
        peers,
        orders,
        events,
        room,
    } = ready;
    let ready = Ready {
        node: Serving { daemon, desk },
        peers,
        orders,
        events,
        room,
    };
    listens(
        alloc,
        &command.listen,
        ready,
        keeper,
        links,
        clock,
        dice,
        journal,
    )
}
