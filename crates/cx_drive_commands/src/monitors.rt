//! The command that runs the monitor.

ghost use Rattle.std.specs.Prelude.{◌≡◌, ◌<◌, ◌⊎◌, [], vec_len, Some, IfErr, IfOk, MatchResult, OnOk};
ghost use Rattle.cx_base.specs.Streams.{Rose};
ghost use Rattle.cx_drive_commands.specs.nodes.Monitors.{HasNoState, HasServer, IsMonitorCommand, IsMonitorReady, IsMonitorReason, IsMonitorServed, IsMonitorRefusal, IsServerRefusal, MonitorEnds, lives_of};
ghost use Rattle.cx_drive_commands.specs.nodes.Outside.{outside};
ghost use Rattle.cx_drive_commands.specs.nodes.Stops.{IsStopped};
ghost use Rattle.cx_keep.specs.Slots.{Kept};
ghost use Rattle.cx_drive_commands.specs.nodes.Runs.{HasCause, IsFaultless, IsRefusedFor, IsServed, IsStateless, IsStatelessCause, Listens};
ghost use Rattle.cx_drive.specs.Held.{lost_monitor, no_peers, regard_monitor};
ghost use Rattle.cx_loading.specs.Loading.{IsOrMemory, TellsNoState, TellsRing, TellsRingReason, TellsState};
ghost use Rattle.cx_rules.specs.Abridged.{MonitorStandsFor};
ghost use Rattle.cx_rules.specs.MonitorRule.{is_idle, monitor_rule};
ghost use Rattle.cx_loading.specs.declared.ends.NodeEnd.{NodeEnd};
ghost use Rattle.cx_loading.specs.declared.unloaded.Unloaded.{Unloaded};

use crate::ends::{NodeReport, end_of};
use crate::hosting::{Ready, listens, nanos, room};
use crate::orders::orders;
use cx_base::Items;
use cx_command_line::MonitorCommand;
use cx_dice::Dice;
use cx_drive::{Monitor, Peers};
use cx_journal::Journal;
use cx_keep::Keeper;
use cx_keyserver::KeyServer;
use cx_loading::{NodeEnd, Unloaded, ring_of, script_of, state_of};
use cx_outside::{Clock, Links};
use cx_rules::forgetting_laws;
use std::alloc::Global;

/// Runs the monitor: it reads its script, loads its keyring and its state, listens, and is driven until so many events came or the script says that
/// it ends. What it sends, saves and enters is what its written rule gives.
pub fn run_monitor<K: Keeper, L: Links, C: Clock, D: Dice>(
    alloc: Global,
    command: &MonitorCommand,
    bytes: &[u8],
    keeper: &mut K,
    links: &mut L,
    clock: &mut C,
    dice: &mut D,
) -> NodeReport
    requires { IsMonitorCommand command.now }
    // What it ran from, and the run of its rule behind what was told; or why it didn't run.
    ensures ends { MonitorEnds L.follows command.now bytes.now
        (outside (K.kept keeper.old) (K.faults keeper.old) links.old (L.faults links.old) (L.misses links.old) (C.coming clock.old) (D.coming dice.old) (D.faults dice.old))
        (outside (K.kept keeper.new) (K.faults keeper.new) links.new (L.faults links.new) (L.misses links.new) (C.coming clock.new) (D.coming dice.new) (D.faults dice.new))
        result.end result.journal }
    // What failed is counted.
    ensures cause { HasCause
        (outside (K.kept keeper.old) (K.faults keeper.old) links.old (L.faults links.old) (L.misses links.old) (C.coming clock.old) (D.coming dice.old) (D.faults dice.old))
        (outside (K.kept keeper.new) (K.faults keeper.new) links.new (L.faults links.new) (L.misses links.new) (C.coming clock.new) (D.coming dice.new) (D.faults dice.new))
        result.end }
    // Where all that it needs is there, and no count of faults rose, it runs to its end, or memory is wanting.
    ensures complete { IsMonitorServed command.now bytes.now (K.kept keeper.old) → IsFaultless
        (outside (K.kept keeper.old) (K.faults keeper.old) links.old (L.faults links.old) (L.misses links.old) (C.coming clock.old) (D.coming dice.old) (D.faults dice.old))
        (outside (K.kept keeper.new) (K.faults keeper.new) links.new (L.faults links.new) (L.misses links.new) (C.coming clock.new) (D.coming dice.new) (D.faults dice.new))
        → IsServed result.end }
    // Where its script is none, or else its keyring, or else its state, it doesn't run for that, or memory is wanting.
    ensures exact { (why : Unloaded) → IsMonitorReason command.now bytes.now (K.kept keeper.old) why → ¬ Rose (K.faults keeper.old) (K.faults keeper.new)
        → IsRefusedFor why result.end }
    ensures stateless { HasNoState command.now bytes.now (K.kept keeper.old) → ¬ Rose (K.faults keeper.old) (K.faults keeper.new) → IsStateless result.end }
    // Where a save failed, nothing of its step was done but that, and what is kept spells the state that was saved last, or the one of that step.
    ensures stopped { (kept : Kept) → K.kept keeper.old ≡ Some kept → result.end ≡ NodeEnd.Keeper → IsStopped L.follows command.now bytes.now
        (outside (K.kept keeper.old) (K.faults keeper.old) links.old (L.faults links.old) (L.misses links.old) (C.coming clock.old) (D.coming dice.old) (D.faults dice.old))
        (outside (K.kept keeper.new) (K.faults keeper.new) links.new (L.faults links.new) (L.misses links.new) (C.coming clock.new) (D.coming dice.new) (D.faults dice.new))
        kept result.journal }
    // Where it didn't run, nothing was done but to load.
    ensures untouched { (why : Unloaded) → result.end ≡ NodeEnd.Unloaded why
        → (K.kept keeper.new ≡ K.kept keeper.old) × (links.new ≡ links.old) × (clock.new ≡ clock.old) × (dice.new ≡ dice.old) }
{
    let mut journal = Journal::new(alloc);
    let end = match loads(alloc, command, bytes, keeper) {
        Ok(ready) => serves(
            alloc,
            command,
            ready,
            keeper,
            links,
            clock,
            dice,
            &mut journal,
        ),
        Err(why) => NodeEnd::Unloaded(why),
    };
    NodeReport { end, journal }
}

// What the monitor begins with.
fn loads<K: Keeper>(
    alloc: Global,
    command: &MonitorCommand,
    bytes: &[u8],
    keeper: &mut K,
) -> Result<Ready<Monitor>, Unloaded>
    requires { IsMonitorCommand command.now }
    ensures ok { IfOk result (IsMonitorReady command.now bytes.now (K.kept keeper.old)) }
    ensures err { IfErr result (IsMonitorRefusal command.now bytes.now (K.kept keeper.old) (K.faults keeper.old) (K.faults keeper.new)) }
    ensures only { IsMonitorServed command.now bytes.now (K.kept keeper.old) → ¬ Rose (K.faults keeper.old) (K.faults keeper.new)
        → IfErr result (λ why. why ≡ Unloaded.OutOfMemory) }
    ensures exact { (why : Unloaded) → IsMonitorReason command.now bytes.now (K.kept keeper.old) why → ¬ Rose (K.faults keeper.old) (K.faults keeper.new)
        → MatchResult result (λ _. ⊥) (IsOrMemory why) }
    ensures stateless { HasNoState command.now bytes.now (K.kept keeper.old) → ¬ Rose (K.faults keeper.old) (K.faults keeper.new)
        → MatchResult result (λ _. ⊥) IsStatelessCause }
    ensures none { HasNoState command.now bytes.now (K.kept keeper.old) → IfOk result (λ _. ⊥) }
    ensures same { K.kept keeper.new ≡ K.kept keeper.old }
    ensures count { OnOk result (K.faults keeper.new ≡ K.faults keeper.old) }
{
    let script = script_of(alloc, bytes, None, &[])?;
    let server = server_of(alloc, command, keeper)?;
    let orders = orders(alloc, &script)?;
    let room = room(alloc)?;
    Ok(Ready {
        node: Monitor::new(alloc, server, command.listen),
        peers: no_peers(alloc),
        orders,
        events: command.events,
        room,
    })
}

// The key server of what is kept.
fn server_of<K: Keeper>(
    alloc: Global,
    command: &MonitorCommand,
    keeper: &mut K,
) -> Result<KeyServer, Unloaded>
    requires { IsMonitorCommand command.now }
    ensures ok { IfOk result (HasServer command.now (K.kept keeper.old)) }
    ensures err { IfErr result (IsServerRefusal command.now (K.kept keeper.old) (K.faults keeper.old) (K.faults keeper.new)) }
    ensures only { TellsRing (K.kept keeper.old) → TellsState (lives_of command.now) (K.kept keeper.old) → ¬ Rose (K.faults keeper.old) (K.faults keeper.new)
        → IfErr result (λ why. why ≡ Unloaded.OutOfMemory) }
    ensures exact { (why : Unloaded) → TellsRingReason (K.kept keeper.old) why → ¬ Rose (K.faults keeper.old) (K.faults keeper.new)
        → MatchResult result (λ _. ⊥) (IsOrMemory why) }
    ensures stateless { TellsRing (K.kept keeper.old) → TellsNoState (lives_of command.now) (K.kept keeper.old) → ¬ Rose (K.faults keeper.old) (K.faults keeper.new)
        → MatchResult result (λ _. ⊥) IsStatelessCause }
    ensures none { TellsNoState (lives_of command.now) (K.kept keeper.old) → IfOk result (λ _. ⊥) }
    ensures same { K.kept keeper.new ≡ K.kept keeper.old }
    ensures count { OnOk result (K.faults keeper.new ≡ K.faults keeper.old) }
{
    let ring = ring_of(alloc, keeper)?;
    let state = state_of(alloc, keeper, nanos(command.life), nanos(command.auth_life))?;
    Ok(KeyServer::new(ring, state))
}

// It listens, and runs as its rule has it.
fn serves<K: Keeper, L: Links, C: Clock, D: Dice>(
    alloc: Global,
    command: &MonitorCommand,
    ready: Ready<Monitor>,
    keeper: &mut K,
    links: &mut L,
    clock: &mut C,
    dice: &mut D,
    journal: &mut Journal,
) -> NodeEnd
    requires room { 0 < vec_len ready.room }
    requires stands { MonitorStandsFor ready.node ready.node }
    requires empty { journal.old ≡ [] }
    ensures ran { Listens L.follows monitor_rule lost_monitor is_idle regard_monitor ready.peers command.now.listen
        (outside (K.kept keeper.old) (K.faults keeper.old) links.old (L.faults links.old) (L.misses links.old) (C.coming clock.old) (D.coming dice.old) (D.faults dice.old))
        (outside (K.kept keeper.new) (K.faults keeper.new) links.new (L.faults links.new) (L.misses links.new) (C.coming clock.new) (D.coming dice.new) (D.faults dice.new))
        ready.node ready.orders ready.events result journal.new }
    ensures cause { HasCause
        (outside (K.kept keeper.old) (K.faults keeper.old) links.old (L.faults links.old) (L.misses links.old) (C.coming clock.old) (D.coming dice.old) (D.faults dice.old))
        (outside (K.kept keeper.new) (K.faults keeper.new) links.new (L.faults links.new) (L.misses links.new) (C.coming clock.new) (D.coming dice.new) (D.faults dice.new))
        result }
{
    forgetting_laws();
    listens(
        alloc,
        &command.listen,
        ready,
        keeper,
        links,
        clock,
        dice,
        journal,
    )
}

// It knows no addresses.
fn no_peers(alloc: Global) -> Peers
    ensures { result ≡ no_peers }
{
    Peers {
        monitor: None,
        daemons: Items::new(alloc),
    }
}
