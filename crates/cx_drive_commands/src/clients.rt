//! The command that runs a client.

ghost use Rattle.std.specs.Prelude.{◌≡◌, ◌<◌, [], ◌++◌, map, vec_len, IfErr, IfOk, MatchResult, OnOk};
ghost use Rattle.std.specs.List.{flat_map};
ghost use Rattle.cx_base.specs.Streams.{Rose};
ghost use Rattle.cx_base.specs.declared.kinds.EntityType.TheVariants as entity_type;
ghost use Rattle.cx_drive.specs.Held.{lost_client, regard_client};
ghost use Rattle.cx_command_line.specs.Commands.{asked_client};
ghost use Rattle.cx_command_line.specs.Words.{peer};
ghost use Rattle.cx_drive_commands.specs.nodes.Clients.{ClientEnds, IsClientReady, at_peer, client_peers, client_with, daemons_of, names_of};
ghost use Rattle.cx_drive_commands.specs.nodes.Named.{IsNamedReason, IsNamedRefusal, IsNamedServed};
ghost use Rattle.cx_drive_commands.specs.nodes.Outside.{outside};
ghost use Rattle.cx_drive_commands.specs.nodes.Runs.{HasCause, IsFaultless, IsRefusedFor, IsServed, Runs};
ghost use Rattle.cx_enc.specs.Names.{name_seen};
ghost use Rattle.cx_loading.specs.Loading.{IsOrMemory};
ghost use Rattle.cx_loading.specs.declared.ends.NodeEnd.{NodeEnd};
ghost use Rattle.cx_loading.specs.declared.unloaded.Unloaded.{Unloaded};
ghost use Rattle.cx_rules_session.specs.Forgets.{WholeClientStandsFor};
ghost use Rattle.cx_rules_session.specs.ClientRule.{is_idle, whole_client_rule};

use crate::ends::NodeReport;
use crate::hosting::{Ready, room, runs};
use crate::kits::{Kit, named};
use cx_base::{Addr, Duplicate, EntityName, Items};
use cx_command_line::{ClientCommand, peer};
use cx_dice::Dice;
use cx_drive::{Client, DaemonAt, Peers};
use cx_enc::Key;
use cx_holdings::OfferedModes;
use cx_journal::Journal;
use cx_keep::Keeper;
use cx_loading::{NodeEnd, Unloaded};
use cx_outside::{Clock, Links};
use cx_rules_session::client_forgetting_laws;
use std::alloc::{AllocError, Global};

/// Runs a client: it reads its script, loads its key, and is driven until so many events came or the script says that it ends. What it sends and
/// enters is what its written rule gives.
pub fn run_client<K: Keeper, L: Links, C: Clock, D: Dice>(
    alloc: Global,
    command: &ClientCommand<'_>,
    bytes: &[u8],
    keeper: &mut K,
    links: &mut L,
    clock: &mut C,
    dice: &mut D,
) -> NodeReport
    requires { command.now.name.kind ≡ entity_type.Client }
    // What it ran from, and the run of its rule behind what was told; or why it didn't run.
    ensures ends { ClientEnds L.follows (asked_client command.now) bytes.now
        (outside (K.kept keeper.old) (K.faults keeper.old) links.old (L.faults links.old) (L.misses links.old) (C.coming clock.old) (D.coming dice.old) (D.faults dice.old))
        (outside (K.kept keeper.new) (K.faults keeper.new) links.new (L.faults links.new) (L.misses links.new) (C.coming clock.new) (D.coming dice.new) (D.faults dice.new))
        result.end result.journal }
    // What failed is counted.
    ensures cause { HasCause
        (outside (K.kept keeper.old) (K.faults keeper.old) links.old (L.faults links.old) (L.misses links.old) (C.coming clock.old) (D.coming dice.old) (D.faults dice.old))
        (outside (K.kept keeper.new) (K.faults keeper.new) links.new (L.faults links.new) (L.misses links.new) (C.coming clock.new) (D.coming dice.new) (D.faults dice.new))
        result.end }
    // Where all that it needs is there, and no count of faults rose, it runs to its end, or memory is wanting.
    ensures complete { IsNamedServed (name_seen command.now.name) (client_peers (asked_client command.now)) bytes.now (K.kept keeper.old) → IsFaultless
        (outside (K.kept keeper.old) (K.faults keeper.old) links.old (L.faults links.old) (L.misses links.old) (C.coming clock.old) (D.coming dice.old) (D.faults dice.old))
        (outside (K.kept keeper.new) (K.faults keeper.new) links.new (L.faults links.new) (L.misses links.new) (C.coming clock.new) (D.coming dice.new) (D.faults dice.new))
        → IsServed result.end }
    // Where its script is none, or else its key, it doesn't run for that, or memory is wanting.
    ensures exact { (why : Unloaded) → IsNamedReason (name_seen command.now.name) (client_peers (asked_client command.now)) bytes.now (K.kept keeper.old) why
        → ¬ Rose (K.faults keeper.old) (K.faults keeper.new) → IsRefusedFor why result.end }
    // Where it didn't run, nothing was done but to load.
    ensures untouched { (why : Unloaded) → result.end ≡ NodeEnd.Unloaded why
        → (K.kept keeper.new ≡ K.kept keeper.old) × (links.new ≡ links.old) × (clock.new ≡ clock.old) × (dice.new ≡ dice.old) }
{
    let mut journal = Journal::new(alloc);
    let end = match loads(alloc, command, bytes, keeper) {
        Ok(ready) => serves(alloc, ready, keeper, links, clock, dice, &mut journal),
        Err(why) => NodeEnd::Unloaded(why),
    };
    NodeReport { end, journal }
}

// What the client begins with.
fn loads<K: Keeper>(
    alloc: Global,
    command: &ClientCommand<'_>,
    bytes: &[u8],
    keeper: &mut K,
) -> Result<Ready<Client>, Unloaded>
    requires { command.now.name.kind ≡ entity_type.Client }
    ensures ok { IfOk result (IsClientReady (asked_client command.now) bytes.now (K.kept keeper.old)) }
    ensures err { IfErr result (IsNamedRefusal (name_seen command.now.name) (client_peers (asked_client command.now)) bytes.now (K.kept keeper.old) (K.faults keeper.old) (K.faults keeper.new)) }
    ensures only { IsNamedServed (name_seen command.now.name) (client_peers (asked_client command.now)) bytes.now (K.kept keeper.old) → ¬ Rose (K.faults keeper.old) (K.faults keeper.new)
        → IfErr result (λ why. why ≡ Unloaded.OutOfMemory) }
    ensures exact { (why : Unloaded) → IsNamedReason (name_seen command.now.name) (client_peers (asked_client command.now)) bytes.now (K.kept keeper.old) why → ¬ Rose (K.faults keeper.old) (K.faults keeper.new)
        → MatchResult result (λ _. ⊥) (IsOrMemory why) }
    ensures same { K.kept keeper.new ≡ K.kept keeper.old }
    ensures count { OnOk result (K.faults keeper.new ≡ K.faults keeper.old) }
{
    let name = command.name.own(alloc)?;
    let daemons = daemons_of(alloc, command.peers)?;
    let peers = names_of(alloc, daemons.all())?;
    let Kit { orders, key } = named(alloc, &name, peers.all(), bytes, keeper)?;
    let room = room(alloc)?;
    let peers = Peers {
        monitor: Some(command.monitor),
        daemons,
    };
    Ok(Ready {
        node: client_with(alloc, name, key),
        peers,
        orders,
        events: command.events,
        room,
    })
}

// A client that offers both modes, the CRC one first. It has no address of its own, since it doesn't listen.
fn client_with(alloc: Global, name: EntityName, key: Key) -> Client
    requires { name.kind ≡ entity_type.Client }
    ensures value { result ≡ client_with name key }
    ensures stands { WholeClientStandsFor result (client_with name key) }
{
    let modes = OfferedModes {
        crc: true,
        secure: true,
    };
    let me = Addr {
        nonce: 0,
        ip: [0, 0, 0, 0],
        port: 0,
    };
    Client::new(alloc, name, key, modes, me)
}

// The daemons that the words spell, with their addresses.
fn daemons_of(alloc: Global, words: &[&str]) -> Result<Items<DaemonAt>, AllocError>
    ensures { IfOk result (λ daemons. daemons ≡ daemons_of (map (λ w. w.now) words.now)) }
{
    daemons_seen(alloc, words)
}

fn daemons_seen(alloc: Global, words: &[&str]) -> Result<Items<DaemonAt>, AllocError>
    ensures { IfOk result (λ daemons. daemons ≡ flat_map (λ w. at_peer (peer w.now)) words.now) }
{
    let mut daemons = Items::new(alloc);
    for word in words {
        push_peer(alloc, word, &mut daemons)?;
    }
    Ok(daemons)
}

fn push_peer(alloc: Global, word: &str, into: &mut Items<DaemonAt>) -> Result<(), AllocError>
    ensures { OnOk result (into.new ≡ into.old ++ at_peer (peer word.now)) }
{
    let Some((name, at)) = peer(word) else {
        return Ok(());
    };
    let name = name.own(alloc)?;
    into.push(alloc, DaemonAt { name, at })
}

fn names_of(alloc: Global, daemons: &[DaemonAt]) -> Result<Items<EntityName>, AllocError>
    ensures { IfOk result (λ names. names ≡ names_of daemons.now) }
{
    let mut names = Items::new(alloc);
    for daemon in daemons {
        let name = daemon.name.copy(alloc)?;
        names.push(alloc, name)?;
    }
    Ok(names)
}

// It runs as its rule has it.
fn serves<K: Keeper, L: Links, C: Clock, D: Dice>(
    alloc: Global,
    ready: Ready<Client>,
    keeper: &mut K,
    links: &mut L,
    clock: &mut C,
    dice: &mut D,
    journal: &mut Journal,
) -> NodeEnd
    requires room { 0 < vec_len ready.room }
    requires stands { WholeClientStandsFor ready.node ready.node }
    requires empty { journal.old ≡ [] }
    ensures ran { Runs L.follows whole_client_rule lost_client is_idle regard_client ready.peers []
        (outside (K.kept keeper.old) (K.faults keeper.old) links.old (L.faults links.old) (L.misses links.old) (C.coming clock.old) (D.coming dice.old) (D.faults dice.old))
        (outside (K.kept keeper.new) (K.faults keeper.new) links.new (L.faults links.new) (L.misses links.new) (C.coming clock.new) (D.coming dice.new) (D.faults dice.new))
        ready.node ready.orders ready.events result journal.new }
    ensures cause { HasCause
        (outside (K.kept keeper.old) (K.faults keeper.old) links.old (L.faults links.old) (L.misses links.old) (C.coming clock.old) (D.coming dice.old) (D.faults dice.old))
        (outside (K.kept keeper.new) (K.faults keeper.new) links.new (L.faults links.new) (L.misses links.new) (C.coming clock.new) (D.coming dice.new) (D.faults dice.new))
        result }
{
    client_forgetting_laws();
    runs(alloc, ready, keeper, links, clock, dice, journal)
}
