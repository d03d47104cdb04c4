//! A node that runs over objects that are lent.

ghost use Rattle.std.specs.Prelude.{◌≡◌, ◌*◌, ◌≤◌, ◌<◌, [], length, vec_len, IfOk};
ghost use Rattle.cx_drive_commands.specs.nodes.Outside.{Tells, outside};
ghost use Rattle.cx_drive.specs.Agendas.{opening_agenda};
ghost use Rattle.cx_drive.specs.Courses.{IsNodeRun};
ghost use Rattle.cx_drive_commands.specs.nodes.Runs.{HasCause, Listens, Runs};

use crate::ends::end_of;
use cx_base::{Addr, Items};
use cx_dice::Dice;
use cx_drive::{Driven, Machine, Order, Peers, drive};
use cx_journal::Journal;
use cx_keep::Keeper;
use cx_loading::NodeEnd;
use cx_outside::{Clock, Hosted, Links};
use std::alloc::{AllocError, Global};

// How many bytes come at once on a link.
const ROOM: usize = 65_536;

/// A node that may run: its peers, what it is told, how many events it takes, and room for what comes on its links.
#[derive(Drop)]
pub struct Ready<M> {
    pub node: M,
    pub peers: Peers,
    pub orders: Items<Order>,
    pub events: u64,
    pub room: Vec<u8>,
}

/// It listens there, and runs if it can.
pub fn listens<K: Keeper, L: Links, C: Clock, D: Dice, M: Machine + Drop>(
    alloc: Global,
    at: &Addr,
    ready: Ready<M>,
    keeper: &mut K,
    links: &mut L,
    clock: &mut C,
    dice: &mut D,
    journal: &mut Journal,
) -> NodeEnd
    requires room { 0 < vec_len ready.room }
    requires empty { journal.old ≡ [] }
    ensures ran { Listens L.follows M.rule M.lost M.rests M.regards ready.peers at.now
        (outside (K.kept keeper.old) (K.faults keeper.old) links.old (L.faults links.old) (L.misses links.old) (C.coming clock.old) (D.coming dice.old) (D.faults dice.old))
        (outside (K.kept keeper.new) (K.faults keeper.new) links.new (L.faults links.new) (L.misses links.new) (C.coming clock.new) (D.coming dice.new) (D.faults dice.new))
        ready.node ready.orders ready.events result journal.new }
    ensures cause { HasCause
        (outside (K.kept keeper.old) (K.faults keeper.old) links.old (L.faults links.old) (L.misses links.old) (C.coming clock.old) (D.coming dice.old) (D.faults dice.old))
        (outside (K.kept keeper.new) (K.faults keeper.new) links.new (L.faults links.new) (L.misses links.new) (C.coming clock.new) (D.coming dice.new) (D.faults dice.new))
        result }
{
    match links.listen(at) {
        Ok(()) => runs(alloc, ready, keeper, links, clock, dice, journal),
        Err(_) => NodeEnd::Links,
    }
}

/// It runs.
pub(crate) fn runs<K: Keeper, L: Links, C: Clock, D: Dice, M: Machine + Drop>(
    alloc: Global,
    ready: Ready<M>,
    keeper: &mut K,
    links: &mut L,
    clock: &mut C,
    dice: &mut D,
    journal: &mut Journal,
) -> NodeEnd
    requires room { 0 < vec_len ready.room }
    requires empty { journal.old ≡ [] }
    ensures ran { Runs L.follows M.rule M.lost M.rests M.regards ready.peers []
        (outside (K.kept keeper.old) (K.faults keeper.old) links.old (L.faults links.old) (L.misses links.old) (C.coming clock.old) (D.coming dice.old) (D.faults dice.old))
        (outside (K.kept keeper.new) (K.faults keeper.new) links.new (L.faults links.new) (L.misses links.new) (C.coming clock.new) (D.coming dice.new) (D.faults dice.new))
        ready.node ready.orders ready.events result journal.new }
    ensures cause { HasCause
        (outside (K.kept keeper.old) (K.faults keeper.old) links.old (L.faults links.old) (L.misses links.old) (C.coming clock.old) (D.coming dice.old) (D.faults dice.old))
        (outside (K.kept keeper.new) (K.faults keeper.new) links.new (L.faults links.new) (L.misses links.new) (C.coming clock.new) (D.coming dice.new) (D.faults dice.new))
        result }
{
    let Ready {
        mut node,
        peers,
        orders,
        events,
        mut room,
    } = ready;
    let driven = hosts(
        alloc,
        &mut node,
        &peers,
        orders.all(),
        events,
        room.as_mut_slice(),
        keeper,
        links,
        clock,
        dice,
        journal,
    );
    end_of(driven)
}

// It is driven over these objects.
fn hosts<K: Keeper, L: Links, C: Clock, D: Dice, M: Machine>(
    alloc: Global,
    node: &mut M,
    peers: &Peers,
    orders: &[Order],
    events: u64,
    room: &mut [u8],
    keeper: &mut K,
    links: &mut L,
    clock: &mut C,
    dice: &mut D,
    journal: &mut Journal,
) -> Driven
    requires { 0 < length room.old }
    ensures { IsNodeRun M.rule M.lost M.rests M.regards peers.now (Tells L.follows
        (outside (K.kept keeper.old) (K.faults keeper.old) links.old (L.faults links.old) (L.misses links.old) (C.coming clock.old) (D.coming dice.old) (D.faults dice.old))
        (outside (K.kept keeper.new) (K.faults keeper.new) links.new (L.faults links.new) (L.misses links.new) (C.coming clock.new) (D.coming dice.new) (D.faults dice.new)))
        node.old node.new journal.old journal.new (opening_agenda orders.now events) result }
{
    let mut site = Hosted {
        keeper,
        links,
        clock,
        dice,
    };
    drive(alloc, &mut site, node, peers, orders, events, journal, room)
}

/// Room for what comes on links.
pub fn room(alloc: Global) -> Result<Vec<u8>, AllocError>
    ensures { IfOk result (λ room. 0 < vec_len room) }
{
    vec![in alloc; 0; ROOM]
}

/// So many seconds, in nanoseconds.
pub(crate) fn nanos(seconds: u64) -> u64
    requires { seconds ≤ 31536000 }
    ensures { result ≡ seconds * 1000000000 }
{
    seconds * 1_000_000_000
}
