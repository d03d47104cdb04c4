//! A node that is driven over what lies outside of it, in memory.

ghost use Rattle.std.specs.Prelude.{◌≡◌, ◌<◌, length};
ghost use Rattle.std.specs.List.{list_all};
ghost use Rattle.cx_outside.specs.timing.Readings.{is_clock_reading};

use crate::shown::told_run;
use cx_answers_rows::local;
use cx_base::{Blob, Items, Reading};
use cx_dice::SeedDice;
use cx_drive::{Driven, Machine, Order, Peers, drive};
use cx_journal::Journal;
use cx_keep::VecKeeper;
use cx_outside::{Did, Hosted, LinkEvent, ListClock, ScriptLinks, Site, Taped};
use std::alloc::{AllocError, Global};

/// What lies outside of a node: what comes on its links, what its clock reads, the seed of its dice; the numbers of the calls of each that
/// fail; and what the node is told.
#[derive(Drop)]
pub struct Outside {
    pub events: Items<LinkEvent>,
    pub bytes: Blob,
    pub readings: Items<Reading>,
    pub seed: u64,
    pub orders: Items<Order>,
    pub failing_links: Blob,
    pub failing_dice: Blob,
    pub failing_saves: Blob,
    pub leaves_new: bool,
}

impl Outside {
    pub fn new(alloc: Global) -> Outside {
        Outside {
            events: Items::new(alloc),
            bytes: Blob::new(alloc),
            readings: Items::new(alloc),
            seed: 0,
            orders: Items::new(alloc),
            failing_links: Blob::new(alloc),
            failing_dice: Blob::new(alloc),
            failing_saves: Blob::new(alloc),
            leaves_new: false,
        }
    }
}

/// Links on which this comes, with room for 65,536 bytes in as many calls.
fn links_of(
    alloc: Global,
    events: Items<LinkEvent>,
    bytes: Blob,
    fails: Blob,
) -> Result<ScriptLinks, AllocError> {
    if events.all().len() > 65_536 {
        return Err(AllocError);
    }
    ScriptLinks::new(alloc, events, bytes, 65_536, fails)
}

fn are_clock_readings(readings: &[Reading]) -> bool
    ensures { result ≡ list_all is_clock_reading readings.now }
{
    readings
        .iter()
        .all(|reading| *reading < 4_000_000_000_000_000_000)
}

/// A clock that reads these; none where a clock can't read one of them.
fn clock_of(readings: Items<Reading>) -> Result<ListClock, AllocError> {
    if !are_clock_readings(readings.all()) {
        return Err(AllocError);
    }
    Ok(ListClock::new(readings))
}

/// What was done at a node, how its run ended, and its journal.
#[derive(Drop)]
pub struct Record {
    pub tape: Vec<Did>,
    pub driven: Driven,
    pub journal: Journal,
}

/// Drives the node for so many events, and tells what was done, how the run ended, and the journal.
pub fn drives<M: Machine>(
    alloc: Global,
    node: &mut M,
    outside: Outside,
    events: u64,
) -> Result<String, AllocError> {
    let mut links = links_of(alloc, outside.events, outside.bytes, outside.failing_links)?;
    let mut keeper = VecKeeper::new(
        alloc,
        None,
        None,
        65_536,
        outside.failing_saves,
        outside.leaves_new,
    )?;
    let mut clock = clock_of(outside.readings)?;
    let mut dice = SeedDice::new(outside.seed, outside.failing_dice);
    let hosted = Hosted {
        keeper: &mut keeper,
        links: &mut links,
        clock: &mut clock,
        dice: &mut dice,
    };
    let record = drives_at(alloc, hosted, node, outside.orders.all(), events)?;
    told_run(alloc, &record, links.taken())
}

// Drives the node at a place, with the address of a monitor.
fn drives_at<S: Site + Drop, M: Machine>(
    alloc: Global,
    site: S,
    node: &mut M,
    orders: &[Order],
    events: u64,
) -> Result<Record, AllocError> {
    let mut taped = Taped::new(alloc, site, 65_536)?;
    let peers = Peers {
        monitor: Some(local(0, 6789)),
        daemons: Items::new(alloc),
    };
    let mut journal = Journal::new(alloc);
    let mut buffer = [0; 4096];
    let driven = drive(
        alloc,
        &mut taped,
        node,
        &peers,
        orders,
        events,
        &mut journal,
        &mut buffer,
    );
    Ok(Record {
        tape: Vec::from_slice(alloc, taped.did())?,
        driven,
        journal,
    })
}
