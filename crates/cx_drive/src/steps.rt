//! A step of a node, carried out.

ghost use Rattle.std.specs.Prelude.{◌≡◌, ◌<◌, ◌++◌, length, take, IfOk, IfErr, IfSome, OnOk, OnErr};
ghost use Rattle.cx_client.specs.Machine.{IsWritableInput};
ghost use Rattle.cx_drive.specs.Steps.{effects_of, node_behind};
ghost use Rattle.cx_drive.specs.Stops.{Carried, GivesUp, Performed, Stopped, scene};
ghost use Rattle.cx_rotate.specs.Keeping.{IsKeptState};
ghost use Rattle.cx_client.specs.cx_rules_session.specs.cx_rules.specs.Inputs.{input_of};

use crate::carrying::carry;
use crate::dues::Due;
use crate::machine::Machine;
use crate::peers::Peers;
use crate::regarding::tell;
use crate::stops::Stop;
use cx_base::{Duplicate, Reading};
use cx_dice::Draw;
use cx_journal::{Entry, Journal};
use cx_mon::link_in;
use cx_outside::Site;
use cx_steps::{Effects, Event};
use std::alloc::{AllocError, Global};
use std::collections::VecDeque;

/// What a step comes to: whether memory was wanting in it, and whether a banner or a frame was handled.
#[derive(Clone, Copy, Debug, PartialEq, Eq)]
pub struct Stepped {
    pub short: bool,
    pub turned: bool,
}

/// One step of a node: the dice are rolled and the clock is read, the node takes its step, and that is carried out, saved first; last it is told how
/// the node regards the links that it was on. What is due of it stands behind what was due before. A step for which memory was wanting loses its link, and the run may go on. An operation that is to be
/// sent has to be one that can be written.
pub fn perform<S: Site, M: Machine>(
    alloc: Global,
    site: &mut S,
    node: &mut M,
    peers: &Peers,
    journal: &mut Journal,
    event: Event<'_>,
    dues: &mut VecDeque<Due>,
) -> Result<Stepped, Stop>
    requires { IsWritableInput (input_of event) }
    ensures ok { IfOk result (Performed S.follows M.rule M.lost M.regards peers.now (input_of event.entry)
        (scene site.old node.old journal.old) (scene site.new node.new journal.new) dues.old.items dues.new.items) }
    ensures err { IfErr result (Stopped S.follows M.rule M.lost (input_of event.entry)
        (scene site.old node.old journal.old) (scene site.new node.new journal.new)) }
{
    let Ok(draw) = site.block() else {
        return Err(Stop::Dice);
    };
    let now = site.read();
    let link = link_in(&event);
    let mut out = Effects::new(alloc);
    let short = take_step(alloc, node, event, now, &draw, &mut out);
    match settle(alloc, site, peers, journal, &out, dues) {
        Ok(()) => {
            tell(site, node, link, out.sends.all());
            Ok(Stepped {
                short,
                turned: out.turned,
            })
        }
        Err(stop) => Err(stop),
    }
}

// The node takes its step. Answers whether memory was wanting in it.
fn take_step<M: Machine>(
    alloc: Global,
    node: &mut M,
    event: Event<'_>,
    now: Reading,
    draw: &Draw,
    out: &mut Effects,
) -> bool
    requires reading { now < 4000000000000000000 }
    requires writable { IsWritableInput (input_of event) }
    ensures out { out.new ≡ effects_of M.rule M.lost node.old (input_of event.entry) now draw.now.bytes result }
    ensures node { node.new ≡ node_behind M.rule M.lost node.old (input_of event.entry) now draw.now.bytes result }
    ensures kept { IfSome out.new.save IsKeptState }
{
    match node.step(alloc, event, now, draw, out) {
        Ok(()) => false,
        Err(_) => true,
    }
}

// What a step gives is entered, saved and carried out. Where the run stops in it, nothing of it is entered.
fn settle<S: Site>(
    alloc: Global,
    site: &mut S,
    peers: &Peers,
    journal: &mut Journal,
    out: &Effects,
    dues: &mut VecDeque<Due>,
) -> Result<(), Stop>
    requires { IfSome out.now.save IsKeptState }
    ensures ok { OnOk result (Carried S.follows peers.now out.now site.old site.new dues.old.items dues.new.items) }
    ensures entered { OnOk result (journal.new ≡ journal.old ++ out.now.entries) }
    ensures err { IfErr result (GivesUp S.follows out.now.save site.old site.new) }
    ensures same { OnErr result (journal.new ≡ journal.old) }
{
    let before = journal.all().len();
    let Ok(()) = enter(alloc, journal, out.entries.all()) else {
        journal.truncate(before);
        return Err(Stop::Memory);
    };
    match carry(alloc, site, peers, out, dues) {
        Ok(()) => Ok(()),
        Err(stop) => {
            journal.truncate(before);
            Err(stop)
        }
    }
}

// Puts the entries last in the journal.
fn enter(alloc: Global, journal: &mut Journal, entries: &[Entry]) -> Result<(), AllocError>
    ensures ok { OnOk result (journal.new ≡ journal.old ++ entries.now) }
    ensures begins { take (length journal.old) journal.new ≡ journal.old }
{
    for entry in entries {
        let copy = entry.copy(alloc)?;
        journal.push(alloc, copy)?;
    }
    Ok(())
}
