//! The loop that drives a node.

ghost use Rattle.std.specs.Prelude.{◌≡◌, ◌<◌, [], None, Some, length, IfOk, IfErr, OnErr};
ghost use Rattle.cx_client.specs.Machine.{IsWritableInput};
ghost use Rattle.cx_drive.specs.Agendas.{after_came, agenda_of, at_quiet, opening_agenda, passed, with_due};
ghost use Rattle.cx_drive.specs.Courses.{RanOn, RanTo, StepsOn};
ghost use Rattle.cx_drive.specs.Stops.{Stopped, scene};
ghost use Rattle.cx_outside.specs.linking.Events.{IsWithin, came};
ghost use Rattle.cx_client.specs.cx_rules_session.specs.cx_rules.specs.Inputs as input;
ghost use Rattle.cx_client.specs.cx_rules_session.specs.cx_rules.specs.Inputs.{input_of};

use crate::ends::{Driven, Ended};
use crate::flow::{Flow, Order, turned_again};
use crate::machine::Machine;
use crate::peers::Peers;
use crate::steps::perform;
use crate::stops::Stop;
use cx_journal::Journal;
use cx_outside::{LinkEvent, Site};
use cx_steps::Event;
use std::alloc::Global;

/// Drives a node for so many events of its links, or until its orders say that it ends. Each step is carried out whole before the next one
/// begins, saved before it is sent. Bytes come through the buffer. Behind a step comes what is due of it, in the order in which it became due,
/// then turns of the link on which bytes came until nothing is left to handle, and only then what comes next on the links. Where nothing comes
/// on them, the node is told the next of its orders, if it waits for nothing, or that some time passed.
pub fn drive<S: Site, M: Machine>(
    alloc: Global,
    site: &mut S,
    node: &mut M,
    peers: &Peers,
    orders: &[Order],
    events: u64,
    journal: &mut Journal,
    buffer: &mut [u8],
) -> Driven
    requires { 0 < length buffer.old }
    ensures { RanTo S.follows M.rule M.lost M.rests M.regards peers.now (scene site.old node.old journal.old) (scene site.new node.new journal.new)
        (opening_agenda orders.now events) result }
{
    let mut flow = Flow::new(alloc, orders, events);
    let ended = run(alloc, site, node, peers, journal, &mut flow, buffer);
    Driven {
        ended,
        short: flow.short,
    }
}

fn run<S: Site, M: Machine>(
    alloc: Global,
    site: &mut S,
    node: &mut M,
    peers: &Peers,
    journal: &mut Journal,
    flow: &mut Flow<'_>,
    buffer: &mut [u8],
) -> Ended
    requires { 0 < length buffer.old }
    ensures { RanOn S.follows M.rule M.lost M.rests M.regards peers.now (scene site.old node.old journal.old) (scene site.new node.new journal.new)
        (agenda_of flow.old) (agenda_of flow.new) (Some result) }
{
    for _ in 0..u64::MAX {
        match go_on(alloc, site, node, peers, journal, flow, buffer) {
            Some(ended) => return ended,
            None => {}
        }
    }
    Ended::Stopped(Stop::Memory)
}

// What is next comes: what is due, else a turn, else what comes on the links. Answers how the run ended, if it did.
fn go_on<S: Site, M: Machine>(
    alloc: Global,
    site: &mut S,
    node: &mut M,
    peers: &Peers,
    journal: &mut Journal,
    flow: &mut Flow<'_>,
    buffer: &mut [u8],
) -> Option<Ended>
    requires { 0 < length buffer.old }
    ensures ran { RanOn S.follows M.rule M.lost M.rests M.regards peers.now (scene site.old node.old journal.old) (scene site.new node.new journal.new)
        (agenda_of flow.old) (agenda_of flow.new) result }
    ensures room { length buffer.new ≡ length buffer.old }
{
    match flow.dues.pop_front() {
        Some(due) => comes(alloc, site, node, peers, journal, flow, due.event()),
        None => match flow.turning {
            Some(link) => turn(alloc, site, node, peers, journal, flow, link),
            None => wait(alloc, site, node, peers, journal, flow, buffer),
        },
    }
}

// An event comes that is due.
fn comes<S: Site, M: Machine>(
    alloc: Global,
    site: &mut S,
    node: &mut M,
    peers: &Peers,
    journal: &mut Journal,
    flow: &mut Flow<'_>,
    event: Event<'_>,
) -> Option<Ended>
    requires { IsWritableInput (input_of event) }
    ensures { RanOn S.follows M.rule M.lost M.rests M.regards peers.now (scene site.old node.old journal.old) (scene site.new node.new journal.new)
        (with_due (input_of event.entry) (agenda_of flow.old)) (agenda_of flow.new) result }
{
    match step_on(alloc, site, node, peers, journal, flow, event) {
        Ok(_) => None,
        Err(stop) => Some(Ended::Stopped(stop)),
    }
}

// A link is turned, and again where something of it was handled.
fn turn<S: Site, M: Machine>(
    alloc: Global,
    site: &mut S,
    node: &mut M,
    peers: &Peers,
    journal: &mut Journal,
    flow: &mut Flow<'_>,
    link: u32,
) -> Option<Ended>
    requires due { (agenda_of flow.old).due ≡ [] }
    requires turning { flow.old.turning ≡ Some link }
    ensures { RanOn S.follows M.rule M.lost M.rests M.regards peers.now (scene site.old node.old journal.old) (scene site.new node.new journal.new)
        (agenda_of flow.old) (agenda_of flow.new) result }
{
    match step_on(alloc, site, node, peers, journal, flow, Event::Turn(link)) {
        Ok(turned) => {
            flow.turning = turned_again(link, turned);
            None
        }
        Err(stop) => Some(Ended::Stopped(stop)),
    }
}

// One step, and what comes of it is noted. Answers whether a banner or a frame was handled.
fn step_on<S: Site, M: Machine>(
    alloc: Global,
    site: &mut S,
    node: &mut M,
    peers: &Peers,
    journal: &mut Journal,
    flow: &mut Flow<'_>,
    event: Event<'_>,
) -> Result<bool, Stop>
    requires { IsWritableInput (input_of event) }
    ensures ok { IfOk result (StepsOn S.follows M.rule M.lost M.rests M.regards peers.now (input_of event.entry)
        (scene site.old node.old journal.old) (scene site.new node.new journal.new) (agenda_of flow.old) (agenda_of flow.new)) }
    ensures err { IfErr result (Stopped S.follows M.rule M.lost (input_of event.entry)
        (scene site.old node.old journal.old) (scene site.new node.new journal.new)) }
    ensures short { OnErr result (flow.new.short ≡ flow.old.short) }
{
    flow.count_gone(&event);
    match perform(alloc, site, node, peers, journal, event, &mut flow.dues) {
        Ok(stepped) => {
            flow.short = flow.short || stepped.short;
            Ok(stepped.turned)
        }
        Err(stop) => Err(stop),
    }
}

// Nothing is due: what comes next on the links is taken, unless the run is over.
fn wait<S: Site, M: Machine>(
    alloc: Global,
    site: &mut S,
    node: &mut M,
    peers: &Peers,
    journal: &mut Journal,
    flow: &mut Flow<'_>,
    buffer: &mut [u8],
) -> Option<Ended>
    requires holds { 0 < length buffer.old }
    requires due { (agenda_of flow.old).due ≡ [] }
    requires turning { flow.old.turning ≡ None }
    ensures ran { RanOn S.follows M.rule M.lost M.rests M.regards peers.now (scene site.old node.old journal.old) (scene site.new node.new journal.new)
        (agenda_of flow.old) (agenda_of flow.new) result }
    ensures room { length buffer.new ≡ length buffer.old }
{
    if flow.over {
        return Some(Ended::Done);
    }
    if flow.left == 0 {
        return Some(Ended::Done);
    }
    match site.next(buffer) {
        Ok(event) => {
            flow.left -= 1;
            happens(alloc, site, node, peers, journal, flow, event, buffer)
        }
        Err(_) => Some(Ended::Links),
    }
}

// An event of the links comes to the node.
fn happens<S: Site, M: Machine>(
    alloc: Global,
    site: &mut S,
    node: &mut M,
    peers: &Peers,
    journal: &mut Journal,
    flow: &mut Flow<'_>,
    event: LinkEvent,
    buffer: &[u8],
) -> Option<Ended>
    requires { IsWithin event (length buffer.now) }
    ensures { RanOn S.follows M.rule M.lost M.rests M.regards peers.now (scene site.old node.old journal.old) (scene site.new node.new journal.new)
        (after_came (M.rests node.old) event (came event buffer.now) (agenda_of flow.old)) (agenda_of flow.new) result }
{
    match event {
        LinkEvent::Opened(number) => {
            let event = Event::Opened(number, None);
            comes(alloc, site, node, peers, journal, flow, event)
        }
        LinkEvent::Bytes(number, count) => {
            let bytes = &buffer[..count];
            bytes_come(alloc, site, node, peers, journal, flow, number, bytes)
        }
        LinkEvent::Gone(number) => {
            let event = Event::Gone(number);
            comes(alloc, site, node, peers, journal, flow, event)
        }
        LinkEvent::Quiet => quiet(alloc, site, node, peers, journal, flow),
    }
}

// Bytes come on a link, which is turned behind that.
fn bytes_come<S: Site, M: Machine>(
    alloc: Global,
    site: &mut S,
    node: &mut M,
    peers: &Peers,
    journal: &mut Journal,
    flow: &mut Flow<'_>,
    number: u32,
    bytes: &[u8],
) -> Option<Ended>
    ensures { RanOn S.follows M.rule M.lost M.rests M.regards peers.now (scene site.old node.old journal.old) (scene site.new node.new journal.new)
        (with_due (input.Bytes number bytes.now) (record (agenda_of flow.old) { turning = Some number })) (agenda_of flow.new) result }
{
    flow.turning = Some(number);
    comes(
        alloc,
        site,
        node,
        peers,
        journal,
        flow,
        Event::Bytes(number, bytes),
    )
}

// Nothing came.
fn quiet<S: Site, M: Machine>(
    alloc: Global,
    site: &mut S,
    node: &mut M,
    peers: &Peers,
    journal: &mut Journal,
    flow: &mut Flow<'_>,
) -> Option<Ended>
    ensures { RanOn S.follows M.rule M.lost M.rests M.regards peers.now (scene site.old node.old journal.old) (scene site.new node.new journal.new)
        (at_quiet (passed (agenda_of flow.old).gone (agenda_of flow.old).orders) (M.rests node.old) (agenda_of flow.old)) (agenda_of flow.new) result }
{
    let idle = node.idle();
    match flow.quiet(alloc, idle) {
        Ok(Some(event)) => comes(alloc, site, node, peers, journal, flow, event),
        Ok(None) => None,
        Err(_) => Some(Ended::Stopped(Stop::Memory)),
    }
}
