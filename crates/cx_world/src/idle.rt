//! Lines that do nothing: those on a link, an end, a piece or a session that isn't there, and a failing save that doesn't come.

ghost use Rattle.std.specs.Prelude.{◌≡◌, ◌==◌, ◌++◌, not, IsTrue, OnOk};
ghost use Rattle.cx_desk.specs.Held.{handlers_of};
ghost use Rattle.cx_lines.specs.Lines.{is_numbered_in_range};
ghost use Rattle.cx_world_start.specs.cx_run.specs.Schedules.{after_line, ever_sent};
ghost use Rattle.cx_world_start.specs.cx_run.specs.Sending.{is_numbered_written};
ghost use Rattle.cx_world_start.specs.cx_run.specs.Wires.{wire_of};
ghost use Rattle.cx_world.specs.Carried.{MakesAlone};
ghost use Rattle.cx_world.specs.Idle.{idle_before, idle_for, is_failsave, last_failsave, unsaved, unsaved_at, why_deaf, why_done, why_empty, why_idle, why_idle_step, why_over, why_undropped, why_unheard, why_unsent, NotesIdle};

use crate::world::World;
use cx_base::Items;
use cx_desk::Desk;
use cx_lines::{Line, LinkStep, NodeStep, Numbered};
use cx_words::{LeftState, Side};
use cx_world_start::{Wires, other};
use std::alloc::{AllocError, Global};

/// Why a line of a schedule does nothing.
#[derive(Clone, Copy)]
pub enum IdleReason {
    /// There is no such link.
    NoLink(u64),
    /// Nothing is under way from this end of the link.
    NothingUnderWay(u64, Side),
    /// This end of the link, at which it would arrive, is gone.
    EndGone(u64, Side),
    /// This end of the link never sent so many pieces.
    NoPiece(u64, Side, u64),
    /// Both ends of the link are gone.
    BothGone(u64),
    /// The daemon has no session of this number.
    NoSession(u64),
    /// No save of the monitor came that could fail, before another line has one fail, or the end.
    NoSave,
}

/// A line of a schedule that does nothing, by its number in its file.
#[derive(Clone, Copy)]
pub struct IdleLine {
    pub number: u32,
    pub why: IdleReason,
}

impl World {
    /// What a line does. Behind the lines that do nothing come the last line that was to have a save fail, where this one finds that none came, and
    /// this line, if it does nothing.
    pub(crate) fn act_noting(
        &mut self,
        alloc: Global,
        desk: &Desk,
        line: &Numbered,
        last: Option<u32>,
        idle: &mut Items<IdleLine>,
    ) -> Result<(), AllocError>
        requires in_range { IsTrue (is_numbered_in_range line.now) }
        requires written { IsTrue (is_numbered_written line.now) }
        ensures acts { OnOk result (MakesAlone (handlers_of desk.now) self.old self.new (λ w. after_line w line.now)) }
        ensures idle { OnOk result (NotesIdle (handlers_of desk.now) self.old last line.now idle.old idle.new) }
    {
        let entered = self.told.journal.all().len();
        self.note_idle(alloc, line, last, idle)?;
        self.act(alloc, desk, line)?;
        // A daemon that has the session to drop enters that it ended; one that hasn't enters nothing.
        note_undropped(alloc, line, entered, self.told.journal.all().len(), idle)?;
        Ok(())
    }

    // What is found of a line before it is carried out.
    fn note_idle(
        &self,
        alloc: Global,
        line: &Numbered,
        last: Option<u32>,
        idle: &mut Items<IdleLine>,
    ) -> Result<(), AllocError>
        ensures { OnOk result (idle.new ≡ idle.old ++ idle_before self.now.wires self.now.left last line.now) }
    {
        note_unsaved_at(alloc, self.left, last, line, idle)?;
        note_for(alloc, line.number, why_idle(&self.wires, &line.line), idle)
    }
}

// A line of this number does nothing for this reason, if there is one.
fn note_for(
    alloc: Global,
    number: u32,
    why: Option<IdleReason>,
    idle: &mut Items<IdleLine>,
) -> Result<(), AllocError>
    ensures { OnOk result (idle.new ≡ idle.old ++ idle_for number why) }
{
    match why {
        Some(why) => idle.push(alloc, IdleLine { number, why }),
        None => Ok(()),
    }
}

// ---- sessions that aren't there

// Whether the session that a line drops was there, by how many entries stood before and stand now.
fn note_undropped(
    alloc: Global,
    line: &Numbered,
    before: usize,
    now: usize,
    idle: &mut Items<IdleLine>,
) -> Result<(), AllocError>
    ensures { OnOk result (idle.new ≡ idle.old ++ idle_for line.now.number (why_undropped line.now.line (not (now == before)))) }
{
    note_for(
        alloc,
        line.number,
        why_undropped(&line.line, now != before),
        idle,
    )
}

// Why a line drops nothing, by whether its session is there.
fn why_undropped(line: &Line, there: bool) -> Option<IdleReason>
    ensures { result ≡ why_undropped line.now there }
{
    match line {
        Line::Node(NodeStep::DropSession(_, session)) => {
            if there {
                None
            } else {
                Some(IdleReason::NoSession(*session))
            }
        }
        _ => None,
    }
}

// ---- saves that don't come

/// The last line that has a save fail, behind this one.
pub(crate) fn last_failsave(last: Option<u32>, line: &Numbered) -> Option<u32>
    ensures { result ≡ last_failsave last line.now }
{
    if is_failsave(&line.line) {
        Some(line.number)
    } else {
        last
    }
}

/// The last line that has a save fail did nothing, where that save still didn't come.
pub(crate) fn note_unsaved(
    alloc: Global,
    left: Option<LeftState>,
    last: Option<u32>,
    idle: &mut Items<IdleLine>,
) -> Result<(), AllocError>
    ensures { OnOk result (idle.new ≡ idle.old ++ unsaved left last) }
{
    match (left, last) {
        (Some(_), Some(number)) => idle.push(
            alloc,
            IdleLine {
                number,
                why: IdleReason::NoSave,
            },
        ),
        _ => Ok(()),
    }
}

// It is told where another such line takes its place.
fn note_unsaved_at(
    alloc: Global,
    left: Option<LeftState>,
    last: Option<u32>,
    line: &Numbered,
    idle: &mut Items<IdleLine>,
) -> Result<(), AllocError>
    ensures { OnOk result (idle.new ≡ idle.old ++ unsaved_at left last line.now.line) }
{
    if is_failsave(&line.line) {
        note_unsaved(alloc, left, last, idle)
    } else {
        Ok(())
    }
}

fn is_failsave(line: &Line) -> bool
    ensures { result ≡ is_failsave line.now }
{
    match line {
        Line::Node(NodeStep::FailSave(_)) => true,
        _ => false,
    }
}

// ---- links, ends and pieces that aren't there

// Why a line on a link does nothing, if it does nothing, where these are the links.
fn why_idle(wires: &Wires, line: &Line) -> Option<IdleReason>
    ensures { result ≡ why_idle wires.now line.now }
{
    match line {
        Line::Setting(_) => None,
        Line::Submit(_) => None,
        Line::Do(_) => None,
        Line::Link(step) => why_idle_step(wires, step),
        Line::Node(_) => None,
    }
}

fn why_idle_step(wires: &Wires, step: &LinkStep) -> Option<IdleReason>
    ensures { result ≡ why_idle_step wires.now step.now }
{
    match step {
        LinkStep::Carry(number, side, _) => why_done(wires, *number, *side),
        LinkStep::Lose(number, side) => why_empty(wires, *number, *side),
        LinkStep::Inject(number, side, _) => why_deaf(wires, *number, *side),
        LinkStep::Again(number, side, place, to) => {
            why_unheard(wires, *number, *side, *place, *to)
        }
        LinkStep::Cut(number) => why_over(wires, *number),
    }
}

// Why no piece is taken from a side of a link.
fn why_empty(wires: &Wires, number: u64, side: Side) -> Option<IdleReason>
    ensures { result ≡ why_empty number side (wire_of number wires.now) }
{
    match wires.get(number) {
        Some(wire) => {
            if wire.under_way(side) == 0 {
                Some(IdleReason::NothingUnderWay(number, side))
            } else {
                None
            }
        }
        None => Some(IdleReason::NoLink(number)),
    }
}

// Nor is the other end still to be told that this one is gone.
fn why_done(wires: &Wires, number: u64, side: Side) -> Option<IdleReason>
    ensures { result ≡ why_done number side (wire_of number wires.now) }
{
    match wires.get(number) {
        Some(wire) => {
            if wire.under_way(side) == 0 && !wire.owes_gone(side) {
                Some(IdleReason::NothingUnderWay(number, side))
            } else {
                None
            }
        }
        None => Some(IdleReason::NoLink(number)),
    }
}

// Why nothing from a side of a link arrives.
fn why_deaf(wires: &Wires, number: u64, side: Side) -> Option<IdleReason>
    ensures { result ≡ why_deaf number side (wire_of number wires.now) }
{
    match wires.get(number) {
        Some(wire) => {
            if wire.lives(other(side)) {
                None
            } else {
                Some(IdleReason::EndGone(number, other(side)))
            }
        }
        None => Some(IdleReason::NoLink(number)),
    }
}

// Why a piece isn't repeated: it was never sent, or can't arrive on the last link.
fn why_unheard(wires: &Wires, number: u64, side: Side, place: u64, to: u64) -> Option<IdleReason>
    ensures { result ≡ why_unheard number side place to (ever_sent place side (wire_of number wires.now)) (wire_of number wires.now) (wire_of to wires.now) }
{
    match wires.ever_sent(number, side, place) {
        Some(_) => why_deaf(wires, to, side),
        None => why_unsent(wires, number, side, place),
    }
}

// Why there is no such piece.
fn why_unsent(wires: &Wires, number: u64, side: Side, place: u64) -> Option<IdleReason>
    ensures { result ≡ why_unsent number side place (wire_of number wires.now) }
{
    match wires.get(number) {
        Some(_) => Some(IdleReason::NoPiece(number, side, place)),
        None => Some(IdleReason::NoLink(number)),
    }
}

// Why a link can't be cut.
fn why_over(wires: &Wires, number: u64) -> Option<IdleReason>
    ensures { result ≡ why_over number (wire_of number wires.now) }
{
    match wires.get(number) {
        Some(wire) => {
            if !wire.lives(Side::Connector) && !wire.lives(Side::Acceptor) {
                Some(IdleReason::BothGone(number))
            } else {
                None
            }
        }
        None => Some(IdleReason::NoLink(number)),
    }
}
