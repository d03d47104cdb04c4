//! The run of a schedule.

ghost use Rattle.std.specs.Prelude.{◌≡◌, List, None, IfOk, IsTrue, OnOk};
ghost use Rattle.std.specs.List.{list_all};
ghost use Rattle.cx_base.specs.Names.{Name};
ghost use Rattle.cx_desk.specs.Held.{handlers_of};
ghost use Rattle.cx_lines.specs.Lines.{is_numbered_in_range};
ghost use Rattle.cx_premises.specs.Ledgers.{StandsFor};
ghost use Rattle.cx_world_start.specs.cx_run.specs.Opening.{opening_world};
ghost use Rattle.cx_world_start.specs.cx_run.specs.Runs.{IsFoundOf, run_journal, setup_of};
ghost use Rattle.cx_world_start.specs.cx_run.specs.Schedules.{after_lines};
ghost use Rattle.cx_world_start.specs.cx_run.specs.Sending.{is_numbered_written};
ghost use Rattle.cx_world.specs.Heads.{IsSchedule};
ghost use Rattle.cx_steps.specs.Breach.{IsFound};
ghost use Rattle.cx_steps.specs.declared.seals.Logged.{Logged};
ghost use Rattle.cx_world.specs.Beginning.{began};
ghost use Rattle.cx_world.specs.Carried.{Carries, MakesAlone};
ghost use Rattle.cx_world.specs.Idle.{idle_lines, FindsIdle};

use crate::Setup;
use crate::idle::{IdleLine, last_failsave, note_unsaved};
use crate::records::Record;
use crate::world::World;
use cx_base::{Duplicate, Items};
use cx_desk::Desk;
use cx_journal::{Broken, Journal};
use cx_lines::Numbered;
use cx_premises::Ledger;
use cx_schedule::Script;
use std::alloc::{AllocError, Global};

/// What comes of a run: its journal, the first breach of its premises, if they are broken, and which of its lines did nothing, and why.
#[derive(Drop)]
pub struct Report {
    pub journal: Journal,
    pub broken: Option<Broken>,
    pub idle: Items<IdleLine>,
}

/// The run of a schedule, where the daemons have the handlers of this desk.
#[tactic(auto, using(crate::proofs::Started::journal_told, crate::proofs::Started::breach_told))]
pub fn run(alloc: Global, script: &Script, desk: &Desk) -> Result<Report, AllocError>
    requires { IsSchedule script.now }
    ensures journal { IfOk result (λ report. report.journal ≡ run_journal (handlers_of desk.now) script.now) }
    ensures found { IfOk result (λ report. IsFoundOf (handlers_of desk.now) script.now report.broken) }
    ensures idle { IfOk result (λ report. report.idle ≡ idle_lines (handlers_of desk.now) script.now) }
{
    let (world, idle) = behind_all(alloc, script.lines(), desk)?;
    let World {
        nodes: _,
        wires: _,
        left: _,
        line: _,
        told,
        stirred: _,
    } = world;
    let Record { journal, ledger } = told;
    let broken = first_breach(alloc, &ledger)?;
    Ok(Report {
        journal,
        broken,
        idle,
    })
}

/// The world behind all lines of a schedule, and which of these did nothing.
#[tactic(auto, using(crate::proofs::Started::in_range, crate::proofs::Started::all_written))]
fn behind_all(
    alloc: Global,
    lines: &[Numbered],
    desk: &Desk,
) -> Result<(World, Items<IdleLine>), AllocError>
    requires { IsSchedule lines.now }
    ensures world { IfOk result (λ found. Carries (began (setup_of (handlers_of desk.now) lines.now)) None found.0 (after_lines (opening_world (setup_of (handlers_of desk.now) lines.now)) lines.now)) }
    ensures idle { IfOk result (λ found. found.1 ≡ idle_lines (handlers_of desk.now) lines.now) }
{
    let setup = Setup::of(alloc, lines)?;
    let mut world = World::begin(alloc, &setup)?;
    let idle = act_all(alloc, desk, &mut world, lines)?;
    Ok((world, idle))
}

/// What all of these lines do, one by one, and which of them do nothing.
fn act_all(
    alloc: Global,
    desk: &Desk,
    world: &mut World,
    lines: &[Numbered],
) -> Result<Items<IdleLine>, AllocError>
    requires in_range { IsTrue (list_all is_numbered_in_range lines.now) }
    requires written { IsTrue (list_all is_numbered_written lines.now) }
    ensures acts { OnOk result (MakesAlone (handlers_of desk.now) world.old world.new (λ w. after_lines w lines.now)) }
    ensures idle { IfOk result (FindsIdle (handlers_of desk.now) world.old lines.now) }
{
    let mut idle = Items::new(alloc);
    let mut last = None;
    for line in lines {
        world.act_noting(alloc, desk, line, last, &mut idle)?;
        last = last_failsave(last, line);
    }
    note_unsaved(alloc, world.left, last, &mut idle)?;
    Ok(idle)
}

/// The first breach of the premises that a ledger tells, if they are broken.
fn first_breach(alloc: Global, ledger: &Ledger) -> Result<Option<Broken>, AllocError>
    ensures { (leaked : List Name) (log : List Logged) → StandsFor ledger.now leaked log → IfOk result (IsFound leaked log) }
{
    match ledger.first_breach() {
        Some(broken) => Ok(Some(broken.copy(alloc)?)),
        None => Ok(None),
    }
}
