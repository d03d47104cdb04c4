//! The command `drill`.

ghost use Rattle.std.specs.Prelude.{◌≡◌, ◌≢◌, ◌<◌, ◌≤◌, ◌⊎◌, ◌++◌, false, true, IfOk, OnOk, string_bytes};
ghost use Rattle.cx_base.specs.Streams.{Rose};
ghost use Rattle.cx_desk.specs.Held.{handlers_of};
ghost use Rattle.cx_schedule.specs.Drills.{drill_script, drill_text};
ghost use Rattle.cx_schedule.specs.Files.{Lines};
ghost use Rattle.cx_top.specs.summary.Summaries.{summary_text};
ghost use Rattle.cx_words.specs.Cutting.{IsShort};
ghost use Rattle.cx_top.specs.Drills.{DrillWrites, DrillWritesFront, Drills, breach_line};
ghost use Rattle.cx_top.specs.Statuses.{IsServed};
ghost use Rattle.cx_top.specs.declared.status.Status.{Status};

use crate::commands::Made;
use crate::program_end::ProgramEnd;
use crate::status::Status;
use crate::told::run_told;
use crate::{Summary, summary_of};
use cx_base::{Blob, Sink};
use cx_desk::Desk;
use cx_journal::{Broken, Entry, Journal, put_text};
use cx_schedule::{Script, drill_law};
use cx_world::replay;
use std::alloc::{AllocError, Global};

/// Runs the schedule of a drill of so many clients, 1 to 1,000, by a seed, and writes to `out` how many entries of five kinds its journal has, a line each, and
/// behind them, where a premise is broken, the line of the first breach. The operations are served by `desk`.
#[tactic(auto, using(crate::proofs::Written::drill_front))]
pub fn drill<O: Sink>(
    alloc: Global,
    clients: u32,
    seed: u64,
    out: &mut O,
    desk: &Desk,
) -> ProgramEnd
    requires some { 1 ≤ clients }
    requires few { clients ≤ 1000 }
    ensures done { result.status ≡ Status.Done
        → DrillWrites (handlers_of desk.now) clients seed false (O.taken out.old) (O.taken out.new) (string_bytes result.told) }
    ensures broken { result.status ≡ Status.Broken
        → DrillWrites (handlers_of desk.now) clients seed true (O.taken out.old) (O.taken out.new) (string_bytes result.told) }
    ensures write { result.status ≡ Status.WriteFault → Rose (O.faults out.old) (O.faults out.new) }
    ensures front { result.status ≡ Status.WriteFault → DrillWritesFront (handlers_of desk.now) clients seed (O.taken out.old) (O.taken out.new) }
    ensures untouched { result.status ≢ Status.Done → result.status ≢ Status.Broken → result.status ≢ Status.WriteFault → out.new ≡ out.old }
    // It ends with no other status than that of one that is served, of an output that failed, and of want of memory.
    ensures ends { IsServed result.status ⊎ (result.status ≡ Status.WriteFault) }
    // It is served, where memory isn't wanting and the output takes it.
    ensures complete { ¬ Rose (O.faults out.old) (O.faults out.new) → IsServed result.status }
    // Where the count of the output's faults rose, a front of it was written.
    ensures rose { O.faults out.old < O.faults out.new → DrillWritesFront (handlers_of desk.now) clients seed (O.taken out.old) (O.taken out.new) }
    ensures writes { O.faults out.old ≤ O.faults out.new }
{
    let Made {
        text,
        is_broken,
        told,
    } = match drilled(alloc, clients, seed, desk) {
        Ok(made) => made,
        Err(_) => return ProgramEnd::plain(alloc, Status::OutOfMemory),
    };
    if out.push(text.bytes()).is_err() {
        return ProgramEnd::plain(alloc, Status::WriteFault);
    }
    if is_broken {
        return ProgramEnd {
            status: Status::Broken,
            told,
        };
    }
    ProgramEnd {
        status: Status::Done,
        told,
    }
}

// What is written of the drill.
fn drilled(alloc: Global, clients: u32, seed: u64, desk: &Desk) -> Result<Made, AllocError>
    requires some { 1 ≤ clients }
    requires few { clients ≤ 1000 }
    ensures { IfOk result (λ made. Drills (handlers_of desk.now) clients seed made.is_broken made.text (string_bytes made.told)) }
{
    let script = script_of(alloc, clients, seed)?;
    let report = replay(alloc, &script, desk)?;
    let is_broken = report.broken.is_some();
    let told = run_told(alloc, &report.broken, report.idle.all())?;
    let text = text_of(alloc, summary_of(&report.journal), report.broken)?;
    Ok(Made {
        text,
        is_broken,
        told,
    })
}

// The schedule of the drill: its text spells it, and lies within the limits of a file, so that reading it can only want memory.
fn script_of(alloc: Global, clients: u32, seed: u64) -> Result<Script, AllocError>
    requires some { 1 ≤ clients }
    requires few { clients ≤ 1000 }
    ensures is { IfOk result (λ script. script ≡ drill_script clients seed) }
    ensures short { OnOk result (IsShort (drill_text clients seed)) }
    ensures found { IfOk result (λ script. Lines (drill_text clients seed) script) }
{
    drill_law();
    let text = cx_schedule::drill(alloc, clients, seed)?;
    match cx_schedule::read(alloc, text.bytes()) {
        Ok(script) => Ok(script),
        Err(_) => Err(AllocError),
    }
}

fn text_of(alloc: Global, counts: Summary, broken: Option<Broken>) -> Result<Blob, AllocError>
    ensures { IfOk result (λ text. text ≡ summary_text counts ++ breach_line broken) }
{
    let lines = format!(in alloc; "{}", counts)?;
    let mut text = Blob::of(alloc, lines.as_bytes())?;
    if let Some(breach) = broken {
        put_breach(alloc, breach, &mut text)?;
    }
    Ok(text)
}

fn put_breach(alloc: Global, breach: Broken, into: &mut Blob) -> Result<(), AllocError>
    ensures { OnOk result (into.new ≡ into.old ++ breach_line (Some breach)) }
{
    let mut last = Journal::new(alloc);
    last.push(alloc, Entry::Broken(breach))?;
    put_text(alloc, &last, into)
}
