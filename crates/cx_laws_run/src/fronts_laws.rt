//! The laws of each front of a run that keeps both premises by its own log.

ghost use Rattle.std.specs.Prelude.{ℕ, List};
ghost use Rattle.cx_desk.specs.Handlers.{Handlers};
ghost use Rattle.cx_laws_run.specs.run.Fronts.{HoldUntilBreach};
ghost use Rattle.cx_laws_run.specs.run.Laws.{MayHappen};
ghost use Rattle.cx_laws_run.specs.sent.Fitting.{AreFit};
ghost use Rattle.cx_laws_run.specs.cx_lines.specs.declared.lines.Numbered.{Numbered};
ghost use Rattle.cx_laws_run.specs.cx_run.specs.Happenings.{Happening};
ghost use Rattle.cx_laws_run.specs.cx_run.specs.Opening.{Setup};
ghost use Rattle.cx_laws_run.specs.cx_run.specs.Runs.{setup_of, trace};
ghost use Rattle.cx_laws_run.specs.cx_schedule.specs.Files.{Lines};

/// All laws that are said of a run that is sound and fresh hold of each front of its events whose own log is so, also where a premise is broken behind
/// it.
pub fn front_laws()
    // Of every list of events that may happen, from every opening, in which the operations that clients are told to send have a spelling.
    ensures events { (setup : Setup) (hs : List Happening) → MayHappen setup hs → AreFit hs → HoldUntilBreach setup hs }
    // So of the run of every schedule, whether a breach is found in it or not.
    ensures schedules { (handlers : Handlers) (bytes : List ℕ) (script : List Numbered) → Lines bytes script → HoldUntilBreach (setup_of handlers script) (trace handlers script) }
{}
