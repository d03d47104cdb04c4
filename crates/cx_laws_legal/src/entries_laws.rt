//! The law of what is entered.

ghost use Rattle.std.specs.Prelude.{ℕ, List, None};
ghost use Rattle.cx_desk.specs.Handlers.{Handlers};
ghost use Rattle.cx_laws_run.specs.run.Laws.{MayHappen};
ghost use Rattle.cx_laws_run.specs.cx_run.specs.Happenings.{Happening};
ghost use Rattle.cx_laws_run.specs.cx_run.specs.Opening.{Setup, leaked_of};
ghost use Rattle.cx_laws_run.specs.cx_run.specs.Points.{journal_since, log_since};
ghost use Rattle.cx_laws_run.specs.cx_run.specs.Runs.{IsFoundOf, run_journal};
ghost use Rattle.cx_laws_run.specs.cx_run.specs.Sending.{AreWritten};
ghost use Rattle.cx_laws_text.specs.printed.Tellable.{AreBounded};
ghost use Rattle.cx_lines.specs.declared.lines.Numbered.{Numbered};
ghost use Rattle.cx_schedule.specs.Files.{Lines};
ghost use Rattle.cx_steps.specs.Premises.{IsFresh, IsSound};

/// Where nothing opens under a key that didn't seal it and no draw repeats, what is entered can be told by the lines of a journal, as far as no type says so: each reading is
/// below 18,446,744,073 s, the capabilities of each ticket and of each session can be written, and so can the pool, the namespace and the object of each operation that is sent
/// or handled, whatever a leaked client sends.
pub fn entered_laws()
    // Of every list of events that may happen, from every opening, in which the operations that clients are told to send can be written.
    ensures events { (setup : Setup) (hs : List Happening) → MayHappen setup hs → AreWritten hs
        → IsSound (leaked_of setup) (log_since setup hs) → IsFresh (log_since setup hs) → AreBounded (journal_since setup hs) }
    // So of the run of every schedule in which no breach of the two premises is found.
    ensures schedules { (handlers : Handlers) (bytes : List ℕ) (script : List Numbered) → Lines bytes script → IsFoundOf handlers script None
        → AreBounded (run_journal handlers script) }
{}
