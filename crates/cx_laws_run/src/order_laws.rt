//! The law of order over every run.

ghost use Rattle.std.specs.Prelude.{ℕ, List, None};
ghost use Rattle.cx_desk.specs.Handlers.{Handlers};
ghost use Rattle.cx_journal.specs.PrefixOfSent.{IsPrefixOfSent};
ghost use Rattle.cx_laws_run.specs.run.Laws.{MayHappen};
ghost use Rattle.cx_laws_run.specs.sent.Fitting.{AreFit};
ghost use Rattle.cx_laws_sessions.specs.cx_lines.specs.declared.lines.Numbered.{Numbered};
ghost use Rattle.cx_laws_sessions.specs.cx_run.specs.Happenings.{Happening};
ghost use Rattle.cx_laws_sessions.specs.cx_run.specs.Opening.{Setup, leaked_of};
ghost use Rattle.cx_laws_sessions.specs.cx_run.specs.Points.{journal_since, log_since};
ghost use Rattle.cx_laws_sessions.specs.cx_run.specs.Runs.{IsFoundOf, run_journal};
ghost use Rattle.cx_laws_run.specs.cx_schedule.specs.Files.{Lines};
ghost use Rattle.cx_steps.specs.Premises.{IsFresh, IsSound};

/// Where nothing opens under a key that didn't seal it and no draw repeats, what daemons handle under a cookie for an entity that didn't leak is, at each place of
/// the journal, a front of what that entity sent under it: in order, each once, none left out and nothing that it didn't send, whatever is delivered, lost, repeated,
/// forged or cut, restarted, resumed, reset or dropped.
pub fn sent_laws()
    // Of every list of events that may happen, from every opening, in which the operations that clients are told to send have a spelling.
    ensures events { (setup : Setup) (hs : List Happening) → MayHappen setup hs → AreFit hs
        → IsSound (leaked_of setup) (log_since setup hs) → IsFresh (log_since setup hs) → IsPrefixOfSent (journal_since setup hs) }
    // So of the run of every schedule in which no breach of the two premises is found.
    ensures schedules { (handlers : Handlers) (bytes : List ℕ) (script : List Numbered) → Lines bytes script → IsFoundOf handlers script None
        → IsPrefixOfSent (run_journal handlers script) }
{}
