//! The law of answers over every run, and all laws of a journal.

ghost use Rattle.std.specs.Prelude.{ℕ, List, None};
ghost use Rattle.cx_desk.specs.Handlers.{Handlers};
ghost use Rattle.cx_journal.specs.Truthful.{IsTruthful};
ghost use Rattle.cx_laws_run.specs.cx_laws_sessions.specs.session.Serving.{serves};
ghost use Rattle.cx_laws_run.specs.run.Laws.{KeepsLaws, MayHappen};
ghost use Rattle.cx_laws_run.specs.sent.Answering.{AnswerWhatWasSent};
ghost use Rattle.cx_laws_run.specs.sent.Fitting.{AreFit};
ghost use Rattle.cx_laws_run.specs.cx_lines.specs.declared.lines.Numbered.{Numbered};
ghost use Rattle.cx_laws_run.specs.cx_run.specs.Happenings.{Happening};
ghost use Rattle.cx_laws_run.specs.cx_run.specs.Opening.{Setup, leaked_of};
ghost use Rattle.cx_laws_run.specs.cx_run.specs.Points.{journal_since, log_since};
ghost use Rattle.cx_laws_run.specs.cx_run.specs.Runs.{IsFoundOf, run_journal};
ghost use Rattle.cx_laws_run.specs.cx_schedule.specs.Files.{Lines};
ghost use Rattle.cx_steps.specs.Premises.{IsFresh, IsSound};

/// Where nothing opens under a key that didn't seal it and no draw repeats, each answer that a client enters, which didn't leak, tells how an operation ended that a
/// daemon of the type of the one that it asked handled before, in a session of this client, under its cookie and with this tid; and of each operation there is one
/// answer: whatever is delivered, lost, repeated, forged or cut, restarted, resumed, reset or dropped. And that operation is the one that the client sent under that number and cookie, the only one.
pub fn truth_laws()
    // Of every list of events that may happen, from every opening, in which the operations that clients are told to send have a spelling.
    ensures events { (setup : Setup) (hs : List Happening) → MayHappen setup hs → AreFit hs
        → IsSound (leaked_of setup) (log_since setup hs) → IsFresh (log_since setup hs) → IsTruthful (journal_since setup hs) }
    // So of the run of every schedule in which no breach of the two premises is found.
    ensures schedules { (handlers : Handlers) (bytes : List ℕ) (script : List Numbered) → Lines bytes script → IsFoundOf handlers script None
        → IsTruthful (run_journal handlers script) }
    // The operation of an answer is the one that its client sent under its number.
    ensures answered { (setup : Setup) (hs : List Happening) → MayHappen setup hs → AreFit hs
        → IsSound (leaked_of setup) (log_since setup hs) → IsFresh (log_since setup hs) → AnswerWhatWasSent (journal_since setup hs) }
    ensures answered_schedules { (handlers : Handlers) (bytes : List ℕ) (script : List Numbered) → Lines bytes script → IsFoundOf handlers script None
        → AnswerWhatWasSent (run_journal handlers script) }
{}

/// There, too, all laws of a journal hold: those of tickets, that each operation is handled in a session that stands and ends as the caps of this and the handlers say, that what is
/// handled is a front of what was sent, and that what clients are told is true.
pub fn whole_laws()
    ensures events { (setup : Setup) (hs : List Happening) → MayHappen setup hs → AreFit hs
        → IsSound (leaked_of setup) (log_since setup hs) → IsFresh (log_since setup hs) → KeepsLaws (serves setup.handlers) (journal_since setup hs) }
    ensures schedules { (handlers : Handlers) (bytes : List ℕ) (script : List Numbered) → Lines bytes script → IsFoundOf handlers script None
        → KeepsLaws (serves handlers) (run_journal handlers script) }
{}
