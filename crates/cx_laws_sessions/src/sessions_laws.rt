//! The laws of sessions over every run.

ghost use Rattle.std.specs.Prelude.{List};
ghost use Rattle.cx_desk.specs.Handlers.{Handlers};
ghost use Rattle.cx_journal.specs.Enforced.{IsEnforced};
ghost use Rattle.cx_journal.specs.InSession.{IsInSession};
ghost use Rattle.cx_laws_sessions.specs.session.Entering.{EntersOwn};
ghost use Rattle.cx_laws_sessions.specs.session.Serving.{serves};
ghost use Rattle.cx_run.specs.cx_lines.specs.declared.lines.Numbered.{Numbered};
ghost use Rattle.cx_run.specs.Happenings.{Happening};
ghost use Rattle.cx_run.specs.Opening.{Setup};
ghost use Rattle.cx_run.specs.Points.{EachPoint, journal_since, points};
ghost use Rattle.cx_run.specs.Runs.{run_journal};

/// Of every run, from every opening and with any handlers, whatever is delivered, lost, repeated, forged or cut, restarted, or failed at a save, and whatever
/// opens or repeats: there is no premise. Each operation is handled in a session that its daemon admitted or resumed before, under the same number, epoch and
/// cookie, and that since then wasn't ended, resumed again or lost by a restart. And it is denied exactly where the capabilities of that very session don't
/// allow it; else it has no handler exactly where there is none for its kind; else it is done. What is said of a node in entries of sessions, operations and answers,
/// that node entered.
pub fn session_laws()
    // Of every list of events.
    ensures in_session { (setup : Setup) (hs : List Happening) → IsInSession (journal_since setup hs) }
    ensures enforced { (setup : Setup) (hs : List Happening) → IsEnforced (serves setup.handlers) (journal_since setup hs) }
    // Who enters what: each entry of a session, an operation or an answer is made by the node that it names.
    ensures own { (setup : Setup) (hs : List Happening) → EachPoint EntersOwn (points setup hs) }
    // So of the run of every schedule, whose daemons have these handlers.
    ensures schedules { (handlers : Handlers) (script : List Numbered) → IsInSession (run_journal handlers script) × IsEnforced (serves handlers) (run_journal handlers script) }
{}
