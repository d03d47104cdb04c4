//! The laws of queues over every run.

ghost use Rattle.std.specs.Prelude.{ℕ, List};
ghost use Rattle.std.specs.List.{filter_map};
ghost use Rattle.cx_base.specs.Names.{Name};
ghost use Rattle.cx_desk.specs.Handlers.{Handlers};
ghost use Rattle.cx_journal.specs.PrefixOfSent.{sent_under};
ghost use Rattle.cx_laws_sessions.specs.queues.Counting.{IsHandledInOrder};
ghost use Rattle.cx_laws_sessions.specs.queues.Sending.{IsNumbered, IsSentInOrder};
ghost use Rattle.cx_laws_sessions.specs.queues.Waiting.{AreQueuedAt};
ghost use Rattle.cx_laws_sessions.specs.cx_lines.specs.declared.lines.Numbered.{Numbered};
ghost use Rattle.cx_laws_sessions.specs.cx_run.specs.Happenings.{Happening, nodes_behind};
ghost use Rattle.cx_laws_sessions.specs.cx_run.specs.Opening.{Setup, nodes_of};
ghost use Rattle.cx_laws_sessions.specs.cx_run.specs.Points.{journal_since, log_since};
ghost use Rattle.cx_laws_sessions.specs.cx_run.specs.Runs.{run_journal, run_log};
ghost use Rattle.cx_laws_sessions.specs.cx_steps.specs.Premises.{IsFresh};

/// Of every run, from every opening and with any handlers, whatever is delivered, lost, repeated, forged or cut, restarted, or failed at a save, and whatever
/// opens or repeats: there is no premise, but that of the laws of cookies. Each operation that a client sends to a daemon is numbered next to what it sent
/// last to that daemon under the same cookie, from 1 on. Each operation that a daemon handles is numbered next to the one that it handled last in that
/// session, from 1 on behind its admission. And behind all events what waits at a client in a session is the end of what it sent in that session, and what a
/// daemon took last of a session is the count of what it handled in it.
///
/// Where no draw repeats, all that a client sends under a cookie is numbered 1, 2, 3 and so on over the whole journal, whatever opens: no second session begins
/// again under it, whatever is reset, ends with its link or is lost at a restart.
pub fn queue_laws()
    // Of every list of events.
    ensures sent { (setup : Setup) (hs : List Happening) → IsSentInOrder (journal_since setup hs) }
    ensures handled { (setup : Setup) (hs : List Happening) → IsHandledInOrder (journal_since setup hs) }
    ensures queued { (setup : Setup) (hs : List Happening) → AreQueuedAt (journal_since setup hs) (nodes_behind (nodes_of setup) hs).entities }
    // So of the run of every schedule, whatever handlers its daemons have.
    ensures schedules { (handlers : Handlers) (script : List Numbered) → IsSentInOrder (run_journal handlers script) × IsHandledInOrder (run_journal handlers script) }
    // Of every list of events in which draws are fresh, and of the run of every such schedule.
    ensures cookies { (setup : Setup) (hs : List Happening) → IsFresh (log_since setup hs) → (client : Name) (cookie : ℕ)
        → IsNumbered (filter_map (sent_under cookie client) (journal_since setup hs)) }
    ensures schedule_cookies { (handlers : Handlers) (script : List Numbered) → IsFresh (run_log handlers script) → (client : Name) (cookie : ℕ)
        → IsNumbered (filter_map (sent_under cookie client) (run_journal handlers script)) }
{}
