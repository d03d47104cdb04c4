//! The laws of what waits over every run.

ghost use Rattle.std.specs.Prelude.{List};
ghost use Rattle.cx_desk.specs.Handlers.{Handlers};
ghost use Rattle.cx_laws_sessions.specs.cx_run.specs.Happenings.{Happening, nodes_behind};
ghost use Rattle.cx_laws_sessions.specs.cx_run.specs.Opening.{Setup, nodes_of};
ghost use Rattle.cx_laws_sessions.specs.cx_run.specs.Points.{EachPoint, journal_since, points};
ghost use Rattle.cx_laws_sessions.specs.cx_run.specs.Runs.{run_journal, setup_of, trace};
ghost use Rattle.cx_laws_sessions.specs.waiting.Again.{SendsAgain};
ghost use Rattle.cx_laws_sessions.specs.waiting.AtOnce.{SendsAtOnce};
ghost use Rattle.cx_laws_sessions.specs.waiting.Keeping.{KeepsWaiting};
ghost use Rattle.cx_laws_sessions.specs.waiting.Left.{AreAllLeft};
ghost use Rattle.cx_laws_sessions.specs.waiting.Linked.{AreLinked};
ghost use Rattle.cx_lines.specs.declared.lines.Numbered.{Numbered};

/// Of every run, from every opening and with any handlers, whatever is delivered, lost, repeated, forged or cut, restarted, or failed at a save, and whatever
/// opens or repeats: there is no premise. At each event each operation that waits in a client's session with a daemon waits on, in its place, unless the daemon's
/// frame that is opened there says that it took it: ACK on an open link to it, SESSION_RECONNECT_OK behind SESSION_RECONNECT; no other frame takes any away.
/// What is sent waits behind the others, and goes out at once where the link is open. All that waits goes only with the session: where the client is told that
/// it was reset, where it was taken up too often, where it is lossy and a link to its daemon is gone, or where the client begins anew. At SESSION_RECONNECT_OK
/// all that waits goes out again on that link, in order, each once, with its own number. Behind all events exactly those operations wait that were sent in the
/// session behind the greatest number that was acknowledged in it; and each link of a client is for the session that it holds with its daemon.
pub fn waiting_laws()
    // Of every list of events.
    ensures kept { (setup : Setup) (hs : List Happening) → EachPoint KeepsWaiting (points setup hs) }
    ensures sent_again { (setup : Setup) (hs : List Happening) → EachPoint SendsAgain (points setup hs) }
    ensures sent_at_once { (setup : Setup) (hs : List Happening) → EachPoint SendsAtOnce (points setup hs) }
    ensures left { (setup : Setup) (hs : List Happening) → AreAllLeft (journal_since setup hs) (nodes_behind (nodes_of setup) hs) (points setup hs) }
    ensures links { (setup : Setup) (hs : List Happening) → AreLinked (nodes_behind (nodes_of setup) hs).entities }
    // So of the run of every schedule, whatever handlers its daemons have.
    ensures schedules { (handlers : Handlers) (script : List Numbered) → EachPoint KeepsWaiting (points (setup_of handlers script) (trace handlers script))
        × EachPoint SendsAgain (points (setup_of handlers script) (trace handlers script))
        × EachPoint SendsAtOnce (points (setup_of handlers script) (trace handlers script))
        × AreAllLeft (run_journal handlers script) (nodes_behind (nodes_of (setup_of handlers script)) (trace handlers script)) (points (setup_of handlers script) (trace handlers script)) }
{}
