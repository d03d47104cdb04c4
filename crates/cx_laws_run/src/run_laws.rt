//! Laws over every run.

ghost use Rattle.std.specs.Prelude.{ℕ, Bool, List, None};
ghost use Rattle.cx_base.specs.declared.kinds.Access.{Access};
ghost use Rattle.cx_desk.specs.Handlers.{Handlers};
ghost use Rattle.cx_laws_links.specs.cx_laws_tickets.specs.authorize.Expiring.{ExpireAtReadings};
ghost use Rattle.cx_laws_links.specs.cx_laws_tickets.specs.chain.Chain.{KeepsGenerations};
ghost use Rattle.cx_laws_links.specs.cx_laws_tickets.specs.chain.Granted.{AreOfKeyring};
ghost use Rattle.cx_laws_links.specs.cx_laws_tickets.specs.cx_laws_keys.specs.keys.LooksLast.{LooksLast};
ghost use Rattle.cx_laws_run.specs.run.Laws.{KeepsLaws, KeepsTickets, MayHappen};
ghost use Rattle.cx_laws_run.specs.run.Logins.{LogIn, Stands};
ghost use Rattle.cx_laws_run.specs.run.Origins.{GoBack};
ghost use Rattle.cx_schedule.specs.cx_lines.specs.declared.lines.Numbered.{Numbered};
ghost use Rattle.cx_laws_links.specs.cx_laws_tickets.specs.cx_run.specs.Happenings.{Happening};
ghost use Rattle.cx_laws_links.specs.cx_laws_tickets.specs.cx_run.specs.Opening.{Setup, leaked_of};
ghost use Rattle.cx_laws_links.specs.cx_laws_tickets.specs.cx_run.specs.Points.{journal_since, log_since, points};
ghost use Rattle.cx_laws_links.specs.cx_laws_tickets.specs.cx_run.specs.Visits.{AreUntold, AreUnvisited};
ghost use Rattle.cx_laws_links.specs.cx_laws_tickets.specs.cx_run.specs.Runs.{IsFoundOf, run_journal, setup_of, trace};
ghost use Rattle.cx_laws_links.specs.cx_laws_tickets.specs.cx_run.specs.Sending.{AreWritten};
ghost use Rattle.cx_schedule.specs.Files.{Lines};
ghost use Rattle.cx_steps.specs.Premises.{IsFresh, IsSound};

/// Of every run, whatever is delivered, lost, repeated, forged or cut, restarted, or failed at a save, and whatever opens or repeats: each ticket of the
/// monitor is issued at a turn of a link, on which a proof was found equal under the own secret of the ticket's entity, over the challenge that was drawn
/// on that link for it: at that very turn, or, of a ticket for another service than AUTH, at one behind, once the link is open, under the entity's global id.
/// The generations of each service go on from one to the next, over rotations, restarts and saves that fail, and one id of them has one key for ever; each
/// ticket is sealed under the generation that it names, which was saved and current when it was made. Each was made at the reading of its event and expires one
/// life later, and is for an entity of the keyring, with the caps that this one has there for the service; and one that a daemon refuses as expired is so at the
/// reading of that event.
pub fn standing_laws()
    ensures events { (setup : Setup) (hs : List Happening) → Stands setup hs }
    ensures generations { (setup : Setup) (hs : List Happening) → KeepsGenerations setup hs }
    ensures granted { (setup : Setup) (hs : List Happening) → AreOfKeyring setup (points setup hs) }
    ensures expiring { (setup : Setup) (hs : List Happening) → ExpireAtReadings (points setup hs) }
    // Where no daemon is told a view by hand, each look is at what the daemon fetched last, since it began anew.
    ensures looks { (setup : Setup) (hs : List Happening) → AreUntold hs → LooksLast (journal_since setup hs) }
    // So of the run of every schedule.
    ensures schedules { (handlers : Handlers) (script : List Numbered) → LooksLast (run_journal handlers script) }
{}

/// Where nothing opens under a key that didn't seal it and no draw repeats, the journal keeps its laws, with daemons that fetch and clients that come to them: each session that is
/// admitted or resumed rests on a ticket that was issued before to its entity, with its global id and its caps, for the daemon's type, and that hadn't expired when the daemon judged
/// it; no issued ticket is refused for its key while the daemon's look lists its generation, nor as expired before it has; no two entities ever get one global id, and a login keeps
/// one only beside a live ticket of its own.
pub fn journal_laws()
    // Of every list of events that may happen, from every opening.
    ensures tickets { (setup : Setup) (hs : List Happening) → MayHappen setup hs
        → IsSound (leaked_of setup) (log_since setup hs) → IsFresh (log_since setup hs) → KeepsTickets (journal_since setup hs) }
    // All laws of each in which no client comes to a daemon.
    ensures events { (has_handler : Access → Bool) (setup : Setup) (hs : List Happening) → MayHappen setup hs → AreUnvisited hs
        → IsSound (leaked_of setup) (log_since setup hs) → IsFresh (log_since setup hs) → KeepsLaws has_handler (journal_since setup hs) }
    // So of the run of every schedule in which no breach of the two premises is found.
    ensures schedules { (handlers : Handlers) (bytes : List ℕ) (script : List Numbered) → Lines bytes script → IsFoundOf handlers script None
        → KeepsTickets (run_journal handlers script) }
{}

/// There, too, the proof that was found equal on the link on which a ticket was issued was signed before by the entity's own node, where the entity isn't
/// leaked; and where the ticket is one that was asked for once the link was open, that node sealed what opened first of the frame which came.
pub fn login_laws()
    // Of every list of events, from every opening.
    ensures events { (setup : Setup) (hs : List Happening) → MayHappen setup hs
        → IsSound (leaked_of setup) (log_since setup hs) → IsFresh (log_since setup hs) → LogIn setup (points setup hs) }
    // So of the run of every schedule in which no breach of the two premises is found.
    ensures schedules { (handlers : Handlers) (bytes : List ℕ) (script : List Numbered) → Lines bytes script → IsFoundOf handlers script None
        → LogIn (setup_of handlers script) (points (setup_of handlers script) (trace handlers script)) }
{}

/// There, too, each session that is admitted or resumed goes back: to the authorizer that was judged on its very link, at the reading that the session has, by a look that lists the
/// generation of its ticket; to that ticket, which backs the session, and was issued before and asked for on a link of the monitor on which its entity had proved itself; and to the
/// entity's own node, where that isn't leaked, which sealed what opened first of the frame that came, and signed that proof.
pub fn origin_laws()
    // Of every list of events that may happen, from every opening.
    ensures events { (setup : Setup) (hs : List Happening) → MayHappen setup hs
        → IsSound (leaked_of setup) (log_since setup hs) → IsFresh (log_since setup hs) → GoBack setup (points setup hs) }
    // So of the run of every schedule in which no breach of the two premises is found.
    ensures schedules { (handlers : Handlers) (bytes : List ℕ) (script : List Numbered) → Lines bytes script → IsFoundOf handlers script None
        → GoBack (setup_of handlers script) (points (setup_of handlers script) (trace handlers script)) }
{}

/// In the run of every schedule each operation that a client is told to send can be written: its pool, namespace and object are parts of an address, and its data
/// at most 65,536 bytes.
pub fn sending_laws()
    ensures { (handlers : Handlers) (bytes : List ℕ) (script : List Numbered) → Lines bytes script → AreWritten (trace handlers script) }
{}
