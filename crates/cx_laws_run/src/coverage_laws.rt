//! Laws of coverage over every run.

ghost use Rattle.std.specs.Prelude.{ℕ, List, None};
ghost use Rattle.cx_base.specs.Names.{Name};
ghost use Rattle.cx_desk.specs.Handlers.{Handlers};
ghost use Rattle.cx_laws_run.specs.cx_laws_tickets.specs.fetch.Covered.{FetchesPaced, IsCovered, IsSteadyFor};
ghost use Rattle.cx_laws_run.specs.cx_laws_tickets.specs.fetch.Fetches.{AreOfMoments};
ghost use Rattle.cx_laws_run.specs.run.Laws.{MayHappen};
ghost use Rattle.cx_laws_run.specs.cx_lines.specs.declared.lines.Numbered.{Numbered};
ghost use Rattle.cx_laws_run.specs.cx_run.specs.Happenings.{Happening};
ghost use Rattle.cx_laws_run.specs.cx_run.specs.Opening.{Setup, leaked_of};
ghost use Rattle.cx_laws_run.specs.cx_run.specs.Points.{log_since, points};
ghost use Rattle.cx_laws_run.specs.cx_run.specs.Runs.{IsFoundOf, setup_of, trace};
ghost use Rattle.cx_laws_run.specs.cx_schedule.specs.Files.{Lines};
ghost use Rattle.cx_steps.specs.Premises.{IsFresh, IsSound};

/// Where nothing opens under a key that didn't seal it and no draw repeats, and the clocks of the monitor and of a daemon never fall, each look of that daemon lists the
/// generation of each unexpired ticket that was issued before for its service: while less than a life has passed since it asked for the generations that it has, and as long
/// as the newest of these is unexpired. Whatever is delivered, lost, repeated, forged or cut, restarted, or failed at a save.
pub fn cover_laws()
    // Of every list of events that may happen, from every opening.
    ensures events { (setup : Setup) (hs : List Happening) → MayHappen setup hs → IsSound (leaked_of setup) (log_since setup hs) → IsFresh (log_since setup hs)
        → (daemon : Name) → IsSteadyFor daemon hs → IsCovered setup daemon (points setup hs) }
    // So of the run of every schedule in which no breach of the two premises is found.
    ensures schedules { (handlers : Handlers) (bytes : List ℕ) (script : List Numbered) → Lines bytes script → IsFoundOf handlers script None
        → (daemon : Name) → IsSteadyFor daemon (trace handlers script)
        → IsCovered (setup_of handlers script) daemon (points (setup_of handlers script) (trace handlers script)) }
    // Whatever the clocks are: of three generations that a daemon fetched the second expires a life or more before the newest.
    ensures paced { (setup : Setup) (hs : List Happening) → MayHappen setup hs → IsSound (leaked_of setup) (log_since setup hs) → IsFresh (log_since setup hs)
        → FetchesPaced setup (points setup hs) }
    // So of the run of every schedule in which no such breach is found.
    ensures paced_schedules { (handlers : Handlers) (bytes : List ℕ) (script : List Numbered) → Lines bytes script → IsFoundOf handlers script None
        → FetchesPaced (setup_of handlers script) (points (setup_of handlers script) (trace handlers script)) }
    // Of what a daemon fetched: the monitor had saved just that at a moment, and before this moment the daemon had an event at the reading that it has as the one of its asking.
    ensures moments { (setup : Setup) (hs : List Happening) → MayHappen setup hs → IsSound (leaked_of setup) (log_since setup hs) → IsFresh (log_since setup hs)
        → AreOfMoments (points setup hs) }
    ensures moments_schedules { (handlers : Handlers) (bytes : List ℕ) (script : List Numbered) → Lines bytes script → IsFoundOf handlers script None
        → AreOfMoments (points (setup_of handlers script) (trace handlers script)) }
{}
