//! Laws of the points of a run.

ghost use Rattle.std.specs.Prelude.{◌≡◌, [], List, Contains};
ghost use Rattle.cx_rules_session.specs.cx_journal.specs.declared.entries.Entry.{Entry};
ghost use Rattle.cx_run.specs.Happenings.{Happening};
ghost use Rattle.cx_run.specs.Opening.{Setup};
ghost use Rattle.cx_run.specs.Points.{IsOfEvent, Point, WasEntered, entered_until, journal_since, log_since, logged_until, onto, points};

/// Journal and log of a list of events are read off its points, and what stands in a journal was entered at one of them.
pub fn point_laws()
    ensures journal { (setup : Setup) (hs : List Happening) → journal_since setup hs ≡ entered_until setup (points setup hs) }
    // The log with its newest entry first.
    ensures log { (setup : Setup) (hs : List Happening) → onto (log_since setup hs) [] ≡ logged_until setup (points setup hs) }
    // The leaked clients alone are entered before all events.
    ensures entered { (setup : Setup) (past : List Point) (e : Entry) → IsOfEvent e → Contains (entered_until setup past) e → WasEntered past e }
{}
