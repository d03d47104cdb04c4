//! The law of a daemon's steps.

ghost use Rattle.std.specs.Prelude.{ℕ, List};
ghost use Rattle.cx_run.specs.cx_desk.specs.Handlers.{Handlers};
ghost use Rattle.cx_laws_tickets.specs.authorize.Admission.{StepAuthorizes};
ghost use Rattle.cx_laws_tickets.specs.authorize.Expiring.{ExpireAtReadings};
ghost use Rattle.cx_laws_keys.specs.cx_rules.specs.Inputs.{Input};
ghost use Rattle.cx_run.specs.cx_rules_session.specs.DaemonRule.{DaemonState};
ghost use Rattle.cx_run.specs.Happenings.{Happening};
ghost use Rattle.cx_run.specs.Opening.{Setup};
ghost use Rattle.cx_run.specs.Points.{points};

/// Of every daemon, at every event, whatever came: a link gets an authority by the second authorizer alone, which answers the challenge that was sent on
/// that link; its ticket opened, as the first thing that the step logs, under a generation of the view at which the daemon looked, as is entered, and
/// expires behind the reading of the event, which the authority keeps. And each session that is admitted or resumed is so at a turn of a link that has
/// an authority, for the entity, with the global id and the caps of its ticket, and at its reading. Of every list of events, from every opening: a ticket that
/// is refused as expired is so at the reading of the event, which its expiry doesn't lie behind.
pub fn authorize_laws()
    ensures steps { (handlers : Handlers) (d : DaemonState) (input : Input) (reading : ℕ) (draw : List ℕ) → StepAuthorizes handlers d input reading draw }
    ensures expiring { (setup : Setup) (hs : List Happening) → ExpireAtReadings (points setup hs) }
{}
