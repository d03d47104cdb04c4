//! The run of a schedule.

ghost use Rattle.std.specs.Prelude.{◌≡◌, IfOk};
ghost use Rattle.cx_desk.specs.Held.{handlers_of};
ghost use Rattle.cx_world.specs.replayed.Serving.{IsReplayOf};
ghost use Rattle.cx_world.specs.Heads.{IsSchedule};
ghost use Rattle.cx_world.specs.Idle.{idle_lines};

use crate::Report;
use cx_desk::Desk;
use cx_laws_run::{
    cover_laws, front_laws, journal_laws, login_laws, origin_laws, session_laws, standing_laws,
    truth_laws, whole_laws,
};
use cx_schedule::Script;
use std::alloc::{AllocError, Global};

/// The run of a schedule over this desk of handlers. What is so of every run is so of it, and where it keeps both premises, the other laws hold of it too.
pub fn replay(alloc: Global, script: &Script, desk: &Desk) -> Result<Report, AllocError>
    requires { IsSchedule script.now }
    ensures replayed { IfOk result (λ report. IsReplayOf (handlers_of desk.now) script.now report.journal report.broken) }
    ensures idle { IfOk result (λ report. report.idle ≡ idle_lines (handlers_of desk.now) script.now) }
{
    standing_laws();
    journal_laws();
    login_laws();
    origin_laws();
    session_laws();
    truth_laws();
    whole_laws();
    cover_laws();
    front_laws();
    let report = crate::run(alloc, script, desk)?;
    Ok(report)
}
