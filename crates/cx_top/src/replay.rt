//! The command `replay`.

ghost use Rattle.std.specs.Prelude.{◌≡◌, IfOk, IfErr, MatchResult, string_bytes};
ghost use Rattle.cx_desk.specs.Held.{handlers_of};
ghost use Rattle.cx_top.specs.Causes.{IsAnswered, IsBytesCause, IsReasonFor};
ghost use Rattle.cx_top.specs.Commands.{Makes};
ghost use Rattle.cx_top.specs.Statuses.{IsOrMemory};
ghost use Rattle.cx_top.specs.declared.commands.Subcommand.TheVariants.{Replay};
ghost use Rattle.cx_top.specs.declared.status.Status.{Status};

use crate::commands::Made;
use crate::notes::replay_told;
use crate::status::Status;
use cx_base::Blob;
use cx_desk::Desk;
use cx_world::put_report;
use std::alloc::Global;

/// The text of the journal of the schedule that these bytes are, run over this desk, and behind it, where a premise is broken, the first breach.
pub fn replayed(alloc: Global, bytes: &[u8], desk: &Desk) -> Result<Made, Status>
    ensures makes { IfOk result (λ made. Makes (handlers_of desk.now) Replay bytes.now made.is_broken made.text (string_bytes made.told)) }
    ensures cause { IfErr result (IsBytesCause Replay bytes.now) }
    ensures complete { IsAnswered Replay bytes.now → IfErr result (λ status. status ≡ Status.OutOfMemory) }
    ensures exact { (why : Status) → IsReasonFor Replay bytes.now why → MatchResult result (λ made. ⊥) (IsOrMemory why) }
{
    let script = cx_schedule::read(alloc, bytes)?;
    let report = cx_world::replay(alloc, &script, desk)?;
    let is_broken = report.broken.is_some();
    let told = replay_told(alloc, script.lines(), &report.broken, report.idle.all())?;
    let mut text = Blob::new(alloc);
    put_report(alloc, report, &mut text)?;
    Ok(Made {
        text,
        is_broken,
        told,
    })
}
