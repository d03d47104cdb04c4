//! The run of a schedule, audited.

ghost use Rattle.std.specs.Prelude.{◌≡◌, None, Some, IfOk, IfErr, IfNone, IfSome};
ghost use Rattle.cx_audit.specs.declared.verdicts.Verdict.{Verdict};
ghost use Rattle.cx_audit.specs.declared.verdicts.AuditRefusal.{AuditRefusal};
ghost use Rattle.cx_desk.specs.Held.{handlers_of};
ghost use Rattle.cx_journal.specs.declared.premises.Broken.{Broken};
ghost use Rattle.cx_laws_legal.specs.legal.Written.{written};
ghost use Rattle.cx_run.specs.Runs.{IsFoundOf};
ghost use Rattle.cx_words.specs.Cutting.{IsShort};
ghost use Rattle.cx_world.specs.Heads.{IsSchedule};

use crate::journals_laws::legal_laws;
use cx_audit::{AuditRefusal, Verdict, audit};
use cx_base::Blob;
use cx_desk::Desk;
use cx_laws_text::have_types;
use cx_schedule::Script;
use cx_world::{put_report, replay};
use std::alloc::Global;

/// Replays a schedule over this desk of handlers, and audits what is written: nothing is said where the run broke a premise, and
/// else, of a text within the limits of a text file, that it is legal.
pub fn audited_replay(
    alloc: Global,
    script: &Script,
    desk: &Desk,
) -> Result<Option<Verdict>, AuditRefusal>
    requires { IsSchedule script.now }
    // It is legal, where it is audited.
    ensures legal { IsShort (written (handlers_of desk.now) script.now) → IfOk result (λ found. IfSome found (λ verdict. verdict ≡ Verdict.Legal)) }
    // It is audited where no breach is found, and only there.
    ensures sound { IfOk result (λ found. IfSome found (λ verdict. IsFoundOf (handlers_of desk.now) script.now None)) }
    ensures broken { IfOk result (λ found. IfNone found ((broken : Broken) × IsFoundOf (handlers_of desk.now) script.now (Some broken))) }
    // It is never refused, but for want of memory.
    ensures only { IsShort (written (handlers_of desk.now) script.now) → IfErr result (λ why. why ≡ AuditRefusal.OutOfMemory) }
{
    legal_laws();
    let report = replay(alloc, script, desk)?;
    if report.broken.is_some() {
        return Ok(None);
    }
    have_types(report.journal.all());
    let mut text = Blob::new(alloc);
    put_report(alloc, report, &mut text)?;
    let verdict = audit(alloc, text.bytes())?;
    Ok(Some(verdict))
}
