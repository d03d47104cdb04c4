//! The command `audit`.

ghost use Rattle.std.specs.Prelude.{◌≡◌, false, IfOk, IfErr, MatchResult, string_bytes};
ghost use Rattle.cx_help.specs.audit.Said.{verdict_text};
ghost use Rattle.cx_top.specs.Causes.{IsAnswered, IsBytesCause, IsReasonFor};
ghost use Rattle.cx_top.specs.Commands.{Audits};
ghost use Rattle.cx_top.specs.Statuses.{IsOrMemory};
ghost use Rattle.cx_top.specs.declared.commands.Subcommand.TheVariants.{Audit};
ghost use Rattle.cx_top.specs.declared.status.Status.{Status};

use crate::commands::Made;
use crate::status::Status;
use crate::told::verdict_told;
use cx_audit::{Verdict, audit};
use cx_base::Blob;
use cx_help::VerdictLine;
use cx_words::is_short;
use std::alloc::{AllocError, Global};

/// What is said of the journal that these bytes are.
#[tactic(auto, using(crate::proofs::Reasons::audit_cause, crate::proofs::Reasons::audit_answered))]
pub fn audited(alloc: Global, bytes: &[u8]) -> Result<Made, Status>
    ensures makes { IfOk result (λ made. Audits bytes.now made.text (string_bytes made.told) × (made.is_broken ≡ false)) }
    ensures cause { IfErr result (IsBytesCause Audit bytes.now) }
    ensures complete { IsAnswered Audit bytes.now → IfErr result (λ status. status ≡ Status.OutOfMemory) }
    ensures exact { (why : Status) → IsReasonFor Audit bytes.now why → MatchResult result (λ text. ⊥) (IsOrMemory why) }
{
    if !is_short(bytes) {
        return Err(Status::TooLong);
    }
    let verdict = audit(alloc, bytes)?;
    let text = verdict_line(alloc, verdict)?;
    let told = verdict_told(alloc, verdict)?;
    Ok(Made {
        text,
        is_broken: false,
        told,
    })
}

fn verdict_line(alloc: Global, verdict: Verdict) -> Result<Blob, AllocError>
    ensures { IfOk result (λ text. text ≡ verdict_text verdict) }
{
    let line = format!(in alloc; "{}", VerdictLine(verdict))?;
    Blob::of(alloc, line.as_bytes())
}
