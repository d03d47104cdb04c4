//! The command `keyring`.

ghost use Rattle.std.specs.Prelude.{◌≡◌, false, IfOk, IfErr, MatchResult, string_bytes};
ghost use Rattle.cx_top.specs.Causes.{IsAnswered, IsBytesCause, IsReasonFor};
ghost use Rattle.cx_top.specs.Commands.{Prints};
ghost use Rattle.cx_top.specs.Statuses.{IsOrMemory};
ghost use Rattle.cx_top.specs.declared.commands.Subcommand.TheVariants.{Keyring};
ghost use Rattle.cx_top.specs.declared.status.Status.{Status};

use crate::commands::Made;
use crate::status::Status;
use cx_help::ring_told;
use cx_keyring::{parse, print};
use cx_words::is_short;
use std::alloc::Global;

/// The printed form of the keyring that these bytes are.
pub fn printed(alloc: Global, bytes: &[u8]) -> Result<Made, Status>
    ensures makes { IfOk result (λ made. Prints bytes.now made.text (string_bytes made.told) × (made.is_broken ≡ false)) }
    ensures cause { IfErr result (IsBytesCause Keyring bytes.now) }
    ensures complete { IsAnswered Keyring bytes.now → IfErr result (λ status. status ≡ Status.OutOfMemory) }
    ensures exact { (why : Status) → IsReasonFor Keyring bytes.now why → MatchResult result (λ text. ⊥) (IsOrMemory why) }
{
    if !is_short(bytes) {
        return Err(Status::TooLong);
    }
    let ring = parse(alloc, bytes)?;
    let text = print(alloc, &ring)?;
    let told = ring_told(alloc, true, bytes)?;
    Ok(Made {
        text,
        is_broken: false,
        told,
    })
}
