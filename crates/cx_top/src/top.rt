//! The top call.

ghost use Rattle.std.specs.Prelude.{◌≡◌, ◌≢◌, ◌≤◌, ◌↔◌, ◌⊎◌, [], ◌∷◌, false, true, map, IfOk, IfErr, MatchResult, string_bytes};
ghost use Rattle.cx_base.specs.Streams.{Rose};
ghost use Rattle.cx_desk.specs.Held.{handlers_of};
ghost use Rattle.cx_top.specs.Causes.{HasAnswer, HasReason, IsAnswered, IsBytesCause, IsBytesEnd, IsInputCause, IsReasonFor, IsRefusedStatus};
ghost use Rattle.cx_top.specs.Commands.{command_word, Makes, MakesOfAll, Writes, WritesFront};
ghost use Rattle.cx_top.specs.Statuses.{IsOrMemory, IsServed};
ghost use Rattle.cx_top.specs.Told.{usage_told};
ghost use Rattle.cx_top.specs.declared.commands.Subcommand.{Subcommand};
ghost use Rattle.cx_top.specs.declared.status.Status.{Status};

use crate::audits::audited;
use crate::commands::{Made, Subcommand, command_of};
use crate::input::read_all;
use crate::keyring::printed;
use crate::program_end::ProgramEnd;
use crate::replay::replayed;
use crate::status::Status;
use crate::told::{misused, refused};
use cx_base::{Sink, Source};
use cx_desk::Desk;
use std::alloc::Global;

/// Does what these words of the command line ask for: `replay` reads a schedule from `input` and writes its journal to `out`,
/// `keyring` reads a keyring and writes it in its printed form, `audit` reads a journal and writes what is said of it. Each reads up to the end of the input or one byte above the
/// limit. The operations of a schedule are served by `desk`.
pub fn run<I: Source, O: Sink>(
    alloc: Global,
    words: &[&str],
    input: &mut I,
    out: &mut O,
    desk: &Desk,
) -> ProgramEnd
    ensures usage { (result.status ≡ Status.Usage) ↔ ((command : Subcommand) → map (λ w. w.now) words.now ≢ command_word command ∷ []) }

    ensures read { result.status ≡ Status.ReadFault → Rose (I.faults input.old) (I.faults input.new) }
    ensures refused { (command : Subcommand) → map (λ w. w.now) words.now ≡ command_word command ∷ []
        → IsRefusedStatus command (I.left input.old) (I.left input.new) result.status (string_bytes result.told) }
    ensures write { result.status ≡ Status.WriteFault → Rose (O.faults out.old) (O.faults out.new) }

    ensures done { result.status ≡ Status.Done → (command : Subcommand) → map (λ w. w.now) words.now ≡ command_word command ∷ []
        → Writes (handlers_of desk.now) command false (I.left input.old) (I.left input.new) (O.taken out.old) (O.taken out.new) (string_bytes result.told) }
    ensures broken { result.status ≡ Status.Broken → (command : Subcommand) → map (λ w. w.now) words.now ≡ command_word command ∷ []
        → Writes (handlers_of desk.now) command true (I.left input.old) (I.left input.new) (O.taken out.old) (O.taken out.new) (string_bytes result.told) }
    ensures front { result.status ≡ Status.WriteFault → (command : Subcommand) → map (λ w. w.now) words.now ≡ command_word command ∷ []
        → WritesFront (handlers_of desk.now) command (I.left input.old) (I.left input.new) (O.taken out.old) (O.taken out.new) }
    ensures untouched { result.status ≢ Status.Done → result.status ≢ Status.Broken → result.status ≢ Status.WriteFault → out.new ≡ out.old }
    ensures unread { result.status ≡ Status.Usage → input.new ≡ input.old }
    ensures misused { result.status ≡ Status.Usage → (string_bytes result.told ≡ []) ⊎ (string_bytes result.told ≡ usage_told (map (λ w. w.now) words.now)) }

    // A schedule, a keyring or a journal within the limits is served, where memory isn't wanting and no count of faults rose.
    ensures complete { (command : Subcommand) → map (λ w. w.now) words.now ≡ command_word command ∷ []
        → HasAnswer command (I.left input.old)
        → ¬ Rose (I.faults input.old) (I.faults input.new) → ¬ Rose (O.faults out.old) (O.faults out.new)
        → IsServed result.status }

    // One that a limit or a line refuses is refused so.
    ensures exact { (command : Subcommand) (why : Status) → map (λ w. w.now) words.now ≡ command_word command ∷ []
        → HasReason command (I.left input.old) why → ¬ Rose (I.faults input.old) (I.faults input.new)
        → IsOrMemory why result.status }

    ensures reads { I.faults input.old ≤ I.faults input.new }
    ensures writes { O.faults out.old ≤ O.faults out.new }
{
    let Some(command) = command_of(words) else {
        return misused(alloc, words);
    };
    let Made {
        text,
        is_broken,
        told,
    } = match text_from(alloc, command, input, desk) {
        Ok(made) => made,
        Err(ended) => return ended,
    };
    if out.push(text.bytes()).is_err() {
        return ProgramEnd::plain(alloc, Status::WriteFault);
    }
    if is_broken {
        return ProgramEnd {
            status: Status::Broken,
            told,
        };
    }
    ProgramEnd {
        status: Status::Done,
        told,
    }
}

// What the command makes of this input.
#[tactic(auto, using(crate::proofs::Causes::unread_cause))]
fn text_from<I: Source>(
    alloc: Global,
    command: Subcommand,
    input: &mut I,
    desk: &Desk,
) -> Result<Made, ProgramEnd>
    ensures makes { IfOk result (λ made. MakesOfAll (handlers_of desk.now) command (I.left input.old) (I.left input.new) made.is_broken made.text (string_bytes made.told)) }
    ensures cause { IfErr result (λ ended. IsInputCause command (I.left input.old) (I.left input.new) (I.faults input.old) (I.faults input.new) ended.status (string_bytes ended.told)) }
    ensures complete { HasAnswer command (I.left input.old) → ¬ Rose (I.faults input.old) (I.faults input.new)
        → IfErr result (λ ended. ended.status ≡ Status.OutOfMemory) }
    ensures exact { (why : Status) → HasReason command (I.left input.old) why
        → ¬ Rose (I.faults input.old) (I.faults input.new)
        → MatchResult result (λ made. ⊥) (λ ended. IsOrMemory why ended.status) }
    ensures reads { I.faults input.old ≤ I.faults input.new }
{
    let bytes = match read_all(alloc, input) {
        Ok(bytes) => bytes,
        Err(unread) => return Err(ProgramEnd::plain(alloc, Status::from(unread))),
    };
    made_of(alloc, command, bytes.bytes(), desk)
}

// What the command makes of these bytes, or how it ended with them.
#[tactic(auto, using(crate::proofs::Causes::made_end, crate::proofs::Causes::end_memory, crate::proofs::Causes::end_reason))]
fn made_of(
    alloc: Global,
    command: Subcommand,
    bytes: &[u8],
    desk: &Desk,
) -> Result<Made, ProgramEnd>
    ensures makes { IfOk result (λ made. Makes (handlers_of desk.now) command bytes.now made.is_broken made.text (string_bytes made.told)) }
    ensures cause { IfErr result (IsBytesEnd command bytes.now) }
    ensures complete { IsAnswered command bytes.now → IfErr result (λ ended. ended.status ≡ Status.OutOfMemory) }
    ensures exact { (why : Status) → IsReasonFor command bytes.now why → MatchResult result (λ made. ⊥) (λ ended. IsOrMemory why ended.status) }
{
    match text_of(alloc, command, bytes, desk) {
        Ok(made) => Ok(made),
        Err(status) => Err(refused(alloc, bytes, status)),
    }
}

// What the command makes of these bytes.
fn text_of(alloc: Global, command: Subcommand, bytes: &[u8], desk: &Desk) -> Result<Made, Status>
    ensures makes { IfOk result (λ made. Makes (handlers_of desk.now) command bytes.now made.is_broken made.text (string_bytes made.told)) }
    ensures cause { IfErr result (IsBytesCause command bytes.now) }
    ensures complete { IsAnswered command bytes.now → IfErr result (λ status. status ≡ Status.OutOfMemory) }
    ensures exact { (why : Status) → IsReasonFor command bytes.now why → MatchResult result (λ made. ⊥) (IsOrMemory why) }
{
    match command {
        Subcommand::Replay => replayed(alloc, bytes, desk),
        Subcommand::Keyring => printed(alloc, bytes),
        Subcommand::Audit => audited(alloc, bytes),
    }
}
