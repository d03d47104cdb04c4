//! What is said on standard error of how a run ended, where the sentence of its status doesn't say all.

ghost use Rattle.std.specs.Prelude.{◌≡◌, ◌⊎◌, [], map, IfOk, Some, string_bytes};
ghost use Rattle.std.specs.Str.{bytes_eq};
ghost use Rattle.cx_top.specs.Audits.{verdict_told};
ghost use Rattle.cx_top.specs.Causes.{IsEndOf};
ghost use Rattle.cx_top.specs.Sentences.{bad_line_text};
ghost use Rattle.cx_top.specs.Told.{extra_word_text, idle_line_told, idle_told, line_told, refusal_told, run_told, usage_told};
ghost use Rattle.cx_top.specs.declared.status.Status.{Status};

use crate::program_end::ProgramEnd;
use crate::sentences::{BreachTold, ExtraWord, IdleTold, OfSchedule};
use crate::status::Status;
use cx_audit::Verdict;
use cx_audit_text::WrongLine;
use cx_help::{
    BreachInJournal, LineSight, WrongInJournal, WrongInKeyring, detail_of, line_at, sight_of,
};
use cx_journal::Broken;
use cx_keyring::KeyringFault;
use cx_lines::BadWord;
use cx_world::IdleLine;
use std::alloc::{AllocError, Global};

#[tactic(auto, using(crate::proofs::Causes::ends_so, crate::proofs::Causes::ends_dry))]
/// How a run of these bytes ended that are refused with this status, or that wants memory.
pub fn refused(alloc: Global, bytes: &[u8], status: Status) -> ProgramEnd
    ensures { IsEndOf bytes.now status result }
{
    match refusal_told(alloc, bytes, status) {
        Ok(told) => ProgramEnd { status, told },
        Err(_) => ProgramEnd::plain(alloc, Status::OutOfMemory),
    }
}

fn refusal_told(alloc: Global, bytes: &[u8], status: Status) -> Result<String, AllocError>
    ensures { IfOk result (λ told. string_bytes told ≡ refusal_told bytes.now status) }
{
    match status {
        Status::BadSchedule { line, bad } => bad_line(alloc, bytes, line, &bad),
        Status::BadKeyring {
            line,
            why: Some(why),
        } => bad_keyring(alloc, bytes, line, why),
        Status::BadJournal { line, bad } => bad_journal(alloc, bytes, line, bad),
        _ => Ok(String::new(alloc)),
    }
}

fn bad_line(alloc: Global, bytes: &[u8], line: u32, bad: &BadWord) -> Result<String, AllocError>
    ensures { IfOk result (λ told. string_bytes told ≡ refusal_told bytes.now (Status.BadSchedule line bad.now)) }
{
    let sight = sight_of(alloc, line_at(bytes, line as u64), bad)?;
    let told = sight_told(alloc, line, &sight)?;
    Ok(told)
}

fn sight_told(alloc: Global, line: u32, sight: &LineSight) -> Result<String, AllocError>
    ensures { IfOk result (λ told. string_bytes told ≡ line_told (bad_line_text line sight.now)) }
{
    format!(in alloc; "cephx_cli: {}\n", OfSchedule(line, sight))
}

fn bad_keyring(
    alloc: Global,
    bytes: &[u8],
    line: u64,
    why: KeyringFault,
) -> Result<String, AllocError>
    ensures { IfOk result (λ told. string_bytes told ≡ refusal_told bytes.now (Status.BadKeyring line (Some why))) }
{
    let detail = detail_of(alloc, bytes, line, why)?;
    format!(in alloc; "cephx_cli: {}\n", WrongInKeyring { line, why, detail })
}

fn bad_journal(alloc: Global, bytes: &[u8], line: u64, bad: WrongLine) -> Result<String, AllocError>
    ensures { IfOk result (λ told. string_bytes told ≡ refusal_told bytes.now (Status.BadJournal line bad)) }
{
    let wrong = WrongInJournal {
        number: line,
        line: line_at(bytes, line),
        bad,
    };
    format!(in alloc; "cephx_cli: {}\n", wrong)
}

#[tactic(auto, using(crate::proofs::Causes::says_it, crate::proofs::Causes::says_nothing))]
/// How a run ended whose words are no command's.
pub fn misused(alloc: Global, words: &[&str]) -> ProgramEnd
    ensures status { result.status ≡ Status.Usage }
    ensures told { (string_bytes result.told ≡ []) ⊎ (string_bytes result.told ≡ usage_told (map (λ w. w.now) words.now)) }
{
    match usage_told(alloc, words) {
        Ok(told) => ProgramEnd {
            status: Status::Usage,
            told,
        },
        Err(_) => ProgramEnd::plain(alloc, Status::Usage),
    }
}

fn usage_told(alloc: Global, words: &[&str]) -> Result<String, AllocError>
    ensures { IfOk result (λ told. string_bytes told ≡ usage_told (map (λ w. w.now) words.now)) }
{
    let [command, word, ..] = words else {
        return Ok(String::new(alloc));
    };
    if is_text(command, "replay") {
        return extra_word(alloc, command, word);
    }
    if is_text(command, "keyring") {
        return extra_word(alloc, command, word);
    }
    if is_text(command, "audit") {
        return extra_word(alloc, command, word);
    }
    Ok(String::new(alloc))
}

fn is_text(word: &str, text: &str) -> bool
    ensures { result ≡ bytes_eq word.now text.now }
{
    word.as_bytes() == text.as_bytes()
}

fn extra_word(alloc: Global, command: &str, word: &str) -> Result<String, AllocError>
    ensures { IfOk result (λ told. string_bytes told ≡ line_told (extra_word_text command.now word.now)) }
{
    format!(in alloc; "cephx_cli: {}\n", ExtraWord(command, word))
}

/// What is said of a journal that breaks a rule: which line, and the rule in plain words.
pub fn verdict_told(alloc: Global, verdict: Verdict) -> Result<String, AllocError>
    ensures { IfOk result (λ told. string_bytes told ≡ verdict_told verdict) }
{
    match verdict {
        Verdict::Legal => Ok(String::new(alloc)),
        Verdict::Breaks { line, rule } => {
            format!(in alloc; "cephx_cli: {}\n", BreachInJournal { line, rule })
        }
    }
}

/// What is said of a run: the first breach of its premises, and which of its lines did nothing, and why.
pub fn run_told(
    alloc: Global,
    broken: &Option<Broken>,
    idle: &[IdleLine],
) -> Result<String, AllocError>
    ensures { IfOk result (λ told. string_bytes told ≡ run_told broken.now idle.now) }
{
    let mut told = format!(in alloc; "{}", BreachTold(broken))?;
    let idle = idle_told(alloc, idle)?;
    told.push_str(&idle)?;
    Ok(told)
}

fn idle_told(alloc: Global, idle: &[IdleLine]) -> Result<String, AllocError>
    ensures { IfOk result (λ told. string_bytes told ≡ idle_told idle.now) }
{
    let mut told = String::new(alloc);
    for line in idle {
        let one = idle_line_told(alloc, *line)?;
        told.push_str(&one)?;
    }
    Ok(told)
}

fn idle_line_told(alloc: Global, line: IdleLine) -> Result<String, AllocError>
    ensures { IfOk result (λ told. string_bytes told ≡ idle_line_told line) }
{
    format!(in alloc; "{}", IdleTold(line))
}
