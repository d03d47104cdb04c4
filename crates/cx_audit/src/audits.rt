//! The audit of a text.

ghost use Rattle.std.specs.Prelude.{ℕ, ◌≡◌, List, IfOk, IfErr, MatchResult};
ghost use Rattle.std.specs.List.{filter_map};
ghost use Rattle.cx_audit.specs.Verdicts.{IsAudit, IsAuditCause, IsRefusedAt, IsVerdict, entry_numbers, entry_of};
ghost use Rattle.cx_audit.specs.declared.verdicts.AuditRefusal.{AuditRefusal};
ghost use Rattle.cx_audit_text.specs.lines.Reading.{IsFirstBad, IsJournal, nothing};
ghost use Rattle.cx_audit_text.specs.declared.entries.JournalLine.{JournalLine};
ghost use Rattle.cx_audit_text.specs.declared.refusals.WrongLine.{WrongLine};
ghost use Rattle.cx_words.specs.Cutting.{IsShort, lines_of};

use crate::first_breach;
use crate::verdicts::{AuditRefusal, Verdict};
use cx_audit_text::{JournalLine, JournalRefusal, read};
use cx_base::Duplicate;
use cx_journal::Entry;
use std::alloc::{AllocError, Global};

/// What is said of the text of a journal, whoever wrote it. It is legal exactly where no line breaks a rule, which is exactly
/// where the five laws of a journal hold of what its lines say; else the first line that breaks one is told, with the least rule
/// that it breaks. A text with a line that is none of a journal is refused, at the first such line.
pub fn audit(alloc: Global, text: &[u8]) -> Result<Verdict, AuditRefusal>
    ensures ok { IfOk result (IsAudit text.now) }
    ensures err { IfErr result (IsAuditCause text.now) }
    // The text of a journal is audited, or memory is wanting.
    ensures only { (said : List JournalLine) → IsShort text.now → IsJournal text.now said
        → IfErr result (λ why. why ≡ AuditRefusal.OutOfMemory) }
    // A text whose first line that says nothing is this one is refused for it, or memory is wanting.
    ensures exact { (number : ℕ) (bad : WrongLine) → IsShort text.now → IsFirstBad nothing (lines_of text.now) number bad
        → MatchResult result (λ verdict. ⊥) (IsRefusedAt number bad) }
{
    match read(alloc, text) {
        Ok(said) => {
            let verdict = judge(alloc, said.as_slice())?;
            Ok(verdict)
        }
        Err(JournalRefusal::BadLine(line, bad)) => Err(AuditRefusal::BadLine(line, bad)),
        Err(JournalRefusal::OutOfMemory) => Err(AuditRefusal::OutOfMemory),
    }
}

/// The entries that lines say, and the numbers of their lines.
#[derive(Drop)]
struct Numbered {
    entries: Vec<Entry>,
    numbers: Vec<u64>,
}

fn judge(alloc: Global, said: &[JournalLine]) -> Result<Verdict, AllocError>
    ensures { IfOk result (IsVerdict said.now) }
{
    let numbered = entries_in(alloc, said)?;
    match first_breach(alloc, numbered.entries.as_slice())? {
        None => Ok(Verdict::Legal),
        Some(breach) => Ok(Verdict::Breaks {
            line: numbered.numbers[breach.place],
            rule: breach.rule,
        }),
    }
}

fn entries_in(alloc: Global, said: &[JournalLine]) -> Result<Numbered, AllocError>
    ensures entries { IfOk result (λ found. found.entries.items ≡ filter_map entry_of said.now) }
    ensures numbers { IfOk result (λ found. found.numbers.items ≡ entry_numbers 1 said.now) }
{
    let mut entries = Vec::new(alloc);
    let mut numbers = Vec::new(alloc);
    for (i, line) in said.iter().enumerate() {
        if let JournalLine::Entry(entry) = line {
            let copied = entry.copy(alloc)?;
            entries.push(copied)?;
            numbers.push(i as u64 + 1)?;
        }
    }
    Ok(Numbered { entries, numbers })
}
