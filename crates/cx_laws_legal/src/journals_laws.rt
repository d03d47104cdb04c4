//! The law of what a replay writes.

ghost use Rattle.std.specs.Prelude.{ℕ, ◌≡◌, List, None};
ghost use Rattle.cx_audit.specs.Verdicts.{IsAudit};
ghost use Rattle.cx_audit.specs.declared.verdicts.Verdict.{Verdict};
ghost use Rattle.cx_desk.specs.Handlers.{Handlers};
ghost use Rattle.cx_audit_text.specs.lines.Reading.{IsJournal};
ghost use Rattle.cx_audit_text.specs.declared.entries.JournalLine.{JournalLine};
ghost use Rattle.cx_laws_legal.specs.legal.Written.{written};
ghost use Rattle.cx_laws_text.specs.printed.Tellable.{AreOfTypes};
ghost use Rattle.cx_lines.specs.declared.lines.Numbered.{Numbered};
ghost use Rattle.cx_run.specs.Runs.{IsFoundOf, run_journal};
ghost use Rattle.cx_schedule.specs.Files.{Lines};
ghost use Rattle.cx_words.specs.Cutting.{IsShort};

/// Of the run of every schedule in which no breach of its two premises is found, and of which the journal is of its types, as that of every run that is carried out is: where
/// the text of its journal is within the limits of a text file, it is the text of a journal, and whatever verdict is right of it is that it is legal. It does nothing: its
/// clauses are the law.
pub fn legal_laws()
    ensures says { (handlers : Handlers) (bytes : List ℕ) (script : List Numbered) → Lines bytes script → IsFoundOf handlers script None → AreOfTypes (run_journal handlers script)
        → IsShort (written handlers script) → (said : List JournalLine) × IsJournal (written handlers script) said }
    ensures legal { (handlers : Handlers) (bytes : List ℕ) (script : List Numbered) (verdict : Verdict) → Lines bytes script → IsFoundOf handlers script None
        → AreOfTypes (run_journal handlers script) → IsShort (written handlers script) → IsAudit (written handlers script) verdict → verdict ≡ Verdict.Legal }
{}
