//! The laws of the printed text of entries.

ghost use Rattle.std.specs.Prelude.{ℕ, ◌≡◌, ◌<◌, ◌^◌, List, length, map};
ghost use Rattle.cx_audit.specs.Verdicts.{IsAudit};
ghost use Rattle.cx_audit.specs.declared.verdicts.Verdict.{Verdict};
ghost use Rattle.cx_journal.specs.JournalText.{journal_text};
ghost use Rattle.cx_journal.specs.Legal.{IsLegal};
ghost use Rattle.cx_journal.specs.declared.entries.Entry.{Entry};
ghost use Rattle.cx_audit_text.specs.lines.Reading.{IsJournal};
ghost use Rattle.cx_audit_text.specs.declared.entries.JournalLine.{JournalLine};
ghost use Rattle.cx_laws_text.specs.printed.Tellable.{AreBounded, AreOfTypes};
ghost use Rattle.cx_laws_text.specs.told.Told.{journal_told};
ghost use Rattle.cx_words.specs.Cutting.{IsShort, lines_of};

/// The text of entries that lines can tell is read back: each line says what is told of its entry. A text says one thing. So where the five laws hold of
/// such entries, their text is legal to an auditor, and is called nothing else. It does nothing: its clauses are the laws.
pub fn printed_laws()
    ensures reads { (entries : List Entry) → length entries < 2 ^ 64 → AreOfTypes entries → AreBounded entries
        → IsJournal (journal_text entries) (map (λ e. JournalLine.Entry e) (journal_told entries)) }
    ensures once { (text : List ℕ) (said other : List JournalLine) → length (lines_of text) < 2 ^ 64 → IsJournal text said → IsJournal text other → said ≡ other }
    ensures legal { (entries : List Entry) (verdict : Verdict) → IsShort (journal_text entries) → AreOfTypes entries → AreBounded entries
        → IsLegal entries → IsAudit (journal_text entries) verdict → verdict ≡ Verdict.Legal }
{}
