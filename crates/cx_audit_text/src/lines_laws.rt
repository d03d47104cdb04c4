//! The law of a journal's lines.

ghost use Rattle.std.specs.Prelude.{ℕ, ◌≡◌, true, List};
ghost use Rattle.cx_words.specs.Cutting.{words_of};
ghost use Rattle.cx_audit_text.specs.declared.words_places.CountedAbove.{CountedAbove};
ghost use Rattle.cx_audit_text.specs.lines.Lines.{Spells};
ghost use Rattle.cx_audit_text.specs.lines.Texts.{said_text};
ghost use Rattle.cx_audit_text.specs.declared.entries.JournalLine.{JournalLine};

/// What is read of a line prints as that line, byte by byte. It does nothing: its clause is the law.
pub fn text_laws()
    ensures { (counted : CountedAbove) (said : JournalLine) (line : List ℕ) → Spells counted said (words_of true line) → line ≡ said_text said }
{}
