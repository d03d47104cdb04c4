//! The laws of a schedule's lines.

ghost use Rattle.std.specs.Prelude.{ℕ, ◌≡◌, ◌↔◌, List, None};
ghost use Rattle.cx_words.specs.declared.known.Known.{Known};
ghost use Rattle.cx_lines.specs.Lines.{fault_of, Spells};
ghost use Rattle.cx_lines.specs.declared.lines.Line.{Line};

/// Words have none of the faults exactly where they spell a line, whatever is known of the lines above, and they spell one at
/// most. It does nothing: its clauses are the laws.
pub fn line_laws()
    ensures faultless { (known : Known) (words : List (List ℕ)) → (fault_of known words ≡ None) ↔ ((line : Line) × Spells known line words) }
    ensures one { (known : Known) (words : List (List ℕ)) (line other : Line) → Spells known line words → Spells known other words → line ≡ other }
{}
