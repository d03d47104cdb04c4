//! The law of the rules.

ghost use Rattle.std.specs.Prelude.{◌↔◌, List, []};
ghost use Rattle.cx_journal.specs.Behind.{EachBehind};
ghost use Rattle.cx_journal.specs.Legal.{IsLegal};
ghost use Rattle.cx_journal.specs.declared.entries.Entry.{Entry};
ghost use Rattle.cx_audit.specs.ruled.Rules.{KeepsAll};

/// Each entry of a journal keeps each rule exactly where the five laws of a journal hold of it. It does nothing: its clause is
/// the law.
pub fn rule_laws()
    ensures { (entries : List Entry) → EachBehind (KeepsAll entries) [] entries ↔ IsLegal entries }
{}
