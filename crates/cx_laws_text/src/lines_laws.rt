//! The law of what a journal tells.

ghost use Rattle.std.specs.Prelude.{◌<◌, ◌^◌, List, length};
ghost use Rattle.cx_journal.specs.Legal.{IsLegal};
ghost use Rattle.cx_journal.specs.declared.entries.Entry.{Entry};
ghost use Rattle.cx_laws_text.specs.told.Told.{journal_told};

/// Where the five laws of a journal of fewer than 2 ^ 64 entries hold of them, they hold of what their lines tell: a reader who sees numbers in place of
/// blobs and ranks in place of cookies finds no breach. A number is told by 64 digits at most, so there is a bound. It does nothing: its clause is the law.
pub fn told_laws()
    ensures { (entries : List Entry) → length entries < 2 ^ 64 → IsLegal entries → IsLegal (journal_told entries) }
{}
