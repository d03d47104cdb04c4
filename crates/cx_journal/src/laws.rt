//! Laws of the definitions of a journal, which crates above may rest on.

ghost use Rattle.std.specs.Prelude.{◌≡◌, ◌↔◌, List, Some};
ghost use Rattle.cx_journal.specs.Sessions.{IsHandledIn, session_at};
ghost use Rattle.cx_journal.specs.declared.entries.Admitted.{Admitted};
ghost use Rattle.cx_journal.specs.declared.entries.Entry.{Entry};
ghost use Rattle.cx_journal.specs.declared.entries.Handled.{Handled};

/// An operation was handled in a session exactly where that session is the computed one, so in one at most.
pub fn session_laws()
    ensures { (earlier : List Entry) (handled : Handled) (session : Admitted)
        → IsHandledIn earlier handled session ↔ (session_at earlier handled ≡ Some session) }
{}
