//! Laws of the log of a run, which crates above may rest on.

ghost use Rattle.std.specs.Prelude.{◌≡◌, List, Option};
ghost use Rattle.cx_base.specs.Names.{Name};
ghost use Rattle.cx_journal.specs.declared.premises.Broken.{Broken};
ghost use Rattle.cx_steps.specs.Breach.{IsFound};
ghost use Rattle.cx_steps.specs.declared.seals.Logged.{Logged};

/// In a log one thing is found at most: that it is sound and fresh, or one first breach.
pub fn seal_laws()
    ensures { (leaked : List Name) (log : List Logged) (first second : Option Broken)
        → IsFound leaked log first → IsFound leaked log second → first ≡ second }
{}
