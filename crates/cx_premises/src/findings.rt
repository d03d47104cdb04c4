//! What was found in a log so far.

ghost use Rattle.std.specs.Prelude.{◌≡◌, [], None, OnOk, OnErr};
ghost use Rattle.std.specs.Option.{option_copied};
ghost use Rattle.cx_premises.specs.Findings.{closed, first_of, suspected};

use crate::facts::Fact;
use crate::kept::Kept;
use cx_base::Items;
use cx_journal::Broken;
use std::alloc::{AllocError, Global};

/// Something that opened or was found equal at the monitor or at a daemon, though nothing sealed or signed it: a breach unless
/// its key leaks.
#[derive(Drop)]
pub struct Suspect {
    pub key: [u8; 16],
    pub broken: Broken,
}

/// The suspects before the first breach that no leak excuses, and that breach.
#[derive(Drop)]
pub struct Findings {
    suspects: Items<Suspect>,
    breach: Option<Broken>,
}

impl Findings {
    /// Nothing so far.
    pub fn new(alloc: Global) -> Findings
        ensures { result ≡ record { suspects = []; breach = None } }
    {
        Findings {
            suspects: Items::new(alloc),
            breach: None,
        }
    }

    /// A breach that no leak excuses. The first one stays.
    pub fn close(&mut self, broken: Broken)
        ensures { self.new ≡ closed self.old broken }
    {
        if self.breach.is_none() {
            self.breach = Some(broken);
        }
    }

    /// A suspect, which counts only before the first breach that no leak excuses.
    pub fn suspect(&mut self, alloc: Global, suspect: Suspect) -> Result<(), AllocError>
        ensures ok { OnOk result (self.new ≡ suspected self.old suspect) }
        ensures err { OnErr result (self.new ≡ self.old) }
    {
        if self.breach.is_some() {
            return Ok(());
        }
        self.suspects.push(alloc, suspect)
    }

    /// The first suspect whose key didn't leak, else the breach.
    pub fn first(&self, kept: &Kept) -> Option<&Broken>
        ensures { option_copied result ≡ first_of kept.now self.now.suspects self.now.breach }
    {
        for suspect in self.suspects.all() {
            if !kept.has(&Fact::LeakedKey(suspect.key)) {
                return Some(&suspect.broken);
            }
        }
        self.breach.as_ref()
    }
}
