//! What is kept of a log.

ghost use Rattle.std.specs.Prelude.{◌≡◌, [], false, not, IfOk, OnOk, OnErr};
ghost use Rattle.cx_premises.specs.Facts.{Adds, has_twin, is_kept};

use crate::facts::Fact;
use std::alloc::{AllocError, Global};
use std::collections::HashSet;
use std::marker::Model;

/// Room for the facts of a hundred logins. So much memory the system lets grow where it stands.
const ROOM: usize = 4_608;

/// The facts that a log left, found by their hash, so that none is looked for by going through the log.
#[derive(Drop)]
pub struct Kept {
    facts: HashSet<Fact>,
}

impl Model for Kept {
    ghost use Rattle.std.specs.Prelude.{List};
    ghost use Rattle.cx_premises.specs.declared.facts.Fact.{Fact as Left};

    ghost Value = { List Left };

    ghost view = { λ k. k.facts.keys };
}

impl Kept {
    /// Nothing so far.
    pub fn new(alloc: Global) -> Result<Kept, AllocError>
        ensures { IfOk result (λ kept. kept ≡ []) }
    {
        let facts = HashSet::with_capacity(alloc, ROOM)?;
        Ok(Kept { facts })
    }

    /// Whether the fact is there.
    pub fn has(&self, fact: &Fact) -> bool
        ensures { result ≡ is_kept self.now fact.now }
    {
        self.facts.contains(fact)
    }

    /// Whether a draw left the key of this one in the other form: leaked, where this one isn't, or the other way round.
    pub fn has_twin(&self, fact: &Fact) -> bool
        ensures { result ≡ has_twin self.now fact.now }
    {
        match fact {
            Fact::Key(key) => self.has(&Fact::LeakedKey(*key)),
            Fact::LeakedKey(key) => self.has(&Fact::Key(*key)),
            Fact::Sealed { .. } => false,
            Fact::Signed { .. } => false,
            Fact::Challenge(_) => false,
            Fact::Nonce(_) => false,
            Fact::Cookie(_) => false,
        }
    }

    /// Puts the fact among the others, and tells whether it is new there.
    pub fn put(&mut self, fact: Fact) -> Result<bool, AllocError>
        ensures added { IfOk result (λ added. added ≡ not (is_kept self.old fact)) }
        ensures same { IfOk result (λ added. added ≡ false → self.new ≡ self.old) }
        ensures ok { OnOk result (Adds self.old self.new fact) }
        ensures err { OnErr result (self.new ≡ self.old) }
    {
        let added = self.facts.insert(fact)?;
        Ok(added)
    }
}
