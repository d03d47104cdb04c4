//! Permitted operations.

ghost use Rattle.std.specs.Prelude.{◌≡◌, ◌≤◌, true, length, count_by, is_ok, IfOk, IfErr};
ghost use Rattle.cx_caps.specs.Grammar.{is_comma, clauses_of, CapAllows};
ghost use Rattle.cx_caps.specs.Reading.{cap_allows};

use crate::refusals::Denied;
use crate::texts::CapText;
use cx_base::{Duplicate, Operation};
use std::alloc::{AllocError, Global};
use std::marker::Model;

/// An operation that a capability text allows. `permit` alone makes one.
#[derive(Debug, PartialEq, Eq, Drop)]
pub struct Permitted {
    caps: CapText,
    ask: Operation,
}

impl Model for Permitted {
    ghost use Rattle.std.specs.Prelude.{IsTrue};
    ghost use Rattle.cx_caps.specs.Permissions.{Permission};
    ghost use Rattle.cx_caps.specs.Reading.{cap_allows};

    ghost Value = { Permission };

    ghost view = { λ permitted. record { caps = permitted.caps; ask = permitted.ask } };

    ghost invariant = { λ permitted. IsTrue (cap_allows permitted.caps permitted.ask) };

    ghost inverse = { λ permission. record { caps = permission.caps; ask = permission.ask } };
}

impl CapText {
    /// The operation, permitted, where a clause of the text allows it. Else the text is given up and the operation given
    /// back.
    #[tactic(auto, using(crate::proofs::Laws::allowed, crate::proofs::Laws::denied))]
    pub fn permit(self, ask: Operation) -> Result<Permitted, Denied>
        ensures answer { is_ok result ≡ cap_allows self ask }
        ensures ok { IfOk result (λ permitted. (permitted ≡ record { caps = self; ask = ask }) × CapAllows self ask) }
        ensures err { IfErr result (λ denied. (denied ≡ record { clauses = length (clauses_of self); ask = ask }) × (CapAllows self ask → ⊥)) }
    {
        if !self.allows(&ask) {
            let clauses = self.count_clauses();
            return Err(Denied { clauses, ask });
        }
        Ok(Permitted { caps: self, ask })
    }

    #[tactic(auto, using(crate::proofs::Laws::clauses_counted))]
    fn count_clauses(&self) -> u32
        ensures { result ≡ length (clauses_of self.now) }
    {
        count_commas(self.print().bytes()) as u32 + 1
    }
}

fn count_commas(bytes: &[u8]) -> usize
    ensures value { result ≡ count_by is_comma bytes.now }
    ensures bound { result ≤ length bytes.now }
{
    bytes.iter().filter(|b| **b == b',').count()
}

impl Permitted {
    /// The operation.
    #[tactic(auto, using(crate::proofs::Laws::allowed))]
    pub fn operation(&self) -> &Operation
        ensures value { result.now ≡ self.now.ask }
        ensures tested { cap_allows self.now.caps self.now.ask ≡ true }
        ensures allowed { CapAllows self.now.caps self.now.ask }
    {
        &self.ask
    }

    /// The operation alone.
    pub fn into_operation(self) -> Operation
        ensures { result ≡ self.ask }
    {
        self.ask
    }
}

impl Duplicate for Permitted {
    fn copy(&self, alloc: Global) -> Result<Permitted, AllocError> {
        let caps = self.caps.copy(alloc)?;
        let ask = self.ask.copy(alloc)?;
        Ok(Permitted { caps, ask })
    }
}
