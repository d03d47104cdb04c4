//! Capability texts.

ghost use Rattle.std.specs.Prelude.{◌≡◌, ◌↔◌, IfOk, IfErr, IsTrue};
ghost use Rattle.std.specs.List.{list_any, position};
ghost use Rattle.cx_base.specs.Texts.{is_caps};
ghost use Rattle.cx_caps.specs.Texts.{is_refused_byte, IsCapsCause};
ghost use Rattle.cx_caps.specs.Grammar.{clauses_of, CapAllows};
ghost use Rattle.cx_caps.specs.Reading.{cap_allows, clause_allows};

use crate::clauses::clause_allows;
use crate::refusals::CapRefusal;
use cx_base::{Duplicate, Operation, Text, is_caps_byte};
use std::alloc::{AllocError, Global};
use std::marker::Model;

/// A capability text: what a ticket lets its holder do at the daemons of one type. It has at most 4,096 bytes from 0x20 to
/// 0x7e, none of them a quotation mark or a backslash.
#[derive(Debug, PartialEq, Eq, Drop)]
pub struct CapText {
    held: Text,
}

impl Model for CapText {
    ghost use Rattle.std.specs.Prelude.{ℕ, List, IsTrue};
    ghost use Rattle.cx_base.specs.Texts.{is_caps};

    ghost Value = { List ℕ };

    ghost view = { λ caps. caps.held };

    ghost invariant = { λ caps. IsTrue (is_caps caps.held) };

    ghost inverse = { λ text. record { held = text } };
}

impl CapText {
    /// The capability text of these bytes, whatever its clauses say.
    #[tactic(auto, using(crate::proofs::Bytes::all_from_none))]
    pub fn read(alloc: Global, text: &Text) -> Result<CapText, CapRefusal>
        ensures ok { IfOk result (λ caps. (caps ≡ text.now) × IsTrue (is_caps text.now)) }
        ensures err { IfErr result (IsCapsCause text.now) }
    {
        if text.bytes().len() > 4096 {
            return Err(CapRefusal::TooLong);
        }
        if let Some(place) = first_refused(text.bytes()) {
            return Err(CapRefusal::BadByte(place));
        }
        let held = text.copy(alloc)?;
        Ok(CapText { held })
    }

    /// The text.
    pub fn print(&self) -> &Text
        ensures value { result.now ≡ self.now }
        ensures caps { IsTrue (is_caps result.now) }
    {
        &self.held
    }

    /// Whether a clause of the text allows the operation.
    pub fn allows(&self, ask: &Operation) -> bool
        ensures value { result ≡ cap_allows self.now ask.now }
        ensures says { IsTrue result ↔ CapAllows self.now ask.now }
    {
        text_allows(self.held.bytes(), ask)
    }
}

impl Duplicate for CapText {
    fn copy(&self, alloc: Global) -> Result<CapText, AllocError> {
        let held = self.held.copy(alloc)?;
        Ok(CapText { held })
    }
}

fn first_refused(bytes: &[u8]) -> Option<usize>
    ensures { result ≡ position is_refused_byte bytes.now }
{
    bytes.iter().position(|b| !is_caps_byte(*b))
}

fn text_allows(text: &[u8], ask: &Operation) -> bool
    ensures { result ≡ list_any (clause_allows ask.now) (clauses_of text.now) }
{
    text.split(|b| *b == b',')
        .any(|clause| clause_allows(clause, ask))
}
