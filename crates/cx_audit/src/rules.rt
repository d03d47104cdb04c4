//! The rules of a journal.

ghost use Rattle.std.specs.Prelude.{◌≡◌};
ghost use Rattle.cx_audit.specs.ruled.Rules.{rule_number};

/// What an entry of a journal owes to those before it.
#[derive(Clone, Copy, Debug, PartialEq, Eq)]
pub enum Rule {
    /// A session that is admitted or resumed rests on an issued ticket that hasn't expired.
    Backed,
    /// An operation is handled in a session that stands.
    InSession,
    /// A daemon refuses an issued ticket for its generation only where its view lacks that.
    KeepsKeys,
    /// What is handled was sent, in order, each operation once.
    PrefixOfSent,
    /// A global id is one entity's, and a login keeps one only by renewal.
    GidOnce,
}

impl Rule {
    /// The number of the rule.
    pub fn number(self) -> u8
        ensures { result ≡ rule_number self }
    {
        match self {
            Rule::Backed => 11,
            Rule::InSession => 12,
            Rule::KeepsKeys => 13,
            Rule::PrefixOfSent => 15,
            Rule::GidOnce => 16,
        }
    }
}

/// The entry at this place, from 0, breaks this rule.
#[derive(Clone, Copy, Debug, PartialEq, Eq)]
pub struct Breach {
    pub place: usize,
    pub rule: Rule,
}
