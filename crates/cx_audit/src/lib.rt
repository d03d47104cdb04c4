//! Entries of a journal, found by what stands in them.
//! The rules of a journal, and the first entry that breaks one.
//! The auditor of journals: a text is read line by line, and the first line that breaks a rule is told.
#![tactic(auto)]

mod audits;
mod finding;
mod index;
mod judging;
mod key;
mod known;
mod ruled_laws;
mod rules;
mod sessions;
mod tickets;
mod verdicts;

pub use audits::audit;
pub use finding::first_breach;
pub use index::Index;
pub use key::Key;
pub use ruled_laws::rule_laws;
pub use rules::{Breach, Rule};
pub use verdicts::{AuditRefusal, Verdict};
