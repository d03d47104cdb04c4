//! What is written of an audit, and what is said besides.

use crate::rules::rule_sentence;
use cx_audit::{Rule, Verdict};
use std::fmt;

/// The line of a verdict.
#[derive(Clone, Copy)]
pub struct VerdictLine(pub Verdict);

impl fmt::Display for VerdictLine {
    ghost use Rattle.std.specs.Prelude.{Some};
    ghost use Rattle.cx_help.specs.audit.Said.{verdict_text};

    ghost output = { λ line. Some (verdict_text line.0) };

    fn fmt<W: fmt::Write>(&self, f: &mut fmt::Formatter<W>) -> fmt::Result {
        match self.0 {
            Verdict::Legal => write!(f, "legal\n"),
            Verdict::Breaks { line, rule } => write!(f, "breaks {} {}\n", line, rule.number()),
        }
    }
}

/// The rule that the line of this number breaks, in plain words.
#[derive(Clone, Copy)]
pub struct BreachInJournal {
    pub line: u64,
    pub rule: Rule,
}

impl fmt::Display for BreachInJournal {
    ghost use Rattle.std.specs.Prelude.{Some};
    ghost use Rattle.cx_help.specs.audit.Said.{breach_text};

    ghost output = { λ breach. Some (breach_text breach.line breach.rule) };

    fn fmt<W: fmt::Write>(&self, f: &mut fmt::Formatter<W>) -> fmt::Result {
        write!(
            f,
            "line {} of the journal breaks rule {}",
            self.line,
            RuleTold(self.rule)
        )
    }
}

/// A rule with its number.
#[derive(Clone, Copy)]
struct RuleTold(Rule);

impl fmt::Display for RuleTold {
    ghost use Rattle.std.specs.Prelude.{Some};
    ghost use Rattle.cx_help.specs.audit.Said.{rule_text};

    ghost output = { λ told. Some (rule_text told.0) };

    fn fmt<W: fmt::Write>(&self, f: &mut fmt::Formatter<W>) -> fmt::Result {
        write!(f, "{}: {}", self.0.number(), rule_sentence(self.0))
    }
}
