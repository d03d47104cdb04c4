//! How many entries of five kinds a journal has.

ghost use Rattle.std.specs.Prelude.{◌≡◌};
ghost use Rattle.cx_top.specs.summary.Summaries.{count_of, is_of, summary_of};

use cx_journal::{Entry, Journal};
use std::fmt;

/// How many entries of five kinds a journal has.
#[derive(Clone, Copy, Debug, PartialEq, Eq)]
pub struct Summary {
    pub issued: usize,
    pub fetched: usize,
    pub admitted: usize,
    pub handled: usize,
    pub refused: usize,
}

/// The summary of a journal.
pub fn summary_of(journal: &Journal) -> Summary
    ensures { result ≡ summary_of journal.now }
{
    let entries = journal.all();
    Summary {
        issued: count_of(Kind::Issued, entries),
        fetched: count_of(Kind::Fetched, entries),
        admitted: count_of(Kind::Admitted, entries),
        handled: count_of(Kind::Handled, entries),
        refused: count_of(Kind::Refused, entries),
    }
}

// The kinds of entries that count.
#[derive(Clone, Copy)]
enum Kind {
    Issued,
    Fetched,
    Admitted,
    Handled,
    Refused,
}

fn count_of(kind: Kind, entries: &[Entry]) -> usize
    ensures { result ≡ count_of kind entries.now }
{
    let mut count: usize = 0;
    for entry in entries {
        if is_of(kind, entry) {
            count += 1;
        }
    }
    count
}

fn is_of(kind: Kind, entry: &Entry) -> bool
    ensures { result ≡ is_of kind entry.now }
{
    match kind {
        Kind::Issued => matches!(entry, Entry::Issued(_)),
        Kind::Fetched => matches!(entry, Entry::Fetched(_)),
        Kind::Admitted => matches!(entry, Entry::Admitted(_)),
        Kind::Handled => matches!(entry, Entry::Handled(_)),
        Kind::Refused => matches!(entry, Entry::Refused(_)),
    }
}

/// Five lines, as a drill writes them.
impl fmt::Display for Summary {
    ghost use Rattle.std.specs.Prelude.{Some};
    ghost use Rattle.cx_top.specs.summary.Summaries.{summary_text};

    ghost output = { λ summary. Some (summary_text summary) };

    fn fmt<W: fmt::Write>(&self, f: &mut fmt::Formatter<W>) -> fmt::Result {
        write!(
            f,
            "issued {}\nfetched {}\nadmitted {}\nhandled {}\nrefused {}\n",
            self.issued, self.fetched, self.admitted, self.handled, self.refused
        )
    }
}
