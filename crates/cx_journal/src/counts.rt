//! What is kept of the entries so far for the lines of later ones.

ghost use Rattle.std.specs.Prelude.{◌≡◌, ◌+◌, ◌<◌, ◌^◌, List, [], ◌∷◌, ◌++◌, IfOk, OnOk, unwrap_or, string_bytes};
ghost use Rattle.std.specs.Option.{option_copied, option_map};
ghost use Rattle.std.specs.Ordering.{nat_cmp};
ghost use Rattle.std.specs.BTreeMap.{get};
ghost use Rattle.std.specs.Cmp.Lexicographic.{slice_cmp};
ghost use Rattle.cx_journal.specs.JournalText.{line};
ghost use Rattle.cx_journal.specs.Counted.{IsCountOf};
ghost use Rattle.cx_journal.specs.Places.{ticket_of};
ghost use Rattle.cx_journal.specs.declared.entries.Entry.{Entry};

use crate::entries::Entry;
use crate::lines;
use crate::numbers::Numbers;
use crate::outcomes::Reason;
use crate::ranks::Ranks;
use cx_base::Blob;
use std::alloc::{AllocError, Global};

/// The counts of the entries so far.
#[derive(Drop)]
pub struct Counts {
    numbers: Numbers,
    ranks: Ranks,
}

impl Counts {
    /// No entry so far.
    pub fn new(alloc: Global) -> Counts
        ensures { IsCountOf result [] }
    {
        Counts {
            numbers: Numbers::new(alloc),
            ranks: Ranks::new(alloc),
        }
    }

    /// The next entry.
    pub fn enter(&mut self, alloc: Global, entry: &Entry) -> Result<(), AllocError>
        requires { self.old.numbers.issued + 1 < 2 ^ 64 }
        ensures { (earlier : List Entry) → IsCountOf self.old earlier
            → OnOk result (IsCountOf self.new (earlier ++ entry.now ∷ [])) }
    {
        self.numbers.enter(alloc, entry)?;
        self.ranks.enter(entry)
    }

    /// The line of the entry that was entered last.
    pub fn line(&self, alloc: Global, entry: &Entry) -> Result<String, AllocError>
        ensures { (earlier : List Entry) → IsCountOf self.now (earlier ++ entry.now ∷ [])
            → IfOk result (λ text. string_bytes text ≡ line earlier entry.now) }
    {
        match entry {
            Entry::Saved(next) => lines::saved_line(alloc, *next),
            Entry::Issued(t) => lines::issued_line(alloc, self.numbers.last(), t),
            Entry::Fetched(f) => lines::fetched_line(alloc, f),
            Entry::Looked(l) => lines::looked_line(alloc, l),
            Entry::Admitted(a) => lines::admitted_line(alloc, self.ranks.rank(a.cookie), a),
            Entry::Resumed(a) => lines::resumed_line(alloc, self.ranks.rank(a.cookie), a),
            Entry::Sent(s) => lines::sent_line(alloc, self.ranks.rank(s.cookie), s),
            Entry::Handled(h) => lines::handled_line(alloc, self.ranks.rank(h.cookie), h),
            Entry::Answered(a) => lines::answered_line(alloc, a),
            Entry::Refused(r) => {
                let number = self.ticket_number(&r.reason);
                lines::refused_line(alloc, number, r)
            }
            Entry::Ended(e) => lines::ended_line(alloc, e),
            Entry::Restarted(node) => lines::restarted_line(alloc, node),
            Entry::Broken(b) => lines::broken_line(alloc, b),
            Entry::Leaked(client) => lines::leaked_line(alloc, client),
        }
    }

    // The number of the ticket that was refused, where one was.
    fn ticket_number(&self, reason: &Reason) -> Option<u64>
        ensures { result ≡ option_map (λ blob. unwrap_or (get (slice_cmp nat_cmp) self.now.numbers.numbers blob) 0) (ticket_of reason.now) }
    {
        match ticket_of(reason) {
            None => None,
            Some(blob) => Some(self.numbers.number(blob)),
        }
    }
}

fn ticket_of(reason: &Reason) -> Option<&Blob>
    ensures { option_copied result ≡ ticket_of reason.now }
{
    match reason {
        Reason::Ticket(_, blob) => Some(blob),
        _ => None,
    }
}
