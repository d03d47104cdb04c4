//! The numbers of issued tickets.

ghost use Rattle.std.specs.Prelude.{ℕ, ◌≡◌, ◌+◌, ◌<◌, ◌^◌, List, [], ◌∷◌, ◌++◌, OnOk, unwrap_or};
ghost use Rattle.std.specs.Option.{option_copied};
ghost use Rattle.std.specs.Ordering.{nat_cmp};
ghost use Rattle.std.specs.BTreeMap.{get};
ghost use Rattle.std.specs.Cmp.Lexicographic.{slice_cmp};
ghost use Rattle.cx_journal.specs.Places.{blob_of, blobs_of};
ghost use Rattle.cx_journal.specs.Ranked.{IsNumbersOf};
ghost use Rattle.cx_journal.specs.declared.entries.Entry.{Entry};

use crate::entries::Entry;
use cx_base::{Blob, Duplicate};
use std::alloc::{AllocError, Global};
use std::collections::BTreeMap;

/// How many tickets were issued, and the number, from 1, of the first one of each blob.
#[derive(Drop)]
pub struct Numbers {
    issued: u64,
    numbers: BTreeMap<Blob, u64>,
}

impl Numbers {
    /// No ticket so far.
    pub fn new(alloc: Global) -> Numbers
        ensures { IsNumbersOf result.numbers result.issued [] }
    {
        Numbers {
            issued: 0,
            numbers: BTreeMap::new(alloc),
        }
    }

    /// The next entry.
    pub fn enter(&mut self, alloc: Global, entry: &Entry) -> Result<(), AllocError>
        requires { self.old.issued + 1 < 2 ^ 64 }
        ensures { (earlier : List Entry) → IsNumbersOf self.old.numbers self.old.issued (blobs_of earlier)
            → OnOk result (IsNumbersOf self.new.numbers self.new.issued (blobs_of (earlier ++ entry.now ∷ []))) }
    {
        match blob_of(entry) {
            None => Ok(()),
            Some(blob) => self.add(alloc, blob),
        }
    }

    // The next ticket has this blob.
    fn add(&mut self, alloc: Global, blob: &Blob) -> Result<(), AllocError>
        requires { self.old.issued + 1 < 2 ^ 64 }
        ensures { (blobs : List (List ℕ)) → IsNumbersOf self.old.numbers self.old.issued blobs
            → OnOk result (IsNumbersOf self.new.numbers self.new.issued (blobs ++ blob.now ∷ [])) }
    {
        self.issued += 1;
        if self.numbers.contains_key(blob) {
            return Ok(());
        }
        let key = blob.copy(alloc)?;
        self.numbers.insert(key, self.issued)?;
        Ok(())
    }

    /// The number of the ticket that was issued last.
    pub fn last(&self) -> u64
        ensures { result ≡ self.now.issued }
    {
        self.issued
    }

    /// The number of the first ticket of this blob, 0 where there is none.
    pub fn number(&self, blob: &Blob) -> u64
        ensures { result ≡ unwrap_or (get (slice_cmp nat_cmp) self.now.numbers blob.now) 0 }
    {
        self.numbers.get(blob).copied().unwrap_or(0)
    }
}

fn blob_of(entry: &Entry) -> Option<&Blob>
    ensures { option_copied result ≡ blob_of entry.now }
{
    match entry {
        Entry::Issued(t) => Some(&t.blob),
        _ => None,
    }
}
