//! The ranks of cookies.

ghost use Rattle.std.specs.Prelude.{ℕ, ◌≡◌, List, [], ◌∷◌, ◌++◌, OnOk, unwrap_or};
ghost use Rattle.std.specs.Ordering.{nat_cmp};
ghost use Rattle.std.specs.List.{filter_map};
ghost use Rattle.std.specs.BTreeMap.{get};
ghost use Rattle.cx_journal.specs.Places.{cookie_of};
ghost use Rattle.cx_journal.specs.Ranked.{IsRanksOf};
ghost use Rattle.cx_journal.specs.declared.entries.Entry.{Entry};

use crate::entries::Entry;
use std::alloc::{AllocError, Global};
use std::collections::BTreeMap;

/// The ranks of cookies, from 1, by their first appearance.
#[derive(Drop)]
pub struct Ranks {
    ranks: BTreeMap<u64, u64>,
}

impl Ranks {
    /// No cookie so far.
    pub fn new(alloc: Global) -> Ranks
        ensures { IsRanksOf result.ranks [] }
    {
        Ranks {
            ranks: BTreeMap::new(alloc),
        }
    }

    /// The next entry.
    pub fn enter(&mut self, entry: &Entry) -> Result<(), AllocError>
        ensures { (earlier : List Entry) → IsRanksOf self.old.ranks (filter_map cookie_of earlier)
            → OnOk result (IsRanksOf self.new.ranks (filter_map cookie_of (earlier ++ entry.now ∷ []))) }
    {
        match cookie_of(entry) {
            None => Ok(()),
            Some(cookie) => self.add(cookie),
        }
    }

    // The next cookie.
    fn add(&mut self, cookie: u64) -> Result<(), AllocError>
        ensures { (cookies : List ℕ) → IsRanksOf self.old.ranks cookies
            → OnOk result (IsRanksOf self.new.ranks (cookies ++ cookie ∷ [])) }
    {
        if self.ranks.contains_key(&cookie) {
            return Ok(());
        }
        let rank = self.ranks.len() as u64 + 1;
        self.ranks.insert(cookie, rank)?;
        Ok(())
    }

    /// The rank of a cookie, 0 for one that was not entered.
    pub fn rank(&self, cookie: u64) -> u64
        ensures { result ≡ unwrap_or (get nat_cmp self.now.ranks cookie) 0 }
    {
        self.ranks.get(&cookie).copied().unwrap_or(0)
    }
}

fn cookie_of(entry: &Entry) -> Option<u64>
    ensures { result ≡ cookie_of entry.now }
{
    match entry {
        Entry::Admitted(a) => Some(a.cookie),
        Entry::Resumed(a) => Some(a.cookie),
        Entry::Sent(s) => Some(s.cookie),
        Entry::Handled(h) => Some(h.cookie),
        _ => None,
    }
}
