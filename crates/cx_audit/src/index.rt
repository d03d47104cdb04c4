//! Entries by their keys.

ghost use Rattle.std.specs.Prelude.{◌≡◌, ◌++◌, [], ◌∷◌, OnOk, Some, unwrap_or};
ghost use Rattle.std.specs.Option.{option_map};
ghost use Rattle.cx_audit.specs.indexed.Keyed.{Puts, at, held, under};
ghost use Rattle.cx_audit.specs.declared.key.Key.{Key};

use crate::key::Key;
use cx_journal::Entry;
use std::alloc::{AllocError, Global};
use std::collections::BTreeMap;

/// Entries by keys, those of one key in the order in which they came: none is looked for by going through those of another key.
#[derive(Drop)]
pub struct Index<'a> {
    by_key: BTreeMap<Key, Vec<&'a Entry>>,
}

impl<'a> Index<'a> {
    /// No entries.
    pub fn new(alloc: Global) -> Index<'a>
        ensures { (key : Key) → under result key ≡ [] }
    {
        Index {
            by_key: BTreeMap::new(alloc),
        }
    }

    /// The entries of this key, where there are any.
    pub fn under(&self, key: &Key) -> Option<&Vec<&'a Entry>>
        ensures { option_map (λ entries. held entries.now) result ≡ at self.now key.now }
    {
        self.by_key.get(key)
    }

    /// Puts the entry behind the others of its key, where it has one. Where memory is wanting, the index is of no use any more.
    pub fn put(
        &mut self,
        alloc: Global,
        key: Option<Key>,
        entry: &'a Entry,
    ) -> Result<(), AllocError>
        ensures { OnOk result (Puts key entry.now self.old self.new) }
    {
        match key {
            Some(key) => self.put_under(alloc, key, entry),
            None => Ok(()),
        }
    }

    fn put_under(&mut self, alloc: Global, key: Key, entry: &'a Entry) -> Result<(), AllocError>
        ensures { OnOk result (Puts (Some key) entry.now self.old self.new) }
    {
        let mut entries = or_none(alloc, self.by_key.remove(&key));
        add(&mut entries, entry)?;
        self.by_key.insert(key, entries)?;
        Ok(())
    }
}

fn or_none<'a>(alloc: Global, removed: Option<Vec<&'a Entry>>) -> Vec<&'a Entry>
    ensures { held result ≡ unwrap_or (option_map held removed.entry) [] }
{
    match removed {
        Some(entries) => entries,
        None => Vec::new(alloc),
    }
}

fn add<'a>(entries: &mut Vec<&'a Entry>, entry: &'a Entry) -> Result<(), AllocError>
    ensures { OnOk result (held entries.new ≡ held entries.old ++ entry.now ∷ []) }
{
    entries.push(entry)?;
    Ok(())
}
