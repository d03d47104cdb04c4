//! Keyrings.

ghost use Rattle.std.specs.Prelude.{◌≡◌, [], ◌∷◌, ◌++◌, None, find, option_and_then, position, IfErr, IfOk, IfSome, IsTrue, OnErr, OnOk};
ghost use Rattle.std.specs.List.{slice_get};
ghost use Rattle.std.specs.Option.{option_copied};
ghost use Rattle.cx_base.specs.Names.{Name};
ghost use Rattle.cx_keyring.specs.Entries.{are_grants, is_named, is_ring};
ghost use Rattle.cx_keyring.specs.Indexed.{place_of};
ghost use Rattle.cx_keyring.specs.Kept.{IsAddCause};

use crate::entries::Entry;
use crate::index::Index;
use crate::refusals::AddRefusal;
use cx_base::{Duplicate, EntityName, Items};
use std::alloc::{AllocError, Global};
use std::marker::Model;

/// A keyring: the entities with their secret keys and their caps, in order. No two entries have one name, and no entry has
/// two caps for one service.
#[derive(Debug, Drop)]
pub struct Keyring {
    entries: Items<Entry>,
    names: Index,
}

impl Model for Keyring {
    ghost use Rattle.std.specs.Prelude.{List};
    ghost use Rattle.cx_keyring.specs.declared.entries.Entry.{Entry};
    ghost use Rattle.cx_keyring.specs.Kept.{IsKept};

    ghost Value = { List Entry };

    ghost view = { λ r. r.entries };

    ghost invariant = { λ r. IsKept r.entries r.names.ids };
}

impl Keyring {
    /// No entries.
    pub fn empty(alloc: Global) -> Keyring
        ensures { result ≡ [] }
    {
        Keyring {
            entries: Items::new(alloc),
            names: Index::new(alloc),
        }
    }

    /// The keyring of these entries.
    pub(crate) fn of(alloc: Global, entries: Items<Entry>) -> Result<Keyring, AllocError>
        requires { IsTrue (is_ring entries) }
        ensures { IfOk result (λ ring. ring ≡ entries) }
    {
        let names = indexed(alloc, entries.all())?;
        Ok(Keyring { entries, names })
    }

    /// The entries.
    pub(crate) fn entries(&self) -> &[Entry]
        ensures same { result.now ≡ self.now }
        ensures ring { IsTrue (is_ring result.now) }
    {
        self.entries.all()
    }

    /// The entry of the name.
    pub fn find(&self, name: &EntityName) -> Option<&Entry>
        ensures found { option_copied result ≡ find (is_named name.now) self.now }
        ensures good { IfSome result (λ entry. IsTrue (are_grants entry.now.caps)) }
    {
        entry_at(self.entries.all(), self.names.find(name))
    }

    /// Puts the entry behind the others. Each of its caps is for another service, which is mon, mds, osd or mgr, and each
    /// capability text has at most 4,096 bytes from 0x20 to 0x7e, none of them a quotation mark or a backslash. How many
    /// entries stand is not limited here.
    pub fn add(&mut self, alloc: Global, entry: Entry) -> Result<(), AddRefusal>
        requires { IsTrue (are_grants entry.caps) }
        ensures ok { OnOk result (self.new ≡ self.old ++ entry ∷ []) }
        ensures fresh { OnOk result (find (is_named entry.name) self.old ≡ None) }
        ensures bad { IfErr result (IsAddCause self.old entry) }
        ensures err { OnErr result (self.new ≡ self.old) }
    {
        if self.find(&entry.name).is_some() {
            return Err(AddRefusal::Repeated(entry));
        }
        let name = entry.name.copy(alloc)?;
        let place = self.entries.all().len();
        self.entries.push(alloc, entry)?;
        if let Err(error) = self.names.put(alloc, &name, place) {
            self.entries.truncate(place);
            return Err(AddRefusal::from(error));
        }
        Ok(())
    }
}

/// The entry at the place, if there is a place.
fn entry_at(entries: &[Entry], place: Option<usize>) -> Option<&Entry>
    ensures { option_copied result ≡ option_and_then (slice_get entries.now) place }
{
    match place {
        Some(place) => entries.get(place),
        None => None,
    }
}

/// The places of the entries' names.
fn indexed(alloc: Global, entries: &[Entry]) -> Result<Index, AllocError>
    requires { IsTrue (is_ring entries.now) }
    ensures { IfOk result (λ names. (name : Name) → place_of names.ids name ≡ position (is_named name) entries.now) }
{
    let mut names = Index::new(alloc);
    for i in 0..entries.len() {
        names.put(alloc, &entries[i].name, i)?;
    }
    Ok(names)
}
