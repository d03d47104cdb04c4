//! Where the entities of names stand.

ghost use Rattle.std.specs.Prelude.{◌≡◌, ◌<◌, Some, None, IfOk, OnErr, OnOk, if◌then◌else◌, string_bytes};
ghost use Rattle.cx_base.specs.Names.{Name, name_text, same_name};
ghost use Rattle.cx_world_start.specs.head.Places.{place_of};

use cx_base::EntityName;
use std::alloc::{AllocError, Global};
use std::collections::BTreeMap;

/// Where the entities of names stand, by the texts of the names, so that no look-up goes through the entities.
#[derive(Drop)]
pub struct NamePlaces {
    texts: BTreeMap<String, usize>,
}

impl NamePlaces {
    /// No names.
    pub fn new(alloc: Global) -> NamePlaces
        ensures { (name : Name) → place_of result.texts name ≡ None }
    {
        NamePlaces {
            texts: BTreeMap::new(alloc),
        }
    }

    /// The place of the name.
    pub fn find(&self, alloc: Global, name: &EntityName) -> Result<Option<usize>, AllocError>
        ensures { IfOk result (λ place. place ≡ place_of self.now.texts name.now) }
    {
        let text = text_of(alloc, name)?;
        Ok(self.texts.get(text.as_str()).copied())
    }

    /// Puts the name at the place.
    pub fn put(&mut self, alloc: Global, name: &EntityName, place: usize) -> Result<(), AllocError>
        ensures ok { OnOk result ((n : Name) → place_of self.new.texts n ≡ (if same_name name.now n then Some place else place_of self.old.texts n)) }
        ensures err { OnErr result ((n : Name) → place_of self.new.texts n ≡ place_of self.old.texts n) }
    {
        let text = text_of(alloc, name)?;
        self.texts.insert(text, place)?;
        Ok(())
    }
}

/// The text of the name, as `osd.0`.
fn text_of(alloc: Global, name: &EntityName) -> Result<String, AllocError>
    ensures { IfOk result (λ text. string_bytes text ≡ name_text name.now) }
{
    format!(in alloc; "{}.{}", name.kind, name.id)
}
