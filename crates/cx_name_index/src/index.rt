//! Where names stand in a list.

ghost use Rattle.std.specs.Prelude.{◌≡◌, None, Some, if◌then◌else◌, OnErr, OnOk};
ghost use Rattle.std.specs.BTreeMap.{get_by_text};
ghost use Rattle.cx_base.specs.Names.{Name, same_kind, same_name};
ghost use Rattle.cx_base.specs.declared.kinds.EntityType.{EntityType};
ghost use Rattle.cx_name_index.specs.Indexed.{first_place, place_among, place_at, place_of};

use cx_base::{EntityName, EntityType};
use std::alloc::{AllocError, Global};
use std::collections::BTreeMap;

/// The places of the names that have one id, one for each type of entity.
#[derive(Clone, Copy)]
struct PlacesByType {
    mon: Option<usize>,
    mds: Option<usize>,
    osd: Option<usize>,
    client: Option<usize>,
    mgr: Option<usize>,
    auth: Option<usize>,
}

/// Where names stand in a list, by their ids, so that no look-up goes through the list.
#[derive(Drop)]
pub struct Index {
    ids: BTreeMap<String, PlacesByType>,
}

impl Index {
    /// No names.
    pub fn new(alloc: Global) -> Index
        ensures { (n : Name) → place_of result.ids n ≡ None }
    {
        Index {
            ids: BTreeMap::new(alloc),
        }
    }

    /// The place of the name.
    pub fn find(&self, name: &EntityName) -> Option<usize>
        ensures { result ≡ place_of self.now.ids name.now }
    {
        match self.ids.get(name.id.as_str()) {
            Some(places) => places.get(name.kind),
            None => None,
        }
    }

    /// The places of the names with this one's id.
    fn at(&self, name: &EntityName) -> PlacesByType
        ensures { (kind : EntityType) → place_at result kind ≡ place_among (get_by_text self.now.ids name.now.id) kind }
    {
        match self.ids.get(name.id.as_str()) {
            Some(places) => *places,
            None => PlacesByType::none(),
        }
    }

    /// Puts the name at the place, unless it has one. Where memory is wanting, all names keep their places.
    pub fn note(&mut self, alloc: Global, name: &EntityName, place: usize) -> Result<(), AllocError>
        ensures ok { OnOk result ((n : Name) → place_of self.new.ids n ≡ first_place (place_of self.old.ids n) (same_name name.now n) place) }
        ensures err { OnErr result ((n : Name) → place_of self.new.ids n ≡ place_of self.old.ids n) }
    {
        match self.find(name) {
            Some(_) => Ok(()),
            None => self.put(alloc, name, place),
        }
    }

    // Puts the name at the place, whether it has one or not.
    fn put(&mut self, alloc: Global, name: &EntityName, place: usize) -> Result<(), AllocError>
        ensures ok { OnOk result ((n : Name) → place_of self.new.ids n ≡ (if same_name name.now n then Some place else place_of self.old.ids n)) }
        ensures err { OnErr result ((n : Name) → place_of self.new.ids n ≡ place_of self.old.ids n) }
    {
        let places = self.at(name).with(name.kind, place);
        let id = String::from_str(alloc, name.id.as_str())?;
        self.ids.insert(id, places)?;
        Ok(())
    }
}

impl PlacesByType {
    fn none() -> PlacesByType
        ensures { (kind : EntityType) → place_at result kind ≡ None }
    {
        PlacesByType {
            mon: None,
            mds: None,
            osd: None,
            client: None,
            mgr: None,
            auth: None,
        }
    }

    fn get(&self, kind: EntityType) -> Option<usize>
        ensures { result ≡ place_at self.now kind }
    {
        match kind {
            EntityType::Mon => self.mon,
            EntityType::Mds => self.mds,
            EntityType::Osd => self.osd,
            EntityType::Client => self.client,
            EntityType::Mgr => self.mgr,
            EntityType::Auth => self.auth,
        }
    }

    /// These places, with this one for names of the type.
    fn with(self, kind: EntityType, place: usize) -> PlacesByType
        ensures { (other : EntityType) → place_at result other ≡ (if same_kind kind other then Some place else place_at self other) }
    {
        let mut places = self;
        match kind {
            EntityType::Mon => places.mon = Some(place),
            EntityType::Mds => places.mds = Some(place),
            EntityType::Osd => places.osd = Some(place),
            EntityType::Client => places.client = Some(place),
            EntityType::Mgr => places.mgr = Some(place),
            EntityType::Auth => places.auth = Some(place),
        }
        places
    }
}
