//! What the head lines of a schedule say.

ghost use Rattle.std.specs.Prelude.{◌≡◌, ◌<◌, [], ◌∷◌, ◌++◌, Some, false, length, map, IfOk, IsTrue, OnOk};
ghost use Rattle.std.specs.List.{list_any};
ghost use Rattle.cx_desk.specs.Handlers.{Handlers};
ghost use Rattle.cx_keyring.specs.Entries.{are_grants, is_named};
ghost use Rattle.cx_base.specs.declared.nodes.NodeName.TheVariants as place;
ghost use Rattle.cx_run.specs.Opening.{changed, declared, plain_setup, principal_of, seeded, set_up_by, set_up_line};
ghost use Rattle.cx_run.specs.Runs.{setup_of};
ghost use Rattle.cx_words.specs.lines.Known.{is_declarable};
ghost use Rattle.cx_world_start.specs.head.Beginning.{CanBegin, IsSchedule, MayFollow, MaySay, unhandled, with_handlers};

use crate::declared::Declared;
use crate::head_places::NamePlaces;
use crate::leaks::Leak;
use cx_base::{Duplicate, EntityName, Grant, Items, NodeName, copy_items};
use cx_lines::{Line, Numbered, Setting};
use cx_words::Modes;
use std::alloc::{AllocError, Global};
use std::marker::Model;

/// What the head lines of a schedule say: both lives in seconds, the entities, the seed of the monitor's dice, and the leaked clients.
#[derive(Drop)]
pub struct Setup {
    pub(crate) life: u64,
    pub(crate) auth_life: u64,
    pub(crate) entities: Vec<Declared>,
    pub(crate) monitor_seed: u64,
    pub(crate) leaks: Items<Leak>,
    places: NamePlaces,
}

impl Model for Setup {
    ghost use Rattle.cx_run.specs.Opening as run;
    ghost use Rattle.cx_world_start.specs.head.Beginning.{AreHeld, unhandled};

    ghost Value = { run.Setup };

    ghost view = { λ s. record {
      life = s.life;
      auth_life = s.auth_life;
      entities = s.entities.items;
      monitor_seed = s.monitor_seed;
      leaks = s.leaks;
      handlers = unhandled;
    } };

    ghost invariant = { λ s. AreHeld s.life s.auth_life s.entities.items s.places.texts };
}

impl Setup {
    /// What the head lines of a schedule say, whichever handlers the daemons have.
    #[tactic(auto, using(crate::proofs::head::Handling::handled))]
    pub fn of(alloc: Global, lines: &[Numbered]) -> Result<Setup, AllocError>
        requires { IsSchedule lines.now }
        ensures { IfOk result (λ setup. (handlers : Handlers) → with_handlers handlers setup ≡ setup_of handlers lines.now) }
    {
        let setup = Setup::read_all(alloc, lines)?;
        Ok(setup)
    }

    /// What all of these lines say. A second line that names an entity finds it without going through the others.
    fn read_all(alloc: Global, lines: &[Numbered]) -> Result<Setup, AllocError>
        requires { IsSchedule lines.now }
        ensures { IfOk result (λ setup. setup ≡ setup_of unhandled lines.now) }
    {
        let mut setup = Setup::plain(alloc);
        for line in lines {
            setup.read(alloc, line)?;
        }
        Ok(setup)
    }

    /// The entities, in the order of their lines.
    pub fn entities(&self) -> &[Declared]
        ensures value { result.now ≡ self.now.entities }
        ensures fit { CanBegin self.now }
    {
        self.entities.as_slice()
    }

    /// The seed of the monitor's dice.
    pub fn monitor_seed(&self) -> u64
        ensures { result ≡ self.now.monitor_seed }
    {
        self.monitor_seed
    }

    /// Where nothing is said.
    fn plain(alloc: Global) -> Setup
        ensures { result ≡ plain_setup unhandled }
    {
        Setup {
            life: 3600,
            auth_life: 43_200,
            entities: Vec::new(alloc),
            monitor_seed: 0,
            leaks: Items::new(alloc),
            places: NamePlaces::new(alloc),
        }
    }

    /// What a line says.
    fn read(&mut self, alloc: Global, line: &Numbered) -> Result<(), AllocError>
        requires follows { MayFollow self.old line.now.line }
        requires few { length self.old.entities < 20000 }
        ensures { OnOk result (self.new ≡ set_up_line self.old line.now.number line.now.line) }
    {
        match &line.line {
            Line::Setting(setting) => self.set(alloc, line.number, setting),
            Line::Submit(_) => Ok(()),
            Line::Do(_) => Ok(()),
            Line::Link(_) => Ok(()),
            Line::Node(_) => Ok(()),
        }
    }

    /// What a head line with this number says.
    fn set(&mut self, alloc: Global, number: u32, setting: &Setting) -> Result<(), AllocError>
        requires may { MaySay self.old setting.now }
        requires few { length self.old.entities < 20000 }
        ensures { OnOk result (self.new ≡ set_up_by self.old number setting.now) }
    {
        match setting {
            Setting::Lifetime(seconds) => {
                self.life = *seconds;
                Ok(())
            }
            Setting::AuthLifetime(seconds) => {
                self.auth_life = *seconds;
                Ok(())
            }
            Setting::Entity(name, grants) => self.declare(alloc, number, name, grants),
            Setting::Seed(node, seed) => self.seed(alloc, node, *seed),
            Setting::Modes(name, modes) => self.offer(alloc, name, *modes),
            Setting::Leak(name) => self.leak(alloc, number, name),
        }
    }

    /// An entity more.
    fn declare(
        &mut self,
        alloc: Global,
        line: u32,
        name: &EntityName,
        grants: &Items<Grant>,
    ) -> Result<(), AllocError>
        requires fresh { list_any (is_named name.now) (map principal_of self.old.entities) ≡ false }
        requires declarable { IsTrue (is_declarable name.now) }
        requires granted { IsTrue (are_grants grants.now) }
        requires few { length self.old.entities < 20000 }
        ensures { OnOk result (self.new ≡ declared line name.now grants.now self.old) }
    {
        let place = self.entities.as_slice().len();
        let entity = Declared {
            number: (place + 1) as u32,
            line,
            name: name.copy(alloc)?,
            grants: copy_items(alloc, grants)?,
            seed: None,
            modes: Modes::Both,
        };
        self.entities.push(entity)?;
        if let Err(error) = self.places.put(alloc, name, place) {
            self.entities.truncate(place);
            return Err(error);
        }
        Ok(())
    }

    /// The seed of a node.
    fn seed(&mut self, alloc: Global, node: &NodeName, seed: u64) -> Result<(), AllocError>
        ensures { OnOk result (self.new ≡ seeded node.now seed self.old) }
    {
        match node {
            NodeName::Monitor => {
                self.monitor_seed = seed;
                Ok(())
            }
            NodeName::Entity(name) => self.seed_entity(alloc, name, seed),
        }
    }

    /// The seed of an entity's node.
    fn seed_entity(&mut self, alloc: Global, name: &EntityName, seed: u64) -> Result<(), AllocError>
        ensures { OnOk result (self.new ≡ seeded (place.Entity name.now) seed self.old) }
    {
        if let Some(place) = self.places.find(alloc, name)? {
            if let Some(entity) = self.entities.get_mut(place) {
                entity.seed = Some(seed);
            }
        }
        Ok(())
    }

    /// The modes that a client offers.
    fn offer(&mut self, alloc: Global, name: &EntityName, modes: Modes) -> Result<(), AllocError>
        ensures { OnOk result (self.new ≡ changed name.now (λ e. record e { modes = modes }) self.old) }
    {
        if let Some(place) = self.places.find(alloc, name)? {
            if let Some(entity) = self.entities.get_mut(place) {
                entity.modes = modes;
            }
        }
        Ok(())
    }

    /// A client more that is leaked.
    fn leak(&mut self, alloc: Global, line: u32, name: &EntityName) -> Result<(), AllocError>
        ensures { OnOk result (self.new ≡ record self.old { leaks = self.old.leaks ++ record { line = line; client = name.now } ∷ [] }) }
    {
        let client = name.copy(alloc)?;
        self.leaks.push(alloc, Leak { line, client })
    }
}
