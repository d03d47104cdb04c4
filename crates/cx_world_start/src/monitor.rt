//! The monitor with which a run begins.

ghost use Rattle.std.specs.Prelude.{◌≡◌, ◌∷◌, [], ◌++◌, None, find, map, IfOk, IsTrue, OnOk};
ghost use Rattle.cx_keyring.specs.Entries.{are_grants, is_named};
ghost use Rattle.cx_rotate.specs.Keeping.{IsKeptState};
ghost use Rattle.cx_holdings.specs.cx_rules.specs.Abridged.{MonitorStandsFor};
ghost use Rattle.cx_run.specs.Opening.{first_state, monitor_of, principal_of};

use crate::setup::Setup;
use cx_base::{Addr, SECOND};
use cx_keyring::{AddRefusal, Entry, Keyring};
use cx_keyserver::KeyServer;
use cx_mon::Monitor;
use cx_rotate::{Generations, KeptState};
use std::alloc::{AllocError, Global};

// The monitor's address on this machine.
const MONITOR: Addr = Addr {
    nonce: 0,
    ip: [127, 0, 0, 1],
    port: 6789,
};

impl Setup {
    /// The monitor, with the entities in its keyring.
    pub fn monitor(&self, alloc: Global) -> Result<Monitor, AllocError>
        ensures value { IfOk result (λ monitor. monitor ≡ monitor_of self.now) }
        ensures stands { IfOk result (λ monitor. MonitorStandsFor monitor (monitor_of self.now)) }
    {
        let ring = self.keyring(alloc)?;
        let server = KeyServer::new(ring, self.first_state());
        Ok(Monitor::new(alloc, server, MONITOR))
    }

    /// The state with which the monitor begins.
    fn first_state(&self) -> KeptState
        ensures value { result ≡ first_state self.now }
        ensures kept { IsKeptState result }
    {
        KeptState {
            next_gid: 1,
            life: self.life * SECOND,
            auth_life: self.auth_life * SECOND,
            mds: Generations::empty(),
            osd: Generations::empty(),
            mgr: Generations::empty(),
            auth: Generations::empty(),
        }
    }

    /// The monitor's keyring.
    fn keyring(&self, alloc: Global) -> Result<Keyring, AllocError>
        ensures { IfOk result (λ ring. ring ≡ map principal_of self.now.entities) }
    {
        let mut ring = Keyring::empty(alloc);
        for entity in self.entities() {
            let principal = entity.principal(alloc)?;
            enrol(alloc, &mut ring, principal)?;
        }
        Ok(ring)
    }
}

/// Puts the entry into the keyring, which has none of its name.
fn enrol(alloc: Global, ring: &mut Keyring, principal: Entry) -> Result<(), AllocError>
    requires fresh { find (is_named principal.name) ring.old ≡ None }
    requires granted { IsTrue (are_grants principal.caps) }
    ensures { OnOk result (ring.new ≡ ring.old ++ principal ∷ []) }
{
    match ring.add(alloc, principal) {
        Ok(()) => Ok(()),
        Err(AddRefusal::Repeated(_)) => unreachable!(),
        Err(AddRefusal::OutOfMemory) => Err(AllocError),
    }
}
