//! The world as a run begins.

ghost use Rattle.std.specs.Prelude.{[], IfOk};
ghost use Rattle.cx_desk.specs.Handlers.{Handlers};
ghost use Rattle.cx_world.specs.Beginning.{began};
ghost use Rattle.cx_world.specs.Carried.{IsRecord};
ghost use Rattle.cx_world.specs.Heads.{with_handlers};

use crate::records::{Record, log_all};
use crate::world::World;
use crate::{Setup, opening_nodes};
use cx_premises::Ledger;
use cx_world_start::Wires;
use std::alloc::{AllocError, Global};

impl World {
    ghost use Rattle.std.specs.Prelude.{None, IfOk};
    ghost use Rattle.cx_desk.specs.Handlers.{Handlers};
    ghost use Rattle.cx_world_start.specs.cx_run.specs.Opening.{opening_world};
    ghost use Rattle.cx_world.specs.Beginning.{began};
    ghost use Rattle.cx_world.specs.Carried.{Carries};
    ghost use Rattle.cx_world.specs.Heads.{with_handlers};

    /// The world before anything happened, whichever handlers the daemons have.
    #[tactic(auto, using(crate::proofs::Started::begun))]
    pub(crate) fn begin(alloc: Global, setup: &Setup) -> Result<World, AllocError>
        ensures { IfOk result (λ world. (handlers : Handlers) → Carries (began (with_handlers handlers setup.now)) None world (opening_world (with_handlers handlers setup.now))) }
    {
        let told = told_before(alloc, setup)?;
        let nodes = opening_nodes(alloc, setup)?;
        Ok(World {
            nodes,
            wires: Wires::new(alloc),
            left: None,
            line: 0,
            told,
            stirred: false,
        })
    }
}

/// What stands in journal and log before all events.
#[tactic(auto, using(crate::proofs::Started::recorded))]
fn told_before(alloc: Global, setup: &Setup) -> Result<Record, AllocError>
    ensures { IfOk result (λ told. (handlers : Handlers) → IsRecord (began (with_handlers handlers setup.now)) told []) }
{
    let journal = setup.leaks_entered(alloc)?;
    let leaked = setup.leaked(alloc)?;
    let secrets = setup.secrets_drawn(alloc)?;
    let mut ledger = Ledger::new(alloc, leaked.all())?;
    log_all(alloc, &mut ledger, secrets.all())?;
    Ok(Record { journal, ledger })
}
