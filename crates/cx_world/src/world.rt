//! The world of a run.

ghost use Rattle.std.specs.Prelude.{◌≡◌, ◌||◌};

use crate::records::{Record, enter, log};
use crate::{Made, Nodes};
use cx_base::{Items, NodeName};
use cx_desk::Desk;
use cx_steps::{Effects, Event};
use cx_words::LeftState;
use cx_world_start::Wires;
use std::alloc::{AllocError, Global};
use std::mem;

fn either(a: bool, b: bool) -> bool
    ensures { result ≡ (a || b) }
{
    a || b
}

/// The world of a run: its nodes, the links between them, the state that the monitor's next save is to leave where that is to fail, the line,
/// journal and log so far, and whether something happened since that was last asked.
#[derive(Drop)]
pub struct World {
    pub nodes: Nodes,
    pub wires: Wires,
    pub left: Option<LeftState>,
    pub line: u32,
    pub told: Record,
    pub stirred: bool,
}

impl World {
    ghost use Rattle.std.specs.Prelude.{ℕ, ◌≡◌, Option, IfOk, OnOk};
    ghost use Rattle.cx_desk.specs.Handlers.{Handlers};
    ghost use Rattle.cx_desk.specs.Held.{handlers_of};
    ghost use Rattle.cx_world_start.specs.cx_rules.specs.Inputs.{input_of};
    ghost use Rattle.cx_world_start.specs.cx_run.specs.Deliveries.{gives, tells};
    ghost use Rattle.cx_world_start.specs.cx_run.specs.Worlds.{World as RunWorld, carried};
    ghost use Rattle.cx_world.specs.Coming.{IsWritableInput};
    ghost use Rattle.cx_world.specs.Carried.{Began, Carries, IsGivenTo, IsNoted, Makes, without_told};

    /// One event of one node.
    pub(crate) fn give(
        &mut self,
        alloc: Global,
        desk: &Desk,
        who: &NodeName,
        event: Event<'_>,
    ) -> Result<Made, AllocError>
        requires { IsWritableInput (input_of event) }
        ensures { (b : Began (handlers_of desk.now)) (seen : Option ℕ) (w : RunWorld) → Carries b seen self.old w
            → IfOk result (λ made. IsGivenTo b seen self.new made (gives w who.now (input_of event.entry))) }
    {
        let mut made = self.nodes.step(alloc, desk, who, event, self.left)?;
        self.note(alloc, who, &mut made)?;
        Ok(made)
    }

    // What an event came to is entered and logged: what that takes is moved out of it.
    fn note(&mut self, alloc: Global, who: &NodeName, made: &mut Made) -> Result<(), AllocError>
        ensures noted { OnOk result (IsNoted who.now made.old self.old self.new) }
        ensures left { OnOk result (made.new ≡ record made.old { out = without_told made.old.out }) }
    {
        self.stirred = either(made.happened, self.stirred);
        let entries = mem::replace(&mut made.out.entries, Items::new(alloc));
        let seals = mem::replace(&mut made.out.seals, Items::new(alloc));
        enter(alloc, &mut self.told.journal, entries)?;
        log(alloc, &mut self.told.ledger, who, self.line, seals)?;
        Ok(())
    }

    /// What an event sends and shuts is carried out: the pieces are moved out of it.
    pub(crate) fn carry(
        &mut self,
        alloc: Global,
        who: &NodeName,
        out: &mut Effects,
    ) -> Result<(), AllocError>
        ensures carried { OnOk result ((handlers : Handlers) → Makes handlers self.old self.new (λ w. carried w who.now out.old)) }
        ensures opens { out.new.opens ≡ out.old.opens }
    {
        let sends = mem::replace(&mut out.sends, Items::new(alloc));
        self.wires.send(who, sends)?;
        self.wires.shut(who, out.shuts.all())?;
        Ok(())
    }

    /// An event at which no link opens and nothing is saved.
    pub(crate) fn tell(
        &mut self,
        alloc: Global,
        desk: &Desk,
        who: &NodeName,
        event: Event<'_>,
    ) -> Result<(), AllocError>
        requires { IsWritableInput (input_of event) }
        ensures { OnOk result (Makes (handlers_of desk.now) self.old self.new (λ w. tells w who.now (input_of event.entry))) }
    {
        let mut made = self.give(alloc, desk, who, event)?;
        self.carry(alloc, who, &mut made.out)
    }
}
