//! What a line does to clocks, nodes and saves.

ghost use Rattle.std.specs.Prelude.{◌<◌, Some, IsTrue, OnOk};
ghost use Rattle.cx_desk.specs.Handlers.{Handlers};
ghost use Rattle.cx_desk.specs.Held.{handlers_of};
ghost use Rattle.cx_lines.specs.Lines.{is_in_range};
ghost use Rattle.cx_lines.specs.declared.lines.Line.TheVariants as line;
ghost use Rattle.cx_lines.specs.declared.node_steps.NodeStep.TheVariants as step;
ghost use Rattle.cx_world_start.specs.cx_rules.specs.Inputs.{Tick};
ghost use Rattle.cx_world_start.specs.cx_run.specs.Deliveries.{comes, settles};
ghost use Rattle.cx_world_start.specs.cx_run.specs.Schedules.{all_read, on_node, one_reads};
ghost use Rattle.cx_world_start.specs.cx_run.specs.Worlds.{World as RunWorld};
ghost use Rattle.cx_world.specs.Carried.{Makes, MakesAlone};

use crate::world::World;
use cx_base::{Duplicate, EntityName, NodeName, Reading};
use cx_desk::Desk;
use cx_lines::NodeStep;
use cx_steps::{Command as Told, Event};
use cx_words::LeftState;
use std::alloc::{AllocError, Global};

impl World {
    /// All clocks read this from here on.
    fn set_clocks(&mut self, reading: Reading)
        requires { reading < 4000000000000000000 }
        ensures { (handlers : Handlers) → Makes handlers self.old self.new (all_read reading) }
    {
        self.nodes.read_all(reading);
    }

    /// The clock of one node reads this from here on.
    fn set_clock(&mut self, who: &NodeName, reading: Reading)
        requires { reading < 4000000000000000000 }
        ensures { (handlers : Handlers) → Makes handlers self.old self.new (one_reads who.now reading) }
    {
        self.nodes.read_one(who, reading);
    }

    /// The monitor's next save fails, and leaves this state.
    fn fail_save(&mut self, left: LeftState)
        ensures { (handlers : Handlers) → Makes handlers self.old self.new (λ w. record w { left = Some left }) }
    {
        self.left = Some(left);
    }

    /// A daemon drops a session.
    fn drop_session(
        &mut self,
        alloc: Global,
        desk: &Desk,
        daemon: &EntityName,
        session: u64,
    ) -> Result<(), AllocError>
        ensures { OnOk result (Makes (handlers_of desk.now) self.old self.new (λ w. on_node w (step.DropSession daemon.now session))) }
    {
        let who = NodeName::Entity(daemon.copy(alloc)?);
        self.come(alloc, desk, &who, Event::Submit(Told::Drop(session)))
    }

    /// It is time for a node to look after what it holds, and then all settles.
    fn tick(&mut self, alloc: Global, desk: &Desk, who: &NodeName) -> Result<(), AllocError>
        ensures { OnOk result (MakesAlone (handlers_of desk.now) self.old self.new (λ w. settles (comes w who.now Tick))) }
    {
        self.come(alloc, desk, who, Event::Tick)?;
        self.settle(alloc, desk)
    }

    /// What a line does to clocks, nodes and saves.
    pub(crate) fn act_on_node(
        &mut self,
        alloc: Global,
        desk: &Desk,
        step: &NodeStep,
    ) -> Result<(), AllocError>
        requires { IsTrue (is_in_range (line.Node step.now)) }
        ensures { OnOk result (MakesAlone (handlers_of desk.now) self.old self.new (λ w. on_node w step.now)) }
    {
        match step {
            NodeStep::Clock(reading) => {
                self.set_clocks(*reading);
                Ok(())
            }
            NodeStep::ClockOf(who, reading) => {
                self.set_clock(who, *reading);
                Ok(())
            }
            NodeStep::DropSession(daemon, session) => {
                self.drop_session(alloc, desk, daemon, *session)
            }
            NodeStep::Tick(who) => self.tick(alloc, desk, who),
            NodeStep::Restart(who) => self.restart(alloc, desk, who),
            NodeStep::FailSave(left) => {
                self.fail_save(*left);
                Ok(())
            }
            NodeStep::Settle => self.settle(alloc, desk),
        }
    }
}
