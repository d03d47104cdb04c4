//! What each line of a schedule does.

ghost use Rattle.std.specs.Prelude.{◌≡◌, ℕ, Option, IfOk, IsTrue, OnOk};
ghost use Rattle.cx_desk.specs.Held.{handlers_of};
ghost use Rattle.cx_world_start.specs.cx_rules.specs.Inputs.{Submit};
ghost use Rattle.cx_base.specs.declared.nodes.NodeName.TheVariants as node;
ghost use Rattle.cx_lines.specs.Lines.{is_in_range, is_numbered_in_range};
ghost use Rattle.cx_lines.specs.declared.commands.LineCommand.TheVariants as command;
ghost use Rattle.cx_world_start.specs.cx_run.specs.Schedules.{acts_on, after_line, services_sum, submits, submitted};
ghost use Rattle.cx_world_start.specs.cx_run.specs.Sending.{is_command_written, is_line_written, is_numbered_written, is_written};
ghost use Rattle.cx_world_start.specs.cx_run.specs.Worlds.{World as RunWorld};
ghost use Rattle.cx_steps.specs.declared.events.Command.TheVariants as told;
ghost use Rattle.cx_world.specs.Carried.{Began, Carries, Makes, MakesAlone};

use crate::world::World;
use cx_base::{Duplicate, EntityName, EntityType, NodeName, Operation};
use cx_desk::Desk;
use cx_enc::number_of;
use cx_lines::{Line, LineCommand, Numbered};
use cx_steps::{Command as Told, Event};
use std::alloc::{AllocError, Global};

// The sum of services, by the numbers of their types. Where it is above those of 32 bits, memory counts as wanting.
fn services_sum(services: &[EntityType]) -> Result<u32, AllocError>
    ensures { IfOk result (λ sum. sum ≡ services_sum services.now) }
{
    let mut sum: u32 = 0;
    for service in services {
        match sum.checked_add(number_of(*service)) {
            Some(more) => sum = more,
            None => return Err(AllocError),
        }
    }
    Ok(sum)
}

// That a client is told to send a daemon this operation.
fn send_told(alloc: Global, daemon: &EntityName, operation: &Operation) -> Result<Told, AllocError>
    ensures { IfOk result (λ command. command ≡ told.Send daemon.now operation.now) }
{
    let daemon = daemon.copy(alloc)?;
    let operation = operation.copy(alloc)?;
    Ok(Told::Send { daemon, operation })
}

impl World {
    /// A client logs in.
    fn login(
        &mut self,
        alloc: Global,
        desk: &Desk,
        client: &EntityName,
        services: &[EntityType],
    ) -> Result<(), AllocError>
        ensures { OnOk result (Makes (handlers_of desk.now) self.old self.new (λ w. submitted w (command.Login client.now services.now))) }
    {
        let sum = services_sum(services)?;
        let who = NodeName::Entity(client.copy(alloc)?);
        self.come(alloc, desk, &who, Event::Submit(Told::Login(sum)))
    }

    /// A client asks for tickets.
    fn renew(
        &mut self,
        alloc: Global,
        desk: &Desk,
        client: &EntityName,
        services: &[EntityType],
    ) -> Result<(), AllocError>
        ensures { OnOk result (Makes (handlers_of desk.now) self.old self.new (λ w. submitted w (command.Renew client.now services.now))) }
    {
        let sum = services_sum(services)?;
        let who = NodeName::Entity(client.copy(alloc)?);
        self.come(alloc, desk, &who, Event::Submit(Told::Renew(sum)))
    }

    /// A daemon asks for the generations of its type.
    fn fetch(&mut self, alloc: Global, desk: &Desk, daemon: &EntityName) -> Result<(), AllocError>
        ensures { OnOk result (Makes (handlers_of desk.now) self.old self.new (λ w. submitted w (command.Fetch daemon.now))) }
    {
        let who = NodeName::Entity(daemon.copy(alloc)?);
        self.come(alloc, desk, &who, Event::Submit(Told::Fetch))
    }

    /// A client calls a daemon.
    fn connect(
        &mut self,
        alloc: Global,
        desk: &Desk,
        client: &EntityName,
        daemon: &EntityName,
        lossy: bool,
    ) -> Result<(), AllocError>
        ensures { OnOk result (Makes (handlers_of desk.now) self.old self.new (λ w. submitted w (command.Connect client.now daemon.now lossy))) }
    {
        let called = daemon.copy(alloc)?;
        let who = NodeName::Entity(client.copy(alloc)?);
        self.come(
            alloc,
            desk,
            &who,
            Event::Submit(Told::Connect {
                daemon: called,
                lossy,
            }),
        )
    }

    /// A client sends a daemon an operation.
    fn send(
        &mut self,
        alloc: Global,
        desk: &Desk,
        client: &EntityName,
        daemon: &EntityName,
        operation: &Operation,
    ) -> Result<(), AllocError>
        requires { IsTrue (is_written operation.now) }
        ensures { OnOk result (Makes (handlers_of desk.now) self.old self.new (λ w. submitted w (command.Send client.now daemon.now operation.now))) }
    {
        let told = send_told(alloc, daemon, operation)?;
        let who = NodeName::Entity(client.copy(alloc)?);
        self.come(alloc, desk, &who, Event::Submit(told))
    }

    /// What a command does.
    fn submit(
        &mut self,
        alloc: Global,
        desk: &Desk,
        command: &LineCommand,
    ) -> Result<(), AllocError>
        requires { IsTrue (is_command_written command.now) }
        ensures { OnOk result (Makes (handlers_of desk.now) self.old self.new (λ w. submitted w command.now)) }
    {
        match command {
            LineCommand::Login(client, services) => self.login(alloc, desk, client, services.all()),
            LineCommand::Fetch(daemon) => self.fetch(alloc, desk, daemon),
            LineCommand::Renew(client, services) => self.renew(alloc, desk, client, services.all()),
            LineCommand::Connect(client, daemon, lossy) => {
                self.connect(alloc, desk, client, daemon, *lossy)
            }
            LineCommand::Send(client, daemon, operation) => {
                self.send(alloc, desk, client, daemon, operation)
            }
        }
    }

    /// The same, and then all settles.
    fn submit_and_settle(
        &mut self,
        alloc: Global,
        desk: &Desk,
        command: &LineCommand,
    ) -> Result<(), AllocError>
        requires { IsTrue (is_command_written command.now) }
        ensures { OnOk result (MakesAlone (handlers_of desk.now) self.old self.new (λ w. submits w command.now)) }
    {
        self.submit(alloc, desk, command)?;
        self.settle(alloc, desk)
    }

    /// What a line does, once its number was noted.
    fn act_on(&mut self, alloc: Global, desk: &Desk, line: &Line) -> Result<(), AllocError>
        requires in_range { IsTrue (is_in_range line.now) }
        requires written { IsTrue (is_line_written line.now) }
        ensures { OnOk result (MakesAlone (handlers_of desk.now) self.old self.new (λ w. acts_on w line.now)) }
    {
        match line {
            Line::Setting(_) => Ok(()),
            Line::Submit(command) => self.submit_and_settle(alloc, desk, command),
            Line::Do(command) => self.submit(alloc, desk, command),
            Line::Link(step) => self.act_on_link(alloc, desk, step),
            Line::Node(step) => self.act_on_node(alloc, desk, step),
        }
    }

    /// What a line does.
    pub(crate) fn act(
        &mut self,
        alloc: Global,
        desk: &Desk,
        line: &Numbered,
    ) -> Result<(), AllocError>
        requires in_range { IsTrue (is_numbered_in_range line.now) }
        requires written { IsTrue (is_numbered_written line.now) }
        ensures { OnOk result (MakesAlone (handlers_of desk.now) self.old self.new (λ w. after_line w line.now)) }
    {
        self.line = line.number;
        self.act_on(alloc, desk, &line.line)
    }
}
