//! What comes to a node next.

ghost use Rattle.std.specs.Prelude.{◌≡◌, [], ◌∷◌, Some, IfNone, IfOk, IfSome, OnErr};
ghost use Rattle.std.specs.Option.{option_map};
ghost use Rattle.cx_client.specs.Machine.{IsWritableCommand, IsWritableInput};
ghost use Rattle.cx_drive.specs.Agendas.{agenda_of, at_quiet, gone_count, opening_agenda, passed, turning_behind, with_event};
ghost use Rattle.cx_client.specs.cx_rules_session.specs.cx_rules.specs.Inputs.{input_of};

use crate::dues::Due;
use cx_base::Duplicate;
use cx_client::can_be_told;
use cx_steps::{Command, Event};
use std::alloc::{AllocError, Global};
use std::collections::VecDeque;
use std::marker::Model;

/// What a node may be told to do: an operation that is to be sent can be written.
#[derive(PartialEq, Eq, Drop)]
pub struct Told {
    command: Command,
}

impl Model for Told {
    ghost use Rattle.cx_client.specs.Machine.{IsWritableCommand};
    ghost use Rattle.cx_steps.specs.declared.events.Command.{Command};

    ghost Value = { Command };

    ghost view = { λ t. t.command };

    ghost inverse = { λ c. record { command = c } };

    ghost invariant = { λ t. IsWritableCommand t.command };
}

impl Told {
    /// That it is told to do this; none where this is to send an operation that can't be written.
    pub fn of(command: Command) -> Option<Told>
        ensures told { IfSome result (λ told. told ≡ command) }
        ensures none { IfNone result (¬ IsWritableCommand command) }
    {
        if can_be_told(&command) {
            Some(Told { command })
        } else {
            None
        }
    }

    // The command, once more.
    fn command(&self, alloc: Global) -> Result<Command, AllocError>
        ensures same { IfOk result (λ command. command ≡ self.now) }
        ensures writable { IfOk result (λ command. IsWritableCommand command) }
    {
        self.command.copy(alloc)
    }
}

/// What the script of a node says.
#[derive(PartialEq, Eq, Drop)]
pub enum Order {
    /// The node is told to do this, once it waits for nothing.
    Submit(Told),
    /// The next line waits until so many links were gone.
    Gone(u64),
    /// The node ends, once it waits for nothing.
    Stop,
}

/// How far a run is: what is due, the link that is turned, the orders that are left, how many links were gone, how many events may still be
/// taken, whether the orders ended the node, and whether memory was wanting in a step.
#[derive(Drop)]
pub(crate) struct Flow<'a> {
    pub dues: VecDeque<Due>,
    pub turning: Option<u32>,
    pub orders: &'a [Order],
    pub gone: u64,
    pub left: u64,
    pub over: bool,
    pub short: bool,
}

impl<'a> Flow<'a> {
    pub fn new(alloc: Global, orders: &'a [Order], events: u64) -> Flow<'a>
        ensures { agenda_of result ≡ opening_agenda orders.now events }
    {
        Flow {
            dues: VecDeque::new(alloc),
            turning: None,
            orders,
            gone: 0,
            left: events,
            over: false,
            short: false,
        }
    }

    /// Counts a link that is gone.
    pub fn count_gone(&mut self, event: &Event<'_>)
        ensures { agenda_of self.new ≡ record (agenda_of self.old) { gone = gone_count (input_of event.now) (agenda_of self.old).gone } }
    {
        match event {
            Event::Gone(_) => self.gone = self.gone.saturating_add(1),
            _ => {}
        }
    }

    /// What a node is told where nothing comes: where it waits for nothing, the next of its orders, which ends it or is a command; else that
    /// some time passed.
    pub fn quiet(&mut self, alloc: Global, idle: bool) -> Result<Option<Event<'static>>, AllocError>
        ensures ok { IfOk result (λ event. at_quiet (passed (agenda_of self.old).gone (agenda_of self.old).orders) idle (agenda_of self.old)
            ≡ with_event (option_map input_of event) (agenda_of self.new)) }
        ensures writable { IfOk result (λ event. IfSome event (λ e. IsWritableInput (input_of e))) }
        ensures err { OnErr result (self.new.short ≡ self.old.short) }
    {
        let orders = passed(self.orders, self.gone);
        self.orders = orders;
        let Some((first, rest)) = orders.split_first() else {
            return Ok(Some(Event::Tick));
        };
        match first {
            Order::Stop => Ok(self.stop(idle, rest)),
            Order::Submit(told) => self.submit(alloc, idle, told, rest),
            Order::Gone(_) => Ok(Some(Event::Tick)),
        }
    }

    // The orders end the node, where it is idle.
    fn stop(&mut self, idle: bool, rest: &[Order]) -> Option<Event<'static>>
        requires { (agenda_of self.old).orders ≡ Order.Stop ∷ rest.now }
        ensures ok { at_quiet (agenda_of self.old).orders idle (agenda_of self.old) ≡ with_event (option_map input_of result) (agenda_of self.new) }
        ensures writable { IfSome result (λ event. IsWritableInput (input_of event)) }
        ensures short { self.new.short ≡ self.old.short }
    {
        if !idle {
            return Some(Event::Tick);
        }
        self.over = true;
        None
    }

    // The command that is the first of the orders, where the node is idle.
    fn submit(
        &mut self,
        alloc: Global,
        idle: bool,
        told: &Told,
        rest: &'a [Order],
    ) -> Result<Option<Event<'static>>, AllocError>
        requires { (agenda_of self.old).orders ≡ Order.Submit told.now ∷ rest.now }
        ensures ok { IfOk result (λ event. at_quiet (agenda_of self.old).orders idle (agenda_of self.old)
            ≡ with_event (option_map input_of event) (agenda_of self.new)) }
        ensures writable { IfOk result (λ event. IfSome event (λ e. IsWritableInput (input_of e))) }
        ensures err { OnErr result (self.new.short ≡ self.old.short) }
    {
        if !idle {
            return Ok(Some(Event::Tick));
        }
        let command = told.command(alloc)?;
        self.orders = rest;
        Ok(Some(Event::Submit(command)))
    }
}

// The orders without those that waited for links that are gone.
fn passed(orders: &[Order], gone: u64) -> &[Order]
    ensures { result.now ≡ passed gone orders.now }
{
    let mut left = orders;
    while let Some((Order::Gone(links), rest)) = left.split_first() {
        if gone < *links {
            return left;
        }
        left = rest;
    }
    left
}

/// A link is turned again where a banner or a frame of it was handled at its turn.
pub(crate) fn turned_again(link: u32, turned: bool) -> Option<u32>
    ensures { result ≡ turning_behind [] turned (Some link) }
{
    if turned { Some(link) } else { None }
}
