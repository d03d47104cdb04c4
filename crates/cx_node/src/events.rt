//! Events, by the link that they are about, and what a step of one gives where memory is wanting.

ghost use Rattle.std.specs.Prelude.{◌≡◌};
ghost use Rattle.cx_node.specs.steps.Events.{link_in};
ghost use Rattle.cx_node.specs.cx_rules.specs.Inputs.{input_of};
ghost use Rattle.cx_steps.specs.Nothing.{nothing};

use crate::loses;
use cx_steps::{Effects, Event};
use std::alloc::Global;

/// The link that an event is about.
pub fn link_in(event: &Event<'_>) -> Option<u32>
    ensures { result ≡ link_in (input_of event.now) }
{
    match event {
        Event::Opened(number, _) => Some(*number),
        Event::Bytes(number, _) => Some(*number),
        Event::Turn(number) => Some(*number),
        Event::Gone(number) => Some(*number),
        Event::Restart => None,
        Event::NoLink(_) => None,
        Event::Look(_) => None,
        Event::Tick => None,
        Event::Submit(_) => None,
    }
}

/// What a step gives where memory was wanting: that the link of its event, if it is about one, is lost.
pub fn wanting(alloc: Global, link: Option<u32>) -> Effects
    ensures { result ≡ record nothing { lost = link } }
{
    match link {
        Some(number) => loses(alloc, number),
        None => Effects::new(alloc),
    }
}
