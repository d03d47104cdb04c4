//! The place of one link in a table.

ghost use Rattle.std.specs.Prelude.{◌≡◌, Some, None, IfOk};
ghost use Rattle.std.specs.Option.{option_copied};

use std::alloc::{AllocError, Global};
use std::marker::Model;

// A place for the link of a number. The link is boxed, so that places are small; the box stays where the link is taken out.
#[derive(Drop)]
pub(crate) struct LinkPlace<L> {
    number: u32,
    held: Box<Option<L>>,
}

impl<L> Model for LinkPlace<L> {
    ghost use Rattle.cx_node.specs.Places.{Slot};

    ghost Value = { Slot L };

    ghost view = { λ p. record { number = p.number; link = p.held.value } };
}

impl<L> LinkPlace<L> {
    // A place with a link in it.
    pub(crate) fn new(alloc: Global, number: u32, link: L) -> Result<LinkPlace<L>, AllocError>
    where
        L: Drop,
        ensures { IfOk result (λ place. place ≡ record { number = number; link = Some link }) }
    {
        let held = Box::new(alloc, Some(link))?;
        Ok(LinkPlace { number, held })
    }

    // The number of the link that stands here or is to come back.
    pub(crate) fn number(&self) -> u32
        ensures { result ≡ self.now.number }
    {
        self.number
    }

    // The link, where it wasn't taken out.
    pub(crate) fn link(&self) -> Option<&L>
        ensures { option_copied result ≡ self.now.link }
    {
        self.held.as_ref().as_ref()
    }

    // Takes the link out, and keeps the place.
    pub(crate) fn vacate(&mut self) -> Option<L>
        ensures value { result ≡ self.old.link }
        ensures after { self.new ≡ record self.old { link = None } }
    {
        self.held.take()
    }

    // Puts a link here.
    pub(crate) fn fill(&mut self, link: L)
    where
        L: Drop,
        ensures { self.new ≡ record self.old { link = Some link } }
    {
        *self.held = Some(link);
    }
}
