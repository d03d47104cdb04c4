//! The table of a node's links.

ghost use Rattle.std.specs.Prelude.{◌≡◌, List, [], length, map, slice_get, Some, None, Ok, IsSome, IfSome, IfNone, IfOk, OnOk, OnErr};
ghost use Rattle.std.specs.Option.{option_copied};
ghost use Rattle.cx_node.specs.Tables.{Table, no_links, with_number, put, without, behind};

use crate::keeping::{find, give_up, nth, numbers, put, put_in, shut, take_out};
use crate::numbered::Numbered;
use crate::places::LinkPlace;
use cx_base::Items;
use std::alloc::{AllocError, Global};
use std::marker::Model;

/// The live links of a node, in the order of their numbers. One of them at a time may be taken out and put back: its place is kept.
#[derive(Drop)]
pub struct Links<L: Numbered> {
    places: Vec<LinkPlace<L>>,
    room: Option<u32>,
}

impl<L: Numbered> Model for Links<L> {
    ghost use Rattle.cx_node.specs.Tables.{Table};
    ghost use Rattle.cx_node.specs.Places.{links_in, IsTable};

    ghost Value = { Table L };

    ghost view = { λ t. record { links = links_in t.places.items; room = t.room } };

    ghost invariant = { λ t. IsTable L.number_of t.places.items t.room };
}

impl<L: Numbered> Links<L> {
    /// No links.
    pub fn new(alloc: Global) -> Links<L>
        ensures { result ≡ no_links }
    {
        Links {
            places: Vec::new(alloc),
            room: None,
        }
    }

    /// How many links stand here.
    pub fn len(&self) -> usize
        ensures { result ≡ length self.now.links }
    {
        match self.room {
            None => self.places.len(),
            Some(_) => self.places.len() - 1,
        }
    }

    /// The link of a number.
    pub fn get(&self, number: u32) -> Option<&L>
        ensures { option_copied result ≡ with_number L.number_of number self.now.links }
    {
        find(self.places.as_slice(), number)
    }

    /// The link at a place of the list.
    pub fn nth(&self, place: usize) -> Option<&L>
        requires { self.now.room ≡ None }
        ensures { option_copied result ≡ slice_get self.now.links place }
    {
        nth(self.places.as_slice(), place)
    }

    /// The numbers of the links, in their order.
    pub fn numbers(&self, alloc: Global) -> Result<Items<u32>, AllocError>
        ensures { IfOk result (λ numbers. numbers ≡ map L.number_of self.now.links) }
    {
        numbers(alloc, self.places.as_slice())
    }

    /// Takes a link out; its place is kept.
    pub fn take(&mut self, number: u32) -> Option<L>
        requires { self.old.room ≡ None }
        ensures link { result ≡ with_number L.number_of number self.old.links }
        ensures number { IfSome result (λ link. L.number_of link ≡ number) }
        ensures taken { IfSome result (λ _. self.new ≡ record { links = without L.number_of number self.old.links; room = Some number }) }
        ensures none { IfNone result (self.new ≡ self.old) }
    {
        let taken = take_out(&mut self.places, number);
        if taken.is_some() {
            self.room = Some(number);
        }
        taken
    }

    /// Puts a link into the place that is kept for it. That wants no memory.
    pub fn put_back(&mut self, link: L)
        requires { self.old.room ≡ Some (L.number_of link) }
        ensures { self.new ≡ record { links = put L.number_of link self.old.links; room = None } }
    {
        put_in(&mut self.places, link);
        self.room = None;
    }

    /// Gives up the place that is kept, if one is.
    pub fn give_up(&mut self)
        ensures { self.new ≡ record self.old { room = None } }
    {
        if let Some(number) = self.room {
            give_up(&mut self.places, number);
            self.room = None;
        }
    }

    /// Puts the link back that was taken out, as it goes on, or gives up its place where it is shut. That wants no memory.
    pub fn settle(&mut self, number: u32, link: Option<L>)
        requires room { self.old.room ≡ Some number }
        requires same { IfSome link (λ l. L.number_of l ≡ number) }
        ensures room { self.new.room ≡ None }
        // Of the links as they were before that one was taken out.
        ensures links { (links : List L) → self.old.links ≡ without L.number_of number links → self.new.links ≡ behind L.number_of number link links }
    {
        match link {
            Some(link) => self.put_back(link),
            None => self.give_up(),
        }
    }

    /// Puts a link in its place. That wants memory only where no link of its number stands here; then the link is given up.
    pub fn put(&mut self, alloc: Global, link: L) -> Result<(), AllocError>
        requires { self.old.room ≡ None }
        ensures ok { OnOk result (self.new ≡ record self.old { links = put L.number_of link self.old.links }) }
        ensures free { IsSome (with_number L.number_of (L.number_of link) self.old.links) → result ≡ Ok tt }
        ensures err { OnErr result (self.new ≡ self.old) }
    {
        put(alloc, &mut self.places, link)
    }

    /// Gives up a link. A place that is kept for one stays.
    pub fn remove(&mut self, number: u32)
        ensures { self.new ≡ record self.old { links = without L.number_of number self.old.links } }
    {
        shut(&mut self.places, number);
    }

    /// Gives up all links, and a place that is kept.
    pub fn clear(&mut self)
        ensures { self.new ≡ no_links }
    {
        self.places.clear();
        self.room = None;
    }
}
