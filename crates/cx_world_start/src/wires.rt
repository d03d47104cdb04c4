//! The links of a run.

ghost use Rattle.std.specs.Prelude.{ℕ, suc, ◌≡◌, ◌<◌, ◌≤◌, true, List, [], ◌∷◌, ◌++◌, drop, length, Some, None, IfOk, IfSome, IfNone, OnOk, OnErr};
ghost use Rattle.std.specs.Option.{option_copied};
ghost use Rattle.cx_run.specs.Deliveries.{under_way};
ghost use Rattle.cx_run.specs.Schedules.{ever_sent};
ghost use Rattle.cx_run.specs.Wires.{ended, gone_at, new_wire, wire_of};
ghost use Rattle.cx_run.specs.Worlds.{sends_all, sends_piece, shuts_all, shuts_link};
ghost use Rattle.cx_world_start.specs.links.Calm.{AreCalm, IsCalmAt};
ghost use Rattle.cx_world_start.specs.links.Ends.{arriving};
ghost use Rattle.cx_world_start.specs.links.Tables.{AreNumbered, IsSentInPart, IsShutInPart, lost_on, taken_on, with_changed};

use crate::busy_links::Busy;
use crate::links_places::place_of;
use crate::wire::Wire;
use cx_base::{Blob, Items, NodeName};
use cx_steps::Piece;
use cx_words::Side;
use std::alloc::{AllocError, Global};
use std::marker::Model;

/// The links of a run, numbered from 1 in the order in which they opened. A link stays here when both of its ends are gone.
#[derive(Drop)]
pub struct Wires {
    held: Vec<Wire>,
    // Each link on which something is under way, or of which an end is still to be told that it is gone, is among these.
    busy: Busy,
}

impl Model for Wires {
    ghost use Rattle.std.specs.Prelude.{List};
    ghost use Rattle.cx_run.specs.Wires.{Wire as Link};

    ghost Value = { List Link };

    ghost use Rattle.cx_world_start.specs.links.Calm.{IsTable};

    ghost view = { λ w. w.held.items };

    ghost invariant = { λ w. IsTable w.busy w.held.items };
}

impl Wires {
    /// No links.
    pub fn new(alloc: Global) -> Wires
        ensures { result ≡ [] }
    {
        Wires {
            held: Vec::new(alloc),
            busy: Busy::new(alloc),
        }
    }

    /// How many links there are, which is the number of the last one.
    pub fn len(&self) -> usize
        ensures value { result ≡ length self.now }
        ensures numbered { AreNumbered 1 self.now }
    {
        self.held.len()
    }

    /// The link of a number.
    pub fn get(&self, number: u64) -> Option<&Wire>
        ensures { option_copied result ≡ wire_of number self.now }
    {
        match place_of(self.held.as_slice(), number) {
            Some(place) => Some(&self.held[place]),
            None => None,
        }
    }

    /// How many pieces are under way from a side of a link.
    pub fn under_way(&self, number: u64, side: Side) -> usize
        ensures { result ≡ length (under_way side (wire_of number self.now)) }
    {
        match self.get(number) {
            Some(wire) => wire.under_way(side),
            None => 0,
        }
    }

    /// The piece of a number, from 1, among all that a side of a link ever sent.
    pub fn ever_sent(&self, number: u64, side: Side, place: u64) -> Option<&Blob>
        ensures { option_copied result ≡ ever_sent place side (wire_of number self.now) }
    {
        let wire = self.get(number)?;
        if place == 0 {
            return None;
        }
        wire.ever_sent(side, (place - 1) as usize)
    }

    /// The least number behind one and up to another of a link on which something may still come. The links between are calm.
    pub fn next_busy(&self, after: u64, last: u64) -> Option<u64>
        ensures some { IfSome result (λ number. (after < number) × (number ≤ last) × AreCalm after number self.now) }
        ensures none { IfNone result (AreCalm after (suc last) self.now) }
    {
        if after >= last {
            return None;
        }
        match self.busy.first_from(after + 1) {
            Some(number) => { if number <= last { Some(number) } else { None } }
            None => None,
        }
    }

    fn is_calm(&self, number: u64) -> bool
        ensures { result ≡ true → IsCalmAt number self.now }
    {
        match self.get(number) {
            Some(wire) => wire.is_calm(),
            None => true,
        }
    }

    /// A link on which nothing more comes isn't looked at again until something is sent or shut on it.
    pub fn rest(&mut self, number: u64)
        ensures { self.new ≡ self.old }
    {
        if self.is_calm(number) {
            self.busy.remove(number);
        }
    }

    /// A link opens. It gets the next number; where none is left, memory counts as wanting.
    pub fn open(
        &mut self,
        alloc: Global,
        connecting: NodeName,
        accepting: NodeName,
    ) -> Result<u32, AllocError>
        ensures number { IfOk result (λ number. number ≡ suc (length self.old)) }
        ensures ok { OnOk result (self.new ≡ self.old ++ new_wire (suc (length self.old)) connecting accepting ∷ []) }
        ensures err { OnErr result (self.new ≡ self.old) }
    {
        let before = self.held.len();
        if before >= u32::MAX as usize {
            return Err(AllocError);
        }
        let number = before as u32 + 1;
        let wire = Wire::new(alloc, number, connecting, accepting);
        self.held.push(wire)?;
        Ok(number)
    }

    /// A node sends these pieces, each on its link. Where memory is wanting, some of the first ones were sent.
    pub fn send(&mut self, who: &NodeName, pieces: Items<Piece>) -> Result<(), AllocError>
        ensures ok { OnOk result (self.new ≡ sends_all who.now self.old pieces) }
        ensures err { OnErr result (IsSentInPart who.now self.old pieces self.new) }
    {
        for piece in pieces.into_vec() {
            self.send_piece(who, piece)?;
        }
        Ok(())
    }

    fn send_piece(&mut self, who: &NodeName, piece: Piece) -> Result<(), AllocError>
        ensures ok { OnOk result (self.new ≡ sends_piece who.now self.old piece (wire_of piece.link self.old)) }
        ensures err { OnErr result (self.new ≡ self.old) }
    {
        let Piece { link, bytes } = piece;
        match place_of(self.held.as_slice(), u64::from(link)) {
            Some(place) => {
                self.busy.add(u64::from(link))?;
                let wire = &mut self.held[place];
                let side = wire.side_of(who);
                wire.send(side, bytes)
            }
            None => Ok(()),
        }
    }

    /// A node shuts these links: each is gone at its end. Where memory is wanting, some of the first ones were shut.
    pub fn shut(&mut self, who: &NodeName, numbers: &[u32]) -> Result<(), AllocError>
        ensures ok { OnOk result (self.new ≡ shuts_all who.now self.old numbers.now) }
        ensures err { OnErr result (IsShutInPart who.now self.old numbers.now self.new) }
    {
        for number in numbers {
            self.shut_link(who, *number)?;
        }
        Ok(())
    }

    fn shut_link(&mut self, who: &NodeName, number: u32) -> Result<(), AllocError>
        ensures ok { OnOk result (self.new ≡ shuts_link who.now self.old (wire_of number self.old)) }
        ensures err { OnErr result (self.new ≡ self.old) }
    {
        match place_of(self.held.as_slice(), u64::from(number)) {
            Some(place) => {
                self.busy.add(u64::from(number))?;
                let wire = &mut self.held[place];
                let side = wire.side_of(who);
                wire.go(side);
                Ok(())
            }
            None => Ok(()),
        }
    }

    /// A link is gone at an end.
    pub fn go(&mut self, number: u64, side: Side) -> Result<(), AllocError>
        ensures ok { OnOk result (self.new ≡ with_changed (λ w. gone_at w side) number self.old) }
        ensures err { OnErr result (self.new ≡ self.old) }
    {
        match place_of(self.held.as_slice(), number) {
            Some(place) => {
                self.busy.add(number)?;
                let wire = &mut self.held[place];
                wire.go(side);
                Ok(())
            }
            None => Ok(()),
        }
    }

    /// A link is gone at both ends.
    pub fn end(&mut self, number: u64)
        ensures { self.new ≡ with_changed ended number self.old }
    {
        match place_of(self.held.as_slice(), number) {
            Some(place) => {
                let wire = &mut self.held[place];
                wire.end_both();
            }
            None => {}
        }
    }

    /// The oldest piece under way from a side of a link is lost, if there is one.
    pub fn lose(&mut self, number: u64, side: Side)
        ensures { self.new ≡ lost_on side self.old (wire_of number self.old) }
    {
        match place_of(self.held.as_slice(), number) {
            Some(place) => {
                let wire = &mut self.held[place];
                wire.lose_first(side);
            }
            None => {}
        }
    }

    /// The oldest piece under way from a side of a link arrives, or so many first bytes of it: these are given.
    pub fn take(
        &mut self,
        alloc: Global,
        number: u64,
        side: Side,
        n: Option<u64>,
    ) -> Result<Option<Blob>, AllocError>
        ensures value { IfOk result (λ bytes. bytes ≡ arriving n (under_way side (wire_of number self.old))) }
        ensures ok { OnOk result (self.new ≡ taken_on side n self.old (wire_of number self.old)) }
        ensures err { OnErr result (self.new ≡ self.old) }
    {
        match place_of(self.held.as_slice(), number) {
            Some(place) => {
                let wire = &mut self.held[place];
                wire.take(alloc, side, n)
            }
            None => Ok(None),
        }
    }
}
