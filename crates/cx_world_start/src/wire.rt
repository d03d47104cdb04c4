//! A link between two nodes.

ghost use Rattle.std.specs.Prelude.{ℕ, ◌≡◌, [], ◌∷◌, true, drop, length, slice_get, IfOk, OnOk, OnErr};
ghost use Rattle.std.specs.Option.{option_copied};
ghost use Rattle.cx_run.specs.Wires.{end_of, ended, gone_at, has_end, new_wire, node_at, other, owes_gone, pieces_from, sent_from, side_of, with_pieces};
ghost use Rattle.cx_world_start.specs.links.Calm.{IsCalm, is_quiet};
ghost use Rattle.cx_world_start.specs.links.Ends.{arriving, staying};

use crate::ends::End;
use crate::names::same_node;
use cx_base::{Blob, NodeName};
use cx_words::Side;
use std::alloc::{AllocError, Global};
use std::marker::Model;

/// A link between two nodes: what is under way on it, and which of its ends are gone.
#[derive(Drop)]
pub struct Wire {
    number: u32,
    connecting: NodeName,
    accepting: NodeName,
    connector: End,
    acceptor: End,
}

impl Model for Wire {
    ghost use Rattle.cx_run.specs.Wires.{Wire as Link};

    ghost Value = { Link };

    ghost use Rattle.cx_world_start.specs.links.Ends.{IsSpent};

    ghost view = { λ w. record { number = w.number; connecting = w.connecting; accepting = w.accepting; connector = w.connector; acceptor = w.acceptor } };

    ghost invariant = { λ w. IsSpent (record { number = w.number; connecting = w.connecting; accepting = w.accepting; connector = w.connector; acceptor = w.acceptor }) };
}

/// The other side.
pub fn other(side: Side) -> Side
    ensures { result ≡ other side }
{
    match side {
        Side::Connector => Side::Acceptor,
        Side::Acceptor => Side::Connector,
    }
}

impl Wire {
    /// A link that was just opened.
    pub(crate) fn new(alloc: Global, number: u32, connecting: NodeName, accepting: NodeName) -> Wire
        ensures { result ≡ new_wire number connecting accepting }
    {
        Wire {
            number,
            connecting,
            accepting,
            connector: End::new(alloc),
            acceptor: End::new(alloc),
        }
    }

    fn end(&self, side: Side) -> &End
        ensures { result.now ≡ end_of self.now side }
    {
        match side {
            Side::Connector => &self.connector,
            Side::Acceptor => &self.acceptor,
        }
    }

    /// Its number at both ends.
    pub fn number(&self) -> u32
        ensures { result ≡ self.now.number }
    {
        self.number
    }

    /// The node at an end.
    pub fn node_at(&self, side: Side) -> &NodeName
        ensures { result.now ≡ node_at self.now side }
    {
        match side {
            Side::Connector => &self.connecting,
            Side::Acceptor => &self.accepting,
        }
    }

    /// Whether the node at an end still has it.
    pub fn lives(&self, side: Side) -> bool
        ensures { result ≡ (end_of self.now side).lives }
    {
        self.end(side).lives()
    }

    /// The side on which a node stands.
    pub fn side_of(&self, who: &NodeName) -> Side
        ensures { result ≡ side_of self.now who.now }
    {
        if same_node(&self.connecting, who) {
            Side::Connector
        } else {
            Side::Acceptor
        }
    }

    /// Whether a node stands at one of its ends.
    pub fn has_end(&self, who: &NodeName) -> bool
        ensures { result ≡ has_end who.now self.now }
    {
        if same_node(&self.connecting, who) {
            true
        } else {
            same_node(&self.accepting, who)
        }
    }

    /// How many pieces are under way from a side.
    pub fn under_way(&self, side: Side) -> usize
        ensures { result ≡ length (pieces_from self.now side) }
    {
        self.end(side).under_way()
    }

    /// The piece at a place, from 0, among all that a side ever sent.
    pub fn ever_sent(&self, side: Side, place: usize) -> Option<&Blob>
        ensures { option_copied result ≡ slice_get (end_of self.now side).ever place }
    {
        self.end(side).ever_sent(place)
    }

    /// Whether the other end is still to be told that this one is gone.
    pub fn owes_gone(&self, side: Side) -> bool
        ensures { result ≡ owes_gone self.now side }
    {
        !self.lives(side) && self.lives(other(side))
    }

    /// Whether all that was sent on it came or was lost, and no end is still to be told that the other one is gone.
    #[tactic(auto, using(crate::proofs::links::Calming::calm_by))]
    pub(crate) fn is_calm(&self) -> bool
        ensures { result ≡ true → IsCalm self.now }
    {
        self.is_quiet(Side::Connector) && self.is_quiet(Side::Acceptor)
    }

    fn is_quiet(&self, side: Side) -> bool
        ensures { result ≡ is_quiet self.now side }
    {
        self.under_way(side) == 0 && !self.owes_gone(side)
    }

    /// A piece is sent from a side.
    pub(crate) fn send(&mut self, side: Side, piece: Blob) -> Result<(), AllocError>
        ensures ok { OnOk result (self.new ≡ sent_from self.old side piece) }
        ensures err { OnErr result (self.new ≡ self.old) }
        ensures number { self.new.number ≡ self.old.number }
    {
        match side {
            Side::Connector => {
                let reaches = self.acceptor.lives();
                self.connector.send(piece, reaches)
            }
            Side::Acceptor => {
                let reaches = self.connector.lives();
                self.acceptor.send(piece, reaches)
            }
        }
    }

    /// The oldest piece under way from a side is lost, if there is one.
    pub(crate) fn lose_first(&mut self, side: Side)
        ensures { self.new ≡ with_pieces self.old side (drop 1 (pieces_from self.old side)) }
    {
        match side {
            Side::Connector => self.connector.lose_first(),
            Side::Acceptor => self.acceptor.lose_first(),
        }
    }

    /// The oldest piece under way from a side arrives, or so many first bytes of it.
    pub(crate) fn take(
        &mut self,
        alloc: Global,
        side: Side,
        n: Option<u64>,
    ) -> Result<Option<Blob>, AllocError>
        ensures value { IfOk result (λ bytes. bytes ≡ arriving n (pieces_from self.old side)) }
        ensures ok { OnOk result (self.new ≡ with_pieces self.old side (staying n (pieces_from self.old side))) }
        ensures err { OnErr result (self.new ≡ self.old) }
        ensures number { self.new.number ≡ self.old.number }
    {
        match side {
            Side::Connector => self.connector.take(alloc, n),
            Side::Acceptor => self.acceptor.take(alloc, n),
        }
    }

    /// An end is gone, and what is under way to it is lost.
    pub(crate) fn go(&mut self, side: Side)
        ensures { self.new ≡ gone_at self.old side }
    {
        match side {
            Side::Connector => {
                self.connector.go();
                self.acceptor.lose_all();
            }
            Side::Acceptor => {
                self.acceptor.go();
                self.connector.lose_all();
            }
        }
    }

    /// Both ends are gone, with all that is under way.
    pub(crate) fn end_both(&mut self)
        ensures { self.new ≡ ended self.old }
    {
        self.go(Side::Connector);
        self.go(Side::Acceptor);
    }
}
