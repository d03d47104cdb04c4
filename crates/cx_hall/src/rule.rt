//! The rule of the word that counts the history.

use crate::entry::HallEntry;
use atomic_table::{Join, Play, Seat, Split, Table, TableRule};
use cx_base::Owner;
use cx_session::BookCall;
use std::alloc::Global;
use std::collections::LinkedList;
use std::marker::Brand;

/// What a seat knows. It stands in proofs alone; no value of it is made.
pub struct Knowledge<O> {
    /// Whether it is the one that keeps the whole history, which is `all`.
    pub keeps: bool,
    pub all: LinkedList<HallEntry<O>>,
    /// Whether it is a pass, which has this number.
    pub is_pass: bool,
    pub number: u64,
    /// The front of the history that it has seen.
    pub seen: LinkedList<HallEntry<O>>,
    /// Its own entries, each with its place.
    pub mine: LinkedList<(u64, HallEntry<O>)>,
}

/// The word counts one history.
pub struct Counted;

impl<O: Owner> TableRule<BookCall<O>, Knowledge<O>, ()> for Counted {
    ghost use Rattle.std.specs.Prelude.{[]};
    ghost use Rattle.cx_hall.specs.Rule.{IsCounted, keeper_of};

    ghost holds = { λ _. IsCounted O.entity_of O.gid_of };

    ghost first = { λ _. keeper_of [] };
}

/// A new pass sees the history as it is.
pub struct Enters;

impl<O: Owner> Play<BookCall<O>, Knowledge<O>> for Enters {
    ghost use Rattle.cx_hall.specs.Rule.{IsNewPass};

    ghost then = { IsNewPass O.entity_of O.gid_of };
}

/// A pass that holds the history sees all of it.
pub struct Looks;

impl<O: Owner> Play<BookCall<O>, Knowledge<O>> for Looks {
    ghost use Rattle.cx_hall.specs.Rule.{SeesAll};

    ghost then = { SeesAll O.entity_of O.gid_of };
}

/// A pass that holds the history puts the call that is announced behind it.
pub struct Adds;

impl<O: Owner> Play<BookCall<O>, Knowledge<O>> for Adds {
    ghost use Rattle.cx_hall.specs.Rule.{Adds};

    ghost then = { Adds O.entity_of O.gid_of };
}

/// A pass takes the history over from its keeper.
pub struct TakesOver;

impl<O: Owner> Join<Knowledge<O>> for TakesOver {
    ghost use Rattle.cx_hall.specs.Rule.{holding, nobody};

    ghost both = { λ v w. holding v w.all };

    ghost spent = { nobody };
}

/// A pass gives the history back to its keeper.
pub struct HandsBack;

impl<O: Owner> Split<Knowledge<O>> for HandsBack {
    ghost use Rattle.cx_hall.specs.Rule.{released, keeper_of};

    ghost left = { released };

    ghost right = { λ v. keeper_of v.all };
}

/// The name of a hall, by its table: what a hall and its passes have in common. The code that makes a hall picks one for it, by
/// `Brand`.
pub trait HallName {
    ghost use Rattle.atomic_table.specs.Seated.{TableId};

    ghost table: { TableId };
}

impl HallName for Brand {
    ghost use Rattle.cx_hall.specs.Rule.{no_table};

    ghost table = { no_table };
}

pub type HallSeat<O> = Seat<BookCall<O>, Knowledge<O>>;

pub type HallTable<O> = Table<BookCall<O>, Knowledge<O>, (), Counted, Global>;
