//! A pass.

use crate::rule::{HallName, Knowledge};
use atomic_table::Badge;
use cx_base::Owner;
use std::marker::{Model, PhantomData};

/// The right to make calls in one hall. To a contract it is its number, the front of the history that it has seen, and its own
/// entries in it, each with its place.
#[derive(Drop)]
pub struct Pass<O: Owner, N: HallName> {
    pub(crate) badge: Badge<Knowledge<O>>,
    pub(crate) hall: PhantomData<N>,
}

impl<O: Owner, N: HallName> Model for Pass<O, N> {
    ghost use Rattle.std.specs.Prelude.{◌≡◌, [], ◌∷◌};
    ghost use Rattle.cx_hall.specs.Passes.{PassState};
    ghost use Rattle.cx_hall.specs.Rule.{known_to, state_of, IsPass};

    ghost Value = { PassState O };

    ghost view = { λ p. state_of (known_to p.badge.views) };

    ghost invariant = { λ p. (p.badge.table_id ≡ N.table) × (p.badge.views ≡ known_to p.badge.views ∷ []) × IsPass O.entity_of O.gid_of (known_to p.badge.views) };
}

/// A call's place in the history of its hall.
#[derive(Clone, Copy, Debug, PartialEq, Eq)]
pub struct Receipt {
    pub place: u64,
}
