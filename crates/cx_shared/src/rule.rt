//! The rule under which views are renewed.

ghost use Rattle.std.specs.Prelude.{◌≡◌};

use crate::looks::Look;
use atomic_table::{Join, Split};
use crossbeam_utils::rule::{Outcome, Protocol};
use cx_rotate::View;
use left_right::Absorb;
use left_right::reader::Reader;
use left_right::writer::Writer;
use std::alloc::AllocError;
use std::collections::LinkedList;

/// What a thread knows: a front of the list of renewals. It stands in proofs alone; no value of it is made.
pub type Views = LinkedList<View>;

/// What readers see stands for the list of renewals, and what a thread knows is a front of that list.
pub struct Renewed;

impl Protocol<Look, Views> for Renewed {
    ghost use Rattle.std.specs.Prelude.{[]};
    ghost use Rattle.cx_shared.specs.Renewals.{IsRenewed};

    ghost holds = { IsRenewed };

    ghost first = { [] };
}

/// A reader sees the list of renewals as it is.
pub struct Sees;

impl Outcome<Look, Views> for Sees {
    ghost use Rattle.cx_shared.specs.Renewals.{IsSeen};

    ghost then = { IsSeen };
}

/// The writer puts a view behind all that it had published.
pub struct Publishes;

impl Outcome<Look, Views> for Publishes {
    ghost use Rattle.cx_shared.specs.Renewals.{IsPublished};

    ghost then = { IsPublished };
}

/// The writer hands on all that it knows, and keeps it.
pub struct Tells;

impl Split<Views> for Tells {
    ghost left = { λ views. views };

    ghost right = { λ views. views };
}

/// A reader takes in what it was told.
pub struct Learns;

impl Join<Views> for Learns {
    ghost use Rattle.std.specs.Prelude.{[]};
    ghost use Rattle.cx_shared.specs.Views.{longer};

    ghost both = { longer };

    ghost spent = { [] };
}

/// A renewal takes the place of what is seen.
impl Absorb<Look> for Look {
    type State = Look;

    ghost state = { λ look. look };

    ghost applied = { λ _ renewal. renewal };

    ghost never_fails = { Unit {0} };

    fn absorb_first(&mut self, operation: &Look, _other: &Look) -> Result<(), AllocError> {
        *self = *operation;
        Ok(())
    }
}

pub type LookReader = Reader<Look, Views, Renewed>;

pub type LookWriter = Writer<Look, Look, Views, Renewed>;
