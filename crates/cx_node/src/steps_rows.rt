//! Rows of a node, and why there is none.

ghost use Rattle.std.specs.Prelude.{◌≡◌};
ghost use Rattle.cx_node.specs.steps.Making.{keeping};

use crate::Row;
use cx_journal::{BytesFault, Reason};
use cx_link::LinkRefusal;
use std::alloc::AllocError;

/// A row, and what it changes of what the node has of its own, if anything. That is settled once the row is carried out, so that where memory
/// is wanting nothing has changed.
#[derive(Drop)]
pub struct NodeRow<L, C> {
    pub row: Row<L>,
    pub change: Option<C>,
}

impl<L, C> NodeRow<L, C> {
    /// A row that changes nothing of the node's own.
    pub fn keeping(row: Row<L>) -> NodeRow<L, C>
        ensures { result ≡ keeping row }
    {
        NodeRow { row, change: None }
    }
}

/// Why no row is made: the link is refused, or memory was wanting.
#[derive(Drop)]
pub enum NoRow {
    /// The link is to be shut, for this reason.
    Refused(Reason),
    OutOfMemory,
}

impl From<AllocError> for NoRow {
    ghost use Rattle.std.specs.Prelude.{◌≡◌};
    ghost use Rattle.cx_node.specs.declared.steps_rows.NoRow.TheVariants.{OutOfMemory};

    ghost from_gives = { λ _ no. no ≡ OutOfMemory };

    fn from(_error: AllocError) -> NoRow {
        NoRow::OutOfMemory
    }
}

impl From<BytesFault> for NoRow {
    ghost use Rattle.std.specs.Prelude.{◌≡◌};
    ghost use Rattle.cx_journal.specs.declared.outcomes.Reason.TheVariants.{Bytes};
    ghost use Rattle.cx_node.specs.declared.steps_rows.NoRow.TheVariants.{Refused};

    ghost from_gives = { λ why no. no ≡ Refused (Bytes why) };

    fn from(why: BytesFault) -> NoRow {
        NoRow::Refused(Reason::Bytes(why))
    }
}

impl From<LinkRefusal> for NoRow {
    ghost use Rattle.std.specs.Prelude.{◌≡◌};
    ghost use Rattle.cx_node.specs.steps.Making.{no_row};

    ghost from_gives = { λ refusal no. no ≡ no_row refusal };

    fn from(refusal: LinkRefusal) -> NoRow {
        match refusal {
            LinkRefusal::Fault(why) => NoRow::from(why),
            LinkRefusal::OutOfMemory => NoRow::OutOfMemory,
        }
    }
}
