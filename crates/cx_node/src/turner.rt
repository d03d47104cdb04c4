//! What a node does on its links.

ghost use Rattle.std.specs.Prelude.{ℕ, ◌≡◌, List, IfOk};
ghost use Rattle.cx_node.specs.steps.Turns.{HasNumber};

use crate::Numbered;
use crate::came::Came;
use crate::moments::Moment;
use cx_base::NodeName;
use std::alloc::{AllocError, Global};

/// What a node has of its own, as what turns its links of this type. What a turn changes of it is settled once the row is carried out, so that
/// where memory is wanting nothing has changed.
pub trait Turner<L: Numbered>: Drop {
    ghost use Rattle.cx_base.specs.declared.nodes.NodeName.{NodeName};
    ghost use Rattle.cx_node.specs.declared.came.Came.{Came};

    /// What a row changes.
    type Change: Drop;

    // who it is
    ghost name_of: { Self → NodeName };

    // the readings that it takes
    ghost IsTime: { ℕ → Type 0 };

    ghost changed: { Self → Self.Change → Self };

    // what a turn of a link comes to, at this reading and draw
    ghost IsCome: { Self → ℕ → List ℕ → L → Came L Self.Change → Type 0 };

    /// Who it is.
    fn name(&self, alloc: Global) -> Result<NodeName, AllocError>
        ensures { IfOk result (λ name. name ≡ name_of self.now) };

    /// What stands next on the link. Nothing of the node's own is changed yet.
    fn turned(
        &mut self,
        alloc: Global,
        at: &Moment<'_>,
        link: L,
    ) -> Result<Came<L, Self::Change>, AllocError>
        requires time { IsTime at.now.reading }
        requires number { L.number_of link ≡ at.now.number }
        ensures number { IfOk result (λ came. HasNumber L.number_of at.now.number came) }
        ensures come { IfOk result (λ came. IsCome self.old at.now.reading at.now.draw.now.bytes link came) }
        ensures same { self.new ≡ self.old };

    /// Changes what a row changes. It wants no memory.
    fn settle(&mut self, change: Self::Change)
        ensures { self.new ≡ changed self.old change };
}
