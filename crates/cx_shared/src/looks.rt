//! What a reader sees.

ghost use Rattle.std.specs.Prelude.{◌≡◌};
ghost use Rattle.cx_shared.specs.Views.{empty_view};

use cx_rotate::{Generations, View};

/// A view, and how many renewals it stands for.
#[derive(Clone, Copy, Debug, PartialEq, Eq)]
pub struct Look {
    pub view: View,
    pub count: u64,
}

/// The look behind no renewal: the empty view.
pub(crate) fn first_look() -> Look
    ensures { result ≡ record { view = empty_view; count = 0 } }
{
    Look {
        view: View {
            generations: Generations::empty(),
            asked: None,
        },
        count: 0,
    }
}
