//! What a daemon holds of its own type's generations.

use crate::generations::Generations;
use cx_base::Reading;

/// The generations that a daemon fetched last, with the reading at which it asked; none at the start.
#[derive(Clone, Copy, Debug, PartialEq, Eq)]
pub struct View {
    pub generations: Generations,
    pub asked: Option<Reading>,
}
