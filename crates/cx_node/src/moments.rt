//! When something comes.

use cx_base::Reading;
use cx_dice::Draw;

/// When something comes, and on which link: the link's number, and the reading and the draw of the event.
#[derive(Clone, Copy)]
pub struct Moment<'a> {
    pub number: u32,
    pub reading: Reading,
    pub draw: &'a Draw,
}
