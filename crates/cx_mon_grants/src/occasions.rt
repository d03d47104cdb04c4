//! When a login or a request comes, and who asks for tickets.

use cx_base::{EntityName, Reading};
use cx_dice::Draw;
use cx_rotate::KeptState;
use cx_sealed::SealKey;

/// When a login or a request comes: the state that was saved last, and the reading and the draw of the event.
#[derive(Clone, Copy, Debug)]
pub struct Occasion<'a> {
    pub saved: &'a KeptState,
    pub reading: Reading,
    pub draw: &'a Draw,
}

// An entity that proved itself, with its global id, the session key of its ticket for AUTH and the services for which it asks tickets.
#[derive(Drop)]
pub(crate) struct Entrant<'a> {
    pub(crate) name: &'a EntityName,
    pub(crate) gid: u64,
    pub(crate) session: SealKey,
    pub(crate) asked: u32,
    pub(crate) at: Occasion<'a>,
}
