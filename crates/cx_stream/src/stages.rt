//! The stages of a stream, each a type of its own: a link holds one of them by its own stage, and takes it out to go on.

use crate::faults::StreamFault;
use bytes::BytesMut;
use cx_frame::Banner;
use cx_secure::{Head, Sealing};
use std::marker::Model;

/// A stream whose banner isn't all there yet. Contracts see it as the bytes that it was fed.
#[derive(Drop)]
pub struct Greeting {
    pub(crate) bytes: BytesMut,
}

impl Model for Greeting {
    ghost use Rattle.std.specs.Prelude.{ℕ, List};

    ghost Value = { List ℕ };

    ghost view = { λ g. g.bytes.items };
}

/// A stream of plain frames. It keeps all bytes that it took, for the signature that is made over them.
#[derive(Drop)]
pub struct Plain {
    pub(crate) bytes: BytesMut,
    /// The bytes of the banner and of the frames that were given.
    pub(crate) taken: usize,
}

impl Model for Plain {
    ghost use Rattle.std.specs.Prelude.{◌≤◌, length, take, drop};
    ghost use Rattle.cx_stream.specs.Received.{Received};

    ghost Value = { Received };

    ghost view = { λ s. record { taken = take s.taken s.bytes.items; rest = drop s.taken s.bytes.items } };

    ghost invariant = { λ s. s.taken ≤ length s.bytes.items };
}

/// A stream of secure frames. It gives up the bytes that it took, and keeps a head that it opened until the rest of that frame is there.
#[derive(Drop)]
pub struct Secure {
    pub(crate) sealing: Sealing,
    /// The head of the next frame, where it was opened.
    pub(crate) head: Option<Head>,
    /// The bytes that were not taken yet.
    pub(crate) rest: BytesMut,
}

impl Model for Secure {
    ghost use Rattle.cx_stream.specs.Held.{Held, IsSteady};

    ghost Value = { Held };

    ghost view = { λ s. record { sealing = s.sealing; head = s.head; rest = s.rest.items } };

    ghost invariant = { λ s. IsSteady s.sealing s.head };
}

/// A stream that is over.
#[derive(Drop)]
pub struct Ended;

/// What became of a greeting.
#[derive(Drop)]
pub enum Greeted {
    /// The banner isn't all there yet.
    NotYet(Greeting),
    /// The peer's banner, and the stream behind it.
    Done(Banner, Plain),
    /// The banner was refused.
    Refused(StreamFault, Ended),
}
