//! Keys.

use crate::times::Time;

/// An AES-128 key with the time of its making. A session key or a generation's key is written with the time 0.
#[derive(Clone, Copy, Debug, PartialEq, Eq)]
pub struct Key {
    pub created: Time,
    pub secret: [u8; 16],
}
