//! Keys under which more than one record is sealed or opened.

ghost use Rattle.std.specs.Prelude.{◌≡◌};
ghost use Rattle.cx_cbc.specs.cx_aes.specs.KeyOf.{key_of};

use cx_cbc::Schedule;
use std::marker::Model;

/// A key with its schedule, which is made once for all that is sealed and opened under it.
#[derive(Drop)]
pub struct SealKey {
    key: [u8; 16],
    schedule: Schedule,
}

impl Model for SealKey {
    ghost use Rattle.std.specs.Prelude.{ℕ, ◌≡◌, List};
    ghost use Rattle.cx_cbc.specs.cx_aes.specs.KeyOf.{key_of};

    ghost Value = { List ℕ };

    ghost view = { λ k. k.key };

    ghost invariant = { λ k. key_of k.schedule ≡ k.key };
}

impl SealKey {
    /// This key.
    pub fn new(key: &[u8; 16]) -> SealKey
        ensures { result ≡ key.now }
    {
        SealKey {
            key: *key,
            schedule: Schedule::new(key),
        }
    }

    /// Its bytes.
    pub fn bytes(&self) -> &[u8; 16]
        ensures { result.now ≡ self.now }
    {
        &self.key
    }

    // Its schedule.
    pub(crate) fn schedule(&self) -> &Schedule
        ensures { key_of result.now ≡ self.now }
    {
        &self.schedule
    }
}
