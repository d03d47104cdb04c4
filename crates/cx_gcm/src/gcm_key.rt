//! A key as it stands ready to seal and to open in place (SP 800-38D, 7.1 and 7.2).

ghost use Rattle.std.specs.Prelude.{◌≡◌, ◌≢◌, ℕ, ◌≤◌, ◌↔◌, IsErr, IsOk, List, OnErr, OnOk, length};
ghost use Rattle.cx_aes.specs.KeyOf.{key_of};
ghost use Rattle.cx_gcm.specs.Gcm.{GcmSealed, tag_of};
ghost use Rattle.cx_gcm.specs.Prepared.{IsPrepared};

use crate::Powers;
use crate::counter::{add_key_stream, with_one_mask};
use crate::hashing::{hash, is_same_tag};
use cx_aes::Schedule;
use thiserror::Error;

/// The bytes that one nonce seals, at most.
pub const MAX_BYTES: usize = 2_097_152;

// The counts of the first counter blocks: one for the tag, and from the next one on for the text.
const TAG_COUNT: u32 = 1;

const TEXT_COUNT: u32 = 2;

/// The tag is not the one of the cipher text under this key and nonce.
#[derive(Debug, Clone, Copy, PartialEq, Eq, Error)]
#[error("the tag is not the one of these bytes")]
pub struct BadTag;

/// A key with all that does not change from text to text: its round keys, and the tables of its hash subkey. To make it takes longer
/// than to seal a short text, so it is made once for a key. It is `Copy`, since nothing in it changes, and takes 2,400 bytes.
#[derive(Clone, Copy)]
pub struct GcmKey {
    schedule: Schedule,
    powers: Powers,
    ghost prepared: { IsPrepared schedule powers },
}

impl GcmKey {
    ghost use Rattle.cx_gcm.specs.GcmKeyOf.{gcm_key_of};

    /// Makes ready a key of 16 bytes.
    pub fn new(key: &[u8; 16]) -> GcmKey
        ensures { gcm_key_of result ≡ key.now }
    {
        GcmKey::with_schedule(&Schedule::new(key))
    }

    /// The same for a key that is expanded already.
    pub fn with_schedule(schedule: &Schedule) -> GcmKey
        ensures { gcm_key_of result ≡ key_of schedule.now }
    {
        let powers = Powers::new(&schedule.encrypt(&[0u8; 16]));
        GcmKey {
            schedule: *schedule,
            powers,
        }
    }

    /// Replaces a plain text by its cipher text, and gives the tag. A nonce must serve once for a key.
    pub fn seal_in_place(&self, nonce: [u8; 12], bytes: &mut [u8]) -> [u8; 16]
        requires { length bytes.old ≤ MAX_BYTES }
        ensures { GcmSealed (gcm_key_of self.now) nonce bytes.old bytes.new result }
    {
        add_key_stream(&self.schedule, &nonce, TEXT_COUNT, bytes);
        self.tag_of(&nonce, bytes)
    }

    /// Replaces a cipher text by its plain text where the tag is right. The tag is compared before
    /// anything is written.
    pub fn open_in_place(
        &self,
        nonce: [u8; 12],
        bytes: &mut [u8],
        tag: &[u8; 16],
    ) -> Result<(), BadTag>
        requires { length bytes.old ≤ MAX_BYTES }
        ensures ok { OnOk result (GcmSealed (gcm_key_of self.now) nonce bytes.new bytes.old tag.now) }
        ensures bad { IsErr result ↔ (tag.now ≢ tag_of (gcm_key_of self.now) nonce bytes.old) }
        ensures err { OnErr result (bytes.new ≡ bytes.old) }

        // What was sealed to these bytes and this tag is what stands there afterwards.
        ensures sealed { (plain : List ℕ) → GcmSealed (gcm_key_of self.now) nonce plain bytes.old tag.now → IsOk result × (bytes.new ≡ plain) }
    {
        let expected = self.tag_of(&nonce, bytes);
        if !is_same_tag(tag, &expected) {
            return Err(BadTag);
        }
        add_key_stream(&self.schedule, &nonce, TEXT_COUNT, bytes);
        Ok(())
    }

    fn tag_of(&self, nonce: &[u8; 12], cipher: &[u8]) -> [u8; 16]
        requires { length cipher.now ≤ MAX_BYTES }
        ensures { result ≡ tag_of (gcm_key_of self.now) nonce.now cipher.now }
    {
        with_one_mask(
            &self.schedule,
            nonce,
            TAG_COUNT,
            &hash(&self.powers, cipher),
        )
    }
}

// Values of `T` may be sent to another thread, and shared between threads.
fn is_sendable<T: Send + Sync>() {}

// A key and a refusal may.
fn sends_keys() {
    is_sendable::<GcmKey>();
    is_sendable::<BadTag>();
}
