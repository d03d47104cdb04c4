//! Sealing and opening in place under a key that was only expanded.

ghost use Rattle.std.specs.Prelude.{◌≡◌, ◌≢◌, ℕ, ◌≤◌, ◌↔◌, IsErr, IsOk, List, OnErr, OnOk, length};
ghost use Rattle.cx_aes.specs.Cipher.{IsBlock};
ghost use Rattle.cx_aes.specs.KeyOf.{key_of};
ghost use Rattle.cx_gcm.specs.Gcm.{GcmSealed, IsNonce, tag_of};
ghost use Rattle.cx_gcm.specs.declared.gcm_key.TheConstants.{MAX_BYTES};

use crate::gcm_key::{BadTag, GcmKey};
use cx_aes::Schedule;

/// Replaces a plain text by its cipher text, and gives the tag, as the method of `GcmKey` does, which is made anew here. A nonce must
/// serve once for a key.
pub fn seal_in_place(key: &Schedule, nonce: [u8; 12], bytes: &mut [u8]) -> [u8; 16]
    requires { length bytes.old ≤ MAX_BYTES }
    ensures { GcmSealed (key_of key.now) nonce bytes.old bytes.new result }
{
    GcmKey::with_schedule(key).seal_in_place(nonce, bytes)
}

/// Replaces a cipher text by its plain text where the tag is right, as the method of `GcmKey` does, which is made anew here.
pub fn open_in_place(
    key: &Schedule,
    nonce: [u8; 12],
    bytes: &mut [u8],
    tag: &[u8; 16],
) -> Result<(), BadTag>
    requires { length bytes.old ≤ MAX_BYTES }
    ensures ok { OnOk result (GcmSealed (key_of key.now) nonce bytes.new bytes.old tag.now) }
    ensures bad { IsErr result ↔ (tag.now ≢ tag_of (key_of key.now) nonce bytes.old) }
    ensures err { OnErr result (bytes.new ≡ bytes.old) }

    // What was sealed to these bytes and this tag is what stands there afterwards.
    ensures sealed { (plain : List ℕ) → GcmSealed (key_of key.now) nonce plain bytes.old tag.now → IsOk result × (bytes.new ≡ plain) }
{
    GcmKey::with_schedule(key).open_in_place(nonce, bytes, tag)
}

/// Law: for one key, nonce and cipher text there is one plain text and one tag.
pub fn one_plain_text()
    ensures { (k nonce p q cipher t u : List ℕ) → IsBlock k → IsNonce nonce
        → GcmSealed k nonce p cipher t → GcmSealed k nonce q cipher u → (p ≡ q) × (t ≡ u) }
{}
