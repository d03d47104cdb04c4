//! Keys as keyrings write them: the 28 bytes of Ceph's encoding in base64.

ghost use Rattle.std.specs.Prelude.{◌≡◌, IfOk};
ghost use Rattle.cx_enc.specs.Values.{key_form};
ghost use Rattle.cx_enc.specs.Whole.{start};
ghost use Rattle.cx_keyring.specs.Keys.{key_of, whole_key};

use base64::DecodeAllocError;
use base64::engine::general_purpose::STANDARD;
use cx_enc::{Cut, Key};
use std::alloc::{AllocError, Global};

/// The key whose 28 bytes the text is in base64, with its padding and no bits left over.
#[tactic(auto, unfolding(crate::specs::Keys::key_of))]
pub fn key(alloc: Global, text: &[u8]) -> Result<Option<Key>, AllocError>
    ensures { IfOk result (λ found. found ≡ key_of text.now) }
{
    match STANDARD.decode(alloc, text) {
        Ok(bytes) => Ok(whole_key(bytes.as_slice())),
        Err(DecodeAllocError::OutOfMemory) => Err(AllocError),
        Err(DecodeAllocError::DecodeError(_)) => Ok(None),
    }
}

/// The key that all of the bytes spell.
fn whole_key(bytes: &[u8]) -> Option<Key>
    ensures { result ≡ whole_key (key_form.at (start bytes.now)) }
{
    let mut cut = Cut::new(bytes);
    let Ok(key) = cut.take_key() else {
        return None;
    };
    if cut.left() > 0 {
        return None;
    }
    Some(key)
}
