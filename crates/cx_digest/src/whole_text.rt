//! The message code of a text that is there as a whole.
ghost use Rattle.std.specs.Prelude.{◌≡◌, ◌≤◌, length};
ghost use Rattle.cx_digest.specs.Code.{hmac};

use crate::message_code::Mac;

/// The code of `text` under `key`, which is at most one block of SHA-256 long.
pub fn mac(key: &[u8], text: &[u8]) -> [u8; 32]
    requires { length key.now ≤ 64 }
    ensures { result ≡ hmac key.now text.now }
{
    let mut code = Mac::under(key);
    code.update(text);
    code.finish()
}
