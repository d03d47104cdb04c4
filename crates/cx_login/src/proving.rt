//! The proof of a login.

ghost use Rattle.std.specs.Prelude.{◌≡◌};
ghost use Rattle.cx_login.specs.Proving.{due_proof};

use cx_enc::Key;
use cx_sealed::proof;

// The proof that this key makes of both challenges.
pub(crate) fn due_proof(key: &Key, server_challenge: u64, client_challenge: u64) -> u64
    ensures { result ≡ due_proof key.now.secret server_challenge client_challenge }
{
    proof(&key.secret, server_challenge, client_challenge)
}
