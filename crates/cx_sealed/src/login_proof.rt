//! The proof of a login.

ghost use Rattle.std.specs.Prelude.{◌≡◌, ◌≤◌, ◌∷◌, take, drop};
ghost use Rattle.std.specs.Int.{w64, from_le_bytes};
ghost use Rattle.cx_sealed.specs.Proof.{login_proof};

use cx_cbc::{Schedule, seal_16};

/// The proof that a client knows its key: both challenges, sealed as one content of 16 bytes, and of these bytes behind their
/// length the exclusive or of the first four numbers.
pub fn proof(key: &[u8; 16], server_challenge: u64, client_challenge: u64) -> u64
    ensures { result ≡ login_proof key.now server_challenge client_challenge }
{
    let server = server_challenge.to_le_bytes();
    let client = client_challenge.to_le_bytes();
    let content = [
        server[0], server[1], server[2], server[3], server[4], server[5], server[6], server[7],
        client[0], client[1], client[2], client[3], client[4], client[5], client[6], client[7],
    ];
    let sealed = seal_16(&Schedule::new(key), &content);
    first_number(&sealed) ^ number_at(&sealed, 4) ^ number_at(&sealed, 12) ^ number_at(&sealed, 20)
}

// The first number: the length of the sealed bytes, in four bytes, and the first four of them.
fn first_number(sealed: &[u8; 32]) -> u64
    ensures { result ≡ from_le_bytes w64 (32 ∷ 0 ∷ 0 ∷ 0 ∷ take 4 sealed.now) }
{
    u64::from_le_bytes([32, 0, 0, 0, sealed[0], sealed[1], sealed[2], sealed[3]])
}

// The number in the eight bytes from this place on.
fn number_at(sealed: &[u8; 32], place: usize) -> u64
    requires { place ≤ 24 }
    ensures { result ≡ from_le_bytes w64 (take 8 (drop place sealed.now)) }
{
    u64::from_le_bytes([
        sealed[place],
        sealed[place + 1],
        sealed[place + 2],
        sealed[place + 3],
        sealed[place + 4],
        sealed[place + 5],
        sealed[place + 6],
        sealed[place + 7],
    ])
}
