//! The start of a sealing.

ghost use Rattle.std.specs.Prelude.{◌≡◌, take};
ghost use Rattle.cx_gcm.specs.GcmKeyOf.{gcm_key_of};
ghost use Rattle.cx_secure.specs.Sealings.{IsWayAt, Starts};

use crate::sealing::{Sealing, Way};
use cx_gcm::GcmKey;

impl Sealing {
    /// The sealing of one side, from the 64 bytes of the connection's secret.
    pub fn new(secret: &[u8; 64], connector: bool) -> Sealing
        ensures { Starts secret.now connector result }
    {
        let key = key_of(secret);
        let acceptor = acceptor_way(secret);
        let connecting = connector_way(secret);
        if connector {
            return Sealing {
                key,
                out: connecting,
                into: acceptor,
                kept: None,
            };
        }
        Sealing {
            key,
            out: acceptor,
            into: connecting,
            kept: None,
        }
    }
}

fn key_of(secret: &[u8; 64]) -> GcmKey
    ensures { gcm_key_of result ≡ take 16 secret.now }
{
    let Some((key, _)) = secret.split_first_chunk::<16>() else {
        unreachable!();
    };
    GcmKey::new(key)
}

// The way on which the acceptor sends.
fn acceptor_way(s: &[u8; 64]) -> Way
    ensures { IsWayAt s.now 16 result }
{
    Way {
        fixed: [s[16], s[17], s[18], s[19]],
        counter: u64::from_le_bytes([s[20], s[21], s[22], s[23], s[24], s[25], s[26], s[27]]),
    }
}

// The way on which the connector sends.
fn connector_way(s: &[u8; 64]) -> Way
    ensures { IsWayAt s.now 28 result }
{
    Way {
        fixed: [s[28], s[29], s[30], s[31]],
        counter: u64::from_le_bytes([s[32], s[33], s[34], s[35], s[36], s[37], s[38], s[39]]),
    }
}
