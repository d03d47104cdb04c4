//! Authorizers.

use crate::records::Record;
use cx_base::Blob;
use cx_enc::{Cut, Encoded, ReadRefusal, put_flag, put_u8, put_u64};
use std::alloc::{AllocError, Global};

/// What a client shows of itself to a daemon, under the session key of its ticket: first without a challenge, then with the
/// daemon's challenge plus one.
#[derive(Clone, Copy, PartialEq, Eq)]
pub struct Authorize {
    pub nonce: u64,
    pub have_challenge: bool,
    /// 0 where there is no challenge.
    pub server_challenge_plus_one: u64,
}

impl Encoded for Authorize {
    ghost use Rattle.cx_sealed.specs.Records.{authorize_layout};

    ghost layout = { authorize_layout };

    fn read(_alloc: Global, cut: &mut Cut<'_>) -> Result<Authorize, ReadRefusal> {
        cut.take_fixed_u8(3)?;
        Ok(Authorize {
            nonce: cut.take_u64()?,
            have_challenge: cut.take_flag()?,
            server_challenge_plus_one: cut.take_u64()?,
        })
    }

    fn write(&self, alloc: Global, into: &mut Blob) -> Result<(), AllocError> {
        put_u8(alloc, into, 3)?;
        put_u64(alloc, into, self.nonce)?;
        put_flag(alloc, into, self.have_challenge)?;
        put_u64(alloc, into, self.server_challenge_plus_one)
    }
}

impl Record for Authorize {
    ghost use Rattle.cx_sealed.specs.Lengths.{authorize_short};

    ghost short = { authorize_short };
}
