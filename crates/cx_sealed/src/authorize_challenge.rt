//! Challenges to authorizers.

use crate::records::Record;
use cx_base::Blob;
use cx_enc::{Cut, Encoded, ReadRefusal, put_u8, put_u64};
use std::alloc::{AllocError, Global};

/// The challenge that a daemon answers a first authorizer with, under the session key.
#[derive(Clone, Copy, PartialEq, Eq)]
pub struct AuthorizeChallenge {
    pub challenge: u64,
}

impl Encoded for AuthorizeChallenge {
    ghost use Rattle.cx_sealed.specs.Records.{authorize_challenge_layout};

    ghost layout = { authorize_challenge_layout };

    fn read(_alloc: Global, cut: &mut Cut<'_>) -> Result<AuthorizeChallenge, ReadRefusal> {
        cut.take_fixed_u8(4)?;
        Ok(AuthorizeChallenge {
            challenge: cut.take_u64()?,
        })
    }

    fn write(&self, alloc: Global, into: &mut Blob) -> Result<(), AllocError> {
        put_u8(alloc, into, 4)?;
        put_u64(alloc, into, self.challenge)
    }
}

impl Record for AuthorizeChallenge {
    ghost use Rattle.cx_sealed.specs.Lengths.{authorize_challenge_short};

    ghost short = { authorize_challenge_short };
}
