//! Replies to authorizers.

use crate::records::Record;
use cx_base::Blob;
use cx_enc::{Cut, Encoded, ReadRefusal, put_sized, put_u8, put_u64};
use std::alloc::{AllocError, Global};

/// What a daemon answers a second authorizer with, under the session key: the nonce plus one, and the secret of the
/// connection.
#[derive(Clone, Copy, PartialEq, Eq)]
pub struct AuthorizeReply {
    pub nonce_plus_one: u64,
    pub secret: [u8; 64],
}

impl Encoded for AuthorizeReply {
    ghost use Rattle.cx_sealed.specs.Records.{authorize_reply_layout};

    ghost layout = { authorize_reply_layout };

    fn read(_alloc: Global, cut: &mut Cut<'_>) -> Result<AuthorizeReply, ReadRefusal> {
        cut.take_fixed_u8(5)?;
        Ok(AuthorizeReply {
            nonce_plus_one: cut.take_u64()?,
            secret: cut.take_sized()?,
        })
    }

    fn write(&self, alloc: Global, into: &mut Blob) -> Result<(), AllocError> {
        put_u8(alloc, into, 5)?;
        put_u64(alloc, into, self.nonce_plus_one)?;
        put_sized(alloc, into, &self.secret)
    }
}

impl Record for AuthorizeReply {
    ghost use Rattle.cx_sealed.specs.Lengths.{authorize_reply_short};

    ghost short = { authorize_reply_short };
}
