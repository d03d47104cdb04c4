//! The secret of a connection.

use crate::records::Record;
use cx_base::Blob;
use cx_enc::{Cut, Encoded, ReadRefusal, put_sized, put_u8};
use std::alloc::{AllocError, Global};

/// The secret of a connection to the monitor, under the session key of the AUTH ticket.
#[derive(Clone, Copy, PartialEq, Eq)]
pub struct ConnectionSecret {
    pub secret: [u8; 64],
}

impl Encoded for ConnectionSecret {
    ghost use Rattle.cx_sealed.specs.Records.{connection_secret_layout};

    ghost layout = { connection_secret_layout };

    fn read(_alloc: Global, cut: &mut Cut<'_>) -> Result<ConnectionSecret, ReadRefusal> {
        cut.take_fixed_u8(7)?;
        Ok(ConnectionSecret {
            secret: cut.take_sized()?,
        })
    }

    fn write(&self, alloc: Global, into: &mut Blob) -> Result<(), AllocError> {
        put_u8(alloc, into, 7)?;
        put_sized(alloc, into, &self.secret)
    }
}

impl Record for ConnectionSecret {
    ghost use Rattle.cx_sealed.specs.Lengths.{connection_secret_short};

    ghost short = { connection_secret_short };
}
