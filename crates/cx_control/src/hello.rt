//! The first frame of both sides.

ghost use Rattle.cx_control.specs.Hello.{hello_layout};

use cx_base::{Addr, Blob, EntityType};
use cx_enc::{Cut, Encoded, ReadFault, ReadRefusal, kind_of, number_of, put_addr, put_u8};
use std::alloc::{AllocError, Global};

/// HELLO: the type of its sender, and an address of its peer, which is written with zeros and read as any.
#[derive(Clone, Copy, PartialEq, Eq)]
pub struct Hello {
    pub kind: EntityType,
    pub addr: Addr,
}

impl Encoded for Hello {
    ghost layout = { hello_layout };

    fn read(_alloc: Global, cut: &mut Cut<'_>) -> Result<Hello, ReadRefusal> {
        let place = cut.place();
        let Some(kind) = kind_of(u32::from(cut.take_u8()?)) else {
            return Err(ReadRefusal::Fault(ReadFault::BadField(place)));
        };
        Ok(Hello {
            kind,
            addr: cut.take_addr()?,
        })
    }

    #[tactic(auto, using(cx_enc::specs::FieldLaws::kind_again))]
    fn write(&self, alloc: Global, into: &mut Blob) -> Result<(), AllocError> {
        put_u8(alloc, into, number_of(self.kind) as u8)?;
        put_addr(alloc, into, &self.addr)
    }
}
