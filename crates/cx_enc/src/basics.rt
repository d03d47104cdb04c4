//! The primitive fields, and lists of values with a layout, as values with a layout.

use crate::encoded::Encoded;
use crate::lists::{put_many, take_many};
use crate::{
    Cut, Key, ReadRefusal, TicketBlob, Time, put_addr, put_blob, put_flag, put_key, put_kind,
    put_name, put_ticket, put_time, put_u8, put_u16, put_u32, put_u64,
};
use cx_base::{Addr, Blob, EntityName, EntityType, Items};
use std::alloc::{AllocError, Global};

impl Encoded for u8 {
    ghost use Rattle.cx_enc.specs.Layouts.{u8_field};

    ghost layout = { u8_field };

    fn read(_alloc: Global, cut: &mut Cut<'_>) -> Result<u8, ReadRefusal> {
        let value = cut.take_u8()?;
        Ok(value)
    }

    fn write(&self, alloc: Global, into: &mut Blob) -> Result<(), AllocError> {
        put_u8(alloc, into, *self)
    }
}

impl Encoded for u16 {
    ghost use Rattle.cx_enc.specs.Layouts.{u16_field};

    ghost layout = { u16_field };

    fn read(_alloc: Global, cut: &mut Cut<'_>) -> Result<u16, ReadRefusal> {
        let value = cut.take_u16()?;
        Ok(value)
    }

    fn write(&self, alloc: Global, into: &mut Blob) -> Result<(), AllocError> {
        put_u16(alloc, into, *self)
    }
}

impl Encoded for u32 {
    ghost use Rattle.cx_enc.specs.Layouts.{u32_field};

    ghost layout = { u32_field };

    fn read(_alloc: Global, cut: &mut Cut<'_>) -> Result<u32, ReadRefusal> {
        let value = cut.take_u32()?;
        Ok(value)
    }

    fn write(&self, alloc: Global, into: &mut Blob) -> Result<(), AllocError> {
        put_u32(alloc, into, *self)
    }
}

impl Encoded for u64 {
    ghost use Rattle.cx_enc.specs.Layouts.{u64_field};

    ghost layout = { u64_field };

    fn read(_alloc: Global, cut: &mut Cut<'_>) -> Result<u64, ReadRefusal> {
        let value = cut.take_u64()?;
        Ok(value)
    }

    fn write(&self, alloc: Global, into: &mut Blob) -> Result<(), AllocError> {
        put_u64(alloc, into, *self)
    }
}

impl Encoded for bool {
    ghost use Rattle.cx_enc.specs.Layouts.{flag_field};

    ghost layout = { flag_field };

    fn read(_alloc: Global, cut: &mut Cut<'_>) -> Result<bool, ReadRefusal> {
        let value = cut.take_flag()?;
        Ok(value)
    }

    fn write(&self, alloc: Global, into: &mut Blob) -> Result<(), AllocError> {
        put_flag(alloc, into, *self)
    }
}

impl Encoded for Time {
    ghost use Rattle.cx_enc.specs.Layouts.{time_field};

    ghost layout = { time_field };

    fn read(_alloc: Global, cut: &mut Cut<'_>) -> Result<Time, ReadRefusal> {
        let value = cut.take_time()?;
        Ok(value)
    }

    fn write(&self, alloc: Global, into: &mut Blob) -> Result<(), AllocError> {
        put_time(alloc, into, self)
    }
}

impl Encoded for Key {
    ghost use Rattle.cx_enc.specs.Layouts.{key_field};

    ghost layout = { key_field };

    fn read(_alloc: Global, cut: &mut Cut<'_>) -> Result<Key, ReadRefusal> {
        let value = cut.take_key()?;
        Ok(value)
    }

    fn write(&self, alloc: Global, into: &mut Blob) -> Result<(), AllocError> {
        put_key(alloc, into, self)
    }
}

impl Encoded for Addr {
    ghost use Rattle.cx_enc.specs.Layouts.{addr_field};

    ghost layout = { addr_field };

    fn read(_alloc: Global, cut: &mut Cut<'_>) -> Result<Addr, ReadRefusal> {
        let value = cut.take_addr()?;
        Ok(value)
    }

    fn write(&self, alloc: Global, into: &mut Blob) -> Result<(), AllocError> {
        put_addr(alloc, into, self)
    }
}

impl Encoded for EntityType {
    ghost use Rattle.cx_enc.specs.Layouts.{kind_field};

    ghost layout = { kind_field };

    fn read(_alloc: Global, cut: &mut Cut<'_>) -> Result<EntityType, ReadRefusal> {
        let value = cut.take_kind()?;
        Ok(value)
    }

    fn write(&self, alloc: Global, into: &mut Blob) -> Result<(), AllocError> {
        put_kind(alloc, into, *self)
    }
}

impl<const N: usize> Encoded for [u8; N] {
    ghost use Rattle.cx_enc.specs.Layouts.{bytes_field};

    ghost layout = { bytes_field N };

    fn read(_alloc: Global, cut: &mut Cut<'_>) -> Result<[u8; N], ReadRefusal> {
        let value = cut.take_array::<N>()?;
        Ok(value)
    }

    fn write(&self, alloc: Global, into: &mut Blob) -> Result<(), AllocError> {
        into.append(alloc, self)
    }
}

impl Encoded for EntityName {
    ghost use Rattle.cx_enc.specs.Layouts.{name_field};

    ghost layout = { name_field };

    fn read(alloc: Global, cut: &mut Cut<'_>) -> Result<EntityName, ReadRefusal> {
        let name = cut.take_name()?;
        let owned = name.own(alloc)?;
        Ok(owned)
    }

    fn write(&self, alloc: Global, into: &mut Blob) -> Result<(), AllocError> {
        put_name(alloc, into, self)
    }
}

impl Encoded for Blob {
    ghost use Rattle.std.specs.Prelude.{length, ◌<◌, ◌^◌};
    ghost use Rattle.cx_enc.specs.Layouts.{blob_field};

    ghost layout = { blob_field };

    ghost Bound = { λ bytes. length bytes < 2 ^ 32 };

    fn read(alloc: Global, cut: &mut Cut<'_>) -> Result<Blob, ReadRefusal> {
        let bytes = cut.take_blob()?;
        let blob = Blob::of(alloc, bytes)?;
        Ok(blob)
    }

    fn write(&self, alloc: Global, into: &mut Blob) -> Result<(), AllocError> {
        put_blob(alloc, into, self.bytes())
    }
}

impl Encoded for TicketBlob {
    ghost use Rattle.std.specs.Prelude.{length, ◌<◌, ◌^◌};
    ghost use Rattle.cx_enc.specs.Layouts.{ticket_field};

    ghost layout = { ticket_field };

    ghost Bound = { λ ticket. length ticket.blob < 2 ^ 32 };

    fn read(alloc: Global, cut: &mut Cut<'_>) -> Result<TicketBlob, ReadRefusal> {
        let ticket = cut.take_ticket()?;
        let owned = ticket.own(alloc)?;
        Ok(owned)
    }

    fn write(&self, alloc: Global, into: &mut Blob) -> Result<(), AllocError> {
        put_ticket(alloc, into, self)
    }
}

impl<T: Encoded> Encoded for Items<T> {
    ghost use Rattle.std.specs.Prelude.{length, ◌<◌, ◌^◌, All};
    ghost use Rattle.cx_enc.specs.Layouts.{list_of};

    ghost layout = { list_of T.layout };

    ghost Bound = { λ items. (length items < 2 ^ 32) × All T.Bound items };

    fn read(alloc: Global, cut: &mut Cut<'_>) -> Result<Items<T>, ReadRefusal> {
        take_many(alloc, cut)
    }

    fn write(&self, alloc: Global, into: &mut Blob) -> Result<(), AllocError> {
        put_many(alloc, into, self)
    }
}
