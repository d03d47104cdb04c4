//! Reading times, keys, ticket blobs, addresses, names and the numbers that stand for something else.

ghost use Rattle.std.specs.Prelude.{◌≡◌};
ghost use Rattle.cx_enc.specs.Forms.{u8_form, u16_form, u32_form, u64_form};
ghost use Rattle.cx_enc.specs.Names.{name_seen, ticket_seen};
ghost use Rattle.cx_enc.specs.Reading.{spot, Reads, ReadsAs};
ghost use Rattle.cx_enc.specs.Values.{time_form, reading_form, key_form, secret_form, ticket_form, count_form, addr_form, kind_form, name_form, flag_form, kind_of, fixed};

use crate::cut::Cut;
use crate::fields::short_at;
use crate::{Key, NameRef, ReadFault, TicketRef, Time};
use cx_base::{Addr, EntityType, Reading, is_id};

impl<'a> Cut<'a> {
    /// Seconds and nanoseconds, eight bytes.
    #[tactic(auto, unfolding(crate::specs::Values::time_form))]
    pub fn take_time(&mut self) -> Result<Time, ReadFault>
        ensures { Reads (spot self.old) (spot self.new) result (time_form.at (spot self.old)) }
    {
        let mut cut = *self;
        let secs = short_at(self.place, cut.take_u32())?;
        let nanos = short_at(self.place, cut.take_u32())?;
        let Some(time) = Time::new(secs, nanos) else {
            return Err(ReadFault::BadField(self.place));
        };
        *self = cut;
        Ok(time)
    }

    /// The reading of a time, in nanoseconds, eight bytes.
    #[tactic(auto, unfolding(crate::specs::Values::reading_form))]
    pub fn take_reading(&mut self) -> Result<Reading, ReadFault>
        ensures { Reads (spot self.old) (spot self.new) result (reading_form.at (spot self.old)) }
    {
        let time = self.take_time()?;
        Ok(time.reading())
    }

    /// A key: type 1, the time of its making, length 16 and 16 bytes, 28 bytes in all.
    #[tactic(auto, unfolding(crate::specs::Values::key_form))]
    pub fn take_key(&mut self) -> Result<Key, ReadFault>
        ensures { Reads (spot self.old) (spot self.new) result (key_form.at (spot self.old)) }
    {
        let mut cut = *self;
        let kind = short_at(self.place, cut.take_u16())?;
        let secs = short_at(self.place, cut.take_u32())?;
        let nanos = short_at(self.place, cut.take_u32())?;
        let length = short_at(self.place, cut.take_u16())?;
        let secret = short_at(self.place, cut.take_array())?;
        if kind != 1 || length != 16 {
            return Err(ReadFault::BadField(self.place));
        }
        let Some(created) = Time::new(secs, nanos) else {
            return Err(ReadFault::BadField(self.place));
        };
        *self = cut;
        Ok(Key { created, secret })
    }

    /// The 16 bytes of a key that was made at the time 0, 28 bytes in all. A key of another time is a bad field.
    #[tactic(auto, unfolding(crate::specs::Values::secret_form))]
    pub fn take_secret(&mut self) -> Result<[u8; 16], ReadFault>
        ensures { Reads (spot self.old) (spot self.new) result (secret_form.at (spot self.old)) }
    {
        let mut cut = *self;
        let key = cut.take_key()?;
        if key.created.secs != 0 || key.created.nanos != 0 {
            return Err(ReadFault::BadField(self.place));
        }
        *self = cut;
        Ok(key.secret)
    }

    /// The blob of a ticket: a byte 1, the generation's id and a blob, as one field.
    #[tactic(auto, unfolding(crate::specs::Values::ticket_form))]
    pub fn take_ticket(&mut self) -> Result<TicketRef<'a>, ReadFault>
        ensures { ReadsAs ticket_seen (spot self.old) (spot self.new) result (ticket_form.at (spot self.old)) }
    {
        let mut cut = *self;
        let marker = short_at(self.place, cut.take_u8())?;
        let generation = short_at(self.place, cut.take_u64())?;
        let blob = short_at(self.place, cut.take_blob())?;
        if marker != 1 {
            return Err(ReadFault::BadField(self.place));
        }
        *self = cut;
        Ok(TicketRef { generation, blob })
    }

    /// A count of four bytes, at least `least` and at most `most`.
    pub fn take_count(&mut self, least: u32, most: u32) -> Result<u32, ReadFault>
        ensures { Reads (spot self.old) (spot self.new) result ((count_form least most).at (spot self.old)) }
    {
        let mut cut = *self;
        let count = cut.take_u32()?;
        if count < least || count > most {
            return Err(ReadFault::BadField(self.place));
        }
        *self = cut;
        Ok(count)
    }

    /// An address: a byte 1, type 2, the nonce, four bytes of the IPv4 address and the port, 15 bytes in all.
    #[tactic(auto, unfolding(crate::specs::Values::addr_form))]
    pub fn take_addr(&mut self) -> Result<Addr, ReadFault>
        ensures { Reads (spot self.old) (spot self.new) result (addr_form.at (spot self.old)) }
    {
        let mut cut = *self;
        let marker = short_at(self.place, cut.take_u8())?;
        let kind = short_at(self.place, cut.take_u32())?;
        let nonce = short_at(self.place, cut.take_u32())?;
        let ip = short_at(self.place, cut.take_array())?;
        let port = short_at(self.place, cut.take_u16())?;
        if marker != 1 || kind != 2 {
            return Err(ReadFault::BadField(self.place));
        }
        *self = cut;
        Ok(Addr { nonce, ip, port })
    }

    /// The number of an entity type, four bytes.
    #[tactic(auto, unfolding(crate::specs::Values::kind_form))]
    pub fn take_kind(&mut self) -> Result<EntityType, ReadFault>
        ensures { Reads (spot self.old) (spot self.new) result (kind_form.at (spot self.old)) }
    {
        let mut cut = *self;
        let number = cut.take_u32()?;
        let Some(kind) = kind_of(number) else {
            return Err(ReadFault::BadField(self.place));
        };
        *self = cut;
        Ok(kind)
    }

    /// The number of an entity type and the id of an entity of that type.
    #[tactic(auto, unfolding(crate::specs::Values::name_form))]
    pub fn take_name(&mut self) -> Result<NameRef<'a>, ReadFault>
        ensures { ReadsAs name_seen (spot self.old) (spot self.new) result (name_form.at (spot self.old)) }
    {
        let mut cut = *self;
        let number = short_at(self.place, cut.take_u32())?;
        let id = short_at(self.place, cut.take_blob())?;
        let Some(kind) = kind_of(number) else {
            return Err(ReadFault::BadField(self.place));
        };
        if !is_id(kind, id) {
            return Err(ReadFault::BadField(self.place));
        }
        *self = cut;
        Ok(NameRef { kind, id })
    }

    /// A number of one byte that is always this one.
    pub fn take_fixed_u8(&mut self, number: u8) -> Result<(), ReadFault>
        ensures { ReadsAs (λ _. tt) (spot self.old) (spot self.new) result ((fixed number u8_form).at (spot self.old)) }
    {
        let mut cut = *self;
        let read = cut.take_u8()?;
        if read != number {
            return Err(ReadFault::BadField(self.place));
        }
        *self = cut;
        Ok(())
    }

    /// A number of two bytes that is always this one.
    pub fn take_fixed_u16(&mut self, number: u16) -> Result<(), ReadFault>
        ensures { ReadsAs (λ _. tt) (spot self.old) (spot self.new) result ((fixed number u16_form).at (spot self.old)) }
    {
        let mut cut = *self;
        let read = cut.take_u16()?;
        if read != number {
            return Err(ReadFault::BadField(self.place));
        }
        *self = cut;
        Ok(())
    }

    /// A number of four bytes that is always this one.
    pub fn take_fixed_u32(&mut self, number: u32) -> Result<(), ReadFault>
        ensures { ReadsAs (λ _. tt) (spot self.old) (spot self.new) result ((fixed number u32_form).at (spot self.old)) }
    {
        let mut cut = *self;
        let read = cut.take_u32()?;
        if read != number {
            return Err(ReadFault::BadField(self.place));
        }
        *self = cut;
        Ok(())
    }

    /// A flag, one byte 0 or 1.
    #[tactic(auto, unfolding(crate::specs::Values::flag_form))]
    pub fn take_flag(&mut self) -> Result<bool, ReadFault>
        ensures { Reads (spot self.old) (spot self.new) result (flag_form.at (spot self.old)) }
    {
        let mut cut = *self;
        let number = cut.take_u8()?;
        if number > 1 {
            return Err(ReadFault::BadField(self.place));
        }
        *self = cut;
        Ok(number == 1)
    }
}

/// The entity type of this number.
#[tactic(auto, unfolding(crate::specs::Values::kind_of))]
pub fn kind_of(number: u32) -> Option<EntityType>
    ensures { result ≡ kind_of number }
{
    match number {
        1 => Some(EntityType::Mon),
        2 => Some(EntityType::Mds),
        4 => Some(EntityType::Osd),
        8 => Some(EntityType::Client),
        16 => Some(EntityType::Mgr),
        32 => Some(EntityType::Auth),
        _ => None,
    }
}
