//! Writing fields behind some bytes. Where memory is wanting, the bytes stay as they were.

ghost use Rattle.std.specs.Prelude.{◌≡◌, ◌++◌, ◌<◌, ◌^◌, length, OnOk, OnErr};
ghost use Rattle.cx_enc.specs.Forms.{u8_form, u16_form, u32_form, u64_form, blob_form};
ghost use Rattle.cx_enc.specs.Moments.{IsReading};
ghost use Rattle.cx_enc.specs.Values.{time_form, reading_form, key_form, secret_form, sized_form, ticket_form, addr_form, kind_form, name_form, flag_form, number_of};

use crate::{Key, TicketBlob, Time};
use cx_base::{Addr, Blob, EntityName, EntityType, Reading};
use std::alloc::{AllocError, Global};

/// Writes a number of one byte.
#[tactic(auto, unfolding(crate::specs::Forms::little))]
pub fn put_u8(alloc: Global, into: &mut Blob, value: u8) -> Result<(), AllocError>
    ensures ok { OnOk result (into.new ≡ into.old ++ u8_form.text value) }
    ensures fits { OnOk result (u8_form.Fits value) }
    ensures err { OnErr result (into.new ≡ into.old) }
{
    into.append(alloc, &value.to_le_bytes())
}

/// Writes a number of two bytes.
#[tactic(auto, unfolding(crate::specs::Forms::little))]
pub fn put_u16(alloc: Global, into: &mut Blob, value: u16) -> Result<(), AllocError>
    ensures ok { OnOk result (into.new ≡ into.old ++ u16_form.text value) }
    ensures fits { OnOk result (u16_form.Fits value) }
    ensures err { OnErr result (into.new ≡ into.old) }
{
    into.append(alloc, &value.to_le_bytes())
}

/// Writes a number of four bytes.
#[tactic(auto, unfolding(crate::specs::Forms::little))]
pub fn put_u32(alloc: Global, into: &mut Blob, value: u32) -> Result<(), AllocError>
    ensures ok { OnOk result (into.new ≡ into.old ++ u32_form.text value) }
    ensures fits { OnOk result (u32_form.Fits value) }
    ensures err { OnErr result (into.new ≡ into.old) }
{
    into.append(alloc, &value.to_le_bytes())
}

/// Writes a number of eight bytes.
#[tactic(auto, unfolding(crate::specs::Forms::little))]
pub fn put_u64(alloc: Global, into: &mut Blob, value: u64) -> Result<(), AllocError>
    ensures ok { OnOk result (into.new ≡ into.old ++ u64_form.text value) }
    ensures fits { OnOk result (u64_form.Fits value) }
    ensures err { OnErr result (into.new ≡ into.old) }
{
    into.append(alloc, &value.to_le_bytes())
}

/// Writes a length and so many bytes.
#[tactic(auto, unfolding(crate::specs::Forms::little))]
pub fn put_blob(alloc: Global, into: &mut Blob, bytes: &[u8]) -> Result<(), AllocError>
    requires { length bytes.now < 2 ^ 32 }
    ensures ok { OnOk result (into.new ≡ into.old ++ blob_form.text bytes.now) }
    ensures fits { OnOk result (blob_form.Fits bytes.now) }
    ensures err { OnErr result (into.new ≡ into.old) }
{
    into.append_both(alloc, &(bytes.len() as u32).to_le_bytes(), bytes)
}

/// Writes a length and these bytes, of which there are below 2^32.
#[tactic(auto, using(crate::specs::FieldLaws::sized_fits), unfolding(crate::specs::Values::sized_form))]
pub fn put_sized<const N: usize>(
    alloc: Global,
    into: &mut Blob,
    bytes: &[u8; N],
) -> Result<(), AllocError>
    requires { N < 2 ^ 32 }
    ensures ok { OnOk result (into.new ≡ into.old ++ (sized_form N).text bytes.now) }
    ensures fits { OnOk result ((sized_form N).Fits bytes.now) }
    ensures err { OnErr result (into.new ≡ into.old) }
{
    put_blob(alloc, into, bytes)
}

/// Writes a time.
#[tactic(auto, unfolding(crate::specs::Values::time_form, crate::specs::Forms::little))]
pub fn put_time(alloc: Global, into: &mut Blob, time: &Time) -> Result<(), AllocError>
    ensures ok { OnOk result (into.new ≡ into.old ++ time_form.text time.now) }
    ensures fits { OnOk result (time_form.Fits time.now) }
    ensures err { OnErr result (into.new ≡ into.old) }
{
    into.append_both(alloc, &time.secs.to_le_bytes(), &time.nanos.to_le_bytes())
}

/// Writes a reading as a time.
#[tactic(auto, using(crate::specs::FieldLaws::reading_fits), unfolding(crate::specs::Values::reading_form))]
pub fn put_reading(alloc: Global, into: &mut Blob, reading: Reading) -> Result<(), AllocError>
    requires { IsReading reading }
    ensures ok { OnOk result (into.new ≡ into.old ++ reading_form.text reading) }
    ensures fits { OnOk result (reading_form.Fits reading) }
    ensures err { OnErr result (into.new ≡ into.old) }
{
    put_time(alloc, into, &Time::of(reading))
}

/// Writes 16 bytes as a key that was made at the time 0.
#[tactic(auto, unfolding(crate::specs::Values::secret_form))]
pub fn put_secret(alloc: Global, into: &mut Blob, secret: &[u8; 16]) -> Result<(), AllocError>
    ensures ok { OnOk result (into.new ≡ into.old ++ secret_form.text secret.now) }
    ensures fits { OnOk result (secret_form.Fits secret.now) }
    ensures err { OnErr result (into.new ≡ into.old) }
{
    let key = Key {
        created: Time { secs: 0, nanos: 0 },
        secret: *secret,
    };
    put_key(alloc, into, &key)
}

/// Writes the blob of a ticket.
#[tactic(auto, unfolding(crate::specs::Values::ticket_form))]
pub fn put_ticket(alloc: Global, into: &mut Blob, ticket: &TicketBlob) -> Result<(), AllocError>
    requires { length ticket.now.blob < 2 ^ 32 }
    ensures ok { OnOk result (into.new ≡ into.old ++ ticket_form.text ticket.now) }
    ensures fits { OnOk result (ticket_form.Fits ticket.now) }
    ensures err { OnErr result (into.new ≡ into.old) }
{
    let blob = ticket.blob.bytes();
    into.append_both(
        alloc,
        &ticket_front(ticket.generation, blob.len() as u32),
        blob,
    )
}

// What stands before the bytes of so long a blob of a ticket.
#[tactic(auto, unfolding(crate::specs::Forms::little))]
fn ticket_front(generation: u64, length: u32) -> [u8; 13]
    ensures { result ≡ u8_form.text 1 ++ (u64_form.text generation ++ u32_form.text length) }
{
    let [g0, g1, g2, g3, g4, g5, g6, g7] = generation.to_le_bytes();
    let [n0, n1, n2, n3] = length.to_le_bytes();
    [1, g0, g1, g2, g3, g4, g5, g6, g7, n0, n1, n2, n3]
}

/// Writes a key.
#[tactic(auto, unfolding(crate::specs::Values::key_form))]
pub fn put_key(alloc: Global, into: &mut Blob, key: &Key) -> Result<(), AllocError>
    ensures ok { OnOk result (into.new ≡ into.old ++ key_form.text key.now) }
    ensures fits { OnOk result (key_form.Fits key.now) }
    ensures err { OnErr result (into.new ≡ into.old) }
{
    into.append_both(
        alloc,
        &key_front(key.created.secs, key.created.nanos),
        &key.secret,
    )
}

// What stands before the bytes of a key that was made at this time.
#[tactic(auto, unfolding(crate::specs::Forms::little))]
fn key_front(secs: u32, nanos: u32) -> [u8; 12]
    ensures { result ≡ u16_form.text 1 ++ (u32_form.text secs ++ (u32_form.text nanos ++ u16_form.text 16)) }
{
    let [s0, s1, s2, s3] = secs.to_le_bytes();
    let [n0, n1, n2, n3] = nanos.to_le_bytes();
    [1, 0, s0, s1, s2, s3, n0, n1, n2, n3, 16, 0]
}

/// Writes an address.
#[tactic(auto, unfolding(crate::specs::Values::addr_form, crate::specs::Forms::little))]
pub fn put_addr(alloc: Global, into: &mut Blob, addr: &Addr) -> Result<(), AllocError>
    ensures ok { OnOk result (into.new ≡ into.old ++ addr_form.text addr.now) }
    ensures fits { OnOk result (addr_form.Fits addr.now) }
    ensures err { OnErr result (into.new ≡ into.old) }
{
    let [n0, n1, n2, n3] = addr.nonce.to_le_bytes();
    let [i0, i1, i2, i3] = addr.ip;
    let [p0, p1] = addr.port.to_le_bytes();
    let front = [1, 2, 0, 0, 0, n0, n1, n2, n3];
    into.append_both(alloc, &front, &[i0, i1, i2, i3, p0, p1])
}

/// Writes the number of an entity type.
#[tactic(auto, using(crate::specs::FieldLaws::kind_fits), unfolding(crate::specs::Values::kind_form))]
pub fn put_kind(alloc: Global, into: &mut Blob, kind: EntityType) -> Result<(), AllocError>
    ensures ok { OnOk result (into.new ≡ into.old ++ kind_form.text kind) }
    ensures fits { OnOk result (kind_form.Fits kind) }
    ensures err { OnErr result (into.new ≡ into.old) }
{
    put_u32(alloc, into, number_of(kind))
}

/// Writes a name.
#[tactic(auto, using(crate::proofs::Fitting::name_fits), unfolding(crate::specs::Values::name_form, crate::specs::Forms::little))]
pub fn put_name(alloc: Global, into: &mut Blob, name: &EntityName) -> Result<(), AllocError>
    ensures ok { OnOk result (into.new ≡ into.old ++ name_form.text name.now) }
    ensures fits { OnOk result (name_form.Fits name.now) }
    ensures err { OnErr result (into.new ≡ into.old) }
{
    let id = name.id.bytes();
    let [k0, k1, k2, k3] = number_of(name.kind).to_le_bytes();
    let [n0, n1, n2, n3] = (id.len() as u32).to_le_bytes();
    into.append_both(alloc, &[k0, k1, k2, k3, n0, n1, n2, n3], id)
}

/// Writes a flag.
#[tactic(auto, unfolding(crate::specs::Values::flag_form))]
pub fn put_flag(alloc: Global, into: &mut Blob, flag: bool) -> Result<(), AllocError>
    ensures ok { OnOk result (into.new ≡ into.old ++ flag_form.text flag) }
    ensures fits { OnOk result (flag_form.Fits flag) }
    ensures err { OnErr result (into.new ≡ into.old) }
{
    put_u8(alloc, into, if flag { 1 } else { 0 })
}

/// The number of an entity type.
pub fn number_of(kind: EntityType) -> u32
    ensures { result ≡ number_of kind }
{
    match kind {
        EntityType::Mon => 1,
        EntityType::Mds => 2,
        EntityType::Osd => 4,
        EntityType::Client => 8,
        EntityType::Mgr => 16,
        EntityType::Auth => 32,
    }
}
