//! The generations of a service, as a daemon is told them.

ghost use Rattle.std.specs.Prelude.{◌≡◌, ◌++◌, OnOk};
ghost use Rattle.cx_enc.specs.Forms.{times};
ghost use Rattle.cx_enc.specs.Layouts.{only_if, list_by, u32_field};
ghost use Rattle.cx_enc.specs.Moments.{IsReading};
ghost use Rattle.cx_enc.specs.Reading.{spot};
ghost use Rattle.cx_enc.specs.Whole.{GivesInPlace};
ghost use Rattle.cx_sealed.specs.Records.{generation_layout, generations_layout, is_none_or_three, AreReadings, IsJudged};

use crate::records::Record;
use cx_base::{Blob, EntityType};
use cx_enc::{
    Cut, Encoded, ReadFault, ReadRefusal, put_kind, put_reading, put_secret, put_u8, put_u32,
    put_u64,
};
use cx_rotate::{Generation, Generations};
use std::alloc::{AllocError, Global};

/// The generations of a service's rotating secret, as its daemon is told them under its principal's secret.
#[derive(Clone, Copy, PartialEq, Eq)]
pub struct RotatingReply {
    pub service: EntityType,
    /// None, or three whose ids rise by one.
    pub generations: Generations,
}

impl Encoded for RotatingReply {
    ghost use Rattle.cx_sealed.specs.Records.{AreReadings};
    ghost use Rattle.cx_sealed.specs.Records.{rotating_reply_layout};

    ghost layout = { rotating_reply_layout };

    ghost Bound = { λ r. AreReadings r.generations };

    fn read(_alloc: Global, cut: &mut Cut<'_>) -> Result<RotatingReply, ReadRefusal> {
        cut.take_fixed_u8(6)?;
        Ok(RotatingReply {
            service: cut.take_kind()?,
            generations: take_generations(cut)?,
        })
    }

    fn write(&self, alloc: Global, into: &mut Blob) -> Result<(), AllocError> {
        put_u8(alloc, into, 6)?;
        put_kind(alloc, into, self.service)?;
        put_generations(alloc, into, &self.generations)
    }
}

impl Record for RotatingReply {
    ghost use Rattle.cx_sealed.specs.Lengths.{rotating_reply_short};

    ghost short = { rotating_reply_short };
}

// Takes none or three generations, whose ids rise by one.
#[tactic(auto, unfolding(cx_enc::specs::Forms::times_at))]
fn take_generations(cut: &mut Cut<'_>) -> Result<Generations, ReadFault>
    ensures { GivesInPlace (spot cut.new) result (generations_layout.form.at (spot cut.old)) }
{
    let place = cut.place();
    match cut.take_u32()? {
        0 => Ok(Generations::empty()),
        3 => rising(place, &take_three(cut)?),
        _ => Err(ReadFault::BadField(place)),
    }
}

// These three as generations that stand, or the fault of the field that they were read from.
fn rising(place: usize, three: &[Generation; 3]) -> Result<Generations, ReadFault>
    ensures { IsJudged place three.now result }
{
    let Some(generations) = Generations::of(three) else {
        return Err(ReadFault::BadField(place));
    };
    Ok(generations)
}

// Takes three generations.
#[tactic(auto, unfolding(cx_enc::specs::Forms::times_at))]
fn take_three(cut: &mut Cut<'_>) -> Result<[Generation; 3], ReadFault>
    ensures { GivesInPlace (spot cut.new) result ((times 3 generation_layout.form).at (spot cut.old)) }
{
    let previous = take_generation(cut)?;
    let current = take_generation(cut)?;
    let next = take_generation(cut)?;
    Ok([previous, current, next])
}

fn take_generation(cut: &mut Cut<'_>) -> Result<Generation, ReadFault>
    ensures { GivesInPlace (spot cut.new) result (generation_layout.form.at (spot cut.old)) }
{
    Ok(Generation {
        id: cut.take_u64()?,
        key: cut.take_secret()?,
        expires: cut.take_reading()?,
    })
}

// Writes how many generations there are, and these.
#[tactic(auto, using(crate::proofs::Rising::passes))]
fn put_generations(
    alloc: Global,
    into: &mut Blob,
    generations: &Generations,
) -> Result<(), AllocError>
    requires { AreReadings generations.now }
    ensures ok { OnOk result (into.new ≡ into.old ++ generations_layout.form.text generations.now) }
    ensures fits { OnOk result (generations_layout.form.Fits generations.now) }
{
    match generations.all() {
        None => put_u32(alloc, into, 0),
        Some(three) => put_three(alloc, into, &three),
    }
}

// Writes that there are three generations, and these.
fn put_three(alloc: Global, into: &mut Blob, three: &[Generation; 3]) -> Result<(), AllocError>
    requires { AreReadings three.now }
    ensures ok { OnOk result (into.new ≡ into.old ++ generations_layout.form.text three.now) }
    ensures fits { OnOk result ((list_by (only_if is_none_or_three u32_field) generation_layout).form.Fits three.now) }
{
    let [previous, current, next] = three;
    put_u32(alloc, into, 3)?;
    put_generation(alloc, into, previous)?;
    put_generation(alloc, into, current)?;
    put_generation(alloc, into, next)
}

fn put_generation(alloc: Global, into: &mut Blob, generation: &Generation) -> Result<(), AllocError>
    requires { IsReading generation.now.expires }
    ensures ok { OnOk result (into.new ≡ into.old ++ generation_layout.form.text generation.now) }
    ensures fits { OnOk result (generation_layout.form.Fits generation.now) }
{
    put_u64(alloc, into, generation.id)?;
    put_secret(alloc, into, &generation.key)?;
    put_reading(alloc, into, generation.expires)
}
