//! The spelling of the kept state.

ghost use Rattle.std.specs.Prelude.{ℕ, ◌≡◌, ◌≤◌, ◌++◌, true, [], ◌∷◌, Ok, Some, None, IfOk, IfErr, OnOk, OnErr, IsTrue};
ghost use Rattle.cx_rotate.specs.Held.{IsRising};
ghost use Rattle.cx_rotate.specs.Keeping.{IsKeptState, IsLasting, IsLife};
ghost use Rattle.cx_rotate.specs.declared.states.KeptState.{KeptState};
ghost use Rattle.cx_enc.specs.Forms.{times};
ghost use Rattle.cx_enc.specs.Layouts.{only_if, u64_field, reading_field};
ghost use Rattle.cx_enc.specs.Moments.{IsReading};
ghost use Rattle.cx_enc.specs.Faults.{fault_place};
ghost use Rattle.cx_enc.specs.Reading.{spot};
ghost use Rattle.cx_enc.specs.Whole.{GivesInPlace, part_at};
ghost use Rattle.cx_keep.specs.Formats.{IsRefusedAt, SpellsState, count_field, follows, format_field, generation_behind, generation_fields, generations_field, gid_field, is_format, is_none_or_three, is_later, life_field, lives_in, lives_of, state_of, state_text, stored_as, stored_layout, three_field};

use cx_base::{Blob, Reading};
use cx_enc::{Cut, ReadFault, put_reading, put_secret, put_u8, put_u32, put_u64};
use cx_rotate::{Generation, Generations, KeptState};
use std::alloc::{AllocError, Global};
use thiserror::Error;

// The four bytes `cxst`.
const MARK: u32 = 0x7473_7863;

/// The bytes are no state. The place is that of the first field that can't be read, or of the first byte that is left over.
#[derive(Clone, Copy, Debug, PartialEq, Eq, Error)]
#[error("the kept state is refused at byte {0}")]
pub struct BadState(pub usize);

impl From<ReadFault> for BadState {
    ghost use Rattle.std.specs.Prelude.{◌≡◌};
    ghost use Rattle.cx_enc.specs.Faults.{fault_place};

    ghost from_gives = { λ fault bad. bad.0 ≡ fault_place fault };

    fn from(fault: ReadFault) -> BadState {
        BadState(fault.place())
    }
}

/// The state that all of the bytes spell. A state of format 1 holds no lives, and gets these two, in nanoseconds; one of format
/// 2 has its own.
pub fn decode_state(bytes: &[u8], life: u64, auth_life: u64) -> Result<KeptState, BadState>
    requires life { IsLife life }
    requires auth_life { IsLife auth_life }
    // What is read is spelled so.
    ensures found { IfOk result (SpellsState (life, auth_life) bytes.now) }
    // What is spelled so is read.
    ensures only { (state : KeptState) → SpellsState (life, auth_life) bytes.now state → result ≡ Ok state }
    // Why bytes are refused.
    ensures refused { IfErr result (λ bad. IsRefusedAt bytes.now bad.0) }
    ensures kept { IfOk result IsKeptState }
{
    let mut cut = Cut::new(bytes);
    let state = read_state(&mut cut, life, auth_life)?;
    if cut.left() > 0 {
        return Err(BadState(cut.place()));
    }
    Ok(state)
}

// Reads a state from the front.
fn read_state(cut: &mut Cut<'_>, life: u64, auth_life: u64) -> Result<KeptState, ReadFault>
    ensures { GivesInPlace (spot cut.new) result (part_at (state_of (life, auth_life)) stored_layout.form (spot cut.old)) }
{
    cut.take_fixed_u32(MARK)?;
    let format = take_format(cut)?;
    let next_gid = take_gid(cut)?;
    let lives = take_lives(cut, format, (life, auth_life))?;
    Ok(KeptState {
        next_gid,
        life: lives.0,
        auth_life: lives.1,
        mds: take_generations(cut)?,
        osd: take_generations(cut)?,
        mgr: take_generations(cut)?,
        auth: take_generations(cut)?,
    })
}

fn take_format(cut: &mut Cut<'_>) -> Result<u8, ReadFault>
    ensures read { GivesInPlace (spot cut.new) result (format_field.form.at (spot cut.old)) }
    ensures known { IfOk result (λ format. IsTrue (is_format format)) }
{
    let place = cut.place();
    let format = cut.take_u8()?;
    if format != 1 && format != 2 {
        return Err(ReadFault::BadField(place));
    }
    Ok(format)
}

fn take_gid(cut: &mut Cut<'_>) -> Result<u64, ReadFault>
    ensures { GivesInPlace (spot cut.new) result (gid_field.form.at (spot cut.old)) }
{
    let place = cut.place();
    let gid = cut.take_u64()?;
    if gid < 1 {
        return Err(ReadFault::BadField(place));
    }
    Ok(gid)
}

fn take_life(cut: &mut Cut<'_>) -> Result<u64, ReadFault>
    ensures { GivesInPlace (spot cut.new) result (life_field.form.at (spot cut.old)) }
{
    let place = cut.place();
    let life = cut.take_u64()?;
    if life < 1_000_000_000 || life > 31_536_000_000_000_000 {
        return Err(ReadFault::BadField(place));
    }
    Ok(life)
}

// The lives of a state of this format, which are these where it holds none.
#[tactic(auto, unfolding(cx_enc::specs::Forms::times_at))]
fn take_lives(cut: &mut Cut<'_>, format: u8, handed: (u64, u64)) -> Result<(u64, u64), ReadFault>
    requires { IsTrue (is_format format) }
    ensures { GivesInPlace (spot cut.new) result (part_at (lives_of handed) (times (lives_in format) life_field.form) (spot cut.old)) }
{
    if format == 1 {
        return Ok(handed);
    }
    let life = take_life(cut)?;
    let auth_life = take_life(cut)?;
    Ok((life, auth_life))
}

// None or three generations.
#[tactic(auto, unfolding(cx_enc::specs::Forms::chain_at))]
fn take_generations(cut: &mut Cut<'_>) -> Result<Generations, ReadFault>
    ensures { GivesInPlace (spot cut.new) result (generations_field.form.at (spot cut.old)) }
{
    match take_count(cut)? {
        0 => Ok(Generations::empty()),
        _ => take_three(cut),
    }
}

fn take_count(cut: &mut Cut<'_>) -> Result<u8, ReadFault>
    ensures read { GivesInPlace (spot cut.new) result (count_field.form.at (spot cut.old)) }
    ensures count { IfOk result (λ count. IsTrue (is_none_or_three count)) }
{
    let place = cut.place();
    let count = cut.take_u8()?;
    if count != 0 && count != 3 {
        return Err(ReadFault::BadField(place));
    }
    Ok(count)
}

#[tactic(auto, unfolding(cx_enc::specs::Forms::chain_at))]
fn take_three(cut: &mut Cut<'_>) -> Result<Generations, ReadFault>
    ensures { GivesInPlace (spot cut.new) result (three_field.form.at (spot cut.old)) }
{
    let previous = take_generation(cut, None)?;
    let current = take_generation(cut, Some(previous))?;
    let next = take_generation(cut, Some(current))?;
    Ok(rising(&[previous, current, next]))
}

// Three generations whose ids rise by one.
fn rising(three: &[Generation; 3]) -> Generations
    requires { IsRising three.now }
    ensures { result ≡ three.now }
{
    match Generations::of(three) {
        Some(generations) => generations,
        None => unreachable!(),
    }
}

// A generation behind the last one, if there is one.
fn take_generation(cut: &mut Cut<'_>, last: Option<Generation>) -> Result<Generation, ReadFault>
    ensures read { GivesInPlace (spot cut.new) result ((generation_behind last).form.at (spot cut.old)) }
    ensures follows { IfOk result (λ g. IsTrue (follows last g.id)) }
{
    Ok(Generation {
        id: take_id(cut, last)?,
        key: cut.take_secret()?,
        expires: take_expiry(cut, last)?,
    })
}

fn take_id(cut: &mut Cut<'_>, last: Option<Generation>) -> Result<u64, ReadFault>
    ensures read { GivesInPlace (spot cut.new) result ((only_if (follows last) u64_field).form.at (spot cut.old)) }
    ensures follows { IfOk result (λ id. IsTrue (follows last id)) }
{
    let place = cut.place();
    let id = cut.take_u64()?;
    if !follows(last, id) {
        return Err(ReadFault::BadField(place));
    }
    Ok(id)
}

fn follows(last: Option<Generation>, id: u64) -> bool
    ensures { result ≡ follows last id }
{
    match last {
        None => id >= 1,
        Some(last) => id.checked_sub(last.id) == Some(1),
    }
}

fn take_expiry(cut: &mut Cut<'_>, last: Option<Generation>) -> Result<Reading, ReadFault>
    ensures { GivesInPlace (spot cut.new) result ((only_if (is_later last) reading_field).form.at (spot cut.old)) }
{
    let place = cut.place();
    let expires = cut.take_reading()?;
    if !is_later(last, expires) {
        return Err(ReadFault::BadField(place));
    }
    Ok(expires)
}

fn is_later(last: Option<Generation>, expires: Reading) -> bool
    ensures { result ≡ is_later last expires }
{
    match last {
        None => true,
        Some(last) => last.expires < expires,
    }
}

/// The spelling of the state, in format 2.
#[tactic(auto, using(crate::proofs::Fitting::spells))]
pub fn encode_state(alloc: Global, state: &KeptState) -> Result<Blob, AllocError>
    requires { IsKeptState state.now }
    ensures text { IfOk result (λ bytes. bytes ≡ state_text state.now) }
    // It is read again as this state, whatever lives are handed in.
    ensures spells { IfOk result (λ bytes. (lives : ℕ × ℕ) → SpellsState lives bytes state.now) }
{
    let mut bytes = Blob::new(alloc);
    put_state(alloc, &mut bytes, state)?;
    Ok(bytes)
}

fn put_state(alloc: Global, into: &mut Blob, state: &KeptState) -> Result<(), AllocError>
    requires { IsKeptState state.now }
    ensures ok { OnOk result (into.new ≡ into.old ++ state_text state.now) }
    ensures fits { OnOk result (stored_layout.form.Fits (stored_as state.now)) }
{
    put_u32(alloc, into, MARK)?;
    put_u8(alloc, into, 2)?;
    put_u64(alloc, into, state.next_gid)?;
    put_u64(alloc, into, state.life)?;
    put_u64(alloc, into, state.auth_life)?;
    put_generations(alloc, into, &state.mds)?;
    put_generations(alloc, into, &state.osd)?;
    put_generations(alloc, into, &state.mgr)?;
    put_generations(alloc, into, &state.auth)
}

#[tactic(auto, unfolding(cx_enc::specs::Forms::chain_text))]
fn put_generations(
    alloc: Global,
    into: &mut Blob,
    generations: &Generations,
) -> Result<(), AllocError>
    requires { IsLasting generations.now }
    ensures ok { OnOk result (into.new ≡ into.old ++ generations_field.form.text generations.now) }
    ensures fits { OnOk result (generations_field.form.Fits generations.now) }
{
    match generations.all() {
        None => put_u8(alloc, into, 0),
        Some(three) => put_three(alloc, into, &three),
    }
}

#[tactic(auto, using(crate::proofs::Fitting::three_fit), unfolding(cx_enc::specs::Forms::chain_text))]
fn put_three(alloc: Global, into: &mut Blob, three: &[Generation; 3]) -> Result<(), AllocError>
    requires { IsLasting three.now }
    ensures ok { OnOk result (into.new ≡ into.old ++ generations_field.form.text three.now) }
    ensures fits { OnOk result (generations_field.form.Fits three.now) }
{
    let [previous, current, next] = three;
    put_u8(alloc, into, 3)?;
    put_generation(alloc, into, previous)?;
    put_generation(alloc, into, current)?;
    put_generation(alloc, into, next)
}

fn put_generation(alloc: Global, into: &mut Blob, generation: &Generation) -> Result<(), AllocError>
    requires { IsReading generation.now.expires }
    ensures ok { OnOk result (into.new ≡ into.old ++ generation_fields.form.text generation.now) }
    ensures fits { OnOk result (generation_fields.form.Fits generation.now) }
{
    put_u64(alloc, into, generation.id)?;
    put_secret(alloc, into, &generation.key)?;
    put_reading(alloc, into, generation.expires)
}
