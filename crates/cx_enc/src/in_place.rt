//! Values that own nothing, which are read with no memory.

ghost use Rattle.std.specs.Prelude.{◌≡◌};
ghost use Rattle.cx_enc.specs.Forms.{times};
ghost use Rattle.cx_enc.specs.Reading.{spot, Reads, Passes};
ghost use Rattle.cx_enc.specs.Whole.{GivesInPlace};

use crate::{Cut, Encoded, Key, ReadFault, Time};
use cx_base::{Addr, EntityType};

/// A type with a layout whose values own nothing, so that reading one wants no memory.
pub trait EncodedInPlace: Encoded {
    /// Reads a value from the front, field by field. After a fault the cut may stand behind any of the fields.
    fn read_in_place(cut: &mut Cut<'_>) -> Result<Self, ReadFault>
        ensures { GivesInPlace (spot cut.new) result (Self.layout.form.at (spot cut.old)) };

    /// Takes a value from the front. After a fault the cut stands as before.
    final fn take_in_place(cut: &mut Cut<'_>) -> Result<Self, ReadFault>
        ensures { Reads (spot cut.old) (spot cut.new) result (Self.layout.form.at (spot cut.old)) }
    {
        let mut at = *cut;
        let value = Self::read_in_place(&mut at)?;
        *cut = at;
        Ok(value)
    }
}

/// Passes so many values, which are read and not kept. After a fault the cut stands as before.
pub fn pass_items<T: EncodedInPlace>(cut: &mut Cut<'_>, count: u32) -> Result<(), ReadFault>
    ensures { Passes (spot cut.old) (spot cut.new) result ((times count T.layout.form).at (spot cut.old)) }
{
    let mut at = *cut;
    for _ in 0..count {
        let _passed = T::read_in_place(&mut at)?;
    }
    *cut = at;
    Ok(())
}

impl EncodedInPlace for u8 {
    fn read_in_place(cut: &mut Cut<'_>) -> Result<u8, ReadFault> {
        cut.take_u8()
    }
}

impl EncodedInPlace for u16 {
    fn read_in_place(cut: &mut Cut<'_>) -> Result<u16, ReadFault> {
        cut.take_u16()
    }
}

impl EncodedInPlace for u32 {
    fn read_in_place(cut: &mut Cut<'_>) -> Result<u32, ReadFault> {
        cut.take_u32()
    }
}

impl EncodedInPlace for u64 {
    fn read_in_place(cut: &mut Cut<'_>) -> Result<u64, ReadFault> {
        cut.take_u64()
    }
}

impl EncodedInPlace for bool {
    fn read_in_place(cut: &mut Cut<'_>) -> Result<bool, ReadFault> {
        cut.take_flag()
    }
}

impl<const N: usize> EncodedInPlace for [u8; N] {
    fn read_in_place(cut: &mut Cut<'_>) -> Result<[u8; N], ReadFault> {
        cut.take_array::<N>()
    }
}

impl EncodedInPlace for Time {
    fn read_in_place(cut: &mut Cut<'_>) -> Result<Time, ReadFault> {
        cut.take_time()
    }
}

impl EncodedInPlace for Key {
    fn read_in_place(cut: &mut Cut<'_>) -> Result<Key, ReadFault> {
        cut.take_key()
    }
}

impl EncodedInPlace for Addr {
    fn read_in_place(cut: &mut Cut<'_>) -> Result<Addr, ReadFault> {
        cut.take_addr()
    }
}

impl EncodedInPlace for EntityType {
    fn read_in_place(cut: &mut Cut<'_>) -> Result<EntityType, ReadFault> {
        cut.take_kind()
    }
}
