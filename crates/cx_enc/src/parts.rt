//! Values that are read more widely than they are written.

ghost use Rattle.std.specs.Prelude.{◌≡◌, IfOk, IfErr};
ghost use Rattle.cx_enc.specs.Layouts.{Layout};
ghost use Rattle.cx_enc.specs.Reading.{spot};
ghost use Rattle.cx_enc.specs.Whole.{Gives, part_at, SpellsPart, Spells, Yields, IsRefusedBy};

use crate::{Cut, ReadRefusal};
use std::alloc::Global;

/// A type that is read more widely than it is written: its layout reads a whole, and the value keeps a part of it.
pub trait ReadsPart: Sized + Drop {
    ghost Whole: { Type 0 };

    ghost whole: { Layout Whole };

    // the part of the whole that is kept
    ghost kept: { Whole → Self };

    /// Reads a value from the front, field by field. After a refusal the cut may stand behind any of the fields.
    fn read_part(alloc: Global, cut: &mut Cut<'_>) -> Result<Self, ReadRefusal>
        ensures { Gives (spot cut.new) result (part_at kept whole.form (spot cut.old)) };
}

/// The part of what all of these bytes spell.
pub fn read_whole_part<T: ReadsPart>(alloc: Global, bytes: &[u8]) -> Result<T, ReadRefusal>
    // What is read is a part of what is spelled.
    ensures found { IfOk result (SpellsPart T.whole.form T.kept bytes.now) }
    // Of what is spelled the part is read, unless memory is wanting.
    ensures only { (v : T.Whole) → Spells T.whole.form bytes.now v → Yields result (T.kept v) }
    // Why bytes are refused.
    ensures refused { IfErr result (IsRefusedBy T.whole.form bytes.now) }
{
    let mut cut = Cut::new(bytes);
    let value = T::read_part(alloc, &mut cut)?;
    if cut.left() > 0 {
        return Err(ReadRefusal::LeftOver(cut.place()));
    }
    Ok(value)
}
