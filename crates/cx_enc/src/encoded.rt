//! Values with a layout: what a record is read and written by.

ghost use Rattle.std.specs.Prelude.{◌≡◌, ◌++◌, OnOk, OnErr, IfOk, IfErr};
ghost use Rattle.cx_enc.specs.Layouts.{Layout};
ghost use Rattle.cx_enc.specs.Reading.{spot};
ghost use Rattle.cx_enc.specs.Whole.{Gives, Takes, Spells, Yields, IsRefusedBy, IsReadAgain};

use crate::{Cut, ReadRefusal};
use cx_base::Blob;
use std::alloc::{AllocError, Global};

/// A type whose values are read and written by one layout.
pub trait Encoded: Sized + Drop {
    ghost layout: { Layout Self };

    // what a writer's caller shows of the value, as that a length fits its number
    ghost Bound: { Self → Type 0 } = { λ _. Unit {0} };

    /// Reads a value from the front, field by field. After a refusal the cut may stand behind any of the fields.
    fn read(alloc: Global, cut: &mut Cut<'_>) -> Result<Self, ReadRefusal>
        ensures { Gives (spot cut.new) result (layout.form.at (spot cut.old)) };

    /// Writes the value behind some bytes, field by field. Where memory is wanting, some fields may stand there.
    fn write(&self, alloc: Global, into: &mut Blob) -> Result<(), AllocError>
        requires { Bound self.now }
        ensures ok { OnOk result (into.new ≡ into.old ++ layout.form.text self.now) }
        // A value that was written is one that the form fits, so by the form's law its spelling is read again.
        ensures fits { OnOk result (layout.form.Fits self.now) };

    /// Takes a value from the front. After a refusal the cut stands as before.
    final fn take(alloc: Global, cut: &mut Cut<'_>) -> Result<Self, ReadRefusal>
        ensures { Takes (spot cut.old) (spot cut.new) result (layout.form.at (spot cut.old)) }
    {
        let mut at = *cut;
        let value = Self::read(alloc, &mut at)?;
        *cut = at;
        Ok(value)
    }

    /// Puts the value behind some bytes. Where memory is wanting, the bytes stay as they were.
    final fn put(&self, alloc: Global, into: &mut Blob) -> Result<(), AllocError>
        requires { Bound self.now }
        ensures ok { OnOk result (into.new ≡ into.old ++ layout.form.text self.now) }
        ensures fits { OnOk result (layout.form.Fits self.now) }
        ensures err { OnErr result (into.new ≡ into.old) }
    {
        let mut spelled = Blob::new(alloc);
        self.write(alloc, &mut spelled)?;
        into.append(alloc, spelled.bytes())
    }
}

/// The value that all of these bytes spell.
pub fn read_whole<T: Encoded>(alloc: Global, bytes: &[u8]) -> Result<T, ReadRefusal>
    // What is read is spelled so.
    ensures found { IfOk result (Spells T.layout.form bytes.now) }
    // What is spelled so is read, unless memory is wanting.
    ensures only { (x : T) → Spells T.layout.form bytes.now x → Yields result x }
    // Why bytes are refused.
    ensures refused { IfErr result (IsRefusedBy T.layout.form bytes.now) }
{
    let mut cut = Cut::new(bytes);
    let value = T::read(alloc, &mut cut)?;
    if cut.left() > 0 {
        return Err(ReadRefusal::LeftOver(cut.place()));
    }
    Ok(value)
}

/// Writes the value into bytes of its own, as a record that is sent or sealed by itself; `put` writes the same ones behind
/// others. The only refusal is want of memory.
pub fn write_whole<T: Encoded>(alloc: Global, value: &T) -> Result<Blob, AllocError>
    requires { T.Bound value.now }
    // What is written spells the value, so by its clause `only` `read_whole` reads this value in it, unless memory is wanting.
    ensures spells { IfOk result (λ bytes. Spells T.layout.form bytes value.now) }
    // At any place, and whatever follows them, the bytes are read as this value, and no further.
    ensures again { IfOk result (λ bytes. IsReadAgain T.layout.form bytes value.now) }
{
    let mut bytes = Blob::new(alloc);
    value.write(alloc, &mut bytes)?;
    Ok(bytes)
}
