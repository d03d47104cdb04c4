//! Lists of values.

ghost use Rattle.std.specs.Prelude.{◌≡◌, ◌++◌, ◌<◌, ◌^◌, length, All, OnOk, OnErr};
ghost use Rattle.std.specs.List.{AllByRecursion, flat_map};
ghost use Rattle.cx_enc.specs.Forms.{times, many};
ghost use Rattle.cx_enc.specs.Reading.{spot};
ghost use Rattle.cx_enc.specs.Whole.{Takes};

use crate::encoded::Encoded;
use crate::{Cut, ReadRefusal, put_u32};
use cx_base::{Blob, Items};
use std::alloc::{AllocError, Global};

/// Takes so many values, one behind the other. After a refusal the cut stands as before.
pub fn take_items<T: Encoded>(
    alloc: Global,
    cut: &mut Cut<'_>,
    count: u32,
) -> Result<Items<T>, ReadRefusal>
    ensures { Takes (spot cut.old) (spot cut.new) result ((times count T.layout.form).at (spot cut.old)) }
{
    let mut at = *cut;
    let mut items = Items::new(alloc);
    for _ in 0..count {
        let item = T::read(alloc, &mut at)?;
        items.push(alloc, item)?;
    }
    *cut = at;
    Ok(items)
}

/// Takes a count of four bytes and so many values. After a refusal the cut stands as before.
pub fn take_many<T: Encoded>(alloc: Global, cut: &mut Cut<'_>) -> Result<Items<T>, ReadRefusal>
    ensures { Takes (spot cut.old) (spot cut.new) result ((many T.layout.form).at (spot cut.old)) }
{
    let mut at = *cut;
    let count = at.take_u32()?;
    let items = take_items(alloc, &mut at, count)?;
    *cut = at;
    Ok(items)
}

/// Writes the items one behind the other, with no count. Where memory is wanting, the bytes stay as they were.
pub fn put_items<T: Encoded>(
    alloc: Global,
    into: &mut Blob,
    items: &Items<T>,
) -> Result<(), AllocError>
    requires { All T.Bound items.now }
    ensures ok { OnOk result (into.new ≡ into.old ++ flat_map T.layout.form.text items.now) }
    ensures fits { OnOk result (AllByRecursion T.layout.form.Fits items.now) }
    ensures err { OnErr result (into.new ≡ into.old) }
{
    let mut spelled = Blob::new(alloc);
    for item in items.all() {
        item.write(alloc, &mut spelled)?;
    }
    into.append(alloc, spelled.bytes())
}

/// Writes the count of the items and each item. Where memory is wanting, the bytes stay as they were.
pub fn put_many<T: Encoded>(
    alloc: Global,
    into: &mut Blob,
    items: &Items<T>,
) -> Result<(), AllocError>
    requires count { length items.now < 2 ^ 32 }
    requires items { All T.Bound items.now }
    ensures ok { OnOk result (into.new ≡ into.old ++ (many T.layout.form).text items.now) }
    ensures fits { OnOk result ((many T.layout.form).Fits items.now) }
    ensures err { OnErr result (into.new ≡ into.old) }
{
    let mut spelled = Blob::new(alloc);
    put_u32(alloc, &mut spelled, items.all().len() as u32)?;
    put_items(alloc, &mut spelled, items)?;
    into.append(alloc, spelled.bytes())
}
