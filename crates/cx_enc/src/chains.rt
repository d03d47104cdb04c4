//! Lists whose layout goes on from item to item.

ghost use Rattle.std.specs.Prelude.{◌≡◌, ◌++◌, OnOk, OnErr};
ghost use Rattle.cx_enc.specs.Forms.{chain, chain_text, ChainFits};
ghost use Rattle.cx_enc.specs.Layouts.{Layout};
ghost use Rattle.cx_enc.specs.Reading.{spot};
ghost use Rattle.cx_enc.specs.Whole.{Gives, Takes};

use crate::{Cut, ReadRefusal};
use cx_base::{Blob, Items};
use std::alloc::{AllocError, Global};

/// A type whose values are read and written by a layout that depends on what stands before them in a list, as one that asks
/// for an order.
pub trait Chained<S: Copy>: Sized + Drop {
    ghost layout: { S → Layout Self };

    // what stands before the following value
    ghost next: { S → Self → S };

    // what a writer's caller shows of the value behind what stands before it
    ghost Bound: { S → Self → Type 0 } = { λ _ _. Unit {0} };

    /// Reads a value from the front, behind what stands before it. After a refusal the cut may stand behind any of the fields.
    fn read_behind(alloc: Global, before: S, cut: &mut Cut<'_>) -> Result<Self, ReadRefusal>
        ensures { Gives (spot cut.new) result ((layout before).form.at (spot cut.old)) };

    /// Writes the value behind some bytes. Where memory is wanting, some fields may stand there.
    fn write_behind(&self, alloc: Global, before: S, into: &mut Blob) -> Result<(), AllocError>
        requires { Bound before self.now }
        ensures ok { OnOk result (into.new ≡ into.old ++ (layout before).form.text self.now) }
        ensures fits { OnOk result ((layout before).form.Fits self.now) };

    /// What stands before the following value.
    fn next(&self, before: S) -> S
        ensures { result ≡ next before self.now };
}

/// Takes so many values, each behind what stands before it. After a refusal the cut stands as before.
pub fn take_chain<S: Copy, T: Chained<S>>(
    alloc: Global,
    cut: &mut Cut<'_>,
    first: S,
    count: u32,
) -> Result<Items<T>, ReadRefusal>
    ensures { Takes (spot cut.old) (spot cut.new) result ((chain (λ b. (T.layout b).form) T.next first count).at (spot cut.old)) }
{
    let mut at = *cut;
    let mut before = first;
    let mut items = Items::new(alloc);
    for _ in 0..count {
        let item = T::read_behind(alloc, before, &mut at)?;
        before = item.next(before);
        items.push(alloc, item)?;
    }
    *cut = at;
    Ok(items)
}

/// Writes the items one behind the other, with no count. Where memory is wanting, the bytes stay as they were.
pub fn put_chain<S: Copy, T: Chained<S>>(
    alloc: Global,
    into: &mut Blob,
    first: S,
    items: &Items<T>,
) -> Result<(), AllocError>
    requires { ChainFits T.Bound T.next first items.now }
    ensures ok { OnOk result (into.new ≡ into.old ++ chain_text (λ b. (T.layout b).form.text) T.next first items.now) }
    ensures fits { OnOk result (ChainFits (λ b. (T.layout b).form.Fits) T.next first items.now) }
    ensures err { OnErr result (into.new ≡ into.old) }
{
    let mut spelled = Blob::new(alloc);
    let mut before = first;
    for item in items.all() {
        item.write_behind(alloc, before, &mut spelled)?;
        before = item.next(before);
    }
    into.append(alloc, spelled.bytes())
}
