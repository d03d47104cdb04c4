//! What is done with the places of a table.

ghost use Rattle.std.specs.Prelude.{◌≡◌, [], ◌∷◌, Ok, IsSome, IfSome, IfNone, IfOk, OnOk, OnErr, map, slice_get};
ghost use Rattle.std.specs.Option.{option_copied};
ghost use Rattle.cx_node.specs.Tables.{with_number};
ghost use Rattle.cx_node.specs.Places.{AreKept, IsVacated, IsFilled, IsGivenUp, IsRemoved, links_in, rooms_in};

use crate::numbered::Numbered;
use crate::places::LinkPlace;
use crate::searching::place_of;
use cx_base::Items;
use std::alloc::{AllocError, Global};

// The link of a number.
pub(crate) fn find<L: Numbered>(places: &[LinkPlace<L>], number: u32) -> Option<&L>
    requires { AreKept L.number_of places.now }
    ensures { option_copied result ≡ with_number L.number_of number (links_in places.now) }
{
    match place_of(places, number) {
        Ok(place) => places[place].link(),
        Err(_) => None,
    }
}

// The link at a place, where none is taken out.
pub(crate) fn nth<L>(places: &[LinkPlace<L>], place: usize) -> Option<&L>
    requires { rooms_in places.now ≡ [] }
    ensures { option_copied result ≡ slice_get (links_in places.now) place }
{
    if place < places.len() {
        places[place].link()
    } else {
        None
    }
}

// The numbers of the links.
pub(crate) fn numbers<L: Numbered>(
    alloc: Global,
    places: &[LinkPlace<L>],
) -> Result<Items<u32>, AllocError>
    ensures { IfOk result (λ numbers. numbers ≡ map L.number_of (links_in places.now)) }
{
    let mut numbers = Items::new(alloc);
    for place in places {
        if let Some(link) = place.link() {
            numbers.push(alloc, link.number())?;
        }
    }
    Ok(numbers)
}

// Takes a link out, and keeps its place.
pub(crate) fn take_out<L: Numbered>(places: &mut Vec<LinkPlace<L>>, number: u32) -> Option<L>
    requires kept { AreKept L.number_of places.old.items }
    requires full { rooms_in places.old.items ≡ [] }
    ensures link { result ≡ with_number L.number_of number (links_in places.old.items) }
    ensures some { IfSome result (λ _. IsVacated L.number_of number places.old.items places.new.items) }
    ensures none { IfNone result (places.new.items ≡ places.old.items) }
{
    match place_of(places.as_slice(), number) {
        Ok(place) => places[place].vacate(),
        Err(_) => None,
    }
}

// Puts a link into the place that is kept for it.
pub(crate) fn put_in<L: Numbered>(places: &mut Vec<LinkPlace<L>>, link: L)
    requires kept { AreKept L.number_of places.old.items }
    requires room { rooms_in places.old.items ≡ L.number_of link ∷ [] }
    ensures { IsFilled L.number_of link places.old.items places.new.items }
{
    match place_of(places.as_slice(), link.number()) {
        Ok(place) => places[place].fill(link),
        Err(_) => unreachable!(),
    }
}

// Gives up the place that is kept.
pub(crate) fn give_up<L: Numbered>(places: &mut Vec<LinkPlace<L>>, number: u32)
    requires kept { AreKept L.number_of places.old.items }
    requires room { rooms_in places.old.items ≡ number ∷ [] }
    ensures { IsGivenUp L.number_of places.old.items places.new.items }
{
    match place_of(places.as_slice(), number) {
        Ok(place) => {
            places.remove(place);
        }
        Err(_) => unreachable!(),
    }
}

// Puts a link in its place, which may be a new one.
pub(crate) fn put<L: Numbered>(
    alloc: Global,
    places: &mut Vec<LinkPlace<L>>,
    link: L,
) -> Result<(), AllocError>
    requires kept { AreKept L.number_of places.old.items }
    requires full { rooms_in places.old.items ≡ [] }
    ensures ok { OnOk result (IsFilled L.number_of link places.old.items places.new.items) }
    ensures free { IsSome (with_number L.number_of (L.number_of link) (links_in places.old.items)) → result ≡ Ok tt }
    ensures err { OnErr result (places.new.items ≡ places.old.items) }
{
    let number = link.number();
    match place_of(places.as_slice(), number) {
        Ok(place) => {
            places[place].fill(link);
            Ok(())
        }
        Err(place) => {
            let new = LinkPlace::new(alloc, number, link)?;
            places.insert(place, new)?;
            Ok(())
        }
    }
}

// Gives up a link with its place; not the place that is kept for one.
pub(crate) fn shut<L: Numbered>(places: &mut Vec<LinkPlace<L>>, number: u32)
    requires { AreKept L.number_of places.old.items }
    ensures { IsRemoved L.number_of number places.old.items places.new.items }
{
    let Ok(place) = place_of(places.as_slice(), number) else {
        return;
    };
    if places[place].link().is_some() {
        places.remove(place);
    }
}
