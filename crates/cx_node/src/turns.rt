//! A turn of a link.

ghost use Rattle.std.specs.Prelude.{◌≡◌, List, Some, None, IfSome, IfOk, OnOk, OnErr};
ghost use Rattle.cx_node.specs.Tables.{with_number, without};
ghost use Rattle.cx_node.specs.steps.Making.{own_behind};
ghost use Rattle.cx_node.specs.steps.Turns.{HasNumber, IsCarried, IsSettled, IsTurned, Turning};

use crate::came::Came;
use crate::moments::Moment;
use crate::steps_rows::NodeRow;
use crate::turner::Turner;
use crate::{Carried, Links, Numbered, Row, carried_out, refuses_bytes};
use cx_steps::Effects;
use std::alloc::{AllocError, Global};

/// One banner or frame of what came on a link is handled, if it lives.
pub fn turn<L: Numbered, T: Turner<L>>(
    alloc: Global,
    own: &mut T,
    links: &mut Links<L>,
    at: &Moment<'_>,
) -> Result<Effects, AllocError>
    requires time { T.IsTime at.now.reading }
    requires room { links.old.room ≡ None }
    ensures turned { IfOk result (λ out. Turning L.number_of T.changed (T.name_of own.old) at.now.number (T.IsCome own.old at.now.reading at.now.draw.now.bytes)
        (record { own = own.old; links = links.old.links }) (record { own = own.new; links = links.new.links }) out (with_number L.number_of at.now.number links.old.links)) }
    ensures own { OnErr result (own.new ≡ own.old) }
    ensures lost { OnErr result (links.new.links ≡ without L.number_of at.now.number links.old.links) }
    ensures room { links.new.room ≡ None }
{
    let Some(link) = links.take(at.number) else {
        return Ok(Effects::new(alloc));
    };
    match turn_taken(alloc, own, links, at, link) {
        Ok(out) => Ok(out),
        Err(error) => {
            links.give_up();
            Err(error)
        }
    }
}

// The link that was taken out of all is turned, and settled.
fn turn_taken<L: Numbered, T: Turner<L>>(
    alloc: Global,
    own: &mut T,
    links: &mut Links<L>,
    at: &Moment<'_>,
    link: L,
) -> Result<Effects, AllocError>
    requires time { T.IsTime at.now.reading }
    requires number { L.number_of link ≡ at.now.number }
    requires room { links.old.room ≡ Some at.now.number }
    ensures turned { (all : List L) → links.old.links ≡ without L.number_of at.now.number all
        → IfOk result (λ out. IsTurned L.number_of T.changed (T.name_of own.old) at.now.number (T.IsCome own.old at.now.reading at.now.draw.now.bytes link)
        (record { own = own.old; links = all }) (record { own = own.new; links = links.new.links }) out) }
    ensures own { OnErr result (own.new ≡ own.old) }
    ensures err { OnErr result (links.new ≡ links.old) }
    ensures room { OnOk result (links.new.room ≡ None) }
{
    let came = own.turned(alloc, at, link)?;
    settles(alloc, own, links, at.number, came)
}

// What a turn came to is settled: the link comes back, or is shut; what is changed of the node's own is changed last.
fn settles<L: Numbered, T: Turner<L>>(
    alloc: Global,
    own: &mut T,
    links: &mut Links<L>,
    number: u32,
    came: Came<L, T::Change>,
) -> Result<Effects, AllocError>
    requires numbered { HasNumber L.number_of number came }
    requires room { links.old.room ≡ Some number }
    ensures settled { (all : List L) → links.old.links ≡ without L.number_of number all → IfOk result (λ out.
        IsSettled L.number_of T.changed (T.name_of own.old) number came (record { own = own.old; links = all }) (record { own = own.new; links = links.new.links }) out) }
    ensures own { OnErr result (own.new ≡ own.old) }
    ensures err { OnErr result (links.new ≡ links.old) }
    ensures room { OnOk result (links.new.room ≡ None) }
{
    match came {
        Came::Waits(link) => {
            links.settle(number, Some(link));
            Ok(Effects::new(alloc))
        }
        Came::Refuses(why, opened) => {
            let me = own.name(alloc)?;
            let row = refuses_bytes(alloc, &me, number, why, opened)?;
            carries(alloc, links, number, false, row)
        }
        Came::Handles(NodeRow { row, change }) => {
            let out = carries(alloc, links, number, true, row)?;
            changes(own, change);
            Ok(out)
        }
    }
}

// What a row changes of the node's own, if anything, is changed.
fn changes<L: Numbered, T: Turner<L>>(own: &mut T, change: Option<T::Change>)
    ensures { own.new ≡ own_behind T.changed own.old change }
{
    match change {
        Some(change) => own.settle(change),
        None => (),
    }
}

/// A row is carried out on the link of this number, which was taken out: it comes back, or is shut. `handled`: a banner or a frame was handled.
pub fn carries<L: Numbered>(
    alloc: Global,
    links: &mut Links<L>,
    number: u32,
    handled: bool,
    row: Row<L>,
) -> Result<Effects, AllocError>
    requires numbered { IfSome row.link (λ link. L.number_of link ≡ number) }
    requires room { links.old.room ≡ Some number }
    ensures carried { (all : List L) → links.old.links ≡ without L.number_of number all
        → IfOk result (λ out. IsCarried L.number_of number handled row all links.new.links out) }
    ensures err { OnErr result (links.new ≡ links.old) }
    ensures room { OnOk result (links.new.room ≡ None) }
{
    let Carried { link, out } = carried_out(alloc, number, handled, row)?;
    links.settle(number, link);
    Ok(out)
}
