//! The places of a book, and what is done with one of them.

ghost use Rattle.std.specs.Prelude.{◌≡◌, ◌+◌, ◌^◌, ◌<◌, ◌++◌, ◌∷◌, [], IsSome, IfSome, Some, OnOk};
ghost use Rattle.std.specs.BTreeMap.{get, is_at, IsOrdered};
ghost use Rattle.std.specs.Map.{set_value};
ghost use Rattle.std.specs.Option.{option_map};
ghost use Rattle.std.specs.Ordering.{nat_cmp};
ghost use Rattle.cx_session.specs.Book.{raised, renewed};
ghost use Rattle.cx_session.specs.Kept.{sessions, IsPlaced};

use crate::session::Session;
use std::alloc::AllocError;
use std::collections::BTreeMap;

// The sessions by their numbers; the place of the next number may stand empty.
pub(crate) type ByNumber<O> = BTreeMap<u64, Option<Session<O>>>;

// Makes the place of the next number ready.
pub(crate) fn make_ready<O: Drop>(places: &mut ByNumber<O>, next: u64) -> Result<(), AllocError>
    requires placed { IsPlaced next places.old.entries }
    requires was_ordered { IsOrdered nat_cmp places.old }
    ensures sessions { sessions places.new.entries ≡ sessions places.old.entries }
    ensures placed { IsPlaced next places.new.entries }
    ensures ordered { IsOrdered nat_cmp places.new }
    ensures there { OnOk result (IsSome (get nat_cmp places.new next)) }
    ensures stays { IsSome (get nat_cmp places.old next) → IsSome (get nat_cmp places.new next) }
{
    if places.contains_key(&next) {
        return Ok(());
    }
    places.insert(next, None)?;
    Ok(())
}

// Puts a session into the place that is ready for it.
pub(crate) fn fill<O: Drop>(places: &mut ByNumber<O>, session: Session<O>)
    requires placed { IsPlaced session.number places.old.entries }
    requires was_ordered { IsOrdered nat_cmp places.old }
    requires there { IsSome (get nat_cmp places.old session.number) }
    ensures sessions { sessions places.new.entries ≡ sessions places.old.entries ++ session ∷ [] }
    ensures placed { IsPlaced (session.number + 1) places.new.entries }
    ensures ordered { IsOrdered nat_cmp places.new }
{
    put(places, session);
}

fn put<O: Drop>(places: &mut ByNumber<O>, session: Session<O>)
    requires { IsSome (get nat_cmp places.old session.number) }
    ensures entries { places.new.entries ≡ set_value (is_at (nat_cmp session.number)) places.old.entries (Some session) }
    ensures ordered { IsOrdered nat_cmp places.new }
{
    if let Some(place) = places.get_mut(&session.number) {
        *place = Some(session);
    }
}

// Raises the last message taken of the session in this place.
pub(crate) fn raise<O: Drop>(places: &mut ByNumber<O>, number: u64, seq: u64)
    ensures entries { IfSome (get nat_cmp places.old number) (λ place. places.new.entries ≡ set_value (is_at (nat_cmp number)) places.old.entries (option_map (raised seq) place)) }
    ensures ordered { IsOrdered nat_cmp places.new }
{
    if let Some(place) = places.get_mut(&number) {
        raise_in(place, seq);
    }
}

fn raise_in<O>(place: &mut Option<Session<O>>, seq: u64)
    ensures { place.new ≡ option_map (raised seq) place.old }
{
    if let Some(session) = place {
        session.last = seq;
    }
}

// Gives the session in this place to its owner again, in a new epoch.
pub(crate) fn renew<O: Drop>(
    places: &mut ByNumber<O>,
    number: u64,
    owner: O,
    global_seq: u64,
    connect_seq: u64,
)
    requires { IfSome (get nat_cmp places.old number) (λ place. IfSome place (λ s. s.epoch + 1 < 2 ^ 64)) }
    ensures entries { IfSome (get nat_cmp places.old number) (λ place. places.new.entries ≡ set_value (is_at (nat_cmp number)) places.old.entries (option_map (renewed owner global_seq connect_seq) place)) }
    ensures ordered { IsOrdered nat_cmp places.new }
{
    if let Some(place) = places.get_mut(&number) {
        renew_in(place, owner, global_seq, connect_seq);
    }
}

fn renew_in<O: Drop>(place: &mut Option<Session<O>>, owner: O, global_seq: u64, connect_seq: u64)
    requires { IfSome place.old (λ s. s.epoch + 1 < 2 ^ 64) }
    ensures { place.new ≡ option_map (renewed owner global_seq connect_seq) place.old }
{
    if let Some(session) = place {
        session.epoch += 1;
        session.owner = owner;
        session.global_seq = global_seq;
        session.connect_seq = connect_seq;
    }
}
