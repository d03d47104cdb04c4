//! The history of a hall, as it is kept: its length in a word, and the one seat that knows all of it.

ghost use Rattle.std.specs.Prelude.{◌≡◌, ◌++◌, ◌∷◌, [], length, ◌+◌, ◌<◌, ◌^◌, ◌-◌, ◌↔◌, IsTrue};
ghost use mathlib.Core.List.{IsPrefix};
ghost use Rattle.cx_session.specs.Answers.{after};
ghost use Rattle.cx_hall.specs.History.{entry, MakesEntry, HallHistory, book_of, reply_behind};
ghost use Rattle.cx_hall.specs.Passes.{Made};
ghost use Rattle.cx_hall.specs.Rule.{IsWord, keeper_of, known_to};

use crate::pass::{Pass, Receipt};
use crate::rule::{Adds, HallName, HallSeat, HallTable, HandsBack, Knowledge, Looks, TakesOver};
use atomic_table::Badge;
use cx_base::Owner;
use cx_session::BookCall;
use std::marker::{Model, PhantomData};
use std::mem;

/// The history of a hall. To a contract it is the list of its entries.
#[derive(Drop)]
pub(crate) struct History<O: Owner, N: HallName> {
    count: u64,
    keeper: Badge<Knowledge<O>>,
    hall: PhantomData<N>,
}

impl<O: Owner, N: HallName> Model for History<O, N> {
    ghost use Rattle.std.specs.Prelude.{◌≡◌, [], ◌∷◌, List, length};
    ghost use Rattle.cx_hall.specs.declared.entry.HallEntry.{HallEntry};
    ghost use Rattle.cx_hall.specs.History.{HallHistory};
    ghost use Rattle.cx_hall.specs.Rule.{keeper_of, known_to};

    ghost Value = { List (HallEntry O) };

    ghost view = { λ h. (known_to h.keeper.views).all };

    ghost invariant = { λ h. (h.keeper.table_id ≡ N.table) × (h.keeper.views ≡ keeper_of (known_to h.keeper.views).all ∷ []) × (h.count ≡ length (known_to h.keeper.views).all) × HallHistory O.entity_of O.gid_of (known_to h.keeper.views).all };
}

impl<O: Owner, N: HallName> History<O, N> {
    pub(crate) fn new(keeper: HallSeat<O>) -> History<O, N>
        requires { (keeper.table_id ≡ N.table) × (keeper.me ≡ (keeper_of [], [])) }
        ensures { result ≡ [] }
    {
        History {
            count: 0,
            keeper: keeper.into_badge(),
            hall: PhantomData,
        }
    }

    // Whether one entry more can be counted.
    pub(crate) fn has_room(&self) -> bool
        ensures { IsTrue result ↔ (length self.now < 2 ^ 64 - 1) }
    {
        self.count < u64::MAX
    }

    // Puts a call behind all others, for a pass.
    pub(crate) fn add(
        &mut self,
        table: &HallTable<O>,
        pass: &mut Pass<O, N>,
        call: &BookCall<O>,
    ) -> Receipt
        requires table { (table.now.shared.table_id ≡ N.table) × IsWord table.now.shared.table_id }
        requires room { length self.old < 2 ^ 64 - 1 }
        requires entry { MakesEntry call.now }
        ensures added { self.new ≡ self.old ++ entry pass.old.number call.now (reply_behind O.entity_of O.gid_of self.old call.now) ∷ [] }
        ensures book { book_of O.entity_of O.gid_of self.new ≡ after O.entity_of O.gid_of (book_of O.entity_of O.gid_of self.old) call.now }
        ensures made { Made O.entity_of O.gid_of pass.old call.now (reply_behind O.entity_of O.gid_of self.old call.now) result.place pass.new }
    {
        let place = self.count;
        let keeper = seat_of(&mut self.keeper);
        self.keeper = enter(table, pass, keeper, call, place).into_badge();
        self.count = place + 1;
        Receipt { place }
    }

    // Shows a pass all of the history.
    pub(crate) fn show(&mut self, table: &HallTable<O>, pass: &mut Pass<O, N>) -> Receipt
        requires { (table.now.shared.table_id ≡ N.table) × IsWord table.now.shared.table_id }
        ensures same { self.new ≡ self.old }
        ensures place { result.place ≡ length self.old }
        ensures front { IsPrefix pass.old.seen pass.new.seen }
        ensures seen { pass.new ≡ record { number = pass.old.number; seen = self.old; mine = pass.old.mine } }
    {
        let keeper = seat_of(&mut self.keeper);
        self.keeper = glance(table, pass, keeper).into_badge();
        Receipt { place: self.count }
    }
}

// Puts a call behind the history for a pass. The keeper comes back, with one entry more.
#[tactic(auto, using(crate::proofs::Entries::behind_more))]
fn enter<O: Owner, N: HallName>(
    table: &HallTable<O>,
    pass: &mut Pass<O, N>,
    keeper: HallSeat<O>,
    call: &BookCall<O>,
    place: u64,
) -> HallSeat<O>
    requires table { (table.now.shared.table_id ≡ N.table) × IsWord table.now.shared.table_id }
    requires keeper { (keeper.table_id ≡ N.table) × (keeper.me ≡ (keeper_of keeper.me.0.all, [])) }
    requires place { (place ≡ length keeper.me.0.all) × (place < 2 ^ 64 - 1) }
    requires history { HallHistory O.entity_of O.gid_of keeper.me.0.all }
    requires entry { MakesEntry call.now }
    ensures table { result.table_id ≡ N.table }
    ensures keeper { result.me ≡ (keeper_of (keeper.me.0.all ++ entry pass.old.number call.now (reply_behind O.entity_of O.gid_of keeper.me.0.all call.now) ∷ []), []) }
    ensures history { HallHistory O.entity_of O.gid_of result.me.0.all }
    ensures place { place + 1 ≡ length result.me.0.all }
    ensures book { book_of O.entity_of O.gid_of result.me.0.all ≡ after O.entity_of O.gid_of (book_of O.entity_of O.gid_of keeper.me.0.all) call.now }
    ensures made { Made O.entity_of O.gid_of pass.old call.now (reply_behind O.entity_of O.gid_of keeper.me.0.all call.now) place pass.new }
{
    let shared = &table.shared;
    let mut seat = seat_of(&mut pass.badge);
    shared.join_seat::<TakesOver>(&mut seat, keeper);
    shared.compare_exchange_with::<Adds>(&mut seat, 0, place, place + 1, call);
    let keeper = shared.split_seat::<HandsBack>(&mut seat);
    pass.badge = seat.into_badge();
    keeper
}

// Shows a pass the history. The keeper comes back.
fn glance<O: Owner, N: HallName>(
    table: &HallTable<O>,
    pass: &mut Pass<O, N>,
    keeper: HallSeat<O>,
) -> HallSeat<O>
    requires table { (table.now.shared.table_id ≡ N.table) × IsWord table.now.shared.table_id }
    requires keeper { (keeper.table_id ≡ N.table) × (keeper.me ≡ (keeper_of keeper.me.0.all, [])) }
    ensures table { result.table_id ≡ N.table }
    ensures keeper { result.me ≡ keeper.me }
    ensures front { IsPrefix pass.old.seen pass.new.seen }
    ensures seen { pass.new ≡ record { number = pass.old.number; seen = keeper.me.0.all; mine = pass.old.mine } }
{
    let shared = &table.shared;
    let mut seat = seat_of(&mut pass.badge);
    shared.join_seat::<TakesOver>(&mut seat, keeper);
    shared.load::<Looks>(&mut seat, 0);
    let keeper = shared.split_seat::<HandsBack>(&mut seat);
    pass.badge = seat.into_badge();
    keeper
}

// The seat that a token stands for.
fn seat_of<O: Owner>(token: &mut Badge<Knowledge<O>>) -> HallSeat<O>
    requires { token.old.views ≡ known_to token.old.views ∷ [] }
    ensures { (result.table_id ≡ token.old.table_id) × (result.me ≡ (known_to token.old.views, [])) }
{
    mem::replace(token, Badge::blank()).into_seat()
}
