//! A node's place, of objects that are lent.

use crate::site::Site;
use crate::{Clock, LinkEvent, Links, Regard};
use cx_base::{Addr, Failed, Reading};
use cx_dice::{Dice, Draw};
use cx_keep::{CommitRefusal, Keeper, commit};
use cx_rotate::KeptState;
use std::alloc::Global;

/// Four objects that are lent, as one: each call is one call of one of them.
#[derive(Drop)]
pub struct Hosted<'k, 'l, 'c, 'd, K, L, C, D> {
    pub keeper: &'k mut K,
    pub links: &'l mut L,
    pub clock: &'c mut C,
    pub dice: &'d mut D,
}

impl<'k, 'l, 'c, 'd, K: Keeper, L: Links, C: Clock, D: Dice> Site
    for Hosted<'k, 'l, 'c, 'd, K, L, C, D> {
    ghost use Rattle.std.specs.Prelude.{◌≡◌};
    ghost use Rattle.std.proofs.Common.{refl, ◌∙◌};
    ghost use Rattle.cx_outside.specs.site.Acts.{Act};
    ghost use Rattle.cx_outside.specs.site.Telling.{ClockTells, DiceTells, KeeperTells, LinksCount, clock_goes_on, clock_stays, dice_go_on, dice_stay, keeper_goes_on, keeper_stays, link_acts, links_count_on, links_go_on, links_stand};

    ghost follows = { λ a b acts.
        (b.keeper.ghost_name ≡ a.keeper.ghost_name)
        × (b.links.ghost_name ≡ a.links.ghost_name)
        × (b.clock.ghost_name ≡ a.clock.ghost_name)
        × (b.dice.ghost_name ≡ a.dice.ghost_name)
        × KeeperTells (K.kept a.keeper.now) (K.faults a.keeper.now) (K.kept b.keeper.now) (K.faults b.keeper.now) acts
        × L.follows a.links.now b.links.now (link_acts acts)
        × LinksCount (L.faults a.links.now) (L.misses a.links.now) (L.faults b.links.now) (L.misses b.links.now) acts
        × ClockTells (C.coming a.clock.now) (C.coming b.clock.now) acts
        × DiceTells (D.coming a.dice.now) (D.faults a.dice.now) (D.coming b.dice.now) (D.faults b.dice.now) acts };

    ghost stays = { λ s. (
      refl,
      refl,
      refl,
      refl,
      keeper_stays (K.kept s.keeper.now) (K.faults s.keeper.now),
      L.stays s.links.now,
      links_stand (L.faults s.links.now) (L.misses s.links.now),
      clock_stays (C.coming s.clock.now),
      dice_stay (D.coming s.dice.now) (D.faults s.dice.now),
    ) };

    ghost goes_on = { λ a b c xs ys p q. (
      q.0 ∙ p.0,
      q.1 ∙ p.1,
      q.2 ∙ p.2,
      q.3 ∙ p.3,
      keeper_goes_on _ _ _ _ _ _ xs ys p.4 q.4,
      links_go_on L.follows L.goes_on _ _ _ xs ys p.5 q.5,
      links_count_on _ _ _ _ _ _ xs ys p.6 q.6,
      clock_goes_on _ _ _ xs ys p.7 q.7,
      dice_go_on _ _ _ _ _ _ xs ys p.8 q.8,
    ) };

    fn next(&mut self, into: &mut [u8]) -> Result<LinkEvent, Failed> {
        self.links.next(into)
    }

    fn read(&mut self) -> Reading {
        self.clock.read()
    }

    fn block(&mut self) -> Result<Draw, Failed> {
        self.dice.block()
    }

    fn save(&mut self, alloc: Global, state: &KeptState) -> Result<(), CommitRefusal> {
        commit(alloc, self.keeper, state)
    }

    fn send(&mut self, link: u32, bytes: &[u8]) -> Result<(), Failed> {
        self.links.send(link, bytes)
    }

    fn open(&mut self, to: &Addr) -> Result<u32, Failed> {
        self.links.open(to)
    }

    fn shut(&mut self, link: u32) {
        self.links.shut(link)
    }

    fn regard(&mut self, link: u32, regard: Regard) {
        self.links.regard(link, regard)
    }
}
