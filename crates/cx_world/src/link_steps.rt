//! What a line does to a link.

ghost use Rattle.std.specs.Prelude.{◌≡◌, ℕ, Option, OnOk};
ghost use Rattle.cx_desk.specs.Handlers.{Handlers};
ghost use Rattle.cx_desk.specs.Held.{handlers_of};
ghost use Rattle.cx_world_start.specs.cx_run.specs.Schedules.{arrives_again, cuts, ever_sent, injects, loses, on_link};
ghost use Rattle.cx_world_start.specs.cx_run.specs.Wires.{wire_of};
ghost use Rattle.cx_world_start.specs.cx_run.specs.Worlds.{World as RunWorld};
ghost use Rattle.cx_world.specs.Carried.{Began, Carries, Makes};

use crate::ends::end_at;
use crate::world::World;
use cx_base::Duplicate;
use cx_desk::Desk;
use cx_lines::LinkStep;
use cx_words::Side;
use cx_world_start::other;
use std::alloc::{AllocError, Global};

impl World {
    /// The oldest piece from a side of a link vanishes.
    fn lose(&mut self, number: u64, side: Side)
        ensures { (handlers : Handlers) → Makes handlers self.old self.new (λ w. loses w side (wire_of number w.wires)) }
    {
        self.wires.lose(number, side);
    }

    /// Bytes come as if from a side of a link, where its other end lives.
    fn inject(
        &mut self,
        alloc: Global,
        desk: &Desk,
        number: u64,
        side: Side,
        bytes: &[u8],
    ) -> Result<(), AllocError>
        ensures { OnOk result (Makes (handlers_of desk.now) self.old self.new (λ w. injects w side bytes.now (wire_of number w.wires))) }
    {
        let far = end_at(alloc, &self.wires, number, other(side))?;
        self.arrive_there(alloc, desk, &far, bytes)
    }

    /// The piece of a number, from 1, that a side of a link ever sent arrives once more, on the link of the last number.
    fn repeat(
        &mut self,
        alloc: Global,
        desk: &Desk,
        number: u64,
        side: Side,
        place: u64,
        to: u64,
    ) -> Result<(), AllocError>
        ensures { OnOk result (Makes (handlers_of desk.now) self.old self.new (λ w. arrives_again w side (ever_sent place side (wire_of number w.wires)) (wire_of to w.wires))) }
    {
        let Some(piece) = self.wires.ever_sent(number, side, place) else {
            return Ok(());
        };
        let copied = piece.copy(alloc)?;
        self.inject(alloc, desk, to, side, copied.bytes())
    }

    /// A link is gone with all that is under way: the connector's end is told first.
    fn cut(&mut self, alloc: Global, desk: &Desk, number: u64) -> Result<(), AllocError>
        ensures { OnOk result (Makes (handlers_of desk.now) self.old self.new (λ w. cuts w (wire_of number w.wires))) }
    {
        let connector = end_at(alloc, &self.wires, number, Side::Connector)?;
        let acceptor = end_at(alloc, &self.wires, number, Side::Acceptor)?;
        self.wires.end(number);
        self.tell_there(alloc, desk, &connector)?;
        self.tell_there(alloc, desk, &acceptor)
    }

    /// What a line does to a link.
    pub(crate) fn act_on_link(
        &mut self,
        alloc: Global,
        desk: &Desk,
        step: &LinkStep,
    ) -> Result<(), AllocError>
        ensures { OnOk result (Makes (handlers_of desk.now) self.old self.new (λ w. on_link w step.now)) }
    {
        match step {
            LinkStep::Carry(number, side, n) => self.deliver(alloc, desk, *number, *side, *n),
            LinkStep::Lose(number, side) => {
                self.lose(*number, *side);
                Ok(())
            }
            LinkStep::Inject(number, side, bytes) => {
                self.inject(alloc, desk, *number, *side, bytes.bytes())
            }
            LinkStep::Again(number, side, place, to) => {
                self.repeat(alloc, desk, *number, *side, *place, *to)
            }
            LinkStep::Cut(number) => self.cut(alloc, desk, *number),
        }
    }
}
