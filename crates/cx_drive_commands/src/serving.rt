//! A daemon with the desk by which it serves.

use crate::{Machine, saving_laws};
use cx_base::Reading;
use cx_daemon::Daemon;
use cx_desk::Desk;
use cx_dice::Draw;
use cx_outside::Regard;
use cx_steps::{Effects, Event};
use std::alloc::{AllocError, Global};

/// A daemon, and the desk whose handlers serve the operations that are allowed.
#[derive(Drop)]
pub struct Serving<'a> {
    pub daemon: Daemon,
    pub desk: &'a Desk,
}

impl<'a> Machine for Serving<'a> {
    ghost use Rattle.cx_drive_commands.specs.daemon.Held.{serving_lost, serving_regards, serving_rests, serving_rule};

    ghost rule = { serving_rule };

    ghost lost = { serving_lost };

    ghost rests = { serving_rests };

    ghost regards = { serving_regards };

    fn step(
        &mut self,
        alloc: Global,
        event: Event<'_>,
        now: Reading,
        draw: &Draw,
        out: &mut Effects,
    ) -> Result<(), AllocError> {
        saving_laws();
        self.daemon.step(alloc, self.desk, event, now, draw, out)
    }

    fn idle(&self) -> bool {
        self.daemon.idle()
    }

    fn regard(&self, link: u32) -> Option<Regard> {
        self.daemon.regard(link)
    }
}
