//! The daemons of a run.

use cx_answers_rows::{Draws, Member, Named, Others, member_of};
use cx_base::Reading;
use cx_daemon::Daemon;
use cx_desk::Desk;
use cx_dice::Draw;
use cx_steps::{Effects, Event};
use std::alloc::{AllocError, Global};

#[derive(Drop)]
struct DaemonNode {
    name: String,
    daemon: Daemon,
    draws: Draws,
}

/// The daemons of a run, whose operations are served by a desk.
#[derive(Drop)]
pub struct Daemons<'a> {
    desk: &'a Desk,
    nodes: Vec<DaemonNode>,
}

impl<'a> Daemons<'a> {
    /// No daemons yet.
    pub fn new(alloc: Global, desk: &'a Desk) -> Daemons<'a> {
        Daemons {
            desk,
            nodes: Vec::new(alloc),
        }
    }

    // A row `NAME SEED NUMBER MODES` names a daemon.
    fn daemon(&mut self, alloc: Global, ring: &[u8], row: &str) -> Result<String, AllocError> {
        let named = Named::of(row);
        let Some(member) = member_of(alloc, ring, named.name)? else {
            return format!(in alloc; "daemon {row}: no such entity\n");
        };
        let Member { name, key } = member;
        if !name.kind.is_daemon() {
            return format!(in alloc; "daemon {row}: no daemon\n");
        }
        self.nodes.push(DaemonNode {
            name: String::from_str(alloc, named.name)?,
            daemon: Daemon::new(alloc, name, key, named.modes(), named.address()),
            draws: Draws::new(alloc, named.seed()),
        })?;
        format!(in alloc; "daemon {row}\n")
    }
}

impl Others for Daemons<'_> {
    fn anew(&self, alloc: Global) -> Self {
        Daemons::new(alloc, self.desk)
    }

    fn told(
        &mut self,
        alloc: Global,
        ring: &[u8],
        kind: &str,
        rest: &str,
    ) -> Result<String, AllocError> {
        match kind {
            "daemon" => self.daemon(alloc, ring, rest),
            _ => format!(in alloc; "{kind} {rest}: no such row\n"),
        }
    }

    fn draw(&mut self, node: &str, number: u32) -> Option<Draw> {
        for own in self.nodes.iter_mut() {
            if own.name.as_str() == node {
                return own.draws.draw(number);
            }
        }
        None
    }

    fn step(
        &mut self,
        alloc: Global,
        node: &str,
        event: Event<'_>,
        now: Reading,
        draw: &Draw,
    ) -> Result<Option<Effects>, AllocError> {
        for own in self.nodes.iter_mut() {
            if own.name.as_str() == node {
                let mut out = Effects::new(alloc);
                own.daemon
                    .step(alloc, self.desk, event, now, draw, &mut out)?;
                return Ok(Some(out));
            }
        }
        Ok(None)
    }
}
