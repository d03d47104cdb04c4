//! An entity of a run.

ghost use Rattle.std.specs.Prelude.{◌≡◌, List, Option, Some, None, IfOk};
ghost use Rattle.cx_world.specs.actors.Held.{MemberStands, member_of};
ghost use Rattle.cx_world.specs.actors.Steps.{IsMemberStep};
ghost use Rattle.cx_world_start.specs.cx_rules.specs.Inputs.{input_of};
ghost use Rattle.cx_world_start.specs.cx_run.specs.Happenings.{EntityNode};
ghost use Rattle.cx_world_start.specs.cx_run.specs.Worlds.{Post as RunPost};

use crate::made::Made;
use crate::posts::Post;
use cx_base::EntityName;
use cx_client::Client;
use cx_daemon::Daemon;
use cx_desk::Desk;
use cx_steps::{Effects, Event};
use std::alloc::{AllocError, Global};

/// The node of an entity, by its kind.
#[derive(Drop)]
pub enum MemberNode {
    Client(Client),
    Daemon(Daemon),
}

/// An entity of a run: its name, what it goes by, and its node.
#[derive(Drop)]
pub struct Member {
    pub name: EntityName,
    pub post: Post,
    pub node: MemberNode,
}

impl Member {
    ghost use Rattle.std.specs.Prelude.{◌≡◌, Option, Some, IfOk};
    ghost use Rattle.cx_desk.specs.Held.{handlers_of};
    ghost use Rattle.cx_world.specs.actors.Coming.{IsWritableInput};
    ghost use Rattle.cx_world.specs.actors.Held.{MemberStands};
    ghost use Rattle.cx_world.specs.actors.Steps.{IsMemberStep};
    ghost use Rattle.cx_world_start.specs.cx_rules.specs.Inputs.{input_of};
    ghost use Rattle.cx_world_start.specs.cx_run.specs.Happenings.{EntityNode};
    ghost use Rattle.cx_world_start.specs.cx_run.specs.Worlds.{Post as RunPost};

    /// What comes to it. A daemon has the handlers of this desk.
    pub(crate) fn step(
        &mut self,
        alloc: Global,
        desk: &Desk,
        event: Event<'_>,
    ) -> Result<Made, AllocError>
        requires { IsWritableInput (input_of event) }
        ensures { (post : RunPost) (entity : Option EntityNode) → MemberStands (Some self.old) (Some post) entity
            → IfOk result (λ made. IsMemberStep (handlers_of desk.now) (input_of event.entry) post entity made self.old self.new) }
    {
        let draw = self.post.roll();
        let reading = self.post.reading();
        match &mut self.node {
            MemberNode::Client(client) => {
                let mut out = Effects::new(alloc);
                client.step(alloc, event, reading, &draw, &mut out)?;
                Ok(Made::of(out))
            }
            MemberNode::Daemon(daemon) => {
                let mut out = Effects::new(alloc);
                daemon.step(alloc, desk, event, reading, &draw, &mut out)?;
                Ok(Made::of(out))
            }
        }
    }
}
