//! The nodes with which a run begins.

ghost use Rattle.std.specs.Prelude.{Some, IfOk};
ghost use Rattle.cx_desk.specs.Handlers.{Handlers};
ghost use Rattle.cx_world.specs.actors.Held.{NodeStands, StandFor};
ghost use Rattle.cx_world.specs.actors.Members.{AreMembersOf, IsMemberOf};
ghost use Rattle.cx_world_start.specs.cx_run.specs.Opening.{entity_in, nodes_of, posts_of};
ghost use Rattle.cx_world_start.specs.head.Beginning.{with_handlers};

use crate::nodes::places_of;
use crate::{Member, MemberNode, Nodes, Post};
use cx_base::Duplicate;
use cx_client::Client;
use cx_daemon::Daemon;
use cx_world_start::{Declared, Setup};
use std::alloc::{AllocError, Global};

/// The monitor and the entities as a run begins, whichever handlers the daemons have: with clocks that read 0, and dice of which nothing was rolled.
pub fn opening_nodes(alloc: Global, setup: &Setup) -> Result<Nodes, AllocError>
    ensures { IfOk result (λ nodes. (handlers : Handlers) → StandFor handlers nodes (nodes_of (with_handlers handlers setup.now)) (posts_of setup.now)) }
{
    let monitor = setup.monitor(alloc)?;
    let post = Post::new(alloc, setup.monitor_seed());
    let members = members_of(alloc, setup.entities())?;
    let places = places_of(alloc, members.as_slice())?;
    Ok(Nodes {
        monitor,
        post,
        members,
        places,
    })
}

/// The entities, in the order of their lines.
fn members_of(alloc: Global, entities: &[Declared]) -> Result<Vec<Member>, AllocError>
    ensures { IfOk result (λ members. AreMembersOf entities.now members.items) }
{
    let mut members = Vec::new(alloc);
    for entity in entities {
        let member = member_of(alloc, entity)?;
        members.push(member)?;
    }
    Ok(members)
}

/// An entity.
fn member_of(alloc: Global, entity: &Declared) -> Result<Member, AllocError>
    ensures { IfOk result (IsMemberOf entity.now) }
{
    let name = entity.name.copy(alloc)?;
    let node = node_of(alloc, entity)?;
    let seed = entity.seed.unwrap_or(u64::from(entity.number));
    Ok(Member {
        name,
        post: Post::new(alloc, seed),
        node,
    })
}

/// The node of an entity, by its type.
#[tactic(auto, using(crate::proofs::actors::Typing::client_else))]
fn node_of(alloc: Global, entity: &Declared) -> Result<MemberNode, AllocError>
    ensures { IfOk result (λ node. NodeStands node (Some (entity_in entity.now))) }
{
    let name = entity.name.copy(alloc)?;
    if entity.name.kind.is_daemon() {
        return Ok(MemberNode::Daemon(Daemon::new(
            alloc,
            name,
            entity.key(alloc),
            entity.offered(),
            entity.address(),
        )));
    }
    Ok(MemberNode::Client(Client::new(
        alloc,
        name,
        entity.key(alloc),
        entity.offered(),
        entity.address(),
    )))
}
