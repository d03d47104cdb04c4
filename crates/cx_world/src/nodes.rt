//! The nodes of a run.

ghost use Rattle.std.specs.Prelude.{ℕ, ◌≡◌, ◌<◌, ◌+◌, [], ◌∷◌, ◌++◌, List, length, map, position, slice_get, Some, None, IfOk, OnOk, IfSome, IfNone};
ghost use Rattle.cx_base.specs.Names.{Name, same_name};
ghost use Rattle.cx_base.specs.declared.nodes.NodeName.TheVariants as node;
ghost use Rattle.cx_desk.specs.Handlers.{Handlers};
ghost use Rattle.cx_desk.specs.Held.{handlers_of};
ghost use Rattle.cx_name_index.specs.Indexed.{place_of};
ghost use Rattle.cx_world.specs.actors.Coming.{IsWritableInput};
ghost use Rattle.cx_world.specs.actors.Held.{IsGiven, StandFor, reads};
ghost use Rattle.cx_world.specs.actors.Posts.{IsOf};
ghost use Rattle.cx_world.specs.actors.Steps.{IsMonitorStep, IsSaved, monitor_made};
ghost use Rattle.cx_world_start.specs.cx_rules.specs.Abridged.{MonitorStandsFor};
ghost use Rattle.cx_world_start.specs.cx_rules.specs.Inputs.{input_of};
ghost use Rattle.cx_world_start.specs.cx_rules.specs.Monitor.{MonitorNode};
ghost use Rattle.cx_world_start.specs.cx_rules.specs.Rows.{Outcome};
ghost use Rattle.cx_world_start.specs.cx_run.specs.Deliveries.{given};
ghost use Rattle.cx_world_start.specs.cx_run.specs.Happenings.{Nodes as RunNodes, left_as, monitor_steps};
ghost use Rattle.cx_world_start.specs.cx_run.specs.Schedules.{all_read, one_reads};
ghost use Rattle.cx_world_start.specs.cx_run.specs.Worlds.{Post as RunPost, World, post_of};

use crate::made::Made;
use crate::members::Member;
use crate::posts::Post;
use cx_base::{EntityName, NodeName, Reading};
use cx_desk::Desk;
use cx_name_index::Index;
use cx_steps::{Effects, Event};
use cx_words::LeftState;
use cx_world_start::Monitor;
use std::alloc::{AllocError, Global};

/// The nodes of a run: the monitor with what it goes by, and the entities with the places at which they stand among them, by their names.
#[derive(Drop)]
pub struct Nodes {
    pub monitor: Monitor,
    pub post: Post,
    pub members: Vec<Member>,
    pub places: Index,
}

impl Nodes {
    /// What comes to a node, where the daemons have the handlers of this desk, and the monitor's save, if one fails, leaves this state.
    pub fn step(
        &mut self,
        alloc: Global,
        desk: &Desk,
        who: &NodeName,
        event: Event<'_>,
        left: Option<LeftState>,
    ) -> Result<Made, AllocError>
        requires { IsWritableInput (input_of event) }
        ensures { (w : World) → StandFor (handlers_of desk.now) self.old w.nodes w.posts → left ≡ w.left
            → IfOk result (λ made. IsGiven (handlers_of desk.now) self.new made (post_of who.now w.posts) (given w (input_of event.entry) (post_of who.now w.posts))) }
    {
        match who {
            NodeName::Monitor => self.step_monitor(alloc, event, left),
            NodeName::Entity(name) => self.step_member(alloc, desk, name, event),
        }
    }

    fn step_monitor(
        &mut self,
        alloc: Global,
        event: Event<'_>,
        left: Option<LeftState>,
    ) -> Result<Made, AllocError>
        ensures { (handlers : Handlers) (w : World) → StandFor handlers self.old w.nodes w.posts → left ≡ w.left
            → IfOk result (λ made. IsGiven handlers self.new made (post_of node.Monitor w.posts) (given w (input_of event.entry) (post_of node.Monitor w.posts))) }
    {
        let made = take_step(alloc, &mut self.monitor, &mut self.post, event, left)?;
        Ok(made)
    }

    fn step_member(
        &mut self,
        alloc: Global,
        desk: &Desk,
        name: &EntityName,
        event: Event<'_>,
    ) -> Result<Made, AllocError>
        requires { IsWritableInput (input_of event) }
        ensures { (w : World) → StandFor (handlers_of desk.now) self.old w.nodes w.posts
            → IfOk result (λ made. IsGiven (handlers_of desk.now) self.new made (post_of (node.Entity name.now) w.posts) (given w (input_of event.entry) (post_of (node.Entity name.now) w.posts))) }
    {
        match place_of(&self.places, self.members.as_slice(), name) {
            Some(place) => {
                let member = &mut self.members[place];
                let made = member.step(alloc, desk, event)?;
                Ok(made)
            }
            None => Ok(Made::nothing(alloc)),
        }
    }

    /// All clocks read this from here on.
    pub fn read_all(&mut self, reading: Reading)
        requires { reading < 4000000000000000000 }
        ensures { (handlers : Handlers) (w : World) → StandFor handlers self.old w.nodes w.posts → StandFor handlers self.new (all_read reading w).nodes (all_read reading w).posts }
    {
        self.post.set(reading);
        read_members(&mut self.members, reading);
    }

    /// The clock of one node reads this from here on.
    pub fn read_one(&mut self, who: &NodeName, reading: Reading)
        requires { reading < 4000000000000000000 }
        ensures { (handlers : Handlers) (w : World) → StandFor handlers self.old w.nodes w.posts → StandFor handlers self.new (one_reads who.now reading w).nodes (one_reads who.now reading w).posts }
    {
        match who {
            NodeName::Monitor => self.post.set(reading),
            NodeName::Entity(name) => {
                match place_of(&self.places, self.members.as_slice(), name) {
                    Some(place) => {
                        let member = &mut self.members[place];
                        member.post.set(reading);
                    }
                    None => {}
                }
            }
        }
    }
}

// The clocks of all members read this from here on.
fn read_members(members: &mut Vec<Member>, reading: Reading)
    requires { reading < 4000000000000000000 }
    ensures { members.new.items ≡ map (λ m. reads reading m) members.old.items }
{
    for member in members.iter_mut() {
        member.post.set(reading);
    }
}

// The place of the first member of a name, where each name has such a place.
fn place_of(places: &Index, members: &[Member], name: &EntityName) -> Option<usize>
    ensures within { IfSome result (λ place. place < length members.now) }
    ensures found { ((n : Name) → place_of places.now.ids n ≡ position (λ m. same_name m.name n) members.now)
        → result ≡ position (λ m. same_name m.name name.now) members.now }
{
    match places.find(name) {
        Some(place) if place < members.len() => Some(place),
        _ => None,
    }
}

/// Where entities stand, by their names.
pub(crate) fn places_of(alloc: Global, members: &[Member]) -> Result<Index, AllocError>
    ensures { IfOk result (λ places. (name : Name) → place_of places.ids name ≡ position (λ m. same_name m.name name) members.now) }
{
    let mut places = Index::new(alloc);
    for i in 0..members.len() {
        places.note(alloc, &members[i].name, i)?;
    }
    Ok(places)
}

// What comes to the monitor in its post.
fn take_step(
    alloc: Global,
    monitor: &mut Monitor,
    post: &mut Post,
    event: Event<'_>,
    left: Option<LeftState>,
) -> Result<Made, AllocError>
    ensures { (s : RunPost) (nodes : RunNodes) → IsOf s post.old → MonitorStandsFor monitor.old nodes.monitor
        → IfOk result (λ made. IsMonitorStep s (monitor_made (input_of event.entry) s nodes left) made monitor.new post.new) }
{
    let draw = post.roll();
    let reading = post.reading();
    let mut out = Effects::new(alloc);
    monitor.step(alloc, event, reading, &draw, &mut out)?;
    let made = settle_save(alloc, monitor, left, out)?;
    Ok(made)
}

// What the monitor was to save is saved, or that fails and leaves this state.
fn settle_save(
    alloc: Global,
    monitor: &mut Monitor,
    left: Option<LeftState>,
    out: Effects,
) -> Result<Made, AllocError>
    ensures { (nodes : RunNodes) (o : Outcome MonitorNode) → MonitorStandsFor monitor.old o.state → out ≡ o.out
        → IfOk result (λ made. IsSaved (monitor_steps nodes o left o.out.save) made monitor.new) }
{
    match left {
        None => Ok(Made::of(out)),
        Some(left) => match out.save {
            None => Ok(Made::of(out)),
            Some(_) => {
                leave(monitor, left);
                Made::failed(alloc, &out)
            }
        },
    }
}

// A save failed and leaves this state.
fn leave(monitor: &mut Monitor, left: LeftState)
    ensures { (s : MonitorNode) → MonitorStandsFor monitor.old s → MonitorStandsFor monitor.new (left_as left s) }
{
    match left {
        LeftState::Old => monitor.unsave(),
        LeftState::New => {}
    }
}
