//! Laws of the definition of a run.

ghost use Rattle.std.specs.Prelude.{◌≡◌, ◌≤◌, ◌<◌, ℕ, List, length, true, if◌then◌else◌};
ghost use Rattle.std.specs.List.{list_all};
ghost use Rattle.cx_base.specs.declared.nodes.NodeName.{NodeName};
ghost use Rattle.cx_rules_session.specs.cx_desk.specs.Handlers.{Handlers};
ghost use Rattle.cx_lines.specs.cx_words.specs.declared.known.Known.{Known};
ghost use Rattle.cx_lines.specs.Lines.{Spells};
ghost use Rattle.cx_lines.specs.declared.lines.Line.{Line};
ghost use Rattle.cx_lines.specs.declared.lines.Numbered.{Numbered};
ghost use Rattle.cx_rules_session.specs.cx_rules.specs.Abridged.{MonitorStandsFor};
ghost use Rattle.cx_rules_session.specs.cx_rules.specs.Inputs.{Input, Turn};
ghost use Rattle.cx_rules_session.specs.cx_rules.specs.Links.{link_of};
ghost use Rattle.cx_rules_session.specs.cx_rules.specs.Monitor.{MonitorNode};
ghost use Rattle.cx_rules_session.specs.ClientRule.{WholeClientNode, whole_client_rule};
ghost use Rattle.cx_rules_session.specs.DaemonRule.{DaemonState};
ghost use Rattle.cx_rules_session.specs.Forgets.{DaemonStandsFor, WholeClientStandsFor};
ghost use Rattle.cx_run.specs.Calling.{OpensAsTold};
ghost use Rattle.cx_run.specs.Deliveries.{came_at, followed, gives, turns};
ghost use Rattle.cx_run.specs.Happenings.{Nodes, nodes_behind};
ghost use Rattle.cx_run.specs.Opening.{nodes_of, opening_world};
ghost use Rattle.cx_run.specs.Runs.{setup_of, trace};
ghost use Rattle.cx_run.specs.Schedules.{after_lines};
ghost use Rattle.cx_run.specs.Sending.{AreWritten, is_line_written, is_numbered_written};
ghost use Rattle.cx_run.specs.Turning.{untaken_at, untaken_on};
ghost use Rattle.cx_run.specs.Visits.{AreUntold};
ghost use Rattle.cx_run.specs.Worlds.{World};

/// The nodes at the end of a run are those that its events lead to: nothing else changes a node.
pub fn run_laws()
    ensures { (handlers : Handlers) (script : List Numbered)
        → (after_lines (opening_world (setup_of handlers script)) script).nodes ≡ nodes_behind (nodes_of (setup_of handlers script)) (trace handlers script) }
{}

/// No view is told by hand in the run of a schedule.
pub fn visit_laws()
    ensures untold { (handlers : Handlers) (script : List Numbered) → AreUntold (trace handlers script) }
{}

/// Where each operation of a schedule's lines can be written, so can each that its run tells a client to send. And each line that words spell is such.
pub fn sending_laws()
    ensures events { (handlers : Handlers) (script : List Numbered) → list_all is_numbered_written script ≡ true → AreWritten (trace handlers script) }
    ensures lines { (known : Known) (line : Line) (words : List (List ℕ)) → Spells known line words → is_line_written line ≡ true }
{}

/// Of every state, event, reading and draw: a client keeps its name, and each link that it opens leads to the monitor, or to the daemon that the command
/// names.
pub fn client_laws()
    ensures name { (c : WholeClientNode) (input : Input) (reading : ℕ) (draw : List ℕ)
        → (whole_client_rule c input reading draw).state.own.mon_client.name ≡ c.own.mon_client.name }
    ensures opens { (c : WholeClientNode) (input : Input) (reading : ℕ) (draw : List ℕ)
        → OpensAsTold input (whole_client_rule c input reading draw).out }
{}

/// The list that bounds the turns behind what arrived is no bound at all: a node is turned until it handles nothing.
pub fn turning_laws()
    // With a list that is as long as what is left to be taken, one turn comes, and then, where it handled something, all further ones with the
    // same list.
    ensures unrolls { (w : World) (who : NodeName) (number : ℕ) (fuel : List ℕ) → length (untaken_at w.nodes number who) ≤ length fuel
        → turns w who number fuel
        ≡ (let g = gives w who (Turn number) in if g.out.turned then turns (followed who g) who number fuel else followed who g) }
    // A turn that handles something takes some of it.
    ensures takes { (w : World) (who : NodeName) (number : ℕ) → (let g = gives w who (Turn number) in g.out.turned ≡ true
        → length (untaken_at (followed who g).nodes number who) < length (untaken_at w.nodes number who)) }
    // No more is left than came.
    ensures enough { (nodes : Nodes) (number : ℕ) (who : NodeName) → length (untaken_at nodes number who) ≤ length (came_at nodes number who) }
    // As much is left to be taken of the links that a machine holds as of those of the rules for which they stand.
    ensures monitor_held { (m s : MonitorNode) (number : ℕ) → MonitorStandsFor m s → untaken_on (link_of number m.links) ≡ untaken_on (link_of number s.links) }
    ensures client_held { (c s : WholeClientNode) (number : ℕ) → WholeClientStandsFor c s → untaken_on (link_of number c.links) ≡ untaken_on (link_of number s.links) }
    ensures daemon_held { (d s : DaemonState) (number : ℕ) → DaemonStandsFor d s → untaken_on (link_of number d.node.links) ≡ untaken_on (link_of number s.node.links) }
{}
