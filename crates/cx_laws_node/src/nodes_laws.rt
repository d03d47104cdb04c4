//! The laws of a node of a run.

ghost use Rattle.std.specs.Prelude.{◌≡◌, List, Some};
ghost use Rattle.std.specs.Option.{option_map};
ghost use Rattle.cx_base.specs.Names.{Name};
ghost use Rattle.cx_base.specs.declared.nodes.NodeName.TheVariants as node;
ghost use Rattle.cx_desk.specs.Handlers.{Handlers};
ghost use Rattle.cx_laws_node.specs.node.Alone.{client_behind, client_outs, daemon_behind, daemon_outs, entity_behind, entity_outs, given_at, monitor_behind, monitor_outs, of_node};
ghost use Rattle.cx_run.specs.cx_rules_session.specs.ClientRule.{WholeClientNode};
ghost use Rattle.cx_run.specs.cx_rules_session.specs.DaemonRule.{DaemonState};
ghost use Rattle.cx_run.specs.Happenings.{OfClient, OfDaemon, Happening, Nodes, entity_of, nodes_behind};

/// Of every list of events, from all nodes: what the run has a node do, and the node behind it, are what the node's rule gives on the events,
/// readings and draws of that node alone; but that a step of the monitor whose save fails gives only what a failed save leaves of it, and that
/// where this save leaves the old state, the state that was saved last is again the one before that step.
pub fn node_laws()
    ensures monitor { (nodes : Nodes) (hs : List Happening) → (nodes_behind nodes hs).monitor ≡ monitor_behind nodes.monitor (of_node node.Monitor hs) }
    ensures monitor_gives { (nodes : Nodes) (hs : List Happening) → given_at node.Monitor nodes hs ≡ monitor_outs nodes.monitor (of_node node.Monitor hs) }
    ensures entity { (nodes : Nodes) (name : Name) (hs : List Happening)
        → entity_of name (nodes_behind nodes hs) ≡ option_map (λ e. entity_behind nodes.handlers e (of_node (node.Entity name) hs)) (entity_of name nodes) }
    ensures entity_gives { (nodes : Nodes) (name : Name) (hs : List Happening)
        → given_at (node.Entity name) nodes hs ≡ entity_outs nodes.handlers (entity_of name nodes) (of_node (node.Entity name) hs) }
    // Of a client these are what its rule gives, and of a daemon what its own does, with its book of sessions.
    ensures client { (handlers : Handlers) (c : WholeClientNode) (hs : List Happening) → entity_behind handlers (OfClient c) hs ≡ OfClient (client_behind c hs) }
    ensures client_gives { (handlers : Handlers) (c : WholeClientNode) (hs : List Happening) → entity_outs handlers (Some (OfClient c)) hs ≡ client_outs c hs }
    ensures daemon { (handlers : Handlers) (d : DaemonState) (hs : List Happening) → entity_behind handlers (OfDaemon d) hs ≡ OfDaemon (daemon_behind handlers d hs) }
    ensures daemon_gives { (handlers : Handlers) (d : DaemonState) (hs : List Happening) → entity_outs handlers (Some (OfDaemon d)) hs ≡ daemon_outs handlers d hs }
{}
