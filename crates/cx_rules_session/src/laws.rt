//! What a machine may forget of a daemon and of a client: laws of the definitions, of every state, event, reading and draw.

ghost use Rattle.std.specs.Prelude.{◌≡◌, ℕ, List};
ghost use Rattle.cx_desk.specs.Handlers.{Handlers};
ghost use Rattle.cx_session.specs.declared.call.BookReply.{BookReply};
ghost use Rattle.cx_rules.specs.cx_steps.specs.declared.events.Peer.{Peer};
ghost use Rattle.cx_rules.specs.Holdings.{MonClient};
ghost use Rattle.cx_rules.specs.Inputs.{Input};
ghost use Rattle.cx_rules.specs.Rows.{forgotten};
ghost use Rattle.cx_rules_session.specs.ClientRule as client;
ghost use Rattle.cx_rules_session.specs.ClientRule.{WholeClientNode, opening_whole_client, whole_client_rule};
ghost use Rattle.cx_rules_session.specs.DaemonRule.{DaemonNode, DaemonState, daemon_rule, daemon_step, daemon_told, is_idle, opening_daemon, undialled};
ghost use Rattle.cx_rules_session.specs.Forgets.{AreSameDaemon, AskAlike, DaemonNodeStandsFor, DaemonStandsFor, WholeClientStandsFor, abridged_daemon, abridged_state, abridged_whole_client};

/// What a daemon may forget of its links: from what it holds, its rule makes the same calls of a book as from the state for which that stands, which
/// forgets nothing; by the same replies both come to the same effects, and what it holds behind the step, abridged, stands for the state behind it.
pub fn daemon_forgetting_laws()
    ensures asks { (handlers : Handlers) (m s : DaemonNode) (input : Input) (reading : ℕ) (draw : List ℕ) → DaemonNodeStandsFor m s
        → AskAlike AreSameDaemon (daemon_rule handlers m input reading draw) (daemon_rule handlers s input reading draw) }
    // So it is behind any replies.
    ensures told { (handlers : Handlers) (m s : DaemonNode) (input : Input) (reading : ℕ) (draw : List ℕ) (replies : List BookReply) → DaemonNodeStandsFor m s
        → AskAlike AreSameDaemon (daemon_told handlers m input reading draw replies) (daemon_told handlers s input reading draw replies) }
    // With a book of its own, which forgets nothing.
    ensures forgets { (handlers : Handlers) (m s : DaemonState) (input : Input) (reading : ℕ) (draw : List ℕ) → DaemonStandsFor m s
        → ((daemon_step handlers m input reading draw).out ≡ (daemon_step handlers s input reading draw).out)
        × DaemonStandsFor (abridged_state (daemon_step handlers m input reading draw).state) (daemon_step handlers s input reading draw).state }
    // Whether a daemon is idle can be told.
    ensures idle { (m s : DaemonNode) → DaemonNodeStandsFor m s → is_idle m ≡ is_idle s }
    // A link may be lost, and a link that is waited for be given up, as where memory is wanting.
    ensures loses { (m s : DaemonNode) (n : ℕ) → DaemonNodeStandsFor m s → DaemonNodeStandsFor (forgotten m n) (forgotten s n) }
    ensures gives_up { (m s : DaemonNode) → DaemonNodeStandsFor m s → DaemonNodeStandsFor (undialled m) (undialled s) }
    // As it begins, a daemon has forgotten nothing; and what is abridged once can't be abridged further.
    ensures opening { (mon_client : MonClient) → DaemonNodeStandsFor (opening_daemon mon_client) (opening_daemon mon_client) }
    ensures twice { (d : DaemonNode) → abridged_daemon (abridged_daemon d) ≡ abridged_daemon d }
{}

/// What a client may forget of its links, likewise.
pub fn client_forgetting_laws()
    ensures forgets { (c s : WholeClientNode) (input : Input) (reading : ℕ) (draw : List ℕ) → WholeClientStandsFor c s
        → ((whole_client_rule c input reading draw).out ≡ (whole_client_rule s input reading draw).out)
        × WholeClientStandsFor (abridged_whole_client (whole_client_rule c input reading draw).state) (whole_client_rule s input reading draw).state }
    ensures idle { (c s : WholeClientNode) → WholeClientStandsFor c s → client.is_idle c ≡ client.is_idle s }
    ensures loses { (c s : WholeClientNode) (n : ℕ) → WholeClientStandsFor c s → WholeClientStandsFor (forgotten c n) (forgotten s n) }
    ensures gives_up { (c s : WholeClientNode) (peer : Peer) → WholeClientStandsFor c s → WholeClientStandsFor (client.undialled c peer) (client.undialled s peer) }
    ensures opening { (mon_client : MonClient) → WholeClientStandsFor (opening_whole_client mon_client) (opening_whole_client mon_client) }
    ensures twice { (c : WholeClientNode) → abridged_whole_client (abridged_whole_client c) ≡ abridged_whole_client c }
{}
