//! What the steps of entities save.

ghost use Rattle.std.specs.Prelude.{◌≡◌, ℕ, List, None};
ghost use Rattle.cx_desk.specs.Handlers.{Handlers};
ghost use Rattle.cx_run.specs.cx_rules.specs.Inputs.{Input};
ghost use Rattle.cx_run.specs.cx_rules_session.specs.ClientRule.{WholeClientNode, whole_client_rule};
ghost use Rattle.cx_run.specs.cx_rules_session.specs.DaemonRule.{DaemonState, daemon_step};

/// Of every state, event, reading and draw: a step of a client saves nothing, and no step of a daemon does, whatever its book of sessions and
/// whichever handlers it has. It does nothing: its clauses are the law.
pub fn saving_laws()
    ensures client { (c : WholeClientNode) (input : Input) (reading : ℕ) (draw : List ℕ) → (whole_client_rule c input reading draw).out.save ≡ None }
    ensures daemon { (handlers : Handlers) (d : DaemonState) (input : Input) (reading : ℕ) (draw : List ℕ)
        → (daemon_step handlers d input reading draw).out.save ≡ None }
{}
