//! That the words of this crate, at the links of the rules, are the rules' words.

ghost use Rattle.cx_rules.specs.Connector as connector;
ghost use Rattle.cx_rules.specs.Holdings.{MonClient};
ghost use Rattle.cx_rules.specs.Monitor.{Monitor, MonitorStage, Offered};
ghost use Rattle.cx_rules.specs.declared.responses.Bearer.{Bearer};
ghost use Rattle.cx_node.specs.Rules.{AreTheLinks, AreTheRows, IsTheDenial};

/// Of the monitor, and of one that logs in.
pub fn node_laws()
    ensures monitor_links { AreTheLinks MonitorStage }
    ensures monitor_rows { AreTheRows Monitor MonitorStage }
    ensures monitor_denial { IsTheDenial Monitor Offered Bearer Bearer }
    ensures mon_client_links { AreTheLinks connector.Stage }
    ensures mon_client_rows { AreTheRows MonClient connector.Stage }
{}
