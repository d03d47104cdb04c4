//! The script of a node.

ghost use Rattle.std.specs.Prelude.{◌≡◌, IfErr, IfOk, MatchResult};
ghost use Rattle.std.specs.Option.{option_map};
ghost use Rattle.cx_schedule.specs.NodeLines.{node_names};
ghost use Rattle.cx_loading.specs.Loading.{IsOrMemory};
ghost use Rattle.cx_loading.specs.Scripts.{IsScript, IsScriptEnd, IsScriptReason, IsServed};
ghost use Rattle.cx_loading.specs.declared.unloaded.Unloaded.{Unloaded};

use crate::unloaded::Unloaded;
use cx_base::EntityName;
use cx_schedule::{NodeScript, read_node};
use std::alloc::Global;

/// The script that these bytes are, for a node of this name and with these peers, or for the monitor, which has no name.
pub fn script_of(
    alloc: Global,
    bytes: &[u8],
    name: Option<&EntityName>,
    peers: &[EntityName],
) -> Result<NodeScript, Unloaded>
    ensures ok { IfOk result (IsScript (node_names (option_map (λ n. n.now) name.entry) peers.now) bytes.now) }
    ensures err { IfErr result (IsScriptEnd (node_names (option_map (λ n. n.now) name.entry) peers.now) bytes.now) }
    ensures only { IsServed (node_names (option_map (λ n. n.now) name.entry) peers.now) bytes.now → IfErr result (λ why. why ≡ Unloaded.OutOfMemory) }
    ensures exact { (why : Unloaded) → IsScriptReason (node_names (option_map (λ n. n.now) name.entry) peers.now) bytes.now why
        → MatchResult result (λ _. ⊥) (IsOrMemory why) }
{
    let script = read_node(alloc, bytes, name, peers)?;
    Ok(script)
}
