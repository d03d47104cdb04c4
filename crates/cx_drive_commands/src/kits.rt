//! What a node begins with that has a name.

ghost use Rattle.std.specs.Prelude.{◌≡◌, IfErr, IfOk, MatchResult, OnOk};
ghost use Rattle.cx_base.specs.Streams.{Rose};
ghost use Rattle.cx_drive_commands.specs.nodes.Named.{IsNamedReason, IsNamedRefusal, IsNamedServed, NamedLoad};
ghost use Rattle.cx_loading.specs.Loading.{IsOrMemory};
ghost use Rattle.cx_loading.specs.declared.unloaded.Unloaded.{Unloaded};

use crate::orders::orders;
use cx_base::{EntityName, Items};
use cx_drive::Order;
use cx_enc::Key;
use cx_keep::Keeper;
use cx_loading::{Unloaded, key_of, script_of};
use std::alloc::Global;

/// The orders of a node, and its key.
#[derive(Drop)]
pub struct Kit {
    pub orders: Items<Order>,
    pub key: Key,
}

/// What the node of this name and with these peers begins with.
pub fn named<K: Keeper>(
    alloc: Global,
    name: &EntityName,
    peers: &[EntityName],
    bytes: &[u8],
    keeper: &mut K,
) -> Result<Kit, Unloaded>
    ensures ok { IfOk result (λ n. NamedLoad name.now peers.now bytes.now (K.kept keeper.old) n.orders n.key) }
    ensures err { IfErr result (IsNamedRefusal name.now peers.now bytes.now (K.kept keeper.old) (K.faults keeper.old) (K.faults keeper.new)) }
    ensures only { IsNamedServed name.now peers.now bytes.now (K.kept keeper.old) → ¬ Rose (K.faults keeper.old) (K.faults keeper.new)
        → IfErr result (λ why. why ≡ Unloaded.OutOfMemory) }
    ensures exact { (why : Unloaded) → IsNamedReason name.now peers.now bytes.now (K.kept keeper.old) why → ¬ Rose (K.faults keeper.old) (K.faults keeper.new)
        → MatchResult result (λ _. ⊥) (IsOrMemory why) }
    ensures same { K.kept keeper.new ≡ K.kept keeper.old }
    ensures count { OnOk result (K.faults keeper.new ≡ K.faults keeper.old) }
{
    let script = script_of(alloc, bytes, Some(name), peers)?;
    let key = key_of(alloc, keeper, name)?;
    let orders = orders(alloc, &script)?;
    Ok(Kit { orders, key })
}
