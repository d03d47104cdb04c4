//! What a node needs of what is kept: the keyring, and the monitor's state.

ghost use Rattle.std.specs.Prelude.{◌≡◌, ◌≤◌, IfErr, IfOk, MatchResult, OnOk, find};
ghost use Rattle.std.specs.Option.{option_map};
ghost use Rattle.cx_base.specs.Streams.{Rose};
ghost use Rattle.cx_keyring.specs.Entries.{is_named};
ghost use Rattle.cx_keep.specs.Formats.{SpellsState};
ghost use Rattle.cx_rotate.specs.Keeping.{IsKeptState, IsLife};
ghost use Rattle.cx_loading.specs.Loading.{HasKey, HasRing, HasState, IsKeyEnd, IsKeyOf, IsKeyReason, IsKeyRefusal, IsKeyServed, IsOrMemory, IsRingEnd, IsRingOf, IsRingReason, IsRingRefusal, IsRingServed, IsStateEnd, IsStateOf, IsStateRefusal, IsStateServed, IsUnspelled, TellsKey, TellsKeyReason, TellsNoState, TellsRing, TellsRingReason, TellsState, first_state};
ghost use Rattle.cx_loading.specs.declared.unloaded.Unloaded.{Unloaded};

use crate::unloaded::Unloaded;
use cx_base::{Blob, EntityName};
use cx_enc::Key;
use cx_keep::{BadState, Keeper, Slot, decode_state};
use cx_keyring::{Keyring, parse};
use cx_rotate::{Generations, KeptState};
use std::alloc::Global;

/// The keyring that is kept.
pub fn ring_of<K: Keeper>(alloc: Global, keeper: &mut K) -> Result<Keyring, Unloaded>
    ensures ok { IfOk result (HasRing (K.kept keeper.old)) }
    ensures err { IfErr result (IsRingEnd (K.kept keeper.old) (K.faults keeper.old) (K.faults keeper.new)) }
    ensures only { TellsRing (K.kept keeper.old) → ¬ Rose (K.faults keeper.old) (K.faults keeper.new) → IfErr result (λ why. why ≡ Unloaded.OutOfMemory) }
    ensures exact { (why : Unloaded) → TellsRingReason (K.kept keeper.old) why → ¬ Rose (K.faults keeper.old) (K.faults keeper.new)
        → MatchResult result (λ _. ⊥) (IsOrMemory why) }
    ensures same { K.kept keeper.new ≡ K.kept keeper.old }
    ensures count { OnOk result (K.faults keeper.new ≡ K.faults keeper.old) }
{
    let loaded = keeper.load(alloc, Slot::Keyring)?;
    ring_in(alloc, loaded)
}

// The keyring that was loaded.
fn ring_in(alloc: Global, loaded: Option<Blob>) -> Result<Keyring, Unloaded>
    ensures ok { IfOk result (IsRingOf loaded) }
    ensures err { IfErr result (IsRingRefusal loaded) }
    ensures only { IsRingServed loaded → IfErr result (λ why. why ≡ Unloaded.OutOfMemory) }
    ensures exact { (why : Unloaded) → IsRingReason loaded why → MatchResult result (λ _. ⊥) (IsOrMemory why) }
{
    let Some(bytes) = loaded else {
        return Err(Unloaded::NoKeyring);
    };
    let ring = parse(alloc, bytes.bytes())?;
    Ok(ring)
}

/// The key of the entity of this name in the keyring that is kept.
pub fn key_of<K: Keeper>(alloc: Global, keeper: &mut K, name: &EntityName) -> Result<Key, Unloaded>
    ensures ok { IfOk result (HasKey name.now (K.kept keeper.old)) }
    ensures err { IfErr result (IsKeyEnd name.now (K.kept keeper.old) (K.faults keeper.old) (K.faults keeper.new)) }
    ensures only { TellsKey name.now (K.kept keeper.old) → ¬ Rose (K.faults keeper.old) (K.faults keeper.new) → IfErr result (λ why. why ≡ Unloaded.OutOfMemory) }
    ensures exact { (why : Unloaded) → TellsKeyReason name.now (K.kept keeper.old) why → ¬ Rose (K.faults keeper.old) (K.faults keeper.new)
        → MatchResult result (λ _. ⊥) (IsOrMemory why) }
    ensures same { K.kept keeper.new ≡ K.kept keeper.old }
    ensures count { OnOk result (K.faults keeper.new ≡ K.faults keeper.old) }
{
    let loaded = keeper.load(alloc, Slot::Keyring)?;
    key_in(alloc, loaded, name)
}

// The key of the entity of this name in the keyring that was loaded.
#[tactic(auto, using(crate::proofs::Keys::key_refused, crate::proofs::Keys::key_only, crate::proofs::Keys::key_reason, crate::proofs::Keys::key_missing, crate::proofs::Keys::key_found, crate::proofs::Keys::key_there))]
fn key_in(alloc: Global, loaded: Option<Blob>, name: &EntityName) -> Result<Key, Unloaded>
    ensures ok { IfOk result (IsKeyOf name.now loaded) }
    ensures err { IfErr result (IsKeyRefusal name.now loaded) }
    ensures only { IsKeyServed name.now loaded → IfErr result (λ why. why ≡ Unloaded.OutOfMemory) }
    ensures exact { (why : Unloaded) → IsKeyReason name.now loaded why → MatchResult result (λ _. ⊥) (IsOrMemory why) }
{
    let ring = ring_in(alloc, loaded)?;
    match key_for(&ring, name) {
        Some(key) => Ok(key),
        None => Err(Unloaded::NoEntity),
    }
}

fn key_for(ring: &Keyring, name: &EntityName) -> Option<Key>
    ensures { result ≡ option_map (λ entry. entry.key) (find (is_named name.now) ring.now) }
{
    match ring.find(name) {
        Some(entry) => Some(entry.key),
        None => None,
    }
}

/// The state that is kept, or the first one. Where a state without lives is kept, or none, these count.
pub fn state_of<K: Keeper>(
    alloc: Global,
    keeper: &mut K,
    life: u64,
    auth_life: u64,
) -> Result<KeptState, Unloaded>
    requires life { IsLife life }
    requires auth_life { IsLife auth_life }
    ensures ok { IfOk result (HasState (life, auth_life) (K.kept keeper.old)) }
    ensures kept { IfOk result IsKeptState }
    ensures err { IfErr result (IsStateEnd (life, auth_life) (K.kept keeper.old) (K.faults keeper.old) (K.faults keeper.new)) }
    ensures only { TellsState (life, auth_life) (K.kept keeper.old) → ¬ Rose (K.faults keeper.old) (K.faults keeper.new) → IfErr result (λ why. why ≡ Unloaded.OutOfMemory) }
    ensures exact { TellsNoState (life, auth_life) (K.kept keeper.old) → IfOk result (λ _. ⊥) }
    ensures same { K.kept keeper.new ≡ K.kept keeper.old }
    ensures count { OnOk result (K.faults keeper.new ≡ K.faults keeper.old) }
{
    let loaded = keeper.load(alloc, Slot::State)?;
    state_in(loaded, life, auth_life)
}

// The state that was loaded.
fn state_in(loaded: Option<Blob>, life: u64, auth_life: u64) -> Result<KeptState, Unloaded>
    requires life { IsLife life }
    requires auth_life { IsLife auth_life }
    ensures ok { IfOk result (IsStateOf (life, auth_life) loaded) }
    ensures kept { IfOk result IsKeptState }
    ensures err { IfErr result (IsStateRefusal (life, auth_life) loaded) }
    ensures only { IsStateServed (life, auth_life) loaded → IfErr result (λ _. ⊥) }
    ensures exact { (IsStateServed (life, auth_life) loaded → ⊥) → IfOk result (λ _. ⊥) }
{
    let Some(bytes) = loaded else {
        return Ok(first_state(life, auth_life));
    };
    let state = spelled(bytes.bytes(), life, auth_life)?;
    Ok(state)
}

// The state that the bytes spell.
#[tactic(auto, using(crate::proofs::Unspelled::unspelled))]
fn spelled(bytes: &[u8], life: u64, auth_life: u64) -> Result<KeptState, BadState>
    requires life { IsLife life }
    requires auth_life { IsLife auth_life }
    ensures ok { IfOk result (SpellsState (life, auth_life) bytes.now) }
    ensures kept { IfOk result IsKeptState }
    ensures err { IfErr result (λ bad. IsUnspelled (life, auth_life) bytes.now bad.0) }
{
    decode_state(bytes, life, auth_life)
}

// The state of a monitor that has kept nothing yet.
fn first_state(life: u64, auth_life: u64) -> KeptState
    requires life { IsLife life }
    requires auth_life { IsLife auth_life }
    ensures value { result ≡ first_state (life, auth_life) }
    ensures kept { IsKeptState result }
{
    KeptState {
        next_gid: 1,
        life,
        auth_life,
        mds: Generations::empty(),
        osd: Generations::empty(),
        mgr: Generations::empty(),
        auth: Generations::empty(),
    }
}
