//! Keepers: each call once, a call that fails where it is told to, and more bytes than a number of 16 bits counts. How states are
//! spelled is in rows of `cx_answers`.

use cx_base::{Blob, SECOND};
use cx_keep::{CommitRefusal, KeepError, Keeper, Slot, VecKeeper, commit, decode_state};
use cx_rotate::{Generations, KeptState};
use std::alloc::Global;
use std::process::Abort;

/// Commits the state of a monitor that has kept nothing yet, which has 33 bytes.
fn commit_first(alloc: Global, keeper: &mut VecKeeper) -> Result<(), CommitRefusal> {
    let none = Generations::empty();
    let state = KeptState {
        next_gid: 1,
        life: 3600 * SECOND,
        auth_life: 43_200 * SECOND,
        mds: none,
        osd: none,
        mgr: none,
        auth: none,
    };
    commit(alloc, keeper, &state)
}

fn blob(rt: &impl Abort, alloc: Global, bytes: &[u8]) -> Blob {
    Blob::of(alloc, bytes).expect(rt, "memory is ample")
}

/// A keeper with one byte as its state and this room, whose second call fails.
fn keeper(rt: &impl Abort, alloc: Global, room: usize, leaves_new: bool) -> VecKeeper {
    let kept = blob(rt, alloc, b"x");
    let fails = blob(rt, alloc, &[2]);
    VecKeeper::new(alloc, None, Some(kept), room, fails, leaves_new).expect(rt, "memory is ample")
}

/// How many bytes stand in the slot of the state.
fn kept(rt: &impl Abort, keeper: &VecKeeper) -> usize {
    keeper.kept(Slot::State).expect(rt, "a state").len()
}

fn save(rt: &impl Abort, keeper: &mut VecKeeper, slot: Slot, bytes: &[u8]) {
    keeper.save(slot, bytes).expect(rt, "the bytes are saved");
}

fn load(alloc: Global, keeper: &mut VecKeeper, slot: Slot) -> Result<Option<Blob>, KeepError> {
    keeper.load(alloc, slot)
}

/// What stands in a slot, where the call is one that doesn't fail.
fn loaded(rt: &impl Abort, alloc: Global, keeper: &mut VecKeeper, slot: Slot) -> Blob {
    let loaded = load(alloc, keeper, slot).expect(rt, "the call doesn't fail");
    loaded.expect(rt, "the slot is filled")
}

fn has_no_keyring(keeper: &VecKeeper) -> bool {
    keeper.kept(Slot::Keyring).is_none()
}

fn is_first_state(bytes: &[u8]) -> bool {
    match decode_state(bytes, SECOND, SECOND) {
        Ok(state) => state.next_gid == 1,
        Err(_) => false,
    }
}

fn is_committed(alloc: Global, keeper: &mut VecKeeper) -> bool {
    commit_first(alloc, keeper).is_ok()
}

fn is_load_failing(alloc: Global, keeper: &mut VecKeeper) -> bool {
    load(alloc, keeper, Slot::State).is_err()
}

fn is_first_loaded(rt: &impl Abort, alloc: Global, keeper: &mut VecKeeper) -> bool {
    is_first_state(loaded(rt, alloc, keeper, Slot::State).bytes())
}

#[test]
fn a_committed_state_is_loaded(rt: HostRuntime) {
    let mut keeper = keeper(&rt, rt.alloc(), 40, false);
    assert!(rt; is_committed(rt.alloc(), &mut keeper));
    assert!(rt; has_no_keyring(&keeper));
    assert!(rt; is_load_failing(rt.alloc(), &mut keeper));
    assert!(rt; is_first_loaded(&rt, rt.alloc(), &mut keeper));
}

/// A keeper's room, whether a call of it that fails leaves the new bytes, and how many bytes of a state stand behind a save of one byte
/// and a commit that fails.
type Left = (usize, bool, usize);

static LEFT: [Left; 3] = [(34, false, 1), (34, true, 33), (33, true, 1)];

fn is_left(rt: &impl Abort, alloc: Global, row: &Left) -> bool {
    let (room, leaves_new, left) = *row;
    let mut keeper = keeper(rt, alloc, room, leaves_new);
    save(rt, &mut keeper, Slot::State, b"y");
    match commit_first(alloc, &mut keeper) {
        Err(CommitRefusal::KeepFault) => kept(rt, &keeper) == left,
        _ => false,
    }
}

#[test]
fn a_save_that_fails_leaves_the_old_or_the_new(rt: HostRuntime) {
    for row in &LEFT {
        assert!(rt; is_left(&rt, rt.alloc(), row), "{:?}", row);
    }
}

fn append(rt: &impl Abort, alloc: Global, ring: &mut Blob) {
    ring.append(alloc, b"x").expect(rt, "memory is ample");
}

fn ring_of(rt: &impl Abort, alloc: Global, count: usize) -> Blob {
    let mut ring = Blob::new(alloc);
    for _ in 0..count {
        append(rt, alloc, &mut ring);
    }
    ring
}

/// A keeper with nothing in its slots and this room, of which no call fails.
fn empty_keeper(rt: &impl Abort, alloc: Global, room: usize) -> VecKeeper {
    let fails = Blob::new(alloc);
    VecKeeper::new(alloc, None, None, room, fails, false).expect(rt, "memory is ample")
}

/// So many bytes that are saved as a keyring and loaded.
fn loaded_ring(rt: &impl Abort, alloc: Global, count: usize) -> Blob {
    let ring = ring_of(rt, alloc, count);
    let mut keeper = empty_keeper(rt, alloc, count);
    save(rt, &mut keeper, Slot::Keyring, ring.bytes());
    loaded(rt, alloc, &mut keeper, Slot::Keyring)
}

#[test]
fn a_keyring_of_70000_bytes_is_loaded(rt: HostRuntime) {
    assert!(rt; loaded_ring(&rt, rt.alloc(), 70_000).bytes().len() == 70_000);
}
