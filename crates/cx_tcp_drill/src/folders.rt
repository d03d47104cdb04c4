//! The folder of a keyring and a state.

use cx_keep::{KeepError, Keeper, Slot};
use cx_tcp::FolderKeeper;
use std::fs;
use std::fs::Permissions;
use std::os::unix::fs::{MetadataExt, PermissionsExt, symlink};

/// Neither a keyring nor a state stands in a new folder, which is its owner's alone.
pub fn is_empty(rt: &HostRuntime) -> bool {
    if !lets(rt, ".", 0o700) {
        return false;
    }
    let mut keeper = FolderKeeper::new(rt);
    let keyring = keeper.load(rt.alloc(), Slot::Keyring);
    let state = keeper.load(rt.alloc(), Slot::State);
    matches!(keyring, Ok(None)) && matches!(state, Ok(None))
}

/// Of two saves the later one is loaded, by this keeper and by one behind it, and nothing else is left in the folder.
pub fn keeps(rt: &HostRuntime) -> bool {
    saves(rt) && is_kept(rt) && fs::metadata(rt, "state.new").is_err()
}

fn saves(rt: &HostRuntime) -> bool {
    let mut keeper = FolderKeeper::new(rt);
    keeper.save(Slot::State, b"the first state").is_ok()
        && keeper.save(Slot::State, b"the second").is_ok()
        && keeper.save(Slot::Keyring, b"[mon]").is_ok()
        && holds(rt, &mut keeper, Slot::State, b"the second")
}

fn is_kept(rt: &HostRuntime) -> bool {
    let mut keeper = FolderKeeper::new(rt);
    holds(rt, &mut keeper, Slot::State, b"the second")
        && holds(rt, &mut keeper, Slot::Keyring, b"[mon]")
}

fn holds<K: Keeper>(rt: &HostRuntime, keeper: &mut K, slot: Slot, bytes: &[u8]) -> bool {
    match keeper.load(rt.alloc(), slot) {
        Ok(Some(kept)) => kept.bytes() == bytes,
        _ => false,
    }
}

/// Nobody else may read the state.
pub fn is_private(rt: &HostRuntime) -> bool {
    match fs::metadata(rt, "state") {
        Ok(told) => told.mode() % 0o1000 == 0o600,
        Err(_) => false,
    }
}

// Gives the file or the folder these rights.
fn lets(rt: &HostRuntime, name: &str, mode: u32) -> bool {
    fs::set_permissions(rt, name, Permissions::from_mode(mode)).is_ok()
}

/// What stands as `state.new` is not written: a file that others may write is removed, and so is a link, whose file stays.
pub fn is_written_anew(rt: &HostRuntime) -> bool {
    let is_open = fs::write(rt, "state.new", b"left").is_ok() && lets(rt, "state.new", 0o666);
    let saved = saves_privately(rt);
    let is_linked = fs::write(rt, "another", b"as before").is_ok()
        && symlink(rt, "another", "state.new").is_ok();
    let saved_again = saves_privately(rt);
    let is_same = fs::read_to_string(rt, "another").is_ok_and(|text| text.as_str() == "as before");
    is_open
        && saved
        && is_linked
        && saved_again
        && is_same
        && fs::remove_file(rt, "another").is_ok()
}

fn saves_privately(rt: &HostRuntime) -> bool {
    let mut keeper = FolderKeeper::new(rt);
    keeper.save(Slot::State, b"the second").is_ok()
        && is_private(rt)
        && holds(rt, &mut keeper, Slot::State, b"the second")
}

/// A state, a keyring or a folder that others may write isn't loaded.
pub fn is_guarded(rt: &HostRuntime) -> bool {
    is_refused_at(rt, "state", Slot::State, 0o602)
        && is_refused_at(rt, "state", Slot::State, 0o620)
        && is_refused_at(rt, "keyring", Slot::Keyring, 0o602)
        && is_refused_at(rt, ".", Slot::State, 0o702)
        && is_refused_at(rt, ".", Slot::Keyring, 0o720)
}

// Whether the slot isn't loaded while the file or the folder has these rights, and is with rights for its owner alone.
fn is_refused_at(rt: &HostRuntime, name: &str, slot: Slot, mode: u32) -> bool {
    let is_open = lets(rt, name, mode);
    let refused = loads(rt, slot);
    let is_shut = lets(rt, name, 0o700);
    let taken = loads(rt, slot);
    is_open && is_shut && refused == Some(false) && taken == Some(true)
}

// Whether a new keeper loads something there; none where that ends otherwise.
fn loads(rt: &HostRuntime, slot: Slot) -> Option<bool> {
    let mut keeper = FolderKeeper::new(rt);
    match keeper.load(rt.alloc(), slot) {
        Ok(Some(_)) => Some(true),
        Err(KeepError::Failed) => Some(false),
        _ => None,
    }
}

/// While one keeper holds the state, another can't load it, but the keyring.
pub fn is_locked(rt: &HostRuntime) -> bool {
    let mut first = FolderKeeper::new(rt);
    let mut second = FolderKeeper::new(rt);
    let held = holds(rt, &mut first, Slot::State, b"the second");
    let other = second.load(rt.alloc(), Slot::State);
    held && matches!(other, Err(KeepError::Failed))
        && holds(rt, &mut second, Slot::Keyring, b"[mon]")
}

/// 16 MiB are loaded, and a byte more is not.
pub fn is_bounded(rt: &HostRuntime) -> bool {
    let mut keeper = FolderKeeper::new(rt);
    let is_right = keeps_most(rt, &mut keeper) && is_too_much(rt, &mut keeper);
    is_right && fs::remove_file(rt, "state").is_ok()
}

fn keeps_most<K: Keeper>(rt: &HostRuntime, keeper: &mut K) -> bool {
    match vec![in rt.alloc(); 5u8; 16 << 20] {
        Ok(most) => keeper.save(Slot::State, &most).is_ok()
            && holds(rt, keeper, Slot::State, &most),
        Err(_) => false,
    }
}

fn is_too_much<K: Keeper>(rt: &HostRuntime, keeper: &mut K) -> bool {
    match vec![in rt.alloc(); 5u8; (16 << 20) + 1] {
        Ok(more) => {
            keeper.save(Slot::State, &more).is_ok()
                && matches!(keeper.load(rt.alloc(), Slot::State), Err(KeepError::Failed))
        }
        Err(_) => false,
    }
}

/// What can't be read is a fault, and what can't be replaced is one too.
pub fn is_no_file(rt: &HostRuntime) -> bool {
    let mut keeper = FolderKeeper::new(rt);
    fs::create_dir(rt, "state").is_ok()
        && matches!(keeper.load(rt.alloc(), Slot::State), Err(KeepError::Failed))
        && keeper.save(Slot::State, b"lost").is_err()
        && fs::remove_dir(rt, "state").is_ok()
}
