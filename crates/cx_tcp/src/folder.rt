//! A folder that a keyring and a state are kept in.

ghost use Rattle.std.specs.Prelude.{◌≡◌, ◌≤◌, length, IfOk};

use crate::limits::others_write;
use cx_base::{Blob, Failed};
use cx_keep::{KeepError, Keeper, Slot};
use std::alloc::{AllocError, Global};
use std::fs::{File, Files, OpenOptions, TryLockError};
use std::io::{Eprint, ErrorKind, Read, Write};
use std::os::unix::fs::{MetadataExt, OpenOptionsExt};
use std::{fs, io};

// The most bytes that a file may have.
const MOST: u64 = 16 << 20;

/// The folder in which the program runs, with the files `keyring` and `state`. A monitor holds it alone: whoever loads the state
/// locks the folder until it ends, and another load of it fails. A state is written to `state.new` beside the old one, a new file
/// with rights for its owner alone, brought to the disk and then renamed, so that a stop at any time leaves the old one or the new
/// one. One that is loaded is brought to the disk first. What others may write, file or folder, isn't loaded.
///
/// From the first load on the folder is held open, and beside it a spare file, which is given up where a save needs one: so no save
/// fails because links have taken all files that the process may open. What the system refuses is printed on standard error, and so is
/// what is noted of a keyring that is loaded.
#[derive(Drop)]
pub struct FolderKeeper<R, N> {
    rt: R,
    notes: N,
    folder: Option<File>,
    spare: Option<File>,
    faults: u64,
}

/// What is noted of each keyring that is loaded.
pub trait RingNotes {
    /// Lines for standard error.
    fn notes(&mut self, alloc: Global, keyring: &[u8]) -> Result<String, AllocError>;
}

/// Nothing is noted.
#[derive(Drop)]
pub struct NoNotes;

impl RingNotes for NoNotes {
    fn notes(&mut self, alloc: Global, _keyring: &[u8]) -> Result<String, AllocError> {
        Ok(String::new(alloc))
    }
}

impl<R> FolderKeeper<R, NoNotes> {
    /// The folder in which the program runs.
    pub fn new(rt: R) -> FolderKeeper<R, NoNotes> {
        FolderKeeper::with_notes(rt, NoNotes)
    }
}

impl<R, N> FolderKeeper<R, N> {
    /// The folder in which the program runs, with what is noted of its keyring.
    pub fn with_notes(rt: R, notes: N) -> FolderKeeper<R, N> {
        FolderKeeper {
            rt,
            notes,
            folder: None,
            spare: None,
            faults: 0,
        }
    }

    /// What was noted.
    pub fn notes(&self) -> &N {
        &self.notes
    }
}

// The name of the slot's file.
fn name_of(slot: Slot) -> &'static str {
    match slot {
        Slot::Keyring => "keyring",
        Slot::State => "state",
    }
}

impl<R: Files<File = File> + Eprint, N: RingNotes> Keeper for FolderKeeper<R, N> {
    ghost use Rattle.std.specs.Prelude.{None};

    ghost kept = { λ _. None };

    ghost faults = { λ k. k.faults };

    /// A file that isn't there is nothing kept. One of over 16 MiB isn't loaded, nor one that others may write.
    fn load(&mut self, alloc: Global, slot: Slot) -> Result<Option<Blob>, KeepError> {
        let held = hold(&self.rt, &mut self.folder, slot);
        if self.spare.is_none() {
            self.spare = fs::open(&self.rt, ".").ok();
        }
        match held.and_then(|()| read(&self.rt, alloc, slot)) {
            Ok(loaded) => {
                note(&self.rt, &mut self.notes, alloc, slot, &loaded)?;
                Ok(loaded)
            }
            Err(error) if error.kind() == ErrorKind::OutOfMemory => Err(KeepError::OutOfMemory),
            Err(error) => {
                tell(&self.rt, name_of(slot), &error);
                self.faults = self.faults.saturating_add(1);
                Err(KeepError::Failed)
            }
        }
    }

    fn save(&mut self, slot: Slot, bytes: &[u8]) -> Result<(), Failed> {
        self.spare = None;
        let saved = replace(&self.rt, &mut self.folder, slot, bytes);
        self.spare = fs::open(&self.rt, ".").ok();
        match saved {
            Ok(()) => Ok(()),
            Err(error) => {
                tell(&self.rt, name_of(slot), &error);
                self.faults = self.faults.saturating_add(1);
                Err(Failed)
            }
        }
    }
}

// Says on standard error what is noted of a keyring that was loaded. Where that fails too, nothing is said.
fn note<R: Eprint, N: RingNotes>(
    rt: &R,
    notes: &mut N,
    alloc: Global,
    slot: Slot,
    loaded: &Option<Blob>,
) -> Result<(), AllocError> {
    match (slot, loaded) {
        (Slot::Keyring, Some(keyring)) => {
            let told = notes.notes(alloc, keyring.bytes())?;
            let _ = eprint!(rt; "{told}");
            Ok(())
        }
        _ => Ok(()),
    }
}

// Opens the folder where that wasn't done yet. Whoever loads the state locks it, and brings to the disk which files it has.
fn hold<R: Files<File = File>>(rt: &R, folder: &mut Option<File>, slot: Slot) -> io::Result<()> {
    if folder.is_none() {
        let opened = fs::open(rt, ".")?;
        if others_write(opened.metadata()?.mode()) {
            return Err(io::Error::other("others may write this folder: chmod go-w ."));
        }
        *folder = Some(opened);
    }
    match (slot, folder) {
        (Slot::State, Some(held)) => {
            lock(held)?;
            held.sync_all()
        }
        _ => Ok(()),
    }
}

fn lock(folder: &File) -> io::Result<()> {
    match folder.try_lock() {
        Ok(()) => Ok(()),
        Err(TryLockError::WouldBlock) => Err(io::Error::other(
            "another monitor runs in this folder",
        )),
        Err(TryLockError::Error(error)) => Err(error),
    }
}

// What stands in the slot's file, if there is one.
fn read<R: Files<File = File> + Eprint>(
    rt: &R,
    alloc: Global,
    slot: Slot,
) -> io::Result<Option<Blob>> {
    let mut file = match fs::open(rt, name_of(slot)) {
        Ok(file) => file,
        Err(error) if error.kind() == ErrorKind::NotFound => return Ok(None),
        Err(error) => return Err(error),
    };
    let told = file.metadata()?;
    if told.len() > MOST {
        return Err(io::Error::other("more than 16 MiB"));
    }
    if others_write(told.mode()) {
        return Err(io::Error::other("others may write this file: chmod 600"));
    }
    if told.mode() % 0o100 != 0 {
        let name = name_of(slot);
        let _ = eprintln!(rt; "cephx_cli: {name}: others may read this file: chmod 600 {name}");
    }
    if slot == Slot::State {
        file.sync_all()?;
    }
    whole(&mut file, alloc)
}

// All bytes of a file of at most 16 MiB.
fn whole(file: &mut File, alloc: Global) -> io::Result<Option<Blob>> {
    let mut bytes = Blob::new(alloc);
    let mut part = [0; 8192];
    for _ in 0..MOST {
        let count = read_some(file, &mut part)?;
        if count == 0 {
            return Ok(Some(bytes));
        }
        bytes.append(alloc, &part[..count])?;
        if bytes.bytes().len() as u64 > MOST {
            break;
        }
    }
    Err(io::Error::other("more than 16 MiB"))
}

// Reads once; a read that a signal interrupts is made again.
fn read_some(file: &mut File, into: &mut [u8]) -> io::Result<usize>
    ensures bound { IfOk result (λ count. count ≤ length into.new) }
    ensures room { length into.new ≡ length into.old }
{
    for _ in 0..u64::MAX {
        match file.read(into) {
            Err(error) if error.kind() == ErrorKind::Interrupted => {}
            answer => return answer,
        }
    }
    Ok(0)
}

// Puts the bytes in place of those that stand in the slot's file.
fn replace<R: Files<File = File>>(
    rt: &R,
    folder: &mut Option<File>,
    slot: Slot,
    bytes: &[u8],
) -> io::Result<()> {
    let (name, fresh) = match slot {
        Slot::Keyring => ("keyring", "keyring.new"),
        Slot::State => ("state", "state.new"),
    };
    write_new(rt, fresh, bytes)?;
    fs::rename(rt, fresh, name)?;
    hold(rt, folder, Slot::Keyring)?;
    match folder {
        Some(held) => held.sync_all(),
        None => Ok(()),
    }
}

// Brings the bytes to the disk in a new file of this name.
fn write_new<R: Files<File = File>>(rt: &R, name: &str, bytes: &[u8]) -> io::Result<()> {
    let mut file = create(rt, name)?;
    file.write_all(bytes)?;
    file.sync_all()
}

// A new file that its owner alone may read and write. What has this name, a link or what a stop left there, is removed and not
// opened.
fn create<R: Files<File = File>>(rt: &R, name: &str) -> io::Result<File> {
    let mut options = OpenOptions::new();
    options.write(true).create_new(true).mode(0o600);
    match options.open(rt, name) {
        Err(error) if error.kind() == ErrorKind::AlreadyExists => {
            fs::remove_file(rt, name)?;
            options.open(rt, name)
        }
        opened => opened,
    }
}

// Says on standard error what the system refused. Where that fails too, the status is left.
fn tell<R: Eprint>(rt: &R, name: &str, error: &io::Error) {
    let _ = eprintln!(rt; "cephx_cli: {name}: {error}");
}
