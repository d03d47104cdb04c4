//! A keeper in memory, which tells all that it keeps, and fails where it is told to.

ghost use Rattle.std.specs.Prelude.{◌≡◌, ◌≤◌, ◌-◌, length, vec_capacity, IfOk, OnOk, OnErr, is_ok, true, Ok, Err, Some};
ghost use Rattle.std.specs.Option.{option_map};
ghost use Rattle.cx_base.specs.Streams.{Counts, is_listed};

use crate::keeper::{KeepError, Keeper, Slot};
use cx_base::{Blob, Failed};
use std::alloc::{AllocError, Global};
use std::marker::Model;

// A slot in memory. What doesn't stand there yet has room here.
#[derive(Debug, Drop)]
struct HeldSlot {
    bytes: Vec<u8>,
    is_filled: bool,
}

impl HeldSlot {
    ghost use Rattle.cx_keep.specs.Held.{held_of};

    // A slot with these bytes, if any, and with room for so many.
    fn new(alloc: Global, filled: Option<Blob>, room: usize) -> Result<HeldSlot, AllocError>
        ensures held { IfOk result (λ place. held_of place ≡ filled) }
        ensures room { IfOk result (λ place. room ≤ vec_capacity place.bytes) }
    {
        let mut bytes = Vec::with_capacity(alloc, room)?;
        match filled {
            None => Ok(HeldSlot {
                bytes,
                is_filled: false,
            }),
            Some(blob) => {
                bytes.extend_from_slice(blob.bytes())?;
                Ok(HeldSlot {
                    bytes,
                    is_filled: true,
                })
            }
        }
    }

    // What stands here.
    fn get(&self) -> Option<&[u8]>
        ensures { option_map (λ bytes. bytes.now) result ≡ held_of self.now }
    {
        if self.is_filled {
            Some(self.bytes.as_slice())
        } else {
            None
        }
    }

    // A copy of what stands here.
    fn copy(&self, alloc: Global) -> Result<Option<Blob>, AllocError>
        ensures { IfOk result (λ copied. copied ≡ held_of self.now) }
    {
        if !self.is_filled {
            return Ok(None);
        }
        let copied = Blob::of(alloc, self.bytes.as_slice())?;
        Ok(Some(copied))
    }

    // Puts these bytes, which have room, in place of those that stand here.
    fn put(&mut self, bytes: &[u8])
        requires { length bytes.now ≤ vec_capacity self.old.bytes }
        ensures held { held_of self.new ≡ Some bytes.now }
        ensures room { vec_capacity self.old.bytes ≤ vec_capacity self.new.bytes }
    {
        self.bytes.clear();
        self.bytes.extend_from_slice(bytes).unwrap();
        self.is_filled = true;
    }
}

/// A keeper of a keyring and a state, with room for so many bytes in all saves to come, taken when it is made. Its call number
/// i, from 1, fails where `fails` holds the byte i, and so does a save that doesn't fit the room that is left. A save that
/// fails leaves the new bytes where `leaves_new` was said and they fit, else the old ones.
#[derive(Debug, Drop)]
pub struct VecKeeper {
    keyring: HeldSlot,
    state: HeldSlot,
    room: usize,
    fails: Blob,
    leaves_new: bool,
    calls: u64,
    faults: u64,
}

impl Model for VecKeeper {
    ghost use Rattle.std.specs.Prelude.{◌≤◌, vec_capacity};
    ghost use Rattle.cx_keep.specs.Held.{held_of};
    ghost use Rattle.cx_keep.specs.Slots.{Keeping};

    ghost Value = { Keeping };

    ghost view = { λ k. record {
      kept = record { keyring = held_of k.keyring; state = held_of k.state };
      room = k.room;
      fails = k.fails;
      leaves_new = k.leaves_new;
      calls = k.calls;
      faults = k.faults;
    } };

    ghost invariant = { λ k. (k.room ≤ vec_capacity k.keyring.bytes) × (k.room ≤ vec_capacity k.state.bytes) };
}

impl VecKeeper {
    ghost use Rattle.cx_keep.specs.Slots.{slot_of, with_slot};

    /// A keeper of this keyring and this state, each of which may be absent.
    pub fn new(
        alloc: Global,
        keyring: Option<Blob>,
        state: Option<Blob>,
        room: usize,
        fails: Blob,
        leaves_new: bool,
    ) -> Result<VecKeeper, AllocError>
        ensures { IfOk result (λ k. k ≡ record {
          kept = record { keyring = keyring; state = state };
          room = room;
          fails = fails;
          leaves_new = leaves_new;
          calls = 0;
          faults = 0;
        }) }
    {
        let keyring = HeldSlot::new(alloc, keyring, room)?;
        let state = HeldSlot::new(alloc, state, room)?;
        Ok(VecKeeper {
            keyring,
            state,
            room,
            fails,
            leaves_new,
            calls: 0,
            faults: 0,
        })
    }

    /// What stands in the slot, if anything does.
    pub fn kept(&self, slot: Slot) -> Option<&[u8]>
        ensures { option_map (λ bytes. bytes.now) result ≡ slot_of slot self.now.kept }
    {
        match slot {
            Slot::Keyring => self.keyring.get(),
            Slot::State => self.state.get(),
        }
    }

    // Puts these bytes, which fit, into the slot.
    fn put(&mut self, slot: Slot, bytes: &[u8])
        requires { length bytes.now ≤ self.old.room }
        ensures { self.new ≡ record self.old { kept = with_slot slot bytes.now self.old.kept; room = self.old.room - length bytes.now } }
    {
        match slot {
            Slot::Keyring => self.keyring.put(bytes),
            Slot::State => self.state.put(bytes),
        }
        self.room -= bytes.len();
    }

    // A copy of what stands in the slot.
    fn copy(&self, alloc: Global, slot: Slot) -> Result<Option<Blob>, AllocError>
        ensures { IfOk result (λ copied. copied ≡ slot_of slot self.now.kept) }
    {
        match slot {
            Slot::Keyring => self.keyring.copy(alloc),
            Slot::State => self.state.copy(alloc),
        }
    }
}

impl Keeper for VecKeeper {
    ghost use Rattle.std.specs.Prelude.{Some};
    ghost use Rattle.cx_keep.specs.Slots.{Loads, Saves, SavesOrNot, LoadCounts, after_load, after_save, fails_next, saves_next};

    ghost kept = { λ k. Some k.kept };

    ghost faults = { λ k. k.faults };

    /// Fails exactly where the number of this call is listed.
    fn load(&mut self, alloc: Global, slot: Slot) -> Result<Option<Blob>, KeepError>
        ensures loads { IfOk result (Loads (Some self.old.kept) slot) }
        ensures same { Some self.new.kept ≡ Some self.old.kept }
        ensures count { LoadCounts self.old.faults self.new.faults result }
        ensures failed { result ≡ Err KeepError.Failed → fails_next self.old ≡ true }
        ensures listed { fails_next self.old ≡ true → result ≡ Err KeepError.Failed }
        ensures state { self.new ≡ after_load self.old }
    {
        self.calls = self.calls.saturating_add(1);
        if is_listed(self.fails.bytes(), self.calls) {
            self.faults = self.faults.saturating_add(1);
            return Err(KeepError::Failed);
        }
        let copied = self.copy(alloc, slot)?;
        Ok(copied)
    }

    /// Fails exactly where the number of this call is listed or the bytes don't fit.
    fn save(&mut self, slot: Slot, bytes: &[u8]) -> Result<(), Failed>
        ensures saves { OnOk result (Saves (Some self.old.kept) (Some self.new.kept) slot bytes.now) }
        ensures failed { OnErr result (SavesOrNot (Some self.old.kept) (Some self.new.kept) slot bytes.now) }
        ensures count { Counts self.old.faults self.new.faults result }
        ensures answer { is_ok result ≡ saves_next self.old bytes.now }
        ensures state { self.new ≡ after_save self.old slot bytes.now }
    {
        self.calls = self.calls.saturating_add(1);
        if bytes.len() > self.room {
            self.faults = self.faults.saturating_add(1);
            return Err(Failed);
        }
        if is_listed(self.fails.bytes(), self.calls) {
            self.faults = self.faults.saturating_add(1);
            if self.leaves_new {
                self.put(slot, bytes);
            }
            return Err(Failed);
        }
        self.put(slot, bytes);
        Ok(())
    }
}

fn is_listed(fails: &[u8], call: u64) -> bool
    ensures { result ≡ is_listed fails.now call }
{
    fails.iter().any(|b| u64::from(*b) == call)
}
