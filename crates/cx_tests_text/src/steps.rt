//! Effects with one of each kind in their lists, and with more links than a number of 16 bits counts.

use cx_base::{Blob, Duplicate, Items};
use cx_journal::{Entry, KeyKind};
use cx_steps::{Effects, Peer, Piece, SealEntry, SealMark};
use std::alloc::Global;
use std::process::Abort;

fn blob(rt: &impl Abort, alloc: Global) -> Blob {
    Blob::of(alloc, b"hi").expect(rt, "memory is ample")
}

fn sealed(rt: &impl Abort, alloc: Global) -> SealEntry {
    SealEntry::Sealed(SealMark {
        key: [1; 16],
        kind: KeyKind::Service,
        content: blob(rt, alloc),
    })
}

fn piece(rt: &impl Abort, alloc: Global) -> Piece {
    Piece {
        link: 1,
        bytes: blob(rt, alloc),
    }
}

fn put_opens(rt: &impl Abort, alloc: Global, opens: &mut Items<Peer>) {
    opens
        .push(alloc, Peer::Monitor)
        .expect(rt, "memory is ample");
}

fn put_sends(rt: &impl Abort, alloc: Global, sends: &mut Items<Piece>) {
    sends
        .push(alloc, piece(rt, alloc))
        .expect(rt, "memory is ample");
}

fn put_shut(rt: &impl Abort, alloc: Global, shuts: &mut Items<u32>, link: u32) {
    shuts.push(alloc, link).expect(rt, "memory is ample");
}

fn put_shuts(rt: &impl Abort, alloc: Global, shuts: &mut Items<u32>, count: u32) {
    for link in 0..count {
        put_shut(rt, alloc, shuts, link);
    }
}

fn put_entries(rt: &impl Abort, alloc: Global, entries: &mut Items<Entry>) {
    entries
        .push(alloc, Entry::Saved(2))
        .expect(rt, "memory is ample");
}

fn put_seals(rt: &impl Abort, alloc: Global, seals: &mut Items<SealEntry>) {
    seals
        .push(alloc, sealed(rt, alloc))
        .expect(rt, "memory is ample");
}

/// Effects with one of each kind in their lists, and so many links that are shut.
fn effects(rt: &impl Abort, alloc: Global, count: u32) -> Effects {
    let mut effects = Effects::new(alloc);
    put_opens(rt, alloc, &mut effects.opens);
    put_sends(rt, alloc, &mut effects.sends);
    put_shuts(rt, alloc, &mut effects.shuts, count);
    put_entries(rt, alloc, &mut effects.entries);
    put_seals(rt, alloc, &mut effects.seals);
    effects
}

fn shut(effects: &Effects) -> usize {
    effects.shuts.all().len()
}

/// Whether all lists are the same, and whether a state is to be saved.
fn is_same(first: &Effects, second: &Effects) -> bool {
    first.opens == second.opens
        && first.sends == second.sends
        && first.shuts == second.shuts
        && first.entries == second.entries
        && first.seals == second.seals
        && first.save.is_some() == second.save.is_some()
}

#[test]
fn effects_are_copied(rt: HostRuntime) {
    let effects = effects(&rt, rt.alloc(), 70_000);
    assert!(rt; shut(&effects) == 70_000);
    let copied = effects.copy(rt.alloc()).expect(&rt, "memory is ample");
    assert!(rt; is_same(&effects, &copied));
}
