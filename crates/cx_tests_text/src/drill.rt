//! The schedule of a drill: its text, and that it is read.

use cx_base::Blob;
use cx_schedule::{drill, read};
use std::alloc::Global;
use std::process::Abort;

/// The text without what the contract says of it.
fn text(rt: &impl Abort, alloc: Global, n: u32, seed: u64) -> Blob {
    if n < 1 || 1_000 < n {
        return Blob::new(alloc);
    }
    drill(alloc, n, seed).expect(rt, "memory is ample")
}

fn is_text(rt: &impl Abort, alloc: Global, n: u32, seed: u64, wanted: &str) -> bool {
    text(rt, alloc, n, seed).bytes() == wanted.as_bytes()
}

#[test]
fn a_drill_of_three_clients_sends_one_two_and_three_operations(rt: HostRuntime) {
    let wanted =
        "entity client.1 osd \"allow *\"\nentity client.2 osd \"allow *\"\nentity client.3 osd \"allow *\"\nentity osd.0\n\
        clock 1600\nfetch osd.0\nlogin client.1 osd\nconnect client.1 osd.0\nsend client.1 osd.0 write rbd - o -\ncut 2\ncut 3\n\
        clock 2200\nlogin client.2 osd\nconnect client.2 osd.0\nsend client.2 osd.0 write rbd - o -\n\
        send client.2 osd.0 write rbd - o -\ncut 4\ncut 5\n\
        clock 2800\nlogin client.3 osd\nconnect client.3 osd.0\nsend client.3 osd.0 write rbd - o -\n\
        send client.3 osd.0 write rbd - o -\nsend client.3 osd.0 write rbd - o -\ncut 6\ncut 7\n";
    assert!(rt; is_text(&rt, rt.alloc(), 3, 0, wanted));
}

#[test]
fn a_drill_with_the_largest_seed_sends_nothing_for_its_first_client(rt: HostRuntime) {
    let wanted =
        "entity client.1 osd \"allow *\"\nentity osd.0\nclock 1600\nfetch osd.0\nlogin client.1 osd\n\
        connect client.1 osd.0\ncut 2\ncut 3\n";
    assert!(rt; is_text(&rt, rt.alloc(), 1, u64::MAX, wanted));
}

/// The number of clients, the seed, and how many lines are read of the text: an entity line each and the daemon's; a clock, a login,
/// a connect and two cuts each; a fetch for each fourth, and the sends.
type Row = (u32, u64, usize);

static ROWS: [Row; 4] = [
    (3, 0, 4 + 15 + 1 + 6),
    (100, 1, 101 + 500 + 25 + 150),
    (1_000, 7, 1_001 + 5_000 + 250 + 1_500),
    (1_000, u64::MAX, 1_001 + 5_000 + 250 + 1_500),
];

fn is_read(rt: &impl Abort, alloc: Global, row: &Row) -> bool {
    match read(alloc, text(rt, alloc, row.0, row.1).bytes()) {
        Ok(script) => script.lines().len() == row.2,
        Err(_) => false,
    }
}

#[test]
fn the_text_of_a_drill_is_a_schedule(rt: HostRuntime) {
    for row in &ROWS {
        assert!(rt; is_read(&rt, rt.alloc(), row), "{} {}", row.0, row.1);
    }
}
