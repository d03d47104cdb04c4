//! Links in memory: numbers, pieces, room, calls that fail, and events on links that don't live.

use cx_base::{Addr, Blob, Items};
use cx_outside::{LinkCall, LinkEvent, Links, ScriptLinks};
use std::alloc::Global;
use std::process::Abort;

/// A script: its events, its bytes, the room, and the numbers of the calls that fail.
struct Script {
    events: &'static [LinkEvent],
    bytes: &'static [u8],
    room: usize,
    fails: &'static [u8],
}

/// A call, and what it is to answer: whether it goes well, which number it gives, or which event, into so much room, with
/// which bytes.
enum Call {
    Listen(bool),
    Open(Option<u32>),
    Next(usize, Option<LinkEvent>, &'static [u8]),
    Send(u32, &'static [u8], bool),
    Shut(u32),
}

/// A script, the calls on its links, and the bytes and the calls that the links are to have taken then.
struct Row {
    script: Script,
    calls: &'static [Call],
    taken: &'static [u8],
    kept: &'static [LinkCall],
}

static AT: Addr = Addr {
    nonce: 7,
    ip: [127, 0, 0, 1],
    port: 6789,
};

static ROWS: [Row; 7] = [
    // The n-th link has the number n, whichever number the script gives it.
    Row {
        script: Script {
            events: &[LinkEvent::Opened(7), LinkEvent::Quiet, LinkEvent::Opened(7)],
            bytes: b"",
            room: 2,
            fails: b"",
        },
        calls: &[
            Call::Open(Some(1)),
            Call::Next(8, Some(LinkEvent::Opened(2)), b""),
            Call::Next(8, Some(LinkEvent::Quiet), b""),
            Call::Open(Some(3)),
            Call::Next(8, Some(LinkEvent::Opened(4)), b""),
            Call::Next(8, Some(LinkEvent::Quiet), b""),
        ],
        taken: b"",
        kept: &[
            LinkCall::Opened(
                1,
                Addr {
                    nonce: 7,
                    ip: [127, 0, 0, 1],
                    port: 6789,
                },
            ),
            LinkCall::Opened(
                3,
                Addr {
                    nonce: 7,
                    ip: [127, 0, 0, 1],
                    port: 6789,
                },
            ),
        ],
    },
    // A piece gives the next bytes, at most as many as there is room for, and the rest at the following calls. One that is longer
    // than what is left gives what is left.
    Row {
        script: Script {
            events: &[
                LinkEvent::Opened(0),
                LinkEvent::Bytes(1, 5),
                LinkEvent::Bytes(1, 9),
            ],
            bytes: b"hello world",
            room: 0,
            fails: b"",
        },
        calls: &[
            Call::Next(1, Some(LinkEvent::Opened(1)), b""),
            Call::Next(2, Some(LinkEvent::Bytes(1, 2)), b"he"),
            Call::Next(2, Some(LinkEvent::Bytes(1, 2)), b"ll"),
            Call::Next(8, Some(LinkEvent::Bytes(1, 1)), b"o"),
            Call::Next(4, Some(LinkEvent::Bytes(1, 4)), b" wor"),
            Call::Next(8, Some(LinkEvent::Bytes(1, 2)), b"ld"),
            Call::Next(8, Some(LinkEvent::Quiet), b""),
        ],
        taken: b"",
        kept: &[],
    },
    // At most so many bytes are taken, in so many calls. What doesn't fit is not taken.
    Row {
        script: Script {
            events: &[LinkEvent::Opened(1)],
            bytes: b"",
            room: 3,
            fails: b"",
        },
        calls: &[
            Call::Next(8, Some(LinkEvent::Opened(1)), b""),
            Call::Send(1, b"ab", true),
            Call::Send(1, b"cd", false),
            Call::Send(1, b"c", true),
            Call::Send(1, b"d", false),
            Call::Listen(true),
            Call::Listen(false),
            Call::Open(None),
            Call::Send(1, b"", false),
            Call::Shut(1),
        ],
        taken: b"abc",
        kept: &[
            LinkCall::Sent(1, 2),
            LinkCall::Sent(1, 1),
            LinkCall::Listened(Addr {
                nonce: 7,
                ip: [127, 0, 0, 1],
                port: 6789,
            }),
            LinkCall::Shut(1),
        ],
    },
    // The calls that can fail are counted from 1, and those that are listed fail and do nothing.
    Row {
        script: Script {
            events: &[LinkEvent::Opened(1), LinkEvent::Bytes(1, 1)],
            bytes: b"a",
            room: 9,
            fails: &[2, 4, 5, 7],
        },
        calls: &[
            Call::Listen(true),
            Call::Next(8, None, b""),
            Call::Next(8, Some(LinkEvent::Opened(1)), b""),
            Call::Send(1, b"b", false),
            Call::Open(None),
            Call::Shut(9),
            Call::Open(Some(2)),
            Call::Listen(false),
            Call::Next(8, Some(LinkEvent::Bytes(1, 1)), b"a"),
            Call::Send(2, b"c", true),
        ],
        taken: b"c",
        kept: &[
            LinkCall::Listened(Addr {
                nonce: 7,
                ip: [127, 0, 0, 1],
                port: 6789,
            }),
            LinkCall::Opened(
                2,
                Addr {
                    nonce: 7,
                    ip: [127, 0, 0, 1],
                    port: 6789,
                },
            ),
            LinkCall::Sent(2, 1),
        ],
    },
    // An event on a link that isn't there yet or is gone is none, and gives no byte.
    Row {
        script: Script {
            events: &[
                LinkEvent::Gone(1),
                LinkEvent::Bytes(1, 1),
                LinkEvent::Opened(1),
                LinkEvent::Bytes(2, 1),
                LinkEvent::Bytes(1, 1),
                LinkEvent::Gone(1),
                LinkEvent::Bytes(1, 1),
                LinkEvent::Gone(1),
            ],
            bytes: b"abc",
            room: 0,
            fails: b"",
        },
        calls: &[
            Call::Next(8, Some(LinkEvent::Quiet), b""),
            Call::Next(8, Some(LinkEvent::Quiet), b""),
            Call::Next(8, Some(LinkEvent::Opened(1)), b""),
            Call::Next(8, Some(LinkEvent::Quiet), b""),
            Call::Next(8, Some(LinkEvent::Bytes(1, 1)), b"a"),
            Call::Next(8, Some(LinkEvent::Gone(1)), b""),
            Call::Next(8, Some(LinkEvent::Quiet), b""),
            Call::Next(8, Some(LinkEvent::Quiet), b""),
            Call::Shut(1),
        ],
        taken: b"",
        kept: &[],
    },
    // The rest of a piece on a link that was shut is none, and its bytes are those of the next piece. To shut a link that lives
    // always fits.
    Row {
        script: Script {
            events: &[
                LinkEvent::Opened(1),
                LinkEvent::Bytes(1, 4),
                LinkEvent::Opened(2),
                LinkEvent::Bytes(2, 2),
            ],
            bytes: b"abcde",
            room: 0,
            fails: b"",
        },
        calls: &[
            Call::Next(8, Some(LinkEvent::Opened(1)), b""),
            Call::Next(2, Some(LinkEvent::Bytes(1, 2)), b"ab"),
            Call::Shut(1),
            Call::Next(2, Some(LinkEvent::Quiet), b""),
            Call::Next(2, Some(LinkEvent::Opened(2)), b""),
            Call::Next(2, Some(LinkEvent::Bytes(2, 2)), b"cd"),
            Call::Shut(1),
            Call::Shut(2),
            Call::Shut(3),
        ],
        taken: b"",
        kept: &[LinkCall::Shut(1), LinkCall::Shut(2)],
    },
    // A piece with no byte left to give is none.
    Row {
        script: Script {
            events: &[
                LinkEvent::Opened(1),
                LinkEvent::Bytes(1, 0),
                LinkEvent::Bytes(1, 1),
                LinkEvent::Bytes(1, 1),
                LinkEvent::Gone(1),
            ],
            bytes: b"a",
            room: 0,
            fails: b"",
        },
        calls: &[
            Call::Next(8, Some(LinkEvent::Opened(1)), b""),
            Call::Next(8, Some(LinkEvent::Quiet), b""),
            Call::Next(8, Some(LinkEvent::Bytes(1, 1)), b"a"),
            Call::Next(8, Some(LinkEvent::Quiet), b""),
            Call::Next(8, Some(LinkEvent::Gone(1)), b""),
        ],
        taken: b"",
        kept: &[],
    },
];

fn items(rt: &impl Abort, alloc: Global, events: &[LinkEvent]) -> Items<LinkEvent> {
    let mut items = Items::new(alloc);
    for event in events {
        items.push(alloc, *event).expect(rt, "memory is ample");
    }
    items
}

fn blob(rt: &impl Abort, alloc: Global, bytes: &[u8]) -> Blob {
    Blob::of(alloc, bytes).expect(rt, "memory is ample")
}

fn links(rt: &impl Abort, alloc: Global, script: &Script) -> ScriptLinks {
    let events = items(rt, alloc, script.events);
    let bytes = blob(rt, alloc, script.bytes);
    let fails = blob(rt, alloc, script.fails);
    let room = script.room;
    assert!(rt; events.all().len() < 100 && room < 100);
    ScriptLinks::new(alloc, events, bytes, room, fails).expect(rt, "memory is ample")
}

/// Whether this event comes into so much room, and with it these bytes; none where the call is to fail.
fn comes<L: Links>(links: &mut L, room: usize, wanted: Option<LinkEvent>, bytes: &[u8]) -> bool {
    let mut buffer = [0; 8];
    if room == 0 || 8 < room {
        return false;
    }
    let event = links.next(&mut buffer[..room]).ok();
    event == wanted && buffer.starts_with(bytes)
}

/// Whether the call answers what it is to answer.
fn answers<L: Links>(links: &mut L, call: &Call) -> bool {
    match call {
        Call::Listen(wanted) => links.listen(&AT).is_ok() == *wanted,
        Call::Open(wanted) => links.open(&AT).ok() == *wanted,
        Call::Next(room, wanted, bytes) => comes(links, *room, *wanted, bytes),
        Call::Send(link, bytes, wanted) => links.send(*link, bytes).is_ok() == *wanted,
        Call::Shut(link) => {
            links.shut(*link);
            true
        }
    }
}

/// The number of the first call, from 1, that answers something else; 0 where there is none.
fn first_wrong<L: Links>(links: &mut L, calls: &[Call]) -> usize {
    for (i, call) in calls.iter().enumerate() {
        if !answers(links, call) {
            return i + 1;
        }
    }
    0
}

fn check(rt: &impl Abort, alloc: Global, number: usize, row: &Row) {
    let mut links = links(rt, alloc, &row.script);
    let wrong = first_wrong(&mut links, row.calls);
    assert!(rt; wrong == 0, "row {number}, call {wrong}");
    assert!(rt; links.taken() == row.taken, "row {number}");
    assert!(rt; links.calls() == row.kept, "row {number}");
}

#[test]
fn calls_answer_and_take_what_the_rows_say(rt: HostRuntime) {
    for (number, row) in ROWS.iter().enumerate() {
        check(&rt, rt.alloc(), number, row);
    }
}
