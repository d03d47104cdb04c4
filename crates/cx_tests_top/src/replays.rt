//! Replays: whole journals, lines beside those that send operations, and long schedules.

use crate::given::{Given, ends, replay_of, run_over, writes};
use cx_base::Sink;
use cx_top::Status;
use std::alloc::Global;
use std::process::Abort;

/// The first journal. The other worked schedules are those of `examples/`, which `examples/check` runs through the program.
pub(crate) const FIRST: &str = "entity client.a osd \"allow *\"\n\
    entity osd.0\n\
    clock 1000\n\
    fetch osd.0\n\
    login client.a osd\n\
    connect client.a osd.0\n\
    send client.a osd.0 read rbd - obj1 -\n";

pub(crate) const FIRST_JOURNAL: &str = "saved 2\n\
    issued 1 osd.0 auth 1 2 1000 44200 \"\"\n\
    fetched osd.0 1000 1,2,3\n\
    saved 3\n\
    issued 2 client.a auth 2 2 1000 44200 \"\"\n\
    issued 3 client.a osd 2 2 1000 4600 \"allow *\"\n\
    looked osd.0 3 1,2,3 1000\n\
    looked osd.0 3 1,2,3 1000\n\
    admitted osd.0 1 1 c1 client.a 2 1000 \"allow *\"\n\
    sent client.a osd.0 c1 1 read rbd - obj1 -\n\
    handled osd.0 1 1 c1 1 read rbd - obj1 - done\n\
    answered client.a osd.0 1 done\n";

/// A read and an exec, each allowed, and the journal where reads alone have a handler.
const READ_AND_EXEC: &str = "entity client.a osd \"allow *\"\n\
    entity osd.0\n\
    clock 1000\n\
    fetch osd.0\n\
    login client.a osd\n\
    connect client.a osd.0\n\
    send client.a osd.0 read rbd - o -\n\
    send client.a osd.0 exec rbd - o 6f6b\n";

const NO_EXEC: &str = "saved 2\n\
    issued 1 osd.0 auth 1 2 1000 44200 \"\"\n\
    fetched osd.0 1000 1,2,3\n\
    saved 3\n\
    issued 2 client.a auth 2 2 1000 44200 \"\"\n\
    issued 3 client.a osd 2 2 1000 4600 \"allow *\"\n\
    looked osd.0 3 1,2,3 1000\n\
    looked osd.0 3 1,2,3 1000\n\
    admitted osd.0 1 1 c1 client.a 2 1000 \"allow *\"\n\
    sent client.a osd.0 c1 1 read rbd - o -\n\
    handled osd.0 1 1 c1 1 read rbd - o - done\n\
    answered client.a osd.0 1 done\n\
    sent client.a osd.0 c1 2 exec rbd - o 6f6b\n\
    handled osd.0 1 1 c1 2 exec rbd - o 6f6b no-handler\n\
    answered client.a osd.0 2 no-handler\n";

#[test]
fn an_operation_without_a_handler_is_told_in_both_lines(rt: HostRuntime) {
    let given = replay_of(READ_AND_EXEC.as_bytes());
    assert!(rt; writes(&rt, rt.alloc(), &given, Status::Done, NO_EXEC));
}

#[test]
fn the_first_replay_has_ample_memory(rt: HostRuntime) {
    let given = replay_of(FIRST.as_bytes());
    assert!(rt; writes(&rt, rt.alloc(), &given, Status::Done, FIRST_JOURNAL));
}

/// Each form of line that the first schedules don't have.
static OTHER_LINES: [&str; 21] = [
    "seed mon 1",
    "modes client.a crc",
    "leak client.a",
    "clock mon 1",
    "renew client.a osd",
    "connect client.a osd.0 lossy",
    "do login client.a",
    "do fetch osd.0",
    "do renew client.a osd",
    "do connect client.a osd.0",
    "drop osd.0 1",
    "tick mon",
    "carry 1 c",
    "lose 1 c",
    "inject 1 c 00",
    "again 1 c 1 1",
    "cut 1",
    "restart mon",
    "restart osd.0",
    "failsave old",
    "settle",
];

/// Whether a schedule of this line and an operation that is sent, below two entities, is replayed.
fn is_replayed(rt: &impl Abort, alloc: Global, line: &str) -> bool {
    let input = format!(in alloc;
        "entity client.a\n\nentity osd.0\n{line}\nsend client.a osd.0 read p n o -\n"
    ).expect(rt, "memory");
    let given = replay_of(input.as_bytes());
    ends(rt, alloc, &given, Status::Done)
}

#[test]
fn every_line_is_served_beside_a_send_line(rt: HostRuntime) {
    for line in &OTHER_LINES {
        assert!(rt; is_replayed(&rt, rt.alloc(), line), "{}", line);
    }
}

/// An operation that is sent without a session, and no settling.
const DO_SEND: &str = "entity client.a\nentity osd.0\ndo send client.a osd.0 read p n o -\n";

#[test]
fn an_operation_is_sent_without_settling(rt: HostRuntime) {
    let given = replay_of(DO_SEND.as_bytes());
    assert!(rt;
        writes(
            &rt,
            rt.alloc(),
            &given,
            Status::Done,
            "refused client.a 0 no-session\n"
        )
    );
}

/// Two clients with one seed draw one challenge.
const ONE_SEED: &str =
    "entity client.a\nentity client.b\nseed client.a 5\nseed client.b 5\nclock 1000\nlogin client.a\nlogin client.b\n";

#[test]
fn a_breach_stands_behind_the_journal(rt: HostRuntime) {
    let (status, sink) = run_over(&rt, rt.alloc(), &replay_of(ONE_SEED.as_bytes()));
    assert!(rt; status == Status::Broken);
    assert!(rt;
        sink.taken()
            .ends_with(b"broken draw client.b challenge 7\n")
    );
}

/// How the lines of a long schedule come: so many logins for three services, connects of fifty clients to fifty daemons, and
/// sends of one client.
struct Long {
    logins: u32,
    connects: u32,
    sends: u32,
}

fn put_entities(rt: &impl Abort, alloc: Global, text: &mut String, id: u32) {
    let lines = format!(in alloc;
        "entity client.{id} mds \"allow *\" osd \"allow *\" mgr \"allow *\"\nentity osd.{id}\n"
    ).expect(rt, "memory");
    text.push_str(&lines).expect(rt, "memory");
}

fn put_fetch(rt: &impl Abort, alloc: Global, text: &mut String, daemon: u32) {
    let line = format!(in alloc; "fetch osd.{daemon}\n").expect(rt, "memory");
    text.push_str(&line).expect(rt, "memory");
}

fn put_login(rt: &impl Abort, alloc: Global, text: &mut String, client: u32) {
    let line = format!(in alloc; "login client.{client} mds,osd,mgr\n").expect(rt, "memory");
    text.push_str(&line).expect(rt, "memory");
}

fn put_connect(rt: &impl Abort, alloc: Global, text: &mut String, client: u32, daemon: u32) {
    let line = format!(in alloc; "connect client.{client} osd.{daemon}\n").expect(rt, "memory");
    text.push_str(&line).expect(rt, "memory");
}

fn put_send(rt: &impl Abort, alloc: Global, text: &mut String, turn: u32) {
    let line = format!(in alloc; "send client.0 osd.0 read p - o{turn} -\n").expect(rt, "memory");
    text.push_str(&line).expect(rt, "memory");
}

/// Fifty clients and fifty daemons that fetched.
fn fetched(rt: &impl Abort, alloc: Global) -> String {
    let mut text = String::new(alloc);
    for id in 0..50 {
        put_entities(rt, alloc, &mut text, id);
    }
    for id in 0..50 {
        put_fetch(rt, alloc, &mut text, id);
    }
    text
}

/// These entities, and then these lines.
fn long_schedule(rt: &impl Abort, alloc: Global, long: &Long) -> String {
    let mut text = fetched(rt, alloc);
    for turn in 0..long.logins {
        put_login(rt, alloc, &mut text, turn % 50);
    }
    for turn in 0..long.connects {
        put_connect(rt, alloc, &mut text, turn % 50, turn / 50);
    }
    for turn in 0..long.sends {
        put_send(rt, alloc, &mut text, turn);
    }
    text
}

const MANY_LOGINS: Long = Long {
    logins: 17_348,
    connects: 2_500,
    sends: 2,
};

const MANY_SENDS: Long = Long {
    logins: 50,
    connects: 2_500,
    sends: 17_300,
};

const LAST_LOGINS: &str = "answered client.0 osd.0 2 done\n";

const LAST_SENDS: &str = "sent client.0 osd.0 c1 17300 read p - o17299 -\n\
    handled osd.0 1 1 c1 17300 read p - o17299 - done\n\
    answered client.0 osd.0 17300 done\n";

/// How many lines a text has.
fn count_lines(text: &[u8]) -> usize {
    text.iter().filter(|byte| **byte == b'\n').count()
}

/// Whether the journal of a long schedule has so many lines and ends so.
fn has_lines(rt: &impl Abort, alloc: Global, long: &Long, lines: usize, last: &str) -> bool {
    let schedule = long_schedule(rt, alloc, long);
    let given = Given {
        room: 16_777_216,
        ..replay_of(schedule.as_bytes())
    };
    let (status, sink) = run_over(rt, alloc, &given);
    let text = sink.taken();
    status == Status::Done && count_lines(text) == lines && text.ends_with(last.as_bytes())
}

// Each of the fifty fetches has three lines, a client's first login five and each other one four, a connect three, and a
// send three.
#[test]
fn schedules_of_20_000_lines_are_replayed(rt: HostRuntime) {
    assert!(rt; has_lines(&rt, rt.alloc(), &MANY_LOGINS, 77_098, LAST_LOGINS));
    assert!(rt; has_lines(&rt, rt.alloc(), &MANY_SENDS, 59_800, LAST_SENDS));
}
