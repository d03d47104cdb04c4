//! Scripts of nodes: that those of each kind of node are read, and which fault of which word a bad line has, with its sentence.

use cx_base::{Duplicate, EntityName};
use cx_help::{LineSight, WrongInScript};
use cx_schedule::{NodeLine, NodeScript, ScheduleRefusal, read_node};
use cx_words::LineFault;
use std::alloc::Global;
use std::process::Abort;

fn named(rt: &impl Abort, alloc: Global, word: &str) -> EntityName {
    let found = cx_words::name(alloc, word.as_bytes()).expect(rt, "memory is ample");
    found.expect(rt, "a name")
}

/// The peers of each node under test: two daemons, and a client, which counts for nothing.
static PEERS: [&str; 3] = ["osd.0", "mgr.x", "client.b"];

fn peers(rt: &impl Abort, alloc: Global) -> Vec<EntityName> {
    let mut peers = Vec::new(alloc);
    for word in &PEERS {
        let pushed = peers.push(named(rt, alloc, word));
        pushed.expect(rt, "memory is ample");
    }
    peers
}

/// What is read of a text as the script of the node of this name, `mon` for the monitor, without what the contract says of it.
fn script(
    rt: &impl Abort,
    alloc: Global,
    node: &str,
    text: &str,
) -> Result<NodeScript, ScheduleRefusal> {
    let peers = peers(rt, alloc);
    if node == "mon" {
        return read_node(alloc, text.as_bytes(), None, &peers);
    }
    let name = named(rt, alloc, node);
    read_node(alloc, text.as_bytes(), Some(&name), &peers)
}

/// A node, its script, and how many lines it has.
type Good = (&'static str, &'static str, usize);

static GOOD_SCRIPTS: [Good; 5] = [
    ("mon", "", 0),
    ("mon", "gone 0\n#\n\ngone 18446744073709551615\nstop", 3),
    (
        "osd.0",
        "fetch osd.0\ndrop osd.0 1\ngone 3\nfetch osd.0\nstop\nstop",
        6,
    ),
    (
        "client.a",
        "login client.a\nlogin client.a osd,mgr\nrenew client.a osd\nconnect client.a osd.0\nconnect client.a mgr.x lossy\n\
        send client.a osd.0 exec rbd - o 6f6b\nsend client.a mgr.x read - - - -\ngone 1\nstop\n",
        9,
    ),
    ("client.b", "login client.b osd", 1),
];

fn is_read(rt: &impl Abort, alloc: Global, row: &Good) -> bool {
    match script(rt, alloc, row.0, row.1) {
        Ok(script) => script.lines().len() == row.2,
        Err(_) => false,
    }
}

#[test]
fn scripts_of_each_kind_of_node_are_read(rt: HostRuntime) {
    for row in &GOOD_SCRIPTS {
        assert!(rt; is_read(&rt, rt.alloc(), row), "{}", row.1);
    }
}

/// The copy of what is read of a script of the monitor.
fn copied(rt: &impl Abort, alloc: Global, text: &str) -> NodeScript {
    let read = script(rt, alloc, "mon", text).expect(rt, "a script");
    read.copy(alloc).expect(rt, "memory is ample")
}

fn is_line(script: &NodeScript, place: usize, line: &NodeLine) -> bool {
    match script.lines().get(place) {
        Some(found) => *found == *line,
        None => false,
    }
}

#[test]
fn a_script_waits_for_links_that_are_gone_and_stops(rt: HostRuntime) {
    let script = copied(&rt, rt.alloc(), "gone 2\nstop\n");
    assert!(rt; is_line(&script, 0, &NodeLine::Gone(2)));
    assert!(rt; is_line(&script, 1, &NodeLine::Stop));
}

/// A node, its script, the number of the first bad line, its first fault, the number of the word that has it, and the sentence.
type Bad = (
    &'static str,
    &'static str,
    u32,
    LineFault,
    usize,
    &'static str,
);

static BAD_SCRIPTS: [Bad; 24] = [
    (
        "mon",
        "gone 1\n\nfetch osd.0",
        3,
        LineFault::UnknownWord,
        1,
        "its first word, `fetch`, begins no line (a daemon's script has such lines, which cephx_cli daemon reads); a line of a node's script begins with fetch, login, renew, connect, send, drop, \
        gone or stop, one of the monitor's with gone or stop, and a comment with #",
    ),
    (
        "client.a",
        "tick client.a",
        1,
        LineFault::UnknownWord,
        1,
        "its first word, `tick`, begins no line (a schedule has such lines, which cephx_cli replay reads); a line of a node's script begins with fetch, login, renew, connect, send, drop, \
        gone or stop, one of the monitor's with gone or stop, and a comment with #",
    ),
    (
        "client.a",
        "do login client.a",
        1,
        LineFault::UnknownWord,
        1,
        "its first word, `do`, begins no line (a schedule has such lines, which cephx_cli replay reads); a line of a node's script begins with fetch, login, renew, connect, send, drop, \
        gone or stop, one of the monitor's with gone or stop, and a comment with #",
    ),
    (
        "client.a",
        "gone",
        1,
        LineFault::Missing,
        2,
        "it ends with `gone`, and has too few words: 2 at least are wanted; its form is: gone NUMBER, as in: gone 2, or stop, alone",
    ),
    (
        "osd.0",
        "drop osd.0",
        1,
        LineFault::Missing,
        3,
        "it ends with `osd.0`, and has too few words: 3 at least are wanted; its form is: drop DAEMON SESSION, as in: drop osd.0 1",
    ),
    (
        "mon",
        "gone 1 2",
        1,
        LineFault::Extra,
        3,
        "word 3, `2`, is one too many; its form is: gone NUMBER, as in: gone 2, or stop, alone",
    ),
    (
        "mon",
        "stop now",
        1,
        LineFault::Extra,
        2,
        "word 2, `now`, is one too many; its form is: gone NUMBER, as in: gone 2, or stop, alone",
    ),
    (
        "mon",
        "stop ",
        1,
        LineFault::Extra,
        2,
        "word 2, an empty word, is one too many (two spaces stand together, or one stands at an end of the line); its form is: \
        gone NUMBER, as in: gone 2, or stop, alone",
    ),
    (
        "client.a",
        "login client.a osd mgr",
        1,
        LineFault::Extra,
        4,
        "word 4, `mgr`, is one too many; its form is: login CLIENT or login CLIENT SERVICES, as in: login client.a osd,mgr",
    ),
    (
        "mon",
        "gone two",
        1,
        LineFault::BadNumber,
        2,
        "word 2, `two`, is no number: a number is decimal digits alone, as 1; its form is: gone NUMBER, as in: gone 2, or stop, \
        alone",
    ),
    (
        "mon",
        "gone 02",
        1,
        LineFault::BadNumber,
        2,
        "word 2, `02`, has a leading zero; write it without; its form is: gone NUMBER, as in: gone 2, or stop, alone",
    ),
    (
        "mon",
        "gone 18446744073709551616",
        1,
        LineFault::BadNumber,
        2,
        "word 2, `18446744073709551616`, is too large: a number is below 18,446,744,073,709,551,616; its form is: gone NUMBER, as \
        in: gone 2, or stop, alone",
    ),
    (
        "osd.0",
        "drop osd.1 x",
        1,
        LineFault::BadNumber,
        3,
        "word 3, `x`, is no number: a number is decimal digits alone, as 1; its form is: drop DAEMON SESSION, as in: drop osd.0 1",
    ),
    (
        "client.a",
        "login a",
        1,
        LineFault::BadName,
        2,
        "word 2, `a`, is no name: a name is a type, client, mds, osd or mgr, a point and an id of 1 to 64 letters, digits or \
        _ - . : + /, as client.admin or osd.0; its form is: login CLIENT or login CLIENT SERVICES, as in: login client.a osd,mgr",
    ),
    (
        "client.a",
        "login client.a mon",
        1,
        LineFault::BadText,
        3,
        "word 3, `mon`, is no list of services: mds, osd and mgr, joined by commas without a space, each at most once, as mds,osd; \
        its form is: login CLIENT or login CLIENT SERVICES, as in: login client.a osd,mgr",
    ),
    (
        "client.a",
        "login client.b",
        1,
        LineFault::UnknownNode,
        2,
        "word 2, `client.b`, is another node: the first name of a line is that of the node whose script it is; its form is: login \
        CLIENT or login CLIENT SERVICES, as in: login client.a osd,mgr",
    ),
    (
        "client.a",
        "connect client.b osd.9",
        1,
        LineFault::UnknownNode,
        2,
        "word 2, `client.b`, is another node: the first name of a line is that of the node whose script it is; its form is: \
        connect CLIENT DAEMON, or that with lossy behind it, as in: connect client.a osd.0",
    ),
    (
        "client.a",
        "connect client.a osd.9",
        1,
        LineFault::UnknownNode,
        3,
        "word 3, `osd.9`, is no peer: give it with its address where the node is started, as osd.0@127.0.0.1:6800; its form is: \
        connect CLIENT DAEMON, or that with lossy behind it, as in: connect client.a osd.0",
    ),
    (
        "client.a",
        "connect client.a client.b",
        1,
        LineFault::UnknownNode,
        3,
        "word 3, `client.b`, is no daemon: a daemon's name begins with mds., osd. or mgr.; its form is: connect CLIENT DAEMON, or \
        that with lossy behind it, as in: connect client.a osd.0",
    ),
    (
        "client.a",
        "send client.a mds.0 read - - - -",
        1,
        LineFault::UnknownNode,
        3,
        "word 3, `mds.0`, is no peer: give it with its address where the node is started, as osd.0@127.0.0.1:6800; its form is: \
        send CLIENT DAEMON ACCESS POOL NAMESPACE OBJECT DATA, as in: send client.a osd.0 write rbd - obj1 6869",
    ),
    (
        "client.a",
        "fetch osd.0",
        1,
        LineFault::UnknownNode,
        2,
        "word 2, `osd.0`, is another node: the first name of a line is that of the node whose script it is; its form is: fetch \
        DAEMON, as in: fetch osd.0",
    ),
    (
        "client.a",
        "drop client.a 1",
        1,
        LineFault::UnknownNode,
        2,
        "word 2, `client.a`, is no daemon: a daemon's name begins with mds., osd. or mgr.; its form is: drop DAEMON SESSION, as \
        in: drop osd.0 1",
    ),
    (
        "osd.0",
        "login osd.0",
        1,
        LineFault::UnknownNode,
        2,
        "word 2, `osd.0`, is no client: a client's name begins with client.; its form is: login CLIENT or login CLIENT SERVICES, \
        as in: login client.a osd,mgr",
    ),
    (
        "osd.0",
        "fetch mgr.x",
        1,
        LineFault::UnknownNode,
        2,
        "word 2, `mgr.x`, is another node: the first name of a line is that of the node whose script it is; its form is: fetch \
        DAEMON, as in: fetch osd.0",
    ),
];

/// The refusal of a script; none where it is read.
fn refusal(rt: &impl Abort, alloc: Global, node: &str, text: &str) -> Option<ScheduleRefusal> {
    script(rt, alloc, node, text).err()
}

fn is_bad(rt: &impl Abort, alloc: Global, row: &Bad) -> bool {
    let (node, text, number, why, word, sentence) = *row;
    match refusal(rt, alloc, node, text) {
        Some(ScheduleRefusal::BadLine { line, bad }) => {
            let sight = LineSight { bad, remark: None };
            let wrong = WrongInScript {
                kind: None,
                sight: &sight,
            };
            let told = format!(in alloc; "{}", wrong).expect(rt, "memory is ample");
            line == number
                && bad.fault.why == why
                && bad.fault.word == word
                && told.as_str() == sentence
        }
        _ => false,
    }
}

#[test]
fn the_first_fault_of_the_first_bad_line_of_a_script_is_answered_with_its_sentence(
    rt: HostRuntime,
) {
    for row in &BAD_SCRIPTS {
        assert!(rt; is_bad(&rt, rt.alloc(), row), "{}", row.1);
    }
}

fn put(rt: &impl Abort, text: &mut String, piece: &str) {
    text.push_str(piece).expect(rt, "memory is ample");
}

/// So many times this line.
fn lines(rt: &impl Abort, alloc: Global, line: &str, count: usize) -> String {
    let mut text = String::new(alloc);
    for _ in 0..count {
        put(rt, &mut text, line);
    }
    text
}

/// Whether so many of these lines are read, as so many.
fn reads(rt: &impl Abort, alloc: Global, line: &str, count: usize) -> bool {
    match script(rt, alloc, "client.a", &lines(rt, alloc, line, count)) {
        Ok(script) => script.lines().len() == count,
        Err(_) => false,
    }
}

#[test]
fn a_script_has_at_most_20000_lines(rt: HostRuntime) {
    assert!(rt; reads(&rt, rt.alloc(), "login client.a osd\n", 20_000));
    assert!(rt; !reads(&rt, rt.alloc(), "login client.a osd\n", 20_001));
}
