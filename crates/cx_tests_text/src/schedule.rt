//! Schedules: that a file of all forms and the longest one are read, which fault of which word a bad line has, and the limits.

use cx_base::Duplicate;
use cx_schedule::{ScheduleRefusal, Script, read};
use cx_words::LineFault;
use std::alloc::Global;
use std::process::Abort;

/// A schedule of all forms, with a comment, an empty line and no last LF.
const ALL_FORMS: &str =
    "#\tany \u{e9}\nlifetime 1\nauth-lifetime 31536000\n\nentity client.a mon \"allow r pool=rbd, profile rbd\" osd \"\"\nentity osd.0\n\
    seed mon 18446744073709551615\nseed client.a 0\nmodes client.a crc,secure\nleak client.a\n\
    clock 12.000000005\nclock mon 0\nclock osd.0 1\nfetch osd.0\nlogin client.a\nlogin client.a osd,mgr\nrenew client.a mds\n\
    connect client.a osd.0\nconnect client.a osd.0 lossy\n\
    send client.a osd.0 write rbd - o 00Ff\nsend client.a osd.0 read - - - -\n\
    do fetch osd.0\ndo login client.a\ndo renew client.a osd\ndo connect client.a osd.0 lossy\ndo send client.a osd.0 exec p n o -\n\
    drop osd.0 1\ntick mon\ntick osd.0\ncarry 1 c\ncarry 1 a 0\nlose 2 a\ninject 1 c -\ninject 1 a 0aB0\nagain 1 c 2 3\ncut 4\n\
    restart mon\nrestart client.a\nfailsave old\nfailsave new\nsettle";

/// What is read of a text, without what the contract says of it.
fn script(alloc: Global, text: &str) -> Result<Script, ScheduleRefusal> {
    read(alloc, text.as_bytes())
}

fn good_script(rt: &impl Abort, alloc: Global, text: &str) -> Script {
    script(alloc, text).expect(rt, "a schedule")
}

/// How many lines a schedule has.
fn count(script: &Script) -> usize {
    script.lines().len()
}

/// Whether a schedule's first line has this number.
fn begins_at(script: &Script, number: u32) -> bool {
    match script.lines().first() {
        Some(line) => line.number == number,
        None => false,
    }
}

/// Whether a schedule's last line has this number.
fn ends_at(script: &Script, number: u32) -> bool {
    match script.lines().last() {
        Some(line) => line.number == number,
        None => false,
    }
}

#[test]
fn a_schedule_of_all_forms_is_read(rt: HostRuntime) {
    let script = good_script(&rt, rt.alloc(), ALL_FORMS);
    assert!(rt; count(&script) == 39);
    assert!(rt; begins_at(&script, 2));
    assert!(rt; ends_at(&script, 41));
}

/// What stands above the lines under test: three lines.
const DECLARED: &str =
    "entity client.a mon \"allow *\" osd \"allow *\"\nentity osd.0\nentity mgr.x\n";

/// Lines below the declarations, the number of the first bad one, its first fault and the number of the word that has it.
type Bad = (&'static str, u32, LineFault, usize);

static BAD_LINES: [Bad; 107] = [
    ("fly client.a", 4, LineFault::UnknownWord, 1),
    ("login", 4, LineFault::Missing, 2),
    (
        "send client.a osd.0 read rbd - obj1",
        4,
        LineFault::Missing,
        8,
    ),
    ("entity mds.a osd", 4, LineFault::Missing, 4),
    ("connect client.a osd.0 lossy x", 4, LineFault::Extra, 5),
    ("clock 1.5", 4, LineFault::BadNumber, 2),
    ("lifetime 0", 4, LineFault::BadNumber, 2),
    ("lifetime 31536001", 4, LineFault::BadNumber, 2),
    ("fetch osd", 4, LineFault::BadName, 2),
    ("connect client osd", 4, LineFault::BadName, 2),
    ("connect client.a osd", 4, LineFault::BadName, 3),
    ("login client.a osd,osd", 4, LineFault::BadText, 3),
    ("entity mds.a osd allow", 4, LineFault::BadText, 4),
    ("entity mds.a osd \"a\\b\"", 4, LineFault::BadText, 4),
    ("entity mds.a osd \"\u{7f}\"", 4, LineFault::BadText, 4),
    (
        "entity mds.a osd \"allow *\" auth \"allow *\"",
        4,
        LineFault::BadText,
        5,
    ),
    (
        "send client.a osd.0 erase p n o -",
        4,
        LineFault::BadText,
        4,
    ),
    (
        "send client.a osd.0 read p/n - o -",
        4,
        LineFault::BadText,
        5,
    ),
    (
        "send client.a osd.0 read p n o 123",
        4,
        LineFault::BadText,
        8,
    ),
    ("login client.b", 4, LineFault::UnknownNode, 2),
    ("login osd.0", 4, LineFault::UnknownNode, 2),
    ("connect client.a osd.1", 4, LineFault::UnknownNode, 3),
    ("connect client.b osd.1", 4, LineFault::UnknownNode, 2),
    ("entity mon.a", 4, LineFault::UnknownNode, 2),
    ("entity osd.0", 4, LineFault::Repeated, 2),
    ("lifetime 1\n\n#\nlifetime 1", 7, LineFault::Repeated, 1),
    (
        "entity mds.a osd \"allow *\" mon \"allow *\" osd \"allow *\"",
        4,
        LineFault::Repeated,
        7,
    ),
    ("clock 1\nentity mds.a", 5, LineFault::Order, 1),
    ("clock 1\nentity osd.0", 5, LineFault::Repeated, 2),
    ("connect client osd.9 x y", 4, LineFault::Extra, 5),
    (
        "send client.b osd.0 write p n o 0\nfly",
        4,
        LineFault::BadText,
        8,
    ),
    ("clock 01", 4, LineFault::BadNumber, 2),
    ("clock  1", 4, LineFault::BadName, 2),
    ("clock 1 ", 4, LineFault::BadNumber, 3),
    ("clock\t1", 4, LineFault::UnknownWord, 1),
    ("entity mds.a osd \"allow *", 4, LineFault::Missing, 6),
    ("fetch osd.", 4, LineFault::BadName, 2),
    (
        "fetch osd.aaaaaaaaaaaaaaaaaaaaaaaaaaaaaaaaaaaaaaaaaaaaaaaaaaaaaaaaaaaaaaaaa",
        4,
        LineFault::BadName,
        2,
    ),
    ("clock 4000000000", 4, LineFault::BadNumber, 2),
    ("clock 1\r", 4, LineFault::BadNumber, 2),
    ("login client.\u{e9}", 4, LineFault::BadName, 2),
    (" # no comment", 4, LineFault::UnknownWord, 1),
    ("clock \"1 2\"", 4, LineFault::BadNumber, 3),
    ("seed mon", 4, LineFault::Missing, 3),
    ("seed mon 1 2", 4, LineFault::Extra, 4),
    ("seed mon x", 4, LineFault::BadNumber, 3),
    ("seed mon 18446744073709551616", 4, LineFault::BadNumber, 3),
    ("seed mo 1", 4, LineFault::BadName, 2),
    ("seed mon. 1", 4, LineFault::UnknownNode, 2),
    ("seed osd.1 1", 4, LineFault::UnknownNode, 2),
    ("seed osd.0 1\nseed osd.0 2", 5, LineFault::Repeated, 2),
    ("seed mon 1\nseed mon 1", 5, LineFault::Repeated, 2),
    ("settle\nseed mon 1", 5, LineFault::Order, 1),
    ("modes client.a", 4, LineFault::Missing, 3),
    ("modes client.a secure,crc", 4, LineFault::BadText, 3),
    ("modes osd.0 crc", 4, LineFault::UnknownNode, 2),
    (
        "modes client.a crc\nmodes client.a secure",
        5,
        LineFault::Repeated,
        2,
    ),
    ("tick mon\nmodes client.a crc", 5, LineFault::Order, 1),
    ("leak", 4, LineFault::Missing, 2),
    ("leak osd.0", 4, LineFault::UnknownNode, 2),
    ("leak client.a\nleak client.a", 5, LineFault::Repeated, 2),
    ("cut 1\nleak client.a", 5, LineFault::Order, 1),
    ("leak client", 4, LineFault::BadName, 2),
    ("clock mon", 4, LineFault::BadNumber, 2),
    ("clock mgr.y 1", 4, LineFault::UnknownNode, 2),
    ("clock osd.0 1 2", 4, LineFault::Extra, 4),
    ("renew client.a", 4, LineFault::Missing, 3),
    ("renew client.a mon", 4, LineFault::BadText, 3),
    ("renew osd.0 osd", 4, LineFault::UnknownNode, 2),
    ("connect client.a osd.0 lossly", 4, LineFault::BadText, 4),
    ("drop osd.0", 4, LineFault::Missing, 3),
    ("drop osd.0 -1", 4, LineFault::BadNumber, 3),
    ("drop client.a 1", 4, LineFault::UnknownNode, 2),
    ("tick", 4, LineFault::Missing, 2),
    ("tick mgr", 4, LineFault::BadName, 2),
    ("tick client.b", 4, LineFault::UnknownNode, 2),
    ("do", 4, LineFault::Missing, 2),
    ("do fly x y z", 4, LineFault::BadText, 2),
    ("do do login client.a", 4, LineFault::BadText, 2),
    ("do carry 1 c", 4, LineFault::BadText, 2),
    ("do login", 4, LineFault::Missing, 3),
    ("do login client.a osd x", 4, LineFault::Extra, 5),
    ("do login client.b", 4, LineFault::UnknownNode, 3),
    ("do connect client.a osd.0 x", 4, LineFault::BadText, 5),
    (
        "do send client.a osd.0 read p n o 0",
        4,
        LineFault::BadText,
        9,
    ),
    ("carry 1", 4, LineFault::Missing, 3),
    ("carry x c", 4, LineFault::BadNumber, 2),
    ("carry 1 b", 4, LineFault::BadText, 3),
    ("carry 1 c 2 3", 4, LineFault::Extra, 5),
    ("carry 1 b x", 4, LineFault::BadNumber, 4),
    ("carry 01 c", 4, LineFault::BadNumber, 2),
    ("lose 1 ca", 4, LineFault::BadText, 3),
    ("lose 1", 4, LineFault::Missing, 3),
    ("inject 1 c", 4, LineFault::Missing, 4),
    ("inject 1 c 0", 4, LineFault::BadText, 4),
    ("inject 1 x 0", 4, LineFault::BadText, 3),
    ("again 1 c 2", 4, LineFault::Missing, 5),
    ("again 1 c x 3", 4, LineFault::BadNumber, 4),
    ("again 1 c 2 y", 4, LineFault::BadNumber, 5),
    ("cut", 4, LineFault::Missing, 2),
    ("cut c", 4, LineFault::BadNumber, 2),
    ("restart osd.1", 4, LineFault::UnknownNode, 2),
    ("restart mon mon", 4, LineFault::Extra, 3),
    ("failsave", 4, LineFault::Missing, 2),
    ("failsave never", 4, LineFault::BadText, 2),
    ("settle 1", 4, LineFault::Extra, 2),
    ("settled", 4, LineFault::UnknownWord, 1),
];

/// These lines below the declarations.
fn below(rt: &impl Abort, alloc: Global, lines: &str) -> String {
    let text = format!(in alloc; "{}{}", DECLARED, lines);
    text.expect(rt, "memory is ample")
}

/// The refusal of these lines below the declarations; none where they are read.
fn refusal(rt: &impl Abort, alloc: Global, lines: &str) -> Option<ScheduleRefusal> {
    script(alloc, &below(rt, alloc, lines)).err()
}

fn is_bad(rt: &impl Abort, alloc: Global, row: &Bad) -> bool {
    let (lines, number, why, word) = *row;
    match refusal(rt, alloc, lines) {
        Some(ScheduleRefusal::BadLine { line, bad }) => {
            line == number && bad.fault.why == why && bad.fault.word == word
        }
        _ => false,
    }
}

#[test]
fn the_first_fault_of_the_first_bad_line_is_answered_with_its_word(rt: HostRuntime) {
    for row in &BAD_LINES {
        assert!(rt; is_bad(&rt, rt.alloc(), row), "{}", row.0);
    }
}

fn put(rt: &impl Abort, text: &mut String, piece: &str) {
    text.push_str(piece).expect(rt, "memory is ample");
}

/// What stands before a piece, the piece, what stands behind it, and how many of it are read at most.
type Limit = (&'static str, &'static str, &'static str, usize);

static LIMITS: [Limit; 4] = [
    ("", "#", "", 1_048_576),
    ("", "\n", "", 20_000),
    ("entity mds.a osd \"", "~", "\"", 4_096),
    (
        "entity client.a\nentity osd.0\nsend client.a osd.0 write p n o ",
        "0a",
        "",
        65_536,
    ),
];

/// So many times the piece of a row between its two texts.
fn text_of(rt: &impl Abort, alloc: Global, row: &Limit, count: usize) -> String {
    let mut text = String::new(alloc);
    put(rt, &mut text, row.0);
    for _ in 0..count {
        put(rt, &mut text, row.1);
    }
    put(rt, &mut text, row.2);
    text
}

/// Whether a schedule of so many times the piece of a row between its two texts is read.
fn reads(rt: &impl Abort, alloc: Global, row: &Limit, count: usize) -> bool {
    script(alloc, &text_of(rt, alloc, row, count)).is_ok()
}

fn is_limit(rt: &impl Abort, alloc: Global, row: &Limit) -> bool {
    reads(rt, alloc, row, row.3) && !reads(rt, alloc, row, row.3.saturating_add(1))
}

#[test]
fn the_limits_are_met_at_their_last_values(rt: HostRuntime) {
    for row in &LIMITS {
        assert!(rt; is_limit(&rt, rt.alloc(), row), "{} {}", row.1, row.3);
    }
}

fn put_entities(rt: &impl Abort, text: &mut String, id: u32) {
    let written = write!(
        text,
        "entity client.{id} osd \"allow *\"\nentity osd.{id}\n"
    );
    written.expect(rt, "memory is ample");
}

fn put_connect(rt: &impl Abort, text: &mut String, id: u32) {
    let written = write!(text, "login client.{id} osd\nconnect client.{id} osd.0\n");
    written.expect(rt, "memory is ample");
}

fn put_send(rt: &impl Abort, text: &mut String, id: u32, round: u32) {
    let written = write!(text, "send client.{id} osd.0 read p - o {round:06}\n");
    written.expect(rt, "memory is ample");
}

/// A thousand entities.
fn put_all_entities(rt: &impl Abort, text: &mut String) {
    for id in 0..500 {
        put_entities(rt, text, id);
    }
}

/// Rounds of a login, a connect and a send.
fn put_rounds(rt: &impl Abort, text: &mut String) {
    for round in 0..6_333 {
        put_connect(rt, text, round % 500);
        put_send(rt, text, round % 500, round);
    }
}

/// A schedule of 20,000 lines: a thousand entities, a reading, and rounds of a login, a connect and a send.
fn longest(rt: &impl Abort, alloc: Global) -> String {
    let mut text = String::new(alloc);
    put_all_entities(rt, &mut text);
    put(rt, &mut text, "clock 1\n");
    put_rounds(rt, &mut text);
    text
}

/// How many lines the copy of what is read has.
fn lines_copied(rt: &impl Abort, alloc: Global, text: &str) -> usize {
    let script = good_script(rt, alloc, text);
    let copied = script.copy(alloc).expect(rt, "memory is ample");
    count(&copied)
}

#[test]
fn the_longest_schedule_is_read_and_copied(rt: HostRuntime) {
    let text = longest(&rt, rt.alloc());
    assert!(rt; lines_copied(&rt, rt.alloc(), &text) == 20_000);
}
