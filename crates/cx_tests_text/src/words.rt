//! Lines and words: that the definitions are those of a schedule's, at the ends of what each takes.

use cx_base::{Blob, EntityName, EntityType, Items, Text};
use cx_words::{caps, first_line, hex, name, number, part, reading, services, words};
use std::alloc::Global;
use std::process::Abort;

/// Bytes, and their lines, each with a stroke behind it.
type Cut = (&'static [u8], &'static [u8]);

static LINES: [Cut; 5] = [
    (b"", b""),
    (b"a\n\n", b"a||"),
    (b"a\nb", b"a|b|"),
    (b"\n", b"|"),
    (b"#a\r\n b ", b"#a\r| b |"),
];

fn append(rt: &impl Abort, alloc: Global, all: &mut Blob, bytes: &[u8]) {
    all.append(alloc, bytes).expect(rt, "memory is ample");
}

fn put(rt: &impl Abort, alloc: Global, all: &mut Blob, piece: &[u8]) {
    append(rt, alloc, all, piece);
    append(rt, alloc, all, b"|");
}

/// The first line and what stands behind it, without what the contract says of them.
fn cut(bytes: &[u8]) -> Option<(&[u8], &[u8])> {
    first_line(bytes)
}

/// The first ten lines.
fn lines_of(rt: &impl Abort, alloc: Global, bytes: &[u8]) -> Blob {
    let mut all = Blob::new(alloc);
    let mut rest = bytes;
    for _ in 0..10 {
        if let Some((line, behind)) = cut(rest) {
            put(rt, alloc, &mut all, line);
            rest = behind;
        }
    }
    all
}

fn is_cut(rt: &impl Abort, alloc: Global, row: &Cut) -> bool {
    lines_of(rt, alloc, row.0).bytes() == row.1
}

#[test]
fn the_last_line_needs_no_line_end_and_an_empty_line_counts(rt: HostRuntime) {
    for row in &LINES {
        assert!(rt; is_cut(&rt, rt.alloc(), row), "{:?}", row.0);
    }
}

/// A line, and its words, each with a stroke behind it, where quotation marks group nothing.
static WORDS: [Cut; 4] = [
    (b"", b"|"),
    (b"send a b", b"send|a|b|"),
    (b" a  b ", b"|a||b||"),
    (b"a \"b c\"", b"a|\"b|c\"|"),
];

/// The same where they group.
static GROUPED: [Cut; 4] = [
    (b"a \"b c\" d", b"a|\"b c\"|d|"),
    (b"a \"b c", b"a|\"b|c|"),
    (b"\"a \"b \" c", b"\"a \"b|\"|c|"),
    (b"a\tb", b"a\tb|"),
];

fn put_words(rt: &impl Abort, alloc: Global, all: &mut Blob, words: &[&[u8]]) {
    for word in words {
        put(rt, alloc, all, word);
    }
}

fn words_of(rt: &impl Abort, alloc: Global, groups: bool, line: &[u8]) -> Blob {
    let mut all = Blob::new(alloc);
    let found = words(alloc, groups, line).expect(rt, "memory is ample");
    put_words(rt, alloc, &mut all, &found);
    all
}

fn is_parted(rt: &impl Abort, alloc: Global, groups: bool, row: &Cut) -> bool {
    words_of(rt, alloc, groups, row.0).bytes() == row.1
}

#[test]
fn one_blank_parts_words_and_closed_quotation_marks_group(rt: HostRuntime) {
    for row in &WORDS {
        assert!(rt; is_parted(&rt, rt.alloc(), false, row), "{:?}", row.0);
    }
    for row in &GROUPED {
        assert!(rt; is_parted(&rt, rt.alloc(), true, row), "{:?}", row.0);
    }
}

/// A word, and the number that it spells, if it spells one.
type Number = (&'static [u8], Option<u64>);

static NUMBERS: [Number; 11] = [
    (b"0", Some(0)),
    (b"7", Some(7)),
    (b"31536000", Some(31536000)),
    (b"18446744073709551615", Some(18446744073709551615)),
    (b"18446744073709551616", None),
    (b"", None),
    (b"00", None),
    (b"07", None),
    (b"+7", None),
    (b"-7", None),
    (b"7a", None),
];

fn is_number(row: &Number) -> bool {
    number(row.0) == row.1
}

#[test]
fn a_number_has_no_sign_and_no_leading_zero_and_is_below_2_to_the_64(rt: HostRuntime) {
    for row in &NUMBERS {
        assert!(rt; is_number(row), "{:?}", row.0);
    }
}

static READINGS: [Number; 12] = [
    (b"0", Some(0)),
    (b"1000", Some(1_000_000_000_000)),
    (b"1.000000000", Some(1_000_000_000)),
    (b"12.000000345", Some(12_000_000_345)),
    (b"3999999999.999999999", Some(3_999_999_999_999_999_999)),
    (b"4000000000", None),
    (b"4000000000.000000000", None),
    (b"1.", None),
    (b"1.00000000", None),
    (b"1.0000000000", None),
    (b".000000000", None),
    (b"01.000000000", None),
];

fn is_reading(row: &Number) -> bool {
    reading(row.0) == row.1
}

#[test]
fn a_reading_is_seconds_or_seconds_a_point_and_nine_digits(rt: HostRuntime) {
    for row in &READINGS {
        assert!(rt; is_reading(row), "{:?}", row.0);
    }
}

/// A word, and whether it is one of its kind.
type Word = (&'static [u8], bool);

/// Whether what was read of a word, printed as it stands, is the word where the row says so, and nothing else.
fn is_printed(row: &Word, printed: Option<String>) -> bool {
    let (word, good) = *row;
    match printed {
        Some(text) => good && text.as_bytes() == word,
        None => !good,
    }
}

static LISTS: [Word; 8] = [
    (b"mgr,mds,osd", true),
    (b"osd", true),
    (b"", false),
    (b"osd,", false),
    (b",osd", false),
    (b"osd,mds,osd", false),
    (b"mon", false),
    (b"osd, mds", false),
];

fn put_service(rt: &impl Abort, text: &mut String, kind: EntityType) {
    if !text.is_empty() {
        text.push_str(",").expect(rt, "memory is ample");
    }
    let written = write!(text, "{kind}");
    written.expect(rt, "memory is ample");
}

/// These services, joined again.
fn joined(rt: &impl Abort, alloc: Global, kinds: &[EntityType]) -> String {
    let mut text = String::new(alloc);
    for kind in kinds {
        put_service(rt, &mut text, *kind);
    }
    text
}

/// The services that a word lists.
fn services_of(rt: &impl Abort, alloc: Global, word: &[u8]) -> Option<Items<EntityType>> {
    services(alloc, word).expect(rt, "memory is ample")
}

fn is_list_right(rt: &impl Abort, alloc: Global, row: &Word) -> bool {
    match services_of(rt, alloc, row.0) {
        Some(kinds) => is_printed(row, Some(joined(rt, alloc, kinds.all()))),
        None => is_printed(row, None),
    }
}

#[test]
fn a_list_of_services_keeps_the_order_and_has_each_once(rt: HostRuntime) {
    for row in &LISTS {
        assert!(rt; is_list_right(&rt, rt.alloc(), row), "{:?}", row.0);
    }
}

static NAMES: [Word; 14] = [
    (b"mon.", true),
    (b"client.a.b-c_d:e+f/g", true),
    (b"mds.A", true),
    (b"mgr.x", true),
    (b"auth.1", true),
    (
        b"osd.aaaaaaaaaaaaaaaaaaaaaaaaaaaaaaaaaaaaaaaaaaaaaaaaaaaaaaaaaaaaaaaa",
        true,
    ),
    (
        b"osd.aaaaaaaaaaaaaaaaaaaaaaaaaaaaaaaaaaaaaaaaaaaaaaaaaaaaaaaaaaaaaaaaa",
        false,
    ),
    (b"osd.", false),
    (b"osd", false),
    (b"", false),
    (b".osd", false),
    (b"disk.0", false),
    (b"osd.a b", false),
    (b"osd.\xc3\xa9", false),
];

fn name_of(rt: &impl Abort, alloc: Global, word: &[u8]) -> Option<EntityName> {
    name(alloc, word).expect(rt, "memory is ample")
}

fn name_printed(rt: &impl Abort, alloc: Global, name: &EntityName) -> String {
    let text = format!(in alloc; "{name}");
    text.expect(rt, "memory is ample")
}

fn is_name_right(rt: &impl Abort, alloc: Global, row: &Word) -> bool {
    match name_of(rt, alloc, row.0) {
        Some(name) => is_printed(row, Some(name_printed(rt, alloc, &name))),
        None => is_printed(row, None),
    }
}

#[test]
fn a_name_is_a_type_word_a_point_and_an_id(rt: HostRuntime) {
    for row in &NAMES {
        assert!(rt; is_name_right(&rt, rt.alloc(), row), "{:?}", row.0);
    }
}

static CAPS: [Word; 11] = [
    (b"\"\"", true),
    (b"\"allow rw pool=rbd, allow r\"", true),
    (b"\"", false),
    (b"", false),
    (b"allow", false),
    (b"\"allow", false),
    (b"allow\"", false),
    (b"\"a\"b\"", false),
    (b"\"a\\b\"", false),
    (b"\"a\tb\"", false),
    (b"\"\x7f\"", false),
];

fn caps_of(rt: &impl Abort, alloc: Global, word: &[u8]) -> Option<Text> {
    caps(alloc, word).expect(rt, "memory is ample")
}

fn caps_printed(rt: &impl Abort, alloc: Global, text: &Text) -> String {
    let text = format!(in alloc; "\"{text}\"");
    text.expect(rt, "memory is ample")
}

fn are_caps_right(rt: &impl Abort, alloc: Global, row: &Word) -> bool {
    match caps_of(rt, alloc, row.0) {
        Some(text) => is_printed(row, Some(caps_printed(rt, alloc, &text))),
        None => is_printed(row, None),
    }
}

/// So many times these bytes.
fn many(rt: &impl Abort, alloc: Global, bytes: &[u8], count: usize) -> Blob {
    let mut all = Blob::new(alloc);
    for _ in 0..count {
        append(rt, alloc, &mut all, bytes);
    }
    all
}

/// Whether a text of so many bytes between quotation marks is one of caps.
fn are_caps_of(rt: &impl Abort, alloc: Global, count: usize) -> bool {
    let mut word = many(rt, alloc, b"\"", 1);
    append(rt, alloc, &mut word, many(rt, alloc, b"~", count).bytes());
    append(rt, alloc, &mut word, b"\"");
    caps_of(rt, alloc, word.bytes()).is_some()
}

#[test]
fn a_caps_text_stands_in_quotation_marks(rt: HostRuntime) {
    for row in &CAPS {
        assert!(rt; are_caps_right(&rt, rt.alloc(), row), "{:?}", row.0);
    }
    assert!(rt; are_caps_of(&rt, rt.alloc(), 4096));
    assert!(rt; !are_caps_of(&rt, rt.alloc(), 4097));
}

/// A word, and the bytes that it stands for, if it is one of its kind.
type Meaning = (&'static [u8], Option<&'static [u8]>);

fn means(row: &Meaning, found: Option<&[u8]>) -> bool {
    match (found, row.1) {
        (Some(bytes), Some(wanted)) => bytes == wanted,
        (None, None) => true,
        _ => false,
    }
}

static PARTS: [Meaning; 7] = [
    (b"-", Some(b"")),
    (b"rbd", Some(b"rbd")),
    (b"--", Some(b"--")),
    (b"_A.9-z", Some(b"_A.9-z")),
    (b"", None),
    (b"a/b", None),
    (b"\xe9", None),
];

static HEX: [Meaning; 9] = [
    (b"-", Some(b"")),
    (b"00", Some(b"\x00")),
    (b"48656C6c6f", Some(b"Hello")),
    (b"Ff", Some(b"\xff")),
    (b"", None),
    (b"4", None),
    (b"486", None),
    (b"4g", None),
    (b"--", None),
];

fn part_of(rt: &impl Abort, alloc: Global, word: &[u8]) -> Option<Text> {
    part(alloc, word).expect(rt, "memory is ample")
}

fn hex_of(rt: &impl Abort, alloc: Global, word: &[u8]) -> Option<Blob> {
    hex(alloc, word).expect(rt, "memory is ample")
}

fn is_part_right(rt: &impl Abort, alloc: Global, row: &Meaning) -> bool {
    match part_of(rt, alloc, row.0) {
        Some(text) => means(row, Some(text.bytes())),
        None => means(row, None),
    }
}

fn is_hex_right(rt: &impl Abort, alloc: Global, row: &Meaning) -> bool {
    match hex_of(rt, alloc, row.0) {
        Some(bytes) => means(row, Some(bytes.bytes())),
        None => means(row, None),
    }
}

/// Whether so many letters are a part.
fn is_part_of(rt: &impl Abort, alloc: Global, count: usize) -> bool {
    part_of(rt, alloc, many(rt, alloc, b"z", count).bytes()).is_some()
}

#[test]
fn a_part_is_a_hyphen_or_1_to_255_bytes_of_its_alphabet(rt: HostRuntime) {
    for row in &PARTS {
        assert!(rt; is_part_right(&rt, rt.alloc(), row), "{:?}", row.0);
    }
    assert!(rt; is_part_of(&rt, rt.alloc(), 255));
    assert!(rt; !is_part_of(&rt, rt.alloc(), 256));
}

#[test]
fn hex_is_a_hyphen_or_pairs_of_digits_in_either_case(rt: HostRuntime) {
    for row in &HEX {
        assert!(rt; is_hex_right(&rt, rt.alloc(), row), "{:?}", row.0);
    }
}
