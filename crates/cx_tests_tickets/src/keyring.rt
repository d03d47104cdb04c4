//! Keyrings: that the definitions are a keyring's, and each call once.

use cx_base::{Blob, Duplicate, EntityName, EntityType, Items, Text};
use cx_enc::{Key, Time};
use cx_keyring::{
    AddRefusal, Entry, Keyring, KeyringFault, KeyringRefusal, MOST_ENTRIES, parse, print,
};
use std::alloc::Global;
use std::process::Abort;

/// A key of time 0 whose bytes are 0 to 15.
const KEY: &str = "AQAAAAAAAAAAABAAAAECAwQFBgcICQoLDA0ODw==";

/// A keyring and its printed form. `KEY` stands for the key.
type Printed = (&'static str, &'static str);

static KEYRINGS: [Printed; 6] = [
    (
        "[client.vm]\nkey = KEY\ncaps mon = \"profile rbd\"\ncaps osd = \"profile rbd pool=vms, allow r pool=images\"\n",
        "[client.vm]\n\tkey = KEY\n\tcaps mon = \"profile rbd\"\n\tcaps osd = \"profile rbd pool=vms, allow r pool=images\"\n",
    ),
    ("", ""),
    (
        "# caf\u{e9}\r\n\r\n ; any = thing\r\n\t[osd.0] \r\n key=KEY \t\r\ncaps\t mon  =\tallow r, allow w\r\ncaps mgr =",
        "[osd.0]\n\tkey = KEY\n\tcaps mon = \"allow r, allow w\"\n\tcaps mgr = \"\"\n",
    ),
    ("[mon.]\nkey = KEY", "[mon.]\n\tkey = KEY\n"),
    (
        "[mgr.x]\ncaps osd = \" allow * \"\nkey = KEY\ncaps mds = a=b\n",
        "[mgr.x]\n\tkey = KEY\n\tcaps osd = \" allow * \"\n\tcaps mds = \"a=b\"\n",
    ),
    (
        "[client.a]\nkey = KEY\n[osd.a]\nkey = KEY\n",
        "[client.a]\n\tkey = KEY\n[osd.a]\n\tkey = KEY\n",
    ),
];

fn with_key(rt: &impl Abort, alloc: Global, text: &str) -> String {
    text.replace(alloc, "KEY", KEY)
        .expect(rt, "memory is ample")
}

/// What is read of a text, without what the contract says of it.
fn parsed(alloc: Global, text: &str) -> Result<Keyring, KeyringRefusal> {
    parse(alloc, text.as_bytes())
}

fn read(rt: &impl Abort, alloc: Global, text: &str) -> Keyring {
    parsed(alloc, &with_key(rt, alloc, text)).expect(rt, "a keyring")
}

/// The printed form of what is read of a text.
fn printed(rt: &impl Abort, alloc: Global, text: &str) -> Blob {
    let ring = read(rt, alloc, text);
    print(alloc, &ring).expect(rt, "memory is ample")
}

fn is_printed(rt: &impl Abort, alloc: Global, row: &Printed) -> bool {
    let printed = printed(rt, alloc, row.0);
    let wanted = with_key(rt, alloc, row.1);
    printed.bytes() == wanted.as_bytes()
}

#[test]
fn keyrings_are_printed_in_one_form(rt: HostRuntime) {
    for row in &KEYRINGS {
        assert!(rt; is_printed(&rt, rt.alloc(), row), "{}", row.0);
    }
}

/// A file, the number of its first line that is wrong, and that line's fault. `KEY` stands for a key.
type Bad = (&'static str, u64, KeyringFault);

static BAD_FILES: [Bad; 33] = [
    (
        "key = KEY\n[client.a]\nkey = KEY",
        1,
        KeyringFault::NoSection,
    ),
    ("\n# a\nany\n", 3, KeyringFault::NoSection),
    ("[client.a\nkey = KEY", 1, KeyringFault::NoSection),
    ("[global]\nkey = KEY", 1, KeyringFault::BadName),
    ("[ client.a ]\nkey = KEY", 1, KeyringFault::BadName),
    ("[]", 1, KeyringFault::BadName),
    ("[client.]\n", 1, KeyringFault::BadName),
    ("[client.a]\nkey =\n", 2, KeyringFault::BadKey),
    ("[client.a]\nkey = KEY KEY", 2, KeyringFault::BadKey),
    ("[client.a]\nkey = \"KEY\"", 2, KeyringFault::BadKey),
    (
        "[client.a]\nkey = AQAAAAAAAAAAABAAAAECAwQFBgcICQoLDA0ODx==",
        2,
        KeyringFault::BadKey,
    ),
    (
        "[client.a]\nkey = AQAAAAAAAAAAABAAAAECAwQFBgcICQoLDA0ODw",
        2,
        KeyringFault::BadKey,
    ),
    (
        "[client.a]\nkey = AgAAAAAAAAAAABAAAAECAwQFBgcICQoLDA0ODw==",
        2,
        KeyringFault::BadKey,
    ),
    (
        "[client.a]\nkey = AQAAAAAAAMqaOxAAAAECAwQFBgcICQoLDA0ODw==",
        2,
        KeyringFault::BadKey,
    ),
    (
        "[client.a]\nkey = AQAAAAAAAAAAABAAAAECAwQFBgcICQoLDA0ODxA=",
        2,
        KeyringFault::BadKey,
    ),
    (
        "[client.a]\nkey = KEY\ncaps rgw = allow *",
        3,
        KeyringFault::BadService,
    ),
    (
        "[client.a]\nkey = KEY\ncaps mon osd = allow *",
        3,
        KeyringFault::BadService,
    ),
    (
        "[client.a]\nkey = KEY\ncaps client = a\"b",
        3,
        KeyringFault::BadService,
    ),
    (
        "[client.a]\nkey = KEY\ncaps mon = \"a",
        3,
        KeyringFault::BadCaps,
    ),
    (
        "[client.a]\nkey = KEY\ncaps mon = \"a\" b\"",
        3,
        KeyringFault::BadCaps,
    ),
    (
        "[client.a]\nkey = KEY\ncaps mon = a\\b",
        3,
        KeyringFault::BadCaps,
    ),
    (
        "[client.a]\nkey = KEY\ncaps mon = a\tb",
        3,
        KeyringFault::BadCaps,
    ),
    (
        "[client.a]\nkey = KEY\n[client.b]\nkey = KEY\n[client.a]\n",
        5,
        KeyringFault::Repeated,
    ),
    (
        "[client.a]\nkey = KEY\nkey = KEY",
        3,
        KeyringFault::Repeated,
    ),
    (
        "[client.a]\ncaps mon = a\nkey = KEY\n\ncaps mon = b",
        5,
        KeyringFault::Repeated,
    ),
    ("[client.a]", 1, KeyringFault::NoKey),
    (
        "[client.a]\ncaps mon = a\n[client.b]\nkey = KEY",
        1,
        KeyringFault::NoKey,
    ),
    (
        "[client.a]\nany\n[client.b]\nkey = KEY",
        1,
        KeyringFault::NoKey,
    ),
    (
        "[client.a]\nauid = 0\nkey = KEY",
        2,
        KeyringFault::Unreadable,
    ),
    (
        "[client.a]\nkey = KEY\ncaps = allow *",
        3,
        KeyringFault::Unreadable,
    ),
    (
        "[client.a]\nkey = KEY\ncaps mon",
        3,
        KeyringFault::Unreadable,
    ),
    (
        "[client.a]\nkey: KEY\nkey = KEY",
        2,
        KeyringFault::Unreadable,
    ),
    (
        "[client.a]\nany\n\nkey = KEY\n\n[osd.0]\nkey = KEY\n\nkey = KEY\n",
        2,
        KeyringFault::Unreadable,
    ),
];

fn refusal(rt: &impl Abort, alloc: Global, text: &str) -> Option<KeyringRefusal> {
    parsed(alloc, &with_key(rt, alloc, text)).err()
}

fn is_bad(rt: &impl Abort, alloc: Global, row: &Bad) -> bool {
    let (text, number, fault) = *row;
    match refusal(rt, alloc, text) {
        Some(KeyringRefusal::BadLine { line, why }) => line == number && why == fault,
        _ => false,
    }
}

#[test]
fn the_first_line_that_is_wrong_is_named_with_its_first_fault(rt: HostRuntime) {
    for row in &BAD_FILES {
        assert!(rt; is_bad(&rt, rt.alloc(), row), "{}", row.0);
    }
}

fn put_section(rt: &impl Abort, text: &mut String, id: usize) {
    let written = write!(text, "[client.{}]\nkey = {}\n", id, KEY);
    written.expect(rt, "memory is ample");
}

/// So many sections, each with its key.
fn sections(rt: &impl Abort, alloc: Global, count: usize) -> String {
    let mut text = String::new(alloc);
    for id in 0..count {
        put_section(rt, &mut text, id);
    }
    text
}

fn name(rt: &impl Abort, alloc: Global, id: &str) -> EntityName {
    let id = Text::of(alloc, id.as_bytes()).expect(rt, "ASCII");
    EntityName::new(EntityType::Client, id).expect(rt, "a name")
}

fn has(rt: &impl Abort, alloc: Global, ring: &Keyring, id: &str) -> bool {
    ring.find(&name(rt, alloc, id)).is_some()
}

fn is_refused_for_4096(rt: &impl Abort, alloc: Global, text: &str) -> bool {
    matches!(
        refusal(rt, alloc, text),
        Some(KeyringRefusal::TooMany(4096))
    )
}

#[test]
fn a_keyring_has_4096_sections(rt: HostRuntime) {
    let alloc = rt.alloc();
    let ring = read(&rt, alloc, &sections(&rt, alloc, MOST_ENTRIES));
    assert!(rt; has(&rt, alloc, &ring, "4095"));
    let longer = sections(&rt, alloc, MOST_ENTRIES + 1);
    assert!(rt; is_refused_for_4096(&rt, alloc, &longer));
}

fn put(rt: &impl Abort, text: &mut String, piece: &str) {
    text.push_str(piece).expect(rt, "memory is ample");
}

/// A keyring of one entity with caps of so many bytes.
fn with_caps_of(rt: &impl Abort, alloc: Global, count: usize) -> String {
    let mut text = with_key(rt, alloc, "[client.a]\nkey = KEY\ncaps osd = ");
    for _ in 0..count {
        put(rt, &mut text, "x");
    }
    text
}

#[test]
fn a_capability_text_has_4096_bytes(rt: HostRuntime) {
    let alloc = rt.alloc();
    let text = with_caps_of(&rt, alloc, 4096);
    assert!(rt; printed(&rt, alloc, &text).bytes().len() == 4170);
    let longer = with_caps_of(&rt, alloc, 4097);
    assert!(rt; refusal(&rt, alloc, &longer).is_some());
}

/// Adds an entry without caps.
fn add(alloc: Global, ring: &mut Keyring, name: EntityName) -> Result<(), AddRefusal> {
    let key = Key {
        created: Time { secs: 5, nanos: 6 },
        secret: [7; 16],
    };
    let caps = Items::new(alloc);
    ring.add(alloc, Entry { name, key, caps })
}

fn add_number(rt: &impl Abort, alloc: Global, ring: &mut Keyring, number: u32) {
    let id = format!(in alloc; "{}", number).expect(rt, "memory is ample");
    add(alloc, ring, name(rt, alloc, &id)).expect(rt, "the name is new");
}

/// A keyring of so many entries.
fn long_ring(rt: &impl Abort, alloc: Global, count: u32) -> Keyring {
    let mut ring = Keyring::empty(alloc);
    for number in 0..count {
        add_number(rt, alloc, &mut ring, number);
    }
    ring
}

fn is_repeated(rt: &impl Abort, alloc: Global, ring: &mut Keyring, id: &str) -> bool {
    let added = add(alloc, ring, name(rt, alloc, id));
    matches!(added, Err(AddRefusal::Repeated(_)))
}

#[test]
fn a_keyring_grows_past_65536_entries(rt: HostRuntime) {
    let alloc = rt.alloc();
    let mut ring = long_ring(&rt, alloc, 70_000);
    assert!(rt; has(&rt, alloc, &ring, "69999"));
    assert!(rt; !has(&rt, alloc, &ring, "70000"));
    assert!(rt; is_repeated(&rt, alloc, &mut ring, "69999"));
}

/// How many caps the entry of this keyring's one client has, copied.
fn caps_copied(rt: &impl Abort, alloc: Global, ring: &Keyring) -> usize {
    let entry = ring.find(&name(rt, alloc, "a")).expect(rt, "an entry");
    let copied = entry.copy(alloc).expect(rt, "memory is ample");
    copied.caps.all().len()
}

#[test]
fn an_entry_is_copied_with_its_caps(rt: HostRuntime) {
    let alloc = rt.alloc();
    let ring = read(&rt, alloc, "[client.a]\nkey = KEY\ncaps mon = allow r\n");
    assert!(rt; caps_copied(&rt, alloc, &ring) == 1);
}
