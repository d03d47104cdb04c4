//! Capability texts: that the definitions are Ceph's grammar as far as it is taken, and each call once.

use cx_base::{Access, Blob, Duplicate, Operation, Text};
use cx_caps::{CapRefusal, CapText, Permitted};
use std::alloc::Global;
use std::process::Abort;

/// Where an object is.
struct ObjectPlace {
    pool: &'static str,
    namespace: &'static str,
    object: &'static str,
}

/// A capability text, and the letters of what it allows: read, write and exec.
type Row = (&'static str, &'static str);

static DISK: ObjectPlace = ObjectPlace {
    pool: "rbd",
    namespace: "ns",
    object: "disk.1",
};

static DISK_ROWS: [Row; 61] = [
    // words of rights
    ("allow r", "r"),
    ("allow w", "w"),
    ("allow x", "x"),
    ("allow wr", "rw"),
    ("allow xr", "rx"),
    ("allow xwr", "rwx"),
    ("allow *", "rwx"),
    ("allow all", "rwx"),
    ("allow rr", ""),
    ("allow rwr", ""),
    ("allow rwxr", ""),
    ("allow rd", ""),
    ("allow R", ""),
    ("allow **", ""),
    ("allow ALL", ""),
    ("allow r w", ""),
    // the first word
    ("", ""),
    ("allow", ""),
    ("r", ""),
    ("ALLOW r", ""),
    ("allowr", ""),
    ("deny r", ""),
    // conditions
    ("allow r pool=rbd", "r"),
    ("allow r pool=rb", ""),
    ("allow r pool=rbd2", ""),
    ("allow r pool=", ""),
    ("allow r pool rbd", ""),
    ("allow r pool=rbd pool=rbd", ""),
    ("allow r pool=r/d", ""),
    ("allow r namespace=ns", "r"),
    ("allow r namespace=", ""),
    ("allow r namespace=other", ""),
    ("allow r pool=rbd namespace=other", ""),
    ("allow r namespace=ns namespace=ns", ""),
    ("allow r object_prefix disk.1", "r"),
    ("allow r object_prefix d", "r"),
    ("allow r object_prefix disk.11", ""),
    ("allow r object_prefix isk", ""),
    ("allow r object_prefix", ""),
    ("allow r object_prefix=disk", ""),
    ("allow r object_prefix d object_prefix d", ""),
    ("allow r object_prefix disk namespace=ns pool=rbd", "r"),
    ("allow r namespace=ns object_prefix disk pool=vms", ""),
    ("pool=rbd allow r", ""),
    ("allow pool=rbd r", ""),
    // spaces and commas
    ("  allow   r   pool=rbd  ", "r"),
    (",allow r,", "r"),
    (", ,", ""),
    ("allow r pool=vms,allow r pool=rbd", "r"),
    ("allow r,allow w", "rw"),
    ("allow r ,profile rbd", "r"),
    ("allow r pool=rbd,pool=vms", "r"),
    ("allow,r", ""),
    // what grants nothing here
    ("profile rbd", ""),
    ("allow profile rbd", ""),
    ("profile rbd pool=rbd", ""),
    ("allow r network 10.0.0.0/8", ""),
    ("allow class-read", ""),
    ("allow r class rbd", ""),
    ("allow r tag rbd data=rbd", ""),
    ("allow command status", ""),
];

static IMAGE: ObjectPlace = ObjectPlace {
    pool: "images",
    namespace: "",
    object: "object_prefix",
};

static IMAGE_ROWS: [Row; 6] = [
    ("profile rbd pool=vms, allow r pool=images", "r"),
    ("profile rbd pool=images, allow r pool=vms", ""),
    ("allow r namespace=ns", ""),
    ("allow r namespace=", ""),
    ("allow r pool=-", ""),
    ("allow r object_prefix object_prefix", "r"),
];

fn blob(rt: &impl Abort, alloc: Global, bytes: &[u8]) -> Blob {
    Blob::of(alloc, bytes).expect(rt, "memory is ample")
}

fn text(rt: &impl Abort, alloc: Global, bytes: &[u8]) -> Text {
    Text::of(alloc, bytes).expect(rt, "ASCII")
}

fn operation(
    rt: &impl Abort,
    alloc: Global,
    access: Access,
    pool: &[u8],
    at: &ObjectPlace,
) -> Operation {
    Operation {
        access,
        pool: text(rt, alloc, pool),
        namespace: text(rt, alloc, at.namespace.as_bytes()),
        object: text(rt, alloc, at.object.as_bytes()),
        bytes: Blob::new(alloc),
    }
}

/// An operation on the object at this place.
fn operation_at(rt: &impl Abort, alloc: Global, access: Access, at: &ObjectPlace) -> Operation {
    operation(rt, alloc, access, at.pool.as_bytes(), at)
}

/// What is read of these bytes as a capability text.
fn read(rt: &impl Abort, alloc: Global, bytes: &[u8]) -> Result<CapText, CapRefusal> {
    CapText::read(alloc, &text(rt, alloc, bytes))
}

fn caps(rt: &impl Abort, alloc: Global, bytes: &[u8]) -> CapText {
    read(rt, alloc, bytes).expect(rt, "a capability text")
}

fn allows(rt: &impl Abort, alloc: Global, bytes: &[u8], ask: &Operation) -> bool {
    caps(rt, alloc, bytes).allows(ask)
}

fn has(letters: &str, letter: char) -> bool {
    letters.contains(letter)
}

/// Whether a text allows this access, which has this letter, to the object at this place as its row says.
fn is_right(
    rt: &impl Abort,
    alloc: Global,
    row: &Row,
    access: Access,
    letter: char,
    at: &ObjectPlace,
) -> bool {
    let ask = operation_at(rt, alloc, access, at);
    allows(rt, alloc, row.0.as_bytes(), &ask) == has(row.1, letter)
}

fn is_row_right(rt: &impl Abort, alloc: Global, row: &Row, at: &ObjectPlace) -> bool {
    is_right(rt, alloc, row, Access::Read, 'r', at)
        && is_right(rt, alloc, row, Access::Write, 'w', at)
        && is_right(rt, alloc, row, Access::Exec, 'x', at)
}

/// Each row is right for the object at this place.
fn expect_rows(rt: &impl Abort, alloc: Global, rows: &[Row], at: &ObjectPlace) {
    for row in rows {
        assert!(rt; is_row_right(rt, alloc, row, at), "{}", row.0);
    }
}

#[test]
fn a_clause_of_the_grammar_grants_and_no_other_does(rt: HostRuntime) {
    expect_rows(&rt, rt.alloc(), &DISK_ROWS, &DISK);
    expect_rows(&rt, rt.alloc(), &IMAGE_ROWS, &IMAGE);
}

fn append(rt: &impl Abort, alloc: Global, all: &mut Blob, letter: u8) {
    all.append(alloc, &[letter]).expect(rt, "memory is ample");
}

/// So many times this letter behind a text.
fn longer(rt: &impl Abort, alloc: Global, text: &[u8], letter: u8, count: usize) -> Blob {
    let mut all = blob(rt, alloc, text);
    for _ in 0..count {
        append(rt, alloc, &mut all, letter);
    }
    all
}

/// Whether a text allows a read in this pool.
fn allows_in(rt: &impl Abort, alloc: Global, text: &[u8], pool: &[u8]) -> bool {
    let ask = operation(rt, alloc, Access::Read, pool, &DISK);
    allows(rt, alloc, text, &ask)
}

/// Whether a pool with a name of so many letters is allowed by that name.
fn allows_pool_of(rt: &impl Abort, alloc: Global, count: usize) -> bool {
    let text = longer(rt, alloc, b"allow r pool=", b'z', count);
    let pool = longer(rt, alloc, b"", b'z', count);
    allows_in(rt, alloc, text.bytes(), pool.bytes())
}

#[test]
fn a_word_has_at_most_255_bytes(rt: HostRuntime) {
    assert!(rt; allows_pool_of(&rt, rt.alloc(), 255));
    assert!(rt; !allows_pool_of(&rt, rt.alloc(), 256));
}

/// Why bytes are no capability text.
fn refusal(rt: &impl Abort, alloc: Global, bytes: &[u8]) -> Option<CapRefusal> {
    read(rt, alloc, bytes).err()
}

fn refusal_of_spaces(rt: &impl Abort, alloc: Global, count: usize) -> Option<CapRefusal> {
    refusal(rt, alloc, longer(rt, alloc, b"", b' ', count).bytes())
}

fn is_too_long(rt: &impl Abort, alloc: Global, count: usize) -> bool {
    matches!(
        refusal_of_spaces(rt, alloc, count),
        Some(CapRefusal::TooLong)
    )
}

#[test]
fn a_text_has_at_most_4096_bytes(rt: HostRuntime) {
    assert!(rt; refusal_of_spaces(&rt, rt.alloc(), 4096).is_none());
    assert!(rt; is_too_long(&rt, rt.alloc(), 4097));
}

/// A text, and the place of its first byte that no capability text has.
type BadText = (&'static [u8], usize);

static BAD_TEXTS: [BadText; 5] = [
    (b"a\"b\\", 1),
    (b"a\\", 1),
    (b"allow\tr", 5),
    (b"\x1f", 0),
    (b"allow r\x7f", 7),
];

fn is_bad_at(rt: &impl Abort, alloc: Global, row: &BadText) -> bool {
    let (text, place) = *row;
    match refusal(rt, alloc, text) {
        Some(CapRefusal::BadByte(found)) => found == place,
        _ => false,
    }
}

#[test]
fn a_text_is_refused_at_its_first_byte_that_is_none_of_its_own(rt: HostRuntime) {
    for row in &BAD_TEXTS {
        assert!(rt; is_bad_at(&rt, rt.alloc(), row), "{:?}", row.0);
    }
}

/// A read of `DISK`, permitted by a text.
fn permitted(rt: &impl Abort, alloc: Global, text: &[u8]) -> Permitted {
    let ask = operation_at(rt, alloc, Access::Read, &DISK);
    caps(rt, alloc, text).permit(ask).expect(rt, "allowed")
}

fn is_in_pool(permitted: &Permitted, pool: &[u8]) -> bool {
    permitted.operation().pool.bytes() == pool
}

/// Whether a permitted operation, which is copied and given out, is one on this object.
fn is_on_object(rt: &impl Abort, alloc: Global, permitted: &Permitted, object: &[u8]) -> bool {
    let copied = permitted.copy(alloc).expect(rt, "memory is ample");
    copied.into_operation().object.bytes() == object
}

#[test]
fn an_allowed_operation_is_permitted_and_given_out_again(rt: HostRuntime) {
    let permitted = permitted(&rt, rt.alloc(), b"allow r pool=rbd");
    assert!(rt; is_in_pool(&permitted, b"rbd"));
    assert!(rt; is_on_object(&rt, rt.alloc(), &permitted, b"disk.1"));
}

/// How many clauses a text has that permits no write.
fn clauses_of_denied(rt: &impl Abort, alloc: Global, text: &[u8]) -> u32 {
    let ask = operation_at(rt, alloc, Access::Write, &DISK);
    let answer = caps(rt, alloc, text).permit(ask);
    answer.expect_err(rt, "denied").clauses
}

#[test]
fn a_denied_operation_comes_back_with_the_number_of_clauses(rt: HostRuntime) {
    let text = b"allow r pool=rbd,allow w pool=vms,";
    assert!(rt; clauses_of_denied(&rt, rt.alloc(), text) == 3);
}
