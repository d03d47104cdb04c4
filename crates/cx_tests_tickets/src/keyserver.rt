//! Key servers: each call once, and the longest capability text. The tickets of recorded runs are rows of `cx_answers_machines`.

use cx_base::{Blob, Duplicate, EntityName, EntityType, SECOND, Text};
use cx_dice::Draw;
use cx_keyring::{Keyring, parse};
use cx_keyserver::{Issuance, IssueRefusal, KeyServer, NotADaemon, SealKey, Ticket};
use cx_rotate::{Generations, KeptState};
use std::alloc::Global;
use std::process::Abort;

/// A keyring of a daemon and a client, up to the text of the client's caps.
const RING: &str = "[osd.0]\nkey = AQAAAAAAAAAAABAA9bgURXl1avNZ9215An96qg==\n[client.a]\n\
    key = AQAAAAAAAAAAABAAowgHm7EDEgDCotkYAYULGA==\ncaps osd = ";

fn append(rt: &impl Abort, alloc: Global, text: &mut Blob) {
    text.append(alloc, b"x").expect(rt, "memory is ample");
}

/// The keyring with caps of so many bytes.
fn ring_text(rt: &impl Abort, alloc: Global, caps: usize) -> Blob {
    let mut text = Blob::of(alloc, RING.as_bytes()).expect(rt, "memory is ample");
    for _ in 0..caps {
        append(rt, alloc, &mut text);
    }
    text
}

fn ring(rt: &impl Abort, alloc: Global, caps: usize) -> Keyring {
    parse(alloc, ring_text(rt, alloc, caps).bytes()).expect(rt, "a keyring")
}

/// A server of this keyring which has kept nothing yet.
fn server_of(ring: Keyring) -> KeyServer {
    let none = Generations::empty();
    let state = KeptState {
        next_gid: 1,
        life: 3600 * SECOND,
        auth_life: 43_200 * SECOND,
        mds: none,
        osd: none,
        mgr: none,
        auth: none,
    };
    KeyServer::new(ring, state)
}

fn server(rt: &impl Abort, alloc: Global, caps: usize) -> KeyServer {
    server_of(ring(rt, alloc, caps))
}

fn name(rt: &impl Abort, alloc: Global, kind: EntityType, id: &[u8]) -> EntityName {
    let id = Text::of(alloc, id).expect(rt, "ASCII");
    EntityName::new(kind, id).expect(rt, "a name")
}

fn sevens(rt: &impl Abort, alloc: Global) -> Draw {
    Draw::of(alloc, [7; 384]).expect(rt, "memory is ample")
}

fn rotate(rt: &impl Abort, alloc: Global, server: &mut KeyServer) -> bool {
    server.rotate(1000 * SECOND, &sevens(rt, alloc))
}

/// Whether a server tells this entity secrets, and doesn't say that it is no daemon.
fn tells(server: &KeyServer, name: &EntityName) -> bool {
    match server.secrets_for(name) {
        Ok(generations) => generations.get(1).is_some(),
        Err(NotADaemon) => false,
    }
}

/// The kind and the id of an entity, and whether it is told secrets.
type Told = (EntityType, &'static [u8], bool);

static TOLD: [Told; 3] = [
    (EntityType::Osd, b"0", true),
    (EntityType::Osd, b"1", false),
    (EntityType::Client, b"a", false),
];

fn is_told(rt: &impl Abort, alloc: Global, server: &KeyServer, row: &Told) -> bool {
    let (kind, id, told) = *row;
    tells(server, &name(rt, alloc, kind, id)) == told
}

fn expect_told(rt: &impl Abort, alloc: Global, server: &KeyServer) {
    for row in &TOLD {
        assert!(rt; is_told(rt, alloc, server, row), "{:?}", row);
    }
}

#[test]
fn a_daemon_of_the_keyring_is_told_rotated_secrets(rt: HostRuntime) {
    let mut server = server(&rt, rt.alloc(), 1);
    assert!(rt; rotate(&rt, rt.alloc(), &mut server));
    assert!(rt; !rotate(&rt, rt.alloc(), &mut server));
    expect_told(&rt, rt.alloc(), &server);
}

fn has_key(rt: &impl Abort, alloc: Global, server: &KeyServer, id: &[u8]) -> bool {
    let name = name(rt, alloc, EntityType::Client, id);
    server.key_of(&name).is_some()
}

fn is_first_given(server: &mut KeyServer) -> bool {
    match server.next_gid() {
        Ok(gid) => gid == 1,
        Err(_) => false,
    }
}

/// Whether a server gives out the first global id, and once more where the state before is put back.
fn gives_first_again(server: &mut KeyServer) -> bool {
    let before = server.state();
    let first = is_first_given(server);
    server.restore(before);
    first && is_first_given(server)
}

#[test]
fn keys_and_global_ids_are_those_of_the_keyring_and_the_state(rt: HostRuntime) {
    let mut server = server(&rt, rt.alloc(), 1);
    assert!(rt; has_key(&rt, rt.alloc(), &server, b"a"));
    assert!(rt; !has_key(&rt, rt.alloc(), &server, b"b"));
    assert!(rt; gives_first_again(&mut server));
}

fn issue(
    rt: &impl Abort,
    alloc: Global,
    server: &mut KeyServer,
    who: &EntityName,
) -> Result<Issuance, IssueRefusal> {
    server.issue(
        alloc,
        who,
        EntityType::Osd,
        1,
        &SealKey::new(&[0; 16]),
        1000 * SECOND,
        &sevens(rt, alloc),
    )
}

/// A ticket of the client for the osds.
fn issued(rt: &impl Abort, alloc: Global, server: &mut KeyServer) -> Issuance {
    let who = name(rt, alloc, EntityType::Client, b"a");
    issue(rt, alloc, server, &who).expect(rt, "a ticket")
}

fn length_of_caps(ticket: &Ticket) -> usize {
    ticket.caps.bytes().len()
}

fn length_of_copied_blob(rt: &impl Abort, alloc: Global, ticket: &Ticket) -> usize {
    let copied = ticket.copy(alloc).expect(rt, "memory is ample");
    copied.blob.bytes().len()
}

#[test]
fn the_longest_caps_are_issued(rt: HostRuntime) {
    let mut server = server(&rt, rt.alloc(), 4096);
    let issuance = issued(&rt, rt.alloc(), &mut server);
    let ticket = issuance.ticket();
    assert!(rt; length_of_caps(ticket) == 4096);
    // 66 bytes besides the caps, a mark of 9 before them, and 5 that fill the last block of 16.
    assert!(rt; length_of_copied_blob(&rt, rt.alloc(), ticket) == 4176);
}
