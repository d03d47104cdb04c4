//! Authorizers: that of a run on both sides, bit for bit, and what is changed in one bit.

use cx_authorize::{
    Agreed, Answering, AuthFault, AuthRefusal, Authorized, Awaiting, First, FirstPassed,
    PresentRefusal, Presenting, SecondPassed, View, authorizer_laws,
};
use cx_base::{Blob, Duplicate, EntityType, Items, Owner, Reading};
use cx_login::HeldTicket;
use cx_rotate::{Generation, Generations};
use cx_steps::SealEntry;
use hex::FromHex;
use std::alloc::Global;
use std::process::Abort;

// The run is that of `examples/first_login.schedule`, which an independent implementation computed: its first fetch, login and
// connect. Bytes are hex digits.

/// The first authorizer, the daemon's AuthorizeChallenge, the second authorizer, and the daemon's AuthorizeReply.
const FIRST: &str =
    "01020000000000000004000000010200000000000000600000003fa9c9c806ad71bfe01bff645f25e57c0e607dd4a6a3c9c3e173\
    9e503fe060ecf7c83f100cd53d4197b15c1df3d2ac54d987dddd99667a9ba786e9ffd50a64250ae8409132f42777a847442041f2\
    fc1da174dd894840bc13f5ea3ca791cdfccd200000001c5c281355897f40240105d8d90688bdfdb06aa08a747c11e793c5e45840\
    164d";

const CHALLENGE: &str = "20000000713f7485f0992b11ac0633ba21ec87e9457056d7ac680103ceb9a5f14d80fb83";

const SECOND: &str =
    "01020000000000000004000000010200000000000000600000003fa9c9c806ad71bfe01bff645f25e57c0e607dd4a6a3c9c3e173\
    9e503fe060ecf7c83f100cd53d4197b15c1df3d2ac54d987dddd99667a9ba786e9ffd50a64250ae8409132f42777a847442041f2\
    fc1da174dd894840bc13f5ea3ca791cdfccd200000001c5c281355897f40240105d8d90688bdfc574d20bcac3fceb58a4a1a6a7b\
    d5e2";

const REPLY: &str =
    "60000000d6e900ff63d5c54395f53e1cd54ad6bdf1c18ea43400d6a164c7e94a2cb58fb428593a159dbd439f684aedf97463f913\
    bcb9d5abb092b99c306dbce08aff7356f8b63cd9bf77efcca23b9f90b29d86593498f4a49831920066654ad27af0dc28";

/// The ticket's session key, the key of generation 2 of the osds, and the secret of the connection.
const SESSION: &str = "e5c757473192e73535afaf784e94a96e";

const GENERATION: &str = "c2f54d837547a59632f8ba09f076be49";

const CONNECTION: &str =
    "017cbe2d618874087642fd650fe375c40decf0c600000000000000008470d13e000000000000000038454da717a4ba5c5d23ddbd\
    625f7ac59ac24dc07f69439c";

/// The nonce of the client and the daemon's challenge.
const NONCE: u64 = 0x32d2_8ff5_bd92_97ca;

const ASKED: u64 = 0x2da3_a811_5f4a_4f0d;

/// The reading of the run, and the ticket's expiry.
const NOW: Reading = 1_000_000_000_000;

const EXPIRY: Reading = 4_600_000_000_000;

fn decoded(rt: &impl Abort, alloc: Global, digits: &str) -> Vec<u8> {
    hex::decode(alloc, digits).expect(rt, "hex digits")
}

/// Whether bytes are those of these digits.
fn are(rt: &impl Abort, alloc: Global, bytes: &[u8], digits: &str) -> bool {
    bytes == decoded(rt, alloc, digits).as_slice()
}

/// These bytes with the lowest bit of the one at a place changed.
fn changed(rt: &impl Abort, alloc: Global, digits: &str, at: usize) -> Vec<u8> {
    let mut other = decoded(rt, alloc, digits);
    if let Some(byte) = other.get_mut(at) {
        *byte ^= 1;
    }
    other
}

fn key(rt: &impl Abort, digits: &str) -> [u8; 16] {
    <[u8; 16] as FromHex>::from_hex(digits).expect(rt, "16 bytes")
}

fn secret(rt: &impl Abort, digits: &str) -> [u8; 64] {
    <[u8; 64] as FromHex>::from_hex(digits).expect(rt, "64 bytes")
}

/// A log in which nothing has opened so far.
fn log(alloc: Global) -> Items<SealEntry> {
    Items::new(alloc)
}

// ---- the daemon

fn generation(id: u64, key: &[u8; 16]) -> Generation {
    Generation {
        id,
        key: *key,
        expires: 0,
    }
}

/// Three generations from this id on, all with this key.
fn generations(id: u64, key: &[u8; 16]) -> Option<Generations> {
    Generations::of(&[
        generation(id, key),
        generation(id.wrapping_add(1), key),
        generation(id.wrapping_add(2), key),
    ])
}

/// A view of three generations from this id on, all with the key of generation 2.
fn view(rt: &impl Abort, id: u64) -> View {
    View {
        generations: generations(id, &key(rt, GENERATION)).expect(rt, "the ids rise by one"),
        asked: None,
    }
}

/// What a daemon answers a first authorizer, with the state in which it awaits the second.
fn first(
    alloc: Global,
    payload: &[u8],
    view: &View,
    now: Reading,
    challenge: u64,
) -> Result<FirstPassed, AuthRefusal> {
    First::new(EntityType::Osd).check(alloc, payload, view, now, challenge, &mut log(alloc))
}

/// A daemon that drew this challenge and awaits the second authorizer of the run, and its answer to the first.
fn awaiting(rt: &impl Abort, alloc: Global, view: &View, challenge: u64) -> FirstPassed {
    let shown = decoded(rt, alloc, FIRST);
    first(alloc, &shown, view, NOW, challenge).expect(rt, "the first authorizer is that of the run")
}

/// What a daemon that awaits a second authorizer answers this one.
fn judged(
    alloc: Global,
    awaiting: Awaiting,
    payload: &[u8],
    view: &View,
    secret: &[u8; 64],
) -> Result<SecondPassed, AuthRefusal> {
    awaiting.check(alloc, payload, view, EXPIRY - 1, secret, &mut log(alloc))
}

/// What a daemon that drew this challenge answers the second authorizer of the run.
fn second(rt: &impl Abort, alloc: Global, challenge: u64) -> Result<SecondPassed, AuthRefusal> {
    let view = view(rt, 1);
    let secret = secret(rt, CONNECTION);
    let shown = decoded(rt, alloc, SECOND);
    let passed = awaiting(rt, alloc, &view, challenge);
    judged(alloc, passed.awaiting, &shown, &view, &secret)
}

#[test]
fn a_daemon_challenges_as_in_the_run(rt: HostRuntime) {
    let passed = awaiting(&rt, rt.alloc(), &view(&rt, 1), ASKED);
    assert!(rt; are(&rt, rt.alloc(), passed.bytes.bytes(), CHALLENGE));
}

fn has_session(rt: &impl Abort, authorized: &Authorized) -> bool {
    authorized.session_key() == key(rt, SESSION)
}

/// Whether what a session is admitted on names the client of the run, with its caps, at the reading.
fn is_of_the_run(owner: &Authorized) -> bool {
    owner.gid() == 2 && owner.at() == EXPIRY - 1 && is_named(owner) && has_caps(owner)
}

fn is_named(owner: &Authorized) -> bool {
    owner.entity().id.bytes() == b"a".as_slice()
}

fn has_caps(owner: &Authorized) -> bool {
    owner.caps().bytes() == b"allow *".as_slice()
}

fn is_copied(rt: &impl Abort, alloc: Global, authorized: &Authorized) -> bool {
    is_of_the_run(&authorized.copy(alloc).expect(rt, "memory is ample"))
}

fn laws() {
    authorizer_laws();
}

#[test]
fn a_daemon_admits_as_in_the_run(rt: HostRuntime) {
    let answer = second(&rt, rt.alloc(), ASKED);
    let passed = answer.expect(&rt, "the client is admitted");
    assert!(rt; are(&rt, rt.alloc(), passed.bytes.bytes(), REPLY));
    assert!(rt; has_session(&rt, &passed.authorized));
    assert!(rt; is_copied(&rt, rt.alloc(), &passed.authorized));
    laws();
}

/// The place at which a bit of the first authorizer is changed, if there is such a place; the oldest id of the daemon's view, the
/// reading, and the fault.
type Row = (usize, u64, Reading, AuthFault);

static BAD_FIRST: [Row; 5] = [
    (
        999,
        1,
        EXPIRY,
        AuthFault::Expired {
            expires: EXPIRY,
            now: EXPIRY,
        },
    ),
    (999, 3, NOW, AuthFault::UnknownGeneration { id: 2 }),
    (
        1,
        1,
        NOW,
        AuthFault::GidDiffers {
            claimed: 3,
            sealed: 2,
        },
    ),
    (26, 1, NOW, AuthFault::TicketUnopened { id: 2 }),
    (126, 1, NOW, AuthFault::AuthorizerUnopened),
];

fn fault_of<T: Drop>(answer: Result<T, AuthRefusal>) -> Option<AuthFault> {
    match answer {
        Err(AuthRefusal::Ticket { fault, .. }) => Some(fault),
        _ => None,
    }
}

fn is_refused(rt: &impl Abort, alloc: Global, row: &Row) -> bool {
    let (place, oldest, now, fault) = *row;
    let shown = changed(rt, alloc, FIRST, place);
    let answer = first(alloc, &shown, &view(rt, oldest), now, ASKED);
    fault_of(answer) == Some(fault)
}

#[test]
fn a_first_authorizer_is_refused_for_its_fault(rt: HostRuntime) {
    for row in &BAD_FIRST {
        assert!(rt; is_refused(&rt, rt.alloc(), row), "{:?}", row.3);
    }
}

/// The daemon's challenge, and the challenge plus one that is expected of the client, who shows that of the run. The challenge isn't
/// raised, or raised by two.
static BAD_SECOND: [(u64, u64); 2] = [(ASKED + 1, ASKED + 2), (ASKED - 1, ASKED)];

fn is_unanswered(rt: &impl Abort, alloc: Global, row: &(u64, u64)) -> bool {
    let (challenge, expected) = *row;
    let got = ASKED + 1;
    let fault = fault_of(second(rt, alloc, challenge));
    fault == Some(AuthFault::ChallengeWrong { expected, got })
}

#[test]
fn a_second_authorizer_answers_its_own_challenge(rt: HostRuntime) {
    for row in &BAD_SECOND {
        assert!(rt; is_unanswered(&rt, rt.alloc(), row));
    }
}

// ---- the client

fn held(rt: &impl Abort, alloc: Global) -> HeldTicket {
    // The blob stands behind a byte, the global id, the service, a byte, the generation and its own length.
    let shown = decoded(rt, alloc, FIRST);
    let blob = shown.get(26..122).expect(rt, "the blob is there");
    HeldTicket {
        service: EntityType::Osd,
        generation: 2,
        blob: Blob::of(alloc, blob).expect(rt, "memory is ample"),
        session: key(rt, SESSION),
        expires: EXPIRY,
    }
}

/// A client that drew this nonce and showed its ticket, and its first authorizer.
fn presenting(rt: &impl Abort, alloc: Global, nonce: u64) -> (Presenting, Blob) {
    Presenting::new(alloc, &held(rt, alloc), 2, nonce).expect(rt, "memory is ample")
}

/// What a client that drew this nonce does with the daemon's challenge, and its second authorizer.
fn answering(rt: &impl Abort, alloc: Global, nonce: u64) -> (Answering, Blob) {
    let challenge = decoded(rt, alloc, CHALLENGE);
    let (presenting, _) = presenting(rt, alloc, nonce);
    presenting
        .challenged(alloc, &challenge, &mut log(alloc))
        .expect(rt, "the challenge is that of the run")
}

#[test]
fn a_client_shows_its_ticket_as_in_the_run(rt: HostRuntime) {
    let (_, shown) = presenting(&rt, rt.alloc(), NONCE);
    assert!(rt; are(&rt, rt.alloc(), shown.bytes(), FIRST));
}

/// What a client does with the daemon's reply.
fn done(rt: &impl Abort, alloc: Global, answering: Answering) -> Result<Agreed, PresentRefusal> {
    answering.done(alloc, &decoded(rt, alloc, REPLY), &mut log(alloc))
}

/// Whether a client agrees with the daemon on what both agreed on in the run.
fn agrees(rt: &impl Abort, alloc: Global, answering: Answering) -> bool {
    let agreed = done(rt, alloc, answering).expect(rt, "the reply is that of the run");
    agreed.secret == secret(rt, CONNECTION) && agreed.session == key(rt, SESSION)
}

#[test]
fn a_client_agrees_as_in_the_run(rt: HostRuntime) {
    let (answering, shown) = answering(&rt, rt.alloc(), NONCE);
    assert!(rt; are(&rt, rt.alloc(), shown.bytes(), SECOND));
    assert!(rt; agrees(&rt, rt.alloc(), answering));
}

/// Whether a client that drew another nonce refuses the daemon's reply as one to the nonce of the run.
fn is_for_another(rt: &impl Abort, alloc: Global, nonce: u64) -> bool {
    let (answering, _) = answering(rt, alloc, nonce);
    let wrong = PresentRefusal::NonceWrong {
        expected: NONCE + 2,
        got: NONCE + 1,
    };
    done(rt, alloc, answering).err() == Some(wrong)
}

#[test]
fn a_client_takes_no_reply_to_another_nonce(rt: HostRuntime) {
    assert!(rt; is_for_another(&rt, rt.alloc(), NONCE + 1));
}
