//! The text of a journal, against lines that were written by hand: each kind of entry, each reason, the numbers of tickets and cookies, and
//! a long journal.

use cx_base::{
    Access, Blob, Duplicate, EntityName, EntityType, NodeName, Operation, Reading, SECOND, Text,
};
use cx_journal::{
    Admitted, Answered, Broken, BytesFault, Ended, Entry, Fetched, Handled, Issued, Journal,
    KeyKind, LoginFault, Looked, Outcome, Premise, Reason, Refused, Sent, SessionFault,
    TicketFault, put_text, session_laws,
};
use cx_rotate::{Generation, Generations, View};
use std::alloc::Global;
use std::process::Abort;

fn blob(rt: &impl Abort, alloc: Global, bytes: &[u8]) -> Blob {
    Blob::of(alloc, bytes).expect(rt, "memory is ample")
}

fn text(rt: &impl Abort, alloc: Global, bytes: &[u8]) -> Text {
    Text::of(alloc, bytes).expect(rt, "ASCII")
}

fn name(rt: &impl Abort, alloc: Global, kind: EntityType, id: &[u8]) -> EntityName {
    EntityName::new(kind, text(rt, alloc, id)).expect(rt, "a name")
}

fn client(rt: &impl Abort, alloc: Global) -> EntityName {
    name(rt, alloc, EntityType::Client, b"a")
}

fn daemon(rt: &impl Abort, alloc: Global) -> EntityName {
    name(rt, alloc, EntityType::Osd, b"0")
}

/// The text of a journal behind what stands there, without what the contract says of it.
fn put(rt: &impl Abort, alloc: Global, journal: &Journal, printed: &mut Blob) {
    put_text(alloc, journal, printed).expect(rt, "memory is ample");
}

/// Whether a journal has this text.
fn has_text(rt: &impl Abort, alloc: Global, journal: &Journal, text: &str) -> bool {
    let mut printed = Blob::new(alloc);
    put(rt, alloc, journal, &mut printed);
    printed.bytes() == text.as_bytes()
}

fn push(rt: &impl Abort, alloc: Global, journal: &mut Journal, entry: Entry) {
    journal.push(alloc, entry).expect(rt, "memory is ample");
}

/// A journal of this entry alone.
fn journal_of(rt: &impl Abort, alloc: Global, entry: Entry) -> Journal {
    let mut journal = Journal::new(alloc);
    push(rt, alloc, &mut journal, entry);
    journal
}

/// A journal of this entry alone has this text.
fn expect_line(rt: &impl Abort, alloc: Global, entry: Entry, text: &str) {
    let journal = journal_of(rt, alloc, entry);
    assert!(rt; has_text(rt, alloc, &journal, text), "{text}");
}

// ---- kinds of entries

fn issued(rt: &impl Abort, alloc: Global, service: EntityType, ticket: &[u8]) -> Entry {
    Entry::Issued(Issued {
        entity: client(rt, alloc),
        service,
        gid: 2,
        generation: 2,
        created: 1000 * SECOND,
        expires: 4600 * SECOND,
        caps: text(rt, alloc, b"allow *"),
        blob: blob(rt, alloc, ticket),
    })
}

fn generation(id: u64) -> Generation {
    Generation {
        id,
        key: [1; 16],
        expires: 0,
    }
}

fn generations(rt: &impl Abort) -> Generations {
    let three = [generation(1), generation(2), generation(3)];
    Generations::of(&three).expect(rt, "the ids rise by one")
}

fn fetched(rt: &impl Abort, alloc: Global) -> Entry {
    Entry::Fetched(Fetched {
        daemon: daemon(rt, alloc),
        asked: 1000 * SECOND,
        generations: generations(rt),
    })
}

fn looked(rt: &impl Abort, alloc: Global, view: View) -> Entry {
    Entry::Looked(Looked {
        daemon: daemon(rt, alloc),
        link: 3,
        view,
    })
}

fn full_view(rt: &impl Abort) -> View {
    View {
        generations: generations(rt),
        asked: Some(1000 * SECOND),
    }
}

fn empty_view() -> View {
    View {
        generations: Generations::empty(),
        asked: None,
    }
}

fn expect_looked(rt: &impl Abort, alloc: Global, view: View, text: &str) {
    expect_line(rt, alloc, looked(rt, alloc, view), text);
}

const ISSUED: &str = "issued 1 client.a osd 2 2 1000 4600 \"allow *\"\n";

#[test]
fn what_is_issued_and_fetched_has_its_line(rt: HostRuntime) {
    let alloc = rt.alloc();
    let saved = Entry::Saved(u64::MAX);
    expect_line(&rt, alloc, saved, "saved 18446744073709551615\n");
    expect_line(
        &rt,
        alloc,
        issued(&rt, alloc, EntityType::Osd, b"one"),
        ISSUED,
    );
    expect_line(
        &rt,
        alloc,
        fetched(&rt, alloc),
        "fetched osd.0 1000 1,2,3\n",
    );
    expect_looked(&rt, alloc, full_view(&rt), "looked osd.0 3 1,2,3 1000\n");
    expect_looked(&rt, alloc, empty_view(), "looked osd.0 3 - -\n");
}

fn admitted(rt: &impl Abort, alloc: Global, epoch: u64, cookie: u64, at: Reading) -> Admitted {
    Admitted {
        daemon: daemon(rt, alloc),
        session: 1,
        epoch,
        cookie,
        entity: client(rt, alloc),
        gid: 2,
        at,
        caps: text(rt, alloc, b"allow *"),
    }
}

fn operation(rt: &impl Abort, alloc: Global, access: Access, bytes: &[u8]) -> Operation {
    Operation {
        access,
        pool: text(rt, alloc, b"rbd"),
        namespace: Text::new(alloc).expect(rt, "memory"),
        object: text(rt, alloc, b"obj1"),
        bytes: blob(rt, alloc, bytes),
    }
}

fn sent(rt: &impl Abort, alloc: Global, cookie: u64) -> Entry {
    Entry::Sent(Sent {
        client: client(rt, alloc),
        daemon: daemon(rt, alloc),
        cookie,
        seq: 1,
        operation: operation(rt, alloc, Access::Read, b""),
    })
}

fn handled(rt: &impl Abort, alloc: Global, cookie: u64, outcome: Outcome) -> Entry {
    Entry::Handled(Handled {
        daemon: daemon(rt, alloc),
        session: 1,
        epoch: 1,
        cookie,
        seq: 1,
        operation: operation(rt, alloc, Access::Write, b"hi\xff"),
        outcome,
    })
}

fn answered(rt: &impl Abort, alloc: Global, cookie: u64) -> Entry {
    Entry::Answered(Answered {
        client: client(rt, alloc),
        daemon: daemon(rt, alloc),
        cookie,
        tid: 1,
        outcome: Outcome::Denied,
    })
}

fn ended(rt: &impl Abort, alloc: Global) -> Entry {
    Entry::Ended(Ended {
        daemon: daemon(rt, alloc),
        session: 1,
    })
}

fn push_resumed(rt: &impl Abort, alloc: Global, journal: &mut Journal) {
    let resumed = admitted(rt, alloc, 2, 8, 4_599_999_999_999);
    push(rt, alloc, journal, Entry::Resumed(resumed));
}

fn push_admitted(rt: &impl Abort, alloc: Global, journal: &mut Journal) {
    let first = admitted(rt, alloc, 1, 0, 1000 * SECOND);
    push(rt, alloc, journal, Entry::Admitted(first));
}

fn push_handled(
    rt: &impl Abort,
    alloc: Global,
    journal: &mut Journal,
    cookie: u64,
    outcome: Outcome,
) {
    push(rt, alloc, journal, handled(rt, alloc, cookie, outcome));
}

/// A journal of three cookies: 8 is printed first, then 0, then 9. The answer before them has 9, but its line prints none.
fn sessions(rt: &impl Abort, alloc: Global) -> Journal {
    let mut journal = Journal::new(alloc);
    push(rt, alloc, &mut journal, answered(rt, alloc, 9));
    push_resumed(rt, alloc, &mut journal);
    push_admitted(rt, alloc, &mut journal);
    push(rt, alloc, &mut journal, sent(rt, alloc, 0));
    push_handled(rt, alloc, &mut journal, 8, Outcome::NoHandler);
    push_handled(rt, alloc, &mut journal, 9, Outcome::Done);
    push(rt, alloc, &mut journal, ended(rt, alloc));
    journal
}

const SESSIONS: &str = "answered client.a osd.0 1 denied
resumed osd.0 1 2 c1 client.a 2 4599.999999999 \"allow *\"
admitted osd.0 1 1 c2 client.a 2 1000 \"allow *\"
sent client.a osd.0 c2 1 read rbd - obj1 -
handled osd.0 1 1 c1 1 write rbd - obj1 6869ff no-handler
handled osd.0 1 1 c3 1 write rbd - obj1 6869ff done
ended osd.0 1
";

fn copied(rt: &impl Abort, alloc: Global, journal: &Journal) -> Journal {
    journal.copy(alloc).expect(rt, "memory is ample")
}

fn laws() {
    session_laws();
}

#[test]
fn a_cookie_is_named_by_its_first_appearance(rt: HostRuntime) {
    let copied = copied(&rt, rt.alloc(), &sessions(&rt, rt.alloc()));
    assert!(rt; has_text(&rt, rt.alloc(), &copied, SESSIONS));
    laws();
}

fn expect_restarted(rt: &impl Abort, alloc: Global, node: NodeName, text: &str) {
    expect_line(rt, alloc, Entry::Restarted(node), text);
}

#[test]
fn what_is_restarted_and_leaked_has_its_line(rt: HostRuntime) {
    let alloc = rt.alloc();
    expect_restarted(&rt, alloc, NodeName::Monitor, "restarted mon\n");
    let node = NodeName::Entity(client(&rt, alloc));
    expect_restarted(&rt, alloc, node, "restarted client.a\n");
    let leaked = Entry::Leaked(client(&rt, alloc));
    expect_line(&rt, alloc, leaked, "leaked client.a\n");
}

/// A kind of key and its word.
type Kind = (KeyKind, &'static str);

static KINDS: [Kind; 11] = [
    (KeyKind::Principal, "principal"),
    (KeyKind::Auth, "auth"),
    (KeyKind::Service, "service"),
    (KeyKind::Session, "session"),
    (KeyKind::Connection, "connection"),
    (KeyKind::Proof, "proof"),
    (KeyKind::Signature, "signature"),
    (KeyKind::Challenge, "challenge"),
    (KeyKind::Nonce, "nonce"),
    (KeyKind::Cookie, "cookie"),
    (KeyKind::Rotation, "rotation"),
];

fn broken(why: Premise, kind: KeyKind) -> Entry {
    Entry::Broken(Broken {
        why,
        node: NodeName::Monitor,
        kind,
        line: 7,
    })
}

fn broken_line(rt: &impl Abort, alloc: Global, why: &str, kind: &str) -> String {
    let text = format!(in alloc; "broken {why} mon {kind} 7\n");
    text.expect(rt, "memory is ample")
}

fn expect_broken(rt: &impl Abort, alloc: Global, why: Premise, word: &str, row: &Kind) {
    let text = broken_line(rt, alloc, word, row.1);
    expect_line(rt, alloc, broken(why, row.0), &text);
}

#[test]
fn a_broken_premise_has_its_line(rt: HostRuntime) {
    for row in &KINDS {
        expect_broken(&rt, rt.alloc(), Premise::Draw, "draw", row);
        expect_broken(&rt, rt.alloc(), Premise::Sealing, "sealing", row);
    }
}

// ---- reasons of refusals

fn refused(rt: &impl Abort, alloc: Global, reason: Reason) -> Entry {
    Entry::Refused(Refused {
        node: NodeName::Entity(daemon(rt, alloc)),
        link: 3,
        reason,
    })
}

fn refused_line(rt: &impl Abort, alloc: Global, words: &str) -> String {
    let text = format!(in alloc; "refused osd.0 3 {words}\n");
    text.expect(rt, "memory is ample")
}

/// A refusal for this reason has these words.
fn expect_words(rt: &impl Abort, alloc: Global, reason: Reason, words: &str) {
    let text = refused_line(rt, alloc, words);
    expect_line(rt, alloc, refused(rt, alloc, reason), &text);
}

/// A fault of bytes and its words.
type OfBytes = (BytesFault, &'static str);

static BYTES: [OfBytes; 10] = [
    (BytesFault::BadBanner, "bad-banner"),
    (BytesFault::Features(2), "features 2"),
    (BytesFault::BadCrc, "bad-crc"),
    (BytesFault::BadShape, "bad-shape"),
    (BytesFault::TooLong, "too-long"),
    (BytesFault::BadTag, "bad-tag"),
    (BytesFault::Aborted, "aborted"),
    (BytesFault::CounterSpent, "counter-spent"),
    (BytesFault::Unexpected(17), "unexpected 17"),
    (BytesFault::Malformed(4), "malformed 4"),
];

/// A fault of a login and its words.
type OfLogin = (LoginFault, &'static str);

static LOGIN: [OfLogin; 10] = [
    (LoginFault::Method, "method"),
    (LoginFault::Mode, "mode"),
    (LoginFault::UnknownEntity, "unknown-entity"),
    (LoginFault::WrongProof, "wrong-proof"),
    (LoginFault::Reclaim(1), "reclaim 1"),
    (LoginFault::GidsSpent, "gids-spent"),
    (LoginFault::IdsSpent, "ids-spent"),
    (LoginFault::SignatureWrong, "signature-wrong"),
    (LoginFault::Unopened, "unopened"),
    (
        LoginFault::NonceWrong {
            expected: 5,
            got: 6,
        },
        "nonce-wrong 5 6",
    ),
];

fn expect_of_bytes(rt: &impl Abort, alloc: Global, row: &OfBytes) {
    expect_words(rt, alloc, Reason::Bytes(row.0), row.1);
}

fn expect_of_login(rt: &impl Abort, alloc: Global, row: &OfLogin) {
    expect_words(rt, alloc, Reason::Login(row.0), row.1);
}

#[test]
fn faults_of_bytes_and_logins_have_their_words(rt: HostRuntime) {
    for row in &BYTES {
        expect_of_bytes(&rt, rt.alloc(), row);
    }
    for row in &LOGIN {
        expect_of_login(&rt, rt.alloc(), row);
    }
}

fn expect_of_session(rt: &impl Abort, alloc: Global, fault: SessionFault, words: &str) {
    expect_words(rt, alloc, Reason::Session(fault), words);
}

fn owner_differs(rt: &impl Abort, alloc: Global, gid: u64) -> SessionFault {
    SessionFault::OwnerDiffers {
        entity: client(rt, alloc),
        gid,
    }
}

#[test]
fn faults_of_sessions_have_their_words(rt: HostRuntime) {
    let alloc = rt.alloc();
    expect_of_session(&rt, alloc, SessionFault::BookFull, "book-full 4096");
    expect_of_session(&rt, alloc, SessionFault::CookieInUse(1), "cookie-in-use 1");
    expect_of_session(&rt, alloc, SessionFault::UnknownSession, "unknown-session");
    expect_of_session(&rt, alloc, SessionFault::StaleConnect(2), "stale-connect 2");
    expect_of_session(&rt, alloc, SessionFault::StaleGlobal(3), "stale-global 3");
    expect_of_session(&rt, alloc, SessionFault::Gap(4), "gap 4");
    expect_of_session(&rt, alloc, SessionFault::Stale(5), "stale 5");
    expect_of_session(
        &rt,
        alloc,
        owner_differs(&rt, alloc, 2),
        "owner-differs client.a 2",
    );
    expect_of_session(
        &rt,
        alloc,
        owner_differs(&rt, alloc, u64::MAX),
        "owner-differs client.a 18446744073709551615",
    );
}

fn wrong_service() -> Reason {
    Reason::WrongService {
        kept: EntityType::Osd,
        got: EntityType::Mgr,
    }
}

#[test]
fn what_an_acceptor_refuses_has_its_words(rt: HostRuntime) {
    let alloc = rt.alloc();
    expect_words(&rt, alloc, Reason::LinksFull, "links-full 1024");
    expect_words(&rt, alloc, Reason::NotADaemon, "not-a-daemon");
    expect_words(&rt, alloc, Reason::BadRequest, "bad-request");
    expect_words(&rt, alloc, wrong_service(), "wrong-service osd mgr");
}

#[test]
fn what_a_client_refuses_has_its_words(rt: HostRuntime) {
    let alloc = rt.alloc();
    expect_words(&rt, alloc, Reason::BadReply, "bad-reply");
    expect_words(&rt, alloc, Reason::Denied(13), "denied 13");
    expect_words(&rt, alloc, Reason::Reset, "reset");
    expect_words(&rt, alloc, Reason::Lost, "lost");
    expect_words(
        &rt,
        alloc,
        Reason::NoTicket(EntityType::Mds),
        "no-ticket mds",
    );
    expect_words(&rt, alloc, Reason::NoSession, "no-session");
    expect_words(&rt, alloc, Reason::NoLink, "no-link");
    expect_words(&rt, alloc, Reason::Busy, "busy");
    expect_words(&rt, alloc, Reason::QueueFull, "queue-full 1024");
    expect_words(&rt, alloc, Reason::Spent, "spent");
}

// ---- refused tickets

/// A fault of a ticket and its words.
type OfTicket = (TicketFault, &'static str);

static TICKET: [OfTicket; 6] = [
    (TicketFault::UnknownGeneration(4), "unknown-generation 4"),
    (TicketFault::TicketUnopened(2), "ticket-unopened 2"),
    (
        TicketFault::GidDiffers {
            claimed: 3,
            sealed: 2,
        },
        "gid-differs 3 2",
    ),
    (
        TicketFault::Expired(4600 * SECOND, 4600 * SECOND + 1),
        "expired 4600 4600.000000001",
    ),
    (TicketFault::AuthorizerUnopened, "authorizer-unopened"),
    (
        TicketFault::ChallengeWrong {
            expected: 7,
            got: 8,
        },
        "challenge-wrong 7 8",
    ),
];

fn numbered_0(rt: &impl Abort, alloc: Global, words: &str) -> String {
    let text = format!(in alloc; "{words} ticket=0");
    text.expect(rt, "memory is ample")
}

/// The refusal of a ticket that no entry issued has the words of its fault, and the number 0.
fn expect_of_ticket(rt: &impl Abort, alloc: Global, row: &OfTicket) {
    let words = numbered_0(rt, alloc, row.1);
    let reason = Reason::Ticket(row.0, blob(rt, alloc, b"six"));
    expect_words(rt, alloc, reason, &words);
}

#[test]
fn faults_of_tickets_have_their_words(rt: HostRuntime) {
    for row in &TICKET {
        expect_of_ticket(&rt, rt.alloc(), row);
    }
}

fn refused_ticket(rt: &impl Abort, alloc: Global, ticket: &[u8]) -> Entry {
    let fault = TicketFault::AuthorizerUnopened;
    Entry::Refused(Refused {
        node: NodeName::Monitor,
        link: 3,
        reason: Reason::Ticket(fault, blob(rt, alloc, ticket)),
    })
}

fn push_issued(
    rt: &impl Abort,
    alloc: Global,
    journal: &mut Journal,
    service: EntityType,
    ticket: &[u8],
) {
    push(rt, alloc, journal, issued(rt, alloc, service, ticket));
}

fn push_refused(rt: &impl Abort, alloc: Global, journal: &mut Journal, ticket: &[u8]) {
    push(rt, alloc, journal, refused_ticket(rt, alloc, ticket));
}

/// A journal of three tickets, the second and third of one blob, and of three refusals. A ticket that was issued between them is taken
/// back.
fn tickets(rt: &impl Abort, alloc: Global) -> Journal {
    let mut journal = Journal::new(alloc);
    push_issued(rt, alloc, &mut journal, EntityType::Osd, b"one");
    push_issued(rt, alloc, &mut journal, EntityType::Osd, b"two");
    push_issued(rt, alloc, &mut journal, EntityType::Osd, b"six");
    journal.truncate(2);
    push_issued(rt, alloc, &mut journal, EntityType::Mgr, b"two");
    push_refused(rt, alloc, &mut journal, b"two");
    push_refused(rt, alloc, &mut journal, b"six");
    journal
}

const TICKETS: &str = "issued 1 client.a osd 2 2 1000 4600 \"allow *\"
issued 2 client.a osd 2 2 1000 4600 \"allow *\"
issued 3 client.a mgr 2 2 1000 4600 \"allow *\"
refused mon 3 authorizer-unopened ticket=2
refused mon 3 authorizer-unopened ticket=0
";

#[test]
fn a_refused_ticket_has_the_number_of_its_first_issue(rt: HostRuntime) {
    let journal = tickets(&rt, rt.alloc());
    assert!(rt; has_text(&rt, rt.alloc(), &journal, TICKETS));
}

// ---- past round numbers

/// A ticket of a blob of its own, and an operation sent with a cookie of its own.
fn push_two(rt: &impl Abort, alloc: Global, journal: &mut Journal, number: u64) {
    push_issued(rt, alloc, journal, EntityType::Osd, &number.to_le_bytes());
    push(rt, alloc, journal, sent(rt, alloc, number));
}

/// So many tickets, each of a blob of its own, and so many operations sent, each with a cookie of its own.
fn long_journal(rt: &impl Abort, alloc: Global, count: u64) -> Journal {
    let mut journal = Journal::new(alloc);
    for number in 1..=count {
        push_two(rt, alloc, &mut journal, number);
    }
    journal
}

const FIRST_LINES: &str = "behind\nissued 1 ";

const LAST_LINES: &str = "issued 70000 client.a osd 2 2 1000 4600 \"allow *\"
sent client.a osd.0 c70000 1 read rbd - obj1 -
";

fn count(journal: &Journal) -> usize {
    journal.all().len()
}

/// The text of a journal behind a line.
fn text_behind(rt: &impl Abort, alloc: Global, journal: &Journal) -> Blob {
    let mut text = blob(rt, alloc, b"behind\n");
    put(rt, alloc, journal, &mut text);
    text
}

/// The text of a copy of a journal behind a line.
fn text_of_copy(rt: &impl Abort, alloc: Global, journal: &Journal) -> Blob {
    let copied = copied(rt, alloc, journal);
    text_behind(rt, alloc, &copied)
}

fn starts(text: &Blob, start: &str) -> bool {
    text.bytes().starts_with(start.as_bytes())
}

fn ends(text: &Blob, end: &str) -> bool {
    text.bytes().ends_with(end.as_bytes())
}

#[test]
fn a_journal_of_140_000_entries_is_written(rt: HostRuntime) {
    let journal = long_journal(&rt, rt.alloc(), 70_000);
    assert!(rt; count(&journal) == 140_000);
    let text = text_of_copy(&rt, rt.alloc(), &journal);
    assert!(rt; starts(&text, FIRST_LINES));
    assert!(rt; ends(&text, LAST_LINES));
}
