//! Entries in memory, whose values are those of their types.

ghost use Rattle.std.specs.Prelude.{ℕ, ◌<◌, IsTrue};
ghost use Rattle.std.specs.List.{AllByRecursion};
ghost use Rattle.cx_audit_text.specs.lines.Lines.{entry_items, session_items, ticket_items};
ghost use Rattle.cx_audit_text.specs.lines.Reasons.{bytes_values, login_values, reason_values, session_values, ticket_values};
ghost use Rattle.cx_audit_text.specs.words.Items.{AreTold};
ghost use Rattle.cx_laws_text.specs.printed.Tellable.{AreOfTypes, IsOfType};
ghost use Rattle.cx_laws_text.specs.told.Told.{ids_told};
ghost use Rattle.cx_words.specs.lines.Named.{is_name};
ghost use Rattle.cx_words.specs.lines.Values.{IsWritable};

use cx_base::{EntityName, NodeName};
use cx_journal::{
    Admitted, Answered, Broken, BytesFault, Ended, Entry, Fetched, Handled, Issued, LoginFault,
    Looked, Reason, Refused, Sent, SessionFault, TicketFault,
};
use cx_rotate::Generations;

/// The values of entries in memory are those of their types: each number has its size, each name can be written, data is bytes,
/// and the ids of generations rise by one. It reads them, and changes nothing.
pub fn have_types(entries: &[Entry])
    ensures { AreOfTypes entries.now }
{
    for (i, entry) in entries.iter().enumerate() {
        has_types(entry);
    }
}

fn has_types(entry: &Entry)
    ensures { AllByRecursion IsOfType (entry_items entry.now) }
{
    match entry {
        Entry::Saved(next) => {
            let _next = *next;
        }
        Entry::Issued(ticket) => ticket_types(ticket),
        Entry::Fetched(fetched) => fetched_types(fetched),
        Entry::Looked(looked) => looked_types(looked),
        Entry::Admitted(session) => session_types(session),
        Entry::Resumed(session) => session_types(session),
        Entry::Sent(sent) => sent_types(sent),
        Entry::Handled(handled) => handled_types(handled),
        Entry::Answered(answered) => answered_types(answered),
        Entry::Refused(refused) => refused_types(refused),
        Entry::Ended(ended) => ended_types(ended),
        Entry::Restarted(node) => node_named(node),
        Entry::Broken(broken) => broken_types(broken),
        Entry::Leaked(client) => named(client),
    }
}

fn named(name: &EntityName)
    ensures { IsTrue (is_name name.now) }
{
    let _kind = name.kind;
}

fn node_named(node: &NodeName)
    ensures { IsWritable node.now }
{
    match node {
        NodeName::Monitor => {}
        NodeName::Entity(name) => named(name),
    }
}

fn ids_rise(generations: &Generations)
    ensures { AreTold (ids_told generations.now) }
{
    if let Some(all) = generations.all() {
        let _ids = (all[0].id, all[1].id, all[2].id);
    }
}

fn are_bytes(bytes: &[u8])
    ensures { AllByRecursion (λ (b : ℕ). b < 256) bytes.now }
{
    for (i, byte) in bytes.iter().enumerate() {
        let _byte = *byte;
    }
}

fn ticket_types(ticket: &Issued)
    ensures { AllByRecursion IsOfType (ticket_items ticket.now) }
{
    named(&ticket.entity);
    let _gid = ticket.gid;
    let _generation = ticket.generation;
}

fn fetched_types(fetched: &Fetched)
    ensures { AllByRecursion IsOfType (entry_items (Entry.Fetched fetched.now)) }
{
    named(&fetched.daemon);
    ids_rise(&fetched.generations);
}

fn looked_types(looked: &Looked)
    ensures { AllByRecursion IsOfType (entry_items (Entry.Looked looked.now)) }
{
    named(&looked.daemon);
    let _link = looked.link;
    ids_rise(&looked.view.generations);
}

fn session_types(session: &Admitted)
    ensures { AllByRecursion IsOfType (session_items session.now) }
{
    named(&session.daemon);
    named(&session.entity);
    let _number = session.session;
    let _epoch = session.epoch;
    let _gid = session.gid;
}

fn sent_types(sent: &Sent)
    ensures { AllByRecursion IsOfType (entry_items (Entry.Sent sent.now)) }
{
    named(&sent.client);
    named(&sent.daemon);
    let _seq = sent.seq;
    are_bytes(sent.operation.bytes.bytes());
}

fn handled_types(handled: &Handled)
    ensures { AllByRecursion IsOfType (entry_items (Entry.Handled handled.now)) }
{
    named(&handled.daemon);
    let _session = handled.session;
    let _epoch = handled.epoch;
    let _seq = handled.seq;
    are_bytes(handled.operation.bytes.bytes());
}

fn answered_types(answered: &Answered)
    ensures { AllByRecursion IsOfType (entry_items (Entry.Answered answered.now)) }
{
    named(&answered.client);
    named(&answered.daemon);
    let _tid = answered.tid;
}

fn refused_types(refused: &Refused)
    ensures { AllByRecursion IsOfType (entry_items (Entry.Refused refused.now)) }
{
    node_named(&refused.node);
    let _link = refused.link;
    reason_types(&refused.reason);
}

fn ended_types(ended: &Ended)
    ensures { AllByRecursion IsOfType (entry_items (Entry.Ended ended.now)) }
{
    named(&ended.daemon);
    let _session = ended.session;
}

fn broken_types(broken: &Broken)
    ensures { AllByRecursion IsOfType (entry_items (Entry.Broken broken.now)) }
{
    node_named(&broken.node);
    let _line = broken.line;
}

fn reason_types(reason: &Reason)
    ensures { AllByRecursion IsOfType (reason_values reason.now) }
{
    match reason {
        Reason::Bytes(fault) => bytes_types(fault),
        Reason::LinksFull => {}
        Reason::Login(fault) => login_types(fault),
        Reason::NotADaemon => {}
        Reason::BadRequest => {}
        Reason::BadReply => {}
        Reason::Denied(code) => {
            let _code = *code;
        }
        Reason::Reset => {}
        Reason::Lost => {}
        Reason::NoTicket(_) => {}
        Reason::NoSession => {}
        Reason::NoLink => {}
        Reason::Busy => {}
        Reason::QueueFull => {}
        Reason::Spent => {}
        Reason::Session(fault) => session_fault_types(fault),
        Reason::WrongService { kept: _, got: _ } => {}
        Reason::Ticket(fault, blob) => ticket_fault_types(fault, blob.bytes()),
    }
}

fn bytes_types(fault: &BytesFault)
    ensures { AllByRecursion IsOfType (bytes_values fault.now) }
{
    match fault {
        BytesFault::BadBanner => {}
        BytesFault::Features(bits) => {
            let _bits = *bits;
        }
        BytesFault::BadCrc => {}
        BytesFault::BadShape => {}
        BytesFault::TooLong => {}
        BytesFault::BadTag => {}
        BytesFault::Aborted => {}
        BytesFault::CounterSpent => {}
        BytesFault::Unexpected(tag) => {
            let _tag = *tag;
        }
        BytesFault::Malformed(place) => {
            let _place = *place;
        }
    }
}

fn login_types(fault: &LoginFault)
    ensures { AllByRecursion IsOfType (login_values fault.now) }
{
    match fault {
        LoginFault::Method => {}
        LoginFault::Mode => {}
        LoginFault::UnknownEntity => {}
        LoginFault::WrongProof => {}
        LoginFault::Reclaim(gid) => {
            let _gid = *gid;
        }
        LoginFault::GidsSpent => {}
        LoginFault::IdsSpent => {}
        LoginFault::SignatureWrong => {}
        LoginFault::Unopened => {}
        LoginFault::NonceWrong { expected, got } => {
            let _nonces = (*expected, *got);
        }
    }
}

fn session_fault_types(fault: &SessionFault)
    ensures { AllByRecursion IsOfType (session_values fault.now) }
{
    match fault {
        SessionFault::BookFull => {}
        SessionFault::CookieInUse(session) => {
            let _session = *session;
        }
        SessionFault::UnknownSession => {}
        SessionFault::OwnerDiffers { entity, gid } => {
            named(entity);
            let _gid = *gid;
        }
        SessionFault::StaleConnect(kept) => {
            let _kept = *kept;
        }
        SessionFault::StaleGlobal(kept) => {
            let _kept = *kept;
        }
        SessionFault::Gap(expected) => {
            let _expected = *expected;
        }
        SessionFault::Stale(epoch) => {
            let _epoch = *epoch;
        }
    }
}

fn ticket_fault_types(fault: &TicketFault, blob: &[u8])
    ensures { AllByRecursion IsOfType (ticket_values fault.now blob.now) }
{
    match fault {
        TicketFault::UnknownGeneration(id) => {
            let _id = *id;
        }
        TicketFault::TicketUnopened(id) => {
            let _id = *id;
        }
        TicketFault::GidDiffers { claimed, sealed } => {
            let _gids = (*claimed, *sealed);
        }
        TicketFault::Expired(_, _) => {}
        TicketFault::AuthorizerUnopened => {}
        TicketFault::ChallengeWrong { expected, got } => {
            let _challenges = (*expected, *got);
        }
    }
}
