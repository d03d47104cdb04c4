//! Why a node refused something, as a line says it.

ghost use Rattle.std.specs.Prelude.{◌≡◌, ◌∷◌, [], map, IfOk};
ghost use Rattle.cx_audit_text.specs.lines.Reasons.{reason_form, reason_places, reason_values, ticket_places, IsReasonRead};
ghost use Rattle.cx_audit_text.specs.words.Items.{NumberOf};
ghost use Rattle.cx_audit_text.specs.declared.words_reasons.FullForm.{FullForm};
ghost use Rattle.cx_audit_text.specs.declared.words_places.CountedAbove.{CountedAbove};
ghost use Rattle.cx_audit_text.specs.declared.words_reasons.ReasonForm.{ReasonForm};
ghost use Rattle.cx_audit_text.specs.declared.words_reasons.TicketForm.{TicketForm};

use crate::{
    CountedAbove, FullForm, JournalPlace, NumberedForm, PlainForm, ReasonForm, TicketForm, byte,
    entity_type_named, is_full, is_full_book, printed_reading, refused_ticket, short,
};
use cx_journal::{BytesFault, LoginFault, Reason, SessionFault, TicketFault};
use cx_words::{name, number};
use std::alloc::{AllocError, Global};

/// The places behind the first word of a reason of this form.
pub fn reason_places(form: ReasonForm) -> &'static [JournalPlace]
    ensures { result.now ≡ reason_places form }
{
    match form {
        ReasonForm::Plain(_) => &[],
        ReasonForm::Numbered(_) => &[JournalPlace::Number],
        ReasonForm::Full(FullForm::Book) => &[JournalPlace::FullBook],
        ReasonForm::Full(FullForm::Links) => &[JournalPlace::Full],
        ReasonForm::Full(FullForm::Queue) => &[JournalPlace::Full],
        ReasonForm::Unexpected => &[JournalPlace::Byte],
        ReasonForm::Denied => &[JournalPlace::Short],
        ReasonForm::NonceWrong => &[JournalPlace::Number, JournalPlace::Number],
        ReasonForm::NoTicket => &[JournalPlace::Type],
        ReasonForm::WrongService => &[JournalPlace::Type, JournalPlace::Type],
        ReasonForm::OwnerDiffers => &[JournalPlace::Entity, JournalPlace::Number],
        ReasonForm::Ticket(form) => ticket_places(form),
    }
}

const TWO_NUMBERS: [JournalPlace; 3] = [
    JournalPlace::Number,
    JournalPlace::Number,
    JournalPlace::Ticket,
];

const TWO_READINGS: [JournalPlace; 3] = [
    JournalPlace::Reading,
    JournalPlace::Reading,
    JournalPlace::Ticket,
];

fn ticket_places(form: TicketForm) -> &'static [JournalPlace]
    ensures { result.now ≡ ticket_places form }
{
    match form {
        TicketForm::UnknownGeneration => &[JournalPlace::Number, JournalPlace::Ticket],
        TicketForm::TicketUnopened => &[JournalPlace::Number, JournalPlace::Ticket],
        TicketForm::GidDiffers => &TWO_NUMBERS,
        TicketForm::Expired => &TWO_READINGS,
        TicketForm::AuthorizerUnopened => &[JournalPlace::Ticket],
        TicketForm::ChallengeWrong => &TWO_NUMBERS,
    }
}

/// The reason that these words spell behind a first word of this form; none where one of them isn't good at its place.
pub fn reason_of(
    alloc: Global,
    counted: CountedAbove,
    form: ReasonForm,
    words: &[&[u8]],
) -> Result<Option<Reason>, AllocError>
    ensures { IfOk result (IsReasonRead counted form (map (λ w. w.now) words.now)) }
{
    match form {
        ReasonForm::Plain(form) => Ok(plain_of(form, words)),
        ReasonForm::Numbered(form) => Ok(numbered_of(form, words)),
        ReasonForm::Full(form) => Ok(full_of(form, words)),
        ReasonForm::Unexpected => Ok(unexpected_of(words)),
        ReasonForm::Denied => Ok(denied_of(words)),
        ReasonForm::NonceWrong => Ok(nonce_wrong_of(words)),
        ReasonForm::NoTicket => Ok(no_ticket_of(words)),
        ReasonForm::WrongService => Ok(wrong_service_of(words)),
        ReasonForm::OwnerDiffers => owner_differs_of(alloc, words),
        ReasonForm::Ticket(form) => ticket_reason_of(alloc, counted, form, words),
    }
}

fn plain_of(form: PlainForm, words: &[&[u8]]) -> Option<Reason>
    ensures { (counted : CountedAbove) → IsReasonRead counted (ReasonForm.Plain form) (map (λ w. w.now) words.now) result }
{
    if words.is_empty() {
        Some(plain(form))
    } else {
        None
    }
}

fn plain(form: PlainForm) -> Reason
    ensures form { reason_form result ≡ ReasonForm.Plain form }
    ensures values { reason_values result ≡ [] }
{
    match form {
        PlainForm::BadBanner => Reason::Bytes(BytesFault::BadBanner),
        PlainForm::BadCrc => Reason::Bytes(BytesFault::BadCrc),
        PlainForm::BadShape => Reason::Bytes(BytesFault::BadShape),
        PlainForm::TooLong => Reason::Bytes(BytesFault::TooLong),
        PlainForm::BadTag => Reason::Bytes(BytesFault::BadTag),
        PlainForm::Aborted => Reason::Bytes(BytesFault::Aborted),
        PlainForm::CounterSpent => Reason::Bytes(BytesFault::CounterSpent),
        PlainForm::Method => Reason::Login(LoginFault::Method),
        PlainForm::Mode => Reason::Login(LoginFault::Mode),
        PlainForm::UnknownEntity => Reason::Login(LoginFault::UnknownEntity),
        PlainForm::WrongProof => Reason::Login(LoginFault::WrongProof),
        PlainForm::GidsSpent => Reason::Login(LoginFault::GidsSpent),
        PlainForm::IdsSpent => Reason::Login(LoginFault::IdsSpent),
        PlainForm::SignatureWrong => Reason::Login(LoginFault::SignatureWrong),
        PlainForm::Unopened => Reason::Login(LoginFault::Unopened),
        PlainForm::NotADaemon => Reason::NotADaemon,
        PlainForm::BadRequest => Reason::BadRequest,
        PlainForm::BadReply => Reason::BadReply,
        PlainForm::Reset => Reason::Reset,
        PlainForm::Lost => Reason::Lost,
        PlainForm::NoSession => Reason::NoSession,
        PlainForm::NoLink => Reason::NoLink,
        PlainForm::Busy => Reason::Busy,
        PlainForm::Spent => Reason::Spent,
        PlainForm::UnknownSession => Reason::Session(SessionFault::UnknownSession),
    }
}

fn numbered_of(form: NumberedForm, words: &[&[u8]]) -> Option<Reason>
    ensures { (counted : CountedAbove) → IsReasonRead counted (ReasonForm.Numbered form) (map (λ w. w.now) words.now) result }
{
    let [word] = words else {
        return None;
    };
    let n = number(word)?;
    Some(numbered(form, n))
}

fn numbered(form: NumberedForm, n: u64) -> Reason
    ensures form { reason_form result ≡ ReasonForm.Numbered form }
    ensures values { reason_values result ≡ NumberOf n ∷ [] }
{
    match form {
        NumberedForm::Features => Reason::Bytes(BytesFault::Features(n)),
        NumberedForm::Malformed => Reason::Bytes(BytesFault::Malformed(n as usize)),
        NumberedForm::Reclaim => Reason::Login(LoginFault::Reclaim(n)),
        NumberedForm::CookieInUse => Reason::Session(SessionFault::CookieInUse(n)),
        NumberedForm::StaleConnect => Reason::Session(SessionFault::StaleConnect(n)),
        NumberedForm::StaleGlobal => Reason::Session(SessionFault::StaleGlobal(n)),
        NumberedForm::Gap => Reason::Session(SessionFault::Gap(n)),
        NumberedForm::Stale => Reason::Session(SessionFault::Stale(n)),
    }
}

fn full_of(form: FullForm, words: &[&[u8]]) -> Option<Reason>
    ensures { (counted : CountedAbove) → IsReasonRead counted (ReasonForm.Full form) (map (λ w. w.now) words.now) result }
{
    match form {
        FullForm::Links => links_full_of(words),
        FullForm::Queue => queue_full_of(words),
        FullForm::Book => book_full_of(words),
    }
}

fn links_full_of(words: &[&[u8]]) -> Option<Reason>
    ensures { (counted : CountedAbove) → IsReasonRead counted (ReasonForm.Full FullForm.Links) (map (λ w. w.now) words.now) result }
{
    let [word] = words else {
        return None;
    };
    if is_full(word) {
        Some(Reason::LinksFull)
    } else {
        None
    }
}

fn queue_full_of(words: &[&[u8]]) -> Option<Reason>
    ensures { (counted : CountedAbove) → IsReasonRead counted (ReasonForm.Full FullForm.Queue) (map (λ w. w.now) words.now) result }
{
    let [word] = words else {
        return None;
    };
    if is_full(word) {
        Some(Reason::QueueFull)
    } else {
        None
    }
}

fn book_full_of(words: &[&[u8]]) -> Option<Reason>
    ensures { (counted : CountedAbove) → IsReasonRead counted (ReasonForm.Full FullForm.Book) (map (λ w. w.now) words.now) result }
{
    let [word] = words else {
        return None;
    };
    if is_full_book(word) {
        Some(Reason::Session(SessionFault::BookFull))
    } else {
        None
    }
}

fn unexpected_of(words: &[&[u8]]) -> Option<Reason>
    ensures { (counted : CountedAbove) → IsReasonRead counted ReasonForm.Unexpected (map (λ w. w.now) words.now) result }
{
    let [word] = words else {
        return None;
    };
    let tag = byte(word)?;
    Some(Reason::Bytes(BytesFault::Unexpected(tag)))
}

fn denied_of(words: &[&[u8]]) -> Option<Reason>
    ensures { (counted : CountedAbove) → IsReasonRead counted ReasonForm.Denied (map (λ w. w.now) words.now) result }
{
    let [word] = words else {
        return None;
    };
    let code = short(word)?;
    Some(Reason::Denied(code))
}

fn nonce_wrong_of(words: &[&[u8]]) -> Option<Reason>
    ensures { (counted : CountedAbove) → IsReasonRead counted ReasonForm.NonceWrong (map (λ w. w.now) words.now) result }
{
    let [first, second] = words else {
        return None;
    };
    let expected = number(first)?;
    let got = number(second)?;
    Some(Reason::Login(LoginFault::NonceWrong { expected, got }))
}

fn no_ticket_of(words: &[&[u8]]) -> Option<Reason>
    ensures { (counted : CountedAbove) → IsReasonRead counted ReasonForm.NoTicket (map (λ w. w.now) words.now) result }
{
    let [word] = words else {
        return None;
    };
    let service = entity_type_named(word)?;
    Some(Reason::NoTicket(service))
}

fn wrong_service_of(words: &[&[u8]]) -> Option<Reason>
    ensures { (counted : CountedAbove) → IsReasonRead counted ReasonForm.WrongService (map (λ w. w.now) words.now) result }
{
    let [first, second] = words else {
        return None;
    };
    let kept = entity_type_named(first)?;
    let got = entity_type_named(second)?;
    Some(Reason::WrongService { kept, got })
}

fn owner_differs_of(alloc: Global, words: &[&[u8]]) -> Result<Option<Reason>, AllocError>
    ensures { (counted : CountedAbove) → IfOk result (IsReasonRead counted ReasonForm.OwnerDiffers (map (λ w. w.now) words.now)) }
{
    let [first, second] = words else {
        return Ok(None);
    };
    let Some(gid) = number(second) else {
        return Ok(None);
    };
    let Some(entity) = name(alloc, first)? else {
        return Ok(None);
    };
    Ok(Some(Reason::Session(SessionFault::OwnerDiffers { entity, gid })))
}

fn ticket_reason_of(
    alloc: Global,
    counted: CountedAbove,
    form: TicketForm,
    words: &[&[u8]],
) -> Result<Option<Reason>, AllocError>
    ensures { IfOk result (IsReasonRead counted (ReasonForm.Ticket form) (map (λ w. w.now) words.now)) }
{
    match words {
        [ticket] => opened_reason(alloc, counted, form, ticket),
        [first, ticket] => generation_reason(alloc, counted, form, first, ticket),
        [first, second, ticket] => compared_reason(alloc, counted, form, first, second, ticket),
        _ => Ok(None),
    }
}

fn opened_reason(
    alloc: Global,
    counted: CountedAbove,
    form: TicketForm,
    ticket: &[u8],
) -> Result<Option<Reason>, AllocError>
    ensures { IfOk result (IsReasonRead counted (ReasonForm.Ticket form) (ticket.now ∷ [])) }
{
    match form {
        TicketForm::AuthorizerUnopened => {
            let Some(blob) = refused_ticket(alloc, counted, ticket)? else {
                return Ok(None);
            };
            Ok(Some(Reason::Ticket(TicketFault::AuthorizerUnopened, blob)))
        }
        TicketForm::UnknownGeneration => Ok(None),
        TicketForm::TicketUnopened => Ok(None),
        TicketForm::GidDiffers => Ok(None),
        TicketForm::Expired => Ok(None),
        TicketForm::ChallengeWrong => Ok(None),
    }
}

fn generation_reason(
    alloc: Global,
    counted: CountedAbove,
    form: TicketForm,
    first: &[u8],
    ticket: &[u8],
) -> Result<Option<Reason>, AllocError>
    ensures { IfOk result (IsReasonRead counted (ReasonForm.Ticket form) (first.now ∷ ticket.now ∷ [])) }
{
    match form {
        TicketForm::UnknownGeneration => unknown_generation(alloc, counted, first, ticket),
        TicketForm::TicketUnopened => ticket_unopened(alloc, counted, first, ticket),
        TicketForm::AuthorizerUnopened => Ok(None),
        TicketForm::GidDiffers => Ok(None),
        TicketForm::Expired => Ok(None),
        TicketForm::ChallengeWrong => Ok(None),
    }
}

fn unknown_generation(
    alloc: Global,
    counted: CountedAbove,
    first: &[u8],
    ticket: &[u8],
) -> Result<Option<Reason>, AllocError>
    ensures { IfOk result (IsReasonRead counted (ReasonForm.Ticket TicketForm.UnknownGeneration) (first.now ∷ ticket.now ∷ [])) }
{
    let Some(id) = number(first) else {
        return Ok(None);
    };
    let Some(blob) = refused_ticket(alloc, counted, ticket)? else {
        return Ok(None);
    };
    Ok(Some(Reason::Ticket(TicketFault::UnknownGeneration(id), blob)))
}

fn ticket_unopened(
    alloc: Global,
    counted: CountedAbove,
    first: &[u8],
    ticket: &[u8],
) -> Result<Option<Reason>, AllocError>
    ensures { IfOk result (IsReasonRead counted (ReasonForm.Ticket TicketForm.TicketUnopened) (first.now ∷ ticket.now ∷ [])) }
{
    let Some(id) = number(first) else {
        return Ok(None);
    };
    let Some(blob) = refused_ticket(alloc, counted, ticket)? else {
        return Ok(None);
    };
    Ok(Some(Reason::Ticket(TicketFault::TicketUnopened(id), blob)))
}

fn compared_reason(
    alloc: Global,
    counted: CountedAbove,
    form: TicketForm,
    first: &[u8],
    second: &[u8],
    ticket: &[u8],
) -> Result<Option<Reason>, AllocError>
    ensures { IfOk result (IsReasonRead counted (ReasonForm.Ticket form) (first.now ∷ second.now ∷ ticket.now ∷ [])) }
{
    match form {
        TicketForm::GidDiffers => gid_differs(alloc, counted, first, second, ticket),
        TicketForm::ChallengeWrong => challenge_wrong(alloc, counted, first, second, ticket),
        TicketForm::Expired => expired(alloc, counted, first, second, ticket),
        TicketForm::UnknownGeneration => Ok(None),
        TicketForm::TicketUnopened => Ok(None),
        TicketForm::AuthorizerUnopened => Ok(None),
    }
}

fn gid_differs(
    alloc: Global,
    counted: CountedAbove,
    first: &[u8],
    second: &[u8],
    ticket: &[u8],
) -> Result<Option<Reason>, AllocError>
    ensures { IfOk result (IsReasonRead counted (ReasonForm.Ticket TicketForm.GidDiffers) (first.now ∷ second.now ∷ ticket.now ∷ [])) }
{
    let Some(claimed) = number(first) else {
        return Ok(None);
    };
    let Some(sealed) = number(second) else {
        return Ok(None);
    };
    let Some(blob) = refused_ticket(alloc, counted, ticket)? else {
        return Ok(None);
    };
    Ok(Some(Reason::Ticket(TicketFault::GidDiffers { claimed, sealed }, blob)))
}

fn challenge_wrong(
    alloc: Global,
    counted: CountedAbove,
    first: &[u8],
    second: &[u8],
    ticket: &[u8],
) -> Result<Option<Reason>, AllocError>
    ensures { IfOk result (IsReasonRead counted (ReasonForm.Ticket TicketForm.ChallengeWrong) (first.now ∷ second.now ∷ ticket.now ∷ [])) }
{
    let Some(expected) = number(first) else {
        return Ok(None);
    };
    let Some(got) = number(second) else {
        return Ok(None);
    };
    let Some(blob) = refused_ticket(alloc, counted, ticket)? else {
        return Ok(None);
    };
    Ok(Some(Reason::Ticket(TicketFault::ChallengeWrong { expected, got }, blob)))
}

fn expired(
    alloc: Global,
    counted: CountedAbove,
    first: &[u8],
    second: &[u8],
    ticket: &[u8],
) -> Result<Option<Reason>, AllocError>
    ensures { IfOk result (IsReasonRead counted (ReasonForm.Ticket TicketForm.Expired) (first.now ∷ second.now ∷ ticket.now ∷ [])) }
{
    let Some(expires) = printed_reading(alloc, first)? else {
        return Ok(None);
    };
    let Some(now) = printed_reading(alloc, second)? else {
        return Ok(None);
    };
    let Some(blob) = refused_ticket(alloc, counted, ticket)? else {
        return Ok(None);
    };
    Ok(Some(Reason::Ticket(TicketFault::Expired(expires, now), blob)))
}
