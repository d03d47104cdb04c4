//! What the first word of a reason tells.

ghost use Rattle.std.specs.Prelude.{◌≡◌, IfSome};
ghost use Rattle.std.specs.Option.{option_copied};
ghost use Rattle.cx_words.specs.lines.Choices.{chosen};
ghost use Rattle.cx_audit_text.specs.words.Reasons.{full_word, numbered_word, plain_word, reason_form_of, reason_word, ticket_form_word};

use cx_words::is_word;

/// A reason that is one word.
#[derive(Clone, Copy, Debug, PartialEq, Eq)]
pub enum PlainForm {
    BadBanner,
    BadCrc,
    BadShape,
    TooLong,
    BadTag,
    Aborted,
    CounterSpent,
    Method,
    Mode,
    UnknownEntity,
    WrongProof,
    GidsSpent,
    IdsSpent,
    SignatureWrong,
    Unopened,
    NotADaemon,
    BadRequest,
    BadReply,
    Reset,
    Lost,
    NoSession,
    NoLink,
    Busy,
    Spent,
    UnknownSession,
}

/// A reason with one number below 2^64.
#[derive(Clone, Copy, Debug, PartialEq, Eq)]
pub enum NumberedForm {
    Features,
    Malformed,
    Reclaim,
    CookieInUse,
    StaleConnect,
    StaleGlobal,
    Gap,
    Stale,
}

/// A reason with the number of places that are all taken.
#[derive(Clone, Copy, Debug, PartialEq, Eq)]
pub enum FullForm {
    Links,
    Queue,
    Book,
}

/// A reason for which a ticket was refused.
#[derive(Clone, Copy, Debug, PartialEq, Eq)]
pub enum TicketForm {
    UnknownGeneration,
    TicketUnopened,
    GidDiffers,
    Expired,
    AuthorizerUnopened,
    ChallengeWrong,
}

/// The form of a reason, told by its first word.
#[derive(Clone, Copy, Debug, PartialEq, Eq)]
pub enum ReasonForm {
    Plain(PlainForm),
    Numbered(NumberedForm),
    Full(FullForm),
    Unexpected,
    Denied,
    NonceWrong,
    NoTicket,
    WrongService,
    OwnerDiffers,
    Ticket(TicketForm),
}

impl PlainForm {
    fn word(self) -> &'static str
        ensures { result.now ≡ plain_word self }
    {
        match self {
            PlainForm::BadBanner => "bad-banner",
            PlainForm::BadCrc => "bad-crc",
            PlainForm::BadShape => "bad-shape",
            PlainForm::TooLong => "too-long",
            PlainForm::BadTag => "bad-tag",
            PlainForm::Aborted => "aborted",
            PlainForm::CounterSpent => "counter-spent",
            PlainForm::Method => "method",
            PlainForm::Mode => "mode",
            PlainForm::UnknownEntity => "unknown-entity",
            PlainForm::WrongProof => "wrong-proof",
            PlainForm::GidsSpent => "gids-spent",
            PlainForm::IdsSpent => "ids-spent",
            PlainForm::SignatureWrong => "signature-wrong",
            PlainForm::Unopened => "unopened",
            PlainForm::NotADaemon => "not-a-daemon",
            PlainForm::BadRequest => "bad-request",
            PlainForm::BadReply => "bad-reply",
            PlainForm::Reset => "reset",
            PlainForm::Lost => "lost",
            PlainForm::NoSession => "no-session",
            PlainForm::NoLink => "no-link",
            PlainForm::Busy => "busy",
            PlainForm::Spent => "spent",
            PlainForm::UnknownSession => "unknown-session",
        }
    }
}

impl NumberedForm {
    fn word(self) -> &'static str
        ensures { result.now ≡ numbered_word self }
    {
        match self {
            NumberedForm::Features => "features",
            NumberedForm::Malformed => "malformed",
            NumberedForm::Reclaim => "reclaim",
            NumberedForm::CookieInUse => "cookie-in-use",
            NumberedForm::StaleConnect => "stale-connect",
            NumberedForm::StaleGlobal => "stale-global",
            NumberedForm::Gap => "gap",
            NumberedForm::Stale => "stale",
        }
    }
}

impl FullForm {
    fn word(self) -> &'static str
        ensures { result.now ≡ full_word self }
    {
        match self {
            FullForm::Links => "links-full",
            FullForm::Queue => "queue-full",
            FullForm::Book => "book-full",
        }
    }
}

impl TicketForm {
    fn word(self) -> &'static str
        ensures { result.now ≡ ticket_form_word self }
    {
        match self {
            TicketForm::UnknownGeneration => "unknown-generation",
            TicketForm::TicketUnopened => "ticket-unopened",
            TicketForm::GidDiffers => "gid-differs",
            TicketForm::Expired => "expired",
            TicketForm::AuthorizerUnopened => "authorizer-unopened",
            TicketForm::ChallengeWrong => "challenge-wrong",
        }
    }
}

impl ReasonForm {
    fn word(self) -> &'static str
        ensures { result.now ≡ reason_word self }
    {
        match self {
            ReasonForm::Plain(form) => form.word(),
            ReasonForm::Numbered(form) => form.word(),
            ReasonForm::Full(form) => form.word(),
            ReasonForm::Unexpected => "unexpected",
            ReasonForm::Denied => "denied",
            ReasonForm::NonceWrong => "nonce-wrong",
            ReasonForm::NoTicket => "no-ticket",
            ReasonForm::WrongService => "wrong-service",
            ReasonForm::OwnerDiffers => "owner-differs",
            ReasonForm::Ticket(form) => form.word(),
        }
    }
}

const FORMS: [ReasonForm; 48] = [
    ReasonForm::Plain(PlainForm::BadBanner),
    ReasonForm::Plain(PlainForm::BadCrc),
    ReasonForm::Plain(PlainForm::BadShape),
    ReasonForm::Plain(PlainForm::TooLong),
    ReasonForm::Plain(PlainForm::BadTag),
    ReasonForm::Plain(PlainForm::Aborted),
    ReasonForm::Plain(PlainForm::CounterSpent),
    ReasonForm::Plain(PlainForm::Method),
    ReasonForm::Plain(PlainForm::Mode),
    ReasonForm::Plain(PlainForm::UnknownEntity),
    ReasonForm::Plain(PlainForm::WrongProof),
    ReasonForm::Plain(PlainForm::GidsSpent),
    ReasonForm::Plain(PlainForm::IdsSpent),
    ReasonForm::Plain(PlainForm::SignatureWrong),
    ReasonForm::Plain(PlainForm::Unopened),
    ReasonForm::Plain(PlainForm::NotADaemon),
    ReasonForm::Plain(PlainForm::BadRequest),
    ReasonForm::Plain(PlainForm::BadReply),
    ReasonForm::Plain(PlainForm::Reset),
    ReasonForm::Plain(PlainForm::Lost),
    ReasonForm::Plain(PlainForm::NoSession),
    ReasonForm::Plain(PlainForm::NoLink),
    ReasonForm::Plain(PlainForm::Busy),
    ReasonForm::Plain(PlainForm::Spent),
    ReasonForm::Plain(PlainForm::UnknownSession),
    ReasonForm::Numbered(NumberedForm::Features),
    ReasonForm::Numbered(NumberedForm::Malformed),
    ReasonForm::Numbered(NumberedForm::Reclaim),
    ReasonForm::Numbered(NumberedForm::CookieInUse),
    ReasonForm::Numbered(NumberedForm::StaleConnect),
    ReasonForm::Numbered(NumberedForm::StaleGlobal),
    ReasonForm::Numbered(NumberedForm::Gap),
    ReasonForm::Numbered(NumberedForm::Stale),
    ReasonForm::Full(FullForm::Links),
    ReasonForm::Full(FullForm::Queue),
    ReasonForm::Full(FullForm::Book),
    ReasonForm::Unexpected,
    ReasonForm::Denied,
    ReasonForm::NonceWrong,
    ReasonForm::NoTicket,
    ReasonForm::WrongService,
    ReasonForm::OwnerDiffers,
    ReasonForm::Ticket(TicketForm::UnknownGeneration),
    ReasonForm::Ticket(TicketForm::TicketUnopened),
    ReasonForm::Ticket(TicketForm::GidDiffers),
    ReasonForm::Ticket(TicketForm::Expired),
    ReasonForm::Ticket(TicketForm::AuthorizerUnopened),
    ReasonForm::Ticket(TicketForm::ChallengeWrong),
];

/// The form of a reason that begins with the word.
#[tactic(auto, unfolding(crate::specs::words::Reasons::reason_form_of))]
fn form_of(word: &[u8]) -> Option<ReasonForm>
    ensures { result ≡ reason_form_of word.now }
{
    form_among(&FORMS, word)
}

fn form_among(all: &[ReasonForm], word: &[u8]) -> Option<ReasonForm>
    ensures { result ≡ chosen reason_word all.now word.now }
{
    for value in all {
        if is_word(word, value.word()) {
            return Some(*value);
        }
    }
    None
}

/// The form of a reason that begins with the word.
#[tactic(auto, using(crate::proofs::words::Chosen::reason_spelled))]
pub fn reason_named(word: &[u8]) -> Option<ReasonForm>
    ensures read { result ≡ reason_form_of word.now }
    ensures spelled { IfSome result (λ form. word.now ≡ reason_word form) }
{
    form_of(word)
}
