//! Words of which a place takes one of a few.

ghost use Rattle.std.specs.Prelude.{◌≡◌, IfSome};
ghost use Rattle.cx_words.specs.lines.Choices.{chosen};
ghost use Rattle.cx_base.specs.Names.{type_word};
ghost use Rattle.cx_journal.specs.Words.{key_kind_word, outcome_word, premise_word};
ghost use Rattle.cx_audit_text.specs.words.Choices.{admin_outcome_of, admin_outcome_word, head_of, head_word, key_kind_of, outcome_of, premise_of, entity_type_of, verb_of, verb_word};

use cx_base::EntityType;
use cx_journal::{KeyKind, Outcome, Premise};
use cx_words::is_word;

/// The kind of a line, told by its first word.
#[derive(Clone, Copy, Debug, PartialEq, Eq)]
pub enum JournalHead {
    Saved,
    Issued,
    Fetched,
    Looked,
    Admitted,
    Resumed,
    Sent,
    Handled,
    Answered,
    Refused,
    Ended,
    Restarted,
    Broken,
    Leaked,
    Administered,
}

/// What an administrator asks of an entity: that its caps change, that it is deleted, that it is shown.
#[derive(Clone, Copy, Debug, PartialEq, Eq)]
pub enum Verb {
    Caps,
    Del,
    Get,
}

/// How the monitor answered an administrator.
#[derive(Clone, Copy, Debug, PartialEq, Eq)]
pub enum AdminOutcome {
    Done,
    Denied,
    Rejected,
    NoHandler,
}

impl JournalHead {
    /// The word that a line of this kind begins with.
    pub fn word(self) -> &'static str
        ensures { result.now ≡ head_word self }
    {
        match self {
            JournalHead::Saved => "saved",
            JournalHead::Issued => "issued",
            JournalHead::Fetched => "fetched",
            JournalHead::Looked => "looked",
            JournalHead::Admitted => "admitted",
            JournalHead::Resumed => "resumed",
            JournalHead::Sent => "sent",
            JournalHead::Handled => "handled",
            JournalHead::Answered => "answered",
            JournalHead::Refused => "refused",
            JournalHead::Ended => "ended",
            JournalHead::Restarted => "restarted",
            JournalHead::Broken => "broken",
            JournalHead::Leaked => "leaked",
            JournalHead::Administered => "administered",
        }
    }
}

impl Verb {
    fn word(self) -> &'static str
        ensures { result.now ≡ verb_word self }
    {
        match self {
            Verb::Caps => "caps",
            Verb::Del => "del",
            Verb::Get => "get",
        }
    }
}

impl AdminOutcome {
    fn word(self) -> &'static str
        ensures { result.now ≡ admin_outcome_word self }
    {
        match self {
            AdminOutcome::Done => "done",
            AdminOutcome::Denied => "denied",
            AdminOutcome::Rejected => "rejected",
            AdminOutcome::NoHandler => "no-handler",
        }
    }
}

fn outcome_word(value: Outcome) -> &'static str
    ensures { result.now ≡ outcome_word value }
{
    match value {
        Outcome::Done => "done",
        Outcome::Denied => "denied",
        Outcome::NoHandler => "no-handler",
    }
}

fn premise_word(value: Premise) -> &'static str
    ensures { result.now ≡ premise_word value }
{
    match value {
        Premise::Sealing => "sealing",
        Premise::Draw => "draw",
    }
}

fn key_kind_word(value: KeyKind) -> &'static str
    ensures { result.now ≡ key_kind_word value }
{
    match value {
        KeyKind::Principal => "principal",
        KeyKind::Auth => "auth",
        KeyKind::Service => "service",
        KeyKind::Session => "session",
        KeyKind::Connection => "connection",
        KeyKind::Proof => "proof",
        KeyKind::Signature => "signature",
        KeyKind::Challenge => "challenge",
        KeyKind::Nonce => "nonce",
        KeyKind::Cookie => "cookie",
        KeyKind::Rotation => "rotation",
    }
}

fn type_word(value: EntityType) -> &'static str
    ensures { result.now ≡ type_word value }
{
    match value {
        EntityType::Mon => "mon",
        EntityType::Mds => "mds",
        EntityType::Osd => "osd",
        EntityType::Client => "client",
        EntityType::Mgr => "mgr",
        EntityType::Auth => "auth",
    }
}

const HEADS: [JournalHead; 15] = [
    JournalHead::Saved,
    JournalHead::Issued,
    JournalHead::Fetched,
    JournalHead::Looked,
    JournalHead::Admitted,
    JournalHead::Resumed,
    JournalHead::Sent,
    JournalHead::Handled,
    JournalHead::Answered,
    JournalHead::Refused,
    JournalHead::Ended,
    JournalHead::Restarted,
    JournalHead::Broken,
    JournalHead::Leaked,
    JournalHead::Administered,
];

#[tactic(auto, unfolding(crate::specs::words::Choices::head_of))]
fn head_of(word: &[u8]) -> Option<JournalHead>
    ensures { result ≡ head_of word.now }
{
    head_among(&HEADS, word)
}

fn head_among(all: &[JournalHead], word: &[u8]) -> Option<JournalHead>
    ensures { result ≡ chosen head_word all.now word.now }
{
    for value in all {
        if is_word(word, value.word()) {
            return Some(*value);
        }
    }
    None
}

/// The kind of a line that begins with the word.
#[tactic(auto, using(crate::proofs::words::Chosen::head_spelled))]
pub fn head_named(word: &[u8]) -> Option<JournalHead>
    ensures read { result ≡ head_of word.now }
    ensures spelled { IfSome result (λ value. word.now ≡ head_word value) }
{
    head_of(word)
}

const VERBS: [Verb; 3] = [Verb::Caps, Verb::Del, Verb::Get];

#[tactic(auto, unfolding(crate::specs::words::Choices::verb_of))]
fn verb_of(word: &[u8]) -> Option<Verb>
    ensures { result ≡ verb_of word.now }
{
    verb_among(&VERBS, word)
}

fn verb_among(all: &[Verb], word: &[u8]) -> Option<Verb>
    ensures { result ≡ chosen verb_word all.now word.now }
{
    for value in all {
        if is_word(word, value.word()) {
            return Some(*value);
        }
    }
    None
}

/// What the word asks.
#[tactic(auto, using(crate::proofs::words::Chosen::verb_spelled))]
pub fn verb_named(word: &[u8]) -> Option<Verb>
    ensures read { result ≡ verb_of word.now }
    ensures spelled { IfSome result (λ value. word.now ≡ verb_word value) }
{
    verb_of(word)
}

const ADMIN_OUTCOMES: [AdminOutcome; 4] = [
    AdminOutcome::Done,
    AdminOutcome::Denied,
    AdminOutcome::Rejected,
    AdminOutcome::NoHandler,
];

#[tactic(auto, unfolding(crate::specs::words::Choices::admin_outcome_of))]
fn admin_outcome_of(word: &[u8]) -> Option<AdminOutcome>
    ensures { result ≡ admin_outcome_of word.now }
{
    admin_outcome_among(&ADMIN_OUTCOMES, word)
}

fn admin_outcome_among(all: &[AdminOutcome], word: &[u8]) -> Option<AdminOutcome>
    ensures { result ≡ chosen admin_outcome_word all.now word.now }
{
    for value in all {
        if is_word(word, value.word()) {
            return Some(*value);
        }
    }
    None
}

/// The answer that the word names.
#[tactic(auto, using(crate::proofs::words::Chosen::admin_outcome_spelled))]
pub fn admin_outcome_named(word: &[u8]) -> Option<AdminOutcome>
    ensures read { result ≡ admin_outcome_of word.now }
    ensures spelled { IfSome result (λ value. word.now ≡ admin_outcome_word value) }
{
    admin_outcome_of(word)
}

const OUTCOMES: [Outcome; 3] = [Outcome::Done, Outcome::Denied, Outcome::NoHandler];

#[tactic(auto, unfolding(crate::specs::words::Choices::outcome_of))]
fn outcome_of(word: &[u8]) -> Option<Outcome>
    ensures { result ≡ outcome_of word.now }
{
    outcome_among(&OUTCOMES, word)
}

fn outcome_among(all: &[Outcome], word: &[u8]) -> Option<Outcome>
    ensures { result ≡ chosen outcome_word all.now word.now }
{
    for value in all {
        if is_word(word, outcome_word(*value)) {
            return Some(*value);
        }
    }
    None
}

/// The outcome that the word names.
#[tactic(auto, using(crate::proofs::words::Chosen::outcome_spelled))]
pub fn outcome_named(word: &[u8]) -> Option<Outcome>
    ensures read { result ≡ outcome_of word.now }
    ensures spelled { IfSome result (λ value. word.now ≡ outcome_word value) }
{
    outcome_of(word)
}

const PREMISES: [Premise; 2] = [Premise::Sealing, Premise::Draw];

#[tactic(auto, unfolding(crate::specs::words::Choices::premise_of))]
fn premise_of(word: &[u8]) -> Option<Premise>
    ensures { result ≡ premise_of word.now }
{
    premise_among(&PREMISES, word)
}

fn premise_among(all: &[Premise], word: &[u8]) -> Option<Premise>
    ensures { result ≡ chosen premise_word all.now word.now }
{
    for value in all {
        if is_word(word, premise_word(*value)) {
            return Some(*value);
        }
    }
    None
}

/// The premise that the word names.
#[tactic(auto, using(crate::proofs::words::Chosen::premise_spelled))]
pub fn premise_named(word: &[u8]) -> Option<Premise>
    ensures read { result ≡ premise_of word.now }
    ensures spelled { IfSome result (λ value. word.now ≡ premise_word value) }
{
    premise_of(word)
}

const KEY_KINDS: [KeyKind; 11] = [
    KeyKind::Principal,
    KeyKind::Auth,
    KeyKind::Service,
    KeyKind::Session,
    KeyKind::Connection,
    KeyKind::Proof,
    KeyKind::Signature,
    KeyKind::Challenge,
    KeyKind::Nonce,
    KeyKind::Cookie,
    KeyKind::Rotation,
];

#[tactic(auto, unfolding(crate::specs::words::Choices::key_kind_of))]
fn key_kind_of(word: &[u8]) -> Option<KeyKind>
    ensures { result ≡ key_kind_of word.now }
{
    key_kind_among(&KEY_KINDS, word)
}

fn key_kind_among(all: &[KeyKind], word: &[u8]) -> Option<KeyKind>
    ensures { result ≡ chosen key_kind_word all.now word.now }
{
    for value in all {
        if is_word(word, key_kind_word(*value)) {
            return Some(*value);
        }
    }
    None
}

/// The kind of key that the word names.
#[tactic(auto, using(crate::proofs::words::Chosen::key_kind_spelled))]
pub fn key_kind_named(word: &[u8]) -> Option<KeyKind>
    ensures read { result ≡ key_kind_of word.now }
    ensures spelled { IfSome result (λ value. word.now ≡ key_kind_word value) }
{
    key_kind_of(word)
}

const TYPES: [EntityType; 6] = [
    EntityType::Mon,
    EntityType::Mds,
    EntityType::Osd,
    EntityType::Client,
    EntityType::Mgr,
    EntityType::Auth,
];

#[tactic(auto, unfolding(crate::specs::words::Choices::entity_type_of))]
fn entity_type_of(word: &[u8]) -> Option<EntityType>
    ensures { result ≡ entity_type_of word.now }
{
    entity_type_among(&TYPES, word)
}

fn entity_type_among(all: &[EntityType], word: &[u8]) -> Option<EntityType>
    ensures { result ≡ chosen type_word all.now word.now }
{
    for value in all {
        if is_word(word, type_word(*value)) {
            return Some(*value);
        }
    }
    None
}

/// The entity type that the word names.
#[tactic(auto, using(crate::proofs::words::Chosen::entity_type_spelled))]
pub fn entity_type_named(word: &[u8]) -> Option<EntityType>
    ensures read { result ≡ entity_type_of word.now }
    ensures spelled { IfSome result (λ value. word.now ≡ type_word value) }
{
    entity_type_of(word)
}
