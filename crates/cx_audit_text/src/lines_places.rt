//! The places of each kind of line.

ghost use Rattle.std.specs.Prelude.{ℕ, ◌≡◌, ◌∷◌, List, map, IfOk};
ghost use Rattle.cx_audit_text.specs.lines.Lines.{behind_reason, places, reason_from, refused_places};
ghost use Rattle.cx_audit_text.specs.declared.choices.JournalHead.{JournalHead};
ghost use Rattle.cx_audit_text.specs.declared.words_places.JournalPlace.{JournalPlace};

use crate::lines_reasons::reason_places;
use crate::{JournalHead, JournalPlace, ReasonForm, reason_named};
use std::alloc::{AllocError, Global};

const ISSUED: [JournalPlace; 8] = [
    JournalPlace::Next,
    JournalPlace::Entity,
    JournalPlace::Type,
    JournalPlace::Number,
    JournalPlace::Number,
    JournalPlace::Reading,
    JournalPlace::Reading,
    JournalPlace::Caps,
];

const SESSION: [JournalPlace; 8] = [
    JournalPlace::Entity,
    JournalPlace::Number,
    JournalPlace::Number,
    JournalPlace::Cookie,
    JournalPlace::Entity,
    JournalPlace::Number,
    JournalPlace::Reading,
    JournalPlace::Caps,
];

const SENT: [JournalPlace; 9] = [
    JournalPlace::Entity,
    JournalPlace::Entity,
    JournalPlace::Cookie,
    JournalPlace::Number,
    JournalPlace::Access,
    JournalPlace::Part,
    JournalPlace::Part,
    JournalPlace::Part,
    JournalPlace::Data,
];

const HANDLED: [JournalPlace; 11] = [
    JournalPlace::Entity,
    JournalPlace::Number,
    JournalPlace::Number,
    JournalPlace::Cookie,
    JournalPlace::Number,
    JournalPlace::Access,
    JournalPlace::Part,
    JournalPlace::Part,
    JournalPlace::Part,
    JournalPlace::Data,
    JournalPlace::Outcome,
];

const LOOKED: [JournalPlace; 4] = [
    JournalPlace::Entity,
    JournalPlace::Short,
    JournalPlace::Ids,
    JournalPlace::Asked,
];

const ANSWERED: [JournalPlace; 4] = [
    JournalPlace::Entity,
    JournalPlace::Entity,
    JournalPlace::Number,
    JournalPlace::Outcome,
];

const BROKEN: [JournalPlace; 4] = [
    JournalPlace::Premise,
    JournalPlace::Node,
    JournalPlace::KeyKind,
    JournalPlace::Short,
];

const REFUSED: [JournalPlace; 3] = [
    JournalPlace::Node,
    JournalPlace::Short,
    JournalPlace::Reason,
];

const ADMINISTERED: [JournalPlace; 5] = [
    JournalPlace::Entity,
    JournalPlace::Verb,
    JournalPlace::Part,
    JournalPlace::Reading,
    JournalPlace::AdminOutcome,
];

/// The places behind the first word of a line of this kind, where these words stand there: those of a refusal go by the word
/// that tells the reason.
pub fn places(
    alloc: Global,
    head: JournalHead,
    words: &[&[u8]],
) -> Result<Vec<JournalPlace>, AllocError>
    ensures { IfOk result (λ found. found.items ≡ places head (map (λ w. w.now) words.now)) }
{
    match head {
        JournalHead::Saved => Vec::from_slice(alloc, &[JournalPlace::Number]),
        JournalHead::Issued => Vec::from_slice(alloc, &ISSUED),
        JournalHead::Fetched => fetched_places(alloc),
        JournalHead::Looked => Vec::from_slice(alloc, &LOOKED),
        JournalHead::Admitted => Vec::from_slice(alloc, &SESSION),
        JournalHead::Resumed => Vec::from_slice(alloc, &SESSION),
        JournalHead::Sent => Vec::from_slice(alloc, &SENT),
        JournalHead::Handled => Vec::from_slice(alloc, &HANDLED),
        JournalHead::Answered => Vec::from_slice(alloc, &ANSWERED),
        JournalHead::Refused => refused_places(alloc, words),
        JournalHead::Ended => {
            Vec::from_slice(alloc, &[JournalPlace::Entity, JournalPlace::Number])
        }
        JournalHead::Restarted => Vec::from_slice(alloc, &[JournalPlace::Node]),
        JournalHead::Broken => Vec::from_slice(alloc, &BROKEN),
        JournalHead::Leaked => Vec::from_slice(alloc, &[JournalPlace::Entity]),
        JournalHead::Administered => Vec::from_slice(alloc, &ADMINISTERED),
    }
}

fn fetched_places(alloc: Global) -> Result<Vec<JournalPlace>, AllocError>
    ensures { (words : List (List ℕ)) → IfOk result (λ found. found.items ≡ places JournalHead.Fetched words) }
{
    let all = [
        JournalPlace::Entity,
        JournalPlace::Reading,
        JournalPlace::Ids,
    ];
    Vec::from_slice(alloc, &all)
}

fn refused_places(alloc: Global, words: &[&[u8]]) -> Result<Vec<JournalPlace>, AllocError>
    ensures { IfOk result (λ found. found.items ≡ refused_places (map (λ w. w.now) words.now)) }
{
    let [_, _, rest @ ..] = words else {
        return Vec::from_slice(alloc, &REFUSED);
    };
    refused_from(alloc, rest)
}

/// The same, from the word on that tells the reason.
fn refused_from(alloc: Global, words: &[&[u8]]) -> Result<Vec<JournalPlace>, AllocError>
    ensures { IfOk result (λ found. found.items ≡ JournalPlace.Node ∷ JournalPlace.Short ∷ reason_from (map (λ w. w.now) words.now)) }
{
    let mut found = Vec::from_slice(alloc, &REFUSED)?;
    let [reason, _rest @ ..] = words else {
        return Ok(found);
    };
    found.extend_from_slice(behind_reason(reason_named(reason)))?;
    Ok(found)
}

/// The places behind a word that begins this reason, or none.
fn behind_reason(form: Option<ReasonForm>) -> &'static [JournalPlace]
    ensures { result.now ≡ behind_reason form }
{
    match form {
        Some(form) => reason_places(form),
        None => &[],
    }
}
