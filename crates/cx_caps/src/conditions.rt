//! Conditions of a clause.

ghost use Rattle.std.specs.Prelude.{◌≡◌, ◌≤◌, ◌∷◌, length, IfSome, IfNone, MatchOption, Some, None, false};
ghost use Rattle.cx_caps.specs.Grammar.{is_met_by, words_of};
ghost use Rattle.cx_caps.specs.Reading.{allows_by, condition_of, condition_on, conditions_from, in_front};

use crate::cut::first_word;
use crate::kinds::ConditionKind;
use cx_base::{Operation, is_long_part};

/// Whether these words are conditions, each kind at most once, and the operation meets them.
pub fn conditions_allow(words: &[u8], ask: &Operation) -> bool
    ensures { result ≡ allows_by ask.now (conditions_from false (words_of words.now)) }
{
    let mut seen = Seen {
        pool: false,
        namespace: false,
        object_prefix: false,
    };
    let mut rest = words;
    'conditions: while let Some((word, behind)) = first_word(rest) {
        let Some((kind, value, after)) = first_condition(word, behind) else {
            return false;
        };
        if seen.has(kind) {
            return false;
        }
        if !is_met_by(kind, value, ask) {
            return false;
        }
        seen.add(kind);
        rest = after;
    }
    true
}

// Of the kinds of conditions, those that stood in a clause so far.
#[derive(Drop)]
struct Seen {
    pool: bool,
    namespace: bool,
    object_prefix: bool,
}

impl Seen {
    ghost use Rattle.std.specs.Prelude.{◌≡◌};
    ghost use Rattle.cx_caps.specs.Seen.{has_seen, with_seen};

    fn has(&self, kind: ConditionKind) -> bool
        ensures { result ≡ has_seen self.now kind }
    {
        match kind {
            ConditionKind::Pool => self.pool,
            ConditionKind::Namespace => self.namespace,
            ConditionKind::ObjectPrefix => self.object_prefix,
        }
    }

    fn add(&mut self, kind: ConditionKind)
        ensures { self.new ≡ with_seen self.old kind }
    {
        match kind {
            ConditionKind::Pool => self.pool = true,
            ConditionKind::Namespace => self.namespace = true,
            ConditionKind::ObjectPrefix => self.object_prefix = true,
        }
    }
}

// The condition that begins with this word: its kind, its value, and what stands behind it.
fn first_condition<'a>(
    word: &'a [u8],
    rest: &'a [u8],
) -> Option<(ConditionKind, &'a [u8], &'a [u8])>
    ensures none { IfNone result (conditions_from false (word.now ∷ words_of rest.now) ≡ None) }
    ensures some { IfSome result (λ found. conditions_from false (word.now ∷ words_of rest.now) ≡ in_front (Some (record { kind = found.0; value = found.1.now })) (conditions_from false (words_of found.2.now))) }
    ensures shorter { IfSome result (λ found. length found.2.now ≤ length rest.now) }
{
    if word == b"object_prefix".as_slice() {
        let (value, behind) = first_word(rest)?;
        if is_long_part(value) {
            return Some((ConditionKind::ObjectPrefix, value, behind));
        }
        return None;
    }
    let (kind, value) = condition_of(word)?;
    Some((kind, value, rest))
}

// The condition that one word is: its kind and its value.
fn condition_of(word: &[u8]) -> Option<(ConditionKind, &[u8])>
    ensures { MatchOption result (condition_of word.now ≡ None) (λ found. condition_of word.now ≡ Some (record { kind = found.0; value = found.1.now })) }
{
    if let Some(value) = word.strip_prefix(b"pool=") {
        return condition_on(ConditionKind::Pool, value);
    }
    if let Some(value) = word.strip_prefix(b"namespace=") {
        return condition_on(ConditionKind::Namespace, value);
    }
    None
}

fn condition_on(kind: ConditionKind, value: &[u8]) -> Option<(ConditionKind, &[u8])>
    ensures { MatchOption result (condition_on kind value.now ≡ None) (λ found. condition_on kind value.now ≡ Some (record { kind = found.0; value = found.1.now })) }
{
    if is_long_part(value) {
        Some((kind, value))
    } else {
        None
    }
}

fn is_met_by(kind: ConditionKind, value: &[u8], ask: &Operation) -> bool
    ensures { result ≡ is_met_by kind value.now ask.now }
{
    match kind {
        ConditionKind::Pool => ask.pool.bytes() == value,
        ConditionKind::Namespace => ask.namespace.bytes() == value,
        ConditionKind::ObjectPrefix => ask.object.bytes().starts_with(value),
    }
}
