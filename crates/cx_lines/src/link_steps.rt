//! Lines on links and on what is in flight there.

ghost use Rattle.std.specs.Prelude.{◌≡◌, ◌∷◌, [], map, IfOk, IfSome};
ghost use Rattle.cx_words.specs.declared.known.Known.{Known};
ghost use Rattle.cx_lines.specs.LinkSteps.{link_form, link_form_of, link_places, link_word, IsLinkStep};
ghost use Rattle.cx_lines.specs.declared.link_steps.LinkForm.{LinkForm};

use cx_base::{Blob, Duplicate};
use cx_words::{Side, WordPlace, hex, is_word, number, side_named};
use std::alloc::{AllocError, Global};

/// What happens to a link. A link has its number, a side of it says from where the bytes come.
#[derive(PartialEq, Eq, Drop)]
pub enum LinkStep {
    /// The oldest piece in flight from a side arrives, or so many first bytes of it.
    Carry(u64, Side, Option<u64>),
    /// The oldest piece in flight from a side is lost.
    Lose(u64, Side),
    /// These bytes arrive as if from a side.
    Inject(u64, Side, Blob),
    /// The piece of this number, from 1, that a side ever sent arrives once more, at the other end of the link named last.
    Again(u64, Side, u64, u64),
    /// The link is cut.
    Cut(u64),
}

/// The form of a line on a link, told by its first word.
#[derive(Clone, Copy, Debug, PartialEq, Eq)]
pub enum LinkForm {
    Carry,
    Lose,
    Inject,
    Again,
    Cut,
}

/// The form of a line on a link that begins with the word.
#[tactic(auto, unfolding(crate::specs::LinkSteps::link_form_of))]
pub fn link_step_named(word: &[u8]) -> Option<LinkForm>
    ensures read { result ≡ link_form_of word.now }
    ensures spelled { IfSome result (λ form. word.now ≡ link_word form) }
{
    if is_word(word, "carry") {
        return Some(LinkForm::Carry);
    }
    if is_word(word, "lose") {
        return Some(LinkForm::Lose);
    }
    if is_word(word, "inject") {
        return Some(LinkForm::Inject);
    }
    if is_word(word, "again") {
        return Some(LinkForm::Again);
    }
    if is_word(word, "cut") {
        return Some(LinkForm::Cut);
    }
    None
}

impl LinkStep {
    /// The form of the line.
    pub fn form(&self) -> LinkForm
        ensures { result ≡ link_form self.now }
    {
        match self {
            LinkStep::Carry(_, _, _) => LinkForm::Carry,
            LinkStep::Lose(_, _) => LinkForm::Lose,
            LinkStep::Inject(_, _, _) => LinkForm::Inject,
            LinkStep::Again(_, _, _, _) => LinkForm::Again,
            LinkStep::Cut(_) => LinkForm::Cut,
        }
    }
}

const AGAIN_PLACES: [WordPlace; 4] = [
    WordPlace::Number,
    WordPlace::Side,
    WordPlace::Number,
    WordPlace::Number,
];

/// The places behind the first word, where these words stand there.
pub fn link_places(form: LinkForm, words: &[&[u8]]) -> &'static [WordPlace]
    ensures { result.now ≡ link_places form (map (λ w. w.now) words.now) }
{
    match form {
        LinkForm::Carry => carry_places(words),
        LinkForm::Lose => &[WordPlace::Number, WordPlace::Side],
        LinkForm::Inject => &[WordPlace::Number, WordPlace::Side, WordPlace::Bytes],
        LinkForm::Again => &AGAIN_PLACES,
        LinkForm::Cut => &[WordPlace::Number],
    }
}

fn carry_places(words: &[&[u8]]) -> &'static [WordPlace]
    ensures { result.now ≡ link_places LinkForm.Carry (map (λ w. w.now) words.now) }
{
    if words.len() <= 2 {
        &[WordPlace::Number, WordPlace::Side]
    } else {
        &[WordPlace::Number, WordPlace::Side, WordPlace::Number]
    }
}

/// The line that these words behind a first word of this form spell; none where one of them isn't good at its place.
pub fn link_step_of(
    alloc: Global,
    form: LinkForm,
    words: &[&[u8]],
) -> Result<Option<LinkStep>, AllocError>
    ensures { (known : Known) → IfOk result (IsLinkStep known form (map (λ w. w.now) words.now)) }
{
    match form {
        LinkForm::Carry => Ok(carry_of(words)),
        LinkForm::Lose => Ok(lose_of(words)),
        LinkForm::Inject => inject_of(alloc, words),
        LinkForm::Again => Ok(again_of(words)),
        LinkForm::Cut => Ok(cut_of(words)),
    }
}

fn carry_of(words: &[&[u8]]) -> Option<LinkStep>
    ensures { (known : Known) → IsLinkStep known LinkForm.Carry (map (λ w. w.now) words.now) result }
{
    let [link, from, rest @ ..] = words else {
        return None;
    };
    let link = number(link)?;
    let from = side_named(from)?;
    match rest {
        [] => Some(LinkStep::Carry(link, from, None)),
        [count] => Some(LinkStep::Carry(link, from, Some(number(count)?))),
        _ => None,
    }
}

fn lose_of(words: &[&[u8]]) -> Option<LinkStep>
    ensures { (known : Known) → IsLinkStep known LinkForm.Lose (map (λ w. w.now) words.now) result }
{
    let [link, from] = words else {
        return None;
    };
    let link = number(link)?;
    let from = side_named(from)?;
    Some(LinkStep::Lose(link, from))
}

fn inject_of(alloc: Global, words: &[&[u8]]) -> Result<Option<LinkStep>, AllocError>
    ensures { (known : Known) → IfOk result (IsLinkStep known LinkForm.Inject (map (λ w. w.now) words.now)) }
{
    let [link, from, bytes] = words else {
        return Ok(None);
    };
    let Some(link) = number(link) else {
        return Ok(None);
    };
    let Some(from) = side_named(from) else {
        return Ok(None);
    };
    let Some(bytes) = hex(alloc, bytes)? else {
        return Ok(None);
    };
    Ok(Some(LinkStep::Inject(link, from, bytes)))
}

fn again_of(words: &[&[u8]]) -> Option<LinkStep>
    ensures { (known : Known) → IsLinkStep known LinkForm.Again (map (λ w. w.now) words.now) result }
{
    let [link, from, piece, other] = words else {
        return None;
    };
    let link = number(link)?;
    let from = side_named(from)?;
    let piece = number(piece)?;
    let other = number(other)?;
    Some(LinkStep::Again(link, from, piece, other))
}

fn cut_of(words: &[&[u8]]) -> Option<LinkStep>
    ensures { (known : Known) → IsLinkStep known LinkForm.Cut (map (λ w. w.now) words.now) result }
{
    let [link] = words else {
        return None;
    };
    Some(LinkStep::Cut(number(link)?))
}

impl Duplicate for LinkStep {
    fn copy(&self, alloc: Global) -> Result<LinkStep, AllocError> {
        match self {
            LinkStep::Carry(link, from, count) => Ok(LinkStep::Carry(*link, *from, *count)),
            LinkStep::Lose(link, from) => Ok(LinkStep::Lose(*link, *from)),
            LinkStep::Inject(link, from, bytes) => {
                let bytes = bytes.copy(alloc)?;
                Ok(LinkStep::Inject(*link, *from, bytes))
            }
            LinkStep::Again(link, from, piece, other) => {
                Ok(LinkStep::Again(*link, *from, *piece, *other))
            }
            LinkStep::Cut(link) => Ok(LinkStep::Cut(*link)),
        }
    }
}
