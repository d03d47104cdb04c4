//! Whether a clause of caps grants something.

ghost use Rattle.std.specs.Prelude.{◌≡◌, length, IfOk};
ghost use Rattle.cx_help.specs.keyring.Grants.{ask_for, clause_at, clause_grants, first_word, is_of_clause, part_in, word_behind};
ghost use Rattle.cx_caps.specs.Reading.{cap_allows};

use crate::settings::{behind, behind_blanks, front, starts, word_count};
use cx_base::{Access, Blob, Operation, Text, is_long_part};
use cx_caps::CapText;
use std::alloc::{AllocError, Global};

/// The clause with which a text begins, up to a comma.
pub(crate) fn clause_at(text: &[u8]) -> &[u8]
    ensures { result.now ≡ clause_at text.now }
{
    front(text, clause_count(text))
}

fn clause_count(text: &[u8]) -> usize
    ensures { result ≡ length (clause_at text.now) }
{
    text.iter().take_while(|b| is_of_clause(**b)).count()
}

fn is_of_clause(b: u8) -> bool
    ensures { result ≡ is_of_clause b }
{
    b != b','
}

/// Whether the clause grants something: a read, a write or an exec that meets its conditions.
pub(crate) fn clause_grants(alloc: Global, clause: &[u8]) -> Result<bool, AllocError>
    ensures { IfOk result (λ is. is ≡ clause_grants clause.now) }
{
    let caps = caps_text(alloc, clause)?;
    if allows(alloc, &caps, clause, Access::Read)? {
        return Ok(true);
    }
    if allows(alloc, &caps, clause, Access::Write)? {
        return Ok(true);
    }
    allows(alloc, &caps, clause, Access::Exec)
}

pub(crate) fn allows(
    alloc: Global,
    caps: &CapText,
    clause: &[u8],
    access: Access,
) -> Result<bool, AllocError>
    ensures { IfOk result (λ is. is ≡ cap_allows caps.now (ask_for clause.now access)) }
{
    let ask = ask_for(alloc, clause, access)?;
    Ok(caps.allows(&ask))
}

/// The capability text of a clause. Where it were none, the answer would be want of memory: a keyring that is read has no other.
pub(crate) fn caps_text(alloc: Global, clause: &[u8]) -> Result<CapText, AllocError>
    ensures { IfOk result (λ caps. caps ≡ clause.now) }
{
    let Ok(text) = Text::of(alloc, clause) else {
        return Err(AllocError);
    };
    match CapText::read(alloc, &text) {
        Ok(caps) => Ok(caps),
        Err(_) => Err(AllocError),
    }
}

/// An operation that meets the conditions of a clause, where one does.
fn ask_for(alloc: Global, clause: &[u8], access: Access) -> Result<Operation, AllocError>
    ensures { IfOk result (λ ask. ask ≡ ask_for clause.now access) }
{
    let pool = part_in(alloc, word_behind("pool=", clause))?;
    let namespace = part_in(alloc, word_behind("namespace=", clause))?;
    let object = part_in(alloc, word_behind("object_prefix", clause))?;
    Ok(Operation {
        access,
        pool,
        namespace,
        object,
        bytes: Blob::new(alloc),
    })
}

/// A pool, a namespace or the front of an object's name, where the word is one.
fn part_in(alloc: Global, word: &[u8]) -> Result<Text, AllocError>
    ensures { IfOk result (λ part. part ≡ part_in word.now) }
{
    if is_long_part(word) {
        return Text::from_ascii(alloc, word);
    }
    Text::new(alloc)
}

/// The word behind the first of these texts in a clause.
pub(crate) fn word_behind<'a>(key: &str, clause: &'a [u8]) -> &'a [u8]
    ensures { result.now ≡ word_behind key.now clause.now }
{
    let mut rest = clause;
    while let [_, after @ ..] = rest {
        if starts(rest, key) {
            return first_word(behind(rest, key.len()));
        }
        rest = after;
    }
    &[]
}

/// The first word of a text.
pub(crate) fn first_word(text: &[u8]) -> &[u8]
    ensures { result.now ≡ first_word text.now }
{
    let filled = behind_blanks(text);
    front(filled, word_count(filled))
}
