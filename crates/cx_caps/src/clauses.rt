//! The clauses of a capability text.

ghost use Rattle.std.specs.Prelude.{◌≡◌};
ghost use Rattle.cx_caps.specs.Reading.{clause_allows};

use crate::conditions::conditions_allow;
use crate::cut::first_word;
use crate::rights::{has_right, is_rights};
use cx_base::Operation;

/// Whether this clause allows the operation.
pub fn clause_allows(clause: &[u8], ask: &Operation) -> bool
    ensures { result ≡ clause_allows ask.now clause.now }
{
    let Some((first, rest)) = first_word(clause) else {
        return false;
    };
    let Some((rights, rest)) = first_word(rest) else {
        return false;
    };
    first == b"allow".as_slice()
        && is_rights(rights)
        && has_right(rights, ask.access)
        && conditions_allow(rest, ask)
}
