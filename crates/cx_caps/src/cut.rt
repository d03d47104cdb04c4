//! Words of a clause.

ghost use Rattle.std.specs.Prelude.{◌≡◌, ◌<◌, ◌≤◌, [], ◌∷◌, length, not, IfSome, MatchOption};
ghost use Rattle.std.specs.List.{take_while};
ghost use Rattle.cx_caps.specs.Grammar.{is_space, words_of};

/// The first word of a clause and what stands behind it.
pub fn first_word(clause: &[u8]) -> Option<(&[u8], &[u8])>
    ensures cut { MatchOption result (words_of clause.now ≡ []) (λ found. words_of clause.now ≡ found.0.now ∷ words_of found.1.now) }
    ensures shorter { IfSome result (λ found. length found.1.now < length clause.now) }
{
    let filled = &clause[spaces(clause)..];
    if filled.is_empty() {
        return None;
    }
    Some(filled.split_at(word_len(filled)))
}

// How many spaces it begins with.
fn spaces(bytes: &[u8]) -> usize
    ensures value { result ≡ length (take_while is_space bytes.now) }
    ensures bound { result ≤ length bytes.now }
{
    bytes.iter().take_while(|b| **b == b' ').count()
}

// How many bytes stand before its first space.
fn word_len(bytes: &[u8]) -> usize
    ensures value { result ≡ length (take_while (λ b. not (is_space b)) bytes.now) }
    ensures bound { result ≤ length bytes.now }
{
    bytes.iter().take_while(|b| **b != b' ').count()
}
