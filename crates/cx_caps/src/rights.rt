//! Words of rights.

ghost use Rattle.std.specs.Prelude.{◌≡◌, ◌==◌, ◌&&◌};
ghost use Rattle.std.specs.List.{list_any, list_all};
ghost use Rattle.cx_caps.specs.Grammar.{count_of, has_right, is_letter, is_letters, is_rights, letter_of, letters_of};

use cx_base::Access;

/// Whether the word gives rights: `*`, `all`, or one to three different letters of r, w and x.
pub fn is_rights(word: &[u8]) -> bool
    ensures { result ≡ is_rights word.now }
{
    is_letters(letters_of(word))
}

/// Whether the word gives the right that this access takes.
pub fn has_right(word: &[u8], access: Access) -> bool
    ensures { result ≡ has_right word.now access }
{
    has_byte(letters_of(word), letter_of(access))
}

// The letters that a word of rights stands for.
fn letters_of(word: &[u8]) -> &[u8]
    ensures { result.now ≡ letters_of word.now }
{
    match word {
        b"*" | b"all" => b"rwx",
        _ => word,
    }
}

fn is_letters(word: &[u8]) -> bool
    ensures { result ≡ is_letters word.now }
{
    !word.is_empty() && all_letters_once(word)
}

fn all_letters_once(word: &[u8]) -> bool
    ensures { result ≡ list_all (λ b. is_letter b && (count_of word.now b == 1)) word.now }
{
    word.iter()
        .all(|b| is_letter(*b) && count_of(word, *b) == 1)
}

fn is_letter(b: u8) -> bool
    ensures { result ≡ is_letter b }
{
    matches!(b, b'r' | b'w' | b'x')
}

fn count_of(word: &[u8], b: u8) -> usize
    ensures { result ≡ count_of word.now b }
{
    word.iter().filter(|c| **c == b).count()
}

fn letter_of(access: Access) -> u8
    ensures { result ≡ letter_of access }
{
    match access {
        Access::Read => b'r',
        Access::Write => b'w',
        Access::Exec => b'x',
    }
}

fn has_byte(bytes: &[u8], byte: u8) -> bool
    ensures { result ≡ list_any (λ b. b == byte) bytes.now }
{
    bytes.iter().any(|b| *b == byte)
}
