//! A word as a sentence shows it, and what an eye may not see in it.

ghost use Rattle.std.specs.Prelude.{◌≡◌, ◌==◌, ◌∷◌, map};
ghost use Rattle.std.specs.List.{list_any};
ghost use Rattle.cx_words.specs.lines.Sights.{first_hint, has_mark, hint_of, is_foreign, shown_of, word_at};

/// Something in a word that an eye may not see.
#[derive(Clone, Copy, Debug, PartialEq, Eq)]
pub enum Hint {
    /// The word is empty: two spaces stand together, or one stands at an end of the line.
    Empty,
    /// The bytes of a byte-order mark stand in front.
    ByteOrderMark,
    /// A CR, as in the line ends of Windows.
    CarriageReturn,
    /// A tab.
    Tab,
    /// A byte above ASCII, as of a curly quotation mark.
    NotAscii,
}

/// A word as it is shown: its first 40 bytes.
#[derive(Clone, Copy, Debug, PartialEq, Eq)]
pub struct Shown {
    /// Zero bytes behind the shown ones.
    pub bytes: [u8; 40],
    /// How many are shown.
    pub length: usize,
    /// Whether the word goes on.
    pub is_cut: bool,
}

/// The hint at this word, or else at the first of these that has one.
pub fn hint_in(word: &[u8], words: &[&[u8]]) -> Option<Hint>
    ensures { result ≡ first_hint (word.now ∷ map (λ w. w.now) words.now) }
{
    match hint_of(word) {
        Some(hint) => Some(hint),
        None => first_hint(words),
    }
}

/// The hint at the first of these words that has one.
pub fn first_hint(words: &[&[u8]]) -> Option<Hint>
    ensures { result ≡ first_hint (map (λ w. w.now) words.now) }
{
    for word in words {
        if let Some(hint) = hint_of(word) {
            return Some(hint);
        }
    }
    None
}

/// The word of this number, from 1, or the last one where there are fewer.
pub fn word_at<'a>(words: &[&'a [u8]], number: usize) -> &'a [u8]
    ensures { result.now ≡ word_at (map (λ w. w.now) words.now) number }
{
    let last = number.min(words.len());
    if last == 0 {
        return first_of(words);
    }
    words[last - 1]
}

fn first_of<'a>(words: &[&'a [u8]]) -> &'a [u8]
    ensures { result.now ≡ word_at (map (λ w. w.now) words.now) 0 }
{
    match words {
        [] => &[],
        [first, ..] => first,
    }
}

/// The word as it is shown.
pub fn shown_of(word: &[u8]) -> Shown
    ensures { result ≡ shown_of word.now }
{
    let length = word.len().min(40);
    let mut bytes = [0; 40];
    for i in 0..length {
        bytes[i] = word[i];
    }
    Shown {
        bytes,
        length,
        is_cut: 40 < word.len(),
    }
}

fn hint_of(word: &[u8]) -> Option<Hint>
    ensures { result ≡ hint_of word.now }
{
    if word.is_empty() {
        return Some(Hint::Empty);
    }
    if has_mark(word) {
        return Some(Hint::ByteOrderMark);
    }
    if has(word, b'\r') {
        return Some(Hint::CarriageReturn);
    }
    if has(word, b'\t') {
        return Some(Hint::Tab);
    }
    if is_foreign(word) {
        return Some(Hint::NotAscii);
    }
    None
}

fn has_mark(word: &[u8]) -> bool
    ensures { result ≡ has_mark word.now }
{
    word.len() >= 3 && word[0] == 0xef && word[1] == 0xbb && word[2] == 0xbf
}

fn has(word: &[u8], byte: u8) -> bool
    ensures { result ≡ list_any (λ b. b == byte) word.now }
{
    word.iter().any(|b| *b == byte)
}

fn is_foreign(word: &[u8]) -> bool
    ensures { result ≡ is_foreign word.now }
{
    word.iter().any(|b| *b >= 128)
}
