//! What an eye may not see in a word.

ghost use Rattle.std.specs.Prelude.{◌≡◌};
ghost use Rattle.cx_help.specs.line.Hints.{hint_text};

use cx_words::Hint;

/// What an eye may not see in a word.
pub(crate) fn hint(hint: Option<Hint>) -> &'static str
    ensures { result.now ≡ hint_text hint }
{
    match hint {
        None => "",
        Some(Hint::Empty) => " (two spaces stand together, or one stands at an end of the line)",
        Some(Hint::ByteOrderMark) =>
            " (the file begins with a byte-order mark; save it without one)",
        Some(Hint::CarriageReturn) => {
            " (it has a CR, as the line ends of Windows; save the file with line ends of an LF alone)"
        }
        Some(Hint::Tab) => " (it has a tab; one space parts two words)",
        Some(Hint::NotAscii) => {
            " (it has a character outside of ASCII, as a curly quotation mark; write a plain one)"
        }
    }
}
