//! The sentence of a line of a keyring that is wrong.

ghost use Rattle.std.specs.Prelude.{◌≡◌};

use crate::details::Detail;
use crate::{Byte, Remark, Word, beside};
use cx_keyring::KeyringFault;
use cx_words::{Hint, Shown};
use std::fmt;

/// A line of a keyring that is wrong: what is wrong with it and what to write, and what stands there.
#[derive(Clone, Copy, Debug, PartialEq, Eq)]
pub struct WrongInKeyring {
    /// The number of the line, from 1.
    pub line: u64,
    /// Its first fault.
    pub why: KeyringFault,
    /// What stands there, where that helps.
    pub detail: Detail,
}

impl fmt::Display for WrongInKeyring {
    ghost use Rattle.std.specs.Prelude.{Some};
    ghost use Rattle.cx_help.specs.keyring.Sentences.{wrong_keyring_text};

    ghost output = { λ wrong. Some (wrong_keyring_text wrong) };

    fn fmt<W: fmt::Write>(&self, f: &mut fmt::Formatter<W>) -> fmt::Result {
        write!(
            f,
            "line {} of the keyring is wrong: {}{}",
            self.line, self.why, self.detail
        )
    }
}

impl fmt::Display for Detail {
    ghost use Rattle.std.specs.Prelude.{Some};
    ghost use Rattle.cx_help.specs.keyring.Sentences.{detail_text};

    ghost output = { λ detail. Some (detail_text detail) };

    fn fmt<W: fmt::Write>(&self, f: &mut fmt::Formatter<W>) -> fmt::Result {
        match self {
            Detail::Nothing => Ok(()),
            Detail::NoText => write!(f, "{}", beside(Some(Remark::NoText), None)),
            Detail::ByteOrderMark => write!(f, "{}", beside(None, Some(Hint::ByteOrderMark))),
            Detail::Schedule => {
                write!(
                    f,
                    " (this looks like a schedule, which cephx_cli replay reads)"
                )
            }
            Detail::OpenSection => {
                write!(f, " (the bracket isn't closed; write ] behind the name)")
            }
            Detail::BehindSection => write!(
                f,
                " (something stands behind the bracket, which ends the line of a section; a comment stands on a line of its \
                own)"
            ),
            Detail::Journal => {
                write!(
                    f,
                    " (this looks like a journal, which cephx_cli audit reads)"
                )
            }
            Detail::ReturnInside => write!(
                f,
                " (a CR stands in it, as the line ends of an old Mac; end each line with an LF)"
            ),
            Detail::LooksLikeKey => write!(
                f,
                " (it looks like a key, whose line is key = TEXT, with small letters and an equals sign)"
            ),
            Detail::LooksLikeCaps => write!(
                f,
                " (it looks like caps, whose line is caps SERVICE = TEXT, with small letters and an equals sign, as in caps osd = \
                \"allow rw pool=rbd\")"
            ),
            Detail::Auid => write!(
                f,
                " (auid is of older keyrings, and isn't kept here; leave the line out)"
            ),
            Detail::Secret => write!(f, " (the key is written key = TEXT)"),
            Detail::Standing(shown) => write!(f, " (there stands {})", Word(shown)),
            Detail::KeyInMarks => {
                write!(f, " (it stands in quotation marks; write it without them)")
            }
            Detail::KeyLength(count) => write!(f, "{}", KeyLength(*count)),
            Detail::KeyBlankAt(column) => write!(f, " (it has a blank, at column {column})"),
            Detail::CommentAt(column) => write!(
                f,
                " (a comment begins at column {column}; it stands on a line of its own)"
            ),
            Detail::ByteAt(byte, column) => {
                write!(f, " (`{}` stands at column {column})", Byte(*byte))
            }
            Detail::OpenMarkAt(column) => {
                write!(f, " (the quotation mark at column {column} isn't closed)")
            }
            Detail::CapsLength(count) => write!(f, " (it has {count} bytes)"),
            Detail::SectionAt(number) => write!(f, " (this section stands at line {number})"),
            Detail::KeyAt(number) => {
                write!(f, " (the key of this section stands at line {number})")
            }
            Detail::CapsAt(shown, number) => write!(f, "{}", CapsAt(shown, *number)),
            Detail::KeyLikeAt(number) => {
                write!(
                    f,
                    " (line {number} looks like one; its form is key = TEXT, with small letters and an equals sign)"
                )
            }
        }
    }
}

/// Caps for this service, which stand at this line.
#[derive(Clone, Copy)]
struct CapsAt<'a>(&'a Shown, u64);

impl fmt::Display for CapsAt<'_> {
    ghost use Rattle.std.specs.Prelude.{Some};
    ghost use Rattle.cx_help.specs.keyring.Sentences.{caps_at_text};

    ghost output = { λ caps. Some (caps_at_text caps.0.now caps.1) };

    fn fmt<W: fmt::Write>(&self, f: &mut fmt::Formatter<W>) -> fmt::Result {
        write!(f, " (caps for {} stand at line {})", Word(self.0), self.1)
    }
}

/// How many characters stand in place of a key's 40.
#[derive(Clone, Copy)]
struct KeyLength(usize);

impl fmt::Display for KeyLength {
    ghost use Rattle.std.specs.Prelude.{Some};
    ghost use Rattle.cx_help.specs.keyring.Sentences.{key_length_text};

    ghost output = { λ length. Some (key_length_text length.0) };

    fn fmt<W: fmt::Write>(&self, f: &mut fmt::Formatter<W>) -> fmt::Result {
        if self.0 == 40 {
            return write!(
                f,
                " (it has 40 characters, as a key has, and one of them or more was changed)"
            );
        }
        if self.0 == 60 {
            return write!(
                f,
                " (it has 60 characters, as keys of AES-256 have, which aren't served; cephx_cli key writes one of AES-128)"
            );
        }
        if self.0 == 1 {
            return write!(f, " (it has 1 character)");
        }
        write!(f, " (it has {} characters)", self.0)
    }
}
