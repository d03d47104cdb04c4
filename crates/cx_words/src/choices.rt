//! Words of which a place takes one of a few.

ghost use Rattle.std.specs.Prelude.{◌≡◌, IfSome};
ghost use Rattle.cx_words.specs.lines.Choices.{command_form_of, command_word, modes_of, modes_word, side_of, side_word, state_of, state_word};

use crate::is_word;

/// An end of a link.
#[derive(Clone, Copy, PartialEq, Eq)]
pub enum Side {
    /// The one that opened it.
    Connector,
    /// The one that it was opened to.
    Acceptor,
}

/// The modes of a connection that a client offers.
#[derive(Clone, Copy, PartialEq, Eq)]
pub enum Modes {
    /// Plain frames with checksums alone.
    Crc,
    /// Encrypted frames alone.
    Secure,
    /// Both, plain ones first.
    Both,
}

/// The state that a failed save leaves.
#[derive(Clone, Copy, PartialEq, Eq)]
pub enum LeftState {
    /// The one before it.
    Old,
    /// The one that was to be saved.
    New,
}

/// The form of a line by which a node is told to do something, under `do` too.
#[derive(Clone, Copy, Debug, PartialEq, Eq)]
pub enum CommandForm {
    Fetch,
    Login,
    Renew,
    Connect,
    Send,
}

/// The side that the word names, `c` or `a`.
#[tactic(auto, unfolding(crate::specs::lines::Choices::side_of))]
pub fn side_named(word: &[u8]) -> Option<Side>
    ensures read { result ≡ side_of word.now }
    ensures spelled { IfSome result (λ side. word.now ≡ side_word side) }
{
    if is_word(word, "c") {
        return Some(Side::Connector);
    }
    if is_word(word, "a") {
        return Some(Side::Acceptor);
    }
    None
}

/// The modes that the word names, `crc`, `secure` or `crc,secure`.
#[tactic(auto, unfolding(crate::specs::lines::Choices::modes_of))]
pub fn modes_named(word: &[u8]) -> Option<Modes>
    ensures read { result ≡ modes_of word.now }
    ensures spelled { IfSome result (λ modes. word.now ≡ modes_word modes) }
{
    if is_word(word, "crc") {
        return Some(Modes::Crc);
    }
    if is_word(word, "secure") {
        return Some(Modes::Secure);
    }
    if is_word(word, "crc,secure") {
        return Some(Modes::Both);
    }
    None
}

/// The state that the word names, `old` or `new`.
#[tactic(auto, unfolding(crate::specs::lines::Choices::state_of))]
pub fn state_named(word: &[u8]) -> Option<LeftState>
    ensures read { result ≡ state_of word.now }
    ensures spelled { IfSome result (λ state. word.now ≡ state_word state) }
{
    if is_word(word, "old") {
        return Some(LeftState::Old);
    }
    if is_word(word, "new") {
        return Some(LeftState::New);
    }
    None
}

/// The form of a command that begins with the word.
#[tactic(auto, unfolding(crate::specs::lines::Choices::command_form_of))]
pub fn command_named(word: &[u8]) -> Option<CommandForm>
    ensures read { result ≡ command_form_of word.now }
    ensures spelled { IfSome result (λ form. word.now ≡ command_word form) }
{
    if is_word(word, "fetch") {
        return Some(CommandForm::Fetch);
    }
    if is_word(word, "login") {
        return Some(CommandForm::Login);
    }
    if is_word(word, "renew") {
        return Some(CommandForm::Renew);
    }
    if is_word(word, "connect") {
        return Some(CommandForm::Connect);
    }
    if is_word(word, "send") {
        return Some(CommandForm::Send);
    }
    None
}
