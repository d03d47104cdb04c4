//! The commands, by the words of the command line.

ghost use Rattle.std.specs.Prelude.{◌≡◌, ◌≢◌, [], ◌∷◌, map, IsTrue, MatchOption, ◌↔◌};
ghost use Rattle.cx_top.specs.Commands.{command_word};
ghost use Rattle.cx_top.specs.declared.commands.Subcommand.{Subcommand};

use cx_base::Blob;

/// What the program does with its input.
#[derive(Clone, Copy, Debug, PartialEq, Eq)]
pub enum Subcommand {
    /// Reads a schedule, and writes the journal of its run.
    Replay,
    /// Reads a keyring, and writes it in its printed form.
    Keyring,
    /// Reads a journal, and writes whether it is legal.
    Audit,
}

/// What a command makes of its input: the text that is to be written, whether a run broke a premise, and what is said besides
/// on standard error.
#[derive(Debug, Drop)]
pub struct Made {
    pub text: Blob,
    pub is_broken: bool,
    pub told: String,
}

/// The command whose one word these words are.
pub fn command_of(words: &[&str]) -> Option<Subcommand>
    ensures { MatchOption result
        ((command : Subcommand) → map (λ w. w.now) words.now ≢ command_word command ∷ [])
        (λ command. map (λ w. w.now) words.now ≡ command_word command ∷ []) }
{
    let [word] = words else {
        return None;
    };
    if is_word(word, "replay") {
        return Some(Subcommand::Replay);
    }
    if is_word(word, "keyring") {
        return Some(Subcommand::Keyring);
    }
    if is_word(word, "audit") {
        return Some(Subcommand::Audit);
    }
    None
}

fn is_word(word: &str, wanted: &str) -> bool
    ensures { IsTrue result ↔ (word.now ≡ wanted.now) }
{
    word == wanted
}
