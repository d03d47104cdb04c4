//! Words that are no command's.

ghost use Rattle.std.specs.Prelude.{◌≡◌, map, IfOk, string_bytes};
ghost use Rattle.cx_help.specs.command.Sentences.{why_text};
ghost use Rattle.cx_top.specs.Told.{line_told};
ghost use Rattle.cx_top.specs.declared.status.Status.TheVariants as text;
ghost use Rattle.cx_commands.specs.Misread.{IsMisreadTold, IsWrongTold, misread_status, word_of, wrong_told};
ghost use Rattle.cx_commands.specs.declared.ends.CommandStatus.TheVariants.{Text};

use crate::ends::{CommandEnd, CommandStatus};
use cx_command_line::Misread;
use cx_help::{WrongWords, wrong_of};
use cx_top::Status;
use std::alloc::{AllocError, Global};

/// How the program ends whose words aren't read: for wrong words, which of them is wrong, and why.
pub(crate) fn misread(alloc: Global, words: &[&str], why: Misread) -> CommandEnd
    ensures status { result.status ≡ Text (misread_status why) }
    ensures told { IsMisreadTold (map (λ w. w.now) words.now) why (string_bytes result.told) }
{
    match why {
        Misread::Usage => misused(alloc, words),
        Misread::OutOfMemory => {
            CommandEnd::plain(alloc, CommandStatus::Text(Status::OutOfMemory))
        }
    }
}

fn misused(alloc: Global, words: &[&str]) -> CommandEnd
    ensures status { result.status ≡ Text text.Usage }
    ensures told { IsWrongTold (map (λ w. w.now) words.now) (string_bytes result.told) }
{
    let status = CommandStatus::Text(Status::Usage);
    match misread_told(alloc, words) {
        Ok(told) => CommandEnd { status, told },
        Err(_) => CommandEnd::plain(alloc, status),
    }
}

fn misread_told(alloc: Global, words: &[&str]) -> Result<String, AllocError>
    ensures { IfOk result (λ told. string_bytes told ≡ wrong_told (map (λ w. w.now) words.now)) }
{
    match wrong_of(words) {
        Some(wrong) => {
            let word = word_of(words, wrong.number);
            wrong_told(alloc, WrongWords { wrong, word })
        }
        None => Ok(String::new(alloc)),
    }
}

// The word of this number, from 1; an empty one where it is missing.
fn word_of<'a>(words: &'a [&'a str], number: usize) -> &'a str
    ensures { result.now ≡ word_of (map (λ w. w.now) words.now) number }
{
    match words.get(number.saturating_sub(1)) {
        Some(word) => word,
        None => "",
    }
}

fn wrong_told(alloc: Global, wrong: WrongWords<'_>) -> Result<String, AllocError>
    ensures { IfOk result (λ told. string_bytes told ≡ line_told (why_text wrong.entry.wrong.number wrong.entry.wrong.why wrong.entry.word.now)) }
{
    format!(in alloc; "cephx_cli: {}\n", wrong)
}
