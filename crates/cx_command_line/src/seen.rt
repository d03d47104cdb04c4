//! The words as clap reads them.

use clap::{Arg, ArgAction, ArgMatches, Command, Error};
use std::alloc::Global;

/// Whether clap gives the words back: the first as the command, the others as its values. It fails for want of memory.
pub fn gives_back<'a>(alloc: Global, words: &'a [&'a str]) -> bool {
    match matched(alloc, words) {
        Ok(given) => given,
        Err(_) => false,
    }
}

// A word that is empty or begins as a flag is no value of a command.
fn has_flag(words: &[&str]) -> bool {
    words.iter().any(|word| word.is_empty() || word.as_bytes().starts_with(b"-"))
}

fn matched<'a>(alloc: Global, words: &'a [&'a str]) -> Result<bool, Error> {
    if has_flag(words) {
        return Ok(false);
    }
    let command = Arg::new(alloc, "command")
        .required(true)
        .action(ArgAction::Set);
    let values = Arg::new(alloc, "values")
        .action(ArgAction::Append)
        .num_args(0..);
    let line = Command::new(alloc, "cephx_cli")
        .no_binary_name(true)
        .disable_help_flag(true)
        .arg(command)?
        .arg(values)?;
    let matches = line.try_get_matches_from(words)?;
    Ok(is_given(words, &matches))
}

// Whether the words are the command and the values that were found.
fn is_given<'a>(words: &'a [&'a str], matches: &ArgMatches<'a>) -> bool {
    match words {
        [first, rest @ ..] => {
            is_command(first, matches.get_str("command")) && are_values(rest, matches)
        }
        [] => false,
    }
}

fn is_command(word: &str, found: Option<&str>) -> bool {
    match found {
        Some(command) => *word == *command,
        None => false,
    }
}

fn are_values<'a>(words: &'a [&'a str], matches: &ArgMatches<'a>) -> bool {
    match matches.get_strs("values") {
        Some(values) => *words == *values,
        None => words.is_empty(),
    }
}
