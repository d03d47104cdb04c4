//! Reading the words of a command line.

ghost use Rattle.std.specs.Prelude.{◌≡◌, map, IfErr, IfOk, Some};
ghost use Rattle.cx_command_line.specs.Commands.{IsMisread, asked, spelled};

use crate::commands::{Invocation, invocation_of};
use crate::seen::gives_back;
use std::alloc::Global;

/// Why words aren't read.
#[derive(Clone, Copy, Debug, PartialEq, Eq)]
pub enum Misread {
    /// They spell no command.
    Usage,
    /// They do, but memory was wanting to read them.
    OutOfMemory,
}

/// What the words of a command line ask for, read by clap as a command and its values. Words that spell no command are told as
/// such, also where memory is wanting.
pub fn read<'a>(alloc: Global, words: &'a [&'a str]) -> Result<Invocation<'a>, Misread>
    ensures ok { IfOk result (λ invocation. spelled (map (λ w. w.now) words.now) ≡ Some (asked invocation)) }
    ensures err { IfErr result (IsMisread (map (λ w. w.now) words.now)) }
{
    let given = gives_back(alloc, words);
    match invocation_of(words) {
        Some(invocation) if given => Ok(invocation),
        Some(_) => Err(Misread::OutOfMemory),
        None => Err(Misread::Usage),
    }
}
