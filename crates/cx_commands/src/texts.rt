//! The commands that read a text and write one.

ghost use Rattle.std.specs.Prelude.{◌≡◌, ◌≤◌, [], ◌∷◌, map};
ghost use Rattle.cx_desk.specs.Held.{handlers_of};
ghost use Rattle.cx_top.specs.Commands.{command_word};
ghost use Rattle.cx_top.specs.declared.commands.Subcommand.{Subcommand};
ghost use Rattle.cx_commands.specs.Lent.{streams};
ghost use Rattle.cx_commands.specs.Texts.{TextEnds};

use cx_base::{Sink, Source};
use cx_desk::Desk;
use cx_top::ProgramEnd;
use std::alloc::Global;

/// `replay`, `keyring` and `audit`.
pub(crate) fn text<I: Source, O: Sink>(
    alloc: Global,
    words: &[&str],
    input: &mut I,
    out: &mut O,
    desk: &Desk,
) -> ProgramEnd
    ensures ends { (command : Subcommand) → map (λ w. w.now) words.now ≡ command_word command ∷ []
        → TextEnds (handlers_of desk.now) command
        (streams input.old (I.left input.old) (I.faults input.old) out.old (O.taken out.old) (O.faults out.old))
        (streams input.new (I.left input.new) (I.faults input.new) out.new (O.taken out.new) (O.faults out.new))
        result }
    ensures reads { I.faults input.old ≤ I.faults input.new }
    ensures writes { O.faults out.old ≤ O.faults out.new }
{
    cx_top::run(alloc, words, input, out, desk)
}
