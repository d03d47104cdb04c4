//! Finding the first line that is wrong.

ghost use Rattle.std.specs.Prelude.{◌≡◌, ◌+◌, [], ◌∷◌, ◌++◌, ◌||◌, ◌<◌, if◌then◌else◌, ◌^◌, List, None, Some, drop, length, is_some, IfErr, OnOk};
ghost use Rattle.std.specs.List.{list_any};
ghost use Rattle.cx_base.specs.Names.{Name};
ghost use Rattle.cx_keyring.specs.Faults.{fault_of, first_bad, has_bad_caps, has_bad_key, has_bad_name, has_bad_service, is_caps_for, is_inner, is_key, is_keyless, is_other, is_repeated, is_section, is_section_of};
ghost use Rattle.cx_keyring.specs.Indexed.{place_of};
ghost use Rattle.cx_keyring.specs.Judged.{IsBadLine, Judges};
ghost use Rattle.cx_keyring.specs.declared.lines.Line.{Line};

use crate::faults::KeyringFault;
use crate::index::Index;
use crate::lines::Line;
use crate::refusals::KeyringRefusal;
use crate::sections::{is_section, section_lines};
use cx_base::EntityType;
use std::alloc::{AllocError, Global};

/// What is known of the lines before the one that is judged.
#[derive(Drop)]
pub struct Judged {
    /// The names of the sections.
    names: Index,
    /// Whether a section stands among them.
    begun: bool,
    /// Where the lines of the last section begin.
    start: usize,
}

/// Looks for the first line that is wrong. Each section looks ahead to its key or the next section alone, and a key or caps
/// line back to its section, of which at most five can stand before one is repeated: so this is linear but for the names.
pub fn judge(alloc: Global, lines: &[Line]) -> Result<(), KeyringRefusal>
    ensures good { OnOk result (first_bad [] lines.now ≡ None) }
    ensures bad { IfErr result (IsBadLine (first_bad [] lines.now)) }
{
    let mut judged = Judged::new(alloc);
    for i in 0..lines.len() {
        let line = &lines[i];
        let repeated = is_repeated(&judged.names, &lines[judged.start..i], line);
        let keyless = is_keyless(line, &lines[i + 1..]);
        if let Some(why) = fault_of(judged.begun, repeated, keyless, line) {
            return Err(KeyringRefusal::BadLine {
                line: i as u64 + 1,
                why,
            });
        }
        judged.go_on(alloc, line, i)?;
    }
    Ok(())
}

impl Judged {
    fn new(alloc: Global) -> Judged
        ensures { Judges result [] }
    {
        Judged {
            names: Index::new(alloc),
            begun: false,
            start: 0,
        }
    }

    /// Goes on behind the line, whose place this is.
    fn go_on(&mut self, alloc: Global, line: &Line, place: usize) -> Result<(), AllocError>
        requires { place + 1 < 2 ^ 64 }
        ensures { OnOk result ((before : List Line) → length before ≡ place → Judges self.old before → Judges self.new (before ++ line.now ∷ [])) }
    {
        note(alloc, &mut self.names, line, place)?;
        self.begun = self.begun || is_section(line);
        self.start = start_after(self.start, line, place);
        Ok(())
    }
}

/// Puts the name of the section that the line begins, if it begins one, at the place.
fn note(alloc: Global, names: &mut Index, line: &Line, place: usize) -> Result<(), AllocError>
    ensures { OnOk result ((name : Name) → is_some (place_of names.new.ids name) ≡ (is_some (place_of names.old.ids name) || is_section_of name line.now)) }
{
    match line {
        Line::Section(Some(name)) => names.put(alloc, name, place),
        _ => Ok(()),
    }
}

/// Where the lines of the last section begin, behind the line at the place.
fn start_after(start: usize, line: &Line, place: usize) -> usize
    requires { place + 1 < 2 ^ 64 }
    ensures { result ≡ (if is_section line.now then place + 1 else start) }
{
    if is_section(line) { place + 1 } else { start }
}

/// Whether the line begins a section that has no key.
fn is_keyless(line: &Line, after: &[Line]) -> bool
    ensures { result ≡ is_keyless line.now after.now }
{
    is_section(line) && !has_key(section_lines(after))
}

/// The first fault of the line.
fn fault_of(begun: bool, repeated: bool, keyless: bool, line: &Line) -> Option<KeyringFault>
    ensures { result ≡ fault_of begun repeated keyless line.now }
{
    if is_inner(line) && !begun {
        return Some(KeyringFault::NoSection);
    }
    if has_bad_name(line) {
        return Some(KeyringFault::BadName);
    }
    if has_bad_key(line) {
        return Some(KeyringFault::BadKey);
    }
    if has_bad_service(line) {
        return Some(KeyringFault::BadService);
    }
    if has_bad_caps(line) {
        return Some(KeyringFault::BadCaps);
    }
    if repeated {
        return Some(KeyringFault::Repeated);
    }
    if keyless {
        return Some(KeyringFault::NoKey);
    }
    if is_other(line) {
        return Some(KeyringFault::Unreadable);
    }
    None
}

fn is_repeated(names: &Index, body: &[Line], line: &Line) -> bool
    ensures { result ≡ is_repeated (λ name. is_some (place_of names.now.ids name)) body.now line.now }
{
    match line {
        Line::Section(Some(name)) => names.find(name).is_some(),
        Line::Key(_) => has_key(body),
        Line::Caps(Some(service), _) => has_caps_for(*service, body),
        _ => false,
    }
}

fn has_key(lines: &[Line]) -> bool
    ensures { result ≡ list_any is_key lines.now }
{
    lines.iter().any(|line| is_key(line))
}

fn has_caps_for(service: EntityType, lines: &[Line]) -> bool
    ensures { result ≡ list_any (is_caps_for service) lines.now }
{
    lines.iter().any(|line| is_caps_for(service, line))
}

fn is_key(line: &Line) -> bool
    ensures { result ≡ is_key line.now }
{
    matches!(line, Line::Key(_))
}

fn is_inner(line: &Line) -> bool
    ensures { result ≡ is_inner line.now }
{
    matches!(line, Line::Key(_) | Line::Caps(_, _) | Line::Other)
}

fn has_bad_name(line: &Line) -> bool
    ensures { result ≡ has_bad_name line.now }
{
    matches!(line, Line::Section(None))
}

fn has_bad_key(line: &Line) -> bool
    ensures { result ≡ has_bad_key line.now }
{
    matches!(line, Line::Key(None))
}

fn has_bad_service(line: &Line) -> bool
    ensures { result ≡ has_bad_service line.now }
{
    matches!(line, Line::Caps(None, _))
}

fn has_bad_caps(line: &Line) -> bool
    ensures { result ≡ has_bad_caps line.now }
{
    matches!(line, Line::Caps(_, None))
}

fn is_other(line: &Line) -> bool
    ensures { result ≡ is_other line.now }
{
    matches!(line, Line::Other)
}

fn is_caps_for(service: EntityType, line: &Line) -> bool
    ensures { result ≡ is_caps_for service line.now }
{
    match line {
        Line::Caps(Some(other), _) => service.is(*other),
        _ => false,
    }
}
