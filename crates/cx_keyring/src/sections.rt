//! The entries that lines give, one for each section.

ghost use Rattle.std.specs.Prelude.{◌≡◌, ◌<◌, ◌++◌, length, IfOk, IfSome, OnOk};
ghost use Rattle.std.specs.List.{flat_map, position_from};
ghost use Rattle.cx_keyring.specs.Collected.{entries_of, entry_by, key_in, key_of_line};
ghost use Rattle.cx_keyring.specs.Entries.{granted_by};
ghost use Rattle.cx_keyring.specs.Faults.{is_section, section_lines};

use crate::entries::Entry;
use crate::lines::Line;
use cx_base::{Duplicate, Grant, Items};
use cx_enc::Key;
use std::alloc::{AllocError, Global};

/// The entries that the lines give.
pub fn entries_of(alloc: Global, lines: &[Line]) -> Result<Items<Entry>, AllocError>
    ensures { IfOk result (λ entries. entries ≡ entries_of lines.now) }
{
    let mut entries = Items::new(alloc);
    let mut rest = lines;
    while let [line, after @ ..] = rest {
        push_entry(alloc, &mut entries, line, after)?;
        rest = after;
    }
    Ok(entries)
}

/// Puts the entry behind the others whose section the line begins, if it begins one.
fn push_entry(
    alloc: Global,
    entries: &mut Items<Entry>,
    line: &Line,
    after: &[Line],
) -> Result<(), AllocError>
    ensures { OnOk result (entries.new ≡ entries.old ++ entry_by line.now after.now) }
{
    let Line::Section(Some(name)) = line else {
        return Ok(());
    };
    let body = section_lines(after);
    let Some(key) = key_in(body) else {
        return Ok(());
    };
    let name = name.copy(alloc)?;
    let caps = caps_in(alloc, body)?;
    entries.push(alloc, Entry { name, key, caps })
}

/// The key that the lines of a section give.
fn key_in(body: &[Line]) -> Option<Key>
    ensures { result ≡ key_in body.now }
{
    for line in body {
        if let Some(key) = key_of_line(line) {
            return Some(key);
        }
    }
    None
}

fn key_of_line(line: &Line) -> Option<Key>
    ensures { result ≡ key_of_line line.now }
{
    match line {
        Line::Key(key) => *key,
        _ => None,
    }
}

/// The caps that the lines of a section give.
fn caps_in(alloc: Global, body: &[Line]) -> Result<Items<Grant>, AllocError>
    ensures { IfOk result (λ grants. grants ≡ flat_map granted_by body.now) }
{
    let mut grants = Items::new(alloc);
    for line in body {
        push_grant(alloc, &mut grants, line)?;
    }
    Ok(grants)
}

fn push_grant(alloc: Global, grants: &mut Items<Grant>, line: &Line) -> Result<(), AllocError>
    ensures { OnOk result (grants.new ≡ grants.old ++ granted_by line.now) }
{
    let Line::Caps(Some(service), Some(text)) = line else {
        return Ok(());
    };
    let caps = text.copy(alloc)?;
    grants.push(
        alloc,
        Grant {
            service: *service,
            caps,
        },
    )
}

/// Of these lines those that stand before the next section.
pub fn section_lines(lines: &[Line]) -> &[Line]
    ensures { result.now ≡ section_lines lines.now }
{
    match first_section(lines) {
        Some(place) => &lines[..place],
        None => lines,
    }
}

fn first_section(lines: &[Line]) -> Option<usize>
    ensures place { result ≡ position_from is_section 0 lines.now }
    ensures bound { IfSome result (λ place. place < length lines.now) }
{
    lines.iter().position(|line| is_section(line))
}

pub fn is_section(line: &Line) -> bool
    ensures { result ≡ is_section line.now }
{
    matches!(line, Line::Section(_))
}
