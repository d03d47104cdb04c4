//! What a clause of caps grants, or why it grants nothing; and what is said of the caps of entities.

ghost use Rattle.std.specs.Prelude.{◌≡◌, ◌≤◌, List, [], false, length, IfOk, string_bytes};
ghost use Rattle.std.specs.List.{take_while};
ghost use Rattle.cx_help.specs.keyring.Clauses.{access_text, bad_condition, caps_of_line, caps_told, clause_told, comma_text, dead_text, grant_told, grants_up_to, inside, is_inside, line_told, lines_told, live_text, next_rest, note_line, reason_text, rest_of, rights_text, second_word, section_behind, service_told, texts_told, third_word, three_texts, told_at, told_behind, without_mark};
ghost use Rattle.cx_help.specs.keyring.Grants.{part_in, word_behind};
ghost use Rattle.cx_keyring.specs.Rings.{IsReason, KeyringText};
ghost use Rattle.cx_keyring.specs.declared.entries.Entry.{Entry};
ghost use Rattle.cx_keyring.specs.declared.refusals.KeyringRefusal.{KeyringRefusal};
ghost use Rattle.cx_words.specs.Cutting.{lines_of};

use crate::Word;
use crate::grants::{allows, caps_text, clause_at, clause_grants, first_word, word_behind};
use crate::settings::{
    behind, behind_blanks, behind_word, caps_count, front, opens_section, service_word, starts,
    value_of,
};
use cx_base::{Access, EntityName, EntityType, Grant, is_long_part};
use cx_keyring::{KeyringRefusal, parse};
use cx_words::{first_line, is_word, name, service, shown_of};
use std::alloc::{AllocError, Global};
use std::fmt;

/// What is said of the caps of a keyring that is read: why clauses grant nothing; and, where all is said, what the others grant.
#[tactic(auto, unfolding(crate::specs::keyring::Clauses::lines_told))]
pub fn ring_told(alloc: Global, all: bool, bytes: &[u8]) -> Result<String, AllocError>
    ensures { IfOk result (λ told. string_bytes told ≡ lines_told all [] (lines_of bytes.now)) }
{
    let mut told = String::new(alloc);
    let mut section: &[u8] = &[];
    let mut rest = bytes;
    'lines: while let Some((line, after)) = first_line(rest) {
        let note = line_told(alloc, all, section, line)?;
        told.push_str(&note)?;
        section = section_behind(section, line);
        rest = after;
    }
    Ok(told)
}

/// What is said of the keyring that a node begins with: of each clause that grants nothing why, where it is a keyring; else nothing,
/// since the node's end says then which line is wrong.
pub fn start_told(alloc: Global, bytes: &[u8]) -> Result<String, AllocError>
    ensures told { (ring : List Entry) → KeyringText bytes.now ring → length ring ≤ 4096 → IfOk result (λ told. string_bytes told ≡ lines_told false [] (lines_of bytes.now)) }
    ensures none { (why : KeyringRefusal) → IsReason bytes.now why → IfOk result (λ told. string_bytes told ≡ []) }
{
    match parse(alloc, bytes) {
        Ok(_) => ring_told(alloc, false, bytes),
        Err(KeyringRefusal::OutOfMemory) => Err(AllocError),
        Err(_) => Ok(String::new(alloc)),
    }
}

/// The section in which the lines behind a line stand.
#[tactic(auto, unfolding(crate::specs::keyring::Clauses::section_behind))]
fn section_behind<'a>(section: &'a [u8], line: &'a [u8]) -> &'a [u8]
    ensures { result.now ≡ section_behind section.now line.now }
{
    if opens_section(line) {
        return line;
    }
    section
}

/// Of a line in a section, where it has caps.
#[tactic(auto, unfolding(crate::specs::keyring::Clauses::line_told, crate::specs::keyring::Clauses::named_told))]
fn line_told(alloc: Global, all: bool, section: &[u8], line: &[u8]) -> Result<String, AllocError>
    ensures { IfOk result (λ told. string_bytes told ≡ line_told all section.now line.now) }
{
    if !starts(behind_blanks(line), "caps") {
        return Ok(String::new(alloc));
    }
    match name(alloc, inside(section))? {
        Some(name) => service_told(
            alloc,
            all,
            &name,
            service(service_word(line)),
            caps_of_line(line),
        ),
        None => Ok(String::new(alloc)),
    }
}

#[tactic(auto, unfolding(crate::specs::keyring::Clauses::service_told))]
fn service_told(
    alloc: Global,
    all: bool,
    name: &EntityName,
    service: Option<EntityType>,
    caps: &[u8],
) -> Result<String, AllocError>
    ensures { IfOk result (λ told. string_bytes told ≡ service_told all name.now service caps.now) }
{
    match service {
        Some(service) => texts_told(alloc, all, name, service, caps),
        None => Ok(String::new(alloc)),
    }
}

/// The name of a section: what stands in its brackets.
fn inside(section: &[u8]) -> &[u8]
    ensures { result.now ≡ inside section.now }
{
    let text = behind(behind_blanks(section), 1);
    front(text, inside_count(text))
}

fn inside_count(text: &[u8]) -> usize
    ensures { result ≡ length (take_while is_inside text.now) }
{
    text.iter().take_while(|b| is_inside(**b)).count()
}

fn is_inside(b: u8) -> bool
    ensures { result ≡ is_inside b }
{
    b != b']'
}

/// The caps of a line of caps: between quotation marks, or plain.
fn caps_of_line(line: &[u8]) -> &[u8]
    ensures { result.now ≡ caps_of_line line.now }
{
    let text = without_mark(value_of(line));
    front(text, caps_count(text))
}

fn without_mark(text: &[u8]) -> &[u8]
    ensures { result.now ≡ without_mark text.now }
{
    if text.starts_with(b"\"") {
        return behind(text, 1);
    }
    text
}

/// The same of the caps of an entity of a schedule.
pub fn caps_told(
    alloc: Global,
    all: bool,
    name: &EntityName,
    grants: &[Grant],
) -> Result<String, AllocError>
    ensures { IfOk result (λ told. string_bytes told ≡ caps_told all name.now grants.now) }
{
    let mut told = String::new(alloc);
    for grant in grants {
        let lines = grant_told(alloc, all, name, grant)?;
        told.push_str(&lines)?;
    }
    Ok(told)
}

#[tactic(auto, unfolding(crate::specs::keyring::Clauses::grant_told))]
fn grant_told(
    alloc: Global,
    all: bool,
    name: &EntityName,
    grant: &Grant,
) -> Result<String, AllocError>
    ensures { IfOk result (λ told. string_bytes told ≡ grant_told all name.now grant.now) }
{
    texts_told(alloc, all, name, grant.service, grant.caps.bytes())
}

/// Of each clause of the caps for a service.
#[tactic(auto, unfolding(crate::specs::keyring::Clauses::texts_told))]
fn texts_told(
    alloc: Global,
    all: bool,
    name: &EntityName,
    service: EntityType,
    caps: &[u8],
) -> Result<String, AllocError>
    ensures { IfOk result (λ told. string_bytes told ≡ texts_told all name.now service caps.now) }
{
    let mut told = clause_told(alloc, false, all, name, service, clause_at(caps))?;
    let behind = told_behind(alloc, all, name, service, caps)?;
    told.push_str(&behind)?;
    Ok(told)
}

/// Of the clauses behind the commas of a text.
#[tactic(auto, unfolding(crate::specs::keyring::Clauses::told_behind))]
fn told_behind(
    alloc: Global,
    all: bool,
    name: &EntityName,
    service: EntityType,
    text: &[u8],
) -> Result<String, AllocError>
    ensures { IfOk result (λ told. string_bytes told ≡ told_behind all name.now service text.now) }
{
    let mut told = String::new(alloc);
    let mut rest = text;
    while let [b, after @ ..] = rest {
        let line = told_at(alloc, all, name, service, *b, after)?;
        told.push_str(&line)?;
        rest = after;
    }
    Ok(told)
}

/// Of the clause behind a comma, where the byte is one.
#[tactic(auto, unfolding(crate::specs::keyring::Clauses::told_at))]
fn told_at(
    alloc: Global,
    all: bool,
    name: &EntityName,
    service: EntityType,
    b: u8,
    after: &[u8],
) -> Result<String, AllocError>
    ensures { IfOk result (λ told. string_bytes told ≡ told_at all name.now service b after.now) }
{
    if b == b',' {
        return clause_told(alloc, true, all, name, service, clause_at(after));
    }
    Ok(String::new(alloc))
}

/// Of a clause, which stands behind a comma or not: why it grants nothing; what it grants is said where all is.
#[tactic(auto, unfolding(crate::specs::keyring::Clauses::clause_told))]
fn clause_told(
    alloc: Global,
    later: bool,
    all: bool,
    name: &EntityName,
    service: EntityType,
    clause: &[u8],
) -> Result<String, AllocError>
    ensures { IfOk result (λ told. string_bytes told ≡ clause_told later all name.now service clause.now) }
{
    if !clause_grants(alloc, clause)? {
        let text = dead(alloc, later, clause)?;
        return note_line(alloc, name, service, &text);
    }
    if !all {
        return Ok(String::new(alloc));
    }
    let text = live(alloc, clause)?;
    note_line(alloc, name, service, &text)
}

/// A line of standard error.
fn note_line(
    alloc: Global,
    name: &EntityName,
    service: EntityType,
    text: &str,
) -> Result<String, AllocError>
    ensures { IfOk result (λ line. string_bytes line ≡ note_line name.now service text.now) }
{
    format!(in alloc; "cephx_cli: {}: {}: {}\n", name, service, text)
}

/// What a clause grants, and where.
#[tactic(auto, unfolding(crate::specs::keyring::Clauses::live_text))]
fn live(alloc: Global, clause: &[u8]) -> Result<String, AllocError>
    ensures { IfOk result (λ text. string_bytes text ≡ live_text clause.now) }
{
    let access = access_text(alloc, clause)?;
    let object = Where(
        " objects that begin with ",
        part_of(word_behind("object_prefix", clause)),
    );
    let namespace = Where(" in namespace ", part_of(word_behind("namespace=", clause)));
    let pool = Where(" in pool ", part_of(word_behind("pool=", clause)));
    format!(in alloc; "{}{}{}{}", access, object, namespace, pool)
}

/// A pool, a namespace or the front of an object's name, where the word is one.
fn part_of(word: &[u8]) -> &[u8]
    ensures { result.now ≡ part_in word.now }
{
    if is_long_part(word) {
        return word;
    }
    &[]
}

#[tactic(auto, unfolding(crate::specs::keyring::Clauses::access_text))]
fn access_text(alloc: Global, clause: &[u8]) -> Result<&'static str, AllocError>
    ensures { IfOk result (λ text. text.now ≡ access_text clause.now) }
{
    let caps = caps_text(alloc, clause)?;
    let read = allows(alloc, &caps, clause, Access::Read)?;
    let write = allows(alloc, &caps, clause, Access::Write)?;
    let exec = allows(alloc, &caps, clause, Access::Exec)?;
    Ok(three_texts(read, write, exec))
}

fn three_texts(read: bool, write: bool, exec: bool) -> &'static str
    ensures { result.now ≡ three_texts read write exec }
{
    match (read, write, exec) {
        (true, true, true) => "read, write and exec",
        (true, true, false) => "read and write",
        (true, false, true) => "read and exec",
        (true, false, false) => "read",
        (false, true, true) => "write and exec",
        (false, true, false) => "write",
        (false, false, true) => "exec",
        (false, false, false) => "nothing",
    }
}

/// Why a clause grants nothing.
#[tactic(auto, unfolding(crate::specs::keyring::Clauses::dead_text))]
fn dead(alloc: Global, later: bool, clause: &[u8]) -> Result<String, AllocError>
    ensures { IfOk result (λ text. string_bytes text ≡ dead_text later clause.now) }
{
    let word = first_word(clause);
    if is_word(word, "") {
        return format!(in alloc; "an empty clause grants nothing");
    }
    let reason = reason(alloc, later, clause, word, rest_of(clause))?;
    format!(in alloc; "{}", DeadClause(clause, &reason))
}

/// By its first word, and what stands behind that.
#[tactic(auto, unfolding(crate::specs::keyring::Clauses::reason_text))]
fn reason(
    alloc: Global,
    later: bool,
    clause: &[u8],
    word: &[u8],
    rest: &[u8],
) -> Result<String, AllocError>
    ensures { IfOk result (λ text. string_bytes text ≡ reason_text later clause.now word.now rest.now) }
{
    if is_word(word, "profile") {
        return format!(in alloc; "{}", Profile);
    }
    if is_word(word, "allow") {
        return rights(alloc, clause, first_word(rest), rest_of(rest));
    }
    format!(in alloc;
        "it begins with {}, and not with allow{}",
        ShownWord(word),
        comma_text(later)
    )
}

/// Where it stands behind a comma, that this ends the clause before it.
fn comma_text(later: bool) -> &'static str
    ensures { result.now ≡ comma_text later }
{
    if later {
        return " (the comma before it ends a clause; for two pools write two, as allow r pool=a, allow r pool=b)";
    }
    ""
}

/// By its word of rights, and what stands behind that.
#[tactic(auto, unfolding(crate::specs::keyring::Clauses::rights_text))]
fn rights(alloc: Global, clause: &[u8], word: &[u8], rest: &[u8]) -> Result<String, AllocError>
    ensures { IfOk result (λ text. string_bytes text ≡ rights_text clause.now word.now rest.now) }
{
    if is_word(word, "") {
        return format!(in alloc;
            "no rights stand behind allow; write *, all, or one to three letters of r, w and x"
        );
    }
    if is_word(word, "profile") {
        return format!(in alloc; "{}", Profile);
    }
    if grants_up_to(alloc, clause, rest)? {
        let bad = bad_condition(alloc, clause, rest)?;
        return format!(in alloc; "{}", Condition(bad));
    }
    format!(in alloc;
        "{} is no word of rights; write *, all, or one to three letters of r, w and x, each once",
        ShownWord(word)
    )
}

/// The first condition with which a clause grants nothing; at most three are good.
#[tactic(auto, unfolding(crate::specs::keyring::Clauses::bad_condition))]
fn bad_condition<'a>(alloc: Global, clause: &[u8], rest: &'a [u8]) -> Result<&'a [u8], AllocError>
    ensures { IfOk result (λ word. word.now ≡ bad_condition clause.now rest.now) }
{
    let next = next_rest(rest);
    if grants_up_to(alloc, clause, next)? {
        return second_word(alloc, clause, next);
    }
    Ok(first_word(rest))
}

#[tactic(auto, unfolding(crate::specs::keyring::Clauses::second_word))]
fn second_word<'a>(alloc: Global, clause: &[u8], rest: &'a [u8]) -> Result<&'a [u8], AllocError>
    ensures { IfOk result (λ word. word.now ≡ second_word clause.now rest.now) }
{
    let next = next_rest(rest);
    if grants_up_to(alloc, clause, next)? {
        return third_word(alloc, clause, next);
    }
    Ok(first_word(rest))
}

#[tactic(auto, unfolding(crate::specs::keyring::Clauses::third_word))]
fn third_word<'a>(alloc: Global, clause: &[u8], rest: &'a [u8]) -> Result<&'a [u8], AllocError>
    ensures { IfOk result (λ word. word.now ≡ third_word clause.now rest.now) }
{
    let next = next_rest(rest);
    if grants_up_to(alloc, clause, next)? {
        return Ok(first_word(next));
    }
    Ok(first_word(rest))
}

/// Whether a clause grants something up to this end of it.
#[tactic(auto, unfolding(crate::specs::keyring::Clauses::grants_up_to))]
fn grants_up_to(alloc: Global, clause: &[u8], rest: &[u8]) -> Result<bool, AllocError>
    ensures { IfOk result (λ is. is ≡ grants_up_to clause.now rest.now) }
{
    let count = clause.len().saturating_sub(rest.len());
    clause_grants(alloc, front(clause, count))
}

/// What stands behind a condition.
#[tactic(auto, unfolding(crate::specs::keyring::Clauses::next_rest))]
fn next_rest(rest: &[u8]) -> &[u8]
    ensures { result.now ≡ next_rest rest.now }
{
    if is_word(first_word(rest), "object_prefix") {
        return rest_of(rest_of(rest));
    }
    rest_of(rest)
}

/// What stands behind the first word of a text.
fn rest_of(text: &[u8]) -> &[u8]
    ensures { result.now ≡ rest_of text.now }
{
    behind_word(behind_blanks(text))
}

/// A word as it is shown.
#[derive(Clone, Copy)]
struct ShownWord<'a>(&'a [u8]);

impl fmt::Display for ShownWord<'_> {
    ghost use Rattle.std.specs.Prelude.{Some};
    ghost use Rattle.cx_help.specs.keyring.Clauses.{shown_word};

    ghost output = { λ word. Some (shown_word word.0.now) };

    fn fmt<W: fmt::Write>(&self, f: &mut fmt::Formatter<W>) -> fmt::Result {
        let shown = shown_of(self.0);
        write!(f, "{}", Word(&shown))
    }
}

/// A clause that grants nothing, and why.
#[derive(Clone, Copy)]
struct DeadClause<'a>(&'a [u8], &'a str);

impl fmt::Display for DeadClause<'_> {
    ghost use Rattle.std.specs.Prelude.{Some};
    ghost use Rattle.cx_help.specs.keyring.Clauses.{dead_clause_text};

    ghost output = { λ dead. Some (dead_clause_text dead.0.now dead.1.now) };

    fn fmt<W: fmt::Write>(&self, f: &mut fmt::Formatter<W>) -> fmt::Result {
        write!(
            f,
            "{} grants nothing: {}",
            ShownWord(behind_blanks(self.0)),
            self.1
        )
    }
}

/// A condition, where there is one.
#[derive(Clone, Copy)]
struct Where<'a>(&'static str, &'a [u8]);

impl fmt::Display for Where<'_> {
    ghost use Rattle.std.specs.Prelude.{Some};
    ghost use Rattle.cx_help.specs.keyring.Clauses.{where_text};

    ghost output = { λ place. Some (where_text place.0.now place.1.now) };

    fn fmt<W: fmt::Write>(&self, f: &mut fmt::Formatter<W>) -> fmt::Result {
        match self.1 {
            [] => Ok(()),
            [..] => write!(f, "{}{}", self.0, ShownWord(self.1)),
        }
    }
}

/// That no profile is known.
#[derive(Clone, Copy)]
struct Profile;

impl fmt::Display for Profile {
    ghost use Rattle.std.specs.Prelude.{Some};
    ghost use Rattle.cx_help.specs.keyring.Clauses.{profile_text};

    ghost output = { λ profile. Some profile_text };

    fn fmt<W: fmt::Write>(&self, f: &mut fmt::Formatter<W>) -> fmt::Result {
        write!(
            f,
            "no profile is known here; write what it stands for, as allow rwx pool=vms"
        )
    }
}

/// A word in place of a condition.
#[derive(Clone, Copy)]
struct Condition<'a>(&'a [u8]);

impl fmt::Display for Condition<'_> {
    ghost use Rattle.std.specs.Prelude.{Some};
    ghost use Rattle.cx_help.specs.keyring.Clauses.{condition_text};

    ghost output = { λ word. Some (condition_text word.0.now) };

    fn fmt<W: fmt::Write>(&self, f: &mut fmt::Formatter<W>) -> fmt::Result {
        write!(
            f,
            "{} is no condition here, or stands twice; conditions are pool=NAME and namespace=NAME, without spaces, and object_prefix \
            NAME, each once, and a NAME is letters, digits, _ - and . alone",
            ShownWord(self.0)
        )
    }
}
