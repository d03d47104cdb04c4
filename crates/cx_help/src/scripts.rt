//! What is wrong with a line of the script of a node.

ghost use Rattle.std.specs.Prelude.{◌≡◌};
ghost use Rattle.cx_help.specs.line.Scripts.{alien_as, another_daemon, another_node, command_name, has_lines, is_alien, is_clients, is_daemons, line_name, names_peer, script_form_text, script_problem_as, script_words_text, wrong_client, wrong_daemon, wrong_name};

use crate::kin::or_kin;
use crate::line_forms::form;
use crate::line_wrong::{Extra, Missing, Problem, Unknown};
use crate::problems::{client_problem, daemon_problem, problem};
use crate::remarks::beside;
use crate::sights::LineSight;
use crate::words::{begins, is_daemon_word};
use cx_lines::{BadWord, Head, NodeForm};
use cx_words::{CommandForm, LineFault, WordPlace};
use std::fmt;

/// A kind of node, by which lines its script has.
#[derive(Clone, Copy, Debug, PartialEq, Eq)]
pub enum NodeKind {
    Monitor,
    Daemon,
    Client,
}

/// A line of the script of a node of this kind, where that is told, that is none, by what is told of it: as `Wrong` says it of a
/// schedule's.
#[derive(Clone, Copy)]
pub struct WrongInScript<'a> {
    pub kind: Option<NodeKind>,
    pub sight: &'a LineSight,
}

impl fmt::Display for WrongInScript<'_> {
    ghost use Rattle.std.specs.Prelude.{Some};
    ghost use Rattle.cx_help.specs.line.Scripts.{wrong_in_script_text};

    ghost output = { λ wrong. Some (wrong_in_script_text wrong.kind wrong.sight.now) };

    fn fmt<W: fmt::Write>(&self, f: &mut fmt::Formatter<W>) -> fmt::Result {
        if is_alien(self.kind, self.sight.bad.form) {
            return write!(f, "{}", AlienLine(self.kind, &self.sight.bad));
        }
        write!(f, "{}", WrongLine(self.kind, self.sight))
    }
}

/// A line that another kind of node has: which has it, and which lines this one has.
#[derive(Clone, Copy)]
struct AlienLine<'a>(Option<NodeKind>, &'a BadWord);

impl fmt::Display for AlienLine<'_> {
    ghost use Rattle.std.specs.Prelude.{Some};
    ghost use Rattle.cx_help.specs.line.Scripts.{alien_line};

    ghost output = { λ line. Some (alien_line line.0 line.1.now) };

    fn fmt<W: fmt::Write>(&self, f: &mut fmt::Formatter<W>) -> fmt::Result {
        write!(
            f,
            "it is {}{}{}",
            line_name(self.1.form),
            alien(self.0),
            script_words(self.0)
        )
    }
}

/// Any other line, by its first fault.
#[derive(Clone, Copy)]
struct WrongLine<'a>(Option<NodeKind>, &'a LineSight);

impl fmt::Display for WrongLine<'_> {
    ghost use Rattle.std.specs.Prelude.{Some};
    ghost use Rattle.cx_help.specs.line.Remarks.{beside_text};
    ghost use Rattle.cx_help.specs.line.Scripts.{wrong_in_script_as};

    ghost output = { λ wrong. Some (wrong_in_script_as wrong.0 wrong.1.now.bad.fault.why wrong.1.now.bad (beside_text wrong.1.now.remark wrong.1.now.bad.hint)) };

    fn fmt<W: fmt::Write>(&self, f: &mut fmt::Formatter<W>) -> fmt::Result {
        let bad = &self.1.bad;
        let beside = beside(self.1.remark, bad.hint);
        match bad.fault.why {
            LineFault::UnknownWord => {
                let beside = or_kin(beside, &bad.shown);
                write!(f, "{}", Unknown(bad, beside, script_words(self.0)))
            }
            LineFault::Missing => write!(f, "{}", Missing(bad, beside, script_form(bad.form))),
            LineFault::Extra => write!(f, "{}", Extra(bad, beside, script_form(bad.form))),
            LineFault::BadNumber => {
                write!(
                    f,
                    "{}",
                    Problem(bad, script_problem(bad), beside, script_form(bad.form))
                )
            }
            LineFault::BadName => {
                write!(
                    f,
                    "{}",
                    Problem(bad, script_problem(bad), beside, script_form(bad.form))
                )
            }
            LineFault::BadText => {
                write!(
                    f,
                    "{}",
                    Problem(bad, script_problem(bad), beside, script_form(bad.form))
                )
            }
            LineFault::UnknownNode => {
                write!(
                    f,
                    "{}",
                    Problem(bad, script_problem(bad), beside, script_form(bad.form))
                )
            }
            LineFault::Repeated => {
                write!(
                    f,
                    "{}",
                    Problem(bad, script_problem(bad), beside, script_form(bad.form))
                )
            }
            LineFault::Order => {
                write!(
                    f,
                    "{}",
                    Problem(bad, script_problem(bad), beside, script_form(bad.form))
                )
            }
        }
    }
}

/// Whether the line is of a form that scripts of this kind don't have.
fn is_alien(kind: Option<NodeKind>, form: Option<Head>) -> bool
    ensures { result ≡ is_alien kind form }
{
    match (kind, form) {
        (Some(kind), Some(form)) => !has_lines(kind, form),
        _ => false,
    }
}

fn has_lines(kind: NodeKind, form: Head) -> bool
    ensures { result ≡ has_lines kind form }
{
    match kind {
        NodeKind::Monitor => false,
        NodeKind::Daemon => is_daemons(form),
        NodeKind::Client => is_clients(form),
    }
}

fn is_daemons(form: Head) -> bool
    ensures { result ≡ is_daemons form }
{
    match form {
        Head::Submit(CommandForm::Fetch) => true,
        Head::Node(NodeForm::DropSession) => true,
        _ => false,
    }
}

fn is_clients(form: Head) -> bool
    ensures { result ≡ is_clients form }
{
    match form {
        Head::Submit(CommandForm::Login) => true,
        Head::Submit(CommandForm::Renew) => true,
        Head::Submit(CommandForm::Connect) => true,
        Head::Submit(CommandForm::Send) => true,
        _ => false,
    }
}

/// A line of this form, and which node's script has it.
fn line_name(form: Option<Head>) -> &'static str
    ensures { result.now ≡ line_name form }
{
    match form {
        Some(Head::Submit(form)) => command_name(form),
        _ => "a drop line, which a daemon's script has",
    }
}

fn command_name(form: CommandForm) -> &'static str
    ensures { result.now ≡ command_name form }
{
    match form {
        CommandForm::Fetch => "a fetch line, which a daemon's script has",
        CommandForm::Login => "a login line, which a client's script has",
        CommandForm::Renew => "a renew line, which a client's script has",
        CommandForm::Connect => "a connect line, which a client's script has",
        CommandForm::Send => "a send line, which a client's script has",
    }
}

fn alien(kind: Option<NodeKind>) -> &'static str
    ensures { result.now ≡ alien_as kind }
{
    match kind {
        None => "",
        Some(NodeKind::Monitor) => " and the monitor's hasn't",
        Some(NodeKind::Daemon) => " and a daemon's hasn't",
        Some(NodeKind::Client) => " and a client's hasn't",
    }
}

/// The words that begin a line.
fn script_words(kind: Option<NodeKind>) -> &'static str
    ensures { result.now ≡ script_words_text kind }
{
    match kind {
        None => {
            "; a line of a node's script begins with fetch, login, renew, connect, send, drop, gone or stop, one of the monitor's \
            with gone or stop, and a comment with #"
        }
        Some(NodeKind::Monitor) =>
            "; a line of the monitor's script begins with gone or stop, and a comment with #",
        Some(NodeKind::Daemon) => {
            "; a line of a daemon's script begins with fetch, drop, gone or stop, and a comment with #"
        }
        Some(NodeKind::Client) => {
            "; a line of a client's script begins with login, renew, connect, send, gone or stop, and a comment with #"
        }
    }
}

/// The form of a line with an example.
fn script_form(head: Option<Head>) -> &'static str
    ensures { result.now ≡ script_form_text head }
{
    match head {
        None => "; its form is: gone NUMBER, as in: gone 2, or stop, alone",
        Some(head) => form(Some(head)),
    }
}

/// What is wrong with the word at its place.
fn script_problem(bad: &BadWord) -> &'static str
    ensures { result.now ≡ script_problem_as bad.now.fault.why bad.now }
{
    match bad.fault.why {
        LineFault::UnknownNode => wrong_name(bad),
        _ => problem(bad),
    }
}

fn wrong_name(bad: &BadWord) -> &'static str
    ensures { result.now ≡ wrong_name bad.now.takes bad.now }
{
    match bad.takes {
        Some(WordPlace::Daemon) => wrong_daemon(bad.form, is_daemon_word(&bad.shown)),
        _ => wrong_client(begins(&bad.shown, "client.")),
    }
}

fn wrong_daemon(form: Option<Head>, is_daemon: bool) -> &'static str
    ensures { result.now ≡ wrong_daemon form is_daemon }
{
    if is_daemon {
        return another_daemon(names_peer(form));
    }
    daemon_problem(false)
}

fn wrong_client(is_client: bool) -> &'static str
    ensures { result.now ≡ wrong_client is_client }
{
    if is_client {
        return another_node();
    }
    client_problem(false)
}

/// Whether a line of this form names a peer.
fn names_peer(form: Option<Head>) -> bool
    ensures { result ≡ names_peer form }
{
    match form {
        Some(Head::Submit(CommandForm::Connect)) => true,
        Some(Head::Submit(CommandForm::Send)) => true,
        _ => false,
    }
}

fn another_daemon(is_peers_place: bool) -> &'static str
    ensures { result.now ≡ another_daemon is_peers_place }
{
    if is_peers_place {
        return "is no peer: give it with its address where the node is started, as osd.0@127.0.0.1:6800";
    }
    another_node()
}

fn another_node() -> &'static str
    ensures { result.now ≡ another_node }
{
    "is another node: the first name of a line is that of the node whose script it is"
}
