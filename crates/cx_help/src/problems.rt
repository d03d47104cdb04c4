//! What is wrong with a word at its place, and what to write.

ghost use Rattle.std.specs.Prelude.{◌≡◌};
ghost use Rattle.cx_help.specs.line.Problems.{again_problem, caps_problem, client_problem, daemon_problem, name_problem, no_client, no_daemon, no_name, no_node, no_number, node_problem, number_problem, part_problem, problem_as, text_at, too_large, undeclared};

use crate::words::{
    are_digits, begins, has_leading_zero, has_slash, is_daemon_word, is_monitor_word,
};
use cx_lines::BadWord;
use cx_words::{LineFault, Shown, WordPlace};

/// What is wrong with the word at its place.
pub(crate) fn problem(bad: &BadWord) -> &'static str
    ensures { result.now ≡ problem_as bad.now.fault.why bad.now }
{
    match bad.fault.why {
        LineFault::BadNumber => number_problem(bad),
        LineFault::BadName => name_problem(bad.takes, &bad.shown),
        LineFault::BadText => text_at(bad.takes, &bad.shown),
        LineFault::UnknownNode => node_problem(bad.takes, &bad.shown),
        _ => again_problem(bad.takes),
    }
}

fn name_problem(place: Option<WordPlace>, shown: &Shown) -> &'static str
    ensures { result.now ≡ name_problem place shown.now }
{
    match place {
        Some(WordPlace::Node) | Some(WordPlace::Unseeded) => no_node(),
        Some(WordPlace::Entity) => no_name(),
        Some(WordPlace::Daemon) => no_daemon(is_monitor_word(shown)),
        _ => no_client(is_monitor_word(shown)),
    }
}

fn no_node() -> &'static str
    ensures { result.now ≡ no_node }
{
    "is no node: a node is mon, the monitor, or an entity's, by its name, as client.admin or osd.0"
}

fn no_name() -> &'static str
    ensures { result.now ≡ no_name }
{
    "is no name: a name is a type, client, mds, osd or mgr, a point and an id of 1 to 64 letters, digits or _ - . : + /, as \
    client.admin or osd.0"
}

/// In place of a daemon's name: the monitor, which is none, or no name at all.
fn no_daemon(is_monitor: bool) -> &'static str
    ensures { result.now ≡ no_daemon is_monitor }
{
    if is_monitor {
        daemon_problem(false)
    } else {
        no_name()
    }
}

/// The same in place of a client's.
fn no_client(is_monitor: bool) -> &'static str
    ensures { result.now ≡ no_client is_monitor }
{
    if is_monitor {
        client_problem(false)
    } else {
        no_name()
    }
}

fn number_problem(bad: &BadWord) -> &'static str
    ensures { result.now ≡ number_problem bad.now }
{
    if has_leading_zero(&bad.shown) {
        return "has a leading zero; write it without";
    }
    if are_digits(&bad.shown) {
        return too_large(bad.takes);
    }
    no_number(bad.takes)
}

fn too_large(place: Option<WordPlace>) -> &'static str
    ensures { result.now ≡ too_large place }
{
    match place {
        Some(WordPlace::Life) => "is out of bounds: a lifetime is 1 to 31,536,000 seconds",
        Some(WordPlace::Number) => "is too large: a number is below 18,446,744,073,709,551,616",
        _ => "is too large: a reading is below 4,000,000,000 seconds",
    }
}

fn no_number(place: Option<WordPlace>) -> &'static str
    ensures { result.now ≡ no_number place }
{
    match place {
        Some(WordPlace::Life) =>
            "is no number: a lifetime is 1 to 31,536,000 seconds, in decimal digits alone, as 3600",
        Some(WordPlace::Number) => "is no number: a number is decimal digits alone, as 1",
        _ => {
            "is no reading: a reading is a number of seconds, as 4599, or one with a point and nine digits, as \
            4599.999999999"
        }
    }
}

fn text_at(place: Option<WordPlace>, shown: &Shown) -> &'static str
    ensures { result.now ≡ text_at place shown.now }
{
    match place {
        Some(WordPlace::Service) => "is no service that has caps: mon, mds, osd or mgr",
        Some(WordPlace::Caps) => caps_problem(begins(shown, "\"")),
        Some(WordPlace::Services) => {
            "is no list of services: mds, osd and mgr, joined by commas without a space, each at most once, as mds,osd"
        }
        Some(WordPlace::Access) => "is no access: read, write or exec",
        Some(WordPlace::Part) => part_problem(has_slash(shown)),
        Some(WordPlace::Bytes) => {
            "is no bytes: two hexadecimal digits a byte, and - where there is none"
        }
        Some(WordPlace::Modes) => "is no list of modes: crc, secure or crc,secure",
        Some(WordPlace::Side) => "is no side of a link: c, the connector's, or a, the acceptor's",
        Some(WordPlace::Lossy) => "may not stand there: nothing but lossy stands behind the daemon",
        Some(WordPlace::LeftState) => "is no state that a failed save leaves: old or new",
        Some(WordPlace::Command) => {
            "begins no line that may stand behind do: fetch, login, renew, connect or send"
        }
        _ =>
            "is no data: two hexadecimal digits a byte, at most 65,536 bytes, and - where there is none",
    }
}

fn caps_problem(is_open: bool) -> &'static str
    ensures { result.now ≡ caps_problem is_open }
{
    if is_open {
        return "is no text of caps: it ends with a quotation mark too, and has at most 4,096 bytes from the space to ~, \
        without a quotation mark or a backslash";
    }
    "is no text of caps: caps stand in quotation marks, as \"allow *\""
}

fn part_problem(has_slash: bool) -> &'static str
    ensures { result.now ≡ part_problem has_slash }
{
    if has_slash {
        return "has a slash: pool, namespace and object are three words, each of 1 to 255 letters, digits or _ - . , and - where \
        there is none";
    }
    "is no pool, namespace or object: 1 to 255 letters, digits or _ - . , and - where there is none"
}

fn node_problem(place: Option<WordPlace>, shown: &Shown) -> &'static str
    ensures { result.now ≡ node_problem place shown.now }
{
    match place {
        Some(WordPlace::Entity) =>
            "can't be declared: an entity is a client, an mds, an osd or a mgr",
        Some(WordPlace::Daemon) => daemon_problem(is_daemon_word(shown)),
        Some(WordPlace::Node) | Some(WordPlace::Unseeded) => {
            "is declared by no line above: write mon for the monitor, and an entity line for any other node, above all lines \
            that aren't head lines"
        }
        _ => client_problem(begins(shown, "client.")),
    }
}

/// What is wrong with a name in place of a declared daemon's, by whether it is a daemon's.
pub(crate) fn daemon_problem(is_daemon: bool) -> &'static str
    ensures { result.now ≡ daemon_problem is_daemon }
{
    if is_daemon {
        return undeclared();
    }
    "is no daemon: a daemon's name begins with mds., osd. or mgr."
}

/// The same of a client's.
pub(crate) fn client_problem(is_client: bool) -> &'static str
    ensures { result.now ≡ client_problem is_client }
{
    if is_client {
        return undeclared();
    }
    "is no client: a client's name begins with client."
}

fn undeclared() -> &'static str
    ensures { result.now ≡ undeclared }
{
    "is declared by no line above: write an entity line for it, above all lines that aren't head lines"
}

fn again_problem(place: Option<WordPlace>) -> &'static str
    ensures { result.now ≡ again_problem place }
{
    match place {
        Some(WordPlace::Entity) =>
            "is declared by a line above already; give it all of its caps there",
        Some(WordPlace::Service) =>
            "stands in this line already; give it one text, with commas between its clauses",
        Some(WordPlace::Unseeded) => "has a seed by a line above already; leave one of them out",
        Some(WordPlace::Unmoded) => "has its modes by a line above already; leave one of them out",
        Some(WordPlace::Unleaked) => "is leaked by a line above already; leave one of them out",
        _ =>
            "begins a line that stands once in a schedule, and one stands above already; leave one of them out",
    }
}
