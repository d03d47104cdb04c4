//! What the words behind that of a command are to spell, place by place.

ghost use Rattle.std.specs.Prelude.{◌≡◌};
ghost use Rattle.cx_help.specs.declared.command_places.Place.{Place};
ghost use Rattle.cx_help.specs.command.Places.{client_place, daemon_place, drill_place, fits, least_of, monitor_place, place_at};

use cx_command_line::{Form, address, bounded, client_name, daemon_name, peer};
use cx_words::number;

/// What a word is to spell at its place.
#[derive(Clone, Copy, Debug, PartialEq, Eq)]
pub enum Place {
    /// How many clients a drill has.
    Clients,
    /// The seed of a drill.
    Seed,
    /// How many events a node takes.
    Events,
    /// Where a node listens, or where the monitor is.
    Address,
    /// A lifetime in seconds.
    Lifetime,
    /// A daemon's name.
    Daemon,
    /// A client's name.
    Client,
    /// A daemon's name with its address.
    Peer,
}

/// What stands at the place of this number, from 0, behind the word of a command of this form.
pub(crate) fn place_at(form: Form, number: usize) -> Option<Place>
    ensures { result ≡ place_at form number }
{
    match form {
        Form::Replay | Form::Keyring | Form::Audit | Form::Key => None,
        Form::Drill => drill_place(number),
        Form::Monitor => monitor_place(number),
        Form::Daemon => daemon_place(number),
        Form::Client => client_place(number),
    }
}

fn drill_place(number: usize) -> Option<Place>
    ensures { result ≡ drill_place number }
{
    if number == 0 {
        return Some(Place::Clients);
    }
    if number == 1 {
        return Some(Place::Seed);
    }
    None
}

fn monitor_place(number: usize) -> Option<Place>
    ensures { result ≡ monitor_place number }
{
    if number == 0 {
        return Some(Place::Events);
    }
    if number == 1 {
        return Some(Place::Address);
    }
    if number < 4 {
        return Some(Place::Lifetime);
    }
    None
}

fn daemon_place(number: usize) -> Option<Place>
    ensures { result ≡ daemon_place number }
{
    if number == 0 {
        return Some(Place::Daemon);
    }
    if number == 1 {
        return Some(Place::Events);
    }
    if number < 4 {
        return Some(Place::Address);
    }
    None
}

fn client_place(number: usize) -> Option<Place>
    ensures { result ≡ client_place number }
{
    if number == 0 {
        return Some(Place::Client);
    }
    if number == 1 {
        return Some(Place::Events);
    }
    if number == 2 {
        return Some(Place::Address);
    }
    Some(Place::Peer)
}

/// How many words must stand behind that of a command of this form, where so many do.
pub(crate) fn least_of(form: Form, count: usize) -> usize
    ensures { result ≡ least_of form count }
{
    match form {
        Form::Replay | Form::Keyring | Form::Audit | Form::Key => 0,
        Form::Drill => 2,
        Form::Monitor => { if 2 < count { 4 } else { 2 } }
        Form::Daemon => 4,
        Form::Client => 3,
    }
}

/// Whether the word is good at this place.
pub(crate) fn fits(place: Place, word: &str) -> bool
    ensures { result ≡ fits place word.now }
{
    match place {
        Place::Clients => bounded(1, 1_000, word).is_some(),
        Place::Seed => number(word.as_bytes()).is_some(),
        Place::Events => bounded(1, 1_000_000, word).is_some(),
        Place::Address => address(word.as_bytes()).is_some(),
        Place::Lifetime => bounded(1, 31_536_000, word).is_some(),
        Place::Daemon => is_daemon(word),
        Place::Client => is_client(word),
        Place::Peer => is_peer(word),
    }
}

fn is_daemon(word: &str) -> bool
    ensures { result ≡ fits Place.Daemon word.now }
{
    daemon_name(word.as_bytes()).is_some()
}

fn is_client(word: &str) -> bool
    ensures { result ≡ fits Place.Client word.now }
{
    client_name(word.as_bytes()).is_some()
}

fn is_peer(word: &str) -> bool
    ensures { result ≡ fits Place.Peer word.now }
{
    peer(word).is_some()
}
