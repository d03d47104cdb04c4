//! The commands, by the words of the command line.

ghost use Rattle.std.specs.Prelude.{◌≡◌, [], ◌∷◌, map, MatchOption};
ghost use Rattle.std.specs.Option.{option_map};
ghost use Rattle.cx_command_line.specs.Commands as told;
ghost use Rattle.cx_command_line.specs.Commands.{asked, asked_client, asked_daemon, spelled, spelled_by};
ghost use Rattle.cx_command_line.specs.Words.{address, bounded};

use crate::addresses::address;
use crate::forms::{Form, is_text};
use crate::names::{client_name, daemon_name};
use crate::numbers::bounded;
use crate::peers::are_peers;
use cx_base::Addr;
use cx_enc::NameRef;
use cx_words::number;

/// A drill of so many clients, 1 to 1,000.
#[derive(Clone, Copy, Debug, PartialEq, Eq)]
pub struct DrillCommand {
    pub clients: u32,
    pub seed: u64,
}

/// A monitor that takes so many events, 1 to 1,000,000, listens there, and whose secrets and tickets live so many seconds, 1 to
/// 31,536,000: those of services, and those of AUTH.
#[derive(Clone, Copy, Debug, PartialEq, Eq)]
pub struct MonitorCommand {
    pub events: u64,
    pub listen: Addr,
    pub life: u64,
    pub auth_life: u64,
}

/// A daemon of this name, which takes so many events, 1 to 1,000,000, listens there, and asks the monitor at this address.
#[derive(Clone, Copy, Debug)]
pub struct DaemonCommand<'a> {
    pub name: NameRef<'a>,
    pub events: u64,
    pub listen: Addr,
    pub monitor: Addr,
}

/// A client of this name, which takes so many events, 1 to 1,000,000, and asks the monitor at this address. Each of the words
/// spells a peer.
#[derive(Clone, Copy, Debug)]
pub struct ClientCommand<'a> {
    pub name: NameRef<'a>,
    pub events: u64,
    pub monitor: Addr,
    pub peers: &'a [&'a str],
}

/// What the words of a command line ask for.
#[derive(Clone, Copy, Debug)]
pub enum Invocation<'a> {
    /// Reads a schedule, and writes the journal of its run.
    Replay,
    /// Reads a keyring, and writes it in its printed form.
    Keyring,
    /// Reads a journal, and writes whether it is legal.
    Audit,
    /// Runs the schedule of a drill, and writes how many entries of five kinds its journal has.
    Drill(DrillCommand),
    /// Writes a new key.
    Key,
    /// Runs the monitor.
    Monitor(MonitorCommand),
    /// Runs a daemon.
    Daemon(DaemonCommand<'a>),
    /// Runs a client.
    Client(ClientCommand<'a>),
}

/// What the words ask for; none where they spell no command. It takes no memory.
pub fn invocation_of<'a>(words: &'a [&'a str]) -> Option<Invocation<'a>>
    ensures { option_map asked result ≡ spelled (map (λ w. w.now) words.now) }
{
    let (command, values) = first(words)?;
    spelled_by(command, values)
}

// The first of these words, and those behind it.
fn first<'a>(words: &'a [&'a str]) -> Option<(&'a str, &'a [&'a str])>
    ensures { MatchOption result (map (λ w. w.now) words.now ≡ []) (λ p. map (λ w. w.now) words.now ≡ p.0.now ∷ map (λ w. w.now) p.1.now) }
{
    match words {
        [first, rest @ ..] => Some((first, rest)),
        [] => None,
    }
}

// What they ask for whose first is this one.
fn spelled_by<'a>(command: &str, values: &'a [&'a str]) -> Option<Invocation<'a>>
    ensures { option_map asked result ≡ spelled_by command.now (map (λ w. w.now) values.now) }
{
    if is_text(command, Form::Replay.word()) {
        return alone(Invocation::Replay, values);
    }
    if is_text(command, Form::Keyring.word()) {
        return alone(Invocation::Keyring, values);
    }
    if is_text(command, Form::Audit.word()) {
        return alone(Invocation::Audit, values);
    }
    if is_text(command, Form::Drill.word()) {
        return drill(values).map(|c| Invocation::Drill(c));
    }
    if is_text(command, Form::Key.word()) {
        return alone(Invocation::Key, values);
    }
    if is_text(command, Form::Monitor.word()) {
        return monitor(values).map(|c| Invocation::Monitor(c));
    }
    if is_text(command, Form::Daemon.word()) {
        return daemon(values).map(|c| Invocation::Daemon(c));
    }
    if is_text(command, Form::Client.word()) {
        return client(values).map(|c| Invocation::Client(c));
    }
    None
}

fn alone<'a>(invocation: Invocation<'a>, values: &[&str]) -> Option<Invocation<'a>>
    ensures { option_map asked result ≡ told.alone (asked invocation.entry) (map (λ w. w.now) values.now) }
{
    match values {
        [] => Some(invocation),
        [..] => None,
    }
}

fn drill(values: &[&str]) -> Option<DrillCommand>
    ensures { result ≡ told.drill (map (λ w. w.now) values.now) }
{
    match values {
        [clients, seed] => drill_of(clients, seed),
        _ => None,
    }
}

fn drill_of(clients: &str, seed: &str) -> Option<DrillCommand>
    ensures { result ≡ told.drill (clients.now ∷ seed.now ∷ []) }
{
    let clients = bounded(1, 1_000, clients)?;
    let seed = number(seed.as_bytes())?;
    Some(DrillCommand {
        clients: clients as u32,
        seed,
    })
}

// How many events a node takes.
fn events(word: &str) -> Option<u64>
    ensures { result ≡ told.events word.now }
{
    bounded(1, 1_000_000, word)
}

// A lifetime in seconds.
fn lifetime(word: &str) -> Option<u64>
    ensures { result ≡ told.lifetime word.now }
{
    bounded(1, 31_536_000, word)
}

fn monitor<'a>(values: &'a [&'a str]) -> Option<MonitorCommand>
    ensures { result ≡ told.monitor (map (λ w. w.now) values.now) }
{
    let (count, rest) = first(values)?;
    let (listen, rest) = first(rest)?;
    monitor_of(count, listen, rest)
}

fn monitor_of(count: &str, listen: &str, rest: &[&str]) -> Option<MonitorCommand>
    ensures { result ≡ told.monitor (count.now ∷ listen.now ∷ map (λ w. w.now) rest.now) }
{
    let events = events(count)?;
    let listen = address(listen.as_bytes())?;
    let (life, auth_life) = lives(rest)?;
    Some(MonitorCommand {
        events,
        listen,
        life,
        auth_life,
    })
}

// Two lifetimes, or those that stand for none.
fn lives(values: &[&str]) -> Option<(u64, u64)>
    ensures { result ≡ told.lives (map (λ w. w.now) values.now) }
{
    match values {
        [] => Some((3_600, 43_200)),
        [..] => two_lives(values),
    }
}

fn two_lives(values: &[&str]) -> Option<(u64, u64)>
    ensures { result ≡ told.two_lives (map (λ w. w.now) values.now) }
{
    match values {
        [life, auth_life] => both_lives(life, auth_life),
        _ => None,
    }
}

fn both_lives(life: &str, auth_life: &str) -> Option<(u64, u64)>
    ensures { result ≡ told.two_lives (life.now ∷ auth_life.now ∷ []) }
{
    let life = lifetime(life)?;
    let auth_life = lifetime(auth_life)?;
    Some((life, auth_life))
}

fn daemon<'a>(values: &'a [&'a str]) -> Option<DaemonCommand<'a>>
    ensures { option_map asked_daemon result ≡ told.daemon (map (λ w. w.now) values.now) }
{
    let (name, rest) = first(values)?;
    let (count, rest) = first(rest)?;
    daemon_with(name, count, rest)
}

fn daemon_with<'a>(name: &'a str, count: &str, values: &'a [&'a str]) -> Option<DaemonCommand<'a>>
    ensures { option_map asked_daemon result ≡ told.daemon (name.now ∷ count.now ∷ map (λ w. w.now) values.now) }
{
    let (listen, rest) = first(values)?;
    let (monitor, rest) = first(rest)?;
    if first(rest).is_some() {
        return None;
    }
    daemon_of(name, count, listen, monitor)
}

fn daemon_of<'a>(
    name: &'a str,
    count: &str,
    listen: &str,
    monitor: &str,
) -> Option<DaemonCommand<'a>>
    ensures { option_map asked_daemon result ≡ told.daemon (name.now ∷ count.now ∷ listen.now ∷ monitor.now ∷ []) }
{
    let name = daemon_name(name.as_bytes())?;
    let events = events(count)?;
    let listen = address(listen.as_bytes())?;
    let monitor = address(monitor.as_bytes())?;
    Some(DaemonCommand {
        name,
        events,
        listen,
        monitor,
    })
}

fn client<'a>(values: &'a [&'a str]) -> Option<ClientCommand<'a>>
    ensures { option_map asked_client result ≡ told.client (map (λ w. w.now) values.now) }
{
    let (name, rest) = first(values)?;
    let (count, rest) = first(rest)?;
    let (monitor, peers) = first(rest)?;
    client_of(name, count, monitor, peers)
}

fn client_of<'a>(
    name: &'a str,
    count: &str,
    monitor: &str,
    peers: &'a [&'a str],
) -> Option<ClientCommand<'a>>
    ensures { option_map asked_client result ≡ told.client (name.now ∷ count.now ∷ monitor.now ∷ map (λ w. w.now) peers.now) }
{
    let name = client_name(name.as_bytes())?;
    let events = events(count)?;
    let monitor = address(monitor.as_bytes())?;
    if !are_peers(peers) {
        return None;
    }
    Some(ClientCommand {
        name,
        events,
        monitor,
        peers,
    })
}
