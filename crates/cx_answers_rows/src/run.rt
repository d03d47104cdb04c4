//! A run that is played.

ghost use Rattle.std.specs.Prelude.{◌<◌};

use crate::draws::Draws;
use crate::events::{Coming, number_of, reading_of, seed_of};
use crate::named::Named;
use crate::nodes::{client_of, monitor_of};
use crate::shown::{Ascii, put_effects, put_saved, put_seals};
use cx_base::{Blob, Duplicate, Reading};
use cx_client::{Client, can_come};
use cx_dice::Draw;
use cx_journal::{Journal, put_text};
use cx_mon::Monitor;
use cx_steps::{Effects, Event};
use std::alloc::{AllocError, Global};
use std::fmt::Write;

/// What a program adds to runs of the monitor and clients: rows of other kinds, and nodes of another kind.
pub trait Others: Drop {
    ghost use Rattle.std.specs.Prelude.{◌<◌};

    /// None of them yet, as a run begins.
    fn anew(&self, alloc: Global) -> Self;

    /// What is told of a row of another kind, with the keyring of these lines.
    fn told(
        &mut self,
        alloc: Global,
        ring: &[u8],
        kind: &str,
        rest: &str,
    ) -> Result<String, AllocError>;

    /// The draw of this number of the node of this name, if that is one of these.
    fn draw(&mut self, node: &str, number: u32) -> Option<Draw>;

    /// What the node of this name gives at an event, if it is one of these.
    fn step(
        &mut self,
        alloc: Global,
        node: &str,
        event: Event<'_>,
        now: Reading,
        draw: &Draw,
    ) -> Result<Option<Effects>, AllocError>
        requires { now < 4000000000000000000 };
}

#[derive(Drop)]
struct MonitorNode {
    monitor: Monitor,
    draws: Draws,
}

#[derive(Drop)]
struct ClientNode {
    name: String,
    client: Client,
    draws: Draws,
}

/// A run so far: the lines of its keyring, its nodes, and its journal; whether the next save fails, and then leaves the old state; and whether
/// what is drawn, sealed, opened, signed and found equal is told.
#[derive(Drop)]
pub struct Run<O: Others> {
    others: O,
    ring: Blob,
    monitor: Option<MonitorNode>,
    clients: Vec<ClientNode>,
    journal: Journal,
    fails: Option<bool>,
    logs: bool,
}

impl<O: Others> Run<O> {
    /// A run as it begins.
    pub fn new(alloc: Global, others: O, logs: bool) -> Run<O> {
        Run {
            others,
            ring: Blob::new(alloc),
            monitor: None,
            clients: Vec::new(alloc),
            journal: Journal::new(alloc),
            fails: None,
            logs,
        }
    }

    /// A run with the same other nodes, as it begins.
    pub fn anew(&self, alloc: Global, logs: bool) -> Run<O> {
        Run::new(alloc, self.others.anew(alloc), logs)
    }

    /// What is told of a row.
    pub fn told(&mut self, alloc: Global, row: &str) -> Result<String, AllocError> {
        let (kind, rest) = row.split_once(' ').unwrap_or((row, ""));
        match kind {
            "ring" => {
                self.ring.append(alloc, rest.as_bytes())?;
                self.ring.append(alloc, b"\n")?;
                Ok(String::new(alloc))
            }
            "monitor" => self.monitor(alloc, row, rest),
            "client" => self.client(alloc, row, rest),
            "fails" => {
                self.fails = Some(rest == "old");
                Ok(String::new(alloc))
            }
            "at" => self.comes(alloc, &Coming::of(rest)),
            "drip" => self.drips(alloc, &Coming::of(rest)),
            "journal" => self.journal_told(alloc),
            _ => self.others.told(alloc, self.ring.bytes(), kind, rest),
        }
    }

    fn monitor(&mut self, alloc: Global, row: &str, rest: &str) -> Result<String, AllocError> {
        let seed = seed_of(rest.split(' ').next().unwrap_or(""));
        self.monitor = Some(MonitorNode {
            monitor: monitor_of(alloc, self.ring.bytes(), rest)?,
            draws: Draws::new(alloc, seed),
        });
        format!(in alloc; "{row}\n")
    }

    fn client(&mut self, alloc: Global, row: &str, rest: &str) -> Result<String, AllocError> {
        let named = Named::of(rest);
        let Some(client) = client_of(alloc, self.ring.bytes(), &named)? else {
            return format!(in alloc; "{row}: no such entity\n");
        };
        self.clients.push(ClientNode {
            name: String::from_str(alloc, named.name)?,
            client,
            draws: Draws::new(alloc, named.seed()),
        })?;
        format!(in alloc; "{row}\n")
    }

    // Something comes to a node.
    fn comes(&mut self, alloc: Global, coming: &Coming<'_>) -> Result<String, AllocError> {
        let mut told = coming.told(alloc)?;
        let bytes = coming.bytes(alloc);
        let draw = self.draw(alloc, coming)?;
        match coming.event(alloc, &bytes) {
            Ok(event) => self.happens(alloc, coming, event, &draw, &mut told)?,
            Err(error) => return Err(error),
        }
        Ok(told)
    }

    // Bytes come to a node one by one, with a turn behind each, of which is told what it gave and behind how many bytes.
    fn drips(&mut self, alloc: Global, coming: &Coming<'_>) -> Result<String, AllocError> {
        let mut told = coming.told(alloc)?;
        let bytes = coming.bytes(alloc);
        let draw = self.draw(alloc, coming)?;
        for (place, byte) in bytes.iter().enumerate() {
            let given = self.turned(alloc, coming, &[*byte], &draw)?;
            if !given.is_empty() {
                let count = place as u64 + 1;
                write!(told, "  at {count}\n{given}")?;
            }
        }
        Ok(told)
    }

    /// What is told of so many of the bytes that come to a node, a turn, and the end of the link.
    pub fn cut(
        &mut self,
        alloc: Global,
        coming: &Coming<'_>,
        bytes: &[u8],
    ) -> Result<String, AllocError> {
        let draw = self.draw(alloc, coming)?;
        let mut told = self.turned(alloc, coming, bytes, &draw)?;
        self.happens(alloc, coming, Event::Gone(coming.link()), &draw, &mut told)?;
        Ok(told)
    }

    /// What is told of a link that opens at a node so many numbers behind the one of the row, and of the end of the one that opened so few before it.
    pub fn opens(
        &mut self,
        alloc: Global,
        coming: &Coming<'_>,
        place: u32,
        few: u32,
    ) -> Result<String, AllocError> {
        let mut told = String::new(alloc);
        let draw = self.draw(alloc, coming)?;
        let link = coming.link().saturating_add(place);
        self.happens(alloc, coming, Event::Opened(link, None), &draw, &mut told)?;
        if place >= few {
            self.happens(
                alloc,
                coming,
                Event::Gone(link.saturating_sub(few)),
                &draw,
                &mut told,
            )?;
        }
        Ok(told)
    }

    // What is told of bytes that come to a node, and of a turn behind them.
    fn turned(
        &mut self,
        alloc: Global,
        coming: &Coming<'_>,
        bytes: &[u8],
        draw: &Draw,
    ) -> Result<String, AllocError> {
        let mut told = String::new(alloc);
        let link = coming.link();
        self.happens(alloc, coming, Event::Bytes(link, bytes), draw, &mut told)?;
        self.happens(alloc, coming, Event::Turn(link), draw, &mut told)?;
        Ok(told)
    }

    // The draw of a row: a node's next one, unless that was drawn before.
    fn draw(&mut self, alloc: Global, coming: &Coming<'_>) -> Result<Draw, AllocError> {
        match self.drawn(coming) {
            Some(draw) => Ok(draw),
            None => Draw::of(alloc, [0; 384]),
        }
    }

    fn drawn(&mut self, coming: &Coming<'_>) -> Option<Draw> {
        let number = number_of(coming.draw);
        if coming.node == "mon" {
            if let Some(node) = &mut self.monitor {
                return node.draws.draw(number);
            }
        }
        for node in self.clients.iter_mut() {
            if node.name.as_str() == coming.node {
                return node.draws.draw(number);
            }
        }
        self.others.draw(coming.node, number)
    }

    // An event comes to a node.
    fn happens(
        &mut self,
        alloc: Global,
        coming: &Coming<'_>,
        event: Event<'_>,
        draw: &Draw,
        told: &mut String,
    ) -> Result<(), AllocError> {
        if coming.node == "mon" {
            return self.comes_to_monitor(alloc, coming, event, draw, told);
        }
        let now = reading_of(coming.reading);
        let out = if self.has_client(coming.node) {
            self.client_step(alloc, coming, event, draw)?
        } else {
            self.others.step(alloc, coming.node, event, now, draw)?
        };
        let Some(out) = out else {
            return Ok(());
        };
        if self.logs {
            put_seals(told, &out)?;
        }
        self.carries_out(alloc, &out, told)
    }

    // The monitor saves before anything else; where that fails, nothing else is done.
    fn comes_to_monitor(
        &mut self,
        alloc: Global,
        coming: &Coming<'_>,
        event: Event<'_>,
        draw: &Draw,
        told: &mut String,
    ) -> Result<(), AllocError> {
        let Some(node) = &mut self.monitor else {
            return Ok(());
        };
        let now = reading_of(coming.reading);
        let mut out = Effects::new(alloc);
        node.monitor.step(alloc, event, now, draw, &mut out)?;
        if self.logs {
            put_seals(told, &out)?;
        }
        put_saved(alloc, told, &out.save)?;
        let Some(leaves_old) = self.fails.take() else {
            return self.carries_out(alloc, &out, told);
        };
        if leaves_old {
            node.monitor.unsave();
        }
        write!(told, "  fails\n")
    }

    // Whether a client of this name is one of these, and none of the others.
    fn has_client(&self, name: &str) -> bool {
        self.clients.iter().any(|node| node.name.as_str() == name)
    }

    // What the client of this name gives; nothing where it is told to send what can't be written.
    fn client_step(
        &mut self,
        alloc: Global,
        coming: &Coming<'_>,
        event: Event<'_>,
        draw: &Draw,
    ) -> Result<Option<Effects>, AllocError> {
        if !can_come(&event) {
            return Ok(None);
        }
        let now = reading_of(coming.reading);
        for node in self.clients.iter_mut() {
            if node.name.as_str() == coming.node {
                let mut out = Effects::new(alloc);
                node.client.step(alloc, event, now, draw, &mut out)?;
                return Ok(Some(out));
            }
        }
        Ok(None)
    }

    // The entries go into the journal, and all else is printed.
    fn carries_out(
        &mut self,
        alloc: Global,
        out: &Effects,
        told: &mut String,
    ) -> Result<(), AllocError> {
        for entry in out.entries.all() {
            let entry = entry.copy(alloc)?;
            self.journal.push(alloc, entry)?;
        }
        put_effects(told, out)
    }

    fn journal_told(&self, alloc: Global) -> Result<String, AllocError> {
        let mut text = Blob::new(alloc);
        put_text(alloc, &self.journal, &mut text)?;
        format!(in alloc; "{}", Ascii(text.bytes()))
    }
}
