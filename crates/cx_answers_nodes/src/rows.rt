//! Rows of runs, and what is told of them.

use crate::driven::{Outside, drives};
use cx_answers_rows::{Named, client_of, monitor_of, seed_of};
use cx_base::{Blob, SECOND};
use cx_client::Client;
use cx_drive::{Order, Told};
use cx_mon::Monitor;
use cx_outside::LinkEvent;
use cx_steps::Command;
use std::alloc::{AllocError, Global};

/// The rows of a run so far: the lines of its keyring, its node, and what lies outside of that.
#[derive(Drop)]
pub struct Rows {
    ring: Blob,
    monitor: Option<Monitor>,
    client: Option<Client>,
    outside: Outside,
}

impl Rows {
    pub fn new(alloc: Global) -> Rows {
        Rows {
            ring: Blob::new(alloc),
            monitor: None,
            client: None,
            outside: Outside::new(alloc),
        }
    }

    /// What is told of a row. One that begins with `#` begins a run.
    pub fn told(&mut self, alloc: Global, row: &str) -> Result<String, AllocError> {
        let (kind, rest) = row.split_once(' ').unwrap_or((row, ""));
        match kind {
            "#" => {
                *self = Rows::new(alloc);
                return format!(in alloc; "{row}\n");
            }
            "drive" => return self.drive(alloc, number_of(rest)),
            "ring" => self.ring_line(alloc, rest)?,
            "monitor" => self.monitor(alloc, rest)?,
            "client" => self.client(alloc, rest)?,
            "at" => self.reads(alloc, rest)?,
            "fails" => self.fails(alloc, rest)?,
            "order" => self.order(alloc, rest)?,
            _ => self.comes(alloc, kind, rest)?,
        }
        Ok(String::new(alloc))
    }

    fn ring_line(&mut self, alloc: Global, line: &str) -> Result<(), AllocError> {
        self.ring.append(alloc, line.as_bytes())?;
        self.ring.append(alloc, b"\n")
    }

    fn monitor(&mut self, alloc: Global, row: &str) -> Result<(), AllocError> {
        self.outside.seed = seed_of(row.split(' ').next().unwrap_or(""));
        self.monitor = Some(monitor_of(alloc, self.ring.bytes(), row)?);
        Ok(())
    }

    fn client(&mut self, alloc: Global, row: &str) -> Result<(), AllocError> {
        let named = Named::of(row);
        self.outside.seed = named.seed();
        self.client = client_of(alloc, self.ring.bytes(), &named)?;
        Ok(())
    }

    // The clock reads this next, so many times.
    fn reads(&mut self, alloc: Global, row: &str) -> Result<(), AllocError> {
        let (seconds, count) = row.split_once(' ').unwrap_or((row, "1"));
        let reading = number_of(seconds).saturating_mul(SECOND);
        for _ in 0..number_of(count) {
            self.outside.readings.push(alloc, reading)?;
        }
        Ok(())
    }

    // A call fails, of the links, the dice or the keeper, by its number.
    fn fails(&mut self, alloc: Global, row: &str) -> Result<(), AllocError> {
        let (what, number) = row.split_once(' ').unwrap_or((row, ""));
        let number = [number.parse::<u8>().unwrap_or(0)];
        match what {
            "links" => self.outside.failing_links.append(alloc, &number),
            "dice" => self.outside.failing_dice.append(alloc, &number),
            "new" => {
                self.outside.leaves_new = true;
                self.outside.failing_saves.append(alloc, &number)
            }
            _ => self.outside.failing_saves.append(alloc, &number),
        }
    }

    fn order(&mut self, alloc: Global, row: &str) -> Result<(), AllocError> {
        let (what, number) = row.split_once(' ').unwrap_or((row, ""));
        let order = match what {
            "login" => login(number.parse::<u32>().unwrap_or(0)),
            "gone" => Order::Gone(number_of(number)),
            _ => Order::Stop,
        };
        self.outside.orders.push(alloc, order)
    }

    // Something comes on the links.
    fn comes(&mut self, alloc: Global, kind: &str, rest: &str) -> Result<(), AllocError> {
        let (word, bytes) = rest.split_once(' ').unwrap_or((rest, ""));
        let link = word.parse::<u32>().unwrap_or(0);
        let event = match kind {
            "opened" => LinkEvent::Opened(link),
            "bytes" => LinkEvent::Bytes(link, self.bytes(alloc, bytes)?),
            "gone" => LinkEvent::Gone(link),
            _ => LinkEvent::Quiet,
        };
        self.outside.events.push(alloc, event)
    }

    // Bytes are to come, and how many they are.
    fn bytes(&mut self, alloc: Global, word: &str) -> Result<usize, AllocError> {
        let Ok(bytes) = hex::decode(alloc, word) else {
            return Ok(0);
        };
        self.outside.bytes.append(alloc, &bytes)?;
        Ok(bytes.len())
    }

    // The node is driven for so many events.
    fn drive(&mut self, alloc: Global, events: u64) -> Result<String, AllocError> {
        let outside = std::mem::replace(&mut self.outside, Outside::new(alloc));
        if let Some(monitor) = &mut self.monitor {
            return drives(alloc, monitor, outside, events);
        }
        match &mut self.client {
            Some(client) => drives(alloc, client, outside, events),
            None => format!(in alloc; "no node\n"),
        }
    }
}

// The node is told to log in.
fn login(services: u32) -> Order {
    match Told::of(Command::Login(services)) {
        Some(told) => Order::Submit(told),
        None => Order::Stop,
    }
}

// A number; 0 where the word is none.
fn number_of(word: &str) -> u64 {
    word.parse::<u64>().unwrap_or(0)
}
