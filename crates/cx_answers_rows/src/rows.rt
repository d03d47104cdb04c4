//! Rows of runs, and what is told of them.

use crate::events::{Coming, number_of};
use crate::run::{Others, Run};
use std::alloc::{AllocError, Global};
use std::fmt::Write;

/// Rows: those of the run that began last, to be played again; those that are to be played behind what is cut next; and the run that is played.
#[derive(Drop)]
pub struct Rows<O: Others> {
    begun: Vec<String>,
    behind: Vec<String>,
    run: Run<O>,
}

impl<O: Others> Rows<O> {
    /// No rows yet, and with these others no other nodes.
    pub fn new(alloc: Global, others: O) -> Rows<O> {
        Rows {
            begun: Vec::new(alloc),
            behind: Vec::new(alloc),
            run: Run::new(alloc, others, true),
        }
    }

    /// What is told of a row. One that begins with `#` begins a run; `again COUNT WHAT` begins it anew and plays so many rows of it, of which
    /// nothing is told, and no log behind it.
    pub fn told(&mut self, alloc: Global, row: &str) -> Result<String, AllocError> {
        let (kind, rest) = row.split_once(' ').unwrap_or((row, ""));
        match kind {
            "#" => {
                self.begun = Vec::new(alloc);
                self.run = self.run.anew(alloc, true);
                format!(in alloc; "{row}\n")
            }
            "again" => {
                let count = rest.split(' ').next().unwrap_or("");
                self.again(alloc, number_of(count))?;
                format!(in alloc; "{row}\n")
            }
            "behind" => {
                self.behind.push(String::from_str(alloc, rest)?)?;
                Ok(String::new(alloc))
            }
            "cuts" => self.cuts(alloc, rest),
            "links" => self.links(alloc, rest),
            _ => {
                self.begun.push(String::from_str(alloc, row)?)?;
                self.run.told(alloc, row)
            }
        }
    }

    fn again(&mut self, alloc: Global, count: u32) -> Result<(), AllocError> {
        self.run = self.run.anew(alloc, false);
        let mut left = count;
        for row in self.begun.iter() {
            if left == 0 {
                break;
            }
            left -= 1;
            let _told = self.run.told(alloc, row.as_str())?;
        }
        Ok(())
    }

    // A row `COUNT COMING`, where bytes come: for each length below theirs the run anew with so many of its rows, the bytes cut to that length, a turn,
    // the end of the link, and the rows that are to be played behind. It is told with each length from which on what is told is another.
    fn cuts(&mut self, alloc: Global, row: &str) -> Result<String, AllocError> {
        let (count, row) = row.split_once(' ').unwrap_or((row, ""));
        let coming = Coming::of(row);
        let bytes = coming.bytes(alloc);
        let mut told = coming.told(alloc)?;
        let mut last = String::new(alloc);
        for length in 0..bytes.len() {
            self.again(alloc, number_of(count))?;
            let mut now = self.run.cut(alloc, &coming, &bytes[..length])?;
            self.goes_on(alloc, &mut now)?;
            if length == 0 || now.as_str() != last.as_str() {
                let length = length as u64;
                write!(told, "  cut at {length}\n{now}")?;
            }
            last = now;
        }
        self.behind = Vec::new(alloc);
        let length = bytes.len() as u64;
        write!(told, "  of {length}\n")?;
        Ok(told)
    }

    // Plays the rows that are to be played behind.
    fn goes_on(&mut self, alloc: Global, told: &mut String) -> Result<(), AllocError> {
        for row in self.behind.iter() {
            let now = self.run.told(alloc, row.as_str())?;
            write!(told, "{now}")?;
        }
        Ok(())
    }

    // A row `COUNT FEW COMING`, where a link opens: so many links open at the node, one behind the other, and each is gone as soon as so few younger ones
    // live. It is told how many lines were told, and those of the last link.
    fn links(&mut self, alloc: Global, row: &str) -> Result<String, AllocError> {
        let (count, row) = row.split_once(' ').unwrap_or((row, ""));
        let (few, row) = row.split_once(' ').unwrap_or((row, ""));
        let coming = Coming::of(row);
        let mut told = coming.told(alloc)?;
        let mut last = String::new(alloc);
        let mut lines = 0u64;
        for place in 0..number_of(count) {
            last = self.run.opens(alloc, &coming, place, number_of(few))?;
            lines = lines.saturating_add(last.lines().count() as u64);
        }
        write!(told, "  lines {lines}\n{last}")?;
        Ok(told)
    }
}
