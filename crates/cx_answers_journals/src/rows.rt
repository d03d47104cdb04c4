//! Rows of logs, and what is told of them.

use crate::audits::Journal;
use crate::entries::entry_of;
use cx_base::Items;
use cx_premises::Ledger;
use cx_words::name;
use std::alloc::{AllocError, Global};

/// The ledger of the log that was begun last, and the lines of a journal so far.
#[derive(Drop)]
pub struct Rows {
    ledger: Ledger,
    journal: Journal,
}

impl Rows {
    /// An empty log, in which no client leaked, and no line of a journal.
    pub fn new(alloc: Global) -> Result<Rows, AllocError> {
        let ledger = Ledger::new(alloc, &[])?;
        let journal = Journal::new(alloc);
        Ok(Rows { ledger, journal })
    }

    /// What is told of a row: one that begins with `#` as it is, and nothing of an entry, a line or an empty one.
    pub fn told(&mut self, alloc: Global, row: &str) -> Result<String, AllocError> {
        if row.is_empty() {
            return Ok(String::new(alloc));
        }
        if row.starts_with('#') {
            return format!(in alloc; "{row}\n");
        }
        if let Some(line) = row.strip_prefix(">") {
            self.journal.put(alloc, line)?;
            return Ok(String::new(alloc));
        }
        let (first, rest) = row.split_once(' ').unwrap_or((row, ""));
        match first {
            "audit" => self.journal.audit(alloc),
            "log" => self.begin(alloc, rest),
            "told" => self.found(alloc),
            "many" => self.enter_many(alloc, rest),
            _ => self.enter(alloc, first, rest),
        }
    }

    fn begin(&mut self, alloc: Global, clients: &str) -> Result<String, AllocError> {
        let mut leaked = Items::new(alloc);
        for word in clients.split_ascii_whitespace() {
            let Some(client) = name(alloc, word.as_bytes())? else {
                return format!(in alloc; "no such client\n");
            };
            leaked.push(alloc, client)?;
        }
        self.ledger = Ledger::new(alloc, leaked.all())?;
        Ok(String::new(alloc))
    }

    fn enter(&mut self, alloc: Global, node: &str, rest: &str) -> Result<String, AllocError> {
        let Some(at) = entry_of(alloc, node, rest)? else {
            return format!(in alloc; "no entry: {node} {rest}\n");
        };
        self.ledger.enter(alloc, &at)?;
        Ok(String::new(alloc))
    }

    // So many entries of one kind and key, whose contents are the numbers from 0 on, eight digits each.
    fn enter_many(&mut self, alloc: Global, rest: &str) -> Result<String, AllocError> {
        let (count, rest) = rest.split_once(' ').unwrap_or((rest, ""));
        let (node, parts) = rest.split_once(' ').unwrap_or((rest, ""));
        for number in 0..count.parse::<u32>().unwrap_or(0) {
            let entry = format!(in alloc; "{parts} {number:08}")?;
            let told = self.enter(alloc, node, &entry)?;
            if !told.is_empty() {
                return Ok(told);
            }
        }
        Ok(String::new(alloc))
    }

    fn found(&self, alloc: Global) -> Result<String, AllocError> {
        match self.ledger.first_breach() {
            None => format!(in alloc; "sound and fresh\n"),
            Some(b) => { format!(in alloc; "broken {} {} {} {}\n", b.why, b.node, b.kind, b.line) }
        }
    }
}
