//! Many links to daemons, one behind the other.

use cx_answers_rows::{Nobody, Rows, number_of};
use std::alloc::{AllocError, Global};
use std::fmt::Write;

// To whom something comes, with its reading and its draw.
#[derive(Clone, Copy)]
struct Caller<'a> {
    node: &'a str,
    reading: &'a str,
    draw: &'a str,
}

impl Caller<'_> {
    // What is told of something that comes.
    fn comes(
        &self,
        alloc: Global,
        rows: &mut Rows<Nobody>,
        what: &str,
    ) -> Result<String, AllocError> {
        let node = self.node;
        let reading = self.reading;
        let draw = self.draw;
        let row = format!(in alloc; "at {node} {reading} {draw} {what}")?;
        rows.told(alloc, row.as_str())
    }

    // What is told of a link that is asked for and opens.
    fn opens(
        &self,
        alloc: Global,
        rows: &mut Rows<Nobody>,
        link: u32,
        daemon: u32,
    ) -> Result<String, AllocError> {
        let connect = format!(in alloc; "submit connect osd.{daemon} False")?;
        let mut told = self.comes(alloc, rows, connect.as_str())?;
        let opened = format!(in alloc; "opened {link} osd.{daemon}")?;
        let now = self.comes(alloc, rows, opened.as_str())?;
        write!(told, "{now}")?;
        Ok(told)
    }

    // What is told of the end of a link.
    fn ends(
        &self,
        alloc: Global,
        rows: &mut Rows<Nobody>,
        link: u32,
    ) -> Result<String, AllocError> {
        let gone = format!(in alloc; "gone {link}")?;
        self.comes(alloc, rows, gone.as_str())
    }
}

/// A row `COUNT FEW FIRST NODE READING DRAW`: a client is told to connect so often, to so few daemons in turn, and each link opens, with numbers from the
/// first one on; the link that opened so few before it is gone first. It is told how many lines were told, and those of the last link.
pub fn calls(alloc: Global, rows: &mut Rows<Nobody>, row: &str) -> Result<String, AllocError> {
    let mut words = row.split(' ');
    let count = number_of(words.next().unwrap_or(""));
    let few = number_of(words.next().unwrap_or(""));
    let first = number_of(words.next().unwrap_or(""));
    let caller = Caller {
        node: words.next().unwrap_or(""),
        reading: words.next().unwrap_or(""),
        draw: words.next().unwrap_or(""),
    };
    let mut last = String::new(alloc);
    let mut lines = 0u64;
    for place in 0..count {
        let link = first.saturating_add(place);
        let daemon = place.checked_rem(few).unwrap_or(0);
        last = String::new(alloc);
        if place >= few {
            last = caller.ends(alloc, rows, link.saturating_sub(few))?;
        }
        let now = caller.opens(alloc, rows, link, daemon)?;
        write!(last, "{now}")?;
        lines = lines.saturating_add(last.lines().count() as u64);
    }
    let node = caller.node;
    format!(in alloc; "{node} calls {first}\n  lines {lines}\n{last}")
}
