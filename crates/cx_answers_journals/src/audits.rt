//! Lines of journals, and what is said of them, as it is printed.

use cx_audit::{AuditRefusal, Verdict, audit};
use cx_base::Blob;
use std::alloc::{AllocError, Global};

/// The lines since the last row `audit`.
#[derive(Drop)]
pub struct Journal {
    text: Blob,
}

impl Journal {
    /// One without a line.
    pub fn new(alloc: Global) -> Journal {
        Journal {
            text: Blob::new(alloc),
        }
    }

    /// Another line.
    pub fn put(&mut self, alloc: Global, line: &str) -> Result<(), AllocError> {
        self.text.append(alloc, line.as_bytes())?;
        self.text.append(alloc, b"\n")
    }

    /// What is said of the lines, as a line; the next ones begin anew.
    pub fn audit(&mut self, alloc: Global) -> Result<String, AllocError> {
        let said = said_of(alloc, self.text.bytes())?;
        self.text = Blob::new(alloc);
        format!(in alloc; "{said}\n")
    }
}

fn said_of(alloc: Global, text: &[u8]) -> Result<String, AllocError> {
    match audit(alloc, text) {
        Ok(Verdict::Legal) => String::from_str(alloc, "legal"),
        Ok(Verdict::Breaks { line, rule }) => {
            format!(in alloc; "breaks {} {}", line, rule.number())
        }
        Err(AuditRefusal::BadLine(line, _)) => format!(in alloc; "bad {}", line),
        Err(AuditRefusal::OutOfMemory) => Err(AllocError),
    }
}
