//! Leaked clients.

use cx_base::EntityName;
use std::marker::Model;

/// A client that is leaked, and the line that says so.
#[derive(Drop)]
pub struct Leak {
    pub line: u32,
    pub client: EntityName,
}

impl Model for Leak {
    ghost use Rattle.cx_run.specs.Opening as run;

    ghost Value = { run.Leak };

    ghost view = { λ l. record { line = l.line; client = l.client } };
}
