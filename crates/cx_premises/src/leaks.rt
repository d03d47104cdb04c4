//! The clients whose secrets leaked.

ghost use Rattle.std.specs.Prelude.{◌≡◌, IfOk};
ghost use Rattle.cx_words.specs.lines.Named.{is_among};

use cx_base::EntityName;
use cx_words::Names;
use std::alloc::{AllocError, Global};
use std::marker::Model;

/// The clients whose secrets leaked, mostly none: then none is looked for by the text of its name.
#[derive(Drop)]
pub struct Leaks {
    names: Option<Names>,
}

impl Model for Leaks {
    ghost use Rattle.std.specs.Prelude.{List};
    ghost use Rattle.cx_base.specs.Names.{Name};
    ghost use Rattle.cx_premises.specs.Leaks.{leaked_in};

    ghost Value = { List Name };

    ghost view = { λ l. leaked_in l.names };
}

impl Leaks {
    /// These clients.
    pub fn of(alloc: Global, leaked: &[EntityName]) -> Result<Leaks, AllocError>
        ensures { IfOk result (λ leaks. leaks ≡ leaked.now) }
    {
        if leaked.is_empty() {
            return Ok(Leaks { names: None });
        }
        let names = named(alloc, leaked)?;
        Ok(Leaks { names: Some(names) })
    }

    /// Whether the client is one of them.
    pub fn has(&self, alloc: Global, client: &EntityName) -> Result<bool, AllocError>
        ensures { IfOk result (λ has. has ≡ is_among self.now client.now) }
    {
        match &self.names {
            None => Ok(false),
            Some(names) => names.has(alloc, client),
        }
    }
}

fn named(alloc: Global, leaked: &[EntityName]) -> Result<Names, AllocError>
    ensures { IfOk result (λ names. names ≡ leaked.now) }
{
    let mut names = Names::new(alloc);
    for name in leaked {
        names.add(alloc, name)?;
    }
    Ok(names)
}
