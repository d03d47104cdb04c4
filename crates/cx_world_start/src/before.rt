//! What stands in journal and log before all events.

ghost use Rattle.std.specs.Prelude.{◌≡◌, IfOk, map};
ghost use Rattle.cx_run.specs.Opening.{leaked_of, leaks_entered, secret_drawn, secrets_drawn};

use crate::declared::Declared;
use crate::setup::Setup;
use cx_base::{Duplicate, EntityName, Items, NodeName};
use cx_journal::{Entry, Journal};
use cx_steps::{DrawMark, Logged, SealEntry};
use std::alloc::{AllocError, Global};

impl Setup {
    /// The secret of each entity, which counts as drawn at its line.
    pub fn secrets_drawn(&self, alloc: Global) -> Result<Items<Logged>, AllocError>
        ensures { IfOk result (λ log. log ≡ secrets_drawn self.now) }
    {
        let mut log = Items::new(alloc);
        for entity in self.entities() {
            let drawn = secret_drawn(alloc, entity)?;
            log.push(alloc, drawn)?;
        }
        Ok(log)
    }

    /// The journal with the leaked clients, with which a run's journal begins.
    pub fn leaks_entered(&self, alloc: Global) -> Result<Journal, AllocError>
        ensures { IfOk result (λ journal. journal ≡ map (λ e. e.entry) (leaks_entered self.now)) }
    {
        let mut journal = Journal::new(alloc);
        for leak in self.leaks.all() {
            let client = leak.client.copy(alloc)?;
            journal.push(alloc, Entry::Leaked(client))?;
        }
        Ok(journal)
    }

    /// The leaked clients.
    pub fn leaked(&self, alloc: Global) -> Result<Items<EntityName>, AllocError>
        ensures { IfOk result (λ names. names ≡ leaked_of self.now) }
    {
        let mut names = Items::new(alloc);
        for leak in self.leaks.all() {
            let client = leak.client.copy(alloc)?;
            names.push(alloc, client)?;
        }
        Ok(names)
    }
}

fn secret_drawn(alloc: Global, entity: &Declared) -> Result<Logged, AllocError>
    ensures { IfOk result (λ drawn. drawn ≡ secret_drawn entity.now) }
{
    let name = entity.name.copy(alloc)?;
    let for_whom = entity.name.copy(alloc)?;
    Ok(Logged {
        node: NodeName::Entity(name),
        line: entity.line,
        entry: SealEntry::Drawn(DrawMark::Principal {
            secret: entity.secret(alloc),
            for_whom,
        }),
    })
}
