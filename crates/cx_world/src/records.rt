//! What is entered in the journal and logged.

ghost use Rattle.std.specs.Prelude.{◌≡◌, ◌∷◌, [], ◌++◌, List, map, OnOk};
ghost use Rattle.cx_base.specs.Names.{Name};
ghost use Rattle.cx_premises.specs.Ledgers.{StandsFor};
ghost use Rattle.cx_steps.specs.declared.seals.Logged.{Logged as LogEntry};
ghost use Rattle.cx_steps.specs.declared.seals.SealEntry.{SealEntry as Seal};
ghost use Rattle.cx_world.specs.Logs.{logged_at};

use cx_base::{Items, NodeName};
use cx_journal::{Entry, Journal};
use cx_premises::Ledger;
use cx_steps::{Logged, SealEntry};
use std::alloc::{AllocError, Global};

/// The journal so far, and the ledger of the log.
#[derive(Drop)]
pub struct Record {
    pub journal: Journal,
    pub ledger: Ledger,
}

// These entries come behind those of the journal.
pub(crate) fn enter(
    alloc: Global,
    journal: &mut Journal,
    entries: Items<Entry>,
) -> Result<(), AllocError>
    ensures { OnOk result (journal.new ≡ journal.old ++ entries) }
{
    for entry in entries.into_vec() {
        journal.push(alloc, entry)?;
    }
    Ok(())
}

// A node logs these at a line.
#[tactic(auto, using(crate::proofs::Logging::logs_next))]
pub(crate) fn log(
    alloc: Global,
    ledger: &mut Ledger,
    who: &NodeName,
    line: u32,
    seals: Items<SealEntry>,
) -> Result<(), AllocError>
    ensures { (leaked : List Name) (log : List LogEntry) → StandsFor ledger.old leaked log
        → OnOk result (StandsFor ledger.new leaked (log ++ map (λ (e : Seal). logged_at who.now line e) seals)) }
{
    for seal in seals.into_vec() {
        ledger.take_over(alloc, who, line, seal)?;
    }
    Ok(())
}

// These log entries come behind those of the ledger.
pub(crate) fn log_all(
    alloc: Global,
    ledger: &mut Ledger,
    entries: &[Logged],
) -> Result<(), AllocError>
    ensures { (leaked : List Name) (log : List LogEntry) → StandsFor ledger.old leaked log → OnOk result (StandsFor ledger.new leaked (log ++ entries.now)) }
{
    for entry in entries {
        ledger.enter(alloc, entry)?;
    }
    Ok(())
}
