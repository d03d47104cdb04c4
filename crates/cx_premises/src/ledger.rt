//! The ledger of a log, which takes it entry by entry.

ghost use Rattle.std.specs.Prelude.{◌≡◌, List, [], ◌∷◌, ◌++◌, IfOk, OnOk, OnErr};
ghost use Rattle.std.specs.Option.{option_copied};
ghost use Rattle.cx_base.specs.Names.{Name};
ghost use Rattle.cx_premises.specs.Facts.{draw_fact, sealed_fact, signed_fact};
ghost use Rattle.cx_premises.specs.Ledgers.{Enters, Finds, StandsFor, Takes, breach_there, findings_owed, findings_repeated};
ghost use Rattle.cx_steps.specs.Breach.{IsFound, drawn_kind};
ghost use Rattle.cx_steps.specs.Premises.{is_server};
ghost use Rattle.cx_steps.specs.declared.seals.Logged.{Logged as Entry};

use crate::facts::Fact;
use crate::findings::{Findings, Suspect};
use crate::kept::Kept;
use crate::leaks::Leaks;
use cx_base::{Duplicate, EntityName, NodeName};
use cx_journal::{Broken, KeyKind, Premise};
use cx_steps::{DrawMark, Logged, SealEntry};
use std::alloc::{AllocError, Global};

/// Where an entry of a log stands, and of which kind the key in it is: the node that logs it, and the line.
#[derive(Clone, Copy)]
struct Stand<'a> {
    node: &'a NodeName,
    line: u32,
    kind: KeyKind,
}

/// What has to be known of a log so as to go on with it and to name its first breach: the log itself isn't kept.
#[derive(Drop)]
pub struct Ledger {
    leaked: Leaks,
    kept: Kept,
    findings: Findings,
}

impl Ledger {
    /// The ledger of an empty log, where these clients leaked.
    pub fn new(alloc: Global, leaked: &[EntityName]) -> Result<Ledger, AllocError>
        ensures { IfOk result (λ ledger. StandsFor ledger leaked.now []) }
    {
        let leaked = Leaks::of(alloc, leaked)?;
        let kept = Kept::new(alloc)?;
        Ok(Ledger {
            leaked,
            kept,
            findings: Findings::new(alloc),
        })
    }

    /// The next entry of the log. Where memory is wanting, the ledger stands for the log as before.
    pub fn enter(&mut self, alloc: Global, at: &Logged) -> Result<(), AllocError>
        ensures ok { (leaked : List Name) (log : List Entry) → StandsFor self.old leaked log → OnOk result (StandsFor self.new leaked (log ++ at.now ∷ [])) }
        ensures err { (leaked : List Name) (log : List Entry) → StandsFor self.old leaked log → OnErr result (StandsFor self.new leaked log) }
    {
        self.enter_at(alloc, &at.node, at.line, &at.entry)
    }

    /// The next entry of the log, which a node logs at a line. Where memory is wanting, the ledger stands for the log as before.
    pub fn enter_at(
        &mut self,
        alloc: Global,
        node: &NodeName,
        line: u32,
        entry: &SealEntry,
    ) -> Result<(), AllocError>
        ensures ok { (leaked : List Name) (log : List Entry) → StandsFor self.old leaked log
            → OnOk result (StandsFor self.new leaked (log ++ record { node = node.now; line = line; entry = entry.now } ∷ [])) }
        ensures err { (leaked : List Name) (log : List Entry) → StandsFor self.old leaked log → OnErr result (StandsFor self.new leaked log) }
    {
        let copied = entry.copy(alloc)?;
        self.take_over(alloc, node, line, copied)
    }

    /// The same of an entry that is given up to the ledger, which takes its content over.
    pub fn take_over(
        &mut self,
        alloc: Global,
        node: &NodeName,
        line: u32,
        entry: SealEntry,
    ) -> Result<(), AllocError>
        ensures ok { (leaked : List Name) (log : List Entry) → StandsFor self.old leaked log
            → OnOk result (StandsFor self.new leaked (log ++ record { node = node.now; line = line; entry = entry } ∷ [])) }
        ensures err { (leaked : List Name) (log : List Entry) → StandsFor self.old leaked log → OnErr result (StandsFor self.new leaked log) }
    {
        self.take(alloc, node, line, entry)
    }

    fn take(
        &mut self,
        alloc: Global,
        node: &NodeName,
        line: u32,
        entry: SealEntry,
    ) -> Result<(), AllocError>
        ensures ok { OnOk result (Enters self.old self.new (record { node = node.now; line = line; entry = entry })) }
        ensures err { OnErr result (Finds self.old self.new self.old.findings) }
    {
        match entry {
            SealEntry::Sealed(mark) => {
                self.kept.put(Fact::sealed(mark))?;
                Ok(())
            }
            SealEntry::Signed(mark) => {
                self.kept.put(Fact::signed(mark))?;
                Ok(())
            }
            SealEntry::Opened(mark) => {
                let (key, kind) = (mark.key, mark.kind);
                let due = Fact::sealed(mark);
                self.demand(alloc, Stand { node, line, kind }, key, &due)
            }
            SealEntry::Checked(mark) => {
                let (key, kind) = (mark.key, mark.kind);
                let due = Fact::signed(mark);
                self.demand(alloc, Stand { node, line, kind }, key, &due)
            }
            SealEntry::Drawn(mark) => {
                let kind = drawn_kind(&mark);
                let fact = Fact::drawn(alloc, &self.leaked, &mark)?;
                self.draw(alloc, Stand { node, line, kind }, fact)
            }
        }
    }

    // Something opened or was found equal under this key, for which this fact is due.
    fn demand(
        &mut self,
        alloc: Global,
        at: Stand<'_>,
        key: [u8; 16],
        due: &Fact,
    ) -> Result<(), AllocError>
        ensures ok { OnOk result (Finds self.old self.new (findings_owed self.old at.entry key due.now)) }
        ensures err { OnErr result (Finds self.old self.new self.old.findings) }
    {
        if self.kept.has(due) {
            return Ok(());
        }
        let broken = breach_at(alloc, at, Premise::Sealing)?;
        if !is_server(at.node) {
            self.findings.close(broken);
            return Ok(());
        }
        if self.kept.has(&Fact::LeakedKey(key)) {
            return Ok(());
        }
        self.findings.suspect(alloc, Suspect { key, broken })
    }

    // Something was drawn, which leaves this fact.
    #[tactic(auto, using(crate::proofs::Twins::repeated_by))]
    fn draw(&mut self, alloc: Global, at: Stand<'_>, fact: Fact) -> Result<(), AllocError>
        ensures ok { OnOk result (Takes self.old self.new fact (findings_repeated self.old at.entry fact)) }
        ensures err { OnErr result (Finds self.old self.new self.old.findings) }
    {
        if self.kept.has_twin(&fact) {
            let broken = breach_at(alloc, at, Premise::Draw)?;
            self.kept.put(fact)?;
            self.findings.close(broken);
            return Ok(());
        }
        if self.kept.put(fact)? {
            return Ok(());
        }
        // It was there before, so that nothing changed so far.
        let broken = breach_at(alloc, at, Premise::Draw)?;
        self.findings.close(broken);
        Ok(())
    }

    /// The first breach of the log, if there is one.
    pub fn first_breach(&self) -> Option<&Broken>
        ensures { (leaked : List Name) (log : List Entry) → StandsFor self.now leaked log → IsFound leaked log (option_copied result) }
    {
        self.findings.first(&self.kept)
    }
}

fn breach_at(alloc: Global, at: Stand<'_>, why: Premise) -> Result<Broken, AllocError>
    ensures { IfOk result (λ broken. broken ≡ breach_there at.entry why) }
{
    let node = at.node.copy(alloc)?;
    Ok(Broken {
        why,
        node,
        kind: at.kind,
        line: at.line,
    })
}

fn drawn_kind(mark: &DrawMark) -> KeyKind
    ensures { result ≡ drawn_kind mark.now }
{
    match mark {
        DrawMark::Principal { .. } => KeyKind::Principal,
        DrawMark::Connection { .. } => KeyKind::Connection,
        DrawMark::Session { .. } => KeyKind::Session,
        DrawMark::Rotation(_) => KeyKind::Rotation,
        DrawMark::Challenge(_) => KeyKind::Challenge,
        DrawMark::Nonce(_) => KeyKind::Nonce,
        DrawMark::Cookie(_) => KeyKind::Cookie,
    }
}

// Whether the node is the monitor or a daemon.
fn is_server(node: &NodeName) -> bool
    ensures { result ≡ is_server node.now }
{
    match node {
        NodeName::Monitor => true,
        NodeName::Entity(name) => name.kind.is_daemon(),
    }
}
