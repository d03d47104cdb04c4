//! The two premises of a run, and what breaks them.

ghost use Rattle.std.specs.Prelude.{◌≡◌};
ghost use Rattle.cx_journal.specs.Words.{premise_word, key_kind_word};

use cx_base::{Duplicate, NodeName};
use std::alloc::{AllocError, Global};
use std::fmt;

/// What the laws of a run rest on.
#[derive(Clone, Copy, PartialEq, Eq)]
pub enum Premise {
    /// What opens was sealed before, and what is found equal was signed before, with the same key and content.
    Sealing,
    /// No draw repeats.
    Draw,
}

impl Premise {
    fn word(self) -> &'static str
        ensures { result.now ≡ premise_word self }
    {
        match self {
            Premise::Sealing => "sealing",
            Premise::Draw => "draw",
        }
    }
}

impl fmt::Display for Premise {
    ghost use Rattle.std.specs.Prelude.{Some};
    ghost use Rattle.cx_journal.specs.Words.{premise_word};

    ghost output = { λ premise. Some (premise_word premise) };

    fn fmt<W: fmt::Write>(&self, f: &mut fmt::Formatter<W>) -> fmt::Result {
        f.write_str(self.word())
    }
}

impl fmt::Debug for Premise {
    fn fmt<W: fmt::Write>(&self, f: &mut fmt::Formatter<W>) -> fmt::Result {
        f.write_str(self.word())
    }
}

/// What a key is for under which something is sealed or signed, or what a drawn value is.
#[derive(Clone, Copy, PartialEq, Eq)]
pub enum KeyKind {
    /// An entity's own secret.
    Principal,
    /// A generation of the monitor's own service.
    Auth,
    /// A generation of a daemon's service.
    Service,
    /// The key that a ticket gives to its entity.
    Session,
    /// The key of a connection, with its nonces.
    Connection,
    /// What proves a login.
    Proof,
    /// What signs the bytes of a handshake.
    Signature,
    Challenge,
    Nonce,
    Cookie,
    /// A key that a rotation adds.
    Rotation,
}

impl KeyKind {
    fn word(self) -> &'static str
        ensures { result.now ≡ key_kind_word self }
    {
        match self {
            KeyKind::Principal => "principal",
            KeyKind::Auth => "auth",
            KeyKind::Service => "service",
            KeyKind::Session => "session",
            KeyKind::Connection => "connection",
            KeyKind::Proof => "proof",
            KeyKind::Signature => "signature",
            KeyKind::Challenge => "challenge",
            KeyKind::Nonce => "nonce",
            KeyKind::Cookie => "cookie",
            KeyKind::Rotation => "rotation",
        }
    }
}

impl fmt::Display for KeyKind {
    ghost use Rattle.std.specs.Prelude.{Some};
    ghost use Rattle.cx_journal.specs.Words.{key_kind_word};

    ghost output = { λ kind. Some (key_kind_word kind) };

    fn fmt<W: fmt::Write>(&self, f: &mut fmt::Formatter<W>) -> fmt::Result {
        f.write_str(self.word())
    }
}

impl fmt::Debug for KeyKind {
    fn fmt<W: fmt::Write>(&self, f: &mut fmt::Formatter<W>) -> fmt::Result {
        f.write_str(self.word())
    }
}

/// The first breach of a premise in a run: at which node, at something of which kind, and at which line of the schedule.
#[derive(Debug, PartialEq, Eq, Drop)]
pub struct Broken {
    pub why: Premise,
    pub node: NodeName,
    pub kind: KeyKind,
    pub line: u32,
}

impl Duplicate for Broken {
    fn copy(&self, alloc: Global) -> Result<Broken, AllocError> {
        let node = self.node.copy(alloc)?;
        Ok(Broken {
            why: self.why,
            node,
            kind: self.kind,
            line: self.line,
        })
    }
}
