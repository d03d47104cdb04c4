//! The kinds of entities and of accesses.

ghost use Rattle.std.specs.Prelude.{◌≡◌, IsTrue};
ghost use Rattle.cx_base.specs.Names.{is_daemon_type, same_kind};

use std::fmt;

/// The type of an entity. Its number stands with the encodings of names.
#[derive(Clone, Copy, Debug, PartialEq, Eq)]
pub enum EntityType {
    Mon,
    Mds,
    Osd,
    Client,
    Mgr,
    Auth,
}

impl EntityType {
    /// Whether the two types are one.
    pub fn is(self, other: EntityType) -> bool
        ensures { result ≡ same_kind self other }
    {
        match (self, other) {
            (EntityType::Mon, EntityType::Mon) => true,
            (EntityType::Mds, EntityType::Mds) => true,
            (EntityType::Osd, EntityType::Osd) => true,
            (EntityType::Client, EntityType::Client) => true,
            (EntityType::Mgr, EntityType::Mgr) => true,
            (EntityType::Auth, EntityType::Auth) => true,
            _ => false,
        }
    }

    /// Whether it is a type of daemons: mds, osd or mgr.
    pub fn is_daemon(self) -> bool
        ensures { result ≡ is_daemon_type self }
    {
        match self {
            EntityType::Mds => true,
            EntityType::Osd => true,
            EntityType::Mgr => true,
            EntityType::Mon => false,
            EntityType::Client => false,
            EntityType::Auth => false,
        }
    }
}

impl fmt::Display for EntityType {
    ghost use Rattle.std.specs.Prelude.{Some};
    ghost use Rattle.cx_base.specs.Names.{type_word};

    ghost output = { λ kind. Some (type_word kind) };

    fn fmt<W: fmt::Write>(&self, f: &mut fmt::Formatter<W>) -> fmt::Result {
        match self {
            EntityType::Mon => write!(f, "mon"),
            EntityType::Mds => write!(f, "mds"),
            EntityType::Osd => write!(f, "osd"),
            EntityType::Client => write!(f, "client"),
            EntityType::Mgr => write!(f, "mgr"),
            EntityType::Auth => write!(f, "auth"),
        }
    }
}

/// What an operation asks to do. Its number stands with the bodies of messages.
#[derive(Clone, Copy, Debug, PartialEq, Eq)]
pub enum Access {
    Read,
    Write,
    Exec,
}

impl fmt::Display for Access {
    ghost use Rattle.std.specs.Prelude.{Some};
    ghost use Rattle.cx_base.specs.Names.{access_word};

    ghost output = { λ access. Some (access_word access) };

    fn fmt<W: fmt::Write>(&self, f: &mut fmt::Formatter<W>) -> fmt::Result {
        match self {
            Access::Read => write!(f, "read"),
            Access::Write => write!(f, "write"),
            Access::Exec => write!(f, "exec"),
        }
    }
}
