//! Names of entities.

ghost use Rattle.std.specs.Prelude.{◌≡◌, false, true, None, IfOk, OnErr, IsTrue};
ghost use Rattle.std.specs.List.{list_all, position};
ghost use Rattle.cx_base.specs.Names.{is_id, is_id_byte, same_name, name_text};
ghost use Rattle.cx_base.specs.Owners.{is_above_ascii};

use crate::copies::Duplicate;
use crate::kinds::EntityType;
use crate::owned::Text;
use std::alloc::{AllocError, Global};
use std::fmt;
use std::marker::Model;
use thiserror::Error;

/// The name of an entity, as `osd.0` or `client.admin`. Its id has 1 to 64 bytes among letters, digits and `_ - . : + /`;
/// a monitor's may be empty.
#[derive(Debug, PartialEq, Eq, Drop)]
pub struct EntityName {
    pub kind: EntityType,
    pub id: Text,
}

impl Model for EntityName {
    ghost use Rattle.std.specs.Prelude.{IsTrue};
    ghost use Rattle.cx_base.specs.Names.{Name, is_id};

    ghost Value = { Name };

    ghost view = { λ a. record { kind = a.kind; id = a.id } };

    ghost invariant = { λ a. IsTrue (is_id a.kind a.id) };

    ghost inverse = { λ n. record { kind = n.kind; id = n.id } };
}

/// The id is none of an entity name's.
#[derive(Clone, Copy, Debug, PartialEq, Eq, Error)]
#[error("this is no id of an entity name")]
pub struct BadName;

impl EntityName {
    /// The name of this type and id. A refused id is given up.
    pub fn new(kind: EntityType, id: Text) -> Result<EntityName, BadName>
        ensures ok { IfOk result (λ name. (name.kind ≡ kind) × (name.id ≡ id) × IsTrue (is_id kind id)) }
        ensures err { OnErr result (is_id kind id ≡ false) }
    {
        if !is_id(kind, id.bytes()) {
            return Err(BadName);
        }
        Ok(EntityName { kind, id })
    }
}

/// Whether these bytes are an id of an entity of this type.
pub fn is_id(kind: EntityType, id: &[u8]) -> bool
    ensures value { result ≡ is_id kind id.now }
    ensures ascii { result ≡ true → position is_above_ascii id.now ≡ None }
{
    (kind.is(EntityType::Mon) || !id.is_empty()) && id.len() <= 64 && are_id_bytes(id)
}

#[tactic(auto, using(crate::proofs::AsciiTexts::ascii_id_bytes))]
fn are_id_bytes(id: &[u8]) -> bool
    ensures value { result ≡ list_all is_id_byte id.now }
    ensures ascii { result ≡ true → position is_above_ascii id.now ≡ None }
{
    all_id_bytes(id)
}

fn all_id_bytes(id: &[u8]) -> bool
    ensures { result ≡ list_all is_id_byte id.now }
{
    id.iter().all(|b| is_id_byte(*b))
}

fn is_id_byte(b: u8) -> bool
    ensures { result ≡ is_id_byte b }
{
    (97 <= b && b <= 122)
        || (65 <= b && b <= 90)
        || (48 <= b && b <= 57)
        || b == b'_'
        || b == b'-'
        || b == b'.'
        || b == b':'
        || b == b'+'
        || b == b'/'
}

impl fmt::Display for EntityName {
    ghost use Rattle.std.specs.Prelude.{Some};
    ghost use Rattle.cx_base.specs.Names.{name_text};

    ghost output = { λ name. Some (name_text name) };

    fn fmt<W: fmt::Write>(&self, f: &mut fmt::Formatter<W>) -> fmt::Result {
        write!(f, "{}.{}", self.kind, self.id)
    }
}

impl Duplicate for EntityName {
    fn copy(&self, alloc: Global) -> Result<EntityName, AllocError> {
        let id = self.id.copy(alloc)?;
        Ok(EntityName {
            kind: self.kind,
            id,
        })
    }
}
