//! Names of clients and daemons.

ghost use Rattle.std.specs.Prelude.{◌≡◌};
ghost use Rattle.std.specs.Option.{option_map};
ghost use Rattle.cx_base.specs.Names.{with_id};
ghost use Rattle.cx_enc.specs.Names.{name_seen};
ghost use Rattle.cx_command_line.specs.Words.{client_name, client_type, daemon_name};

use crate::addresses::parted;
use cx_base::{EntityType, is_id};
use cx_enc::NameRef;
use cx_words::{is_word, ticket_service};

/// The name of a client that the word spells.
pub fn client_name(word: &[u8]) -> Option<NameRef<'_>>
    ensures { option_map name_seen result ≡ client_name word.now }
{
    let (kind, id) = parted(b'.', word)?;
    with_id(id, client_type(kind))
}

/// The name of a daemon that the word spells.
pub fn daemon_name(word: &[u8]) -> Option<NameRef<'_>>
    ensures { option_map name_seen result ≡ daemon_name word.now }
{
    let (kind, id) = parted(b'.', word)?;
    with_id(id, ticket_service(kind))
}

fn client_type(word: &[u8]) -> Option<EntityType>
    ensures { result ≡ client_type word.now }
{
    if is_word(word, "client") {
        Some(EntityType::Client)
    } else {
        None
    }
}

fn with_id(id: &[u8], kind: Option<EntityType>) -> Option<NameRef<'_>>
    ensures { option_map name_seen result ≡ with_id id.now kind }
{
    let kind = kind?;
    if is_id(kind, id) {
        Some(NameRef { kind, id })
    } else {
        None
    }
}
