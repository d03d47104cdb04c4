//! Printing a keyring.

ghost use Rattle.std.specs.Prelude.{◌≡◌, ◌++◌, IfOk, IsTrue, OnOk, string_bytes};
ghost use Rattle.std.specs.List.{flat_map, list_all, AllByRecursion};
ghost use Rattle.base64.specs.Engines.{standard};
ghost use Rattle.base64.specs.GeneralPurpose.{decode_of, encode_of};
ghost use Rattle.cx_keyring.specs.Keys.{is_ink, key_text, HasText};
ghost use Rattle.cx_keyring.specs.Rings.{IsPrintable, KeyringText, printed_entry, printed_grant, printed_head, printed_keyring};

use crate::entries::Entry;
use crate::keyring::Keyring;
use base64::engine::general_purpose::STANDARD;
use cx_base::{Blob, Grant};
use cx_enc::{Key, write_whole};
use std::alloc::{AllocError, Global};

/// The printed form of the keyring: for each entry a line `[NAME]`, a line `key = TEXT` and a line `caps SERVICE = "TEXT"` for
/// each of its caps in their order, the latter two behind a tab.
#[tactic(auto, using(crate::proofs::Printed::printed_again))]
pub fn print(alloc: Global, ring: &Keyring) -> Result<Blob, AllocError>
    ensures text { IfOk result (λ bytes. bytes ≡ printed_keyring ring.now) }
    // The printed form is a keyring of these entries, so that `parse` reads this one in it, where it isn't too long.
    ensures again { IfOk result (λ bytes. KeyringText bytes ring.now) }
{
    let text = printed(alloc, ring.entries())?;
    Ok(text)
}

fn printed(alloc: Global, entries: &[Entry]) -> Result<Blob, AllocError>
    ensures text { IfOk result (λ bytes. bytes ≡ printed_keyring entries.now) }
    ensures good { IfOk result (λ _. AllByRecursion IsPrintable entries.now) }
{
    let mut text = Blob::new(alloc);
    for entry in entries {
        append_entry(alloc, &mut text, entry)?;
    }
    Ok(text)
}

fn append_entry(alloc: Global, into: &mut Blob, entry: &Entry) -> Result<(), AllocError>
    ensures text { OnOk result (into.new ≡ into.old ++ printed_entry entry.now) }
    ensures good { OnOk result (IsPrintable entry.now) }
{
    let head = head(alloc, entry)?;
    into.append(alloc, head.as_bytes())?;
    append_grants(alloc, into, entry.caps.all())
}

fn append_grants(alloc: Global, into: &mut Blob, grants: &[Grant]) -> Result<(), AllocError>
    ensures { OnOk result (into.new ≡ into.old ++ flat_map printed_grant grants.now) }
{
    for grant in grants {
        let line = grant_line(alloc, grant)?;
        into.append(alloc, line.as_bytes())?;
    }
    Ok(())
}

fn head(alloc: Global, entry: &Entry) -> Result<String, AllocError>
    ensures text { IfOk result (λ text. string_bytes text ≡ printed_head entry.now) }
    ensures good { IfOk result (λ _. IsPrintable entry.now) }
{
    let name = &entry.name;
    let key = key_text(alloc, &entry.key)?;
    format!(in alloc; "[{}.{}]\n\tkey = {}\n", name.kind, name.id, key)
}

/// The key in base64.
fn key_text(alloc: Global, key: &Key) -> Result<String, AllocError>
    ensures text { IfOk result (λ text. string_bytes text ≡ key_text key.now) }
    ensures keyed { IfOk result (λ _. HasText key.now) }
{
    let bytes = write_whole(alloc, key)?;
    let text = encoded(alloc, bytes.bytes())?;
    Ok(text)
}

/// The bytes in base64.
fn encoded(alloc: Global, bytes: &[u8]) -> Result<String, AllocError>
    ensures text { IfOk result (λ text. string_bytes text ≡ encode_of standard bytes.now) }
    ensures again { IfOk result (λ text. decode_of standard (string_bytes text) ≡ Ok bytes.now) }
    ensures inked { IfOk result (λ text. IsTrue (list_all is_ink (string_bytes text))) }
{
    let text = STANDARD.encode(alloc, bytes)?;
    Ok(text)
}

fn grant_line(alloc: Global, grant: &Grant) -> Result<String, AllocError>
    ensures { IfOk result (λ line. string_bytes line ≡ printed_grant grant.now) }
{
    format!(in alloc; "\tcaps {} = \"{}\"\n", grant.service, grant.caps)
}
