//! What is said of a node that doesn't run, by its kind, its name, its script and the keyring that was loaded, where the sentence of its end doesn't say all.

ghost use Rattle.std.specs.Prelude.{◌≡◌, IfOk, Some, codes, string_bytes};
ghost use Rattle.std.specs.Option.{option_map};
ghost use Rattle.cx_base.specs.Joined.{◌<>◌};
ghost use Rattle.cx_help.specs.keyring.Sentences.{wrong_keyring_text};
ghost use Rattle.cx_help.specs.node.Sentences.{script_line_text};
ghost use Rattle.cx_help.specs.node.Told.{node_told, refusal_told, ring_end_told, ring_refusal_told, section_told, unloaded_ring_told, unloaded_told};

use crate::node_sentences::WrongScript;
use crate::{LineSight, NodeKind, WrongInKeyring, detail_of, line_at, sight_of};
use cx_base::EntityName;
use cx_keyring::KeyringRefusal;
use cx_loading::{NodeEnd, Unloaded};
use cx_schedule::ScheduleRefusal;
use std::alloc::{AllocError, Global};

/// What is said of how a node of this kind and this name ended with this script: the line that is wrong, or the section that its
/// keyring lacks. The monitor has no name.
pub fn node_told(
    alloc: Global,
    kind: NodeKind,
    name: Option<&EntityName>,
    bytes: &[u8],
    end: NodeEnd,
) -> Result<String, AllocError>
    ensures { IfOk result (λ told. string_bytes told ≡ node_told kind (option_map (λ n. n.now) name.entry) bytes.now end) }
{
    match end {
        NodeEnd::Unloaded(why) => unloaded_told(alloc, kind, name, bytes, why),
        _ => Ok(String::new(alloc)),
    }
}

fn unloaded_told(
    alloc: Global,
    kind: NodeKind,
    name: Option<&EntityName>,
    bytes: &[u8],
    why: Unloaded,
) -> Result<String, AllocError>
    ensures { IfOk result (λ told. string_bytes told ≡ unloaded_told kind (option_map (λ n. n.now) name.entry) bytes.now why) }
{
    match why {
        Unloaded::Script(refusal) => refusal_told(alloc, kind, bytes, refusal),
        Unloaded::NoEntity => section_told(alloc, name),
        _ => Ok(String::new(alloc)),
    }
}

fn refusal_told(
    alloc: Global,
    kind: NodeKind,
    bytes: &[u8],
    refusal: ScheduleRefusal,
) -> Result<String, AllocError>
    ensures { IfOk result (λ told. string_bytes told ≡ refusal_told kind bytes.now refusal) }
{
    match refusal {
        ScheduleRefusal::BadLine { line, bad } => {
            let sight = sight_of(alloc, line_at(bytes, line as u64), &bad)?;
            sight_told(alloc, kind, line, &sight)
        }
        _ => Ok(String::new(alloc)),
    }
}

fn sight_told(
    alloc: Global,
    kind: NodeKind,
    line: u32,
    sight: &LineSight,
) -> Result<String, AllocError>
    ensures { IfOk result (λ told. string_bytes told ≡ codes "cephx_cli: " <> script_line_text (Some kind) line sight.now <> codes "\n") }
{
    format!(in alloc; "cephx_cli: {}\n", WrongScript(Some(kind), line, sight))
}

fn section_told(alloc: Global, name: Option<&EntityName>) -> Result<String, AllocError>
    ensures { IfOk result (λ told. string_bytes told ≡ section_told (option_map (λ n. n.now) name.entry)) }
{
    match name {
        Some(name) => format!(in alloc;
            "cephx_cli: the keyring has no section [{}]; add one, or run a node whose section it has\n",
            name
        ),
        None => Ok(String::new(alloc)),
    }
}

/// What is said of how a node ended that loaded this keyring: the line of it that is wrong, with what stands there.
pub fn ring_end_told(alloc: Global, bytes: &[u8], end: NodeEnd) -> Result<String, AllocError>
    ensures { IfOk result (λ told. string_bytes told ≡ ring_end_told bytes.now end) }
{
    match end {
        NodeEnd::Unloaded(why) => unloaded_ring_told(alloc, bytes, why),
        _ => Ok(String::new(alloc)),
    }
}

fn unloaded_ring_told(alloc: Global, bytes: &[u8], why: Unloaded) -> Result<String, AllocError>
    ensures { IfOk result (λ told. string_bytes told ≡ unloaded_ring_told bytes.now why) }
{
    match why {
        Unloaded::Keyring(refusal) => ring_refusal_told(alloc, bytes, refusal),
        _ => Ok(String::new(alloc)),
    }
}

fn ring_refusal_told(
    alloc: Global,
    bytes: &[u8],
    refusal: KeyringRefusal,
) -> Result<String, AllocError>
    ensures { IfOk result (λ told. string_bytes told ≡ ring_refusal_told bytes.now refusal) }
{
    match refusal {
        KeyringRefusal::BadLine { line, why } => {
            let detail = detail_of(alloc, bytes, line, why)?;
            wrong_ring_told(alloc, WrongInKeyring { line, why, detail })
        }
        _ => Ok(String::new(alloc)),
    }
}

fn wrong_ring_told(alloc: Global, wrong: WrongInKeyring) -> Result<String, AllocError>
    ensures { IfOk result (λ told. string_bytes told ≡ codes "cephx_cli: " <> wrong_keyring_text wrong <> codes "\n") }
{
    format!(in alloc; "cephx_cli: {}\n", wrong)
}
