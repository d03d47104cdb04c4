//! Nodes, and the data of an operation.

ghost use Rattle.std.specs.Prelude.{◌≡◌, IfOk, IfSome, string_bytes};
ghost use Rattle.cx_base.specs.Nodes.{node_text};
ghost use Rattle.cx_words.specs.lines.Values.{IsWritable};
ghost use Rattle.cx_journal.specs.Words.{data_text};
ghost use Rattle.cx_audit_text.specs.words.Readings.{data_of, node_of};

use cx_base::{Blob, NodeName};
use cx_words::{hex, is_word, name};
use std::alloc::{AllocError, Global};

/// The node that the word names: `mon`, or an entity's name.
#[tactic(auto, unfolding(crate::specs::words::Readings::node_of))]
pub fn node(alloc: Global, word: &[u8]) -> Result<Option<NodeName>, AllocError>
    ensures read { IfOk result (λ found. found ≡ node_of word.now) }
    ensures spelled { IfOk result (λ found. IfSome found (λ node. IsWritable node × (word.now ≡ node_text node))) }
{
    if is_word(word, "mon") {
        return Ok(Some(NodeName::Monitor));
    }
    let Some(name) = name(alloc, word)? else {
        return Ok(None);
    };
    Ok(Some(NodeName::Entity(name)))
}

/// The bytes, where the word is their printed form: hex in lower case, `-` for none.
#[tactic(auto, unfolding(crate::specs::words::Readings::data_of))]
pub fn data(alloc: Global, word: &[u8]) -> Result<Option<Blob>, AllocError>
    ensures read { IfOk result (λ found. found ≡ data_of word.now) }
    ensures spelled { IfOk result (λ found. IfSome found (λ bytes. word.now ≡ data_text bytes)) }
{
    let Some(bytes) = hex(alloc, word)? else {
        return Ok(None);
    };
    let text = data_text(alloc, &bytes)?;
    if is_word(word, text.as_str()) {
        Ok(Some(bytes))
    } else {
        Ok(None)
    }
}

fn data_text(alloc: Global, bytes: &Blob) -> Result<String, AllocError>
    ensures { IfOk result (λ text. string_bytes text ≡ data_text bytes.now) }
{
    if bytes.bytes().is_empty() {
        return String::from_str(alloc, "-");
    }
    hex::encode(alloc, bytes.bytes())
}
