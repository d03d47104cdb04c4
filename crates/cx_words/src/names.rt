//! Lists of names in which one is found without going through them.

ghost use Rattle.std.specs.Prelude.{◌≡◌, [], ◌∷◌, ◌++◌, IfOk, IsTrue, OnOk, OnErr, string_bytes};
ghost use Rattle.std.specs.BTreeSet.{IsUnchanged};
ghost use Rattle.cx_base.specs.Names.{name_text};
ghost use Rattle.cx_words.specs.lines.Named.{is_among, is_name, Notes};

use cx_base::{Duplicate, EntityName, Items};
use std::alloc::{AllocError, Global};
use std::collections::BTreeSet;
use std::marker::Model;

/// Names in the order in which they came, with their texts, so that one is found without going through them.
#[derive(Drop)]
pub struct Names {
    listed: Items<EntityName>,
    texts: BTreeSet<String>,
}

impl Model for Names {
    ghost use Rattle.std.specs.Prelude.{List};
    ghost use Rattle.cx_base.specs.Names.{Name};
    ghost use Rattle.cx_words.specs.lines.Named.{HasTexts};

    ghost Value = { List Name };

    ghost view = { λ n. n.listed };

    ghost invariant = { λ n. HasTexts n.listed n.texts };
}

impl Names {
    /// No names.
    pub fn new(alloc: Global) -> Names
        ensures { result ≡ [] }
    {
        Names {
            listed: Items::new(alloc),
            texts: BTreeSet::new(alloc),
        }
    }

    /// Puts the name behind the others.
    pub fn add(&mut self, alloc: Global, name: &EntityName) -> Result<(), AllocError>
        ensures { OnOk result (self.new ≡ self.old ++ name.now ∷ []) }
    {
        let text = text_of(alloc, name)?;
        let copied = name.copy(alloc)?;
        let before = self.listed.all().len();
        self.listed.push(alloc, copied)?;
        if let Err(error) = note(&mut self.texts, text) {
            self.listed.truncate(before);
            return Err(error);
        }
        Ok(())
    }

    /// Whether the name is one of them.
    pub fn has(&self, alloc: Global, name: &EntityName) -> Result<bool, AllocError>
        ensures { IfOk result (λ has. has ≡ is_among self.now name.now) }
    {
        let text = text_of(alloc, name)?;
        Ok(self.texts.contains(text.as_str()))
    }
}

/// Puts the text among the others.
fn note(texts: &mut BTreeSet<String>, text: String) -> Result<(), AllocError>
    ensures ok { OnOk result (Notes texts.old texts.new (string_bytes text)) }
    ensures err { OnErr result (IsUnchanged texts.old texts.new) }
{
    texts.insert(text)?;
    Ok(())
}

/// The text of the name, as `osd.0`.
fn text_of(alloc: Global, name: &EntityName) -> Result<String, AllocError>
    ensures text { IfOk result (λ text. string_bytes text ≡ name_text name.now) }
    ensures good { IfOk result (λ _. IsTrue (is_name name.now)) }
{
    format!(in alloc; "{}.{}", name.kind, name.id)
}
