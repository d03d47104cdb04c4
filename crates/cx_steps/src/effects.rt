//! What a node does at an event.

ghost use Rattle.std.specs.Prelude.{◌≡◌, IfOk};
ghost use Rattle.cx_steps.specs.Nothing.{nothing};

use crate::events::Peer;
use crate::seals::SealEntry;
use cx_base::{Blob, Duplicate, Items, copy_items};
use cx_journal::{BoxedState, Entry};
use std::alloc::{AllocError, Global};

/// All bytes that one step sends on one link.
#[derive(Debug, PartialEq, Eq, Drop)]
pub struct Piece {
    pub link: u32,
    pub bytes: Blob,
}

impl Duplicate for Piece {
    fn copy(&self, alloc: Global) -> Result<Piece, AllocError> {
        let bytes = self.bytes.copy(alloc)?;
        Ok(Piece {
            link: self.link,
            bytes,
        })
    }
}

/// What one step gives. Whoever drives the node saves first, then sends, then opens, then shuts.
#[derive(Drop)]
pub struct Effects {
    pub opens: Items<Peer>,
    pub save: Option<BoxedState>,
    pub sends: Items<Piece>,
    pub shuts: Items<u32>,
    pub entries: Items<Entry>,
    pub seals: Items<SealEntry>,
    /// Whether a banner or a frame was handled.
    pub turned: bool,
    /// The link that is forgotten since memory was wanting.
    pub lost: Option<u32>,
}

impl Effects {
    /// Nothing at all.
    pub fn new(alloc: Global) -> Effects
        ensures { result ≡ nothing }
    {
        Effects {
            opens: Items::new(alloc),
            save: None,
            sends: Items::new(alloc),
            shuts: Items::new(alloc),
            entries: Items::new(alloc),
            seals: Items::new(alloc),
            turned: false,
            lost: None,
        }
    }
}

impl Duplicate for Effects {
    fn copy(&self, alloc: Global) -> Result<Effects, AllocError> {
        let opens = copy_items(alloc, &self.opens)?;
        let save = copy_save(alloc, &self.save)?;
        let sends = copy_items(alloc, &self.sends)?;
        let shuts = copy_links(alloc, &self.shuts)?;
        let entries = copy_items(alloc, &self.entries)?;
        let seals = copy_items(alloc, &self.seals)?;
        Ok(Effects {
            opens,
            save,
            sends,
            shuts,
            entries,
            seals,
            turned: self.turned,
            lost: self.lost,
        })
    }
}

fn copy_save(alloc: Global, save: &Option<BoxedState>) -> Result<Option<BoxedState>, AllocError>
    ensures { IfOk result (λ copied. copied ≡ save.now) }
{
    match save {
        None => Ok(None),
        Some(state) => Ok(Some(BoxedState::of(alloc, state.state())?)),
    }
}

fn copy_links(alloc: Global, links: &Items<u32>) -> Result<Items<u32>, AllocError>
    ensures { IfOk result (λ copied. copied ≡ links.now) }
{
    let mut copied = Items::new(alloc);
    for link in links.all() {
        copied.push(alloc, *link)?;
    }
    Ok(copied)
}
