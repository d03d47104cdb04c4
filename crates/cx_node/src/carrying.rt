//! What a step gives by a row.

ghost use Rattle.std.specs.Prelude.{◌≡◌, [], ◌∷◌, Some, IfOk, if◌then◌else◌};
ghost use Rattle.cx_rules.specs.Rows.{piece, shuts};
ghost use Rattle.cx_steps.specs.Nothing.{nothing};
ghost use Rattle.cx_node.specs.Made.{out_of};

use crate::rows::Row;
use cx_base::{Blob, Items};
use cx_journal::Entry;
use cx_steps::{Effects, Piece};
use std::alloc::{AllocError, Global};

/// A row that was carried out: the link as it goes on, which the table takes back, and the effects.
#[derive(Drop)]
pub struct Carried<L> {
    pub link: Option<L>,
    pub out: Effects,
}

/// Carries a row out on the link of this number. `turned`: a banner or a frame was handled.
pub fn carried_out<L: Drop>(
    alloc: Global,
    number: u32,
    turned: bool,
    row: Row<L>,
) -> Result<Carried<L>, AllocError>
    ensures { IfOk result (λ carried. carried ≡ record { link = row.link; out = out_of number turned row }) }
{
    let shuts = shuts(alloc, number, row.link.is_none())?;
    let sends = piece(alloc, number, row.sends)?;
    Ok(Carried {
        link: row.link,
        out: Effects {
            opens: Items::new(alloc),
            save: row.save,
            sends,
            shuts,
            entries: row.entries,
            seals: row.seals,
            turned,
            lost: None,
        },
    })
}

// What is sent on a link, in one piece; nothing where there are no bytes.
fn piece(alloc: Global, number: u32, bytes: Blob) -> Result<Items<Piece>, AllocError>
    ensures { IfOk result (λ sends. sends ≡ piece number bytes) }
{
    let mut sends = Items::new(alloc);
    if !bytes.bytes().is_empty() {
        sends.push(
            alloc,
            Piece {
                link: number,
                bytes,
            },
        )?;
    }
    Ok(sends)
}

// The links that are shut.
fn shuts(alloc: Global, number: u32, gone: bool) -> Result<Items<u32>, AllocError>
    ensures { IfOk result (λ shuts. shuts ≡ (if gone then number ∷ [] else [])) }
{
    let mut shut = Items::new(alloc);
    if gone {
        shut.push(alloc, number)?;
    }
    Ok(shut)
}

/// What a step gives that enters this alone.
pub fn enters(alloc: Global, entry: Entry) -> Result<Effects, AllocError>
    ensures { IfOk result (λ out. out ≡ record nothing { entries = entry ∷ [] }) }
{
    let mut out = Effects::new(alloc);
    out.entries.push(alloc, entry)?;
    Ok(out)
}

/// What a step gives that forgot the link of this number, since memory was wanting.
pub fn loses(alloc: Global, number: u32) -> Effects
    ensures { result ≡ record nothing { lost = Some number } }
{
    let mut out = Effects::new(alloc);
    out.lost = Some(number);
    out
}
