//! A link that opens.

ghost use Rattle.std.specs.Prelude.{◌≡◌, [], ◌∷◌, None, false, IfOk, IsOkAnd, OnOk, OnErr};
ghost use Rattle.cx_journal.specs.declared.outcomes.Reason.TheVariants as reason;
ghost use Rattle.cx_node.specs.Tables.{behind, without};
ghost use Rattle.cx_node.specs.cx_rules.specs.Rows as rows;
ghost use Rattle.cx_steps.specs.Nothing.{nothing};
ghost use Rattle.cx_node.specs.steps.Turns.{IsCarried};

use crate::{Carried, Links, Numbered, Row, carried_out, enters, refused_entry};
use cx_base::NodeName;
use cx_journal::Reason;
use cx_steps::Effects;
use std::alloc::{AllocError, Global};

/// A link of this number opens by a row. Where memory is wanting, for the row or then, no link of this number is left.
pub fn opens<L: Numbered>(
    alloc: Global,
    links: &mut Links<L>,
    number: u32,
    greeted: Result<Row<L>, AllocError>,
) -> Result<Effects, AllocError>
    requires { links.old.room ≡ None }
    ensures carried { IfOk result (λ out. IsOkAnd greeted (λ row. IsCarried L.number_of number false row links.old.links links.new.links out)) }
    ensures lost { OnErr result (links.new.links ≡ without L.number_of number links.old.links) }
    ensures room { links.new.room ≡ None }
{
    match stands(alloc, links, number, greeted) {
        Ok(out) => Ok(out),
        Err(error) => {
            links.remove(number);
            Err(error)
        }
    }
}

/// A row is carried out on the link of this number, which then stands in its place, or in none where it is shut. Where memory is wanting, for
/// the row or then, all is as before.
pub fn stands<L: Numbered>(
    alloc: Global,
    links: &mut Links<L>,
    number: u32,
    greeted: Result<Row<L>, AllocError>,
) -> Result<Effects, AllocError>
    requires { links.old.room ≡ None }
    ensures carried { IfOk result (λ out. IsOkAnd greeted (λ row. IsCarried L.number_of number false row links.old.links links.new.links out)) }
    ensures err { OnErr result (links.new ≡ links.old) }
    ensures room { links.new.room ≡ None }
{
    let row = greeted?;
    let Carried { link, out } = carried_out(alloc, number, false, row)?;
    puts(alloc, links, number, link)?;
    Ok(out)
}

fn puts<L: Numbered>(
    alloc: Global,
    links: &mut Links<L>,
    number: u32,
    link: Option<L>,
) -> Result<(), AllocError>
    requires { links.old.room ≡ None }
    ensures ok { OnOk result (links.new.links ≡ behind L.number_of number link links.old.links) }
    ensures err { OnErr result (links.new ≡ links.old) }
    ensures room { links.new.room ≡ None }
{
    match link {
        Some(link) => links.put(alloc, link),
        None => {
            links.remove(number);
            Ok(())
        }
    }
}

/// A link could not be opened.
pub fn unopened(alloc: Global, me: &NodeName) -> Result<Effects, AllocError>
    ensures { IfOk result (λ out. out ≡ record nothing { entries = rows.refused_entry me.now 0 reason.NoLink ∷ [] }) }
{
    let entry = refused_entry(alloc, me, 0, Reason::NoLink)?;
    enters(alloc, entry)
}
