//! The names that may stand in the script of a node.

ghost use Rattle.std.specs.Prelude.{◌≡◌, ◌∷◌, [], ◌++◌, IfOk, OnOk};
ghost use Rattle.std.specs.Option.{option_map};
ghost use Rattle.cx_schedule.specs.NodeLines.{daemons_in, declaring, known_at, names_with, node_names};

use cx_base::EntityName;
use cx_lines::Head;
use cx_words::{CommandForm, Known, Names};
use std::alloc::{AllocError, Global};

/// The names that may stand in the script of a node.
#[derive(Drop)]
pub struct NodeNames {
    /// Its own.
    pub own: Known,
    /// Its own, and those of the daemons among its peers.
    pub all: Known,
}

/// The names of a node with these peers; none where it has no name.
pub(crate) fn node_names(
    alloc: Global,
    name: Option<&EntityName>,
    peers: &[EntityName],
) -> Result<Option<NodeNames>, AllocError>
    ensures { IfOk result (λ names. names ≡ node_names (option_map (λ n. n.now) name.entry) peers.now) }
{
    match name {
        Some(name) => Ok(Some(names_with(alloc, name, peers)?)),
        None => Ok(None),
    }
}

fn names_with(
    alloc: Global,
    name: &EntityName,
    peers: &[EntityName],
) -> Result<NodeNames, AllocError>
    ensures { IfOk result (λ names. names ≡ names_with peers.now name.now) }
{
    let own = declaring(alloc, name, &[])?;
    let all = declaring(alloc, name, peers)?;
    Ok(NodeNames { own, all })
}

/// What is known where this name is declared, and those of the daemons among these peers.
fn declaring(alloc: Global, name: &EntityName, peers: &[EntityName]) -> Result<Known, AllocError>
    ensures { IfOk result (λ known. known ≡ declaring (name.now ∷ daemons_in peers.now)) }
{
    let mut known = Known::new(alloc);
    known.declared.add(alloc, name)?;
    add_daemons(alloc, &mut known.declared, peers)?;
    Ok(known)
}

fn add_daemons(alloc: Global, names: &mut Names, peers: &[EntityName]) -> Result<(), AllocError>
    ensures { OnOk result (names.new ≡ names.old ++ daemons_in peers.now) }
{
    for peer in peers {
        add_daemon(alloc, names, peer)?;
    }
    Ok(())
}

fn add_daemon(alloc: Global, names: &mut Names, peer: &EntityName) -> Result<(), AllocError>
    ensures { OnOk result (names.new ≡ names.old ++ daemons_in (peer.now ∷ [])) }
{
    if !peer.kind.is_daemon() {
        return Ok(());
    }
    names.add(alloc, peer)
}

impl NodeNames {
    /// The names that may stand in a line of this form.
    pub(crate) fn known_at(&self, form: Head) -> &Known
        ensures { result.now ≡ known_at self.now form }
    {
        match form {
            Head::Submit(CommandForm::Connect) => &self.all,
            Head::Submit(CommandForm::Send) => &self.all,
            _ => &self.own,
        }
    }
}
