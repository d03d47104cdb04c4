//! How a node regards its links is told.

ghost use Rattle.std.specs.Prelude.{[], ◌∷◌, map};
ghost use Rattle.cx_drive.specs.Steps.{regard_act, regard_acts, step_links};

use crate::machine::Machine;
use cx_outside::Site;
use cx_steps::Piece;

/// Tells how the node regards the links that a step was on, if they live: that of its event, or, where that was about none, those on which the step
/// sent.
pub(crate) fn tell<S: Site, M: Machine>(site: &mut S, node: &M, link: Option<u32>, sends: &[Piece])
    ensures { S.follows site.old site.new (regard_acts (M.regards node.now) (step_links link sends.now)) }
{
    match link {
        Some(number) => tell_alone(site, node, number),
        None => tell_each(site, node, sends),
    }
}

// This link and no other.
fn tell_alone<S: Site, M: Machine>(site: &mut S, node: &M, number: u32)
    ensures { S.follows site.old site.new (regard_acts (M.regards node.now) (number ∷ [])) }
{
    tell_one(site, node, number);
}

// The links of these pieces.
fn tell_each<S: Site, M: Machine>(site: &mut S, node: &M, sends: &[Piece])
    ensures { S.follows site.old site.new (regard_acts (M.regards node.now) (map (λ piece. piece.link) sends.now)) }
{
    for piece in sends {
        tell_one(site, node, piece.link);
    }
}

// One link.
fn tell_one<S: Site, M: Machine>(site: &mut S, node: &M, number: u32)
    ensures { S.follows site.old site.new (regard_act number (M.regards node.now number)) }
{
    match node.regard(number) {
        Some(regard) => site.regard(number, regard),
        None => {}
    }
}
