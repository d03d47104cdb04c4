//! How the monitor regards its links.

ghost use Rattle.std.specs.Prelude.{ℕ, ◌≡◌};
ghost use Rattle.cx_mon.specs.acceptor.Stages.{link_held};
ghost use Rattle.cx_mon.specs.Regards.{regard_at};

use crate::{Link, Stage};
use cx_outside::Regard;

// How it regards a link.
pub(crate) fn regard_at(link: &Link) -> Regard
    ensures { result ≡ regard_at link.now.stage }
{
    by_stage(link.stage.as_ref())
}

fn by_stage(stage: &Stage) -> Regard
    ensures { (number : ℕ) → result ≡ regard_at (link_held number stage.now).stage }
{
    match stage {
        Stage::AwaitsBanner(_) => Regard::Stranger,
        Stage::AwaitsHello(_) => Regard::Stranger,
        Stage::AwaitsRequest(_) => Regard::Stranger,
        Stage::AwaitsProof(_, _, _) => Regard::Stranger,
        Stage::AwaitsSignature(_, _) => Regard::Stranger,
        Stage::AwaitsIdent(_, _) => Regard::Known,
        Stage::Open(_, _) => Regard::Known,
    }
}
