//! Rotating the generations of all services.

ghost use Rattle.std.specs.Prelude.{ℕ, ◌≡◌, ◌<◌, ◌||◌, List, true, nat_lt, IsTrue};
ghost use Rattle.cx_rotate.specs.Keeping.{IsKeptState, IsLasting, IsLife};
ghost use Rattle.cx_rotate.specs.Rotation.{additions, is_current, rotated};
ghost use Rattle.cx_dice.specs.Draws.{has_keys, rotation_of};
ghost use Rattle.cx_keyserver.specs.Servers.{adds_any, rotated_state};

use cx_base::{EntityType, Reading};
use cx_dice::Draw;
use cx_rotate::{Generations, KeptState};

/// Rotates each service's generations at this reading, with the keys of the draw, and answers whether any were added.
pub(crate) fn rotate(state: &mut KeptState, now: Reading, draw: &Draw) -> bool
    requires kept { IsKeptState state.old }
    requires now { now < 4000000000000000000 }
    ensures state { state.new ≡ rotated_state now draw.now.bytes state.old }
    ensures added { result ≡ adds_any now draw.now.bytes state.old }
    ensures kept { IsKeptState state.new }
{
    let life = state.life;
    let auth_life = state.auth_life;
    let mds = rotate_service(&mut state.mds, EntityType::Mds, life, now, draw);
    let osd = rotate_service(&mut state.osd, EntityType::Osd, life, now, draw);
    let mgr = rotate_service(&mut state.mgr, EntityType::Mgr, life, now, draw);
    let auth = rotate_service(&mut state.auth, EntityType::Auth, auth_life, now, draw);
    any(mds, osd, mgr, auth)
}

// Rotates the generations of a service, and answers whether any were added.
fn rotate_service(
    generations: &mut Generations,
    service: EntityType,
    life: u64,
    now: Reading,
    draw: &Draw,
) -> bool
    requires kept { IsLasting generations.old }
    requires service { IsTrue (has_keys service) }
    requires life { IsLife life }
    requires now { now < 4000000000000000000 }
    ensures rotated { generations.new ≡ rotated now life (rotation_of service draw.now.bytes) generations.old }
    ensures added { result ≡ nat_lt 0 (additions now life (rotation_of service draw.now.bytes) generations.old) }
    ensures kept { IsLasting generations.new }
{
    if is_current(generations, now) {
        return false;
    }
    let keys = draw.rotation_keys(service);
    generations.rotate(now, life, &keys) > 0
}

/// Whether three generations stand of which the second is unexpired. A rotation adds none to these, and leaves them as they are: its keys
/// needn't be drawn.
#[tactic(auto, using(crate::proofs::Current::current_stays))]
pub fn is_current(generations: &Generations, now: Reading) -> bool
    ensures value { result ≡ is_current now generations.now }
    ensures stays { IsTrue result → (life : ℕ) (keys : List (List ℕ)) → rotated now life keys generations.now ≡ generations.now }
    ensures none { IsTrue result → (life : ℕ) (keys : List (List ℕ)) → additions now life keys generations.now ≡ 0 }
{
    let Some(all) = generations.all() else {
        return false;
    };
    let [_, second, _] = all;
    now < second.expires
}

fn any(mds: bool, osd: bool, mgr: bool, auth: bool) -> bool
    ensures { result ≡ (mds || osd || mgr || auth) }
{
    mds || osd || mgr || auth
}
