//! What the kept state has for a service.

ghost use Rattle.std.specs.Prelude.{◌≡◌};
ghost use Rattle.cx_keyserver.specs.Servers.{generations_of, life_of};

use cx_base::EntityType;
use cx_rotate::{Generations, KeptState};

/// The generations of a service: none of what isn't one.
pub fn generations_of(state: &KeptState, service: EntityType) -> Generations
    ensures { result ≡ generations_of state.now service }
{
    match service {
        EntityType::Mds => state.mds,
        EntityType::Osd => state.osd,
        EntityType::Mgr => state.mgr,
        EntityType::Auth => state.auth,
        EntityType::Mon => Generations::empty(),
        EntityType::Client => Generations::empty(),
    }
}

/// How long the secrets and tickets of a service live, in nanoseconds.
pub fn life_of(state: &KeptState, service: EntityType) -> u64
    ensures { result ≡ life_of state.now service }
{
    if service.is(EntityType::Auth) {
        state.auth_life
    } else {
        state.life
    }
}
