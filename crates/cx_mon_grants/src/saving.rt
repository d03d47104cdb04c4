//! When the kept state has changed.

ghost use Rattle.std.specs.Prelude.{◌≡◌, IfOk};
ghost use Rattle.cx_rules.specs.KeptStates.{changed, same_generation, same_generations, same_state};

use cx_rotate::{BoxedState, Generation, Generations, KeptState};
use std::alloc::{AllocError, Global};

/// The state that a step saves: what there is, where it differs from what was saved last.
pub(crate) fn changed(
    alloc: Global,
    saved: &KeptState,
    state: &KeptState,
) -> Result<Option<BoxedState>, AllocError>
    ensures { IfOk result (λ save. save ≡ changed saved.now state.now) }
{
    if same_state(state, saved) {
        Ok(None)
    } else {
        let boxed = BoxedState::of(alloc, state)?;
        Ok(Some(boxed))
    }
}

fn same_state(first: &KeptState, second: &KeptState) -> bool
    ensures { result ≡ same_state first.now second.now }
{
    first.next_gid == second.next_gid
        && first.life == second.life
        && first.auth_life == second.auth_life
        && same_generations(&first.mds, &second.mds)
        && same_generations(&first.osd, &second.osd)
        && same_generations(&first.mgr, &second.mgr)
        && same_generations(&first.auth, &second.auth)
}

fn same_generations(first: &Generations, second: &Generations) -> bool
    ensures { result ≡ same_generations first.now second.now }
{
    match (first.all(), second.all()) {
        (None, None) => true,
        (None, Some(_)) => false,
        (Some(_), None) => false,
        (Some(first), Some(second)) => same_three(&first, &second),
    }
}

fn same_three(first: &[Generation; 3], second: &[Generation; 3]) -> bool
    ensures { result ≡ same_generations first.now second.now }
{
    same_generation(&first[0], &second[0])
        && same_generation(&first[1], &second[1])
        && same_generation(&first[2], &second[2])
}

fn same_generation(first: &Generation, second: &Generation) -> bool
    ensures { result ≡ same_generation first.now second.now }
{
    first.id == second.id && first.key == second.key && first.expires == second.expires
}
