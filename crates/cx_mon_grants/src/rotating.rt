//! Rotating the secrets of the services, and what is logged of it.

ghost use Rattle.std.specs.Prelude.{◌≡◌, ◌++◌, ◌<◌, map, IsTrue, OnOk, OnErr};
ghost use Rattle.cx_base.specs.declared.kinds.EntityType.{EntityType};
ghost use Rattle.cx_dice.specs.Draws.{has_keys};
ghost use Rattle.cx_keyserver.specs.Servers.{rotated_server};
ghost use Rattle.cx_rotate.specs.Keeping.{IsKeptState};
ghost use Rattle.cx_rules.specs.Tickets.{drawn_for, rotation_drawn};
ghost use Rattle.cx_steps.specs.declared.seals.DrawMark.TheVariants.{Rotation};
ghost use Rattle.cx_steps.specs.declared.seals.SealEntry.TheVariants.{Drawn};
ghost use Rattle.cx_mon_grants.specs.Issuing.{IsRotated};

use cx_base::{EntityType, Items, Reading};
use cx_dice::Draw;
use cx_keyserver::{KeyServer, generations_of, is_current, life_of};
use cx_rotate::KeptState;
use cx_steps::{DrawMark, SealEntry};
use std::alloc::{AllocError, Global};

/// Rotates the secrets of all services, and logs each key that this adds. Where memory is wanting, some of them may stand in the log.
pub(crate) fn rotated(
    alloc: Global,
    server: &mut KeyServer,
    now: Reading,
    draw: &Draw,
    seals: &mut Items<SealEntry>,
) -> Result<(), AllocError>
    requires { now < 4000000000000000000 }
    ensures server { OnOk result (server.new ≡ rotated_server now draw.now.bytes server.old) }
    ensures drawn { OnOk result (seals.new ≡ seals.old ++ rotation_drawn now draw.now.bytes server.old.state) }
    // A second rotation at this reading and with this draw adds nothing.
    ensures again { OnOk result (IsRotated now draw.now.bytes server.new) }
    ensures err { OnErr result (server.new ≡ server.old) }
{
    let state = server.state();
    log_rotation(alloc, &state, now, draw, seals)?;
    server.rotate(now, draw);
    Ok(())
}

// Logs the keys that a rotation adds for all services.
fn log_rotation(
    alloc: Global,
    state: &KeptState,
    now: Reading,
    draw: &Draw,
    seals: &mut Items<SealEntry>,
) -> Result<(), AllocError>
    requires now { now < 4000000000000000000 }
    requires kept { IsKeptState state.now }
    ensures { OnOk result (seals.new ≡ seals.old ++ rotation_drawn now draw.now.bytes state.now) }
{
    log_added(alloc, state, EntityType::Mds, now, draw, seals)?;
    log_added(alloc, state, EntityType::Osd, now, draw, seals)?;
    log_added(alloc, state, EntityType::Mgr, now, draw, seals)?;
    log_added(alloc, state, EntityType::Auth, now, draw, seals)
}

// Logs the keys that it adds for a service.
fn log_added(
    alloc: Global,
    state: &KeptState,
    service: EntityType,
    now: Reading,
    draw: &Draw,
    seals: &mut Items<SealEntry>,
) -> Result<(), AllocError>
    requires now { now < 4000000000000000000 }
    requires kept { IsKeptState state.now }
    requires service { IsTrue (has_keys service) }
    ensures { OnOk result (seals.new ≡ seals.old ++ drawn_for now draw.now.bytes state.now service) }
{
    let generations = generations_of(state, service);
    if is_current(&generations, now) {
        return Ok(());
    }
    log_taken(alloc, state, service, now, draw, seals)
}

// The same, with the keys of the draw, of which a copy takes those that it needs.
fn log_taken(
    alloc: Global,
    state: &KeptState,
    service: EntityType,
    now: Reading,
    draw: &Draw,
    seals: &mut Items<SealEntry>,
) -> Result<(), AllocError>
    requires now { now < 4000000000000000000 }
    requires kept { IsKeptState state.now }
    requires service { IsTrue (has_keys service) }
    ensures { OnOk result (seals.new ≡ seals.old ++ drawn_for now draw.now.bytes state.now service) }
{
    let keys = draw.rotation_keys(service);
    let mut generations = generations_of(state, service);
    let added = generations.rotate(now, life_of(state, service), &keys);
    log_keys(alloc, &keys[..added as usize], seals)
}

fn log_keys(
    alloc: Global,
    keys: &[[u8; 16]],
    seals: &mut Items<SealEntry>,
) -> Result<(), AllocError>
    ensures { OnOk result (seals.new ≡ seals.old ++ map (λ key. Drawn (Rotation key)) keys.now) }
{
    for key in keys {
        seals.push(alloc, SealEntry::Drawn(DrawMark::Rotation(*key)))?;
    }
    Ok(())
}
