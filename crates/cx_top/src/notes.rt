//! What is said of the caps of a schedule.

ghost use Rattle.std.specs.Prelude.{◌≡◌, ◌++◌, IfOk, string_bytes};
ghost use Rattle.std.specs.List.{list_any};
ghost use Rattle.cx_base.specs.Names.{same_kind};
ghost use Rattle.cx_top.specs.Notes.{asked_in, asked_told, command_told, dead_in, dead_told, gives_caps, has_caps, no_ticket_told, schedule_told, services_told, ticket_told};
ghost use Rattle.cx_top.specs.Told.{run_told};

use crate::told::run_told;
use cx_base::{EntityName, EntityType, Grant};
use cx_help::caps_told;
use cx_journal::Broken;
use cx_lines::{Line, LineCommand, Numbered, Setting};
use cx_world::IdleLine;
use std::alloc::{AllocError, Global};

/// What is said of a schedule and its run: the clauses of caps that grant nothing, the services that are asked for without caps, the first breach of
/// its premises, and which of its lines did nothing, and why.
pub fn replay_told(
    alloc: Global,
    lines: &[Numbered],
    broken: &Option<Broken>,
    idle: &[IdleLine],
) -> Result<String, AllocError>
    ensures { IfOk result (λ told. string_bytes told ≡ schedule_told lines.now ++ run_told broken.now idle.now) }
{
    let mut told = schedule_told(alloc, lines)?;
    let run = run_told(alloc, broken, idle)?;
    told.push_str(&run)?;
    Ok(told)
}

fn schedule_told(alloc: Global, lines: &[Numbered]) -> Result<String, AllocError>
    ensures { IfOk result (λ told. string_bytes told ≡ schedule_told lines.now) }
{
    let mut told = dead_told(alloc, lines)?;
    let asked = asked_told(alloc, lines)?;
    told.push_str(&asked)?;
    Ok(told)
}

fn dead_told(alloc: Global, lines: &[Numbered]) -> Result<String, AllocError>
    ensures { IfOk result (λ told. string_bytes told ≡ dead_told lines.now) }
{
    let mut told = String::new(alloc);
    for numbered in lines {
        let dead = dead_in(alloc, &numbered.line)?;
        told.push_str(&dead)?;
    }
    Ok(told)
}

fn dead_in(alloc: Global, line: &Line) -> Result<String, AllocError>
    ensures { IfOk result (λ told. string_bytes told ≡ dead_in line.now) }
{
    match line {
        Line::Setting(Setting::Entity(name, grants)) => caps_told(alloc, false, name, grants.all()),
        _ => Ok(String::new(alloc)),
    }
}

// ---- services that are asked for without caps

fn asked_told(alloc: Global, lines: &[Numbered]) -> Result<String, AllocError>
    ensures { IfOk result (λ told. string_bytes told ≡ asked_told lines.now) }
{
    let mut told = String::new(alloc);
    for numbered in lines {
        let asked = asked_in(alloc, lines, numbered.number, &numbered.line)?;
        told.push_str(&asked)?;
    }
    Ok(told)
}

fn asked_in(
    alloc: Global,
    lines: &[Numbered],
    number: u32,
    line: &Line,
) -> Result<String, AllocError>
    ensures { IfOk result (λ told. string_bytes told ≡ asked_in lines.now number line.now) }
{
    match line {
        Line::Submit(command) => command_told(alloc, lines, number, command),
        Line::Do(command) => command_told(alloc, lines, number, command),
        _ => Ok(String::new(alloc)),
    }
}

fn command_told(
    alloc: Global,
    lines: &[Numbered],
    number: u32,
    command: &LineCommand,
) -> Result<String, AllocError>
    ensures { IfOk result (λ told. string_bytes told ≡ command_told lines.now number command.now) }
{
    match command {
        LineCommand::Login(client, services) => {
            services_told(alloc, lines, number, client, services.all())
        }
        LineCommand::Renew(client, services) => {
            services_told(alloc, lines, number, client, services.all())
        }
        _ => Ok(String::new(alloc)),
    }
}

fn services_told(
    alloc: Global,
    lines: &[Numbered],
    number: u32,
    client: &EntityName,
    services: &[EntityType],
) -> Result<String, AllocError>
    ensures { IfOk result (λ told. string_bytes told ≡ services_told lines.now number client.now services.now) }
{
    let mut told = String::new(alloc);
    for service in services {
        let one = ticket_told(alloc, lines, number, client, *service)?;
        told.push_str(&one)?;
    }
    Ok(told)
}

fn ticket_told(
    alloc: Global,
    lines: &[Numbered],
    number: u32,
    client: &EntityName,
    service: EntityType,
) -> Result<String, AllocError>
    ensures { IfOk result (λ told. string_bytes told ≡ ticket_told lines.now number client.now service) }
{
    if has_caps(lines, client, service) {
        return Ok(String::new(alloc));
    }
    no_ticket_told(alloc, number, client, service)
}

fn no_ticket_told(
    alloc: Global,
    number: u32,
    client: &EntityName,
    service: EntityType,
) -> Result<String, AllocError>
    ensures { IfOk result (λ told. string_bytes told ≡ no_ticket_told number client.now service) }
{
    format!(in alloc;
        "cephx_cli: line {}: {} has no caps for {}, and gets no ticket for it\n",
        number, client, service
    )
}

/// Whether a line of these declares that the client has caps for the service.
fn has_caps(lines: &[Numbered], client: &EntityName, service: EntityType) -> bool
    ensures { result ≡ has_caps lines.now client.now service }
{
    lines
        .iter()
        .any(|numbered| gives_caps(client, service, &numbered.line))
}

fn gives_caps(client: &EntityName, service: EntityType, line: &Line) -> bool
    ensures { result ≡ gives_caps client.now service line.now }
{
    match line {
        Line::Setting(Setting::Entity(name, grants)) => {
            *name == *client && is_granted(service, grants.all())
        }
        _ => false,
    }
}

fn is_granted(service: EntityType, grants: &[Grant]) -> bool
    ensures { result ≡ list_any (λ grant. same_kind service grant.service) grants.now }
{
    grants.iter().any(|grant| service.is(grant.service))
}
