//! What is looked for among the links of a client.

ghost use Rattle.std.specs.Prelude.{◌≡◌, ◌==◌, ◌++◌, [], ◌∷◌, None, IfSome, IfNone, IfOk, OnOk, filter, if◌then◌else◌, map, not};
ghost use Rattle.std.specs.List.{list_all, list_any};
ghost use Rattle.cx_node.specs.cx_rules.specs.Requests.{first_open};
ghost use Rattle.cx_node.specs.cx_rules_session.specs.ClientRule.{asking_open, first_call, is_at_rest, is_to, is_to_monitor};
ghost use Rattle.cx_client_events.specs.linking.Scans.{IsFirstCall, IsFirstOpen};

use crate::links::Link;
use cx_base::{EntityName, Items};
use cx_client_connect as calls;
use cx_client_connect::Sessions;
use cx_monclient as connector;
use cx_node::{Links, Numbered};
use std::alloc::{AllocError, Global};

/// Whether nothing is waited for on any of the links.
pub fn are_at_rest(links: &Links<Link>, sessions: &Sessions) -> bool
    requires { links.now.room ≡ None }
    ensures { result ≡ list_all (λ link. is_at_rest sessions.now.sessions link.stage) links.now.links }
{
    for place in 0..links.len() {
        let Some(link) = links.nth(place) else {
            unreachable!()
        };
        if !link.is_at_rest(sessions) {
            return false;
        }
    }
    true
}

/// Whether a link to this daemon lives.
pub fn calls(links: &Links<Link>, daemon: &EntityName) -> bool
    requires { links.now.room ≡ None }
    ensures { result ≡ list_any (λ link. is_to daemon.now link.stage) links.now.links }
{
    for place in 0..links.len() {
        let Some(link) = links.nth(place) else {
            unreachable!()
        };
        if link.is_to(daemon) {
            return true;
        }
    }
    false
}

/// The first of the links that is an open one to the monitor.
pub fn first_open(links: &Links<Link>) -> Option<&connector::Link>
    requires { links.now.room ≡ None }
    ensures some { IfSome result (λ link. IsFirstOpen links.now.links link.now) }
    ensures none { IfNone result (first_open asking_open links.now.links ≡ None) }
{
    for place in 0..links.len() {
        let Some(link) = links.nth(place) else {
            unreachable!()
        };
        if let Some(link) = link.open_monitor() {
            return Some(link);
        }
    }
    None
}

/// The first of the links that is an open one to this daemon.
pub fn first_call<'a>(links: &'a Links<Link>, daemon: &EntityName) -> Option<&'a calls::Link>
    requires { links.now.room ≡ None }
    ensures some { IfSome result (λ link. IsFirstCall daemon.now links.now.links link.now) }
    ensures none { IfNone result (first_call daemon.now links.now.links ≡ None) }
{
    for place in 0..links.len() {
        let Some(link) = links.nth(place) else {
            unreachable!()
        };
        if let Some(link) = link.open_call(daemon) {
            return Some(link);
        }
    }
    None
}

/// The numbers of the links to the monitor.
pub fn numbers_to_monitor(alloc: Global, links: &Links<Link>) -> Result<Items<u32>, AllocError>
    requires { links.now.room ≡ None }
    ensures { IfOk result (λ numbers. numbers ≡ map (λ link. link.number) (filter (λ link. is_to_monitor link.stage) links.now.links)) }
{
    let mut numbers = Items::new(alloc);
    for place in 0..links.len() {
        let Some(link) = links.nth(place) else {
            unreachable!()
        };
        adds(alloc, &mut numbers, link)?;
    }
    Ok(numbers)
}

// The number of this link, if it is to the monitor.
fn adds(alloc: Global, numbers: &mut Items<u32>, link: &Link) -> Result<(), AllocError>
    ensures { OnOk result (numbers.new ≡ numbers.old ++ (if is_to_monitor link.now.stage then link.now.number ∷ [] else [])) }
{
    if !link.is_to_monitor() {
        return Ok(());
    }
    numbers.push(alloc, link.number())
}

/// The links of these numbers are given up.
pub fn shut_all(links: &mut Links<Link>, numbers: &Items<u32>)
    ensures links { links.new.links ≡ filter (λ link. not (list_any (λ number. number == link.number) numbers.now)) links.old.links }
    ensures room { links.new.room ≡ links.old.room }
{
    for number in numbers.all() {
        links.remove(*number);
    }
}
