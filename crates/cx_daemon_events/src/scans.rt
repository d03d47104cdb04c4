//! What is looked for among the links of a daemon.

ghost use Rattle.std.specs.Prelude.{◌≡◌, ◌==◌, ◌++◌, [], ◌∷◌, None, IfSome, IfNone, IfOk, OnOk, filter, if◌then◌else◌, map, not};
ghost use Rattle.std.specs.List.{list_any};
ghost use Rattle.cx_node.specs.cx_rules.specs.Requests.{first_open};
ghost use Rattle.cx_verifying.specs.cx_rules_session.specs.DaemonRule.{asking_open, is_for_fetch};
ghost use Rattle.cx_daemon_events.specs.Machine.{IsFirstOpen};
ghost use Rattle.cx_daemon_events.specs.Shutting.{is_shut_by};

use crate::links::Link;
use cx_base::Items;
use cx_monclient as connector;
use cx_node::{Links, Numbered};
use std::alloc::{AllocError, Global};

/// Whether a fetch is under way on one of the links.
pub fn is_fetching(links: &Links<Link>) -> bool
    requires { links.now.room ≡ None }
    ensures { result ≡ list_any (λ link. is_for_fetch link.stage) links.now.links }
{
    for place in 0..links.len() {
        let Some(link) = links.nth(place) else {
            unreachable!()
        };
        if link.is_for_fetch() {
            return true;
        }
    }
    false
}

/// The first of the links that is an open one to the monitor.
pub fn first_open(links: &Links<Link>) -> Option<&connector::Link>
    requires { links.now.room ≡ None }
    ensures some { IfSome result (λ link. IsFirstOpen links.now.links link.now) }
    ensures none { IfNone result (first_open asking_open links.now.links ≡ None) }
{
    for place in 0..links.len() {
        let Some(link) = links.nth(place) else {
            unreachable!()
        };
        if let Some(link) = link.open_own() {
            return Some(link);
        }
    }
    None
}

/// The numbers of the links that are open in this session, but for the link of this number.
pub fn numbers_in(
    alloc: Global,
    links: &Links<Link>,
    session: u64,
    but: Option<u32>,
) -> Result<Items<u32>, AllocError>
    requires { links.now.room ≡ None }
    ensures { IfOk result (λ numbers. numbers ≡ map (λ link. link.number) (filter (is_shut_by session but) links.now.links)) }
{
    let mut numbers = Items::new(alloc);
    for place in 0..links.len() {
        let Some(link) = links.nth(place) else {
            unreachable!()
        };
        adds(alloc, &mut numbers, link, session, but)?;
    }
    Ok(numbers)
}

// The number of this link, if it is one of them.
fn adds(
    alloc: Global,
    numbers: &mut Items<u32>,
    link: &Link,
    session: u64,
    but: Option<u32>,
) -> Result<(), AllocError>
    ensures { OnOk result (numbers.new ≡ numbers.old ++ (if is_shut_by session but link.now then link.now.number ∷ [] else [])) }
{
    if !is_shut_by(link, session, but) {
        return Ok(());
    }
    numbers.push(alloc, link.number())
}

fn is_shut_by(link: &Link, session: u64, but: Option<u32>) -> bool
    ensures { result ≡ is_shut_by session but link.now }
{
    match but {
        None => link.is_in(session),
        Some(number) => link.is_in(session) && link.number() != number,
    }
}

/// The links of these numbers are given up.
pub fn shut_all(links: &mut Links<Link>, numbers: &Items<u32>)
    ensures links { links.new.links ≡ filter (λ link. not (list_any (λ number. number == link.number) numbers.now)) links.old.links }
    ensures room { links.new.room ≡ links.old.room }
{
    for number in numbers.all() {
        links.remove(*number);
    }
}
