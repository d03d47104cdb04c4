//! Bytes that come.

ghost use Rattle.std.specs.Prelude.{ℕ, ◌≡◌, List, None, IfOk, OnOk, OnErr};
ghost use Rattle.cx_node.specs.Tables.{with_number, without};
ghost use Rattle.cx_node.specs.steps.Turns.{IsFedInto};

use crate::{Links, Numbered};
use cx_steps::Effects;
use std::alloc::{AllocError, Global};

/// A link, as what takes the bytes that come on it.
pub trait Feeds: Numbered {
    // a link behind more bytes
    ghost IsFed: { Self → List ℕ → Self → Type 0 };

    /// Puts bytes behind those that came.
    fn feed(&mut self, alloc: Global, bytes: &[u8]) -> Result<(), AllocError>
        ensures number { OnOk result (Self.number_of self.new ≡ Self.number_of self.old) }
        ensures fed { OnOk result (IsFed self.old bytes.now self.new) };
}

/// Bytes come on the link of this number, if it lives.
pub fn comes<L: Feeds>(
    alloc: Global,
    links: &mut Links<L>,
    number: u32,
    bytes: &[u8],
) -> Result<Effects, AllocError>
    requires { links.old.room ≡ None }
    ensures fed { IfOk result (λ out. IsFedInto L.number_of L.IsFed bytes.now links.old.links links.new.links out (with_number L.number_of number links.old.links)) }
    ensures lost { OnErr result (links.new.links ≡ without L.number_of number links.old.links) }
    ensures room { links.new.room ≡ None }
{
    let Some(mut link) = links.take(number) else {
        return Ok(Effects::new(alloc));
    };
    match link.feed(alloc, bytes) {
        Ok(()) => {
            links.settle(number, Some(link));
            Ok(Effects::new(alloc))
        }
        Err(error) => {
            links.give_up();
            Err(error)
        }
    }
}
