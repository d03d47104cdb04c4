//! The numbers of sessions by their client cookies.

ghost use Rattle.std.specs.Prelude.{◌≡◌, ◌≢◌, ℕ, IsSome, IfSome, IfNone, Some, None, OnOk};
ghost use Rattle.std.specs.BTreeMap.{get};
ghost use Rattle.std.specs.Ordering.{nat_cmp};

use std::alloc::AllocError;
use std::collections::BTreeMap;

pub(crate) type Numbers = BTreeMap<u64, u64>;

// Makes a place for this cookie ready.
pub(crate) fn make_known(
    numbers: &mut Numbers,
    client_cookie: u64,
    number: u64,
) -> Result<(), AllocError>
    ensures there { OnOk result (IsSome (get nat_cmp numbers.new client_cookie)) }
    ensures kept { (cookie : ℕ) → IsSome (get nat_cmp numbers.old cookie) → get nat_cmp numbers.new cookie ≡ get nat_cmp numbers.old cookie }
{
    if numbers.contains_key(&client_cookie) {
        return Ok(());
    }
    numbers.insert(client_cookie, number)?;
    Ok(())
}

// Notes a number in the place that is ready for it.
pub(crate) fn note(numbers: &mut Numbers, client_cookie: u64, number: u64)
    requires { IsSome (get nat_cmp numbers.old client_cookie) }
    ensures here { get nat_cmp numbers.new client_cookie ≡ Some number }
    ensures others { (cookie : ℕ) → cookie ≢ client_cookie → get nat_cmp numbers.new cookie ≡ get nat_cmp numbers.old cookie }
{
    if let Some(place) = numbers.get_mut(&client_cookie) {
        *place = number;
    }
}

// Gives up the place of this cookie, if of one.
pub(crate) fn forget(numbers: &mut Numbers, client_cookie: Option<u64>)
    ensures gone { IfSome client_cookie (λ cookie. get nat_cmp numbers.new cookie ≡ None) }
    ensures others { (cookie : ℕ) → client_cookie ≢ Some cookie → get nat_cmp numbers.new cookie ≡ get nat_cmp numbers.old cookie }
{
    if let Some(stale) = client_cookie {
        numbers.remove(&stale);
    }
}

// This cookie, unless it is the one for which memory stands ready.
pub(crate) fn unless_reserved(client_cookie: u64, room: Option<u64>) -> Option<u64>
    ensures cookie { IfSome result (λ cookie. cookie ≡ client_cookie) }
    ensures other { IfSome result (λ cookie. room ≢ Some cookie) }
    ensures none { IfNone result (room ≡ Some client_cookie) }
{
    if room == Some(client_cookie) {
        return None;
    }
    Some(client_cookie)
}
