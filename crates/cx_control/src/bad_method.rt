//! The refusal of an authentication.

ghost use Rattle.std.specs.Prelude.{◌≡◌, ℕ, List};
ghost use Rattle.cx_control.specs.Calls.{IsPartReadBy, IsWholePutBy};
ghost use Rattle.cx_control.specs.BadMethod.{bad_method_layout, kept_method, written_method, negated};

use crate::payloads::{WritesWhole, put_payload_whole, read_payload_part};
use crate::refusals::WireRefusal;
use cx_base::Blob;
use cx_enc::{Cut, ReadRefusal, ReadsPart, pass_items, put_u32};
use std::alloc::{AllocError, Global};

/// AUTH_BAD_METHOD: the method that was refused and the code of the refusal, as 13 or 95; 2^32 minus the code is written. The
/// methods and modes that its sender takes stand behind them: 2 and 2 are written, and any are read and not kept.
#[derive(Clone, Copy, PartialEq, Eq)]
pub struct AuthBadMethod {
    pub method: u32,
    pub result: u32,
}

impl ReadsPart for AuthBadMethod {
    ghost Whole = { ℕ × (ℕ × (List ℕ × List ℕ)) };

    ghost whole = { bad_method_layout };

    ghost kept = { kept_method };

    fn read_part(_alloc: Global, cut: &mut Cut<'_>) -> Result<AuthBadMethod, ReadRefusal> {
        let method = cut.take_u32()?;
        let result = negated(cut.take_u32()?);
        let methods = cut.take_count(0, 16)?;
        pass_items::<u32>(cut, methods)?;
        let modes = cut.take_count(0, 16)?;
        pass_items::<u32>(cut, modes)?;
        Ok(AuthBadMethod { method, result })
    }
}

impl WritesWhole for AuthBadMethod {
    ghost Written = { ℕ × (ℕ × (List ℕ × List ℕ)) };

    ghost whole = { bad_method_layout };

    ghost written = { written_method };

    ghost kept = { kept_method };

    fn write_whole(&self, alloc: Global, into: &mut Blob) -> Result<(), AllocError> {
        put_u32(alloc, into, self.method)?;
        put_u32(alloc, into, negated(self.result))?;
        put_u32(alloc, into, 1)?;
        put_u32(alloc, into, 2)?;
        put_u32(alloc, into, 1)?;
        put_u32(alloc, into, 2)?;
        Ok(())
    }
}

/// Reads the payload of AUTH_BAD_METHOD.
pub fn read_auth_bad_method(alloc: Global, bytes: &[u8]) -> Result<AuthBadMethod, WireRefusal>
    ensures { IsPartReadBy bad_method_layout.form kept_method bytes.now result }
{
    read_payload_part(alloc, bytes)
}

/// Writes the payload of AUTH_BAD_METHOD behind some bytes.
pub fn put_auth_bad_method(
    alloc: Global,
    into: &mut Blob,
    value: &AuthBadMethod,
) -> Result<(), AllocError>
    ensures { IsWholePutBy bad_method_layout.form kept_method (written_method value.now) value.now into.old into.new result }
{
    put_payload_whole(alloc, into, value)
}

// 2^32 minus a number, modulo 2^32.
fn negated(number: u32) -> u32
    ensures { result ≡ negated number }
{
    0u32.wrapping_sub(number)
}
