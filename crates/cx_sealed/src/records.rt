//! What every sealed record is.

ghost use Rattle.std.specs.Prelude.{◌≤◌, length};

use cx_enc::Encoded;

/// A record that is sealed: its layout begins with its kind byte, and its content fits an envelope.
pub trait Record: Encoded {
    ghost short: { (x : Self) → Self.layout.form.Fits x → length (Self.layout.form.text x) ≤ 1048576 };
}
