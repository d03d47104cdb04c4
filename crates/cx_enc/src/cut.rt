//! A place in borrowed bytes.

ghost use Rattle.std.specs.Prelude.{◌+◌, ◌<◌, ◌^◌, length};

/// A place in borrowed bytes. Each call that takes a field answers it and moves behind it; where the field can't be read,
/// it answers the fault and stays.
#[derive(Clone, Copy, Debug)]
pub struct Cut<'a> {
    pub(crate) left: &'a [u8],
    pub(crate) place: usize,
    ghost in_range: { place + length left.now < 2 ^ 63 },
}
