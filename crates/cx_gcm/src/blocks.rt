//! A block of 16 bytes as a number, whose highest bit is the block's first one.

ghost use Rattle.std.specs.Prelude.{◌≡◌};
ghost use Rattle.cx_gcm.specs.Blocks.{number, spelled};

pub fn number(block: &[u8; 16]) -> u128
    ensures { result ≡ number block.now }
{
    u128::from_be_bytes(*block)
}

pub fn spelled(number: u128) -> [u8; 16]
    ensures { result ≡ spelled number }
{
    number.to_be_bytes()
}
