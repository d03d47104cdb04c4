//! The modes of a connection that one that logs in offers.

ghost use Rattle.std.specs.Prelude.{◌≡◌, ◌≤◌, length, IfOk};
ghost use Rattle.cx_rules.specs.Holdings.{modes_of};

use cx_base::Items;
use std::alloc::{AllocError, Global};

/// Which modes are offered: crc (1), and the secure one (2).
#[derive(Clone, Copy, Debug, PartialEq, Eq)]
pub struct OfferedModes {
    pub crc: bool,
    pub secure: bool,
}

impl OfferedModes {
    /// The numbers of the modes, in their order.
    pub fn numbers(&self, alloc: Global) -> Result<Items<u32>, AllocError>
        ensures { IfOk result (λ modes. modes ≡ modes_of self.now.crc self.now.secure) }
    {
        let mut modes = Items::new(alloc);
        if self.crc {
            modes.push(alloc, 1)?;
        }
        if self.secure {
            modes.push(alloc, 2)?;
        }
        Ok(modes)
    }
}
