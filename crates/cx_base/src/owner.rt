//! Who a session belongs to.

ghost use Rattle.std.specs.Prelude.{ℕ, ◌≡◌, List};
ghost use Rattle.cx_base.specs.Names.{Name};

use crate::Reading;
use crate::entity::EntityName;
use crate::owned::Text;

/// What the holder of a session tells of the ticket that it was admitted with: its entity, its global id, its capability
/// text, and the reading at which it was live. A book of sessions sees no more of an owner.
pub trait Owner: Drop {
    ghost entity_of: { Self → Name };

    ghost gid_of: { Self → ℕ };

    ghost caps_of: { Self → List ℕ };

    ghost reading_of: { Self → ℕ };

    /// The entity that the ticket was issued to.
    fn entity(&self) -> &EntityName
        ensures { result.now ≡ entity_of self.now };

    /// The ticket's global id.
    fn gid(&self) -> u64
        ensures { result ≡ gid_of self.now };

    /// The ticket's capability text.
    fn caps(&self) -> &Text
        ensures { result.now ≡ caps_of self.now };

    /// The reading at which the ticket was found live.
    fn at(&self) -> Reading
        ensures { result ≡ reading_of self.now };
}
