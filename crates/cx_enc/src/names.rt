//! Names of entities that were read.

ghost use Rattle.std.specs.Prelude.{IsTrue};
ghost use Rattle.cx_base.specs.Names.{is_id};

use cx_base::EntityType;

/// The name of an entity in borrowed bytes. Its id has 1 to 64 bytes of the alphabet of ids; a monitor's may be empty.
#[derive(Clone, Copy, Debug)]
pub struct NameRef<'a> {
    pub kind: EntityType,
    pub id: &'a [u8],
    ghost good: { IsTrue (is_id kind id.now) },
}
