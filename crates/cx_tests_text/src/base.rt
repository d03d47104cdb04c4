//! What no clause of cx_base says: that each call answers something other than want of memory.

use cx_base::{
    Access, Blob, Duplicate, EntityName, EntityType, Items, NodeName, Operation, Sink, Text,
    VecSink, copy_items,
};
use std::alloc::Global;
use std::test::Fail;

/// The name of this type and id.
fn name(alloc: Global, kind: EntityType, id: &[u8]) -> Result<EntityName, Fail> {
    Ok(EntityName::new(kind, Text::of(alloc, id)?)?)
}

/// More of anything than a number of 16 bits counts.
const MANY: usize = 70_000;

#[test]
fn bytes_grow_past_every_round_number(rt: HostRuntime) -> Result<(), Fail> {
    let alloc = rt.alloc();
    let mut blob = Blob::new(alloc);
    for _ in 0..MANY {
        blob.append(alloc, b"x")?;
    }
    assert_eq!(rt; blob.bytes().len(), MANY);
    assert!(rt; blob.copy(alloc)? == blob);
    assert_eq!(rt; Text::of(alloc, blob.bytes())?.bytes().len(), MANY);
    Ok(())
}

#[test]
fn items_grow_past_every_round_number(rt: HostRuntime) -> Result<(), Fail> {
    let alloc = rt.alloc();
    let mut numbers = Items::new(alloc);
    for number in 0..70_000u64 {
        numbers.push(alloc, number)?;
    }
    assert_eq!(rt; numbers.all().len(), MANY);
    let others = copy_items(alloc, &numbers)?;
    assert!(rt; others == numbers);
    numbers.append(alloc, others)?;
    assert_eq!(rt; numbers.all().len(), 2 * MANY);
    Ok(())
}

#[test]
fn a_vec_of_bytes_is_taken_as_it_is(rt: HostRuntime) -> Result<(), Fail> {
    let bytes = Vec::from_slice(rt.alloc(), b"ab")?;
    let blob: Blob = bytes.into();
    assert_eq!(rt; blob.bytes(), b"ab".as_slice());
    Ok(())
}

#[test]
fn ascii_is_taken_as_text(rt: HostRuntime) -> Result<(), Fail> {
    let text = Text::from_ascii(rt.alloc(), b"ok")?;
    assert_eq!(rt; text.as_str(), "ok");
    Ok(())
}

#[test]
fn a_list_of_names_is_copied(rt: HostRuntime) -> Result<(), Fail> {
    let alloc = rt.alloc();
    let mut names = Items::new(alloc);
    names.push(alloc, name(alloc, EntityType::Mon, b"")?)?;
    assert!(rt; copy_items(alloc, &names)? == names);
    Ok(())
}

/// An operation on the object `o`.
fn operation(alloc: Global) -> Result<Operation, Fail> {
    let pool = Text::of(alloc, b"rbd")?;
    let namespace = Text::of(alloc, b"")?;
    let object = Text::of(alloc, b"o")?;
    Ok(Operation {
        access: Access::Exec,
        pool,
        namespace,
        object,
        bytes: Blob::new(alloc),
    })
}

#[test]
fn an_operation_is_copied(rt: HostRuntime) -> Result<(), Fail> {
    let alloc = rt.alloc();
    let asked = operation(alloc)?;
    assert!(rt; asked.copy(alloc)? == asked);
    Ok(())
}

#[test]
fn nodes_and_accesses_are_printed(rt: HostRuntime) -> Result<(), Fail> {
    let alloc = rt.alloc();
    let osd = NodeName::Entity(name(alloc, EntityType::Osd, b"0")?);
    let printed = format!(in alloc; "{} {} {}", NodeName::Monitor, osd, Access::Exec)?;
    assert_eq!(rt; printed.as_str(), "mon osd.0 exec");
    Ok(())
}

#[test]
fn a_sink_is_made_with_its_room(rt: HostRuntime) -> Result<(), Fail> {
    let alloc = rt.alloc();
    let mut sink = VecSink::new(alloc, 2, Blob::new(alloc))?;
    assert!(rt; sink.push(b"ab").is_ok());
    assert_eq!(rt; sink.taken(), b"ab".as_slice());
    Ok(())
}
