//! The encodings: what a field may hold and the faults that it may have, the primitive fields read and written, the layouts
//! that records are made of, lists whose layout goes on from item to item, values that are read with no memory, and values
//! that are read more widely than they are written.
#![tactic(auto)]

mod basics;
mod chains;
mod composed;
mod cut;
mod encoded;
mod faults;
mod fields;
mod in_place;
mod keys;
mod laws;
mod lists;
mod names;
mod owning;
mod parts;
mod puts;
mod tickets;
mod times;

pub use chains::{Chained, put_chain, take_chain};
pub use composed::kind_of;
pub use cut::Cut;
pub use encoded::{Encoded, read_whole, write_whole};
pub use faults::{Misspelling, ReadFault, ReadRefusal};
pub use in_place::{EncodedInPlace, pass_items};
pub use keys::Key;
pub use laws::{encoding_laws, fault_laws};
pub use lists::{put_items, put_many, take_items, take_many};
pub use names::NameRef;
pub use parts::{ReadsPart, read_whole_part};
pub use puts::{
    number_of, put_addr, put_blob, put_flag, put_key, put_kind, put_name, put_reading, put_secret,
    put_sized, put_ticket, put_time, put_u8, put_u16, put_u32, put_u64,
};
pub use tickets::{TicketBlob, TicketRef};
pub use times::Time;

// Each public type may be sent to another thread and shared with one.
fn is_sendable<T: Send + Sync>() {}

fn all_are_sendable() {
    is_sendable::<ReadFault>();
    is_sendable::<ReadRefusal>();
    is_sendable::<Misspelling>();
    is_sendable::<Time>();
    is_sendable::<Key>();
    is_sendable::<NameRef<'static>>();
    is_sendable::<TicketRef<'static>>();
    is_sendable::<TicketBlob>();
    is_sendable::<Cut<'static>>();
}
