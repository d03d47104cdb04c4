//! What the body of a message says, of which the rules speak.

use cx_login::BytesFault;

/// What the body of a message of type 17 or 18 says.
#[derive(Drop)]
pub enum Body<T> {
    Spelled(T),
    /// Its blob begins with another code than these bodies have.
    OtherCode,
    /// It can't be read.
    Misspelled(BytesFault),
}
