//! The tags of frames, by the names that messenger v2.1 gives them.

/// Which modes and methods each end speaks, and the address at which it sees the other.
pub const HELLO: u8 = 1;
/// The client says as whom it logs in, and by what method.
pub const AUTH_REQUEST: u8 = 2;
/// The method or the entity is refused, with a code.
pub const AUTH_BAD_METHOD: u8 = 3;
/// The server's challenge.
pub const AUTH_REPLY_MORE: u8 = 4;
/// The client's answer to it.
pub const AUTH_REQUEST_MORE: u8 = 5;
/// The server is content; the connection's secret is in it.
pub const AUTH_DONE: u8 = 6;
/// What each end signs of all that went over the link before.
pub const AUTH_SIGNATURE: u8 = 7;
/// The client begins a session.
pub const CLIENT_IDENT: u8 = 8;
/// The server takes the session up.
pub const SERVER_IDENT: u8 = 9;
/// The client lacks features.
pub const IDENT_MISSING_FEATURES: u8 = 10;
/// The client goes on with a session.
pub const SESSION_RECONNECT: u8 = 11;
/// The session is gone.
pub const SESSION_RESET: u8 = 12;
/// Again, with a greater number of connections of this session.
pub const SESSION_RETRY: u8 = 13;
/// Again, with a greater number of connections of this client.
pub const SESSION_RETRY_GLOBAL: u8 = 14;
/// The session goes on.
pub const SESSION_RECONNECT_OK: u8 = 15;
/// A message: its header, its front, its middle and its data.
pub const MESSAGE: u8 = 17;
/// Whether the peer lives.
pub const KEEPALIVE2: u8 = 18;
/// It does.
pub const KEEPALIVE2_ACK: u8 = 19;
/// Messages up to this number were taken.
pub const ACK: u8 = 20;
