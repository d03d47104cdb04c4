//! The codes with which AUTH_BAD_METHOD refuses, by their names in the system's `errno.h`.

/// EACCES: who asks isn't who they say, or may not.
pub const PERMISSION_DENIED: u32 = 13;
/// EOPNOTSUPP: another method, or another mode, is wanted.
pub const NOT_SUPPORTED: u32 = 95;
