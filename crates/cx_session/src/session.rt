//! A live session.

/// What a book keeps of a live session.
#[derive(Drop)]
pub struct Session<O> {
    /// Which session it is. Numbers begin with 1 and rise.
    pub number: u64,
    /// 1 when it was admitted, and one more with each resumption.
    pub epoch: u64,
    /// Whose session it is.
    pub owner: O,
    /// The cookie that the client chose.
    pub client_cookie: u64,
    /// The cookie that the daemon chose.
    pub server_cookie: u64,
    /// The client's count of its connections, at the last admission or resumption.
    pub global_seq: u64,
    /// The client's count of its reconnections of this session, at the last resumption; 0 before the first.
    pub connect_seq: u64,
    /// The sequence number of the last message taken; 0 before the first.
    pub last: u64,
    /// Whether it ends with its link.
    pub lossy: bool,
}
