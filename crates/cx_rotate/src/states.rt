//! What the monitor keeps.

use crate::generations::Generations;

/// What the monitor keeps over its restarts: the global id that the next entity gets, the lives of secrets and tickets in
/// nanoseconds, and the generations of each service's rotating secret. AUTH is the monitor's own service, with a life of its
/// own.
#[derive(Clone, Copy, Debug, PartialEq, Eq)]
pub struct KeptState {
    /// From 1 on.
    pub next_gid: u64,
    /// 1 s to 31,536,000 s, for MDS, OSD and MGR.
    pub life: u64,
    /// 1 s to 31,536,000 s, for AUTH.
    pub auth_life: u64,
    pub mds: Generations,
    pub osd: Generations,
    pub mgr: Generations,
    pub auth: Generations,
}
