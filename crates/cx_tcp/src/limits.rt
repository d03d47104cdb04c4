//! What the system lets a process have.

ghost use Rattle.std.specs.Prelude.{◌≡◌, ◌≤◌, min};
ghost use Rattle.cx_tcp.specs.Limits.{places_within, others_write};

use libc::types::rlimit;

/// How many links there may be at a time.
pub const MOST: usize = 2_048;

// How many of the files that the process may open are left for what is no link: the standard streams, the folder, the file that is
// saved, the poll, the listener, and what was open when the program began.
const OTHERS: u64 = 32;

/// How many files this process may open (`ulimit -n`). Where the system doesn't tell, there is no bound.
pub fn most_files() -> u64 {
    let mut limit = rlimit {
        rlim_cur: u64::MAX,
        rlim_max: u64::MAX,
    };
    if libc::getrlimit(libc::RLIMIT_NOFILE, &mut limit) == 0 {
        limit.rlim_cur
    } else {
        u64::MAX
    }
}

/// How many links may stand where the process may open so many files.
pub fn places_within(files: u64) -> usize
    ensures { result ≡ places_within files }
{
    let left = files.saturating_sub(OTHERS);
    if left < 2_048 { left as usize } else { MOST }
}

/// Whether these rights of a file or a folder let others than its owner write it.
pub fn others_write(mode: u32) -> bool
    ensures { result ≡ others_write mode }
{
    mode / 0o20 % 2 == 1 || mode / 0o2 % 2 == 1
}
