//! Why a view was not published.

use std::alloc::AllocError;
use thiserror::Error;

/// Why a view was not published.
#[derive(Clone, Copy, Debug, PartialEq, Eq, Error)]
pub enum RenewRefusal {
    /// As many renewals were published as a look can count.
    #[error("no renewal can be counted any more")]
    Spent,
    /// Memory was wanting.
    #[error("out of memory")]
    OutOfMemory,
}
