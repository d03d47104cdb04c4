//! The views of a daemon's generations, which one writer renews and many readers look at. A look waits for nobody.
#![tactic(auto)]

mod laws;
mod looks;
mod reader;
mod refusals;
mod rule;
mod sharing;
#[cfg(test)]
mod tests;
mod writer;

pub use laws::sharing_laws;
pub use looks::Look;
pub use reader::SecretsReader;
pub use refusals::RenewRefusal;
pub use sharing::share;
pub use writer::{SecretsWriter, Told};

// Each public type may be sent to another thread, and each but the writer may be seen by several.
fn is_sendable<T: Send>() {}

fn is_shareable<T: Send + Sync>() {}

fn all_are_sendable() {
    is_sendable::<SecretsWriter>();
    is_shareable::<SecretsReader>();
    is_shareable::<Told>();
    is_shareable::<Look>();
    is_shareable::<RenewRefusal>();
}
