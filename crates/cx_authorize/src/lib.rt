//! Both sides of the authorizer, which a client shows to a daemon: an `Authorized` is one whose ticket opened and was live, and
//! that answered the daemon's own challenge.
#![tactic(auto)]

mod authorized;
mod client;
mod daemon;
mod judging;
mod laws;
mod opening;
mod refusals;
mod sealing;

pub use authorized::Authorized;
pub use client::{Agreed, Answering, Presenting};
pub use cx_rotate::View;
pub use daemon::{Awaiting, First, FirstPassed, SecondPassed};
pub use judging::Shown;
pub use laws::authorizer_laws;
pub use refusals::{AuthFault, AuthRefusal, PresentRefusal};

// Each public type may be sent to another thread and shared with one.
fn is_sendable<T: Send + Sync>() {}

fn all_are_sendable() {
    is_sendable::<Presenting>();
    is_sendable::<Answering>();
    is_sendable::<Agreed>();
    is_sendable::<First>();
    is_sendable::<Awaiting>();
    is_sendable::<Authorized>();
    is_sendable::<Shown>();
    is_sendable::<FirstPassed>();
    is_sendable::<SecondPassed>();
    is_sendable::<AuthFault>();
    is_sendable::<AuthRefusal>();
    is_sendable::<PresentRefusal>();
}
