//! What comes to a node behind its own step.

ghost use Rattle.std.specs.Prelude.{◌≡◌};
ghost use Rattle.cx_client.specs.Machine.{IsWritableInput};
ghost use Rattle.cx_drive.specs.Steps.{input_due};
ghost use Rattle.cx_client.specs.cx_rules_session.specs.cx_rules.specs.Inputs.{input_of};

use cx_steps::{Event, Peer};

/// What comes to a node since one of its steps opened a link or sent on one.
#[derive(Debug, PartialEq, Eq, Drop)]
pub enum Due {
    /// A link to the peer is there.
    Opened(u32, Peer),
    /// No link to the peer could be opened.
    NoLink(Peer),
    /// A send on the link failed.
    Gone(u32),
}

impl Due {
    /// The event as which it comes.
    pub(crate) fn event(self) -> Event<'static>
        ensures input { input_of result ≡ input_due self }
        ensures writable { IsWritableInput (input_of result) }
    {
        match self {
            Due::Opened(number, peer) => Event::Opened(number, Some(peer)),
            Due::NoLink(peer) => Event::NoLink(peer),
            Due::Gone(number) => Event::Gone(number),
        }
    }
}
