//! What is kept of an open link to the monitor.

ghost use Rattle.std.specs.Prelude.{◌≡◌};
ghost use Rattle.cx_rules.specs.Requests.{is_rotating};

use cx_base::Duplicate;
use cx_rules::{Waiting, Want};
use std::alloc::{AllocError, Global};
use std::marker::Model;

/// What is kept of an open link to the monitor: the session key of the ticket for AUTH of its login; how many requests were sent on it; and
/// those that wait for their replies, the oldest first.
#[derive(Drop)]
pub struct Requests {
    session: [u8; 16],
    count: u64,
    waiting: Vec<Waiting>,
}

impl Model for Requests {
    ghost use Rattle.cx_rules.specs.Requests as rules;

    ghost Value = { rules.Requests };

    ghost view = { λ r. record { session = r.session; count = r.count; waiting = r.waiting.items } };
}

impl Requests {
    ghost use Rattle.std.specs.Prelude.{◌≡◌, ◌<◌, ◌-◌, ◌^◌, OnOk, OnErr};
    ghost use Rattle.cx_rules.specs.Requests.{behind_reply, behind_request, carries_fetch, is_waiting, no_requests};

    /// Of a link that has just opened.
    pub fn new(alloc: Global, session: [u8; 16]) -> Requests
        ensures { result ≡ no_requests session }
    {
        Requests {
            session,
            count: 0,
            waiting: Vec::new(alloc),
        }
    }

    /// The session key of the ticket for AUTH.
    pub fn session(&self) -> [u8; 16]
        ensures { result ≡ self.now.session }
    {
        self.session
    }

    /// How many requests were sent.
    pub fn count(&self) -> u64
        ensures { result ≡ self.now.count }
    {
        self.count
    }

    /// Those that wait, the oldest first.
    pub fn waiting(&self) -> &[Waiting]
        ensures { result.now ≡ self.now.waiting }
    {
        self.waiting.as_slice()
    }

    /// Whether one waits.
    pub fn is_waiting(&self) -> bool
        ensures { result ≡ is_waiting self.now }
    {
        self.waiting.len() > 0
    }

    /// Whether one for generations waits: then a fetch is under way.
    pub fn carries_fetch(&self) -> bool
        ensures { result ≡ carries_fetch self.now }
    {
        self.waiting
            .iter()
            .any(|waiting| is_rotating(&waiting.want))
    }

    /// Notes a request that is sent.
    pub fn note(&mut self, _alloc: Global, want: Want) -> Result<(), AllocError>
        requires { self.old.count < 2 ^ 64 - 1 }
        ensures ok { OnOk result (self.new ≡ behind_request self.old want) }
        ensures err { OnErr result (self.new ≡ self.old) }
    {
        let number = self.count + 1;
        self.waiting.push(Waiting { tid: number, want })?;
        self.count = number;
        Ok(())
    }

    /// Gives up the oldest that waits, since its reply was taken. It wants no memory.
    pub fn answered(&mut self)
        ensures { self.new ≡ behind_reply self.old }
    {
        if self.waiting.len() > 0 {
            self.waiting.remove(0);
        }
    }
}

impl Duplicate for Requests {
    fn copy(&self, alloc: Global) -> Result<Requests, AllocError> {
        let mut waiting = Vec::new(alloc);
        waiting.extend_from_slice(self.waiting.as_slice())?;
        Ok(Requests {
            session: self.session,
            count: self.count,
            waiting,
        })
    }
}

// Whether generations are asked for.
fn is_rotating(want: &Want) -> bool
    ensures { result ≡ is_rotating want.now }
{
    match want {
        Want::Tickets => false,
        Want::Rotating(_) => true,
    }
}
