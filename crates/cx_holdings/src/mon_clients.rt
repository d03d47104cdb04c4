//! One that logs in, and what it writes of itself.

ghost use Rattle.std.specs.Prelude.{◌≡◌, ◌≤◌, ◌<◌, ◌^◌, length, IfOk};
ghost use Rattle.cx_control.specs.Auth.{auth_request_layout};
ghost use Rattle.cx_control.specs.Idents.{client_ident_layout};
ghost use Rattle.cx_holdings.specs.Steps.{IsAnswerTo, IsOpenedBy};
ghost use Rattle.cx_rules.specs.Connector.{client_ident, login_request};
ghost use Rattle.cx_rules.specs.Holdings.{no_view};
ghost use Rattle.cx_rules.specs.Payloads.{control, whole};
ghost use Rattle.cx_wire.specs.Logins.{login_done_layout, server_challenge_layout};

use crate::answers::Answer;
use crate::offers::OfferedModes;
use crate::pending::{Login, Renewed};
use crate::steps::{answered, login_hello, opened};
use crate::tickets::Holdings;
use cx_base::{Addr, Duplicate, EntityName, Items, NodeName, Reading};
use cx_control::{AuthRequest, ClientIdent};
use cx_enc::Key;
use cx_journal::BytesFault;
use cx_rotate::{Generations, View};
use cx_rules::{Asking, LoggedIn};
use cx_steps::SealEntry;
use std::alloc::{AllocError, Global};
use std::marker::Model;

// An address of which nothing is said.
const NO_ADDR: Addr = Addr {
    nonce: 0,
    ip: [0; 4],
    port: 0,
};

/// One that logs in: its name and its key, its address, the modes that it offers, its count of connections to daemons, what it holds,
/// and, where it is a daemon, the generations that it was told last.
#[derive(Drop)]
pub struct MonClient {
    name: EntityName,
    key: Key,
    address: Addr,
    modes: OfferedModes,
    global_seq: u64,
    holdings: Holdings,
    view: View,
}

// Nothing was told yet.
fn no_view() -> View
    ensures { result ≡ no_view }
{
    View {
        generations: Generations::empty(),
        asked: None,
    }
}

impl Model for MonClient {
    ghost use Rattle.cx_rules.specs.Holdings as rules;

    ghost Value = { rules.MonClient };

    ghost view = { λ a. record {
      name = a.name;
      secret = a.key.secret;
      address = a.address;
      modes = rules.modes_of a.modes.crc a.modes.secure;
      global_seq = a.global_seq;
      holdings = a.holdings;
      view = a.view;
    } };
}

impl MonClient {
    ghost use Rattle.cx_base.specs.declared.nodes.NodeName.TheVariants as node;
    ghost use Rattle.cx_rules.specs.Holdings.{afresh, held_login, holds_nothing, modes_of, no_view, put_tickets, unexpired};

    /// One that holds nothing yet.
    pub fn new(name: EntityName, key: Key, address: Addr, modes: OfferedModes) -> MonClient
        ensures { result ≡ record {
          name = name;
          secret = key.secret;
          address = address;
          modes = modes_of modes.crc modes.secure;
          global_seq = 0;
          holdings = holds_nothing;
          view = no_view;
        } }
    {
        MonClient {
            name,
            key,
            address,
            modes,
            global_seq: 0,
            holdings: Holdings::new(),
            view: no_view(),
        }
    }

    /// Who it is.
    pub fn name(&self) -> &EntityName
        ensures { result.now ≡ self.now.name }
    {
        &self.name
    }

    /// Who it is, as a node.
    pub fn node_name(&self, alloc: Global) -> Result<NodeName, AllocError>
        ensures { IfOk result (λ me. me ≡ node.Entity self.now.name) }
    {
        let name = self.name.copy(alloc)?;
        Ok(NodeName::Entity(name))
    }

    /// Its own secret.
    pub fn secret(&self) -> [u8; 16]
        ensures { result ≡ self.now.secret }
    {
        self.key.secret
    }

    /// Its own address.
    pub fn address(&self) -> Addr
        ensures { result ≡ self.now.address }
    {
        self.address
    }

    /// The numbers of the modes that it offers.
    pub fn modes(&self, alloc: Global) -> Result<Items<u32>, AllocError>
        ensures modes { IfOk result (λ modes. modes ≡ self.now.modes) }
        ensures few { IfOk result (λ modes. length modes ≤ 16) }
    {
        self.modes.numbers(alloc)
    }

    /// Its count of connections to daemons.
    pub fn global_seq(&self) -> u64
        ensures { result ≡ self.now.global_seq }
    {
        self.global_seq
    }

    /// From now on this is its count of connections to daemons.
    pub fn put_global_seq(&mut self, count: u64)
        ensures { self.new ≡ record self.old { global_seq = count } }
    {
        self.global_seq = count;
    }

    /// The global id and the tickets that it holds.
    pub fn holdings(&self) -> &Holdings
        ensures { result.now ≡ self.now.holdings }
    {
        &self.holdings
    }

    /// The generations that it was told last, and the reading at which it asked for them.
    pub fn view(&self) -> View
        ensures { result ≡ self.now.view }
    {
        self.view
    }

    /// Begins anew: nothing is held, nothing was told, and connections are counted from 0.
    pub fn begin_anew(&mut self)
        ensures { self.new ≡ afresh self.old }
    {
        self.global_seq = 0;
        self.holdings.forget();
        self.view = no_view();
    }

    /// Holds a login.
    pub fn hold(&mut self, login: Login)
        ensures { self.new ≡ record self.old { holdings = held_login self.old.holdings login.gid login.opened } }
    {
        self.holdings.hold(login);
    }

    /// Holds tickets that were told later.
    pub fn renew(&mut self, renewed: Renewed)
        ensures { self.new ≡ record self.old { holdings = put_tickets self.old.holdings renewed } }
    {
        self.holdings.renew(renewed);
    }

    /// From now on these generations are what it was told last.
    pub fn put_view(&mut self, view: View)
        ensures { self.new ≡ record self.old { view = view } }
    {
        self.view = view;
    }

    /// Forgets its global id and all tickets.
    pub fn forget(&mut self)
        ensures { self.new ≡ record self.old { holdings = holds_nothing } }
    {
        self.holdings.forget();
    }

    /// The payload of AUTH_REQUEST with its LoginHello.
    pub fn login_request(&self, alloc: Global) -> Result<AuthRequest, AllocError>
        ensures request { IfOk result (λ request. control 2 auth_request_layout.form request ≡ login_request self.now) }
        ensures modes { IfOk result (λ request. length request.modes ≤ 16) }
        ensures payload { IfOk result (λ request. length request.payload < 2 ^ 32) }
    {
        let modes = self.modes.numbers(alloc)?;
        let payload = login_hello(alloc, &self.name, self.holdings.hello_gid())?;
        Ok(AuthRequest {
            method: 2,
            modes,
            payload,
        })
    }

    /// Answers the ServerChallenge of this payload by an Authenticate with a challenge of one's own, or says why the payload holds none. It
    /// shows the ticket for AUTH where that expires after the reading; `asked` is the sum of the services for which tickets are asked.
    pub fn answered(
        &self,
        alloc: Global,
        payload: &[u8],
        asked: u32,
        reading: Reading,
        challenge: u64,
    ) -> Result<Result<Answer, BytesFault>, AllocError>
        ensures { IfOk result (IsAnswerTo (record { secret = self.now.secret; old = unexpired reading self.now.holdings.auth; other_keys = asked })
            challenge (whole server_challenge_layout.form payload.now)) }
    {
        let old = self.holdings.shown(alloc, reading)?;
        answered(alloc, Asking::new(self.key, old, asked), payload, challenge)
    }

    /// Opens the LoginDone of this payload, or says why the payload holds none. There is no login where a part opens to no spelling of its
    /// record. What opened is appended to the log.
    pub fn opened(
        &self,
        alloc: Global,
        payload: &[u8],
        seals: &mut Items<SealEntry>,
    ) -> Result<Result<Option<LoggedIn>, BytesFault>, AllocError>
        ensures { IfOk result (IsOpenedBy self.now.secret (whole login_done_layout.form payload.now) seals.old seals.new) }
    {
        opened(alloc, &self.key.secret, payload, seals)
    }

    /// The payload of CLIENT_IDENT under a global id, with flags (1 for a lossy session) and a cookie.
    pub fn client_ident(&self, gid: u64, flags: u64, cookie: u64) -> ClientIdent
        ensures { control 8 client_ident_layout.form result ≡ client_ident self.now gid flags cookie }
    {
        ClientIdent {
            addr: self.address,
            target: NO_ADDR,
            gid,
            global_seq: self.global_seq,
            supported: 0,
            required: 0,
            flags,
            cookie,
        }
    }
}
