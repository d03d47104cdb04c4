//! The stages of a link, each a type of its own: a machine holds one of them by its own stage, and takes it out to go on.

use cx_base::{Blob, Items};
use cx_digest::SigningKey;
use cx_rules::{Greeting, Plain, SealedAhead, Secure};
use cx_steps::SealEntry;
use std::marker::Model;

/// A link whose peer's banner isn't all there yet. It keeps all bytes that were sent, which a signature will have to cover.
#[derive(Drop)]
pub struct BannerLink {
    pub(crate) stream: Greeting,
    pub(crate) sent: Blob,
}

impl Model for BannerLink {
    ghost use Rattle.cx_link.specs.Wires.{Wire};

    ghost Value = { Wire };

    ghost view = { λ l. record { received = l.stream; taken = 0; sent = l.sent } };
}

/// A link of plain frames. It keeps all bytes both ways, over which signatures are made.
#[derive(Drop)]
pub struct PlainLink {
    pub(crate) stream: Plain,
    pub(crate) sent: Blob,
}

impl Model for PlainLink {
    ghost use Rattle.cx_link.specs.Wires.{Wire, plain_wire};

    ghost Value = { Wire };

    ghost view = { λ l. plain_wire l.stream l.sent };
}

/// A link of secure frames. It gives up the bytes that it took and those that it sent. It has no copy, so that no two send under one nonce: a frame
/// that isn't certain to be sent is sealed ahead, and the link goes on behind it once it is (`seal_ahead`, `commit`).
#[derive(Drop)]
pub struct SecureLink {
    /// The key of the connection, under which parts are logged.
    pub(crate) key: [u8; 16],
    /// It is boxed: a link goes by value from call to call, and a stream has a ready key of 2,400 bytes.
    pub(crate) stream: Box<Secure>,
}

impl Model for SecureLink {
    ghost use Rattle.cx_link.specs.Wires.{IsLive, SecureWire, secure_wire};

    ghost Value = { SecureWire };

    ghost view = { λ l. secure_wire l.stream.value };

    ghost invariant = { λ l. IsLive l.key l.stream.value };
}

/// A link that awaits the peer's AUTH_SIGNATURE: the session key that signs, and what was sent before one's own AUTH_SIGNATURE, which
/// the peer's has to cover.
#[derive(Drop)]
pub struct Signing {
    pub link: SecureLink,
    pub session: SigningKey,
    pub covered: Blob,
}

/// A link behind the peer's AUTH_SIGNATURE, and that this was found right, as an entry of the log.
#[derive(Drop)]
pub struct Checked {
    pub link: SecureLink,
    pub entry: SealEntry,
}

/// A secure frame as it was sealed: the link behind it, its bytes, and what is logged of it.
#[derive(Drop)]
pub struct SentFrame {
    pub link: SecureLink,
    pub bytes: Blob,
    pub seals: Items<SealEntry>,
}

/// A secure frame as it was sealed ahead: by what its link goes on behind it, its bytes, and what is logged of it.
#[derive(Drop)]
pub struct AheadFrame {
    pub ahead: SealedAhead,
    pub bytes: Blob,
    pub seals: Items<SealEntry>,
}

/// A link behind authentication: the bytes that finish it, what is logged of them, and the link that awaits the peer's signature.
#[derive(Drop)]
pub struct Finished {
    pub bytes: Blob,
    pub seals: Items<SealEntry>,
    pub signing: Signing,
}
