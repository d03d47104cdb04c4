//! Signatures, by which both ends agree on all that came before.

ghost use Rattle.std.specs.Prelude.{◌≡◌, [], ◌∷◌, ◌++◌, IfOk, OnOk, take};
ghost use Rattle.cx_control.specs.Auth.{auth_signature_layout};
ghost use Rattle.cx_digest.specs.Code.{hmac};
ghost use Rattle.cx_link.specs.Checking.{IsChecked};
ghost use Rattle.cx_link.specs.Sending.{Finishes, IsControl, Sends, Signs};
ghost use Rattle.cx_link.specs.Turning.{SigningTurns};
ghost use Rattle.cx_link.specs.Wires.{ahead_in, keys_of_side};
ghost use Rattle.cx_rules.specs.Acceptor.{joined};
ghost use Rattle.cx_rules.specs.Payloads.{control};
ghost use Rattle.cx_rules.specs.Secured.{acceptor_keys, connector_keys, plain_frame, signature, signed_frame};

use crate::links::{Checked, Finished, PlainLink, SecureLink, SentFrame, Signing};
use crate::refusals::LinkRefusal;
use crate::sending::plain_bytes;
use crate::tag;
use crate::turns::LinkTurn;
use cx_base::{Blob, Items};
use cx_control::{AuthSignature, put_auth_signature};
use cx_digest::{SigningKey, mac};
use cx_frame::{Frame, Segment};
use cx_journal::KeyKind;
use cx_steps::{SealEntry, SealMark};
use std::alloc::{AllocError, Global};

impl SecureLink {
    /// Seals AUTH_SIGNATURE, which covers these bytes that were received, under the session key. That it is signed is logged first.
    pub fn sign(
        self,
        alloc: Global,
        session: &[u8; 16],
        received: &[u8],
    ) -> Result<SentFrame, LinkRefusal>
        ensures { Sends self.ahead result (signed_frame self.keys session.now received.now) }
    {
        let frame = signature_frame(alloc, &mac(session, received))?;
        let signed = signed(alloc, session, received)?;
        self.put_behind(alloc, &frame, signed)
    }
}

impl PlainLink {
    /// Finishes authentication as the acceptor, by AUTH_DONE and AUTH_SIGNATURE, under the session key and the secret of the connection.
    pub fn finish(
        mut self,
        alloc: Global,
        session: &[u8; 16],
        secret: &[u8; 64],
        done: &Frame,
    ) -> Result<Finished, LinkRefusal>
        requires { IsControl done.now }
        ensures { Finishes (ahead_in self) result
            (joined session.now self.sent (plain_frame done.now) (signed_frame (acceptor_keys secret.now) session.now (take self.taken self.received))) }
    {
        let bytes = plain_bytes(alloc, done)?;
        self.send(alloc, bytes.bytes())?;
        let Finished {
            bytes: signature,
            seals,
            signing,
        } = self.signed(alloc, session, secret, false)?;
        let bytes = appended(alloc, bytes.bytes(), signature.bytes())?;
        Ok(Finished {
            bytes,
            seals,
            signing,
        })
    }

    /// Answers AUTH_DONE as the connector, by AUTH_SIGNATURE, under the session key and the secret of the connection.
    pub fn sign(
        self,
        alloc: Global,
        session: &[u8; 16],
        secret: &[u8; 64],
    ) -> Result<Finished, LinkRefusal>
        ensures { Signs session.now self.sent (ahead_in self) result
            (signed_frame (connector_keys secret.now) session.now (take self.taken self.received)) }
    {
        self.signed(alloc, session, secret, true)
    }

    // AUTH_SIGNATURE of a side.
    fn signed(
        self,
        alloc: Global,
        session: &[u8; 16],
        secret: &[u8; 64],
        connector: bool,
    ) -> Result<Finished, LinkRefusal>
        ensures { Signs session.now self.sent (ahead_in self) result
            (signed_frame (keys_of_side connector secret.now) session.now (take self.taken self.received)) }
    {
        let key = SigningKey::new(alloc, session)?;
        let frame = signature_frame(alloc, &key.code(self.taken()))?;
        let signed = signed(alloc, session, self.taken())?;
        let (link, covered) = self.secured(alloc, secret, connector)?;
        let SentFrame { link, bytes, seals } = link.put_behind(alloc, &frame, signed)?;
        let signing = Signing {
            link,
            session: key,
            covered,
        };
        Ok(Finished {
            bytes,
            seals,
            signing,
        })
    }
}

impl Signing {
    /// Takes the next frame, where it is all there, as its link does. What the signature has to cover stays.
    pub fn turn(
        self,
        alloc: Global,
        seals: &mut Items<SealEntry>,
    ) -> Result<LinkTurn<Signing>, AllocError>
        ensures { IfOk result (SigningTurns self seals.old seals.new) }
    {
        let Signing {
            link,
            session,
            covered,
        } = self;
        match link.turn(alloc, seals)? {
            LinkTurn::Waits(link) => Ok(LinkTurn::Waits(Signing {
                link,
                session,
                covered,
            })),
            LinkTurn::Takes(link, frame) => {
                let signing = Signing {
                    link,
                    session,
                    covered,
                };
                Ok(LinkTurn::Takes(signing, frame))
            }
            LinkTurn::Refuses(why) => Ok(LinkTurn::Refuses(why)),
        }
    }

    /// Goes on exactly where this is the signature over what was sent to the peer. It wants no memory.
    pub fn check(self, signature: &[u8; 32]) -> Option<Checked>
        ensures { IsChecked self signature.now result }
    {
        let Signing {
            link,
            session,
            covered,
        } = self;
        if *signature != session.code(covered.bytes()) {
            return None;
        }
        let entry = SealEntry::Checked(SealMark {
            key: session.bytes(),
            kind: KeyKind::Signature,
            content: covered,
        });
        Some(Checked { link, entry })
    }
}

// Bytes and those behind them, with no more room than they need.
fn appended(alloc: Global, first: &[u8], second: &[u8]) -> Result<Blob, AllocError>
    ensures { IfOk result (λ bytes. bytes ≡ first.now ++ second.now) }
{
    let room = first.len().saturating_add(second.len());
    let mut bytes = Blob::with_room(alloc, room)?;
    bytes.append_both(alloc, first, second)?;
    Ok(bytes)
}

// AUTH_SIGNATURE with this code.
fn signature_frame(alloc: Global, code: &[u8; 32]) -> Result<Frame, AllocError>
    ensures value { IfOk result (λ f. f ≡ control 7 auth_signature_layout.form (record { signature = code.now })) }
    ensures control { IfOk result (λ f. IsControl f) }
{
    let mut bytes = Blob::new(alloc);
    put_auth_signature(alloc, &mut bytes, &AuthSignature { signature: *code })?;
    let mut segments = Items::new(alloc);
    segments.push(alloc, Segment { align: 8, bytes })?;
    Ok(Frame {
        tag: tag::AUTH_SIGNATURE,
        segments,
    })
}

// That these bytes are signed, as an entry of the log.
fn signed(
    alloc: Global,
    session: &[u8; 16],
    received: &[u8],
) -> Result<Items<SealEntry>, AllocError>
    ensures { IfOk result (λ entries. entries ≡ signature session.now received.now ∷ []) }
{
    let content = Blob::of(alloc, received)?;
    let mark = SealMark {
        key: *session,
        kind: KeyKind::Signature,
        content,
    };
    let mut entries = Items::new(alloc);
    entries.push(alloc, SealEntry::Signed(mark))?;
    Ok(entries)
}
