//! The peer's AUTH_SIGNATURE.

ghost use Rattle.cx_node.specs.steps.Signatures.{Checks};

use crate::steps_rows::NoRow;
use cx_control::AuthSignature;
use cx_journal::{BytesFault, LoginFault, Reason};
use cx_link::{Checked, Signing};

/// The peer's signature has to cover all that was sent before one's own: then the link goes on, and what was found right is to be logged.
pub fn checked(signing: Signing, read: Result<AuthSignature, BytesFault>) -> Result<Checked, NoRow>
    ensures { Checks signing read result }
{
    let found = read?;
    match signing.check(&found.signature) {
        Some(checked) => Ok(checked),
        None => Err(NoRow::Refused(Reason::Login(LoginFault::SignatureWrong))),
    }
}
