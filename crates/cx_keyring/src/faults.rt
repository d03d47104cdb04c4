//! What is wrong with a line.

use std::fmt;

/// What is wrong with a line of a keyring: the first of this list that is.
#[derive(Clone, Copy, Debug, PartialEq, Eq)]
pub enum KeyringFault {
    /// It stands before the first section.
    NoSection,
    /// It begins a section, and what stands in its brackets is no entity's name.
    BadName,
    /// Behind `key =` stands no key in base64.
    BadKey,
    /// Behind `caps` stands none of mon, mds, osd and mgr.
    BadService,
    /// Behind `caps SERVICE =` stands no capability text.
    BadCaps,
    /// It is a second section of the name, or a second key or service of its section.
    Repeated,
    /// It begins a section that has no key.
    NoKey,
    /// It is no line of a keyring.
    Unreadable,
}

/// A part of a sentence: what is wrong, and what to write instead.
impl fmt::Display for KeyringFault {
    ghost use Rattle.std.specs.Prelude.{Some};
    ghost use Rattle.cx_keyring.specs.Sentences.{fault_text};

    ghost output = { λ fault. Some (fault_text fault) };

    fn fmt<W: fmt::Write>(&self, f: &mut fmt::Formatter<W>) -> fmt::Result {
        match self {
            KeyringFault::NoSection => write!(
                f,
                "it stands before the first section; begin with a line such as [client.admin]"
            ),
            KeyringFault::BadName => write!(
                f,
                "what stands in the brackets is no entity's name; write one such as client.admin or osd.0"
            ),
            KeyringFault::BadKey => write!(
                f,
                "behind key = stands no key; write the 40 characters that ceph-authtool --gen-print-key prints"
            ),
            KeyringFault::BadService => write!(
                f,
                "behind caps stands no service; write mon, mds, osd or mgr"
            ),
            KeyringFault::BadCaps => write!(
                f,
                "behind caps SERVICE = stands no capability text; write at most 4096 bytes from 0x20 to 0x7e, in \
                quotation marks or plain, with no quotation mark or backslash among them"
            ),
            KeyringFault::Repeated => write!(
                f,
                "it stands already; write a section once for each name, and in it one key and one line of caps for \
                each service"
            ),
            KeyringFault::NoKey => write!(
                f,
                "the section has no key; write a line key = TEXT below it"
            ),
            KeyringFault::Unreadable => write!(
                f,
                "it is no line of a keyring; write [NAME], key = TEXT or caps SERVICE = \"TEXT\", or # before a comment"
            ),
        }
    }
}
