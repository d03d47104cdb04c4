//! What a step gave, as it is printed.

ghost use Rattle.std.specs.Prelude.{IfSome};
ghost use Rattle.cx_rotate.specs.Keeping.{IsKeptState};

use cx_keep::encode_state;
use cx_rotate::BoxedState;
use cx_steps::{DrawMark, Effects, Peer, SealEntry, SealMark};
use std::alloc::{AllocError, Global};
use std::fmt;
use std::fmt::Write;

/// Bytes in hexadecimal.
#[derive(Clone, Copy)]
pub struct Hex<'a>(pub &'a [u8]);

impl fmt::Display for Hex<'_> {
    fn fmt<W: fmt::Write>(&self, f: &mut fmt::Formatter<W>) -> fmt::Result {
        for byte in self.0 {
            write!(f, "{byte:02x}")?;
        }
        Ok(())
    }
}

/// ASCII text.
#[derive(Clone, Copy)]
pub struct Ascii<'a>(pub &'a [u8]);

impl fmt::Display for Ascii<'_> {
    fn fmt<W: fmt::Write>(&self, f: &mut fmt::Formatter<W>) -> fmt::Result {
        for byte in self.0 {
            let letter = *byte as char;
            write!(f, "{letter}")?;
        }
        Ok(())
    }
}

/// Prints what was drawn, sealed, opened, signed and found equal.
pub fn put_seals(told: &mut String, out: &Effects) -> Result<(), AllocError> {
    for entry in out.seals.all() {
        match entry {
            SealEntry::Sealed(mark) => put_mark(told, "sealed", mark)?,
            SealEntry::Opened(mark) => put_mark(told, "opened", mark)?,
            SealEntry::Signed(mark) => put_mark(told, "signed", mark)?,
            SealEntry::Checked(mark) => put_mark(told, "checked", mark)?,
            SealEntry::Drawn(mark) => put_draw(told, mark)?,
        }
    }
    Ok(())
}

fn put_mark(told: &mut String, what: &str, mark: &SealMark) -> Result<(), AllocError> {
    let key = Hex(&mark.key);
    let content = Hex(mark.content.bytes());
    write!(told, "  {what} {} key {key} content {content}\n", mark.kind)
}

fn put_draw(told: &mut String, mark: &DrawMark) -> Result<(), AllocError> {
    match mark {
        DrawMark::Principal { secret, .. } => put_drawn(told, "principal", secret),
        DrawMark::Connection { secret, .. } => put_drawn(told, "connection", secret),
        DrawMark::Session { key, .. } => put_drawn(told, "session", key),
        DrawMark::Rotation(key) => put_drawn(told, "rotation", key),
        DrawMark::Challenge(number) => put_drawn(told, "challenge", &number.to_le_bytes()),
        DrawMark::Nonce(number) => put_drawn(told, "nonce", &number.to_le_bytes()),
        DrawMark::Cookie(number) => put_drawn(told, "cookie", &number.to_le_bytes()),
    }
}

fn put_drawn(told: &mut String, kind: &str, value: &[u8]) -> Result<(), AllocError> {
    write!(told, "  drawn {kind} {}\n", Hex(value))
}

/// Prints the state that is saved.
pub fn put_saved(
    alloc: Global,
    told: &mut String,
    save: &Option<BoxedState>,
) -> Result<(), AllocError>
    requires { IfSome save.now IsKeptState }
{
    match save {
        None => Ok(()),
        Some(state) => {
            let bytes = encode_state(alloc, state.state())?;
            let bytes = Hex(bytes.bytes());
            write!(told, "  save {bytes}\n")
        }
    }
}

/// Prints how many entries there are, what is sent, and which links are opened and shut.
pub fn put_effects(told: &mut String, out: &Effects) -> Result<(), AllocError> {
    let entries = out.entries.all().len();
    if entries > 0 {
        write!(told, "  entries {entries}\n")?;
    }
    for piece in out.sends.all() {
        let bytes = Hex(piece.bytes.bytes());
        write!(told, "  send {} {bytes}\n", piece.link)?;
    }
    for peer in out.opens.all() {
        put_peer(told, peer)?;
    }
    for link in out.shuts.all() {
        write!(told, "  shut {link}\n")?;
    }
    Ok(())
}

fn put_peer(told: &mut String, peer: &Peer) -> Result<(), AllocError> {
    match peer {
        Peer::Monitor => write!(told, "  open mon\n"),
        Peer::Daemon(name) => write!(told, "  open {name}\n"),
    }
}
