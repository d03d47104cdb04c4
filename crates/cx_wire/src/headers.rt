//! The header of a message, and the segments behind its body.

ghost use Rattle.std.specs.Prelude.{◌≡◌, ◌++◌, ◌↔◌, [], IsOk, IfErr, OnOk};
ghost use Rattle.cx_control.specs.Calls.{IsWholePutBy};
ghost use Rattle.cx_control.specs.declared.refusals.WireRefusal.TheVariants.{Malformed};
ghost use Rattle.cx_wire.specs.Headers.{header_layout, kept_header, written_header, rest_layout, written_rest, Fields};

use cx_base::Blob;
use cx_control::{WireRefusal, WritesWhole, put_payload_whole};
use cx_enc::{Cut, ReadRefusal, ReadsPart, put_u16, put_u64};
use std::alloc::{AllocError, Global};

/// The type of a message by which a request goes to the monitor.
pub const REQUEST: u16 = 17;

/// The type of a message by which the monitor replies.
pub const REPLY: u16 = 18;

/// The type of a message by which an operation goes to a daemon.
pub const OPERATION: u16 = 42;

/// The type of a message by which a daemon answers.
pub const ANSWER: u16 = 43;

/// The header of a message, 41 bytes, the first segment of a MESSAGE frame: its seq, the id of the transaction that it belongs to,
/// and its type. The other fields are written as priority 127, versions 1 and else 0, and any are read and not kept.
#[derive(Clone, Copy, PartialEq, Eq)]
pub struct Header {
    pub seq: u64,
    pub tid: u64,
    pub type_: u16,
}

impl ReadsPart for Header {
    ghost Whole = { Fields };

    ghost whole = { header_layout };

    ghost kept = { kept_header };

    fn read_part(_alloc: Global, cut: &mut Cut<'_>) -> Result<Header, ReadRefusal> {
        let seq = cut.take_u64()?;
        let tid = cut.take_u64()?;
        let type_ = cut.take_u16()?;
        let _priority = cut.take_u16()?;
        let _version = cut.take_u16()?;
        let _data_pre_padding_len = cut.take_u32()?;
        let _data_off = cut.take_u16()?;
        let _ack_seq = cut.take_u64()?;
        let _flags = cut.take_u8()?;
        let _compat_version = cut.take_u16()?;
        let _reserved = cut.take_u16()?;
        Ok(Header { seq, tid, type_ })
    }
}

impl WritesWhole for Header {
    ghost Written = { Fields };

    ghost whole = { header_layout };

    ghost written = { written_header };

    ghost kept = { kept_header };

    fn write_whole(&self, alloc: Global, into: &mut Blob) -> Result<(), AllocError> {
        put_u64(alloc, into, self.seq)?;
        put_u64(alloc, into, self.tid)?;
        put_u16(alloc, into, self.type_)?;
        put_rest(alloc, into)
    }
}

// What is written behind the type: priority 127, both versions 1, and else 0.
#[tactic(auto, unfolding(cx_enc::specs::Forms::little))]
fn put_rest(alloc: Global, into: &mut Blob) -> Result<(), AllocError>
    ensures ok { OnOk result (into.new ≡ into.old ++ rest_layout.form.text written_rest) }
    ensures fits { OnOk result (rest_layout.form.Fits written_rest) }
{
    into.append(
        alloc,
        &[
            127, 0, 1, 0, 0, 0, 0, 0, 0, 0, 0, 0, 0, 0, 0, 0, 0, 0, 0, 1, 0, 0, 0,
        ],
    )
}

/// Writes the header of a message behind some bytes.
pub fn put_header(alloc: Global, into: &mut Blob, value: &Header) -> Result<(), AllocError>
    ensures { IsWholePutBy header_layout.form kept_header (written_header value.now) value.now into.old into.new result }
{
    put_payload_whole(alloc, into, value)
}

/// Takes the third or the fourth segment of a message, which has to be empty where it stands. What stands in it is left over
/// behind the 41 bytes of the header.
pub fn take_empty(segment: &[u8]) -> Result<(), WireRefusal>
    ensures empty { IsOk result ↔ (segment.now ≡ []) }
    ensures place { IfErr result (λ e. e ≡ Malformed 41) }
{
    if segment.is_empty() {
        return Ok(());
    }
    Err(WireRefusal::Malformed(41))
}
