//! The frames by which a session begins.

ghost use Rattle.cx_control.specs.Calls.{IsReadBy, IsPutBy};
ghost use Rattle.cx_control.specs.Idents.{client_ident_layout, server_ident_layout, ident_missing_features_layout};

use crate::payloads::{put_payload, read_payload};
use crate::refusals::WireRefusal;
use cx_base::{Addr, Blob};
use cx_enc::{Cut, Encoded, ReadRefusal, put_addr, put_u32, put_u64};
use std::alloc::{AllocError, Global};

/// CLIENT_IDENT: who the client is, with its number of connections, the features that it has and asks for, and its cookie.
#[derive(Clone, Copy, PartialEq, Eq)]
pub struct ClientIdent {
    /// The client's own address.
    pub addr: Addr,
    /// The server's, as the client knows it.
    pub target: Addr,
    pub gid: u64,
    pub global_seq: u64,
    pub supported: u64,
    pub required: u64,
    /// Bit 0: the session is lossy.
    pub flags: u64,
    pub cookie: u64,
}

impl Encoded for ClientIdent {
    ghost layout = { client_ident_layout };

    fn read(_alloc: Global, cut: &mut Cut<'_>) -> Result<ClientIdent, ReadRefusal> {
        cut.take_fixed_u32(1)?;
        Ok(ClientIdent {
            addr: cut.take_addr()?,
            target: cut.take_addr()?,
            gid: cut.take_u64()?,
            global_seq: cut.take_u64()?,
            supported: cut.take_u64()?,
            required: cut.take_u64()?,
            flags: cut.take_u64()?,
            cookie: cut.take_u64()?,
        })
    }

    fn write(&self, alloc: Global, into: &mut Blob) -> Result<(), AllocError> {
        put_u32(alloc, into, 1)?;
        put_addr(alloc, into, &self.addr)?;
        put_addr(alloc, into, &self.target)?;
        put_u64(alloc, into, self.gid)?;
        put_u64(alloc, into, self.global_seq)?;
        put_u64(alloc, into, self.supported)?;
        put_u64(alloc, into, self.required)?;
        put_u64(alloc, into, self.flags)?;
        put_u64(alloc, into, self.cookie)?;
        Ok(())
    }
}

/// Reads the payload of CLIENT_IDENT.
pub fn read_client_ident(alloc: Global, bytes: &[u8]) -> Result<ClientIdent, WireRefusal>
    ensures { IsReadBy client_ident_layout.form bytes.now result }
{
    read_payload(alloc, bytes)
}

/// Writes the payload of CLIENT_IDENT behind some bytes.
pub fn put_client_ident(
    alloc: Global,
    into: &mut Blob,
    value: &ClientIdent,
) -> Result<(), AllocError>
    ensures { IsPutBy client_ident_layout.form value.now into.old into.new result }
{
    put_payload(alloc, into, value)
}

/// SERVER_IDENT: who the server is, with the features that it has and asks for, and its cookie.
#[derive(Clone, Copy, PartialEq, Eq)]
pub struct ServerIdent {
    /// The server's own address.
    pub addr: Addr,
    pub gid: u64,
    pub global_seq: u64,
    pub supported: u64,
    pub required: u64,
    /// Bit 0: the session is lossy.
    pub flags: u64,
    pub cookie: u64,
}

impl Encoded for ServerIdent {
    ghost layout = { server_ident_layout };

    fn read(_alloc: Global, cut: &mut Cut<'_>) -> Result<ServerIdent, ReadRefusal> {
        cut.take_fixed_u32(1)?;
        Ok(ServerIdent {
            addr: cut.take_addr()?,
            gid: cut.take_u64()?,
            global_seq: cut.take_u64()?,
            supported: cut.take_u64()?,
            required: cut.take_u64()?,
            flags: cut.take_u64()?,
            cookie: cut.take_u64()?,
        })
    }

    fn write(&self, alloc: Global, into: &mut Blob) -> Result<(), AllocError> {
        put_u32(alloc, into, 1)?;
        put_addr(alloc, into, &self.addr)?;
        put_u64(alloc, into, self.gid)?;
        put_u64(alloc, into, self.global_seq)?;
        put_u64(alloc, into, self.supported)?;
        put_u64(alloc, into, self.required)?;
        put_u64(alloc, into, self.flags)?;
        put_u64(alloc, into, self.cookie)?;
        Ok(())
    }
}

/// Reads the payload of SERVER_IDENT.
pub fn read_server_ident(alloc: Global, bytes: &[u8]) -> Result<ServerIdent, WireRefusal>
    ensures { IsReadBy server_ident_layout.form bytes.now result }
{
    read_payload(alloc, bytes)
}

/// Writes the payload of SERVER_IDENT behind some bytes.
pub fn put_server_ident(
    alloc: Global,
    into: &mut Blob,
    value: &ServerIdent,
) -> Result<(), AllocError>
    ensures { IsPutBy server_ident_layout.form value.now into.old into.new result }
{
    put_payload(alloc, into, value)
}

/// IDENT_MISSING_FEATURES: the features that the server asks for and the client lacks, a bit each.
#[derive(Clone, Copy, PartialEq, Eq)]
pub struct IdentMissingFeatures {
    pub features: u64,
}

impl Encoded for IdentMissingFeatures {
    ghost layout = { ident_missing_features_layout };

    fn read(_alloc: Global, cut: &mut Cut<'_>) -> Result<IdentMissingFeatures, ReadRefusal> {
        Ok(IdentMissingFeatures {
            features: cut.take_u64()?,
        })
    }

    fn write(&self, alloc: Global, into: &mut Blob) -> Result<(), AllocError> {
        put_u64(alloc, into, self.features)
    }
}

/// Reads the payload of IDENT_MISSING_FEATURES.
pub fn read_ident_missing_features(
    alloc: Global,
    bytes: &[u8],
) -> Result<IdentMissingFeatures, WireRefusal>
    ensures { IsReadBy ident_missing_features_layout.form bytes.now result }
{
    read_payload(alloc, bytes)
}

/// Writes the payload of IDENT_MISSING_FEATURES behind some bytes.
pub fn put_ident_missing_features(
    alloc: Global,
    into: &mut Blob,
    value: &IdentMissingFeatures,
) -> Result<(), AllocError>
    ensures { IsPutBy ident_missing_features_layout.form value.now into.old into.new result }
{
    put_payload(alloc, into, value)
}
