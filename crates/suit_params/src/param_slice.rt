//! Parameters that borrow their bytes.

ghost use Rattle.std.specs.Prelude.{◌≡◌, IfOk};
ghost use Rattle.det_cbor.specs.HeadReading.{map_ok};
ghost use Rattle.suit_params.specs.ParamKeys.{key_of};
ghost use Rattle.suit_params.specs.ParamReading.{bytes_value_from, value_from, param_from};
ghost use Rattle.suit_params.specs.ParamSlices.{param_of};

use crate::param_map::read_key;
use crate::param_value::{
    read_flag, read_held, read_held_digest, read_id, read_index, read_number, read_text,
};
use crate::reading::bytes_left;
use crate::{BoxedDigest, Digest, Param, ParamKey, Refusal};
use det_cbor::{Bytes, Cursor, Text};
use std::alloc::{AllocError, Global};

/// A parameter that borrows its bytes from the manifest.
#[derive(Clone, Copy, Debug)]
pub enum ParamSlice<'a> {
    Vendor([u8; 16]),
    Class([u8; 16]),
    Device([u8; 16]),
    /// The digest of the image.
    Digest(Digest),
    Slot(u64),
    /// Whether commands run in order. They always do.
    Strict(bool),
    /// Whether a failed condition of the running sequence is tolerated.
    Soft(bool),
    /// The size of the image in bytes.
    Size(u64),
    Content(&'a [u8]),
    Uri(&'a str),
    /// The index of the component that a copy or a swap takes its content from.
    Source(u32),
    /// The bytes that the launcher is given with the image.
    Args(&'a [u8]),
}

impl<'a> ParamSlice<'a> {
    /// The key of this parameter.
    pub fn key(&self) -> ParamKey
        ensures { result ≡ key_of (param_of self.now) }
    {
        match self {
            ParamSlice::Vendor(_) => ParamKey::Vendor,
            ParamSlice::Class(_) => ParamKey::Class,
            ParamSlice::Device(_) => ParamKey::Device,
            ParamSlice::Digest(_) => ParamKey::Digest,
            ParamSlice::Slot(_) => ParamKey::Slot,
            ParamSlice::Strict(_) => ParamKey::Strict,
            ParamSlice::Soft(_) => ParamKey::Soft,
            ParamSlice::Size(_) => ParamKey::Size,
            ParamSlice::Content(_) => ParamKey::Content,
            ParamSlice::Uri(_) => ParamKey::Uri,
            ParamSlice::Source(_) => ParamKey::Source,
            ParamSlice::Args(_) => ParamKey::Args,
        }
    }

    /// Copies the parameter.
    pub fn copy(&self, alloc: Global) -> Result<Param, AllocError>
        ensures { IfOk result (λ param. param ≡ param_of self.now) }
    {
        Ok(match self {
            ParamSlice::Vendor(id) => Param::Vendor(*id),
            ParamSlice::Class(id) => Param::Class(*id),
            ParamSlice::Device(id) => Param::Device(*id),
            ParamSlice::Digest(digest) => Param::Digest(BoxedDigest::new(alloc, *digest)?),
            ParamSlice::Slot(number) => Param::Slot(*number),
            ParamSlice::Strict(value) => Param::Strict(*value),
            ParamSlice::Soft(value) => Param::Soft(*value),
            ParamSlice::Size(size) => Param::Size(*size),
            ParamSlice::Content(bytes) => Param::Content(Bytes::from_slice(alloc, bytes)?),
            ParamSlice::Uri(text) => Param::Uri(Text::from_str(alloc, text)?),
            ParamSlice::Source(component) => Param::Source(*component),
            ParamSlice::Args(bytes) => Param::Args(Bytes::from_slice(alloc, bytes)?),
        })
    }
}

// Reads a byte string and borrows its content.
fn lend_bytes<'a>(map: &mut Cursor<'a>) -> Result<&'a [u8], Refusal>
    ensures { map_ok (λ bytes. (bytes.now, map.new)) result ≡ bytes_value_from map.old }
{
    Ok(bytes_left(read_held(map)?))
}

fn lend_value<'a>(
    map: &mut Cursor<'a>,
    key: ParamKey,
    count: u32,
) -> Result<ParamSlice<'a>, Refusal>
    ensures { map_ok (λ p. (param_of p, map.new)) result ≡ value_from count key map.old }
{
    match key {
        ParamKey::Vendor => Ok(ParamSlice::Vendor(read_id(map)?)),
        ParamKey::Class => Ok(ParamSlice::Class(read_id(map)?)),
        ParamKey::Device => Ok(ParamSlice::Device(read_id(map)?)),
        ParamKey::Digest => Ok(ParamSlice::Digest(read_held_digest(map)?)),
        ParamKey::Slot => Ok(ParamSlice::Slot(read_number(map)?)),
        ParamKey::Strict => Ok(ParamSlice::Strict(read_flag(map)?)),
        ParamKey::Soft => Ok(ParamSlice::Soft(read_flag(map)?)),
        ParamKey::Size => Ok(ParamSlice::Size(read_number(map)?)),
        ParamKey::Content => Ok(ParamSlice::Content(lend_bytes(map)?)),
        ParamKey::Uri => Ok(ParamSlice::Uri(read_text(map)?)),
        ParamKey::Source => Ok(ParamSlice::Source(read_index(map, count)?)),
        ParamKey::Args => Ok(ParamSlice::Args(lend_bytes(map)?)),
    }
}

/// Reads the next pair of a map that was judged as CBOR before. Component indices must be below
/// `count`. Allocates nothing: the parameter borrows the cursor's bytes.
pub fn lend_param<'a>(map: &mut Cursor<'a>, count: u32) -> Result<ParamSlice<'a>, Refusal>
    ensures { map_ok (λ p. (param_of p, map.new)) result ≡ param_from count map.old }
{
    let key = read_key(map)?;
    lend_value(map, key, count)
}
