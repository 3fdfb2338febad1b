//! Parameters of a component (draft-ietf-suit-manifest-25, section 8.4.8).

ghost use Rattle.std.specs.Prelude.{◌≡◌, IfOk};
ghost use Rattle.suit_params.specs.ParamKeys.{key_of, key_number};

use crate::BoxedDigest;
use det_cbor::{Bytes, Text};
use std::alloc::{AllocError, Global};

/// A parameter of a component.
#[derive(Debug, Drop)]
pub enum Param {
    Vendor([u8; 16]),
    Class([u8; 16]),
    Device([u8; 16]),
    /// The digest of the image.
    Digest(BoxedDigest),
    Slot(u64),
    /// Whether commands run in order. They always do.
    Strict(bool),
    /// Whether a failed condition of the running sequence is tolerated.
    Soft(bool),
    /// The size of the image in bytes.
    Size(u64),
    Content(Bytes),
    Uri(Text),
    /// The index of the component that a copy or a swap takes its content from.
    Source(u32),
    /// The bytes that the launcher is given with the image.
    Args(Bytes),
}

/// The key of a parameter.
#[derive(Clone, Copy, Debug, PartialEq, Eq)]
pub enum ParamKey {
    Vendor,
    Class,
    Device,
    Digest,
    Slot,
    Strict,
    Soft,
    Size,
    Content,
    Uri,
    Source,
    Args,
}

impl Param {
    /// The key of this parameter.
    pub fn key(&self) -> ParamKey
        ensures { result ≡ key_of self.now }
    {
        match self {
            Param::Vendor(_) => ParamKey::Vendor,
            Param::Class(_) => ParamKey::Class,
            Param::Device(_) => ParamKey::Device,
            Param::Digest(_) => ParamKey::Digest,
            Param::Slot(_) => ParamKey::Slot,
            Param::Strict(_) => ParamKey::Strict,
            Param::Soft(_) => ParamKey::Soft,
            Param::Size(_) => ParamKey::Size,
            Param::Content(_) => ParamKey::Content,
            Param::Uri(_) => ParamKey::Uri,
            Param::Source(_) => ParamKey::Source,
            Param::Args(_) => ParamKey::Args,
        }
    }

    /// Copies the parameter.
    pub fn copy(&self, alloc: Global) -> Result<Param, AllocError>
        ensures { IfOk result (λ other. other ≡ self.now) }
    {
        Ok(match self {
            Param::Vendor(id) => Param::Vendor(*id),
            Param::Class(id) => Param::Class(*id),
            Param::Device(id) => Param::Device(*id),
            Param::Digest(digest) => Param::Digest(digest.copy(alloc)?),
            Param::Slot(number) => Param::Slot(*number),
            Param::Strict(value) => Param::Strict(*value),
            Param::Soft(value) => Param::Soft(*value),
            Param::Size(size) => Param::Size(*size),
            Param::Content(bytes) => Param::Content(bytes.copy(alloc)?),
            Param::Uri(text) => Param::Uri(text.copy(alloc)?),
            Param::Source(component) => Param::Source(*component),
            Param::Args(bytes) => Param::Args(bytes.copy(alloc)?),
        })
    }
}

impl ParamKey {
    /// The number of the key in a map of parameters.
    pub fn number(self) -> u8
        ensures { result ≡ key_number self }
    {
        match self {
            ParamKey::Vendor => 1,
            ParamKey::Class => 2,
            ParamKey::Device => 24,
            ParamKey::Digest => 3,
            ParamKey::Slot => 5,
            ParamKey::Strict => 12,
            ParamKey::Soft => 13,
            ParamKey::Size => 14,
            ParamKey::Content => 18,
            ParamKey::Uri => 21,
            ParamKey::Source => 22,
            ParamKey::Args => 23,
        }
    }
}
