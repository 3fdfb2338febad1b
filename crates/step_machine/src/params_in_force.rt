//! Values of parameters in force.

ghost use Rattle.std.specs.Option.{option_copied};
ghost use Rattle.std.specs.Prelude.{◌≡◌, option_map};
ghost use Rattle.suit_params.specs.InForce.{bytes_of, digest_of, identifier_of, number_of};
ghost use Rattle.suit_params.specs.ParamSlices.{param_of};

use suit_params::{Digest, ParamSlice};

pub(crate) fn identifier(param: Option<ParamSlice<'_>>) -> Option<[u8; 16]>
    ensures { result ≡ identifier_of (option_map param_of param.entry) }
{
    match param {
        Some(ParamSlice::Vendor(id)) => Some(id),
        Some(ParamSlice::Class(id)) => Some(id),
        Some(ParamSlice::Device(id)) => Some(id),
        _ => None,
    }
}

pub(crate) fn number(param: Option<ParamSlice<'_>>) -> Option<u64>
    ensures { result ≡ number_of (option_map param_of param.entry) }
{
    match param {
        Some(ParamSlice::Slot(number)) => Some(number),
        Some(ParamSlice::Size(size)) => Some(size),
        Some(ParamSlice::Source(component)) => Some(component as u64),
        _ => None,
    }
}

pub(crate) fn digest(param: Option<ParamSlice<'_>>) -> Option<Digest>
    ensures { result ≡ digest_of (option_map param_of param.entry) }
{
    match param {
        Some(ParamSlice::Digest(digest)) => Some(digest),
        _ => None,
    }
}

pub(crate) fn bytes<'a>(param: Option<ParamSlice<'a>>) -> Option<&'a [u8]>
    ensures { option_copied result ≡ bytes_of (option_map param_of param.entry) }
{
    match param {
        Some(ParamSlice::Content(bytes)) => Some(bytes),
        Some(ParamSlice::Uri(text)) => Some(text.as_bytes()),
        Some(ParamSlice::Args(bytes)) => Some(bytes),
        _ => None,
    }
}
