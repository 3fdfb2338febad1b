//! Names of parameters.

ghost use Rattle.std.specs.Prelude.{◌≡◌};
ghost use Rattle.author.specs.ParamNames.{param_named};

use suit_params::ParamKey;

/// The parameter with this name.
pub(crate) fn param_named(name: &str) -> Option<ParamKey>
    ensures { result ≡ param_named name.now }
{
    match name {
        "vendor" => Some(ParamKey::Vendor),
        "class" => Some(ParamKey::Class),
        "device" => Some(ParamKey::Device),
        "digest" => Some(ParamKey::Digest),
        "slot" => Some(ParamKey::Slot),
        "size" => Some(ParamKey::Size),
        "strict" => Some(ParamKey::Strict),
        "soft" => Some(ParamKey::Soft),
        "content" => Some(ParamKey::Content),
        "uri" => Some(ParamKey::Uri),
        "source" => Some(ParamKey::Source),
        "args" => Some(ParamKey::Args),
        _ => None,
    }
}
