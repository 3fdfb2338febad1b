//! Names of files by the URIs that they answer.

ghost use Rattle.path_model.specs.Settings.{found_under};
ghost use Rattle.std.specs.Prelude.{◌≡◌, option_map};

use det_cbor::{List, Text};

/// The files that answer URIs: each URI with the name of its file. If a URI is listed twice, the first counts.
pub type Uris = List<(Text, Text)>;

/// The name of the file that answers the URI with these bytes.
pub(crate) fn name_of<'a>(uris: &'a Uris, uri: &[u8]) -> Option<&'a str>
    ensures { option_map (λ name. name.now) result ≡ found_under uris.now uri.now }
{
    for word in uris.as_slice() {
        if word.0.as_str().as_bytes() == uri {
            return Some(word.1.as_str());
        }
    }
    None
}
