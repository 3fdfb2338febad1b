//! The values in a manifest's map.

ghost use Rattle.std.specs.Prelude.{◌≡◌};
ghost use Rattle.suit_manifest.specs.ManifestReading.{later_found, manifest_found};

use crate::pairs::Pairs;
use det_cbor::Cursor;
use suit_params::Refusal;

/// The values in a manifest's map (draft-ietf-suit-manifest-25, section 8.4), each as a cursor over
/// its item.
#[derive(Debug, Drop)]
pub struct ManifestValues<'a> {
    pub version: Option<Cursor<'a>>,
    pub sequence: Option<Cursor<'a>>,
    pub common: Option<Cursor<'a>>,
    pub later: LaterValues<'a>,
}

/// The values that follow the common part, each as a cursor over its item.
#[derive(Debug, Drop)]
pub struct LaterValues<'a> {
    pub reference: Option<Cursor<'a>>,
    pub validate: Option<Cursor<'a>>,
    pub load: Option<Cursor<'a>>,
    pub invoke: Option<Cursor<'a>>,
    pub payload_fetch: Option<Cursor<'a>>,
    pub install: Option<Cursor<'a>>,
    pub text: Option<Cursor<'a>>,
}

// Finds the values that follow the common part, which are the last of the map.
fn find_later<'a>(mut pairs: Pairs<'a>) -> Result<LaterValues<'a>, Refusal>
    ensures { result ≡ later_found pairs.entry }
{
    let reference = pairs.take(4)?;
    let validate = pairs.take(7)?;
    let load = pairs.take(8)?;
    let invoke = pairs.take(9)?;
    let payload_fetch = pairs.take(16)?;
    let install = pairs.take(20)?;
    let text = pairs.take(23)?;
    pairs.end()?;
    Ok(LaterValues {
        reference,
        validate,
        load,
        invoke,
        payload_fetch,
        install,
        text,
    })
}

/// Finds the values in a map of `count` pairs, and refuses the first unknown key. The map was
/// judged before, and the cursor is after its head. Allocates nothing.
pub fn manifest_values<'a>(map: Cursor<'a>, count: u64) -> Result<ManifestValues<'a>, Refusal>
    ensures { result ≡ manifest_found (record { map = map.entry; left = count }) }
{
    let mut pairs = Pairs { map, left: count };
    let version = pairs.take(1)?;
    let sequence = pairs.take(2)?;
    let common = pairs.take(3)?;
    let later = find_later(pairs)?;
    Ok(ManifestValues {
        version,
        sequence,
        common,
        later,
    })
}
