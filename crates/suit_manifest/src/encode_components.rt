//! Writing the identifiers of components (draft-ietf-suit-manifest-25, section 8.4.5).

ghost use Rattle.std.specs.Prelude.{◌≡◌, ◌++◌, OnOk};
ghost use Rattle.std.specs.List.{AllByRecursion};
ghost use Rattle.det_cbor.specs.DataItem.{ArrayOf, spell, spell_items, IsString};
ghost use Rattle.suit_manifest.specs.Components.{string_items, identifier_item, identifier_items};
ghost use Rattle.suit_manifest.specs.ManifestWriting.{IdentifierFits, ComponentsFit};

use det_cbor::{Bytes, push_count, push_string};
use std::alloc::AllocError;
use suit_params::{Identifier, Identifiers};

fn push_parts(out: &mut Bytes, parts: &[Bytes]) -> Result<(), AllocError>
    ensures ok { OnOk result (out.new ≡ out.old ++ spell_items (string_items parts.now)) }
    ensures fit { OnOk result (AllByRecursion IsString parts.now) }
{
    for part in parts {
        push_string(out, part.as_slice())?;
    }
    Ok(())
}

fn push_identifier(out: &mut Bytes, identifier: &Identifier) -> Result<(), AllocError>
    ensures ok { OnOk result (out.new ≡ out.old ++ spell (identifier_item identifier.now)) }
    ensures fits { OnOk result (IdentifierFits identifier.now) }
{
    let parts = identifier.as_slice();
    push_count(out, parts.len() as u64)?;
    push_parts(out, parts)?;
    Ok(())
}

fn push_identifiers(out: &mut Bytes, identifiers: &[Identifier]) -> Result<(), AllocError>
    ensures ok { OnOk result (out.new ≡ out.old ++ spell_items (identifier_items identifiers.now)) }
    ensures fit { OnOk result (AllByRecursion IdentifierFits identifiers.now) }
{
    for identifier in identifiers {
        push_identifier(out, identifier)?;
    }
    Ok(())
}

/// Appends the array of the components' identifiers.
pub(crate) fn push_components(out: &mut Bytes, components: &Identifiers) -> Result<(), AllocError>
    ensures ok { OnOk result
        (out.new ≡ out.old ++ spell (ArrayOf (identifier_items components.now))) }
    ensures fit { OnOk result (ComponentsFit components.now) }
{
    let identifiers = components.as_slice();
    push_count(out, identifiers.len() as u64)?;
    push_identifiers(out, identifiers)?;
    Ok(())
}
