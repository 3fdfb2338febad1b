//! Identifiers have sixteen bytes, by their types.

ghost use Rattle.step_machine.specs.Typing.{HasIdentifiers};
ghost use Rattle.path_model.specs.Path.{IsIdentifier};
ghost use Rattle.std.specs.Prelude.{◌≡◌, ◌<◌, All, IfSome, length};
ghost use Rattle.std.specs.List.{AllByRecursion};

use flash_layout::{Entry, Layout};

fn bytes(id: &[u8])
    ensures { AllByRecursion (λ b. b < 256) id.now }
{
    let _ = id;
}

fn sized(id: &[u8; 16])
    ensures { length id.now ≡ 16 }
{
    let _ = id;
}

fn sixteen(id: &[u8; 16])
    ensures { IsIdentifier id.now }
{
    sized(id);
    bytes(id);
}

fn is_identifier(id: &Option<[u8; 16]>)
    ensures { IfSome id.now IsIdentifier }
{
    match id {
        Some(id) => sixteen(id),
        None => {}
    }
}

fn entry(entry: &Entry)
    ensures { HasIdentifiers entry.now }
{
    is_identifier(&entry.vendor);
    is_identifier(&entry.class);
    is_identifier(&entry.device);
}

/// Changes nothing. Its contract says that the components of a layout have identifiers of sixteen bytes.
pub fn has_identifiers(layout: &Layout)
    ensures { All HasIdentifiers layout.now }
{
    for each in layout.as_slice() {
        entry(each);
    }
}
