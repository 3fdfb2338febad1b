//! The description of a device.

ghost use Rattle.std.specs.Prelude.{◌≡◌, ◌≤◌, All, IfOk};
ghost use Rattle.serde_json.specs.View.{view};
ghost use Rattle.json_fields.specs.Answers.{Gives};
ghost use Rattle.flash_layout.specs.Devices.{described_layout, frame_with};

use crate::component_fields::OneComponent;
use crate::frame::VERSION_1;
use crate::root::second_frame;
use crate::{Frame, Layout};
use json_fields::{Draft, FlawKind, JsonFault, array, flawed, number, object, required};
use serde_json::Value;
use std::alloc::Global;

/// The fields that have been read.
#[derive(Drop)]
pub(crate) struct DeviceFields {
    base: Option<u64>,
    components: Option<Layout>,
}

// The frame of a device. A base selects version 2.
fn frame_with(base: Option<u64>) -> Frame
    ensures { result ≡ frame_with base }
{
    match base {
        None => VERSION_1,
        Some(base) => second_frame(base),
    }
}

/// Reads a device's frame and its components, each of which is allowed on its own.
pub(crate) fn device(alloc: Global, value: &Value) -> Result<(Layout, Frame), JsonFault>
    ensures { Gives (λ device. device) result (described_layout (view value.now)) }
{
    let mut fields = DeviceFields {
        base: None,
        components: None,
    };
    object(alloc, value, &mut fields)?;
    let layout = required(alloc, "components", fields.components)?;
    Ok((layout, frame_with(fields.base)))
}

impl Draft for DeviceFields {
    ghost use Rattle.flash_layout.specs.Devices.{takes_device};

    ghost takes = { takes_device };

    fn take(&mut self, alloc: Global, key: &str, value: &Value) -> Result<(), JsonFault> {
        if key == "base" {
            self.base = Some(number(alloc, value, u64::MAX)?);
            return Ok(());
        }
        if key != "components" {
            return flawed(alloc, FlawKind::Field);
        }
        let entries = array(alloc, value, &OneComponent)?;
        if entries.is_empty() {
            return flawed(alloc, FlawKind::Field);
        }
        self.components = Some(Layout::from_vec(entries));
        Ok(())
    }
}
