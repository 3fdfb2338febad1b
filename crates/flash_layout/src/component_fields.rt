//! A component in the description of a device.

ghost use Rattle.std.specs.Prelude.{◌≡◌};
ghost use Rattle.serde_json.specs.View.{view};
ghost use Rattle.json_fields.specs.Answers.{Gives};
ghost use Rattle.flash_layout.specs.ComponentFields.{memory_named, memory_said, capacity_limit, capacity_of, no_component, starts_in, whole};

use crate::id_text::id;
use crate::rules::MAX_RAM;
use crate::starts::{Starts, starts_of};
use crate::{Entry, Memory};
use json_fields::{Draft, FlawKind, Form, JsonFault, flawed, number, object, required, uuid};
use serde_json::Value;
use std::alloc::Global;
use suit_params::Identifier;

/// The fields that have been read.
#[derive(Drop)]
pub(crate) struct ComponentFields {
    /// The kind, if it is a known one. It is looked up before the other fields are judged.
    memory: Option<Memory>,
    capacity: Option<u64>,
    class: Option<[u8; 16]>,
    device: Option<[u8; 16]>,
    id: Option<Identifier>,
    slots: Option<Starts>,
    vendor: Option<[u8; 16]>,
}

// The memory with this name.
fn memory_named(name: &str) -> Option<Memory>
    ensures { result ≡ memory_named name.now }
{
    match name {
        "flash" => Some(Memory::Flash),
        "ram" => Some(Memory::Ram),
        _ => None,
    }
}

// The memory that a component's `kind` names.
fn memory_said(value: &Value) -> Option<Memory>
    ensures { result ≡ memory_said (view value.now) }
{
    match value.get("kind") {
        Some(kind) => match kind.as_str() {
            Some(name) => memory_named(name),
            None => None,
        },
        None => None,
    }
}

// The most bytes that a component may hold.
fn capacity_limit(memory: Option<Memory>) -> u64
    ensures { result ≡ capacity_limit memory }
{
    match memory {
        Some(Memory::Ram) => MAX_RAM,
        Some(Memory::Flash) => u64::MAX,
        None => u64::MAX,
    }
}

fn capacity(alloc: Global, value: &Value, memory: Option<Memory>) -> Result<u64, JsonFault>
    ensures { Gives (λ n. n) result (capacity_of memory (view value.now)) }
{
    let capacity = number(alloc, value, capacity_limit(memory))?;
    if 1 <= capacity {
        Ok(capacity)
    } else {
        flawed(alloc, FlawKind::Field)
    }
}

impl Draft for ComponentFields {
    ghost use Rattle.flash_layout.specs.ComponentFields.{takes_component};

    ghost takes = { takes_component };

    fn take(&mut self, alloc: Global, key: &str, value: &Value) -> Result<(), JsonFault> {
        match key {
            "capacity" => self.capacity = Some(capacity(alloc, value, self.memory)?),
            "class" => self.class = Some(uuid(alloc, value)?),
            "device" => self.device = Some(uuid(alloc, value)?),
            "id" => self.id = Some(id(alloc, value)?),
            "kind" => {
                if self.memory.is_none() {
                    return flawed(alloc, FlawKind::Field);
                }
            }
            "slots" => self.slots = Some(starts_of(alloc, value, self.memory)?),
            "vendor" => self.vendor = Some(uuid(alloc, value)?),
            _ => return flawed(alloc, FlawKind::Field),
        }
        Ok(())
    }
}

// A component whose fields have not been read yet.
fn no_component(memory: Option<Memory>) -> ComponentFields
    ensures { result ≡ no_component memory }
{
    ComponentFields {
        memory,
        capacity: None,
        class: None,
        device: None,
        id: None,
        slots: None,
        vendor: None,
    }
}

// The starts of a component's slots. In flash they are required.
fn starts_in(alloc: Global, memory: Memory, starts: Option<Starts>) -> Result<Starts, JsonFault>
    ensures { Gives (λ s. s) result (starts_in memory starts) }
{
    match memory {
        Memory::Flash => required(alloc, "slots", starts),
        Memory::Ram => Ok(Starts::none()),
    }
}

// Makes the component once all fields have been read.
fn whole(alloc: Global, fields: ComponentFields) -> Result<Entry, JsonFault>
    ensures { Gives (λ e. e) result (whole fields) }
{
    let capacity = required(alloc, "capacity", fields.capacity)?;
    let identifier = required(alloc, "id", fields.id)?;
    let memory = required(alloc, "kind", fields.memory)?;
    let slots = starts_in(alloc, memory, fields.slots)?;
    let starts = slots.places;
    Ok(Entry {
        identifier,
        memory,
        slots: slots.count,
        starts,
        capacity,
        vendor: fields.vendor,
        class: fields.class,
        device: fields.device,
    })
}

/// The form of a component in a device's description.
#[derive(Drop)]
pub(crate) struct OneComponent;

impl Form for OneComponent {
    type Item = Entry;

    ghost use Rattle.flash_layout.specs.ComponentFields.{component_of};

    ghost reads = { λ _ d. component_of d };

    fn read(&self, alloc: Global, value: &Value) -> Result<Entry, JsonFault> {
        let mut fields = no_component(memory_said(value));
        object(alloc, value, &mut fields)?;
        let entry = whole(alloc, fields)?;
        Ok(entry)
    }
}
