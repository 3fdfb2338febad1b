//! The device of a drill.

ghost use Rattle.std.specs.Prelude.{◌≡◌, ◌∷◌, [], IfOk};
ghost use Rattle.flash_layout.specs.Layouts.{IsLayout};
ghost use Rattle.suit_edge.specs.MemoryDisk.{memory_flash};
ghost use Rattle.suit_cli.specs.DrillDevice.{IsFirst, device_layout, entry_of, flash_size};
ghost use Rattle.suit_cli.specs.DrillRounds.{IsAtRest};

use crate::device::key_of;
use det_cbor::Bytes;
use flash_layout::{Entry, Formatted, Layout, Memory, VERSION_1, format};
use rollback_record::sound_laws;
use std::alloc::{AllocError, Global};
use suit_edge::MemoryDisk;
use suit_params::Identifier;

/// The size of the flash, in bytes.
const FLASH_SIZE: usize = 262_144;

/// How many bytes a component holds.
const CAPACITY: u64 = 65_536;

/// The key of the device and of all envelopes.
pub(crate) const KEY: [u8; 32] = [1; 32];

fn identifier(alloc: Global, byte: u8) -> Result<Identifier, AllocError>
    ensures { IfOk result (λ identifier. identifier ≡ (byte ∷ []) ∷ []) }
{
    let mut identifier = Identifier::new(alloc);
    identifier.push(Bytes::from_slice(alloc, &[byte])?)?;
    Ok(identifier)
}

fn entry(
    alloc: Global,
    part: u8,
    memory: Memory,
    slots: u8,
    starts: [u64; 2],
) -> Result<Entry, AllocError>
    ensures { IfOk result (λ entry. entry ≡ entry_of part memory slots starts) }
{
    Ok(Entry {
        identifier: identifier(alloc, part)?,
        memory,
        slots,
        starts,
        capacity: CAPACITY,
        vendor: None,
        class: None,
        device: None,
    })
}

// A component of two slots in flash, and one in working memory.
fn device_layout(alloc: Global) -> Result<Layout, AllocError>
    ensures is { IfOk result (λ layout. layout ≡ device_layout) }
    ensures allowed { IfOk result (λ layout. IsLayout VERSION_1 flash_size layout) }
{
    let mut layout = Layout::new(alloc);
    layout.push(entry(alloc, 0x00, Memory::Flash, 2, [49_152, 114_696])?)?;
    layout.push(entry(alloc, 0x01, Memory::Ram, 1, [0, 0])?)?;
    Ok(layout)
}

/// A flash with that layout and that key, on which nothing is installed.
pub(crate) fn new_flash(alloc: Global) -> Result<MemoryDisk, AllocError>
    ensures first { IfOk result (λ disk. IsFirst (memory_flash disk).reads) }
    ensures ready { IfOk result IsAtRest }
{
    sound_laws();
    let mut disk = MemoryDisk::new(alloc, FLASH_SIZE, &[])?;
    let layout = device_layout(alloc)?;
    let key = key_of(&KEY);
    match format(&mut disk, &layout, &key, VERSION_1) {
        Formatted::Done => Ok(disk),
        Formatted::NotBlank => unreachable!(),
        // No call is set to fail, so memory ran out.
        Formatted::FlashFault => Err(AllocError),
    }
}
