//! The memory of a boot.

ghost use Rattle.invoke_proc.specs.Buffers.{boot_room};
ghost use Rattle.std.specs.Prelude.{◌≡◌, IfOk};

use flash_layout::{Frame, Layout, bank_size};
use flash_slots::Ram;
use std::alloc::{AllocError, Global};
use std::marker::Model;
use step_machine::Uris;

/// The frame of the flash, the contents in working memory, and the files that answer URIs, of which there are none.
#[derive(Drop)]
pub(crate) struct Working {
    pub(crate) frame: Frame,
    pub(crate) ram: Ram,
    pub(crate) uris: Uris,
}

/// All the memory that a boot takes, for one frame and layout: room for the envelope in a bank, and for the contents in
/// working memory. A boot uses it up. Contracts see the frame and those contents.
#[derive(Drop)]
pub struct BootBuffer {
    pub(crate) bank: Vec<u8>,
    pub(crate) working: Working,
}

impl Model for BootBuffer {
    ghost use Rattle.flash_layout.specs.Frames.{bank_size};
    ghost use Rattle.invoke_proc.specs.Buffers.{BootRoom};
    ghost use Rattle.std.specs.Prelude.{◌≡◌, [], length};

    ghost Value = { BootRoom };

    ghost view = { λ b. record { frame = b.working.frame; ram = b.working.ram } };

    ghost invariant = { λ b. (b.working.uris ≡ [])
        × (length b.bank.items ≡ bank_size b.working.frame) };
}

impl BootBuffer {
    /// Allocates the memory for a boot of a flash with this layout and frame.
    pub fn new(alloc: Global, layout: &Layout, frame: Frame) -> Result<BootBuffer, AllocError>
        ensures { IfOk result (λ buffer. buffer ≡ boot_room frame layout.now) }
    {
        let bank = vec![in alloc; 0u8; bank_size(frame) as usize]?;
        let ram = Ram::new(alloc, layout)?;
        let uris = Uris::new(alloc);
        Ok(BootBuffer {
            bank,
            working: Working { frame, ram, uris },
        })
    }
}
