//! Where the parts of a flash are, and how large they are.

ghost use Rattle.std.specs.Prelude.{◌≡◌, ◌<◌, ◌≤◌, ◌↔◌, ◌+◌, ◌*◌, ◌^◌, IsTrue};
ghost use Rattle.flash_layout.specs.Frames.{IsBase, bank_place, bank_size, by_version, checkpoint_place, config_size, frame_size, head_size, journal_place, most, page_bytes, record_place};

/// The version of a flash's layout, and where its head is. The head is a configuration page, two
/// record pages and two banks, one after another.
#[derive(Clone, Copy, Debug, PartialEq, Eq)]
pub struct Frame {
    /// The version of the layout, as its byte.
    pub version: u8,
    /// The first place of the head, in bytes.
    pub base: u64,
}

/// The frame of layout version 1, at the start of the flash.
pub const VERSION_1: Frame = Frame {
    version: 1,
    base: 0,
};

/// The size of the head of version 1, in bytes.
pub const HEAD_SIZE: u64 = 49_152;

/// The size of a record page, and of the configuration page of version 1, in bytes.
pub const PAGE_SIZE: u64 = 4_096;

/// The size of a bank of version 1, in bytes.
pub const BANK_SIZE: u64 = 16_384;

/// The size of the head and the work area of version 2, in bytes.
pub const AREA_SIZE: u64 = 225_280;

/// The first place at which a slot may start, in bytes.
pub const SLOTS_START: u64 = 49_152;

/// The most components that a layout of version 1 may have.
pub const MAX_ENTRIES: usize = 8;

/// The most components that a layout of any version may have.
pub const MOST_ENTRIES: usize = 32;

/// The size of the length in a slot, in bytes.
pub const LENGTH_SIZE: u64 = 8;

/// The size of a component on the configuration page, in bytes.
pub const ENTRY_SIZE: usize = 142;

/// The bytes before the components on the configuration page: the gate, the version, two counts,
/// and the key.
pub const FRONT_SIZE: usize = 68;

/// The size of all components on the configuration page of version 1, in bytes.
pub const ENTRIES_SIZE: usize = ENTRY_SIZE * MAX_ENTRIES;

/// How many bytes of the configuration page of version 1 are read. All others are left as they are.
pub const PAGE_BYTES: usize = FRONT_SIZE + ENTRIES_SIZE;

/// How many bytes of the configuration page are read, at most, for any version.
pub const MOST_BYTES: usize = FRONT_SIZE + ENTRY_SIZE * MOST_ENTRIES;

/// The place of the root's gate, after the banks of version 1. The root says where the head of
/// version 2 is.
pub const ROOT_GATE: u64 = 45_056;

/// The size of the root in bytes: the gate, the version and the base.
pub const ROOT_BYTES: usize = 10;

/// The place of the gate of version 1's configuration page.
pub const CONFIG_GATE: u64 = VERSION_1.base;

/// The size of the head in bytes.
pub fn head_size(frame: Frame) -> u64
    ensures { result ≡ head_size frame }
{
    if frame.version == 1 {
        HEAD_SIZE
    } else {
        147_456
    }
}

/// The size of the head and the work area after it, in bytes.
pub(crate) fn frame_size(frame: Frame) -> u64
    ensures { result ≡ frame_size frame }
{
    if frame.version == 1 {
        HEAD_SIZE
    } else {
        AREA_SIZE
    }
}

/// Whether a flash of this size may have this base, for layout version 2.
pub(crate) fn is_base(size: u64, base: u64) -> bool
    ensures { IsTrue result ↔ IsBase size base }
{
    HEAD_SIZE <= base && AREA_SIZE <= size && base <= size - AREA_SIZE
}

/// The most components that a layout may have.
pub fn most(frame: Frame) -> usize
    ensures is { result ≡ most frame }
    ensures few { result ≤ MOST_ENTRIES }
{
    if frame.version == 1 {
        MAX_ENTRIES
    } else {
        MOST_ENTRIES
    }
}

/// How many bytes of the configuration page are read.
pub fn page_bytes(frame: Frame) -> usize
    ensures is { result ≡ page_bytes frame }
    ensures few { result ≤ MOST_BYTES }
{
    FRONT_SIZE + ENTRY_SIZE * most(frame)
}

// The size of the configuration page in bytes.
fn config_size(frame: Frame) -> u64
    ensures is { result ≡ config_size frame }
    ensures room { result + 2 * PAGE_SIZE ≤ head_size frame }
{
    if frame.version == 1 { PAGE_SIZE } else { 8_192 }
}

/// The size of a bank in bytes.
pub fn bank_size(frame: Frame) -> u64
    ensures { result ≡ bank_size frame }
{
    if frame.version == 1 {
        BANK_SIZE
    } else {
        65_536
    }
}

/// The place of a record page, which begins with its gate: 0 is the first page, and 1 the second.
pub fn record_page(frame: Frame, which: u64) -> u64
    requires room { frame.base + head_size frame < 2 ^ 64 }
    requires which { which < 2 }
    ensures { result ≡ record_place frame which }
{
    frame.base + config_size(frame) + which * PAGE_SIZE
}

/// The place of version 2's journal page, which begins with its gate.
pub(crate) fn journal_page(frame: Frame) -> u64
    requires room { frame.base + frame_size frame < 2 ^ 64 }
    requires version { frame.version ≡ 2 }
    ensures { result ≡ journal_place frame }
{
    frame.base + 147_456
}

/// The place of version 2's checkpoint page, which begins with its gate.
pub(crate) fn checkpoint_page(frame: Frame) -> u64
    requires room { frame.base + frame_size frame < 2 ^ 64 }
    requires version { frame.version ≡ 2 }
    ensures { result ≡ checkpoint_place frame }
{
    frame.base + 155_648
}

// The size of the banks before this one, in bytes.
fn bank_offset(frame: Frame, which: u64) -> u64
    requires { which < 2 }
    ensures is { result ≡ by_version frame (which * 16384) (which * 65536) }
    ensures room { config_size frame + 2 * PAGE_SIZE + result ≤ head_size frame }
{
    if frame.version == 1 {
        which * BANK_SIZE
    } else {
        which * 65_536
    }
}

/// The place of a bank: 0 is the first bank, and 1 the second.
pub fn bank(frame: Frame, which: u64) -> u64
    requires room { frame.base + head_size frame < 2 ^ 64 }
    requires which { which < 2 }
    ensures { result ≡ bank_place frame which }
{
    record_page(frame, 0) + 2 * PAGE_SIZE + bank_offset(frame, which)
}
