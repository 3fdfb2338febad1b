//! The layout of the flash: which components a device has and where, and the configuration page
//! that says so.
#![tactic(auto)]

mod component_fields;
mod describing;
mod device_fields;
mod first_faults;
mod formatting;
mod frame;
mod id_reading;
mod id_text;
mod key;
mod law;
mod layout;
mod layout_fault;
mod load;
mod moving;
mod page;
mod page_reading;
mod page_writing;
mod place;
mod placing;
mod root;
mod rules;
mod slot;
mod spelled_places;
mod spelling;
mod starts;
mod trail;
mod typing;

pub use describing::layout_of;
pub use formatting::{Formatted, close_work, format, has_open_gate};
pub use frame::{
    BANK_SIZE, CONFIG_GATE, ENTRY_SIZE, FRONT_SIZE, Frame, HEAD_SIZE, LENGTH_SIZE, MAX_ENTRIES,
    MOST_BYTES, MOST_ENTRIES, PAGE_BYTES, PAGE_SIZE, ROOT_BYTES, ROOT_GATE, SLOTS_START, VERSION_1,
    bank, bank_size, head_size, most, page_bytes, record_page,
};
pub use key::{Key, is_key};
pub use law::{config_laws, frame_laws, load_laws, page_laws, slot_laws};
pub use layout::{Entry, Layout, Memory};
pub use layout_fault::LayoutFault;
pub use load::{Loaded, load_config, load_frame};
pub use moving::{BaseFault, moved};
pub use page::{Page, read_number};
pub use page_writing::write_page;
pub use place::{MAX_COMPONENTS, Places, Unknown};
pub use placing::places;
pub use root::root_page;
pub use rules::{MAX_RAM, is_layout, slots_of};
pub use slot::{FlashFault, Record, Slot};
pub use spelled_places::places_spelled;
pub use trail::{NoTrail, Trail};
pub use typing::{in_range, sized};
