//! The installed record: two record pages of the flash, of which one is written while the other holds the record.
#![tactic(auto)]

mod judging;
mod law;
mod load;
mod migrating;
mod migration_law;
mod moved;
mod page;
mod slot_counts;
mod sound_law;
mod spare;
mod typing;
mod writing;

pub use flash_layout::{FlashFault, Record};
pub use judging::{Judged, judge};
pub use law::record_laws;
pub use load::{load_pages_by, load_record, load_record_by};
pub use migrating::{Migrated, migrate};
pub use migration_law::migration_laws;
pub use sound_law::{installed_laws, sound_laws};
pub use spare::{RecordPages, Spare};
pub use writing::commit;
