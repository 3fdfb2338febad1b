//! The command sequences of SUIT manifests: their trees, how they are read, how much work it is to
//! judge them, and which components they may write.
#![tactic(auto)]

mod act_walk;
mod argument;
mod capped;
mod command;
mod command_code;
mod component_bits;
mod decode;
mod encode;
mod index_list;
mod judging;
mod kinds;
mod known;
mod law;
mod measure;
mod numbers;
mod plan;
mod plan_targets;
mod plan_touched;
mod reach;
mod reach_walk;
mod rules;
mod scope;
mod selection;
mod sequence_reading;
mod source_walk;
mod swap_walk;
mod touched_walk;
mod ways;
mod ways_walk;
mod work_walk;
mod writing;

pub use argument::{read_element, read_report};
pub use command::{Branches, Command, Sequence, Step};
pub use command_code::{CommandCode, read_code};
pub use component_bits::Targets;
pub use decode::{MAX_LEVELS, decode_sequence};
pub use encode::encode_sequence;
pub use index_list::IndexList;
pub use judging::judge_sequence;
pub use kinds::{ActKind, TestKind};
pub use known::known_laws;
pub use law::sequence_laws;
pub use numbers::{number_laws, spread, width, work};
pub use plan::Plan;
pub use plan_targets::{target_laws, targets};
pub use plan_touched::{invokes, touched, touched_laws};
pub use rules::Rules;
pub use selection::Selection;
