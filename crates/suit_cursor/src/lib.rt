//! Command sequences of SUIT manifests, read from the manifest's bytes as they are run.
//!
//! A sequence is judged once, and then its parts are borrowed: each command, each list, each inner
//! sequence. Nothing is copied, and nothing is judged again. Contracts see each borrowed part as
//! the tree that its bytes spell.
#![tactic(auto)]

mod branches;
mod command;
mod copying;
mod entering;
mod index_view;
mod indices;
mod judged;
mod known_head;
mod level;
mod params;
mod passing;
mod sequence;
mod slice_params;
mod taking;
mod view;
mod walk;

pub use branches::{LentBranch, LentBranches};
pub use command::{Lent, LentCommand, LentSelection};
pub use copying::copy_sequence;
pub use index_view::IndexView;
pub use indices::LentIndices;
pub use params::ParamView;
pub use sequence::LentSequence;
pub use slice_params::SliceParams;
pub use view::{View, ViewAct};
pub use walk::{Entered, Walk};
