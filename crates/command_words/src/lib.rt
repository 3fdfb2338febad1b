//! The command that words ask for. The program judges the words itself, and leaves the arguments to
//! `clap`.
#![tactic(auto)]

mod arguments;
mod command;
mod law;
mod number;
mod rows;
mod table;
mod uri_word;
mod uri_words;
mod word;

pub use command::Command;
pub use law::word_laws;
pub use table::command_of;
pub use uri_word::UriWord;
pub use uri_words::UriWords;
