//! The program, over a host, a flash and a sink.
#![tactic(auto)]

mod accept;
mod answer;
mod boot_lines;
mod check;
mod components;
mod device;
mod diag;
mod drill;
mod init;
mod input;
mod json;
mod law;
mod life;
mod lines;
mod make;
mod member_lines;
mod migrate;
mod outside;
mod program;
mod reply;
mod run_boot;
mod run_update;
mod show;
mod show_description;
mod status;
mod update_lines;
mod why;
mod words;

pub use law::{
    boot_end_laws, check_laws, describing_laws, diag_laws, drill_laws, init_laws, make_laws,
    migrate_laws, run_laws, show_laws, status_laws, update_end_laws, update_laws,
};
pub use life::{
    launched_laws, launched_update_laws, life_laws, new_flash_laws, restart_laws, soundness_laws,
};
pub use outside::{SeenDisk, SeenHost, SeenLauncher, SeenSink};
pub use program::{Status, run};
pub use reply::Outcome;
