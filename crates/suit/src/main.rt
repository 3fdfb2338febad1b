//! The program `suit`: calls `run` with the words of the command line and the real host, flash, launcher and output,
//! and exits with its status.
#![tactic(auto)]

mod flash;
mod source;
mod starving;
mod words;

use flash::flash_of;
use nor_flash::FileNor;
use source::Started;
use starving::out_of_memory;
use std::process::ExitCode;
use suit_cli::{Status, run};
use suit_edge::{FileHost, FileLauncher, StdSink};
use words::command_line;

fn main(rt: HostRuntime) -> ExitCode {
    let alloc = rt.alloc();
    let mut out = StdSink::new(&rt);
    let Ok(words) = command_line(&Started::new(&rt), alloc) else {
        return ExitCode::from(out_of_memory(&mut out));
    };
    let mut host = FileHost::new(&rt);
    let mut flash = flash_of(&rt, FileNor::is_there(&rt));
    let mut launcher = FileLauncher::new(&rt);
    let Status(code) = run(
        alloc,
        &words,
        &mut host,
        &mut flash,
        &mut launcher,
        &mut out,
    );
    ExitCode::from(code)
}
