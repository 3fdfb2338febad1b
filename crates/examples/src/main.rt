//! Runs a session: each line of standard input is put behind a dollar sign, and then done in this folder as a shell would
//! do it. Each line that begins with `suit` is a run of the program's top call over the real files.
#![tactic(auto)]

mod files;
mod folder;
mod memory;
mod step;

use det_cbor::{Names, Text};
use files::{compare, print, tell, tell_line, tell_memory, tell_status};
use folder::FolderHost;
use std::alloc::{AllocError, Global};
use std::io;
use step::{Step, step_of};
use suit_cli::{Status, run};
use suit_edge::{FileDisk, FileHost, FileLauncher, Host, Sink, StdSink};

// The status of a run of the program.
fn status_of<H: Host, K: Sink>(
    rt: &HostRuntime,
    alloc: Global,
    words: &Names,
    host: &mut H,
    out: &mut K,
) -> u8 {
    let mut disk = FileDisk::new(rt);
    let mut launcher = FileLauncher::new(rt);
    let Status(status) = run(alloc, words, host, &mut disk, &mut launcher, out);
    status
}

// Runs the program, and tells a status other than 0.
fn suit<H: Host, K: Sink>(
    rt: &HostRuntime,
    alloc: Global,
    words: &Names,
    host: &mut H,
    out: &mut K,
) {
    let status = status_of(rt, alloc, words, host, out);
    if status != 0 {
        tell_status(out, status);
    }
}

// Does a step with the files of a folder.
fn perform_with<H: Host, K: Sink>(
    rt: &HostRuntime,
    alloc: Global,
    step: &Step,
    host: &mut H,
    out: &mut K,
) {
    match step {
        Step::Suit(words) => suit(rt, alloc, words, host, out),
        Step::Unknown => tell(out, "no such command"),
        Step::Print(name) => print(alloc, host, out, name.as_str()),
        Step::Compare(one, other) => compare(alloc, host, out, one.as_str(), other.as_str()),
        Step::Memory => tell_memory(alloc, &mut FileHost::new(rt), out),
        Step::Empty | Step::Enter(_) => {}
    }
}

// Does a step in a folder.
fn perform(rt: &HostRuntime, alloc: Global, step: &Step, folder: &str) {
    let mut host = FolderHost::new(alloc, folder, rt);
    perform_with(rt, alloc, step, &mut host, &mut StdSink::new(rt));
}

// Goes on in a folder of that one.
fn enter(folder: &mut Text, name: &str) -> Result<(), AllocError> {
    folder.push_str(name)?;
    folder.push_str("/")
}

// Does a line of the session.
fn go_on(rt: &HostRuntime, alloc: Global, folder: &mut Text, line: &str) -> Result<(), AllocError> {
    tell_line(&mut StdSink::new(rt), line);
    match step_of(alloc, line)? {
        Step::Enter(name) => enter(folder, name.as_str()),
        step => {
            perform(rt, alloc, &step, folder.as_str());
            Ok(())
        }
    }
}

fn main(rt: HostRuntime) -> io::Result<()> {
    let alloc = rt.alloc();
    let mut folder = Text::new(alloc);
    for line in rt.lines(alloc) {
        go_on(&rt, alloc, &mut folder, line?.as_str())?;
    }
    Ok(())
}
