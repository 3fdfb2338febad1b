//! Real files.

ghost use Rattle.std.specs.Prelude.{◌≡◌, ℕ, false};

use crate::{Edge, Host, Pulled, Started};
use std::fs;
use std::io::{ErrorKind, Read};
use std::marker::Model;
use std::rt::Files;

/// The files of the system, by their paths. Its contracts do not say what they hold.
#[derive(Drop)]
pub struct FileHost<R: Files + Drop> {
    rt: R,
    started: Option<R::File>,
    faults: u64,
}

impl<R: Files + Drop> Model for FileHost<R> {
    // the count of faults
    ghost Value = { ℕ };

    ghost view = { λ h. h.faults };
}

impl<R: Files + Drop> FileHost<R> {
    /// A host over the files that the runtime reaches. Opens nothing yet.
    pub fn new(rt: R) -> FileHost<R>
        ensures { result ≡ 0 }
    {
        FileHost {
            rt,
            started: None,
            faults: 0,
        }
    }
}

impl<R: Files + Drop> Host for FileHost<R> {
    ghost told = { false };

    ghost faults = { λ h. h };

    /// `Absent` if a part of the path is missing. A directory can be started, but its first pull
    /// fails.
    fn start(&mut self, name: &str) -> Started {
        self.started = None;
        match fs::open(&self.rt, name) {
            Ok(file) => {
                self.started = Some(file);
                Started::Done
            }
            Err(error) => {
                if error.kind() == ErrorKind::NotFound {
                    return Started::Absent;
                }
                self.faults = self.faults.saturating_add(1);
                Started::Failed
            }
        }
    }

    fn pull(&mut self, room: &mut [u8]) -> Pulled {
        let Some(file) = &mut self.started else {
            return Pulled::Got(0);
        };
        match file.read(room) {
            Ok(count) => Pulled::Got(count),
            Err(_) => {
                self.faults = self.faults.saturating_add(1);
                Pulled::Failed
            }
        }
    }

    /// An existing file is emptied first. If a write fails, its old bytes are gone.
    fn store(&mut self, name: &str, bytes: &[u8]) -> Edge {
        match fs::write(&self.rt, name, bytes) {
            Ok(()) => Edge::Done,
            Err(_) => {
                self.faults = self.faults.saturating_add(1);
                Edge::Failed
            }
        }
    }
}
