//! The files of a folder.

ghost use Rattle.std.specs.Prelude.{◌≡◌};

use std::alloc::{AllocError, Global};
use std::marker::Model;
use std::rt::Files;
use suit_edge::{Edge, FileHost, Host, Pulled, Started};

/// The files of a folder, by their names in it. It tells nothing of what they hold.
#[derive(Drop)]
pub(crate) struct FolderHost<'a, R: Files + Drop> {
    alloc: Global,
    folder: &'a str,
    files: FileHost<R>,
    faults: u64,
}

impl<'a, R: Files + Drop> Model for FolderHost<'a, R> {
    ghost use Rattle.std.specs.Prelude.{ℕ};

    // the count of faults
    ghost Value = { ℕ };

    ghost view = { λ h. h.faults };
}

impl<'a, R: Files + Drop> FolderHost<'a, R> {
    /// The files of this folder, which ends with a slash, or is empty for the one that the program runs in.
    pub(crate) fn new(alloc: Global, folder: &'a str, rt: R) -> FolderHost<'a, R>
        ensures { result ≡ 0 }
    {
        FolderHost {
            alloc,
            folder,
            files: FileHost::new(rt),
            faults: 0,
        }
    }
}

// The path of a name in a folder.
fn path(alloc: Global, folder: &str, name: &str) -> Result<String, AllocError> {
    let mut path = String::new(alloc);
    path.push_str(folder)?;
    path.push_str(name)?;
    Ok(path)
}

impl<'a, R: Files + Drop> Host for FolderHost<'a, R> {
    ghost use Rattle.std.specs.Prelude.{false, None, []};

    ghost told = { false };

    ghost file = { λ _ _. None };

    ghost rest = { λ _. [] };

    ghost pulled = { λ _. 0 };

    ghost asked = { λ _. [] };

    ghost faults = { λ h. h };

    fn start(&mut self, name: &str) -> Started {
        let started = match path(self.alloc, self.folder, name) {
            Ok(path) => self.files.start(path.as_str()),
            Err(_) => Started::Failed,
        };
        if started == Started::Failed {
            self.faults = self.faults.saturating_add(1);
        }
        started
    }

    fn pull(&mut self, room: &mut [u8]) -> Pulled {
        match self.files.pull(room) {
            Pulled::Got(count) => Pulled::Got(count),
            Pulled::Failed => {
                self.faults = self.faults.saturating_add(1);
                Pulled::Failed
            }
        }
    }

    fn store(&mut self, name: &str, bytes: &[u8]) -> Edge {
        let stored = match path(self.alloc, self.folder, name) {
            Ok(path) => self.files.store(path.as_str(), bytes),
            Err(_) => Edge::Failed,
        };
        match stored {
            Edge::Done => Edge::Done,
            Edge::Failed => {
                self.faults = self.faults.saturating_add(1);
                Edge::Failed
            }
        }
    }
}
