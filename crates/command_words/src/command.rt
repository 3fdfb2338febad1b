//! The commands of the program.

use crate::uri_words::UriWords;

/// A command and its arguments. A key is given by the name of its file.
#[derive(Debug, Drop)]
pub enum Command<'a> {
    /// Makes an envelope from a description in JSON, and stores it.
    Make {
        /// The description's file.
        description: &'a str,
        /// The file of the key that authenticates the envelope.
        key: &'a str,
        /// The name under which the envelope is stored.
        out: &'a str,
    },
    /// Prints the description of an envelope.
    Describe {
        /// The envelope's file.
        file: &'a str,
    },
    /// Shows the parts of an envelope, and whether it is authentic.
    Show {
        /// The envelope's file.
        file: &'a str,
        /// The file of the key that authenticates it.
        key: &'a str,
    },
    /// Judges every path through the commands of an envelope's manifest.
    Check {
        /// The envelope's file.
        file: &'a str,
    },
    /// Formats the flash.
    Init {
        /// The file of the device's description in JSON.
        device: &'a str,
        /// The file of the key that the device keeps.
        key: &'a str,
    },
    /// Runs the update procedure of an envelope, and installs it.
    Update {
        /// The envelope's file.
        file: &'a str,
        /// The files that answer the URIs.
        uris: UriWords<'a>,
    },
    /// Runs the invocation procedure of what is installed.
    Boot,
    /// Prints the record and the lengths of the contents.
    Status,
    /// Moves what is installed into the layout of version 2.
    Migrate {
        /// The place of the new layout's head.
        base: u64,
    },
    /// Makes rounds and runs them on a flash in memory.
    Drill {
        /// The number that the draws of the rounds start from.
        number: u64,
    },
    /// Prints an item of deterministic CBOR in diagnostic notation.
    Diagnose {
        /// The item's file.
        file: &'a str,
    },
}
