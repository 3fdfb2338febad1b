//! Files in memory.

ghost use Rattle.std.specs.Prelude.{◌≡◌, OnOk, OnErr, option_map, position};
ghost use Rattle.std.specs.Str.{bytes_eq};
ghost use Rattle.suit_edge.specs.MemoryHost.{file_in, with_file};

use det_cbor::{Bytes, Text};
use std::alloc::{AllocError, Global};

/// Files and their names. No name occurs twice.
pub(crate) type FileTable = Vec<(Text, Bytes)>;

/// The bytes of the file with this name, if there is one.
pub(crate) fn find<'a>(files: &'a [(Text, Bytes)], name: &str) -> Option<&'a Bytes>
    ensures { option_map (λ bytes. bytes.now) result ≡ file_in files.entry.now name.now }
{
    for file in files {
        if file.0.as_str() == name {
            return Some(&file.1);
        }
    }
    None
}

// The index of the file with this name, if there is one.
fn index_of(files: &[(Text, Bytes)], name: &str) -> Option<usize>
    ensures { result ≡ position (λ file. bytes_eq file.0 name.now) files.now }
{
    files.iter().position(|file| file.0.as_str() == name)
}

/// Sets the bytes of the file with this name, which is added if it is new. Both are copied.
#[tactic(auto, using(crate::proofs::FileTables::set_where_found))]
pub(crate) fn set(
    alloc: Global,
    files: &mut FileTable,
    name: &str,
    bytes: &[u8],
) -> Result<(), AllocError>
    ensures ok { OnOk result (files.new.items ≡ with_file files.old.items name.now bytes.now) }
    ensures err { OnErr result (files.new.items ≡ files.old.items) }
{
    let bytes = Bytes::from_slice(alloc, bytes)?;
    match index_of(files.as_slice(), name) {
        Some(at) => {
            files[at].1 = bytes;
            Ok(())
        }
        None => Ok(files.push((Text::from_str(alloc, name)?, bytes))?),
    }
}
