//! Files by their names.

ghost use Rattle.std.specs.Prelude.{◌≡◌};
ghost use Rattle.author.specs.Files.{bytes_of, has_file, has_files};

use det_cbor::{Bytes, List, Names, Text};

/// Files, each with its name and its bytes.
pub type FileList = List<(Text, Bytes)>;

// Whether there is a file with this name.
fn has_file(files: &FileList, name: &str) -> bool
    ensures { result ≡ has_file files.now name.now }
{
    for (other, _) in files.as_slice() {
        if other.as_str() == name {
            return true;
        }
    }
    false
}

/// Whether there is a file for each of these names.
pub fn has_files(files: &FileList, names: &Names) -> bool
    ensures { result ≡ has_files files.now names.now }
{
    for name in names.as_slice() {
        if !has_file(files, name.as_str()) {
            return false;
        }
    }
    true
}

/// The bytes of the first file with a name, or no bytes if there is none.
pub fn bytes_of<'a>(files: &'a FileList, name: &str) -> &'a [u8]
    ensures { result.now ≡ bytes_of files.now name.now }
{
    for (other, bytes) in files.as_slice() {
        if other.as_str() == name {
            return bytes.as_slice();
        }
    }
    &[]
}
