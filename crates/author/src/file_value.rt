//! Values that can be taken from a file.

ghost use Rattle.serde_json.specs.View.{view};
ghost use Rattle.json_fields.specs.Answers.{Gives};
ghost use Rattle.author.specs.FileValues.{takes_file, file_named, takes_digest_file, digest_file, digest_of, size_of, content_of};

use crate::FileList;
use crate::algorithm_name::algorithm;
use crate::digest_value::digest_spelled;
use crate::file_list::bytes_of;
use det_cbor::{Bytes, Text};
use json_fields::{Draft, FlawKind, JsonFault, flawed, hex, number, object, required, text};
use serde_json::Value;
use std::alloc::Global;
use suit_params::{Digest, DigestKind, hash};

/// The fields of a `{"file": NAME}` that have been read.
#[derive(Drop)]
pub(crate) struct FileField {
    name: Option<Text>,
}

impl Draft for FileField {
    ghost takes = { takes_file };

    fn take(&mut self, alloc: Global, key: &str, value: &Value) -> Result<(), JsonFault> {
        if key == "file" {
            self.name = Some(text(alloc, value)?);
            Ok(())
        } else {
            flawed(alloc, FlawKind::Field)
        }
    }
}

/// Reads the name in a `{"file": NAME}`.
pub(crate) fn file_named(alloc: Global, value: &Value) -> Result<Text, JsonFault>
    ensures { Gives (λ name. name) result (file_named (view value.now)) }
{
    let mut field = FileField { name: None };
    object(alloc, value, &mut field)?;
    required(alloc, "file", field.name)
}

/// The fields of a `{"file": NAME, "algorithm": NAME}` that have been read.
#[derive(Drop)]
pub(crate) struct DigestFile {
    name: Option<Text>,
    algorithm: DigestKind,
}

impl Draft for DigestFile {
    ghost takes = { takes_digest_file };

    fn take(&mut self, alloc: Global, key: &str, value: &Value) -> Result<(), JsonFault> {
        match key {
            "file" => self.name = Some(text(alloc, value)?),
            "algorithm" => self.algorithm = algorithm(alloc, value)?,
            _ => return flawed(alloc, FlawKind::Field),
        }
        Ok(())
    }
}

// Reads a file's name and the hash function for its digest.
fn digest_file(alloc: Global, value: &Value) -> Result<(Text, DigestKind), JsonFault>
    ensures { Gives (λ file. (file.0, file.1)) result (digest_file (view value.now)) }
{
    let mut field = DigestFile {
        name: None,
        algorithm: DigestKind::Sha256,
    };
    object(alloc, value, &mut field)?;
    let algorithm = field.algorithm;
    let name = required(alloc, "file", field.name)?;
    Ok((name, algorithm))
}

/// Reads a digest, or makes that of a file.
pub(crate) fn digest(alloc: Global, value: &Value, files: &FileList) -> Result<Digest, JsonFault>
    ensures { Gives (λ digest. digest) result (digest_of files.now (view value.now)) }
{
    if value.is_object() {
        let (name, algorithm) = digest_file(alloc, value)?;
        Ok(hash(algorithm, bytes_of(files, name.as_str())))
    } else {
        digest_spelled(alloc, value)
    }
}

/// Reads a number, or takes the length of a file.
pub(crate) fn size(alloc: Global, value: &Value, files: &FileList) -> Result<u64, JsonFault>
    ensures { Gives (λ n. n) result (size_of files.now (view value.now)) }
{
    if value.is_object() {
        let name = file_named(alloc, value)?;
        Ok(bytes_of(files, name.as_str()).len() as u64)
    } else {
        number(alloc, value, u64::MAX)
    }
}

/// Reads bytes, or takes those of a file.
pub(crate) fn content(alloc: Global, value: &Value, files: &FileList) -> Result<Bytes, JsonFault>
    ensures { Gives (λ bytes. bytes) result (content_of files.now (view value.now)) }
{
    if value.is_object() {
        let name = file_named(alloc, value)?;
        Ok(Bytes::from_slice(alloc, bytes_of(files, name.as_str()))?)
    } else {
        hex(alloc, value)
    }
}
