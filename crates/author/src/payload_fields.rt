//! Integrated payloads in a description.

ghost use Rattle.serde_json.specs.View.{view};
ghost use Rattle.json_fields.specs.Answers.{Gives};
ghost use Rattle.author.specs.Payloads.{source_bytes, payload_of, payloads_of};

use crate::FileList;
use crate::file_list::bytes_of;
use det_cbor::{Bytes, Text};
use json_fields::{Draft, FlawKind, JsonFault, flawed, hex, object, text};
use serde_json::Value;
use std::alloc::Global;
use std::marker::Model;
use suit_envelope::{PayloadBytes, PayloadList};

/// The fields of a `{"file": NAME}` or `{"hex": HEX}` that have been read.
#[derive(Drop)]
pub(crate) struct PayloadField {
    file: Option<Text>,
    bytes: Option<Bytes>,
}

impl Draft for PayloadField {
    ghost use Rattle.author.specs.Payloads.{takes_source};

    ghost takes = { takes_source };

    fn take(&mut self, alloc: Global, key: &str, value: &Value) -> Result<(), JsonFault> {
        match key {
            "file" => {
                self.file = Some(text(alloc, value)?);
                Ok(())
            }
            "hex" => {
                self.bytes = Some(hex(alloc, value)?);
                Ok(())
            }
            _ => flawed(alloc, FlawKind::Field),
        }
    }
}

// The bytes of the field that is there, which has to be just one. Those of a file are lent.
fn source<'a>(
    alloc: Global,
    field: PayloadField,
    files: &'a FileList,
) -> Result<PayloadBytes<'a>, JsonFault>
    ensures { Gives (λ b. b) result (source_bytes files.now field.file field.bytes) }
{
    let PayloadField { file, bytes } = field;
    match (file, bytes) {
        (Some(name), None) => Ok(PayloadBytes::lent(bytes_of(files, name.as_str()))),
        (None, Some(bytes)) => Ok(PayloadBytes::owned(bytes)),
        _ => flawed(alloc, FlawKind::Field),
    }
}

/// The payloads that have been read.
#[derive(Drop)]
struct PayloadFields<'a> {
    files: &'a FileList,
    list: PayloadList<'a>,
}

impl<'a> Model for PayloadFields<'a> {
    ghost use Rattle.author.specs.Payloads.{PayloadsSoFar};

    ghost Value = { PayloadsSoFar };

    ghost view = { λ a. record { files = a.files.now; list = a.list } };
}

impl<'a> PayloadFields<'a> {
    // Reads the payload that a value gives.
    fn payload(&self, alloc: Global, value: &Value) -> Result<PayloadBytes<'a>, JsonFault>
        ensures { Gives (λ b. b) result (payload_of self.now.files (view value.now)) }
    {
        let mut field = PayloadField {
            file: None,
            bytes: None,
        };
        object(alloc, value, &mut field)?;
        source(alloc, field, self.files)
    }
}

impl Draft for PayloadFields<'_> {
    ghost use Rattle.author.specs.Payloads.{takes_payload};

    ghost takes = { takes_payload };

    fn take(&mut self, alloc: Global, key: &str, value: &Value) -> Result<(), JsonFault> {
        let bytes = self.payload(alloc, value)?;
        let key = Text::from_str(alloc, key)?;
        self.list.put(key, bytes)?;
        Ok(())
    }
}

/// Reads an object from keys to payloads. They are in the order of the spellings of their keys.
pub(crate) fn payloads<'a>(
    alloc: Global,
    value: &Value,
    files: &'a FileList,
) -> Result<PayloadList<'a>, JsonFault>
    ensures { Gives (λ list. list) result (payloads_of files.now (view value.now)) }
{
    let mut fields = PayloadFields {
        files,
        list: PayloadList::new(alloc),
    };
    object(alloc, value, &mut fields)?;
    Ok(fields.list)
}
