//! The fields of rows.

use det_cbor::Reason;
use std::alloc::{AllocError, Global};

/// The bytes that a text spells in hexadecimal. Any other text returns an error.
pub(crate) fn bytes_of(alloc: Global, text: &str) -> Result<Vec<u8>, AllocError> {
    match hex::decode(alloc, text) {
        Ok(bytes) => Ok(bytes),
        Err(_) => Err(AllocError),
    }
}

/// A row's first field, up to a space, and what comes after it.
pub(crate) fn split_field(row: &str) -> (&str, &str) {
    row.split_once(' ').unwrap_or((row, ""))
}

/// The fields of a row, in hexadecimal, with spaces between them.
pub(crate) fn fields_of(alloc: Global, row: &str) -> Result<Vec<Vec<u8>>, AllocError> {
    let mut fields = Vec::new(alloc);
    for text in row.split(' ') {
        fields.push(bytes_of(alloc, text)?)?;
    }
    Ok(fields)
}

/// The name that rows have for a reason.
pub(crate) fn name_of(reason: Reason) -> &'static str {
    match reason {
        Reason::Truncated => "truncated",
        Reason::Indefinite => "indefinite",
        Reason::Kind => "kind",
        Reason::NotShortest => "not-shortest",
        Reason::TooDeep => "too-deep",
        Reason::BadText => "bad-text",
        Reason::Repeated => "repeated",
        Reason::Order => "order",
    }
}
