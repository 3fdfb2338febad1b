//! Notations of a megabyte, which are read in linear time.

use crate::tests::notation::refused::is_notation;
use std::alloc::{AllocError, Global};

const COUNT: u64 = 349_525;

// A text of `COUNT` parts between a front and an end.
fn repeated(alloc: Global, front: &str, part: &str, end: &str) -> Result<String, AllocError> {
    let mut text = String::from_str(alloc, front)?;
    for _ in 0..COUNT {
        text.push_str(part)?;
    }
    text.push_str(end)?;
    Ok(text)
}

// Whether such a text is the notation of an item.
fn is_read(alloc: Global, front: &str, part: &str, end: &str) -> Result<bool, AllocError> {
    let text = repeated(alloc, front, part, end)?;
    is_notation(alloc, text.as_str())
}

#[test]
fn long_array(rt: HostRuntime) -> Result<(), AllocError> {
    assert!(rt; is_read(rt.alloc(), "[", "0, ", "0]")?);
    Ok(())
}

#[test]
fn long_text(rt: HostRuntime) -> Result<(), AllocError> {
    assert!(rt; is_read(rt.alloc(), "\"", "ab\\\\", "\"")?);
    Ok(())
}

#[test]
fn long_number(rt: HostRuntime) -> Result<(), AllocError> {
    assert!(rt; !is_read(rt.alloc(), "1", "000", "")?);
    Ok(())
}

#[test]
fn open_arrays(rt: HostRuntime) -> Result<(), AllocError> {
    assert!(rt; !is_read(rt.alloc(), "", "[[[", "")?);
    Ok(())
}
