//! The files that a description names.

ghost use Rattle.std.specs.Prelude.{◌≡◌, IfOk, OnOk, option_map};
ghost use Rattle.serde_json.specs.View.{view};
ghost use Rattle.author.specs.FileNames.{name_under, names_in, has_name, with_name, once, file_names};

use det_cbor::{Names, Text};
use serde_json::Value;
use std::alloc::{AllocError, Global};

fn has_name(names: &Names, name: &str) -> bool
    ensures { result ≡ has_name names.now name.now }
{
    for other in names.as_slice() {
        if other.as_str() == name {
            return true;
        }
    }
    false
}

// Adds a name, unless it is there already.
fn add(alloc: Global, names: &mut Names, name: &str) -> Result<(), AllocError>
    ensures { OnOk result (names.new ≡ with_name names.old name.now) }
{
    if has_name(names, name) {
        Ok(())
    } else {
        names.push(Text::from_str(alloc, name)?)
    }
}

// The file name that a member of an object gives.
fn name_under<'v>(key: &str, value: &'v Value) -> Option<&'v str>
    ensures { option_map (λ name. name.now) result ≡ name_under key.now (view value.now) }
{
    if key == "file" { value.as_str() } else { None }
}

// Adds the file names in a value, each once.
fn collect(alloc: Global, value: &Value, names: &mut Names) -> Result<(), AllocError>
    ensures { OnOk result (names.new ≡ once names.old (names_in (view value.now))) }
{
    match value {
        Value::Array(items) => {
            for item in items.iter() {
                collect(alloc, item, names)?;
            }
        }
        Value::Object(members) => {
            for (key, member) in members.iter() {
                match name_under(key.as_str(), member) {
                    Some(name) => add(alloc, names, name)?,
                    None => collect(alloc, member, names)?,
                }
            }
        }
        Value::Null | Value::Bool(_) | Value::Number(_) | Value::String(_) => {}
    }
    Ok(())
}

/// The names of the files in a description, each once, in the order in which they are read.
pub(crate) fn file_names(alloc: Global, description: &Value) -> Result<Names, AllocError>
    ensures { IfOk result (λ names. names ≡ file_names (view description.now)) }
{
    let mut names = Names::new(alloc);
    collect(alloc, description, &mut names)?;
    Ok(names)
}
