//! Parameters.

ghost use Rattle.std.specs.Prelude.{◌≡◌, IfOk};
ghost use Rattle.serde_json.specs.View.{view};
ghost use Rattle.describe.specs.ParamData.{param_name, value_data, params_data};

use crate::values::{hex_value, uuid_value};
use serde_json::{Map, Value, put};
use std::alloc::{AllocError, Global};
use suit_params::{Param, ParamList};

fn param_name(param: &Param) -> &'static str
    ensures { result.now ≡ param_name param.now }
{
    match param {
        Param::Vendor(_) => "vendor",
        Param::Class(_) => "class",
        Param::Device(_) => "device",
        Param::Digest(_) => "digest",
        Param::Slot(_) => "slot",
        Param::Strict(_) => "strict",
        Param::Soft(_) => "soft",
        Param::Size(_) => "size",
        Param::Content(_) => "content",
        Param::Uri(_) => "uri",
        Param::Source(_) => "source",
        Param::Args(_) => "args",
    }
}

fn param_value(alloc: Global, param: &Param) -> Result<Value, AllocError>
    ensures { IfOk result (λ v. view v ≡ value_data param.now) }
{
    match param {
        Param::Vendor(id) => uuid_value(alloc, *id),
        Param::Class(id) => uuid_value(alloc, *id),
        Param::Device(id) => uuid_value(alloc, *id),
        Param::Digest(digest) => hex_value(alloc, digest.get().bytes()),
        Param::Slot(number) => Ok(Value::from(*number)),
        Param::Strict(flag) => Ok(Value::from(*flag)),
        Param::Soft(flag) => Ok(Value::from(*flag)),
        Param::Size(size) => Ok(Value::from(*size)),
        Param::Content(bytes) => hex_value(alloc, bytes.as_slice()),
        Param::Uri(text) => Value::try_from_str(alloc, text.as_str()),
        Param::Source(component) => Ok(Value::from(*component)),
        Param::Args(bytes) => hex_value(alloc, bytes.as_slice()),
    }
}

/// Writes an object from names of parameters to their values, even for an empty list.
pub(crate) fn params(alloc: Global, list: &ParamList) -> Result<Value, AllocError>
    ensures { IfOk result (λ v. view v ≡ params_data list.now) }
{
    let mut map = Map::new(alloc);
    for param in list.as_slice() {
        let value = param_value(alloc, param)?;
        put(&mut map, alloc, param_name(param), value)?;
    }
    Ok(Value::from(map))
}
