//! Parameters in a description.

ghost use Rattle.std.specs.Prelude.{◌≡◌, OnOk};
ghost use Rattle.serde_json.specs.View.{view};
ghost use Rattle.json_fields.specs.Answers.{Gives};
ghost use Rattle.author.specs.FileValues.{digest_of};
ghost use Rattle.author.specs.ParamValues.{number_of, index_of, param_value, params_of, placed_among, IsPlaceOf};

use crate::FileList;
use crate::file_value::{content, digest, size};
use crate::param_name::param_named;
use crate::scope::Scope;
use json_fields::{Draft, FlawKind, JsonFault, flag, flawed, hex, number, object, text, uuid};
use serde_json::Value;
use std::alloc::{AllocError, Global};
use std::cmp::Ordering;
use std::marker::Model;
use suit_params::{BoxedDigest, Param, ParamKey, ParamList};

/// Reads a number of 64 bits.
pub(crate) fn whole(alloc: Global, value: &Value) -> Result<u64, JsonFault>
    ensures { Gives (λ n. n) result (number_of (view value.now)) }
{
    number(alloc, value, u64::MAX)
}

/// Reads the index of a component, out of `count`.
pub(crate) fn index(alloc: Global, value: &Value, count: u32) -> Result<u32, JsonFault>
    ensures { Gives (λ i. i) result (index_of count (view value.now)) }
{
    let index = whole(alloc, value)?;
    if index < count as u64 {
        Ok(index as u32)
    } else {
        flawed(alloc, FlawKind::Field)
    }
}

// Reads a digest, or makes that of a file, and boxes it.
fn boxed_digest(alloc: Global, value: &Value, files: &FileList) -> Result<BoxedDigest, JsonFault>
    ensures { Gives (λ digest. digest) result (digest_of files.now (view value.now)) }
{
    let digest = digest(alloc, value, files)?;
    Ok(BoxedDigest::new(alloc, digest)?)
}

// Reads the value of a parameter with this key.
fn param(alloc: Global, value: &Value, key: ParamKey, scope: &Scope<'_>) -> Result<Param, JsonFault>
    ensures { Gives (λ p. p) result (param_value scope.now key (view value.now)) }
{
    match key {
        ParamKey::Vendor => uuid(alloc, value).map(Param::Vendor),
        ParamKey::Class => uuid(alloc, value).map(Param::Class),
        ParamKey::Device => uuid(alloc, value).map(Param::Device),
        ParamKey::Digest => boxed_digest(alloc, value, scope.files).map(Param::Digest),
        ParamKey::Slot => whole(alloc, value).map(Param::Slot),
        ParamKey::Strict => flag(alloc, value).map(Param::Strict),
        ParamKey::Soft => flag(alloc, value).map(Param::Soft),
        ParamKey::Size => size(alloc, value, scope.files).map(Param::Size),
        ParamKey::Content => content(alloc, value, scope.files).map(Param::Content),
        ParamKey::Uri => text(alloc, value).map(Param::Uri),
        ParamKey::Source => index(alloc, value, scope.count).map(Param::Source),
        ParamKey::Args => hex(alloc, value).map(Param::Args),
    }
}

/// The parameters that have been read, ascending by number.
#[derive(Drop)]
struct ParamFields<'a> {
    scope: &'a Scope<'a>,
    list: Vec<Param>,
}

impl<'a> Model for ParamFields<'a> {
    ghost use Rattle.author.specs.ParamValues.{ParamsSoFar};

    ghost Value = { ParamsSoFar };

    ghost view = { λ a. record { scope = a.scope.now; list = a.list.items } };
}

// The index of a parameter with the same key, or else the index where this one belongs. The list ascends by number.
fn place_of(list: &[Param], param: &Param) -> Result<usize, usize>
    ensures { IsPlaceOf list.now param.now result }
{
    let number = param.key().number();
    for (i, other) in list.iter().enumerate() {
        match number.cmp(&other.key().number()) {
            Ordering::Less => return Err(i),
            Ordering::Equal => return Ok(i),
            Ordering::Greater => {}
        }
    }
    Err(list.len())
}

fn place(list: &mut Vec<Param>, param: Param) -> Result<(), AllocError>
    ensures { OnOk result (list.new.items ≡ placed_among param list.old.items) }
{
    match place_of(list.as_slice(), &param) {
        Ok(at) => list[at] = param,
        Err(at) => list.insert(at, param)?,
    }
    Ok(())
}

impl Draft for ParamFields<'_> {
    ghost use Rattle.author.specs.ParamValues.{takes_param};

    ghost takes = { takes_param };

    fn take(&mut self, alloc: Global, key: &str, value: &Value) -> Result<(), JsonFault> {
        match param_named(key) {
            Some(key) => {
                let param = param(alloc, value, key, self.scope)?;
                place(&mut self.list, param)?;
                Ok(())
            }
            None => flawed(alloc, FlawKind::Field),
        }
    }
}

/// Reads an object from names of parameters to their values.
pub(crate) fn params(
    alloc: Global,
    value: &Value,
    scope: &Scope<'_>,
) -> Result<ParamList, JsonFault>
    ensures { Gives (λ list. list) result (params_of scope.now (view value.now)) }
{
    let mut fields = ParamFields {
        scope,
        list: Vec::new(alloc),
    };
    object(alloc, value, &mut fields)?;
    Ok(ParamList::from_vec(fields.list))
}
