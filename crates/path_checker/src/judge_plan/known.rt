//! What is known of one value: an identifier or a slot number.

ghost use Rattle.std.specs.Prelude.{◌≡◌, ◌↔◌, IsTrue, IfOk, OnOk, Some, None, []};
ghost use Rattle.path_checker.specs.Exploring.{In};
ghost use Rattle.path_checker.specs.Knowing.{Agrees};
ghost use Rattle.path_checker.specs.Forking.{Tells, leaving_out};

use crate::judge_plan::choice::least_outside;
use crate::judge_plan::fingerprint::{mixed, of_bytes};
use std::alloc::{AllocError, Global};
use std::marker::Model;

/// A value that may be known: an identifier or a slot number.
pub(crate) trait Fact: Copy {
    /// Whether both are equal.
    fn is(&self, other: &Self) -> bool
        ensures { IsTrue result ↔ self.now ≡ other.now };

    /// A fingerprint. Equal values have equal ones.
    fn fingerprint(&self, salt: u64) -> u64;
}

impl Fact for [u8; 16] {
    fn is(&self, other: &[u8; 16]) -> bool {
        *self == *other
    }

    fn fingerprint(&self, salt: u64) -> u64 {
        of_bytes(&self[..], salt)
    }
}

impl Fact for u64 {
    fn is(&self, other: &u64) -> bool {
        *self == *other
    }

    fn fingerprint(&self, salt: u64) -> u64 {
        mixed(salt, *self)
    }
}

/// What is known of a value that may be absent: the value, or else the values that are ruled out.
#[derive(Debug, Drop)]
pub(crate) struct Known<T> {
    value: Option<T>,
    others: Vec<T>,
}

impl<T> Model for Known<T> {
    ghost use Rattle.std.specs.Prelude.{List, Option};

    ghost Value = { Option T × List T };

    ghost view = { λ a. (a.value, a.others.items) };
}

/// Whether `value` is one of `values`.
pub(crate) fn is_among<T: Fact>(values: &[T], value: &T) -> bool
    ensures { IsTrue result ↔ In value.now values.now }
{
    for other in values {
        if other.is(value) {
            return true;
        }
    }
    false
}

fn same_value<T: Fact>(one: &Option<T>, other: &Option<T>) -> bool
    ensures { IsTrue result → one.now ≡ other.now }
{
    match (one, other) {
        (Some(one), Some(other)) => one.is(other),
        (None, None) => true,
        _ => false,
    }
}

fn same_values<T: Fact>(ones: &[T], others: &[T]) -> bool
    ensures { IsTrue result → ones.now ≡ others.now }
{
    if ones.len() != others.len() {
        return false;
    }
    let mut index = 0;
    while index < ones.len() {
        if !ones[index].is(&others[index]) {
            return false;
        }
        index += 1;
    }
    true
}

impl<T: Fact> Known<T> {
    /// Creates knowledge of nothing. Does not allocate.
    pub(crate) fn new(alloc: Global) -> Known<T>
        ensures { result ≡ (None, []) }
    {
        Known {
            value: None,
            others: Vec::new(alloc),
        }
    }

    /// Creates knowledge of this value. Does not allocate.
    pub(crate) fn of(alloc: Global, value: T) -> Known<T>
        ensures { result ≡ (Some value, []) }
    {
        Known {
            value: Some(value),
            others: Vec::new(alloc),
        }
    }

    /// Rules one more value out.
    pub(crate) fn exclude(&mut self, other: T) -> Result<(), AllocError>
        ensures { OnOk result (self.new ≡ leaving_out self.old other) }
    {
        self.others.push(other)?;
        Ok(())
    }

    /// A copy in memory of its own.
    pub(crate) fn copy(&self, alloc: Global) -> Result<Known<T>, AllocError>
        ensures { IfOk result (λ other. other ≡ self.now) }
    {
        Ok(Known {
            value: self.value,
            others: Vec::from_slice(alloc, &self.others)?,
        })
    }

    /// Whether both know the same.
    pub(crate) fn is_same(&self, other: &Known<T>) -> bool
        ensures { IsTrue result → self.now ≡ other.now }
    {
        same_value(&self.value, &other.value) && same_values(&self.others, &other.others)
    }

    /// Whether the value is known to be this one, and none is ruled out.
    pub(crate) fn is_just(&self, value: &T) -> bool
        ensures { IsTrue result → self.now ≡ (Some value.now, []) }
    {
        match &self.value {
            Some(own) => own.is(value) && self.others.is_empty(),
            None => false,
        }
    }

    /// A fingerprint. Equal knowledge has equal ones.
    pub(crate) fn fingerprint(&self, salt: u64) -> u64 {
        if let Some(value) = &self.value {
            return value.fingerprint(salt);
        }
        let mut print = 0;
        for other in self.others.as_slice() {
            print = mixed(print, other.fingerprint(salt));
        }
        print
    }

    /// How many values are ruled out.
    pub(crate) fn others(&self) -> u64 {
        self.others.len() as u64
    }

    /// Whether it is the wanted value, if that is known.
    pub(crate) fn tells(&self, wanted: &T) -> Option<bool>
        ensures { Tells self.now wanted.now result }
    {
        match &self.value {
            Some(value) => Some(value.is(wanted)),
            None => {
                if is_among(&self.others, wanted) {
                    Some(false)
                } else {
                    None
                }
            }
        }
    }
}

impl Known<[u8; 16]> {
    /// An identifier that is possible: the one that is known, or else none.
    pub(crate) fn identifier(&self) -> Option<[u8; 16]>
        ensures { Agrees self.now result }
    {
        self.value
    }
}

impl Known<u64> {
    /// A slot that is possible: the one that is known, or else the least number that is not ruled out.
    pub(crate) fn slot(&self) -> u64
        ensures { Agrees self.now (Some result) }
    {
        match self.value {
            Some(value) => value,
            None => least_outside(&self.others),
        }
    }
}
