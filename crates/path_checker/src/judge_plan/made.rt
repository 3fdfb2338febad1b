//! A cache of values that were made recently, found by their fingerprints.

use crate::judge_plan::memory::{WAYS, place_by};
use std::alloc::{AllocError, Global};

// How many values are kept. A power of two.
const KEPT: usize = 1_024;

/// Values that were made recently. A new one that is equal shares the memory.
#[derive(Drop)]
pub(crate) struct Made<T> {
    places: Vec<Option<T>>,
}

impl<T: Drop> Made<T> {
    /// An empty cache.
    pub(crate) fn none(alloc: Global) -> Result<Made<T>, AllocError> {
        let mut places = Vec::with_capacity(alloc, KEPT)?;
        for _ in 0..KEPT {
            places.push(None)?;
        }
        Ok(Made { places })
    }

    /// The value in one of the places for a fingerprint.
    pub(crate) fn get(&self, print: u64, way: u32) -> Option<&T> {
        match self.places.get(place_by(print, way, self.places.len())) {
            Some(Some(value)) => Some(value),
            _ => None,
        }
    }

    // The first place for a fingerprint that is free, or 0 if none is.
    fn free(&self, print: u64) -> u32 {
        for way in 0..WAYS {
            if self.get(print, way).is_none() {
                return way;
            }
        }
        0
    }

    /// Keeps a value. If all places for its fingerprint are taken, it replaces the one in the first.
    pub(crate) fn keep(&mut self, print: u64, value: T) {
        let place = place_by(print, self.free(print), self.places.len());
        if let Some(at) = self.places.get_mut(place) {
            *at = Some(value);
        }
    }
}
