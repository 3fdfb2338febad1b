//! Which conditions fail on a path.

use std::cell::Cell;

/// The conditions that fail on a path, in order, by their numbers (`Trail::number`).
#[derive(Drop)]
pub(crate) struct Misses<'s> {
    numbers: &'s [u64],
    // How many of them have come.
    come: Cell<usize>,
}

impl<'s> Misses<'s> {
    /// Conditions none of which has come.
    pub(crate) fn new(numbers: &'s [u64]) -> Misses<'s> {
        Misses {
            numbers,
            come: Cell::new(0),
        }
    }

    /// Whether the condition with this number fails. It is asked for each condition of the path, in order.
    pub(crate) fn has(&self, number: u64) -> bool {
        let come = self.come.get();
        match self.numbers.get(come) {
            Some(next) if *next == number => {
                self.come.set(come.wrapping_add(1));
                true
            }
            _ => false,
        }
    }
}
