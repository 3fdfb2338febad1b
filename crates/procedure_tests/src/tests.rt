//! The tests.

mod device;
mod drawing;
mod drawn;
mod no_trail;
mod player;
mod quiet;
mod spelled;
mod swaps;
