//! The tests.

mod blocks;
mod cbor;
mod digests;
mod lanes;
mod macs;
mod notation;
mod params;
mod rows;
