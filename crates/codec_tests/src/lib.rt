//! Tests of `det_cbor`, `suit_params`, `hmac_mac0` and the hash functions below them by the examples of their
//! standards, and tests of `cbor_diag` and `lane_bytes`. They use only public calls, and have their own crate, since a
//! crate that holds its tests is proved twice.
#![tactic(auto)]

#[cfg(test)]
mod tests;
