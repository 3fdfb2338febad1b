//! The salt of a judgement, which is mixed into its fingerprints. Whoever wants values whose fingerprints collide has
//! to choose them first, and each choice changes the salt.

use std::hash::{DefaultHasher, Hasher};
use suit_commands::{Branches, Command, Plan, Sequence};
use suit_params::{Param, ParamList};

// Reads what a fingerprint of the parameter would read, but for lengths.
fn read_param(salt: &mut DefaultHasher, param: &Param) {
    match param {
        Param::Vendor(id) => salt.write(&id[..]),
        Param::Class(id) => salt.write(&id[..]),
        Param::Device(id) => salt.write(&id[..]),
        Param::Digest(digest) => salt.write_u64(digest.hashed().hasher().finish()),
        Param::Slot(number) => salt.write_u64(*number),
        Param::Size(size) => salt.write_u64(*size),
        Param::Source(component) => salt.write_u64(u64::from(*component)),
        _ => {}
    }
}

fn read_params(salt: &mut DefaultHasher, list: &ParamList) {
    for param in list.as_slice() {
        read_param(salt, param);
    }
}

#[cycle(salting)]
fn read_sequence(salt: &mut DefaultHasher, sequence: &Sequence) {
    for step in sequence.as_slice() {
        read_command(salt, &step.command);
    }
}

#[cycle(salting)]
fn read_command(salt: &mut DefaultHasher, command: &Command) {
    match command {
        Command::Override(list) => read_params(salt, list),
        Command::TryEach(branches) => read_branches(salt, branches),
        Command::Run(inner) => read_sequence(salt, inner),
        _ => {}
    }
}

#[cycle(salting)]
fn read_branches(salt: &mut DefaultHasher, branches: &Branches) {
    for branch in branches.as_slice() {
        match branch {
            Some(inner) => read_sequence(salt, inner),
            None => {}
        }
    }
}

fn read_lent(salt: &mut DefaultHasher, lent: Option<&Sequence>) {
    if let Some(sequence) = lent {
        read_sequence(salt, sequence);
    }
}

/// A number that depends on everything that the overrides of a procedure state.
pub(crate) fn salt_of(plan: &Plan<'_>) -> u64 {
    let mut salt = DefaultHasher::new();
    read_lent(&mut salt, plan.shared);
    read_lent(&mut salt, plan.first);
    read_lent(&mut salt, plan.second);
    read_lent(&mut salt, plan.third);
    salt.finish()
}
