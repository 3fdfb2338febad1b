//! The tests.

mod accepted;
mod based;
mod check;
mod cut;
mod damage;
mod device;
mod diag;
mod draws;
mod drilled;
mod failing;
mod goes;
mod installed;
mod make;
mod migrated;
mod nor;
mod procedures;
mod real_files;
mod record_digests;
mod refused;
mod show;
mod stopped;
