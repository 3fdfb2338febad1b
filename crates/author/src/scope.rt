//! What is known when a description is read.

use crate::FileList;
use crate::severing::Severed;
use std::marker::Model;

/// The files and the number of components, and whether the commands are in the shared sequence.
#[derive(Drop)]
pub(crate) struct Scope<'a> {
    pub(crate) files: &'a FileList,
    pub(crate) shared: bool,
    pub(crate) count: u32,
}

impl<'a> Model for Scope<'a> {
    ghost use Rattle.author.specs.Scope as plain;

    ghost Value = { plain.Scope };

    ghost view = { λ s. record { files = s.files.now; shared = s.shared; count = s.count } };
}

/// What is known before the fields are read: the scope of all sequences but the shared one, with as many components as
/// identifiers are listed, and the members that are given with their content.
#[derive(Drop)]
pub(crate) struct Source<'a> {
    pub(crate) scope: Scope<'a>,
    pub(crate) given: Severed,
}
