//! The parameters in force, which borrow their bytes.

ghost use Rattle.std.specs.Prelude.{◌≡◌, ◌<◌, [], ◌∷◌, length, option_map};
ghost use Rattle.suit_params.specs.InForce.{none_in_force, in_force, with_param, overridden, IsOverridden};
ghost use Rattle.suit_params.specs.ParamSlices.{param_of};
ghost use Rattle.suit_cursor.specs.SoftFailure.{soft_by, soft_behind};

use crate::ParamView;
use std::marker::Model;
use suit_params::{ParamKey, ParamSlice, rank};

/// The parameters in force (draft-ietf-suit-manifest-25, section 8.4.8): at most one for each of
/// eight components and each key. They borrow their bytes, so nothing is allocated.
#[derive(Drop)]
pub struct SliceParams<'a> {
    held: [Option<ParamSlice<'a>>; 96],
}

impl<'a> Model for SliceParams<'a> {
    ghost use Rattle.std.specs.Prelude.{List, Option};
    ghost use Rattle.suit_params.specs.declared.param.Param.{Param};

    ghost Value = { List (Option Param) };

    ghost use Rattle.suit_cursor.specs.Lending.{params_in};

    ghost view = { λ a. params_in a.held };
}

// Soft failure after a parameter.
#[inline(always)]
fn soft_by(soft_failure: bool, param: &ParamSlice<'_>) -> bool
    ensures { result ≡ soft_by soft_failure (param_of param.now) }
{
    match param {
        ParamSlice::Soft(value) => *value,
        _ => soft_failure,
    }
}

impl<'a> SliceParams<'a> {
    /// No parameters in force.
    #[tactic(auto, unfolding(suit_params::specs::InForce::none_in_force))]
    pub fn new() -> SliceParams<'a>
        ensures { result ≡ none_in_force }
    {
        SliceParams { held: [None; 96] }
    }

    /// The parameter in force for a component under a key, if there is one.
    pub fn get(&self, component: u32, key: ParamKey) -> Option<ParamSlice<'a>>
        requires { component < 8 }
        ensures { option_map param_of result ≡ in_force self.now component key }
    {
        let cells = &self.held[..];
        cells[12 * component as usize + rank(key)]
    }

    /// A copy, which borrows the same bytes.
    pub fn copy(&self) -> SliceParams<'a>
        ensures { result ≡ self.now }
    {
        SliceParams { held: self.held }
    }

    // Tells the proof that there is a cell for each component and key.
    fn whole(&self)
        ensures { length self.now ≡ 96 }
    {
        let cells = &self.held[..];
        let _count = cells.len();
    }

    // Puts a parameter in force, in place of the one with its key.
    #[inline(always)]
    fn put(&mut self, component: u32, param: ParamSlice<'a>)
        requires { component < 8 }
        ensures { self.new ≡ with_param self.old component (param_of param.entry) }
    {
        let cells = &mut self.held[..];
        cells[12 * component as usize + rank(param.key())] = Some(param);
    }

    // Puts the parameters that are left in force, one after another.
    fn put_each(&mut self, component: u32, mut list: ParamView<'a>, soft_failure: bool) -> bool
        requires { component < 8 }
        ensures exact { self.new ≡ overridden self.old component list.entry }
        ensures soft { result ≡ soft_behind soft_failure list.entry }
    {
        let mut soft = soft_failure;
        while let Some(param) = list.next() {
            soft = soft_by(soft, &param);
            self.put(component, param);
        }
        soft
    }

    /// Puts a parameter of a component in force, and leaves all others.
    pub fn set(&mut self, component: u32, param: ParamSlice<'a>)
        requires { component < 8 }
        ensures exact { self.new ≡ with_param self.old component (param_of param.entry) }
        ensures alone { IsOverridden self.old self.new component (param_of param.entry ∷ []) }
    {
        self.whole();
        self.put(component, param);
    }

    /// Overrides a component's parameters by those that are left of an override. Each replaces the
    /// one with its key, and all others stay. Returns soft failure after them, given what it was
    /// before.
    pub fn override_with(&mut self, component: u32, list: ParamView<'a>, soft_failure: bool) -> bool
        requires { component < 8 }
        ensures exact { self.new ≡ overridden self.old component list.entry }
        ensures last { IsOverridden self.old self.new component list.entry }
        ensures soft { result ≡ soft_behind soft_failure list.entry }
    {
        self.whole();
        self.put_each(component, list, soft_failure)
    }
}
