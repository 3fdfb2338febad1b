//! The parameters in force.

ghost use Rattle.std.specs.Prelude.{◌≡◌, ◌<◌, length, Some};
ghost use Rattle.std.specs.Option.{option_copied};
ghost use Rattle.suit_params.specs.InForce.{none_in_force, in_force, with_param, overridden, rank, IsOverridden};

use crate::{Param, ParamKey, ParamList};
use std::marker::Model;

/// The parameters in force (draft-ietf-suit-manifest-25, section 8.4.8): at most one for each of
/// eight components and each key. They are borrowed, so nothing is allocated.
#[derive(Drop)]
pub struct Params<'a> {
    held: [Option<&'a Param>; 96],
}

impl<'a> Model for Params<'a> {
    ghost use Rattle.std.specs.Prelude.{List, Option};
    ghost use Rattle.suit_params.specs.declared.param.Param.{Param};

    ghost Value = { List (Option Param) };

    ghost use Rattle.suit_params.specs.Lent.{lent_params};

    ghost view = { λ a. lent_params a.held };
}

/// The position of a key among the twelve, in the order of their numbers.
pub fn rank(key: ParamKey) -> usize
    ensures is { result ≡ rank key }
    ensures small { result < 12 }
{
    match key {
        ParamKey::Vendor => 0,
        ParamKey::Class => 1,
        ParamKey::Digest => 2,
        ParamKey::Slot => 3,
        ParamKey::Strict => 4,
        ParamKey::Soft => 5,
        ParamKey::Size => 6,
        ParamKey::Content => 7,
        ParamKey::Uri => 8,
        ParamKey::Source => 9,
        ParamKey::Args => 10,
        ParamKey::Device => 11,
    }
}

impl<'a> Params<'a> {
    /// No parameters in force.
    #[tactic(auto, unfolding(crate::specs::InForce::none_in_force))]
    pub fn new() -> Params<'a>
        ensures { result ≡ none_in_force }
    {
        Params { held: [None; 96] }
    }

    /// The parameter in force for a component under a key, if there is one.
    pub fn get(&self, component: u32, key: ParamKey) -> Option<&'a Param>
        requires { component < 8 }
        ensures { option_copied result ≡ in_force self.now component key }
    {
        let cells = &self.held[..];
        cells[12 * component as usize + rank(key)]
    }

    /// Copies the table, which then borrows the same parameters.
    pub fn copy(&self) -> Params<'a>
        ensures { result ≡ self.now }
    {
        Params { held: self.held }
    }

    // Tells the proof that there is a cell for each component and key.
    fn whole(&self)
        ensures { length self.now ≡ 96 }
    {
        let cells = &self.held[..];
        let _count = cells.len();
    }

    // Puts a parameter in force, in place of the one with its key.
    fn set(&mut self, component: u32, param: &'a Param)
        requires { component < 8 }
        ensures { self.new ≡ with_param self.old component param.now }
    {
        let cells = &mut self.held[..];
        cells[12 * component as usize + rank(param.key())] = Some(param);
    }

    // Puts the parameters of a list in force, one after another.
    fn set_each(&mut self, component: u32, list: &'a ParamList)
        requires { component < 8 }
        ensures { self.new ≡ overridden self.old component list.now }
    {
        for param in list.as_slice() {
            self.set(component, param);
        }
    }

    /// Overrides a component's parameters by those of a list. Each replaces the one with its key,
    /// and all others stay.
    pub fn override_with(&mut self, component: u32, list: &'a ParamList)
        requires { component < 8 }
        ensures exact { self.new ≡ overridden self.old component list.now }
        ensures last { IsOverridden self.old self.new component list.now }
    {
        self.whole();
        self.set_each(component, list);
    }
}
