//! Events that are told together.

ghost use Rattle.std.specs.Prelude.{◌≡◌, ◌++◌, OnOk};
ghost use Rattle.path_checker.specs.Happening.{told_by};

use crate::judge_plan::happened::Happened;
use crate::judge_plan::selected::Components;
use crate::judge_plan::sets::{tell_all_sets, tell_several};
use path_model::{Event, Events};
use std::alloc::{AllocError, Global};
use suit_commands::Step;
use suit_params::ParamList;

/// No event, one event, or all events of a swap or of overrides.
#[derive(Clone, Copy)]
pub(crate) enum Told<'a> {
    Nothing,
    One(Happened<'a>),
    /// Both writes of a swap.
    Swapped {
        component: u32,
        source: u32,
    },
    /// An override at some components.
    Sets {
        components: Components<'a>,
        list: &'a ParamList,
    },
    /// Several overrides in a row, at the same components.
    Several {
        components: Components<'a>,
        steps: &'a [Step],
    },
}

impl<'a> Told<'a> {
    /// Appends the events to a list, in memory of their own.
    pub(crate) fn tell(&self, alloc: Global, events: &mut Events) -> Result<(), AllocError>
        ensures { OnOk result (events.new ≡ events.old ++ told_by self.now) }
    {
        match *self {
            Told::Nothing => Ok(()),
            Told::One(happened) => {
                events.push(happened.told())?;
                Ok(())
            }
            Told::Swapped { component, source } => {
                events.push(Event::Wrote { component })?;
                events.push(Event::Wrote { component: source })?;
                Ok(())
            }
            Told::Sets { components, list } => tell_all_sets(alloc, components, list, events),
            Told::Several { components, steps } => tell_several(alloc, components, steps, events),
        }
    }
}
