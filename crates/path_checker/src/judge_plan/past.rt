//! The events that led to a state. While a procedure is judged only proofs read them, and they take no memory.

ghost use Rattle.std.specs.Prelude.{◌≡◌, [], ◌++◌, IfSome, IfOk, OnOk, OnErr};
ghost use Rattle.path_checker.specs.Happening.{told_by};

use crate::judge_plan::telling::Told;
use http_server::Log;
use path_model::Events;
use std::alloc::{AllocError, Global};
use std::marker::Model;

/// The events that led to a state.
#[derive(Drop)]
pub(crate) struct Past<'a> {
    log: Log<Told<'a>, ()>,
    // The same events, where they are recorded. They are boxed, so that a state is small.
    recorded: Option<Box<Events>>,
}

impl<'a> Model for Past<'a> {
    ghost use Rattle.std.specs.Prelude.{◌≡◌, List, IfSome};
    ghost use Rattle.path_model.specs.declared.event.Event.{Event};

    ghost Value = { List Event };

    ghost use Rattle.path_checker.specs.Happening.{log_told};

    ghost view = { λ a. log_told a.log.items };

    ghost invariant = { λ a. IfSome a.recorded (λ events. events.value ≡ log_told a.log.items) };
}

impl<'a> Past<'a> {
    /// No events. Those that are added are not recorded.
    pub(crate) fn new() -> Past<'a>
        ensures { result ≡ [] }
    {
        Past {
            log: Log::new(),
            recorded: None,
        }
    }

    /// No events. Those that are added are recorded.
    pub(crate) fn recording(alloc: Global) -> Result<Past<'a>, AllocError>
        ensures { IfOk result (λ past. past ≡ []) }
    {
        let events = Box::new(alloc, Events::new(alloc))?;
        Ok(Past {
            log: Log::new(),
            recorded: Some(events),
        })
    }

    /// Adds events. If memory runs out, nothing is recorded from then on.
    pub(crate) fn add(&mut self, alloc: Global, told: Told<'a>) -> Result<(), AllocError>
        ensures ok { OnOk result (self.new ≡ self.old ++ told_by told.entry) }
        ensures err { OnErr result (self.new ≡ self.old) }
    {
        if self.recorded.is_some() {
            return self.record(alloc, told);
        }
        self.log = self.log.and(&told, &());
        Ok(())
    }

    // Adds events, and records them.
    #[inline(never)]
    fn record(&mut self, alloc: Global, told: Told<'a>) -> Result<(), AllocError>
        ensures ok { OnOk result (self.new ≡ self.old ++ told_by told.entry) }
        ensures err { OnErr result (self.new ≡ self.old) }
    {
        if let Some(events) = self.recorded.take() {
            let mut events = events;
            told.tell(alloc, &mut *events)?;
            self.recorded = Some(events);
        }
        self.log = self.log.and(&told, &());
        Ok(())
    }

    /// Forgets all events. The next ones are not recorded.
    pub(crate) fn clear(&mut self)
        ensures { self.new ≡ [] }
    {
        self.log = Log::new();
        self.recorded = None;
    }

    /// The same events, which are not recorded.
    pub(crate) fn copy(&self) -> Past<'a>
        ensures { result ≡ self.now }
    {
        Past {
            log: self.log.and(&Told::Nothing, &()),
            recorded: None,
        }
    }

    /// All events in order, if they were recorded.
    pub(crate) fn recorded(self) -> Option<Events>
        ensures { IfSome result (λ events. events ≡ self.entry) }
    {
        match self.recorded {
            Some(events) => Some(Box::into_inner(events)),
            None => None,
        }
    }
}
