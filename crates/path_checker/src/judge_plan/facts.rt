//! What is known of the identities of all components.

ghost use Rattle.std.specs.Prelude.{◌≡◌, ◌<◌, length, slice_set, IsTrue, IfSome, IfOk, OnOk};
ghost use Rattle.path_checker.specs.Knowing.{nothing, nothing_known};
ghost use Rattle.path_checker.specs.Forking.{Forks, Learnt, TellsOne, learnt_at, learnt, excluded, some_if};

use crate::judge_plan::fingerprint::mixed;
use crate::judge_plan::known::Known;
use crate::judge_plan::made::Made;
use crate::judge_plan::memory::{Memory, WAYS};
use std::alloc::{AllocError, Global};
use std::cell::Cell;
use std::marker::Model;
use std::rc::Rc;

/// A vendor, class or device identifier, or a slot number, that an identity condition asks for.
#[derive(Clone, Copy, Debug)]
pub(crate) enum Own {
    Vendor([u8; 16]),
    Class([u8; 16]),
    Device([u8; 16]),
    Slot(u64),
}

/// What is known of one component's identity.
#[derive(Debug, Drop)]
pub(crate) struct Knowledge {
    pub vendor: Known<[u8; 16]>,
    pub class: Known<[u8; 16]>,
    pub device: Known<[u8; 16]>,
    pub slot: Known<u64>,
}

/// What is known of one component's identity, with its fingerprint and the number of values that are ruled out.
#[derive(Drop)]
struct Printed {
    print: u64,
    others: u64,
    known: Knowledge,
}

impl Model for Printed {
    ghost use Rattle.path_checker.specs.declared.judge_plan.facts.Knowledge.{Knowledge};

    ghost Value = { Knowledge };

    ghost view = { λ a. a.known };
}

/// What is known of one component's identity, shared between copies.
#[derive(Drop)]
pub(crate) struct Shared {
    held: Rc<Printed>,
}

impl Model for Shared {
    ghost use Rattle.path_checker.specs.declared.judge_plan.facts.Knowledge.{Knowledge};

    ghost Value = { Knowledge };

    ghost view = { λ a. a.held.value };
}

// What is known of each component's identity, in the order of the components, and the fingerprint of all of it.
#[derive(Drop)]
struct Each {
    all: Vec<Shared>,
    print: u64,
}

impl Model for Each {
    ghost use Rattle.std.specs.Prelude.{List};
    ghost use Rattle.path_checker.specs.declared.judge_plan.facts.Knowledge.{Knowledge};

    ghost Value = { List Knowledge };

    ghost view = { λ a. a.all.items };
}

/// What is known of each component's identity, in the order of the components. Copies share all of it, or all but the
/// components in which they differ.
#[derive(Drop)]
pub(crate) struct Facts {
    held: Rc<Each>,
}

impl Model for Facts {
    ghost use Rattle.std.specs.Prelude.{List};
    ghost use Rattle.path_checker.specs.declared.judge_plan.facts.Knowledge.{Knowledge};

    ghost Value = { List Knowledge };

    ghost view = { λ a. a.held.value };
}

/// Whether a component has a given identifier or slot: known, or the facts for either case.
#[derive(Drop)]
pub(crate) enum Fork {
    Has,
    HasNot,
    Either(Facts, Facts),
}

impl Knowledge {
    // Creates knowledge of nothing. Does not allocate.
    fn new(alloc: Global) -> Knowledge
        ensures { result ≡ nothing }
    {
        Knowledge {
            vendor: Known::new(alloc),
            class: Known::new(alloc),
            device: Known::new(alloc),
            slot: Known::new(alloc),
        }
    }

    fn copy(&self, alloc: Global) -> Result<Knowledge, AllocError>
        ensures { IfOk result (λ other. other ≡ self.now) }
    {
        Ok(Knowledge {
            vendor: self.vendor.copy(alloc)?,
            class: self.class.copy(alloc)?,
            device: self.device.copy(alloc)?,
            slot: self.slot.copy(alloc)?,
        })
    }

    // Whether both know the same.
    fn is_same(&self, other: &Knowledge) -> bool
        ensures { IsTrue result → self.now ≡ other.now }
    {
        self.vendor.is_same(&other.vendor)
            && self.class.is_same(&other.class)
            && self.device.is_same(&other.device)
            && self.slot.is_same(&other.slot)
    }

    // Whether this is `from` after learning `own`.
    fn is_learnt(&self, from: &Knowledge, own: &Own) -> bool
        ensures { IsTrue result → self.now ≡ learnt from.now own.now }
    {
        match own {
            Own::Vendor(id) => {
                self.vendor.is_just(id)
                    && self.class.is_same(&from.class)
                    && self.device.is_same(&from.device)
                    && self.slot.is_same(&from.slot)
            }
            Own::Class(id) => {
                self.vendor.is_same(&from.vendor)
                    && self.class.is_just(id)
                    && self.device.is_same(&from.device)
                    && self.slot.is_same(&from.slot)
            }
            Own::Device(id) => {
                self.vendor.is_same(&from.vendor)
                    && self.class.is_same(&from.class)
                    && self.device.is_just(id)
                    && self.slot.is_same(&from.slot)
            }
            Own::Slot(number) => {
                self.vendor.is_same(&from.vendor)
                    && self.class.is_same(&from.class)
                    && self.device.is_same(&from.device)
                    && self.slot.is_just(number)
            }
        }
    }

    fn fingerprint(&self, salt: u64) -> u64 {
        let vendor = mixed(salt, self.vendor.fingerprint(salt));
        let class = mixed(vendor, self.class.fingerprint(salt));
        let device = mixed(class, self.device.fingerprint(salt));
        mixed(device, self.slot.fingerprint(salt))
    }

    // How many values are ruled out.
    fn others(&self) -> u64 {
        let names = self.vendor.others().saturating_add(self.class.others());
        let numbers = self.device.others().saturating_add(self.slot.others());
        names.saturating_add(numbers)
    }

    // Whether the component has this value, if that is known.
    fn tells(&self, own: &Own) -> Option<bool>
        ensures { TellsOne self.now own.now result }
    {
        match own {
            Own::Vendor(id) => self.vendor.tells(id),
            Own::Class(id) => self.class.tells(id),
            Own::Device(id) => self.device.tells(id),
            Own::Slot(number) => self.slot.tells(number),
        }
    }

    // Learns that the component has this value.
    fn learn(&mut self, alloc: Global, own: &Own)
        ensures { self.new ≡ learnt self.old own.now }
    {
        match own {
            Own::Vendor(id) => self.vendor = Known::of(alloc, *id),
            Own::Class(id) => self.class = Known::of(alloc, *id),
            Own::Device(id) => self.device = Known::of(alloc, *id),
            Own::Slot(number) => self.slot = Known::of(alloc, *number),
        }
    }

    // A copy that has learnt this value.
    fn with(&self, alloc: Global, own: &Own) -> Result<Knowledge, AllocError>
        ensures { IfOk result (λ other. other ≡ learnt self.now own.now) }
    {
        let mut other = self.copy(alloc)?;
        other.learn(alloc, own);
        Ok(other)
    }

    // Rules this value out.
    fn exclude(&mut self, own: &Own) -> Result<(), AllocError>
        ensures { OnOk result (self.new ≡ excluded self.old own.now) }
    {
        match own {
            Own::Vendor(id) => self.vendor.exclude(*id),
            Own::Class(id) => self.class.exclude(*id),
            Own::Device(id) => self.device.exclude(*id),
            Own::Slot(number) => self.slot.exclude(*number),
        }
    }

    // A copy that rules this value out.
    fn without(&self, alloc: Global, own: &Own) -> Result<Knowledge, AllocError>
        ensures { IfOk result (λ other. other ≡ excluded self.now own.now) }
    {
        let mut other = self.copy(alloc)?;
        other.exclude(own)?;
        Ok(other)
    }
}

impl Printed {
    // Creates knowledge of nothing. Its fingerprint is 0.
    fn unknown(alloc: Global) -> Printed
        ensures { result ≡ nothing }
    {
        Printed {
            print: 0,
            others: 0,
            known: Knowledge::new(alloc),
        }
    }

    fn new(known: Knowledge, salt: u64) -> Printed
        ensures { result ≡ known }
    {
        let print = known.fingerprint(salt);
        let others = known.others();
        Printed {
            print,
            others,
            known,
        }
    }
}

impl Shared {
    // Creates knowledge of nothing.
    fn unknown(alloc: Global) -> Result<Shared, AllocError>
        ensures { IfOk result (λ shared. shared ≡ nothing) }
    {
        Shared::new(alloc, Printed::unknown(alloc))
    }

    fn new(alloc: Global, printed: Printed) -> Result<Shared, AllocError>
        ensures { IfOk result (λ shared. shared ≡ printed) }
    {
        let held = Rc::new(alloc, printed)?;
        Ok(Shared { held })
    }

    pub(crate) fn known(&self) -> &Knowledge
        ensures { result.now ≡ self.now }
    {
        &self.held.known
    }

    // A copy that shares the memory.
    fn copy(&self) -> Result<Shared, AllocError>
        ensures { IfOk result (λ other. other ≡ self.now) }
    {
        let held = self.held.clone()?;
        Ok(Shared { held })
    }

    // Whether both know the same.
    fn is_same(&self, other: &Shared) -> bool
        ensures { IsTrue result → self.now ≡ other.now }
    {
        self.known().is_same(other.known())
    }

    // Whether both know the same. Nearly all that differ are told apart by their fingerprints.
    fn is_alike(&self, other: &Printed) -> bool
        ensures { IsTrue result → self.now ≡ other.now }
    {
        self.held.print == other.print && self.known().is_same(&other.known)
    }

    // Whether the component has this value, if that is known.
    fn tells(&self, own: &Own) -> Option<bool>
        ensures { TellsOne self.now own.now result }
    {
        self.known().tells(own)
    }

    // Shares equal knowledge among what was made recently, or else allocates this and keeps it there.
    fn found(alloc: Global, printed: Printed, made: &mut Made<Shared>) -> Result<Shared, AllocError>
        ensures { IfOk result (λ shared. shared ≡ printed) }
    {
        let print = printed.print;
        for way in 0..WAYS {
            if let Some(shared) = made.get(print, way) {
                if shared.is_alike(&printed) {
                    return shared.copy();
                }
            }
        }
        let own = Shared::new(alloc, printed)?;
        made.keep(print, own.copy()?);
        Ok(own)
    }

    // Puts knowledge into shared memory. While many states are kept, it shares equal knowledge that was made recently.
    fn made(memory: Memory<'_>, printed: Printed) -> Result<Shared, AllocError>
        ensures { IfOk result (λ shared. shared ≡ printed) }
    {
        if !memory.is_crowded() {
            return Shared::new(memory.alloc, printed);
        }
        let mut made = match memory.last.known.replace(None) {
            Some(made) => made,
            None => Made::none(memory.alloc)?,
        };
        let shared = Shared::found(memory.alloc, printed, &mut made)?;
        memory.last.known.set(Some(made));
        Ok(shared)
    }

    // Puts knowledge into shared memory, or shares what was made last if that is equal.
    fn shared(
        memory: Memory<'_>,
        known: Knowledge,
        last: &Cell<Option<Shared>>,
    ) -> Result<Shared, AllocError>
        ensures { IfOk result (λ shared. shared ≡ known) }
    {
        let printed = Printed::new(known, memory.last.salt);
        if let Some(made) = last.replace(None) {
            if made.is_alike(&printed) {
                let same = made.copy()?;
                last.set(Some(made));
                return Ok(same);
            }
        }
        let made = Shared::made(memory, printed)?;
        last.set(Some(made.copy()?));
        Ok(made)
    }

    // What was made last, if that is this knowledge after learning `own`.
    fn learnt_last(
        &self,
        own: &Own,
        last: &Cell<Option<Shared>>,
    ) -> Result<Option<Shared>, AllocError>
        ensures { IfOk result
            (λ found. IfSome found (λ other. other ≡ learnt self.now own.now)) }
    {
        let Some(made) = last.replace(None) else {
            return Ok(None);
        };
        if !made.known().is_learnt(self.known(), own) {
            last.set(Some(made));
            return Ok(None);
        }
        let same = made.copy()?;
        last.set(Some(made));
        Ok(Some(same))
    }

    // This knowledge after learning a value.
    fn with(&self, memory: Memory<'_>, component: usize, own: &Own) -> Result<Shared, AllocError>
        ensures { IfOk result (λ other. other ≡ learnt self.now own.now) }
    {
        let last = memory.having(component)?;
        if let Some(other) = self.learnt_last(own, last)? {
            return Ok(other);
        }
        let known = self.known().with(memory.alloc, own)?;
        Shared::shared(memory, known, last)
    }

    // Learns that the component has this value. Copies that share the knowledge keep it as it was.
    fn learn(&mut self, memory: Memory<'_>, component: usize, own: &Own) -> Result<(), AllocError>
        ensures { OnOk result (self.new ≡ learnt self.old own.now) }
    {
        *self = self.with(memory, component, own)?;
        Ok(())
    }

    // This knowledge with a value ruled out.
    fn without(&self, memory: Memory<'_>, component: usize, own: &Own) -> Result<Shared, AllocError>
        ensures { IfOk result (λ other. other ≡ excluded self.now own.now) }
    {
        let known = self.known().without(memory.alloc, own)?;
        Shared::shared(memory, known, memory.lacking(component)?)
    }
}

// The fingerprint of what is known of all components.
fn print_of(all: &[Shared]) -> u64 {
    let mut print = 0;
    for known in all {
        print = mixed(print, known.held.print);
    }
    print
}

impl Each {
    fn of(all: Vec<Shared>) -> Each
        ensures { result ≡ all.items }
    {
        let print = print_of(&all);
        Each { all, print }
    }

    // Learns that a component has this value. Copies that share its knowledge keep it as it was.
    fn learn(&mut self, memory: Memory<'_>, component: usize, own: &Own) -> Result<(), AllocError>
        requires { component < length self.now }
        ensures { OnOk result (self.new ≡ learnt_at self.old component own.now) }
    {
        self.all[component].learn(memory, component, own)?;
        self.print = print_of(&self.all);
        Ok(())
    }
}

impl Facts {
    // The facts made of what is known of each component.
    fn of(alloc: Global, all: Vec<Shared>) -> Result<Facts, AllocError>
        ensures { IfOk result (λ facts. facts ≡ all.items) }
    {
        let held = Rc::new(alloc, Each::of(all))?;
        Ok(Facts { held })
    }

    /// Creates facts that say nothing about `count` components.
    pub(crate) fn unknown(alloc: Global, count: u32) -> Result<Facts, AllocError>
        ensures { IfOk result (λ facts. facts ≡ nothing_known count) }
    {
        let mut held = Vec::new(alloc);
        for _ in 0..count {
            let known = Shared::unknown(alloc)?;
            held.push(known)?;
        }
        Facts::of(alloc, held)
    }

    /// A copy that shares the memory.
    pub(crate) fn copy(&self) -> Result<Facts, AllocError>
        ensures { IfOk result (λ other. other ≡ self.now) }
    {
        let held = self.held.clone()?;
        Ok(Facts { held })
    }

    // What is known of each component, in a new list.
    fn copied(&self, alloc: Global) -> Result<Vec<Shared>, AllocError>
        ensures { IfOk result (λ other. other.items ≡ self.now) }
    {
        let mut held = Vec::with_capacity(alloc, self.as_slice().len())?;
        for known in self.as_slice() {
            held.push(known.copy()?)?;
        }
        Ok(held)
    }

    /// Whether both know the same.
    pub(crate) fn is_same(&self, other: &Facts) -> bool
        ensures { IsTrue result → self.now ≡ other.now }
    {
        let (mine, theirs) = (self.as_slice(), other.as_slice());
        if mine.len() != theirs.len() {
            return false;
        }
        let mut index = 0;
        while index < mine.len() {
            if !mine[index].is_same(&theirs[index]) {
                return false;
            }
            index += 1;
        }
        true
    }

    /// A fingerprint. Equal facts have equal ones.
    pub(crate) fn fingerprint(&self) -> u64 {
        self.held.print
    }

    /// The cost of a comparison: how many values are ruled out.
    pub(crate) fn cost(&self) -> u64 {
        let mut cost: u64 = 0;
        for known in self.as_slice() {
            cost = cost.saturating_add(known.held.others);
        }
        cost
    }

    /// What is known of each component.
    pub(crate) fn as_slice(&self) -> &[Shared]
        ensures { result.now ≡ self.now }
    {
        &self.held.all
    }

    // A copy that knows something else of one component.
    fn with(&self, alloc: Global, component: usize, known: Shared) -> Result<Facts, AllocError>
        requires { component < length self.now }
        ensures { IfOk result (λ other. other ≡ slice_set self.now component known) }
    {
        let mut held = self.copied(alloc)?;
        held[component] = known;
        Facts::of(alloc, held)
    }

    // Learns that a component has this value. Copies that share the facts keep them as they were.
    fn learn_at(
        &mut self,
        memory: Memory<'_>,
        component: usize,
        own: &Own,
    ) -> Result<(), AllocError>
        requires { component < length self.now }
        ensures { OnOk result (self.new ≡ learnt_at self.old component own.now) }
    {
        match Rc::get_mut(&mut self.held) {
            Some(held) => held.learn(memory, component, own),
            None => {
                let mut all = self.copied(memory.alloc)?;
                all[component].learn(memory, component, own)?;
                *self = Facts::of(memory.alloc, all)?;
                Ok(())
            }
        }
    }

    /// Whether a component may have this value. If so, these become the facts under which it has.
    pub(crate) fn learn(
        &mut self,
        memory: Memory<'_>,
        component: u32,
        own: &Own,
    ) -> Result<bool, AllocError>
        ensures { IfOk result (λ may. Learnt self.old component own.now (some_if may self.new)) }
    {
        let index = component as usize;
        let held = self.as_slice();
        if index >= held.len() {
            return Ok(false);
        }
        match held[index].tells(own) {
            Some(has) => Ok(has),
            None => {
                self.learn_at(memory, index, own)?;
                Ok(true)
            }
        }
    }

    /// Splits the facts by whether a component has this value. A component without an identity has none.
    pub(crate) fn fork(
        &self,
        memory: Memory<'_>,
        component: u32,
        own: &Own,
    ) -> Result<Fork, AllocError>
        ensures { IfOk result (Forks self.now component own.now) }
    {
        let index = component as usize;
        let held = self.as_slice();
        if index >= held.len() {
            return Ok(Fork::HasNot);
        }
        let known = &held[index];
        match known.tells(own) {
            Some(has) => { if has { Ok(Fork::Has) } else { Ok(Fork::HasNot) } }
            None => {
                let has = self.with(memory.alloc, index, known.with(memory, index, own)?)?;
                let has_not = self.with(memory.alloc, index, known.without(memory, index, own)?)?;
                Ok(Fork::Either(has, has_not))
            }
        }
    }
}
