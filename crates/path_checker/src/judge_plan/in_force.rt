//! The parameters in force, and their values.

ghost use Rattle.std.specs.Prelude.{◌≡◌, ◌<◌, [], length, replicate, slice_get, slice_set, slice_index_or, Some, None, is_some, IsTrue, IfOk, IfSome, OnOk, OnErr};
ghost use Rattle.std.specs.Option.{option_copied};
ghost use Rattle.suit_params.specs.declared.param.ParamKey.TheVariants.{Content, Uri, Source};
ghost use Rattle.suit_params.specs.ParamKeys.{key_of};
ghost use Rattle.suit_params.specs.InForce.{rank, held_at, none_in_force, in_force, overridden, identifier_of, number_of, bytes_of, digest_in, size_in};
ghost use Rattle.path_checker.specs.Matches.{IsStated};
ghost use Rattle.path_checker.specs.Rows.{together, overridden_row, AreKeyed};
ghost use Rattle.path_checker.specs.Wanting.{wanted_by};

use crate::judge_plan::facts::Own;
use crate::judge_plan::fingerprint::{mixed, of_param};
use crate::judge_plan::made::Made;
use crate::judge_plan::memory::{Memory, WAYS};
use crate::judge_plan::same_param::same_param;
use crate::judge_plan::stated::Stated;
use path_model::overriding_laws;
use std::alloc::{AllocError, Global};
use std::cell::Cell;
use std::marker::Model;
use std::rc::Rc;
use suit_commands::TestKind;
use suit_params::{Param, ParamKey, ParamList, identifier_of, number_of, rank};

// How many components there can be.
const ROWS: usize = 8;

// The parameters in force for a component, by the ranks of their keys, and a fingerprint, or 0 before it is computed.
#[derive(Drop)]
struct Cells<'a> {
    params: [Option<&'a Param>; 12],
    print: Cell<u64>,
}

impl<'a> Model for Cells<'a> {
    ghost use Rattle.std.specs.Prelude.{List, Option};
    ghost use Rattle.suit_params.specs.declared.param.Param.{Param};

    ghost Value = { List (Option Param) };

    ghost use Rattle.suit_params.specs.Lent.{lent_params};

    ghost view = { λ a. lent_params a.params };
}

/// The parameters in force for a component. Copies share them until some are overridden.
#[derive(Drop)]
pub(crate) struct Row<'a> {
    held: Rc<Cells<'a>>,
}

impl<'a> Model for Row<'a> {
    ghost use Rattle.std.specs.Prelude.{List, Option};
    ghost use Rattle.suit_params.specs.declared.param.Param.{Param};

    ghost Value = { List (Option Param) };

    ghost view = { λ a. a.held.value };
}

/// The parameters in force for all components. Copies share all of them, or all but those of the components in which
/// they differ.
#[derive(Drop)]
pub(crate) struct InForce<'a> {
    held: Rc<Vec<Row<'a>>>,
    // Whether some were overridden since they were last shared with other states.
    fresh: bool,
}

impl<'a> Model for InForce<'a> {
    ghost use Rattle.std.specs.Prelude.{List, Option};
    ghost use Rattle.suit_params.specs.declared.param.Param.{Param};

    ghost Value = { List (Option Param) };

    ghost use Rattle.path_checker.specs.Matches.{IsStated};
    ghost use Rattle.path_checker.specs.Rows.{together, AreKeyed};

    ghost view = { λ a. together a.held.value.items };

    ghost invariant = { λ a. AreKeyed a.held.value.items };
}

fn has_bytes(param: Option<&Param>) -> bool
    ensures { result ≡ is_some (bytes_of (option_copied param.entry)) }
{
    match param {
        Some(Param::Content(_)) => true,
        Some(Param::Uri(_)) => true,
        Some(Param::Args(_)) => true,
        _ => false,
    }
}

fn source_of(param: &Param) -> Option<u32>
    requires { key_of param.now ≡ Source }
    ensures { result ≡ number_of (Some param.now) }
{
    match param {
        Param::Source(component) => Some(*component),
        _ => None,
    }
}

// How many bytes the value of a parameter has.
fn bytes_in(param: Option<&Param>) -> usize {
    match param {
        Some(Param::Content(bytes)) => bytes.len(),
        Some(Param::Uri(text)) => text.len(),
        Some(Param::Args(bytes)) => bytes.len(),
        _ => 0,
    }
}

impl<'a> Cells<'a> {
    // Nothing is in force.
    fn new() -> Cells<'a>
        ensures { result ≡ replicate 12 None }
    {
        Cells {
            params: [None; 12],
            print: Cell::new(0),
        }
    }

    // A copy in memory of its own.
    fn copy(&self) -> Cells<'a>
        ensures { result ≡ self.now }
    {
        Cells {
            params: self.params,
            print: Cell::new(self.print.get()),
        }
    }

    fn get(&self, key: ParamKey) -> Option<&'a Param>
        ensures { option_copied result ≡ held_at (slice_get self.now (rank key)) }
    {
        let params = &self.params[..];
        params[rank(key)]
    }

    // Sets the value of a key.
    fn set(&mut self, param: &'a Param)
        ensures { self.new ≡ slice_set self.old (rank (key_of param.now)) (Some param.now) }
    {
        let params = &mut self.params[..];
        params[rank(param.key())] = Some(param);
    }

    // Overrides them by the parameters of a list, in order.
    fn override_with(&mut self, list: &'a ParamList)
        ensures { self.new ≡ overridden_row self.old list.now }
    {
        for param in list.as_slice() {
            self.set(param);
        }
        self.print = Cell::new(0);
    }

    // Whether the same is in force in both.
    fn is_same(&self, other: &Cells<'_>) -> bool
        ensures { IsTrue result → self.now ≡ other.now }
    {
        let (mine, theirs) = (&self.params[..], &other.params[..]);
        let mut index = 0;
        while index < 12 {
            if !same_param(mine[index], theirs[index]) {
                return false;
            }
            index += 1;
        }
        true
    }

    // How many bytes the values have.
    fn bytes(&self) -> usize {
        let content = bytes_in(self.get(ParamKey::Content));
        let uri = bytes_in(self.get(ParamKey::Uri));
        let args = bytes_in(self.get(ParamKey::Args));
        content.saturating_add(uri).saturating_add(args)
    }

    // A fingerprint. Not 0, except by chance.
    fn fingerprint(&self, salt: u64) -> u64 {
        let mut print = salt;
        for key in &[
            ParamKey::Vendor,
            ParamKey::Class,
            ParamKey::Device,
            ParamKey::Digest,
            ParamKey::Slot,
            ParamKey::Size,
            ParamKey::Content,
            ParamKey::Uri,
            ParamKey::Source,
            ParamKey::Args,
        ] {
            print = mixed(print, of_param(self.get(*key), salt));
        }
        print
    }
}

impl<'a> Row<'a> {
    // Nothing is in force.
    fn new(alloc: Global) -> Result<Row<'a>, AllocError>
        ensures { IfOk result (λ row. row ≡ replicate 12 None) }
    {
        let held = Rc::new(alloc, Cells::new())?;
        Ok(Row { held })
    }

    // A copy that shares the memory.
    fn copy(&self) -> Result<Row<'a>, AllocError>
        ensures { IfOk result (λ row. row ≡ self.now) }
    {
        let held = self.held.clone()?;
        Ok(Row { held })
    }

    fn get(&self, key: ParamKey) -> Option<&'a Param>
        ensures { option_copied result ≡ held_at (slice_get self.now (rank key)) }
    {
        self.held.get(key)
    }

    // Overrides them by the parameters of a list, in a copy if they are shared.
    fn override_with(&mut self, alloc: Global, list: &'a ParamList) -> Result<(), AllocError>
        ensures exact { OnOk result (self.new ≡ overridden_row self.old list.now) }
        ensures err { OnErr result (self.new ≡ self.old) }
    {
        match Rc::get_mut(&mut self.held) {
            Some(own) => {
                own.override_with(list);
                Ok(())
            }
            None => {
                let mut other = self.held.copy();
                other.override_with(list);
                self.held = Rc::new(alloc, other)?;
                Ok(())
            }
        }
    }

    // Whether it is new and not shared.
    fn is_fresh(&self) -> bool {
        self.held.print.get() == 0 && Rc::strong_count(&self.held) == 1
    }

    // An equal row, if one with this fingerprint was made recently.
    fn found(
        &self,
        memory: Memory<'a>,
        made: &Made<Row<'a>>,
        print: u64,
    ) -> Result<Option<Row<'a>>, AllocError>
        ensures { IfOk result (λ found. IfSome found (λ row. row ≡ self.now)) }
    {
        let salt = memory.last.salt;
        for way in 0..WAYS {
            if let Some(row) = made.get(print, way) {
                let alike = row.fingerprint(salt) == self.fingerprint(salt);
                if alike && memory.may_read(self.bytes()) && row.is_same(self) {
                    return Ok(Some(row.copy()?));
                }
            }
        }
        Ok(None)
    }

    // A copy that shares the memory. A new row shares that of an equal one made recently, or is kept for others.
    fn shared(
        &self,
        memory: Memory<'a>,
        made: &mut Made<Row<'a>>,
        component: usize,
    ) -> Result<Row<'a>, AllocError>
        ensures { IfOk result (λ row. row ≡ self.now) }
    {
        if !self.is_fresh() {
            return self.copy();
        }
        let print = mixed(self.fingerprint(memory.last.salt), component as u64);
        if let Some(row) = self.found(memory, made, print)? {
            return Ok(row);
        }
        let own = self.copy()?;
        made.keep(print, own);
        self.copy()
    }

    // Whether the same is in force in both.
    fn is_same(&self, other: &Row<'_>) -> bool
        ensures { IsTrue result → self.now ≡ other.now }
    {
        self.held.is_same(&other.held)
    }

    fn bytes(&self) -> usize {
        self.held.bytes()
    }

    // The fingerprint, computed once.
    fn fingerprint(&self, salt: u64) -> u64 {
        let made = self.held.print.get();
        if made != 0 {
            return made;
        }
        let print = self.held.fingerprint(salt);
        self.held.print.set(print);
        print
    }
}

// Eight rows in which nothing is in force. They share their memory.
fn empty_rows<'a>(alloc: Global) -> Result<Vec<Row<'a>>, AllocError>
    ensures { IfOk result (λ rows. rows.items ≡ replicate 8 (replicate 12 None)) }
{
    let row = Row::new(alloc)?;
    let mut rows = Vec::with_capacity(alloc, 8)?;
    for _ in 0..8_u32 {
        rows.push(row.copy()?)?;
    }
    Ok(rows)
}

// A new list that shares the rows.
fn copied<'a>(alloc: Global, rows: &[Row<'a>]) -> Result<Vec<Row<'a>>, AllocError>
    ensures { IfOk result (λ other. other.items ≡ rows.now) }
{
    let mut all = Vec::with_capacity(alloc, rows.len())?;
    for row in rows {
        all.push(row.copy()?)?;
    }
    Ok(all)
}

// Overrides the parameters of a component, in a copy if they are shared.
fn override_shared<'a>(
    held: &mut Rc<Vec<Row<'a>>>,
    alloc: Global,
    component: usize,
    list: &'a ParamList,
) -> Result<(), AllocError>
    requires room { component < length held.now.value.items }
    ensures exact { OnOk result (held.new.value.items
        ≡ slice_set held.old.value.items component
        (overridden_row (slice_index_or held.old.value.items component []) list.now)) }
    ensures err { OnErr result (held.new.value.items ≡ held.old.value.items) }
{
    match Rc::get_mut(held) {
        Some(own) => own[component].override_with(alloc, list),
        None => {
            let mut other = copied(alloc, held.as_slice())?;
            other[component].override_with(alloc, list)?;
            *held = Rc::new(alloc, other)?;
            Ok(())
        }
    }
}

// A new list that shares the rows, or equal ones that were made recently.
fn shared_rows<'a>(
    memory: Memory<'a>,
    made: &mut Made<Row<'a>>,
    rows: &[Row<'a>],
) -> Result<Vec<Row<'a>>, AllocError>
    ensures { IfOk result (λ other. other.items ≡ rows.now) }
{
    let mut all = Vec::with_capacity(memory.alloc, rows.len())?;
    for row in rows {
        let component = all.len();
        all.push(row.shared(memory, made, component)?)?;
    }
    Ok(all)
}

// Shares each new row with an equal one that was made recently, unless other states share the list.
fn share_rows<'a>(
    held: &mut Rc<Vec<Row<'a>>>,
    memory: Memory<'a>,
    made: &mut Made<Row<'a>>,
) -> Result<(), AllocError>
    ensures { held.new.value.items ≡ held.old.value.items }
{
    if Rc::strong_count(held) > 1 {
        return Ok(());
    }
    let all = shared_rows(memory, made, held.as_slice())?;
    *held = Rc::new(memory.alloc, all)?;
    Ok(())
}

impl<'a> InForce<'a> {
    /// Nothing is in force.
    pub(crate) fn new(alloc: Global) -> Result<InForce<'a>, AllocError>
        ensures { IfOk result (λ params. params ≡ none_in_force) }
    {
        overriding_laws();
        let held = Rc::new(alloc, empty_rows(alloc)?)?;
        Ok(InForce { held, fresh: false })
    }

    /// A copy that shares the memory.
    pub(crate) fn copy(&self) -> Result<InForce<'a>, AllocError>
        ensures { IfOk result (λ params. params ≡ self.now) }
    {
        let held = self.held.clone()?;
        Ok(InForce {
            held,
            fresh: self.fresh,
        })
    }

    fn rows(&self) -> &[Row<'a>]
        ensures is { together result.now ≡ self.now }
        ensures keyed { AreKeyed result.now }
    {
        self.held.as_slice()
    }

    // The value in force for a component and a key.
    fn get(&self, component: u32, key: ParamKey) -> Option<&'a Param>
        requires room { component < 8 }
        ensures { option_copied result ≡ in_force self.now component key }
    {
        let index = component as usize;
        let rows = self.rows();
        rows[index].get(key)
    }

    /// Overrides the parameters of a component by those of a list, in order.
    pub(crate) fn override_with(
        &mut self,
        alloc: Global,
        component: u32,
        list: &'a ParamList,
    ) -> Result<(), AllocError>
        requires room { component < 8 }
        ensures { OnOk result (self.new ≡ overridden self.old component list.now) }
    {
        overriding_laws();
        self.fresh = true;
        override_shared(&mut self.held, alloc, component as usize, list)
    }

    /// Whether some were overridden since they were last shared.
    pub(crate) fn is_fresh(&self) -> bool {
        self.fresh
    }

    // Shares all with what was made last, if that is equal.
    fn share_all(&mut self, memory: Memory<'a>) -> Result<(), AllocError>
        ensures { OnOk result (self.new ≡ self.old) }
    {
        let (last, salt) = (&memory.last.params, memory.last.salt);
        if let Some(made) = last.replace(None) {
            let alike = made.fingerprint(ROWS, salt) == self.fingerprint(ROWS, salt);
            if alike && memory.may_read(self.bytes()) && made.is_same(self) {
                self.held = made.held.clone()?;
                last.set(Some(made));
                return Ok(());
            }
        }
        last.set(Some(self.copy()?));
        Ok(())
    }

    // Shares the rows with equal ones that were made recently.
    fn share_each(&mut self, memory: Memory<'a>, made: &mut Made<Row<'a>>) -> Result<(), AllocError>
        ensures { self.new ≡ self.old }
    {
        self.fresh = false;
        share_rows(&mut self.held, memory, made)
    }

    /// Shares what is new with equal parameters that were made recently: first each row, and then all.
    pub(crate) fn share(&mut self, memory: Memory<'a>) -> Result<(), AllocError>
        ensures { OnOk result (self.new ≡ self.old) }
    {
        let mut made = match memory.last.rows.replace(None) {
            Some(made) => made,
            None => Made::none(memory.alloc)?,
        };
        self.share_each(memory, &mut made)?;
        memory.last.rows.set(Some(made));
        self.share_all(memory)
    }

    // How many bytes the values have.
    fn bytes(&self) -> usize {
        let mut all: usize = 0;
        for row in self.rows() {
            all = all.saturating_add(row.bytes());
        }
        all
    }

    /// The cost of a comparison: 1 for each 64 bytes.
    pub(crate) fn cost(&self) -> u64 {
        self.bytes() as u64 / 64
    }

    /// Whether the same is in force in both.
    pub(crate) fn is_same(&self, other: &InForce<'_>) -> bool
        ensures { IsTrue result → self.now ≡ other.now }
    {
        let (mine, theirs) = (self.rows(), other.rows());
        if mine.len() != theirs.len() {
            return false;
        }
        let mut index = 0;
        while index < mine.len() {
            if !mine[index].is_same(&theirs[index]) {
                return false;
            }
            index += 1;
        }
        true
    }

    /// A fingerprint of the first `count` components. Where the same is in force, it is the same.
    pub(crate) fn fingerprint(&self, count: usize, salt: u64) -> u64 {
        let rows = self.rows();
        let mut print = 0;
        let mut index = 0;
        while index < rows.len() && index < count {
            print = mixed(print, rows[index].fingerprint(salt));
            index += 1;
        }
        print
    }

    /// The digest of a component and its size, if there is a digest.
    pub(crate) fn stated(&self, component: u32) -> Option<Stated<'a>>
        requires room { component < 8 }
        ensures { IsStated (digest_in self.now component) (size_in self.now component) result }
    {
        let digest = self.get(component, ParamKey::Digest);
        let size = self.get(component, ParamKey::Size);
        Stated::by(digest, size)
    }

    /// The size of a component.
    pub(crate) fn size(&self, component: u32) -> Option<u64>
        requires room { component < 8 }
        ensures { result ≡ size_in self.now component }
    {
        number_of(self.get(component, ParamKey::Size))
    }

    /// Whether a component has a content.
    pub(crate) fn has_content(&self, component: u32) -> bool
        requires room { component < 8 }
        ensures { result ≡ is_some (bytes_of (in_force self.now component Content)) }
    {
        has_bytes(self.get(component, ParamKey::Content))
    }

    /// Whether a component has a URI.
    pub(crate) fn has_uri(&self, component: u32) -> bool
        requires room { component < 8 }
        ensures { result ≡ is_some (bytes_of (in_force self.now component Uri)) }
    {
        has_bytes(self.get(component, ParamKey::Uri))
    }

    /// The source of a component.
    pub(crate) fn source(&self, component: u32) -> Option<u32>
        requires room { component < 8 }
        ensures { result ≡ number_of (in_force self.now component Source) }
    {
        let _ = &self.held;
        match self.get(component, ParamKey::Source) {
            Some(param) => source_of(param),
            None => None,
        }
    }

    fn identifier(&self, component: u32, key: ParamKey) -> Option<[u8; 16]>
        requires room { component < 8 }
        ensures { result ≡ identifier_of (in_force self.now component key) }
    {
        identifier_of(self.get(component, key))
    }

    /// The identity that a condition asks for.
    pub(crate) fn wanted(&self, kind: TestKind, component: u32) -> Option<Own>
        requires room { component < 8 }
        ensures { result ≡ wanted_by kind self.now component }
    {
        match kind {
            TestKind::Vendor => match self.identifier(component, ParamKey::Vendor) {
                Some(id) => Some(Own::Vendor(id)),
                None => None,
            },
            TestKind::Class => match self.identifier(component, ParamKey::Class) {
                Some(id) => Some(Own::Class(id)),
                None => None,
            },
            TestKind::Device => match self.identifier(component, ParamKey::Device) {
                Some(id) => Some(Own::Device(id)),
                None => None,
            },
            TestKind::Slot => match number_of(self.get(component, ParamKey::Slot)) {
                Some(number) => Some(Own::Slot(number)),
                None => None,
            },
            _ => None,
        }
    }
}
