//! Reading layouts from JSON.

ghost use Rattle.std.specs.Prelude.{◌≡◌, ◌≤◌, ◌↔◌, All, IfOk, IfErr, IsTrue, length, MatchResult, List};
ghost use Rattle.serde_json.specs.View.{view};
ghost use Rattle.flash_layout.specs.declared.frame.Frame.{Frame};
ghost use Rattle.flash_layout.specs.declared.layout.Entry.{Entry};
ghost use Rattle.flash_layout.specs.declared.layout_fault.LayoutFault.{LayoutFault};
ghost use Rattle.flash_layout.specs.Layouts.{IsLayout};
ghost use Rattle.flash_layout.specs.Frames.{IsFrame};
ghost use Rattle.flash_layout.specs.LayoutFaults.{AreHeld, HasBaseInside, IsBaseHeld, RefusesBase, RefusesEntries, IsLayoutOf, RefusesLayout, IsFaultOf, IsAccepted, IsRefusedFor};

use crate::device_fields::device;
use crate::first_faults::{first_alike, first_outside, first_over, first_overlap};
use crate::frame::{HEAD_SIZE, MOST_ENTRIES, is_base, most};
use crate::{Entry, Frame, Layout, LayoutFault};
use serde_json::Value;
use std::alloc::Global;

// Whether the base, if there is one, is allowed on a flash of this size.
fn is_base_inside(size: u64, frame: Frame) -> bool
    ensures { IsTrue result ↔ HasBaseInside size frame }
{
    if frame.version != 2 {
        return true;
    }
    is_base(size, frame.base)
}

// Refuses a base outside the flash, and a slot that shares a byte with what is at the base.
fn judge_base(size: u64, entries: &[Entry], frame: Frame) -> Result<(), LayoutFault>
    requires few { length entries.now ≤ MOST_ENTRIES }
    requires slots { All (λ e. e.slots ≤ 2) entries.now }
    ensures { MatchResult result (λ _. IsBaseHeld frame size entries.now)
        (RefusesBase frame size entries.now) }
{
    if !is_base_inside(size, frame) {
        return Err(LayoutFault::BaseOutside);
    }
    match first_over(frame, entries) {
        Some(component) => Err(LayoutFault::BaseOverlap(component)),
        None => Ok(()),
    }
}

// Refuses more components than the frame allows, two with the same identifier, two that share a
// byte, one outside the flash, and a base that is not allowed.
fn judge(size: u64, layout: &Layout, frame: Frame) -> Result<(), LayoutFault>
    requires { All (λ e. e.slots ≤ 2) layout.now }
    ensures { MatchResult result (λ _. AreHeld frame size layout.now)
        (RefusesEntries frame size layout.now) }
{
    let entries = layout.as_slice();
    let limit = most(frame);
    if limit < entries.len() {
        return Err(LayoutFault::TooMany(entries.len() as u64));
    }
    if let Some((first, second)) = first_alike(entries) {
        return Err(LayoutFault::TwoAlike { first, second });
    }
    if let Some((first, second)) = first_overlap(entries) {
        return Err(LayoutFault::Overlap { first, second });
    }
    if let Some(component) = first_outside(size, entries) {
        return Err(LayoutFault::Outside(component));
    }
    judge_base(size, entries, frame)
}

// Does the work of `layout_of`.
fn read_layout(alloc: Global, value: &Value, size: u64) -> Result<(Layout, Frame), LayoutFault>
    ensures ok { IfOk result (λ r. IsLayoutOf size (view value.now) r.0 r.1) }
    ensures refused { IfErr result (IsFaultOf size (view value.now)) }
{
    let (layout, frame) = device(alloc, value)?;
    judge(size, &layout, frame)?;
    Ok((layout, frame))
}

/// Reads a device's description in JSON as the layout and the frame of a flash of this size: an
/// object with `components`, an array of one to eight objects with `id`, `kind`, `capacity`,
/// `slots` (in flash only) and, optionally, `vendor`, `class` and `device`. A number `base` selects
/// layout version 2, with up to 32 components.
///
/// Members are judged in the bytewise order of their keys, and arrays in the order of their
/// elements, each value as a whole before the next one; missing fields are refused after that. Once
/// all fields are read, the order is: too many components, two with the same identifier, two that
/// share a byte, one outside the flash, a base outside the flash, and a slot over what is at the
/// base.
pub fn layout_of(alloc: Global, value: &Value, size: u64) -> Result<(Layout, Frame), LayoutFault>
    ensures ok { IfOk result (λ r. IsLayoutOf size (view value.now) r.0 r.1) }
    ensures placed { HEAD_SIZE ≤ size → IfOk result (λ r. IsFrame size r.1) }
    ensures allowed { IfOk result (λ r. IsLayout r.1 size r.0) }
    ensures refused { IfErr result (IsFaultOf size (view value.now)) }
    ensures every_layout { (layout : List Entry) (frame : Frame)
        → IsLayoutOf size (view value.now) layout frame → IsAccepted result }
    ensures every_fault { (fault : LayoutFault) → RefusesLayout size (view value.now) fault
        → IsRefusedFor fault result }
{
    match read_layout(alloc, value, size) {
        Ok((layout, frame)) => Ok((layout, frame)),
        Err(fault) => Err(fault),
    }
}
