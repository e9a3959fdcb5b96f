//! Groups of edits that need nothing beside them.
ghost use Rattle.std.specs.Prelude.{◌≡◌, ◌&&◌, ◌<◌, ◌≤◌, true, None, [], length, OnOk, IfSome};
ghost use Rattle.std.specs.List.{AllByRecursion};
ghost use Rattle.spec_document.specs.Limits.{AreBytes};
ghost use Rattle.spec_edit.specs.Edit as edits;
ghost use Rattle.spec_edit.specs.Edit.{IsEdit};
ghost use Rattle.spec_file.specs.Header.{is_side};
ghost use Rattle.spec_script.specs.Commands.{are_colours};
ghost use Rattle.spec_tables.specs.Agrees.{AreThere};
ghost use Rattle.xcf.specs.Plain.{is_plain, first_unplain, IsChecked};
ghost use Rattle.xl_calls.specs.Edits.{edit_of, edits_of};

use crate::errors::NotGroup;
use spec_history::MAX_EDITS;
use xl_calls::Edit;
use xl_doc::{Bytes, MAX_SIDE, know_bytes};

fn is_side(pixels: u32) -> bool
    ensures { result ≡ is_side pixels }
{
    1 <= pixels && pixels <= MAX_SIDE
}

// Whether there are 1 to 256 colours of three bytes.
fn are_colours(bytes: &Bytes) -> bool
    ensures { result ≡ are_colours bytes.now }
{
    let len = bytes.len();
    3 <= len && (len <= 768 && len % 3 == 0)
}

// Whether these are the sides of a layer.
fn are_sides(w: u32, h: u32) -> bool
    ensures { result ≡ (is_side w && is_side h) }
{
    is_side(w) && is_side(h)
}

// Whether an edit needs nothing beside it: it is no filter, and within the limits of its type.
fn is_plain(edit: &Edit) -> bool
    ensures { result ≡ is_plain (edit_of edit.now) }
{
    match edit {
        Edit::Filter { .. } => false,
        Edit::NewLayer { w, h, .. } => are_sides(*w, *h),
        Edit::SetColours { bytes } => are_colours(bytes),
        Edit::Fill { .. }
        | Edit::Write { .. }
        | Edit::CopyRect { .. }
        | Edit::FillMask { .. }
        | Edit::FillChannel { .. }
        | Edit::SetOpacity { .. }
        | Edit::SetMode { .. }
        | Edit::SetVisible { .. }
        | Edit::SetLockAlpha { .. }
        | Edit::SetLockContent { .. }
        | Edit::SetOffset { .. }
        | Edit::Rename { .. }
        | Edit::SetApplyMask { .. }
        | Edit::AddMask { .. }
        | Edit::DropMask { .. }
        | Edit::NewGroup { .. }
        | Edit::Delete { .. }
        | Edit::Restack { .. }
        | Edit::Select { .. }
        | Edit::SelectNone
        | Edit::AddChannel { .. }
        | Edit::DropChannel { .. } => true,
    }
}

// Tells contracts that bytes are bytes.
fn know(bytes: &Bytes)
    ensures { AreBytes bytes.now }
{
    know_bytes(bytes.as_slice());
}

fn know_byte(value: u8)
    ensures { value ≤ 255 }
{}

// Tells contracts that so many bytes are 1 to 256 colours.
fn know_colours(bytes: &Bytes)
    requires { are_colours bytes.now ≡ true }
    ensures { IsEdit (edits.set_colours bytes.now) }
{
    know(bytes);
}

// Tells contracts that a plain edit is within the limits of its type.
fn know_edit(edit: &Edit)
    requires { is_plain (edit_of edit.now) ≡ true }
    ensures { IsEdit (edit_of edit.now) }
{
    match edit {
        Edit::Fill { pixel, .. } => know(pixel),
        Edit::Write { bytes, .. } => know(bytes),
        Edit::Rename { name, .. } => know(name),
        Edit::NewLayer { name, .. } => know(name),
        Edit::NewGroup { name, .. } => know(name),
        Edit::AddChannel { name } => know(name),
        Edit::SetColours { bytes } => know_colours(bytes),
        Edit::FillMask { value, .. } => know_byte(*value),
        Edit::FillChannel { value, .. } => know_byte(*value),
        Edit::SetOpacity { value, .. } => know_byte(*value),
        Edit::Select { value, .. } => know_byte(*value),
        Edit::Filter { .. }
        | Edit::CopyRect { .. }
        | Edit::SetMode { .. }
        | Edit::SetVisible { .. }
        | Edit::SetLockAlpha { .. }
        | Edit::SetLockContent { .. }
        | Edit::SetOffset { .. }
        | Edit::SetApplyMask { .. }
        | Edit::AddMask { .. }
        | Edit::DropMask { .. }
        | Edit::Delete { .. }
        | Edit::Restack { .. }
        | Edit::SelectNone
        | Edit::DropChannel { .. } => {}
    }
}

// The place of the first edit that is not plain. Where there is none, all are within the limits of their types.
#[tactic(auto, using(crate::proofs::Checking::begins, crate::proofs::Checking::stops, crate::proofs::Checking::all_seen, crate::proofs::Checking::all_within))]
fn first_unplain(edits: &[Edit]) -> Option<usize>
    ensures value { result ≡ first_unplain (edits_of edits.now) }
    ensures within { result ≡ None → AllByRecursion IsEdit (edits_of edits.now) }
    ensures inside { IfSome result (λ place. place < length edits.now) }
{
    for (index, edit) in edits.iter().enumerate() {
        if !is_plain(edit) {
            return Some(index);
        }
        know_edit(edit);
    }
    None
}

/// Whether edits are a group that a session may ask for at a desk without filters: 1 to 1024 of them, no filter among
/// them, and each within the limits of its type. It looks at no document, and takes no memory.
///
/// Errors: `Count`, or else `NotPlain` with the first edit that is a filter or past its limits, counted from 0.
pub fn check_group(edits: &[Edit]) -> Result<(), NotGroup>
    ensures checked { IsChecked (edits_of edits.now) result }
    ensures there { OnOk result (AreThere [] (edits_of edits.now)) }
{
    if edits.is_empty() || edits.len() > MAX_EDITS as usize {
        return Err(NotGroup::Count);
    }
    match first_unplain(edits) {
        Some(place) => Err(NotGroup::NotPlain(place as u32)),
        None => Ok(()),
    }
}
