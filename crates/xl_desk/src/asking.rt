//! The filters of a group of edits.
ghost use Rattle.std.specs.Prelude.{◌≡◌, ◌+◌, ◌≤◌, true, cond, drop, length, IfOk, OnErr};
ghost use Rattle.std.specs.List.{AllByRecursion};
ghost use Rattle.spec_document.specs.Limits.{AreBytes};
ghost use Rattle.spec_edit.specs.Apply.{is_filter, first_table};
ghost use Rattle.spec_edit.specs.Edit.{slot_of};
ghost use Rattle.spec_tables.specs.Acceptance.{filter_count};
ghost use Rattle.spec_tables.specs.Agrees.{AreThere, AreAsked, IsPartUsed};
ghost use Rattle.xl_calls.specs.Edits.{edit_of, edits_of};
ghost use Rattle.xl_filters.specs.Chests.{states_in};

use crate::bytes::know_table;
use std::alloc::{AllocError, Global};
use xl_calls::Edit;
use xl_filters::{Chest, FilterKind, FilterState, PointFilter, Table, Tables};

/// The next table where the edit is a filter, and else any.
pub fn table_for<'a>(edit: &Edit, tables: &'a [Table], taken: usize, blank: &'a Table) -> &'a Table
    requires { taken + cond (is_filter (edit_of edit.now)) 1 0 ≤ length tables.now }
    ensures { is_filter (edit_of edit.now) ≡ true → result.now ≡ first_table
        (drop taken tables.now) }
{
    if is_filter(edit) {
        &tables[taken]
    } else {
        blank
    }
}

// Whether an edit names a filter.
fn is_filter(edit: &Edit) -> bool
    ensures { result ≡ is_filter (edit_of edit.now) }
{
    slot_of(edit).is_some()
}

// The slot of the filter that an edit asks.
fn slot_of(edit: &Edit) -> Option<u32>
    ensures { result ≡ slot_of (edit_of edit.now) }
{
    match edit {
        Edit::Filter { slot, .. } => Some(*slot),
        Edit::Fill { .. }
        | Edit::Write { .. }
        | Edit::CopyRect { .. }
        | Edit::FillMask { .. }
        | Edit::FillChannel { .. }
        | Edit::SetOpacity { .. }
        | Edit::SetMode { .. }
        | Edit::SetVisible { .. }
        | Edit::SetLockAlpha { .. }
        | Edit::SetLockContent { .. }
        | Edit::SetOffset { .. }
        | Edit::Rename { .. }
        | Edit::SetApplyMask { .. }
        | Edit::AddMask { .. }
        | Edit::DropMask { .. }
        | Edit::NewLayer { .. }
        | Edit::NewGroup { .. }
        | Edit::Delete { .. }
        | Edit::Restack { .. }
        | Edit::Select { .. }
        | Edit::SelectNone
        | Edit::AddChannel { .. }
        | Edit::DropChannel { .. }
        | Edit::SetColours { .. } => None,
    }
}

/// How many tables an edit takes: one where it is a filter, and else none.
pub fn filter_count(edit: &Edit) -> usize
    ensures { result ≡ cond (is_filter (edit_of edit.now)) 1 0 }
{
    if is_filter(edit) { 1 } else { 0 }
}

/// A table that stands for any.
pub fn blank_table() -> Table {
    Table::of(FilterState {
        kind: FilterKind::Invert,
        amount: 0,
        uses: 0,
    })
}

/// A table for each filter among the edits, no matter which.
pub fn blank_tables(alloc: Global, edits: &[Edit]) -> Result<Tables, AllocError>
    ensures { IfOk result (λ tables. length tables ≡ filter_count (edits_of edits.now)) }
{
    let mut tables = Tables::new(alloc);
    for edit in edits {
        if is_filter(edit) {
            tables.push(blank_table())?;
        }
    }
    Ok(tables)
}

/// The tables that the filters of the edits answer, each asked once for each of its edits, in order. Where memory runs
/// out the filters of the first edits may have been asked.
pub fn ask_filters(alloc: Global, edits: &[Edit], chest: &mut Chest) -> Result<Tables, AllocError>
    requires there { AreThere (states_in state chest.old) (edits_of edits.now) }
    ensures asked { IfOk result (λ tables. AreAsked (states_in state chest.old)
        (states_in state chest.new) (edits_of edits.now) tables) }
    ensures count { IfOk result (λ tables. length tables ≡ filter_count (edits_of edits.now)) }
    ensures bytes { IfOk result (λ tables. AllByRecursion AreBytes tables) }
    ensures part { OnErr result (IsPartUsed (states_in state chest.old) (states_in state chest.new)
        (edits_of edits.now)) }
{
    let mut tables = Tables::new(alloc);
    for edit in edits {
        if let Some(slot) = slot_of(edit) {
            let table = chest.table(slot);
            know_table(&table);
            tables.push(table)?;
        }
    }
    Ok(tables)
}
