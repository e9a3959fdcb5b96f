//! Edits that are made together.
ghost use Rattle.std.specs.Prelude.{◌≡◌, ℕ, ◌≤◌, ◌++◌, List, [], None, Ok, length, IfOk, IfErr, OnOk, OnErr, IfSome};
ghost use Rattle.std.specs.List.{AllByRecursion};
ghost use Rattle.spec_damage.specs.Damage as pairs;
ghost use Rattle.spec_document.specs.Limits.{AreBytes};
ghost use Rattle.spec_edit.specs.Apply.{apply_group};
ghost use Rattle.spec_edit.specs.Edit.{IsEdit};
ghost use Rattle.spec_edit.specs.Limited.{IsAt};
ghost use Rattle.spec_history.specs.declared.TheConstants.{MAX_EDITS};
ghost use Rattle.spec_tables.specs.Acceptance.{filter_count, refused_in};
ghost use Rattle.spec_tables.specs.Agrees.{AreThere, AreAsked};
ghost use Rattle.spec_standing.specs.Group.{HasIds, damage_along};
ghost use Rattle.xl_standing.specs.Group.{IsAppliedOne, AppliesGroup, IsRefusal, LeavesChest};
ghost use Rattle.xl_standing.specs.Made.{IsMadeOf};
ghost use Rattle.xl_standing.specs.declared.group.GroupRefusedOrMemory.TheVariants.{Memory};
ghost use Rattle.xl_edit.specs.Applied.{at};
ghost use Rattle.xl_calls.specs.Applicable.{HasNext};
ghost use Rattle.xl_calls.specs.Edits.{edit_of, edits_of};
ghost use Rattle.xl_filters.specs.Chests.{states_in};

use crate::made::Made;
use crate::painting::{NotPainted, only, paint, painted};
use std::alloc::{AllocError, Global};
use std::mem;
use xl_calls::{Edit, EditRefused};
use xl_desk::{ask_filters, blank_table, blank_tables, filter_count, know_table, table_for};
use xl_doc::Document;
use xl_edit::{EditRefusedOrMemory, apply};
use xl_filters::{Chest, PointFilter, Table, Tables};
use xl_marks::{Change, Damage};
use xl_undo::Lead;

/// Why a group was not made: memory ran out, or an edit is refused, which is counted from 0.
#[derive(Drop)]
pub enum GroupRefusedOrMemory {
    Memory,
    Refused { index: u32, cause: EditRefused },
}

impl From<AllocError> for GroupRefusedOrMemory {
    ghost from_gives = { λ _ e. e ≡ Memory };

    fn from(_: AllocError) -> Self {
        GroupRefusedOrMemory::Memory
    }
}

/// What a group of edits leaves: a document and its next id, the tables that the group's filters answered, and what
/// of which pictures the group may have changed.
#[derive(Drop)]
pub struct MadeGroup {
    pub document: Document,
    pub next_id: u32,
    pub tables: Tables,
    pub damage: Damage,
}

/// Makes a group of edits of a document: one edit that paints a layer on the document itself, and others on a share,
/// which takes its place. After a refusal and after out of memory the document and the next id are as before.
pub(crate) fn make(
    alloc: Global,
    document: &mut Document,
    next_id: &mut u32,
    edits: &[Edit],
    chest: &mut Chest,
) -> Result<Made, GroupRefusedOrMemory>
    requires few { length edits.now ≤ MAX_EDITS }
    requires each { AllByRecursion IsEdit (edits_of edits.now) }
    requires ids { HasIds (at document.old next_id.old) (length edits.now) }
    requires there { AreThere (states_in state chest.old) (edits_of edits.now) }

    ensures made { IfOk result (IsMadeOf (at document.old next_id.old)
        (at document.new next_id.new) (edits_of edits.now)) }
    ensures bytes { IfOk result (λ made. AllByRecursion AreBytes made.tables) }
    ensures asked { IfOk result (λ made. AreAsked (states_in state chest.old)
        (states_in state chest.new) (edits_of edits.now) made.tables) }

    ensures refused { IfErr result (IsRefusal (at document.old next_id.old) (edits_of edits.now)
        []) }
    ensures chest { IfErr result (LeavesChest (states_in state chest.old)
        (states_in state chest.new) (at document.old next_id.old) (edits_of edits.now)) }
    ensures document { OnErr result (document.new ≡ document.old) }
    ensures next { OnErr result (next_id.new ≡ next_id.old) }
{
    let Some(edit) = only(edits) else {
        return make_on_share(alloc, document, next_id, edits, chest);
    };
    match painted(document, edit) {
        Ok(id) => Ok(paint(alloc, document, *next_id, id, edit)?),
        Err(NotPainted::Other) => make_on_share(alloc, document, next_id, edits, chest),
        Err(NotPainted::Refused(cause)) => Err(GroupRefusedOrMemory::Refused { index: 0, cause }),
    }
}

// Makes a group of edits on a share of a document, which takes the document's place where all of them are accepted.
fn make_on_share(
    alloc: Global,
    document: &mut Document,
    next_id: &mut u32,
    edits: &[Edit],
    chest: &mut Chest,
) -> Result<Made, GroupRefusedOrMemory>
    requires few { length edits.now ≤ MAX_EDITS }
    requires each { AllByRecursion IsEdit (edits_of edits.now) }
    requires ids { HasIds (at document.old next_id.old) (length edits.now) }
    requires there { AreThere (states_in state chest.old) (edits_of edits.now) }

    ensures made { IfOk result (IsMadeOf (at document.old next_id.old)
        (at document.new next_id.new) (edits_of edits.now)) }
    ensures bytes { IfOk result (λ made. AllByRecursion AreBytes made.tables) }
    ensures asked { IfOk result (λ made. AreAsked (states_in state chest.old)
        (states_in state chest.new) (edits_of edits.now) made.tables) }

    ensures refused { IfErr result (IsRefusal (at document.old next_id.old) (edits_of edits.now)
        []) }
    ensures chest { IfErr result (LeavesChest (states_in state chest.old)
        (states_in state chest.new) (at document.old next_id.old) (edits_of edits.now)) }
    ensures document { OnErr result (document.new ≡ document.old) }
    ensures next { OnErr result (next_id.new ≡ next_id.old) }
{
    let made = make_group(alloc, document, *next_id, edits, chest)?;
    let MadeGroup {
        document: after,
        next_id: next,
        tables,
        damage,
    } = made;
    let change = Change::new(alloc, document, &after, damage)?;
    *next_id = next;
    let before = mem::replace(document, after);
    let lead = Lead::new(before, document);
    Ok(Made {
        lead,
        change,
        tables,
    })
}

// Makes a group of edits on a share of a document. The filters are asked when it is known that no edit is refused,
// which no table decides.
fn make_group(
    alloc: Global,
    document: &Document,
    next_id: u32,
    edits: &[Edit],
    chest: &mut Chest,
) -> Result<MadeGroup, GroupRefusedOrMemory>
    requires few { length edits.now ≤ MAX_EDITS }
    requires each { AllByRecursion IsEdit (edits_of edits.now) }
    requires ids { HasIds (at document.now next_id) (length edits.now) }
    requires there { AreThere (states_in state chest.old) (edits_of edits.now) }

    ensures made { IfOk result (λ made. apply_group (at document.now next_id) (edits_of edits.now)
        made.tables ≡ Ok (at made.document made.next_id)) }
    ensures damage { IfOk result (λ made. made.damage ≡ damage_along (at document.now next_id)
        (edits_of edits.now) made.tables) }
    ensures bytes { IfOk result (λ made. AllByRecursion AreBytes made.tables) }
    ensures asked { IfOk result (λ made. AreAsked (states_in state chest.old)
        (states_in state chest.new) (edits_of edits.now) made.tables) }

    ensures refused { IfErr result (IsRefusal (at document.now next_id) (edits_of edits.now) []) }
    ensures chest { IfErr result (LeavesChest (states_in state chest.old)
        (states_in state chest.new) (at document.now next_id) (edits_of edits.now)) }
{
    let blank = blank_tables(alloc, edits)?;
    if blank.as_slice().is_empty() {
        return try_group(alloc, document, next_id, edits, blank);
    }
    check_group(alloc, document, next_id, edits, blank)?;
    let tables = ask_filters(alloc, edits, chest)?;
    try_group(alloc, document, next_id, edits, tables)
}

// Refuses a group of edits in which one is refused, whatever its filters answer.
fn check_group(
    alloc: Global,
    document: &Document,
    next_id: u32,
    edits: &[Edit],
    tables: Tables,
) -> Result<(), GroupRefusedOrMemory>
    requires few { length edits.now ≤ MAX_EDITS }
    requires each { AllByRecursion IsEdit (edits_of edits.now) }
    requires ids { HasIds (at document.now next_id) (length edits.now) }
    requires tables { length tables ≡ filter_count (edits_of edits.now) }
    ensures allowed { (others : List (List ℕ))
        → OnOk result (refused_in (apply_group (at document.now next_id) (edits_of edits.now)
        others) ≡ None) }
    ensures refused { IfErr result (IsRefusal (at document.now next_id) (edits_of edits.now) []) }
{
    match try_group(alloc, document, next_id, edits, tables) {
        Ok(_) => {}
        Err(refused) => return Err(refused),
    }
    Ok(())
}

/// Makes a group of edits, each filter with the next table, on a share of a document.
pub fn try_group(
    alloc: Global,
    document: &Document,
    next_id: u32,
    edits: &[Edit],
    tables: Tables,
) -> Result<MadeGroup, GroupRefusedOrMemory>
    requires few { length edits.now ≤ MAX_EDITS }
    requires each { AllByRecursion IsEdit (edits_of edits.now) }
    requires ids { HasIds (at document.now next_id) (length edits.now) }
    requires tables { length tables ≡ filter_count (edits_of edits.now) }
    ensures made { IfOk result (λ made. apply_group (at document.now next_id) (edits_of edits.now)
        tables ≡ Ok (at made.document made.next_id)) }
    ensures tables { IfOk result (λ made. made.tables ≡ tables) }
    ensures damage { IfOk result (λ made. made.damage ≡ damage_along (at document.now next_id)
        (edits_of edits.now) tables) }
    ensures within { IfOk result (λ made. IsAt (at made.document made.next_id)) }
    ensures refused { IfErr result (IsRefusal (at document.now next_id) (edits_of edits.now)
        tables) }
{
    let before = document;
    let mut document = before.share(alloc)?;
    let mut next_id = next_id;
    let mut damage = Damage::new(alloc);
    apply_group(
        alloc,
        before,
        &mut document,
        &mut next_id,
        edits,
        tables.as_slice(),
        &mut damage,
    )?;
    Ok(MadeGroup {
        document,
        next_id,
        tables,
        damage,
    })
}

// Applies the edits in turn to a share of a document, each filter with the next table. `next_id` is the id that the
// next new node gets, and `damage` what the edits so far may have changed.
//
// A refusal and out of memory leave what the edits before have made, which the caller drops.
#[tactic(auto, using(crate::proofs::Groups::begins, crate::proofs::Groups::next_is_edit, crate::proofs::Groups::next_has_id, crate::proofs::Groups::next_has_table, crate::proofs::Groups::stops, crate::proofs::Groups::is_done, crate::proofs::Groups::is_damaged, crate::proofs::Groups::is_within, crate::proofs::Groups::is_first))]
fn apply_group(
    alloc: Global,
    first: &Document,
    document: &mut Document,
    next_id: &mut u32,
    edits: &[Edit],
    tables: &[Table],
    damage: &mut Damage,
) -> Result<(), GroupRefusedOrMemory>
    requires few { length edits.now ≤ MAX_EDITS }
    requires each { AllByRecursion IsEdit (edits_of edits.now) }
    requires ids { HasIds (at document.old next_id.old) (length edits.now) }
    requires tables { length tables.now ≡ filter_count (edits_of edits.now) }
    requires none { damage.old ≡ [] }
    requires share { document.old ≡ first.now }
    ensures applied { AppliesGroup (at document.old next_id.old) (at document.new next_id.new)
        (edits_of edits.now) tables.now result }
    ensures damage { OnOk result (damage.new ≡ damage_along (at document.old next_id.old)
        (edits_of edits.now) tables.now) }
    ensures within { OnOk result (IsAt (at document.new next_id.new)) }
{
    let blank = blank_table();
    let mut taken = 0;
    for (index, edit) in edits.iter().enumerate() {
        let table = table_for(edit, tables, taken, &blank);
        know_table(table);
        taken += filter_count(edit);
        let before = at_first(index, first);
        match apply_next(alloc, before, document, next_id, edit, table, damage) {
            Ok(()) => {}
            Err(EditRefusedOrMemory::Refused(cause)) => {
                return Err(GroupRefusedOrMemory::Refused {
                    index: index as u32,
                    cause,
                });
            }
            Err(EditRefusedOrMemory::Memory) => return Err(GroupRefusedOrMemory::Memory),
        }
    }
    Ok(())
}

// Applies an edit, and adds what it may have changed.
#[tactic(auto, using(crate::proofs::Groups::accepts, crate::proofs::Groups::makes))]
fn apply_one(
    alloc: Global,
    before: &Document,
    document: &mut Document,
    next_id: &mut u32,
    edit: &Edit,
    table: &Table,
    damage: &mut Damage,
) -> Result<(), EditRefusedOrMemory>
    requires before { document.old ≡ before.now }
    requires edit { IsEdit (edit_of edit.now) }
    requires next { HasNext document.old next_id.old (edit_of edit.now) }
    ensures applied { IsAppliedOne (at document.old next_id.old) (at document.new next_id.new)
        (edit_of edit.now) table.now result }
    ensures damage { OnOk result (damage.new ≡ damage.old ++ pairs.damage document.old
        (edit_of edit.now)) }
{
    let id = *next_id;
    apply(alloc, document, next_id, edit, table)?;
    damage.add(alloc, before, document, id, edit)?;
    Ok(())
}

// The document before the edits, for the first of them alone.
fn at_first(index: usize, first: &Document) -> Option<&Document>
    ensures { IfSome result (λ before. (index ≡ 0) × (before.now ≡ first.now)) }
{
    if index == 0 { Some(first) } else { None }
}

// Applies an edit of a group. The damage is told by the documents before and after it: where the one before is not
// there, a share of it is taken.
fn apply_next(
    alloc: Global,
    before: Option<&Document>,
    document: &mut Document,
    next_id: &mut u32,
    edit: &Edit,
    table: &Table,
    damage: &mut Damage,
) -> Result<(), EditRefusedOrMemory>
    requires before { IfSome before (λ before. document.old ≡ before.now) }
    requires edit { IsEdit (edit_of edit.now) }
    requires next { HasNext document.old next_id.old (edit_of edit.now) }
    ensures applied { IsAppliedOne (at document.old next_id.old) (at document.new next_id.new)
        (edit_of edit.now) table.now result }
    ensures damage { OnOk result (damage.new ≡ damage.old ++ pairs.damage document.old
        (edit_of edit.now)) }
{
    match before {
        Some(before) => apply_one(alloc, before, document, next_id, edit, table, damage),
        None => {
            let before = document.share(alloc)?;
            apply_one(alloc, &before, document, next_id, edit, table, damage)
        }
    }
}
