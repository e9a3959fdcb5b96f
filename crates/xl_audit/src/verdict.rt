//! The verdict on a printed output.
ghost use Rattle.std.specs.Prelude.{◌≡◌, ◌≤◌, [], length, map, IfOk, OnOk, MatchOption};
ghost use Rattle.std.specs.List.{AllByRecursion};
ghost use Rattle.spec_script.specs.Fits.{FitsFilters};
ghost use Rattle.spec_audit.specs.Limited.{AreNumbers};
ghost use Rattle.spec_audit.specs.Output.{IsMerge};
ghost use Rattle.spec_audit.specs.Verdicts.{IsExact};
ghost use Rattle.spec_audit.specs.Walk.{AllPass, FailsAt};
ghost use Rattle.xl_audit.specs.Auditing.{ArePrintable, IsFull, padded, start_of};
ghost use Rattle.xl_judging.specs.Versions.{AreWanted};
ghost use Rattle.xl_audit.specs.Begun.{HasBegun, IsFirst};
ghost use Rattle.xl_audit.specs.Walking.{HasCome};
ghost use Rattle.xl_doc.specs.Numbered.{AreNumbered};
ghost use Rattle.xl_filters.specs.Chests.{states, states_in};
ghost use Rattle.xl_script.specs.Lines.{lists_of};

use crate::beginning::first_walk;
use crate::walk::Walk;
use spec_audit::Verdict;
use std::alloc::{AllocError, Global};
use std::sync::ledger::Ledger;
use xl_blend::Steps;
use xl_compose::Picture;
use xl_doc::{Document, know_limits};
use xl_filters::{Chest, PointFilter};
use xl_judging::{Output, SessionCalls, read_shaped, script_calls, wanted_versions};
use xl_script::{OrderWord, SESSIONS, Script};
use xl_standing::Desk;

// A desk without filters; the boxes are none.
fn desk_without(alloc: Global, boxes: Vec<Box<dyn PointFilter + Send>>) -> Result<Desk, AllocError>
    requires { boxes.items ≡ [] }
    ensures { IfOk result (λ desk. states (λ s. state s.filter) desk.chest ≡ []) }
{
    let Ok(chest) = Chest::new(alloc, boxes) else {
        return Err(AllocError);
    };
    match Desk::new(alloc, chest) {
        Ok(desk) => Ok(desk),
        Err(_) => Err(AllocError),
    }
}

// `Desk::new` gives back the filters where memory runs out; here they go with the rest.
fn desk_of(alloc: Global, chest: Chest) -> Result<Desk, AllocError>
    ensures { IfOk result (λ desk. desk.chest ≡ chest) }
{
    let out = Picture::blank(alloc)?;
    Ok(Desk { chest, out })
}

// Desks with these chests, session by session.
fn desks_of(alloc: Global, chests: Vec<Chest>) -> Result<Vec<Desk>, AllocError>
    requires { length chests.items ≤ 8 }
    ensures { IfOk result (λ desks. map (λ d. states_in state d.chest) desks.items
        ≡ map (λ c. states_in state c) chests.items) }
{
    let mut desks = Vec::new(alloc);
    for chest in chests {
        desks.push(desk_of(alloc, chest)?)?;
    }
    Ok(desks)
}

// Desks without filters, until there is one for each session.
fn add_desks(alloc: Global, desks: &mut Vec<Desk>) -> Result<(), AllocError>
    requires { length desks.old.items ≤ 8 }
    ensures { OnOk result (map (λ d. states_in state d.chest) desks.new.items
        ≡ padded (map (λ d. states_in state d.chest) desks.old.items)) }
{
    while desks.len() < usize::from(SESSIONS) {
        desks.push(desk_without(alloc, Vec::new(alloc))?)?;
    }
    Ok(())
}

// Desks with these chests, and without filters for the sessions that are left.
fn session_desks(alloc: Global, chests: Vec<Chest>) -> Result<Vec<Desk>, AllocError>
    requires { length chests.items ≤ 8 }
    ensures { IfOk result (λ desks. map (λ d. states_in state d.chest) desks.items
        ≡ padded (map (λ c. states_in state c) chests.items)) }
{
    let mut desks = desks_of(alloc, chests)?;
    add_desks(alloc, &mut desks)?;
    Ok(desks)
}

// A walk that has not begun, which keeps each version that a printed peek names.
fn walk_along(
    alloc: Global,
    base: Document,
    calls: &[SessionCalls],
    output: &Output,
) -> Result<Walk, AllocError>
    requires { AreNumbered base.nodes }
    ensures come { IfOk result (HasCome base []) }
    ensures wanted { IfOk result (λ walk. AreWanted calls.now output.now.replies
        walk.versions.wanted.items output.now.order) }
{
    let wanted = wanted_versions(alloc, calls, output)?;
    first_walk(alloc, base, wanted)
}

// The first word of the order that fails, where the walk has not begun.
fn first_to_fail<L: Ledger>(
    alloc: Global,
    walk: &mut Walk,
    desks: &mut Vec<Desk>,
    calls: &[SessionCalls],
    output: &Output,
    steps: &mut Steps<L>,
) -> Result<Option<OrderWord>, AllocError>
    requires { HasBegun output.now calls.now walk.old
        (map (λ d. states_in state d.chest) desks.old.items) }
    ensures { IfOk result (IsFirst output.now calls.now walk.old
        (map (λ d. states_in state d.chest) desks.old.items)) }
{
    for word in output.order.as_slice() {
        let desk = &mut desks[word.session as usize];
        if !walk.word(alloc, calls, output, *word, desk, steps)? {
            return Ok(Some(*word));
        }
    }
    Ok(None)
}

// The first word of the order that fails.
fn judge<L: Ledger>(
    alloc: Global,
    base: Document,
    script: &Script,
    output: &Output,
    chests: Vec<Chest>,
    steps: &mut Steps<L>,
) -> Result<Option<OrderWord>, AllocError>
    requires numbered { AreNumbered base.nodes }
    requires few { length chests.items ≤ 8 }
    requires full { AllByRecursion IsFull (map (λ c. states_in state c) chests.items) }
    requires fits { FitsFilters (map length (map (λ c. states_in state c) chests.items))
        (lists_of script.now) }
    requires merge { IsMerge (lists_of script.now) output.now.order }
    requires prints { ArePrintable output.now }
    ensures { IfOk result (λ found. MatchOption found
        (AllPass (start_of base (lists_of script.now) (map (λ c. states_in state c) chests.items))
        output.now [] output.now.order)
        (λ w. FailsAt (start_of base (lists_of script.now)
        (map (λ c. states_in state c) chests.items)) output.now [] output.now.order w.session
        w.index)) }
{
    let calls = script_calls(alloc, script)?;
    let calls = calls.as_slice();
    let mut walk = walk_along(alloc, base, calls, output)?;
    let mut desks = session_desks(alloc, chests)?;
    first_to_fail(alloc, &mut walk, &mut desks, calls, output, steps)
}

/// The verdict on an output of a run of the script, which started with this document and these filters.
///
/// The replies are walked along the order, each beside what the machine answers and the digest of the tile that it
/// shows. The script has to be one that was read for these chests, from which nothing was taken.
///
/// It is exact: accepted just where the output is a text of the script, shape just where it has not the shape of one,
/// and reply just at the call of the first word that fails.
#[tactic(auto, using(crate::proofs::Along::shape_prints, crate::proofs::Exactly::exactly))]
pub fn audit<L: Ledger>(
    alloc: Global,
    base: Document,
    script: &Script,
    output: &[u8],
    chests: Vec<Chest>,
    steps: &mut Steps<L>,
) -> Result<Verdict, AllocError>
    requires numbered { AreNumbered base.nodes }
    requires few { length chests.items ≤ 8 }
    requires full { AllByRecursion IsFull (map (λ c. states_in state c) chests.items) }
    requires fits { FitsFilters (map length (map (λ c. states_in state c) chests.items))
        (lists_of script.now) }
    requires numbers { AreNumbers (lists_of script.now) }
    ensures { IfOk result
        (IsExact (start_of base (lists_of script.now) (map (λ c. states_in state c) chests.items))
        output.now) }
{
    know_limits(&base);
    let Some(output) = read_shaped(alloc, script, output)? else {
        return Ok(Verdict::Shape);
    };
    match judge(alloc, base, script, &output, chests, steps)? {
        None => Ok(Verdict::Accepted),
        Some(word) => Ok(Verdict::Reply {
            session: word.session,
            index: word.index,
        }),
    }
}
