//! What stands now: the last document, what an undo or a redo gives, and the pictures that are kept.
ghost use Rattle.std.specs.Prelude.{◌≡◌, ◌+◌, ◌<◌, ◌≤◌, ◌^◌, true, false, [], length, option_map, IfOk, IfSome, IsOk};
ghost use Rattle.std.specs.Prelude.{IfErr, OnErr, Some, None};
ghost use Rattle.std.specs.List.{AllByRecursion};
ghost use Rattle.spec_cache.specs.Cache.{no_slots, is_clean, kept, next_place, after_take, finish, install};
ghost use Rattle.spec_document.specs.Limits.{AreBytes, IsDocument};
ghost use Rattle.spec_edit.specs.Apply.{apply_group};
ghost use Rattle.spec_edit.specs.Edit.{IsEdit};
ghost use Rattle.spec_history.specs.Calls.{IsCall};
ghost use Rattle.spec_history.specs.History.{is_changed};
ghost use Rattle.spec_history.specs.declared.TheConstants.{MAX_EDITS};
ghost use Rattle.spec_history.specs.Limited as limited;
ghost use Rattle.spec_history.specs.Machine as machine;
ghost use Rattle.spec_tables.specs.Agrees.{AreThere, AreAsked, IsPartAfter};
ghost use Rattle.spec_tables.specs.Tables.{edits_made};
ghost use Rattle.spec_world.specs.World.{add_stacks, stack_ids};
ghost use Rattle.xl_compose.specs.Job.{StandsFor};
ghost use Rattle.xl_desk.specs.TileJobs.{is_marked, GivesJob};
ghost use Rattle.xl_desk.specs.Needs.{tile_cost};
ghost use Rattle.xl_desk.specs.Places.{place_of_job, place_done};
ghost use Rattle.spec_standing.specs.Group.{damage_along};
ghost use Rattle.spec_standing.specs.Now.{first_now, at_now, with_cache, accepts, made_now, edited, undone, redone};
ghost use Rattle.spec_standing.specs.Now.{next_version, shown, peeked, top_of, Gives, ShowsTile, ShowsKept};
ghost use Rattle.spec_standing.specs.Now.{KeepsDesk, IsKeptNow, IsTileOf};
ghost use Rattle.xl_doc.specs.Numbered.{AreNumbered};
ghost use Rattle.xl_calls.specs.Calls.{call_of};
ghost use Rattle.xl_calls.specs.Edits.{edits_of};
ghost use Rattle.xl_calls.specs.Replies.{reply_of};
ghost use Rattle.xl_desk.specs.Served.{IsServed};
ghost use Rattle.xl_standing.specs.Answering.{MayGoOn, AnswersNow};
ghost use Rattle.xl_filters.specs.Chests.{states_in};
ghost use Rattle.xl_standing.specs.Group.{IsRefusal, LeavesChest};

use crate::group::{GroupRefusedOrMemory, make};
use crate::made::Made;
use crate::next_id::next_id_of;
use crate::step::Step;
use spec_cache::Finished;
use std::alloc::{AllocError, Global};
use std::marker::Model;
use std::sync::ledger::Ledger;
use xl_blend::Steps;
use xl_calls::{Call, Edit, Reply};
use xl_compose::{Done, Job, Picture, job};
use xl_desk::{
    Answered, Cache, Desk, has_stack, has_tile, is_named, is_tile_marked, look, show,
    without_filters,
};
use xl_doc::{Document, NodeId, TileAt, know_limits};
use xl_filters::{Chest, PointFilter};
use xl_undo::Trail;

/// The last version's document and what its next changes need. The last of `undo` is undone next, and the last of
/// `redo` redone.
#[derive(Drop)]
pub struct Standing {
    document: Document,
    undo: Trail<Step>,
    redo: Trail<Step>,
    next_id: u32,
    next_group: u32,
    version: u32,
    cache: Cache,
}

impl Model for Standing {
    ghost use Rattle.std.specs.Prelude.{◌+◌, ◌≤◌, length, reverse};
    ghost use Rattle.std.specs.Coded.{codes};
    ghost use Rattle.spec_document.specs.Code.{coded_document};
    ghost use Rattle.spec_history.specs.declared.TheConstants.{MAX_UNDO};
    ghost use Rattle.spec_standing.specs.Now.{Now};
    ghost use Rattle.spec_standing.specs.Steps.{Lead};

    ghost Value = { Now };

    ghost coded = { Prim.hlevel (codes, coded_document) };

    ghost view = { λ s. record {
      document = s.document;
      undo = reverse s.undo;
      redo = reverse s.redo;
      next_id = s.next_id;
      next_group = s.next_group;
      version = s.version;
      cache = s.cache;
    } };

    ghost invariant = { λ s. Lead s.document (reverse s.undo) × Lead s.document (reverse s.redo)
        × (length s.undo + length s.redo ≤ MAX_UNDO) };
}

impl Standing {
    /// Version 0 of a document, with the pictures that are kept of it, none yet, and the two trails for its groups.
    pub fn new(document: Document, cache: Cache, undo: Trail<Step>, redo: Trail<Step>) -> Standing
        requires cache { cache ≡ add_stacks (stack_ids document) document 0 no_slots }
        requires undo { undo ≡ [] }
        requires redo { redo ≡ [] }
        requires numbered { AreNumbered document.nodes }
        ensures first { result ≡ first_now document }
        ensures within { IsDocument document }
    {
        let next_id = next_id_of(&document);
        Standing {
            document,
            undo,
            redo,
            next_id,
            next_group: 1,
            version: 0,
            cache,
        }
    }

    /// The last version's number.
    pub fn version(&self) -> u32
        ensures { result ≡ self.now.version }
    {
        self.version
    }

    /// The last version's document.
    pub fn document(&self) -> &Document
        ensures { result.now ≡ self.now.document }
    {
        &self.document
    }

    /// Answers a call of a caller that has seen the versions up to `seen`. Only an answer that is a tile leaves its
    /// bytes in the desk. After out of memory all is as before, but that the first filters of a group that is accepted
    /// may have been asked.
    ///
    /// It asks what stands to be right and its numbers to be small, as they are where `Stands` holds of it and a
    /// history.
    pub fn answer<L: Ledger>(
        &mut self,
        alloc: Global,
        call: &Call,
        seen: u32,
        desk: &mut Desk,
        steps: &mut Steps<L>,
    ) -> Result<Answered, AllocError>
        requires call { IsCall (call_of call.now) }
        requires there { AreThere (states_in state desk.old.chest)
            (limited.edits_of (call_of call.now)) }
        requires ready { MayGoOn self.old }
        ensures { AnswersNow (call_of call.now) seen result self.old self.new
            (states_in state desk.old.chest) (states_in state desk.new.chest) desk.old.out
            desk.new.out steps.old steps.new }
    {
        match call {
            Call::Edit(group) => {
                let edits = group.edits.as_slice();
                self.edit(alloc, group.guard, edits, &mut desk.chest)
            }
            Call::Undo(named) => Ok(without_filters(alloc, self.undo(*named))),
            Call::Redo => Ok(without_filters(alloc, self.redo())),
            Call::Tile(node, at) => {
                Ok(without_filters(alloc, self.tile(alloc, *node, *at, &mut desk.out, steps)?))
            }
            Call::Peek(node, at) => Ok(without_filters(
                alloc,
                self.peek(*node, *at, seen, &mut desk.out),
            )),
            Call::Top => {
                let version = self.version;
                let group = self.top();
                Ok(without_filters(alloc, Reply::Top { group, version }))
            }
        }
    }

    // Makes a group of edits of the document, where its guard has not moved.
    fn edit(
        &mut self,
        alloc: Global,
        guard: Option<u32>,
        edits: &[Edit],
        chest: &mut Chest,
    ) -> Result<Answered, AllocError>
        requires few { length edits.now ≤ MAX_EDITS }
        requires each { AllByRecursion IsEdit (edits_of edits.now) }
        requires there { AreThere (states_in state chest.old) (edits_of edits.now) }
        requires ready { MayGoOn self.old }
        ensures response { IfOk result
            (λ a. Gives (edited self.old guard (edits_of edits.now) a.tables) (reply_of a.reply)
            self.new) }
        ensures asked { IfOk result (λ a.
            AreAsked (states_in state chest.old) (states_in state chest.new)
            (edits_made (machine.edit guard (edits_of edits.now)) (reply_of a.reply)) a.tables) }
        ensures bytes { IfOk result (λ a. AllByRecursion AreBytes a.tables) }
        ensures chest { OnErr result
            (IsPartAfter (accepts self.old (machine.edit guard (edits_of edits.now)))
            (states_in state chest.old) (states_in state chest.new)
            (machine.edit guard (edits_of edits.now))) }
        ensures as_before { OnErr result (self.new ≡ self.old) }
    {
        if !is_named(guard, self.version) {
            return Ok(without_filters(alloc, Reply::Moved { now: self.version }));
        }
        match self.take_group(alloc, edits, chest) {
            Ok(answered) => Ok(answered),
            Err(GroupRefusedOrMemory::Refused { index, cause }) => {
                Ok(without_filters(alloc, Reply::Refused { index, cause }))
            }
            Err(GroupRefusedOrMemory::Memory) => Err(AllocError),
        }
    }

    // Makes a group of edits of the document, and what leads back over it comes on top of what can be undone. After a
    // refusal and after out of memory all is as before.
    fn take_group(
        &mut self,
        alloc: Global,
        edits: &[Edit],
        chest: &mut Chest,
    ) -> Result<Answered, GroupRefusedOrMemory>
        requires few { length edits.now ≤ MAX_EDITS }
        requires each { AllByRecursion IsEdit (edits_of edits.now) }
        requires there { AreThere (states_in state chest.old) (edits_of edits.now) }
        requires ready { MayGoOn self.old }
        ensures made { IfOk result (λ a. Gives (made_now self.old
            (damage_along (at_now self.old) (edits_of edits.now) a.tables)
            (apply_group (at_now self.old) (edits_of edits.now) a.tables)) (reply_of a.reply) self.new) }
        ensures changed { IfOk result (λ a. is_changed (reply_of a.reply) ≡ true) }
        ensures asked { IfOk result (λ a. AreAsked (states_in state chest.old)
            (states_in state chest.new) (edits_of edits.now) a.tables) }
        ensures bytes { IfOk result (λ a. AllByRecursion AreBytes a.tables) }
        ensures refused { IfErr result (IsRefusal (at_now self.old) (edits_of edits.now) []) }
        ensures chest { IfErr result (LeavesChest (states_in state chest.old)
            (states_in state chest.new) (at_now self.old) (edits_of edits.now)) }
        ensures as_before { OnErr result (self.new ≡ self.old) }
    {
        know_limits(&self.document);
        let made = match make(alloc, &mut self.document, &mut self.next_id, edits, chest) {
            Ok(made) => made,
            Err(refused) => return Err(refused),
        };
        let Made {
            lead,
            change,
            tables,
        } = made;
        know_limits(&self.document);
        let mut change = change;
        change.go(&mut self.cache, self.version + 1);
        let group = self.next_group;
        self.next_group += 1;
        let back = Step::new(lead, change);
        let _oldest = self.undo.push(group, back);
        self.redo.clear();
        let reply = self.next_version(group);
        Ok(Answered { reply, tables })
    }

    // The group that an undo would undo.
    fn top(&self) -> Option<u32>
        ensures { result ≡ top_of self.now.undo }
    {
        self.undo.top()
    }

    // Gives back the document before the last group, if it is the one that is named.
    fn undo(&mut self, named: Option<u32>) -> Reply
        requires kept { IsKeptNow self.old }
        requires versions { self.old.version < 2 ^ 31 }
        ensures { Gives (undone self.old named) (reply_of result) self.new }
    {
        let Some(top) = self.top() else {
            return Reply::NothingToUndo;
        };
        if !is_named(named, top) {
            return Reply::NotTop { top };
        }
        let Some((group, mut back)) = self.undo.pop() else {
            unreachable!();
        };
        back.take(&mut self.document, &mut self.cache, self.version + 1);
        let _none = self.redo.push(group, back);
        self.next_version(group)
    }

    // Gives the document after the group that was undone last.
    fn redo(&mut self) -> Reply
        requires kept { IsKeptNow self.old }
        requires versions { self.old.version < 2 ^ 31 }
        ensures { Gives (redone self.old) (reply_of result) self.new }
    {
        let Some((group, mut forth)) = self.redo.pop() else {
            return Reply::NothingToRedo;
        };
        forth.take(&mut self.document, &mut self.cache, self.version + 1);
        let _none = self.undo.push(group, forth);
        self.next_version(group)
    }

    // The document that a group, or its undo or redo, has left is the next version.
    fn next_version(&mut self, group: u32) -> Reply
        requires { self.old.version < 2 ^ 31 }
        ensures { Gives (next_version self.old group) (reply_of result) self.new }
    {
        self.version += 1;
        Reply::Changed {
            version: self.version,
            group,
            next: self.next_id,
        }
    }

    // Leaves a tile of the last version in `out`. Its slot is clean from then on.
    fn tile<L: Ledger>(
        &mut self,
        alloc: Global,
        node: NodeId,
        at: TileAt,
        out: &mut Picture,
        steps: &mut Steps<L>,
    ) -> Result<Reply, AllocError>
        requires kept { IsKeptNow self.old }
        ensures response { IfOk result (λ reply. Gives (shown self.old node.0 at) (reply_of reply)
            self.new) }
        ensures shown { IfOk result (λ reply. ShowsTile self.new.document node.0 at (reply_of reply)
            out.new) }
        ensures served { IsServed reply_of result out.old out.new steps.old steps.new }
        ensures steps { is_clean self.old.cache node.0 at ≡ true → steps.new ≡ steps.old }
        ensures cost { steps.new ≤ steps.old + tile_cost self.old.cache self.old.document node.0
            at }
        ensures as_before { OnErr result (self.new ≡ self.old) }
    {
        if !has_stack(&self.document, node) {
            return Ok(Reply::NoStack { node: node.0 });
        }
        if !has_tile(&self.document, at) {
            return Ok(Reply::OutsideTile);
        }
        let version = self.version;
        show(
            alloc,
            &self.document,
            &mut self.cache,
            (node, at),
            version,
            out,
            steps,
        )?;
        Ok(Reply::Tile { version })
    }

    // Leaves what is kept of a tile in `out`, where it is as late as what was seen.
    fn peek(&self, node: NodeId, at: TileAt, seen: u32, out: &mut Picture) -> Reply
        ensures response { Gives (peeked self.now node.0 at seen) (reply_of result) self.now }
        ensures shown { ShowsKept (kept self.now.cache node.0 at self.now.version) (reply_of result)
            out.new }
        ensures desk { KeepsDesk (reply_of result) out.old out.new }
    {
        if !has_stack(&self.document, node) {
            return Reply::NoStack { node: node.0 };
        }
        if !has_tile(&self.document, at) {
            return Reply::OutsideTile;
        }
        look(&self.cache, node, at, self.version, seen, out)
    }

    /// The version whose picture is kept of a tile, if any.
    pub fn kept_version(&self, node: NodeId, at: TileAt) -> Option<u32>
        ensures { result ≡ option_map (λ k. k.version)
            (kept self.now.cache node.0 at self.now.version) }
    {
        match self.cache.kept(node, at, self.version) {
            Some((version, _)) => Some(version),
            None => None,
        }
    }

    /// A job for the next marked slot, which counts as taken: the kept picture of a clean group is taken as it is. None
    /// where no slot is marked, which takes no memory.
    pub fn take_job(&mut self, alloc: Global) -> Result<Option<Job>, AllocError>
        requires kept { IsKeptNow self.old }
        requires place { IfSome (next_place self.old.cache) (IsTileOf self.old.document) }
        ensures place { IfOk result (λ job. option_map place_of_job job
            ≡ next_place self.old.cache) }
        ensures stands { IfOk result (λ job.
            IfSome job (λ j. StandsFor self.old.document j.stack j.at self.old.version j)) }
        ensures cost { IfOk result
            (λ job. IfSome job (λ j. j.cost ≡ tile_cost self.old.cache self.old.document j.stack
            j.at)) }
        ensures what { self.new ≡ with_cache self.old (after_take self.old.cache) }
        ensures none { next_place self.old.cache ≡ None → IsOk result }
    {
        let Some((node, at)) = self.cache.take() else {
            return Ok(None);
        };
        let job = job(alloc, &self.document, node, at, self.version, &self.cache)?;
        Ok(Some(job))
    }

    /// A job for the tile that is named, where its slot is marked. The kept picture of a clean group is taken as it is,
    /// and the slot does not count as taken. None exactly where the stack or the tile is not there or the slot is
    /// clean, which takes no memory.
    pub fn job_for(
        &self,
        alloc: Global,
        node: NodeId,
        at: TileAt,
    ) -> Result<Option<Job>, AllocError>
        requires kept { IsKeptNow self.now }
        ensures job { IfOk result (GivesJob self.now.document self.now.cache self.now.version node.0
            at) }
        ensures none { is_marked self.now.document self.now.cache node.0 at ≡ false
            → IsOk result }
    {
        if !is_tile_marked(&self.document, &self.cache, node, at) {
            return Ok(None);
        }
        let job = job(alloc, &self.document, node, at, self.version, &self.cache)?;
        Ok(Some(job))
    }

    /// Keeps a picture, unless its tile was marked at a later version or its stack is gone.
    pub fn finish(&mut self, done: Done) -> Finished
        ensures finished { result ≡ finish self.old.cache (place_done done) done.version }
        ensures what { self.new ≡ with_cache self.old
            (install (place_done done) done.version done.picture self.old.cache) }
    {
        self.cache.install(done)
    }
}
