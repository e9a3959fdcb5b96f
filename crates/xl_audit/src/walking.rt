//! A walk along the order of an output, word by word, as far as each passes.
ghost use Rattle.std.specs.Prelude.{◌≡◌, ◌+◌, ◌^◌, ◌<◌, List, true, false, [], IfOk, OnOk, MatchOption, Some, option_map, slice_index, slice_set};
ghost use Rattle.spec_cache.specs.Cache.{kept};
ghost use Rattle.spec_history.specs.Calls.{IsCall};
ghost use Rattle.spec_history.specs.Limited.{edits_of};
ghost use Rattle.spec_history.specs.History.{Entry, is_changed};
ghost use Rattle.spec_history.specs.Machine as machine;
ghost use Rattle.spec_audit.specs.Deciding.{IsPlainCall};
ghost use Rattle.spec_tables.specs.Agrees.{Agrees, AreThere, SameSlots};
ghost use Rattle.spec_audit.specs.Walk.{Start, call_at, printed_at};
ghost use Rattle.xl_audit.specs.Auditing.{FitsChest};
ghost use Rattle.xl_judging.specs.Calls.{calls_in, line_in};
ghost use Rattle.xl_judging.specs.Judging as judging;
ghost use Rattle.xl_judging.specs.Versions.{shares_after, version_named, WantsIfAny};
ghost use Rattle.xl_standing.specs.Answering.{MayGoOn};
ghost use Rattle.xl_audit.specs.Walking.{HasCome, IsNextWord, IsJudged, IsPeeked, IsCalled, filters_at};
ghost use Rattle.xl_desk.specs.Calls.{call_of};
ghost use Rattle.xl_desk.specs.Replies.{reply_of};
ghost use Rattle.xl_filters.specs.Chests.{states_in};

use crate::walk::Walk;
use std::alloc::{AllocError, Global};
use std::sync::ledger::Ledger;
use xl_blend::Steps;
use xl_compose::Picture;
use xl_doc::{NodeId, TileAt};
use xl_filters::PointFilter;
use xl_judging::{
    Output, Printed, SessionCalls, call_at, end_fits, is_printed, is_printed_without_digest,
    peek_fits, shows_version,
};
use xl_script::OrderWord;
use xl_standing::{Call, Desk, Reply, has_stack, has_tile};

// Whether a reply says that a version was made.
fn is_changed(reply: Reply) -> bool
    ensures { result ≡ is_changed (reply_of reply) }
{
    match reply {
        Reply::Changed { .. } => true,
        Reply::Refused { .. }
        | Reply::Moved { .. }
        | Reply::NothingToUndo
        | Reply::NothingToRedo
        | Reply::NotTop { .. }
        | Reply::Tile { .. }
        | Reply::Stale { .. }
        | Reply::NoStack { .. }
        | Reply::OutsideTile
        | Reply::Top { .. }
        | Reply::Saved { .. }
        | Reply::SaveFault { .. }
        | Reply::SaveMemory { .. }
        | Reply::HistoryFull => false,
    }
}

// The tile of a peek.
fn tile_peeked(call: &Call) -> Option<(NodeId, TileAt)>
    ensures { MatchOption result
        (IsPlainCall (call_of call.now))
        (λ p. call_of call.now ≡ machine.peek p.0.0 p.1) }
{
    match call {
        Call::Peek(node, at) => Some((*node, *at)),
        Call::Edit(_) | Call::Undo(_) | Call::Redo | Call::Tile(_, _) | Call::Top => None,
    }
}

impl Walk {
    // A session has seen what stands now.
    fn see(&mut self, session: u8)
        requires { session < 8 }
        ensures standing { self.new.standing ≡ self.old.standing }
        ensures versions { self.new.versions ≡ self.old.versions }
        ensures made { self.new.made ≡ self.old.made }
        ensures seen { self.new.seen ≡ slice_set self.old.seen session self.old.standing.version }
        ensures out { self.new.out ≡ self.old.out }
    {
        self.seen[session as usize] = self.standing.version();
    }

    // A session has made a call.
    fn count(&mut self, session: u8)
        requires session { session < 8 }
        requires few { slice_index self.old.made session < 2 ^ 31 }
        ensures standing { self.new.standing ≡ self.old.standing }
        ensures versions { self.new.versions ≡ self.old.versions }
        ensures made { self.new.made ≡ slice_set self.old.made session
            (slice_index self.old.made session + 1) }
        ensures seen { self.new.seen ≡ slice_set self.old.seen session self.old.standing.version }
        ensures out { self.new.out ≡ self.old.out }
    {
        self.made[session as usize] += 1;
        self.see(session);
    }

    // A share of what stands, where the reply has made a version.
    fn keep_version(&mut self, alloc: Global, reply: Reply) -> Result<(), AllocError>
        ensures standing { OnOk result (self.new.standing ≡ self.old.standing) }
        ensures made { OnOk result (self.new.made ≡ self.old.made) }
        ensures seen { OnOk result (self.new.seen ≡ self.old.seen) }
        ensures out { OnOk result (self.new.out ≡ self.old.out) }
        ensures wanted { OnOk result (self.new.versions.wanted.items
            ≡ self.old.versions.wanted.items) }
        ensures shares { OnOk result (self.new.versions.shares.items ≡ shares_after
            (is_changed (reply_of reply)) self.old.versions.wanted.items self.old.standing.document
            self.old.versions.shares.items) }
    {
        if !is_changed(reply) {
            return Ok(());
        }
        self.versions.add(alloc, self.standing.document())
    }

    // A call other than a peek. Its reply and its digest are the printed ones, or it fails.
    fn call<L: Ledger>(
        &mut self,
        alloc: Global,
        session: u8,
        call: &Call,
        printed: &Printed,
        desk: &mut Desk,
        steps: &mut Steps<L>,
    ) -> Result<bool, AllocError>
        requires session { session < 8 }
        requires few { slice_index self.old.made session < 2 ^ 31 }
        requires ready { MayGoOn self.old.standing }
        requires call { IsCall (call_of call.now) }
        requires there { AreThere (states_in state desk.old.chest) (edits_of (call_of call.now)) }
        ensures { IfOk result (λ passed. IsCalled self.old session (call_of call.now) printed.now
            (states_in state desk.old.chest) (states_in state desk.new.chest) passed self.new) }
    {
        let seen = self.standing.version();
        let answered = self.standing.answer(alloc, call, seen, desk, steps)?;
        if !is_printed(alloc, answered.reply, &desk.out, printed)? {
            return Ok(false);
        }
        self.keep_version(alloc, answered.reply)?;
        self.count(session);
        Ok(true)
    }

    // Whether what is printed for a peek is right.
    fn peek_is_right<L: Ledger>(
        &self,
        alloc: Global,
        seen: u32,
        tile: (NodeId, TileAt),
        printed: &Printed,
        picture: &mut Picture,
        steps: &mut Steps<L>,
    ) -> Result<bool, AllocError>
        ensures { IfOk result (judging.PeekIsRight self.now.standing.document
            self.now.standing.version seen
            (option_map (λ k. k.version) (kept self.now.standing.cache tile.0.0 tile.1
            self.now.standing.version)) self.now.versions.shares.items tile.0.0 tile.1
            printed.now) }
    {
        let (node, at) = tile;
        let document = self.standing.document();
        if !has_stack(document, node) {
            return Ok(is_printed_without_digest(Reply::NoStack { node: node.0 }, printed));
        }
        if !has_tile(document, at) {
            return Ok(is_printed_without_digest(Reply::OutsideTile, printed));
        }
        let kept = self.standing.kept_version(node, at);
        if !peek_fits(self.standing.version(), seen, kept, printed.reply) {
            return Ok(false);
        }
        shows_version(alloc, &self.versions, node, at, printed, picture, steps)
    }

    // A peek. What is printed for it is right, or it fails.
    fn peek<L: Ledger>(
        &mut self,
        alloc: Global,
        session: u8,
        tile: (NodeId, TileAt),
        printed: &Printed,
        picture: &mut Picture,
        steps: &mut Steps<L>,
    ) -> Result<bool, AllocError>
        requires session { session < 8 }
        requires few { slice_index self.old.made session < 2 ^ 31 }
        ensures { IfOk result (λ passed. IsPeeked self.old session tile.0.0 tile.1 printed.now
            passed self.new) }
    {
        let seen = self.seen[session as usize];
        if !self.peek_is_right(alloc, seen, tile, printed, picture, steps)? {
            return Ok(false);
        }
        self.count(session);
        Ok(true)
    }

    // A save starts.
    fn start(&mut self, session: u8)
        requires session { session < 8 }
        requires few { slice_index self.old.made session < 2 ^ 31 }
        ensures made { self.new.made ≡ slice_set self.old.made session
            (slice_index self.old.made session + 1) }
        ensures seen { self.new.seen ≡ slice_set self.old.seen session self.old.standing.version }
        ensures standing { self.new.standing ≡ self.old.standing }
        ensures versions { self.new.versions ≡ self.old.versions }
        ensures out { self.new.out ≡ self.old.standing.version }
    {
        self.out = self.standing.version();
        self.count(session);
    }

    // A save ends, as it is printed.
    fn end(&mut self, session: u8, reply: Reply) -> bool
        requires session { session < 8 }
        ensures judged { result ≡ judging.end_fits self.old.out (reply_of reply) }
        ensures made { self.new.made ≡ self.old.made }
        ensures seen { self.new.seen ≡ slice_set self.old.seen session self.old.standing.version }
        ensures standing { self.new.standing ≡ self.old.standing }
        ensures versions { self.new.versions ≡ self.old.versions }
        ensures out { self.new.out ≡ self.old.out }
    {
        self.see(session);
        end_fits(self.out, reply)
    }

    /// The next word of the order passes, or it fails; then what stands is of no use any more.
    pub(crate) fn word<L: Ledger>(
        &mut self,
        alloc: Global,
        calls: &[SessionCalls],
        output: &Output,
        word: OrderWord,
        desk: &mut Desk,
        steps: &mut Steps<L>,
    ) -> Result<bool, AllocError>
        requires session { word.session < 8 }
        requires few { slice_index self.old.made word.session < 2 ^ 31 }
        requires ready { MayGoOn self.old.standing }
        requires fit { FitsChest (states_in state desk.old.chest) (line_in calls.now word) }
        ensures judged { IfOk result (λ passed. (s : Start) (earlier : List Entry)
            → calls.now ≡ calls_in s.scripts → IsNextWord s output.now earlier word
            → HasCome s.base earlier self.old → Agrees (states_in state desk.old.chest)
            (filters_at s earlier word.session) → WantsIfAny self.old.versions.wanted.items
            (version_named (call_at s.scripts word) (printed_at output.now.replies word).reply)
            → IsJudged s output.now earlier word passed self.new (states_in state desk.new.chest)) }
        ensures slots { OnOk result (SameSlots (states_in state desk.old.chest)
            (states_in state desk.new.chest)) }
        ensures wanted { IfOk result (λ passed. passed ≡ true
            → self.new.versions.wanted.items ≡ self.old.versions.wanted.items) }
    {
        let printed = output.printed(word);
        if word.end {
            return Ok(self.end(word.session, printed.reply));
        }
        let Some(call) = call_at(calls, word) else {
            self.start(word.session);
            return Ok(true);
        };
        match tile_peeked(call) {
            Some(tile) => {
                let out = &mut desk.out;
                self.peek(alloc, word.session, tile, &printed, out, steps)
            }
            None => self.call(alloc, word.session, call, &printed, desk, steps),
        }
    }
}
