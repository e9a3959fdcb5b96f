//! The calls of a session.
ghost use Rattle.std.specs.Prelude.{◌≡◌, ◌<◌, [], Some, None, IfOk, IfErr, IsSome, OnErr};
ghost use Rattle.spec_history.specs.Machine as machine;
ghost use Rattle.xcf.specs.Asked.{Fails, IsOwnCall, reply_in};
ghost use Rattle.xcf.specs.Plain.{IsPlainGroup};
ghost use Rattle.xcf.specs.declared.errors.NotEdited.TheVariants.{Memory};
ghost use Rattle.xcf_sessions.specs.Answered.{IsAnswered, IsFilterless, IsTileCall, IsTold, ShowsIn, ShowsVersion};
ghost use Rattle.xcf_sessions.specs.Replies.{reply_shown};
ghost use Rattle.xcf_sessions.specs.Seen.{HasHeard, history_of};
ghost use Rattle.xl_calls.specs.Calls.{call_of};
ghost use Rattle.xl_calls.specs.Edits.{edits_of};
ghost use Rattle.xl_calls.specs.Replies.{reply_of};
ghost use Rattle.xl_core.specs.History.{Shows};
ghost use Rattle.xl_filters.specs.Chests.{states_in};

use crate::replies::outcome_of_tile;
use crate::session::Session;
use crate::shown::{Shown, side_of};
use std::alloc::{AllocError, Global};
use std::marker::Brand;
use std::sync::Wait;
use std::sync::ledger::{Blank, Ledger};
use xcf::{Changed, Edits, NodeId, NotEdited, NotShown, Reply, TileAt, check_group, outcome};
use xl_blend::Steps;
use xl_calls::{Call, Group};
use xl_compose::Picture;
use xl_core::Desk;
use xl_filters::{Chest, PointFilter};
use xl_ports::Shelf;

impl<D: Shelf> Session<D> {
    // Makes a call at a desk without filters, with steps of its own.
    fn submit<W: Wait, L: Ledger>(
        &mut self,
        rt: &W,
        alloc: Global,
        call: Call,
        desk: &mut Desk,
        blank: Blank,
    ) -> Result<Reply, AllocError>
        requires name { blank.name ≡ L.name }
        requires parts { blank.parts ≡ L.parts }
        requires some { 0 < blank.parts }
        requires filterless { IsFilterless (call_of call) }
        requires desk { states_in state desk.old.chest ≡ [] }
        ensures answered { IfOk result (λ reply. IsAnswered (call_of call) (reply_of reply) self.old
            self.new) }
        ensures shown { IfOk result (λ reply. Shows (history_of self.new) (call_of call)
            (reply_of reply) desk.new.out) }
        ensures heard { OnErr result (HasHeard self.old self.new) }
    {
        let mut steps = Steps::<L>::new(blank);
        self.studio.call(
            rt,
            alloc,
            &mut self.seat,
            self.number,
            call,
            desk,
            &mut steps,
        )
    }

    // Makes a call that names no filter: the reply, and the picture of a tile that was asked for.
    #[tactic(auto, using(crate::proofs::Following::same_heard))]
    fn ask<W: Wait>(
        &mut self,
        rt: &W,
        alloc: Global,
        call: Call,
    ) -> Result<(Reply, Picture), AllocError>
        requires { IsFilterless (call_of call) }
        ensures answered { IfOk result (λ said. IsAnswered (call_of call) (reply_of said.0) self.old
            self.new) }
        ensures shown { IfOk result (λ said. Shows (history_of self.new) (call_of call)
            (reply_of said.0) said.1) }
        ensures heard { OnErr result (HasHeard self.old self.new) }
    {
        self.know_legal();
        let Ok(chest) = Chest::new(alloc, Vec::new(alloc)) else {
            return Err(AllocError);
        };
        let Ok(mut desk) = Desk::new(alloc, chest) else {
            return Err(AllocError);
        };
        let reply = self.submit::<W, Brand>(rt, alloc, call, &mut desk, Blank::new(1))?;
        let Desk { chest: _, out } = desk;
        Ok((reply, out))
    }

    // Asks for a new version.
    #[tactic(auto, using(crate::proofs::Following::same_heard, crate::proofs::Outcomes::own))]
    fn tell<W: Wait>(&mut self, rt: &W, alloc: Global, call: Call) -> Result<Changed, NotEdited>
        requires filterless { IsFilterless (call_of call) }
        requires own { IsOwnCall (call_of call) }
        ensures told { IsTold (call_of call) (reply_in result) self.old self.new }
        ensures memory { IfErr result (λ e. reply_in result ≡ None → e ≡ Memory) }
    {
        let (reply, _) = self.ask(rt, alloc, call)?;
        match outcome(reply) {
            Some(made) => made,
            None => unreachable!(),
        }
    }

    // Asks for the picture of a tile.
    #[tactic(auto, using(crate::proofs::Outcomes::of_tile, crate::proofs::Pictured::without))]
    fn look<W: Wait>(
        &mut self,
        rt: &W,
        alloc: Global,
        call: Call,
        at: TileAt,
    ) -> Result<Shown, NotShown>
        requires { IsTileCall (call_of call) at }
        ensures told { IsTold (call_of call) (reply_shown result) self.old self.new }
        ensures shown { ShowsIn self.new (call_of call) result }
    {
        let width = side_of(self.width, at.col);
        let height = side_of(self.height, at.row);
        match self.ask(rt, alloc, call) {
            Ok((reply, picture)) => outcome_of_tile(reply, width, height, picture),
            Err(AllocError) => Err(NotShown::Memory),
        }
    }

    // Makes a group of edits, which a guard may tie to a version.
    #[tactic(auto, using(crate::proofs::Following::same_heard))]
    fn edit_by<W: Wait>(
        &mut self,
        rt: &W,
        alloc: Global,
        guard: Option<u32>,
        edits: Edits,
    ) -> Result<Changed, NotEdited>
        ensures told { IsTold (machine.edit guard (edits_of edits)) (reply_in result) self.old
            self.new }
        ensures group { IsSome (reply_in result) → IsPlainGroup (edits_of edits) }
        ensures fails { IfErr result (Fails (edits_of edits)) }
    {
        self.know_legal();
        check_group(edits.as_slice())?;
        self.tell(rt, alloc, Call::Edit(Group { guard, edits }))
    }

    /// Makes a group of 1 to 1024 edits in turn, all or none, at the latest version, whoever made that: with Ok a new version was
    /// made.
    ///
    /// Errors: `Refused` with the first edit that is refused and why, which is an entry of the history; the image is as before.
    /// After all others there is no entry: `HistoryFull`, `NotGroup` for no edits, too many, a filter among them, or one that is
    /// past the limits of its type, and `Memory`.
    pub fn edit<W: Wait>(
        &mut self,
        rt: &W,
        alloc: Global,
        edits: Edits,
    ) -> Result<Changed, NotEdited>
        ensures told { IsTold (machine.edit None (edits_of edits)) (reply_in result) self.old
            self.new }
        ensures group { IsSome (reply_in result) → IsPlainGroup (edits_of edits) }
        ensures fails { IfErr result (Fails (edits_of edits)) }
    {
        self.edit_by(rt, alloc, None, edits)
    }

    /// The same where this version is the latest still. Where another session was quicker it is `Moved` with the latest version, and an
    /// entry of the history.
    pub fn edit_at<W: Wait>(
        &mut self,
        rt: &W,
        alloc: Global,
        version: u32,
        edits: Edits,
    ) -> Result<Changed, NotEdited>
        ensures told { IsTold (machine.edit (Some version) (edits_of edits)) (reply_in result)
            self.old self.new }
        ensures group { IsSome (reply_in result) → IsPlainGroup (edits_of edits) }
        ensures fails { IfErr result (Fails (edits_of edits)) }
    {
        self.edit_by(rt, alloc, Some(version), edits)
    }

    /// Undoes the last group, whichever session made it.
    ///
    /// Errors: `NothingToUndo`, which is an entry of the history. After `HistoryFull` and `Memory` there is none.
    pub fn undo<W: Wait>(&mut self, rt: &W, alloc: Global) -> Result<Changed, NotEdited>
        ensures told { IsTold (machine.undo None) (reply_in result) self.old self.new }
        ensures memory { IfErr result (λ e. reply_in result ≡ None → e ≡ Memory) }
    {
        self.tell(rt, alloc, Call::Undo(None))
    }

    /// Undoes this group, if it is the last one still. Where an undo would undo another it is `NotTop`.
    pub fn undo_group<W: Wait>(
        &mut self,
        rt: &W,
        alloc: Global,
        group: u32,
    ) -> Result<Changed, NotEdited>
        ensures told { IsTold (machine.undo (Some group)) (reply_in result) self.old self.new }
        ensures memory { IfErr result (λ e. reply_in result ≡ None → e ≡ Memory) }
    {
        self.tell(rt, alloc, Call::Undo(Some(group)))
    }

    /// Makes the group again that was undone last.
    ///
    /// Errors: `NothingToRedo`, which is an entry of the history. After `HistoryFull` and `Memory` there is none.
    pub fn redo<W: Wait>(&mut self, rt: &W, alloc: Global) -> Result<Changed, NotEdited>
        ensures told { IsTold machine.redo (reply_in result) self.old self.new }
        ensures memory { IfErr result (λ e. reply_in result ≡ None → e ≡ Memory) }
    {
        self.tell(rt, alloc, Call::Redo)
    }

    /// The picture of a tile of 64 by 64 pixels, cut to the canvas, at the latest version. It is kept until an edit changes it. The
    /// stack is node 0 for the image, or a group, without its opacity.
    ///
    /// Errors: `NoStack` where the node is neither, else `OutsideTile` where the canvas has no such tile, `HistoryFull`, `Memory`.
    pub fn tile<W: Wait>(
        &mut self,
        rt: &W,
        alloc: Global,
        stack: NodeId,
        at: TileAt,
    ) -> Result<Shown, NotShown>
        ensures told { IsTold (machine.tile stack.0 at) (reply_shown result) self.old self.new }
        ensures shown { ShowsVersion self.new stack.0 at result }
    {
        self.look(rt, alloc, Call::Tile(stack, at), at)
    }

    /// The picture of a tile as it is kept, at a version that is no older than what the session has seen. Nothing is composed.
    ///
    /// Errors: `Stale` where none is kept that is as late as that, and those of `tile`.
    pub fn peek<W: Wait>(
        &mut self,
        rt: &W,
        alloc: Global,
        stack: NodeId,
        at: TileAt,
    ) -> Result<Shown, NotShown>
        ensures told { IsTold (machine.peek stack.0 at) (reply_shown result) self.old self.new }
        ensures shown { ShowsVersion self.new stack.0 at result }
    {
        self.look(rt, alloc, Call::Peek(stack, at), at)
    }
}
