ghost use Rattle.std.specs.Prelude.{◌≡◌, ◌<◌, [], None, IfOk, IfErr, IfSome, IsSome, OnErr};
ghost use Rattle.spec_history.specs.Machine as machine;
ghost use Rattle.xcf.specs.Asked.{IsPlainCall, IsOwnCall, Fails, reply_in};
ghost use Rattle.xcf.specs.Opened.{Opens, history_of};
ghost use Rattle.xcf.specs.Plain.{IsPlainGroup};
ghost use Rattle.xcf.specs.declared.errors.NotEdited.TheVariants.{Memory};
ghost use Rattle.xl_core.specs.History.{Answers, document, version};
ghost use Rattle.xl_calls.specs.Calls.{call_of};
ghost use Rattle.xl_calls.specs.Edits.{edits_of};
ghost use Rattle.xl_calls.specs.Replies.{reply_of};
ghost use Rattle.xl_filters.specs.Chests.{states_in};

use crate::changed::Changed;
use crate::errors::{NotEdited, NotOpened};
use crate::group::check_group;
use crate::no_shelf::NoShelf;
use crate::opening::open;
use crate::replies::outcome;
use std::alloc::{AllocError, Global};
use std::marker::{Brand, Model};
use std::sync::ledger::{Blank, Ledger};
use xl_blend::Steps;
use xl_calls::{Call, Edits, Group, Reply};
use xl_core::{Core, Desk};
use xl_doc::Document;
use xl_filters::{Chest, PointFilter};

/// An image with its history: each call is an entry, and the last 256 groups can be undone. A history has at most 2^20
/// entries.
#[derive(Drop)]
pub struct Editor {
    core: Core<NoShelf>,
}

impl Model for Editor {
    ghost use Rattle.std.specs.Coded.{codes};
    ghost use Rattle.spec_document.specs.Code.{coded_document};
    ghost use Rattle.xl_core.specs.History.{History};

    ghost Value = { History };

    ghost coded = { Prim.hlevel (codes, coded_document) };

    ghost view = { λ e. e.core.history };
}

// Makes a call as session 0, which has seen all versions, at a desk without filters.
fn submit<L: Ledger>(
    alloc: Global,
    core: &mut Core<NoShelf>,
    call: Call,
    desk: &mut Desk,
    blank: Blank,
) -> Result<Reply, AllocError>
    requires name { blank.name ≡ L.name }
    requires parts { blank.parts ≡ L.parts }
    requires some { 0 < blank.parts }
    requires plain { IsPlainCall (call_of call) }
    requires desk { states_in state desk.old.chest ≡ [] }
    ensures answered { IfOk result (λ reply. Answers core.old.history 0 (call_of call) []
        (reply_of reply) core.new.history) }
    ensures as_before { OnErr result (core.new.history ≡ core.old.history) }
{
    let mut steps = Steps::<L>::new(blank);
    let seen = core.version();
    core.submit(alloc, 0, call, seen, desk, &mut steps)
}

impl Editor {
    /// The image that a file holds, from the file's bytes, with a history without entries.
    ///
    /// Errors: `Refused` with the first rule that the file breaks and its offset, `TooLong` for more than 2^31 bytes,
    /// `Memory`.
    pub fn open(alloc: Global, file: Vec<u8>) -> Result<Editor, NotOpened>
        ensures opens { Opens file.items (λ editor. editor.base) result }
        ensures first { IfOk result (λ editor. editor ≡ history_of editor.base) }
    {
        let document = open(alloc, file)?;
        match Core::open(alloc, document, NoShelf::new()) {
            Ok(core) => Ok(Editor { core }),
            Err(_) => Err(NotOpened::Memory),
        }
    }

    // Makes a call that names no filter.
    fn ask(&mut self, alloc: Global, call: Call) -> Result<Reply, AllocError>
        requires { IsPlainCall (call_of call) }
        ensures answered { IfOk result (λ reply. Answers self.old 0 (call_of call) []
            (reply_of reply) self.new) }
        ensures as_before { OnErr result (self.new ≡ self.old) }
    {
        let Ok(chest) = Chest::new(alloc, Vec::new(alloc)) else {
            return Err(AllocError);
        };
        let Ok(mut desk) = Desk::new(alloc, chest) else {
            return Err(AllocError);
        };
        submit::<Brand>(alloc, &mut self.core, call, &mut desk, Blank::new(1))
    }

    // Makes a call that names no filter, no guard and no group: what its reply stands for.
    fn tell(&mut self, alloc: Global, call: Call) -> Result<Changed, NotEdited>
        requires plain { IsPlainCall (call_of call) }
        requires own { IsOwnCall (call_of call) }
        ensures answered { IfSome (reply_in result) (λ reply. Answers self.old 0 (call_of call) []
            reply self.new) }
        ensures as_before { reply_in result ≡ None → self.new ≡ self.old }
        ensures memory { IfErr result (λ e. reply_in result ≡ None → e ≡ Memory) }
    {
        let reply = self.ask(alloc, call)?;
        match outcome(reply) {
            Some(made) => made,
            None => unreachable!(),
        }
    }

    /// Makes a group of 1 to 1024 edits in turn, all or none: with Ok a new version was made.
    ///
    /// Errors: `Refused` with the first edit that is refused and why, which is an entry of the history; the document is
    /// as before. After all others the history is too: `HistoryFull`, `NotGroup` for no edits, too many, a filter among
    /// them, or one that is past the limits of its type, and `Memory`.
    pub fn edit(&mut self, alloc: Global, edits: Edits) -> Result<Changed, NotEdited>
        ensures answered { IfSome (reply_in result) (λ reply.
            Answers self.old 0 (machine.edit None (edits_of edits)) [] reply self.new) }
        ensures as_before { reply_in result ≡ None → self.new ≡ self.old }
        ensures group { IsSome (reply_in result) → IsPlainGroup (edits_of edits) }
        ensures fails { IfErr result (Fails (edits_of edits)) }
    {
        check_group(edits.as_slice())?;
        self.tell(alloc, Call::Edit(Group { guard: None, edits }))
    }

    /// Undoes the last group: the document before it is the next version.
    ///
    /// Errors: `NothingToUndo`, which is an entry of the history; the document is as before. After `HistoryFull` and
    /// `Memory` the history is too.
    pub fn undo(&mut self, alloc: Global) -> Result<Changed, NotEdited>
        ensures answered { IfSome (reply_in result) (λ reply.
            Answers self.old 0 (machine.undo None) [] reply self.new) }
        ensures as_before { reply_in result ≡ None → self.new ≡ self.old }
        ensures memory { IfErr result (λ e. reply_in result ≡ None → e ≡ Memory) }
    {
        self.tell(alloc, Call::Undo(None))
    }

    /// Makes the group again that was undone last: the document after it is the next version.
    ///
    /// Errors: `NothingToRedo`, which is an entry of the history; the document is as before. After `HistoryFull` and
    /// `Memory` the history is too.
    pub fn redo(&mut self, alloc: Global) -> Result<Changed, NotEdited>
        ensures answered { IfSome (reply_in result) (λ reply.
            Answers self.old 0 machine.redo [] reply self.new) }
        ensures as_before { reply_in result ≡ None → self.new ≡ self.old }
        ensures memory { IfErr result (λ e. reply_in result ≡ None → e ≡ Memory) }
    {
        self.tell(alloc, Call::Redo)
    }

    /// The last version's number. The file is version 0.
    pub fn version(&self) -> u32
        ensures { result ≡ version self.now }
    {
        self.core.version()
    }

    /// The last version's document: what [`crate::tile`], [`crate::picture`] and [`crate::save`] take.
    pub fn document(&self) -> &Document
        ensures { result.now ≡ document self.now }
    {
        self.core.document()
    }
}
