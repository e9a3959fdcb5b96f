//! A core with its jobs.
ghost use Rattle.std.specs.Prelude.{◌≡◌, ◌<◌, ◌≤◌, [], IfOk, IfSome};
ghost use Rattle.core_rows.specs.Asked.{IsPlain, PicturesStay, IsOfLast};
ghost use Rattle.xl_core.specs.Editing.{IsPictureOf};
ghost use Rattle.xl_calls.specs.Calls.{call_of};
ghost use Rattle.xl_filters.specs.Chests.{states_in};

use crate::opened::{core_over, plain_desk};
use crate::step::{Step, call};
use sample_documents::document;
use std::alloc::{AllocError, Global};
use std::marker::{Brand, Model};
use std::sync::ledger::{Blank, Ledger};
use xl_blend::Steps;
use xl_calls::{Call, Reply};
use xl_compose::compose;
use xl_core::{Core, Desk, Done, Finished, Picture};
use xl_fakes::MemoryShelf;
use xl_ports::Shelf;
use xl_standing::{has_stack, has_tile};

/// For how many more calls room is taken at most.
const MOST_CALLS: u32 = 100;

/// A core, the jobs that are out, which are composed, and what the last tile or peek has shown.
#[derive(Drop)]
pub struct Bench {
    core: Core<MemoryShelf>,
    outs: Vec<Done>,
    shown: Picture,
}

impl Model for Bench {
    ghost use Rattle.std.specs.Prelude.{ℕ, length};
    ghost use Rattle.std.specs.List.{AllByRecursion};
    ghost use Rattle.xl_core.specs.Editing.{IsPictureOf};

    ghost Value = { ℕ };

    ghost view = { λ b. length b.outs.items };

    ghost invariant = { λ b. AllByRecursion (IsPictureOf b.core.history) b.outs.items };
}

// Makes a call of a session that has seen the last version.
fn submit<L: Ledger, D: Shelf>(
    alloc: Global,
    core: &mut Core<D>,
    call: Call,
    desk: &mut Desk,
    blank: Blank,
) -> Result<Reply, AllocError>
    requires name { blank.name ≡ L.name }
    requires parts { blank.parts ≡ L.parts }
    requires some { 0 < blank.parts }
    requires plain { IsPlain (call_of call) }
    requires desk { states_in state desk.old.chest ≡ [] }
    ensures { PicturesStay core.old.history core.new.history }
{
    let mut steps = Steps::<L>::new(blank);
    core.know_right();
    let seen = core.version();
    core.submit(alloc, 0, call, seen, desk, &mut steps)
}

// Takes room for n more calls. For how many there is room then.
fn reserve<D: Shelf>(core: &mut Core<D>, n: u32) -> Result<u32, AllocError>
    requires { n ≤ MOST_CALLS }
    ensures same { core.new.history ≡ core.old.history }
{
    core.reserve(n)?;
    Ok(core.spare())
}

// Takes a job and composes it.
fn compose_next<L: Ledger, D: Shelf>(
    alloc: Global,
    core: &mut Core<D>,
    blank: Blank,
) -> Result<Option<Done>, AllocError>
    requires name { blank.name ≡ L.name }
    requires parts { blank.parts ≡ L.parts }
    requires some { 0 < blank.parts }
    ensures same { core.new.history ≡ core.old.history }
    ensures last { IfOk result (λ done. IfSome done (IsOfLast core.new.history)) }
{
    let mut steps = Steps::<L>::new(blank);
    match core.take_job(alloc)? {
        None => Ok(None),
        Some(job) => Ok(Some(compose(job, &mut steps))),
    }
}

// Takes a job and composes it, where it is of a tile that is there.
fn next<D: Shelf>(alloc: Global, core: &mut Core<D>) -> Result<Option<Done>, AllocError>
    ensures same { core.new.history ≡ core.old.history }
    ensures right { IfOk result (λ done. IfSome done (IsPictureOf core.new.history)) }
{
    let Some(done) = compose_next::<Brand, D>(alloc, core, Blank::new(1))? else {
        return Ok(None);
    };
    if !has_stack(core.document(), done.node) {
        return Err(AllocError);
    }
    if !has_tile(core.document(), done.at) {
        return Err(AllocError);
    }
    Ok(Some(done))
}

impl Bench {
    /// The core of a file's document.
    pub fn open(alloc: Global, file: &[u8]) -> Result<Bench, AllocError> {
        let shelf = MemoryShelf::new(alloc, Vec::new(alloc), Vec::new(alloc), None)?;
        let shown = Picture::blank(alloc)?;
        let document = document(alloc, file)?;
        let core = core_over(alloc, document, shelf)?;
        Ok(Bench {
            core,
            outs: Vec::new(alloc),
            shown,
        })
    }

    /// The reply to a step.
    pub fn ask(&mut self, alloc: Global, step: Step) -> Result<Reply, AllocError> {
        let mut desk = plain_desk(alloc)?;
        let call = call(alloc, step)?;
        let reply = submit::<Brand, MemoryShelf>(
            alloc,
            &mut self.core,
            call,
            &mut desk,
            Blank::new(1),
        )?;
        self.shown.copy_from(&desk.out);
        Ok(reply)
    }

    /// What the last step has shown, which is nothing where it was no tile and no peek.
    pub fn picture(&self) -> &[u8] {
        self.shown.bytes()
    }

    /// Takes room for n more calls, at most 100. For how many there is room then.
    pub fn reserve(&mut self, n: u32) -> Result<u32, AllocError> {
        reserve(&mut self.core, n.min(MOST_CALLS))
    }

    /// For how many more calls there is room.
    pub fn spare(&self) -> u32 {
        self.core.spare()
    }

    /// Takes a job, which is out then behind the others. Its stack and its tile.
    pub fn take(&mut self, alloc: Global) -> Result<Option<(u32, u32, u32)>, AllocError> {
        self.outs.reserve(1)?;
        let Some(done) = next(alloc, &mut self.core)? else {
            return Ok(None);
        };
        let place = (done.node.0, done.at.col, done.at.row);
        self.outs.push_reserved(done);
        Ok(Some(place))
    }

    /// Hands in the job that was taken last.
    pub fn finish(&mut self) -> Option<Finished> {
        let done = self.outs.pop()?;
        Some(self.core.finish(done))
    }
}
