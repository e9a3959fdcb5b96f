ghost use Rattle.std.specs.Prelude.{◌≡◌, ◌+◌, ◌≤◌, ◌<◌, false, IfOk, OnErr, IsSome};
ghost use Rattle.spec_history.specs.Calls.{IsCall};
ghost use Rattle.spec_history.specs.Kept.{IsLegal};
ghost use Rattle.spec_history.specs.Limited.{edits_of};
ghost use Rattle.spec_tables.specs.Agrees.{AreThere};
ghost use Rattle.spec_world.specs.Events.{IsOutOf};
ghost use Rattle.xl_history.specs.Editing.{out_of, ComesBack};
ghost use Rattle.xl_history.specs.History.{version};
ghost use Rattle.xl_calls.specs.Calls.{call_of};
ghost use Rattle.xl_calls.specs.Replies.{reply_of};
ghost use Rattle.xl_filters.specs.Chests.{states_in};
ghost use Rattle.xl_studio.specs.Answered.{IsAnsweredUnderLock};
ghost use Rattle.xl_studio.specs.State.{IsKept, moments_of};
ghost use Rattle.xl_studio.specs.UnderWay.{AddsStart, Hands, AddsEnd};

use crate::moment::Moment;
use std::alloc::{AllocError, Global};
use std::marker::Model;
use std::sync::ledger::Ledger;
use xl_blend::Steps;
use xl_calls::{Call, Reply};
use xl_core::{Begun, Core, Desk, SaveEnd};
use xl_filters::PointFilter;
use xl_ports::Shelf;
use xl_turn::Chronicle;

/// What lies under the lock.
#[derive(Drop)]
pub struct Shared<D: Shelf> {
    pub(crate) core: Core<D>,
    // How many moments there are: the opening, and each entry.
    moments: u64,
    // Whether no more jobs are given out.
    pub(crate) closing: bool,
}

impl<D: Shelf> Model for Shared<D> {
    ghost use Rattle.std.specs.Prelude.{◌≡◌, ◌+◌, length};
    ghost use Rattle.std.specs.Coded.{codes};
    ghost use Rattle.std.specs.Prelude.{IsSome};
    ghost use Rattle.spec_document.specs.Code.{coded_document};
    ghost use Rattle.xl_studio.specs.State.{State, IsKept};

    ghost Value = { State D };

    ghost coded = { Prim.hlevel (codes, coded_document, D.code) };

    ghost view = { λ s. record { core = s.core; closing = s.closing } };

    ghost invariant = { λ s. IsKept s.core × (s.moments ≡ length s.core.history.entries + 1) × IsSome (D.shelf_state s.core.opening).selected };
}

impl<D: Shelf> Chronicle for Shared<D> {
    ghost use Rattle.xl_studio.specs.Moments.{closed_by};
    ghost use Rattle.xl_studio.specs.State.{moments_of};

    type Entry = Moment<D>;

    ghost entries = { λ s. moments_of s.core };

    ghost closes = { closed_by };

    fn len(&self) -> u64 {
        self.moments
    }
}

impl<D: Shelf> Shared<D> {
    /// A core with the number of its moments.
    pub fn new(core: Core<D>) -> Shared<D>
        requires kept { IsKept core }
        requires selected { IsSome (D.shelf_state core.opening).selected }
        ensures { result ≡ record { core = core; closing = false } }
    {
        let moments = core.entries().len() as u64 + 1;
        Shared {
            core,
            moments,
            closing: false,
        }
    }

    /// The last version's number.
    pub fn version(&self) -> u32
        ensures { result ≡ version self.now.core.history }
    {
        self.core.version()
    }

    /// Makes a call of a session, as the core does.
    pub(crate) fn submit<L: Ledger>(
        &mut self,
        alloc: Global,
        session: u8,
        call: Call,
        seen: u32,
        desk: &mut Desk,
        steps: &mut Steps<L>,
    ) -> Result<Reply, AllocError>
        requires session { session < 8 }
        requires seen { seen ≤ version self.old.core.history }
        requires built { IsCall (call_of call) }
        requires there { AreThere (states_in state desk.old.chest) (edits_of (call_of call)) }

        ensures { IsAnsweredUnderLock session (call_of call) seen result self.old self.new
            (states_in state desk.old.chest) (states_in state desk.new.chest) desk.old.out
            desk.new.out steps.old steps.new }
    {
        let reply = self.core.submit(alloc, session, call, seen, desk, steps);
        self.core.know_right();
        self.moments = self.core.entries().len() as u64 + 1;
        reply
    }

    /// Tells contracts what the core keeps.
    pub(crate) fn know_kept(&self)
        ensures { IsKept self.now.core }
    {
        let _moments = self.moments;
    }

    /// Begins a save of a session, as the core does.
    pub(crate) fn begin(&mut self, alloc: Global, session: u8) -> Result<Begun<D>, AllocError>
        requires session { session < 8 }
        ensures begun { IfOk result (λ begun. AddsStart self.old.core.history.base
            (moments_of self.old.core) session begun (moments_of self.new.core)) }
        ensures hands { IfOk result (λ begun. Hands D.shelf_state self.old.core begun) }
        ensures failed { OnErr result (moments_of self.new.core ≡ moments_of self.old.core) }
        ensures base { self.new.core.history.base ≡ self.old.core.history.base }
        ensures closing { self.new.closing ≡ self.old.closing }
        ensures legal { IsLegal self.old.core.history.base self.old.core.history.entries }
        ensures kept { IsKept self.new.core }
    {
        let begun = self.core.begin_save(alloc, session);
        self.core.know_right();
        let entries = self.core.entries().len() as u64;
        self.moments = entries + 1;
        begun
    }

    /// Ends the save of a session that is out, as the core does.
    pub(crate) fn end(&mut self, session: u8, shelf: D, how: SaveEnd) -> Reply
        requires out { IsOutOf (out_of self.old.core.history) session }
        requires returns { ComesBack D.shelf_state self.old.core how shelf }
        ensures ended { AddsEnd self.old.core.history.base (moments_of self.old.core) session how
            (reply_of result) (moments_of self.new.core) }
        ensures closing { self.new.closing ≡ self.old.closing }
        ensures base { self.new.core.history.base ≡ self.old.core.history.base }
        ensures kept { IsKept self.new.core }
    {
        let reply = self.core.end_save(session, shelf, how);
        let entries = self.core.entries().len() as u64;
        self.moments = entries + 1;
        reply
    }

    /// The core.
    pub fn into_core(self) -> Core<D>
        ensures core { result ≡ self.core }
        ensures kept { IsKept result }
    {
        let Shared { core, .. } = self;
        core
    }
}
