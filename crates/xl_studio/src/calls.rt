ghost use Rattle.std.specs.Prelude.{◌≡◌, ◌<◌};
ghost use Rattle.spec_history.specs.Calls.{IsCall, IsGroupOfEdits};
ghost use Rattle.spec_history.specs.Limited.{edits_of};
ghost use Rattle.spec_history.specs.Machine as machine;
ghost use Rattle.spec_tables.specs.Agrees.{AreThere};
ghost use Rattle.xl_calls.specs.Calls.{call_of};
ghost use Rattle.xl_calls.specs.Edits.{edits_of as edits_meant};
ghost use Rattle.xl_filters.specs.Chests.{states_in};
ghost use Rattle.xl_studio.specs.Answered.{IsAnswered};
ghost use Rattle.xl_studio.specs.Seats.{IsSeatOf};

use crate::seat::{Seat, Studio};
use std::alloc::{AllocError, Global};
use std::sync::Wait;
use std::sync::ledger::Ledger;
use xl_blend::Steps;
use xl_calls::{Call, Group, NodeId, Reply, TileAt};
use xl_core::Desk;
use xl_filters::PointFilter;
use xl_ports::Shelf;

impl<D: Shelf> Studio<D> {
    // Makes workers wait before they take a job. A tile does not: who asks for tiles is served by jobs too.
    fn announce(&self, call: &Call) {
        match call {
            Call::Tile(_, _) => {}
            Call::Edit(_) | Call::Undo(_) | Call::Redo | Call::Peek(_, _) | Call::Top => {
                self.calm.disturb();
            }
        }
    }

    /// Makes a call of a session in one hold of the turn. Each call below is this one, for calls of one kind.
    ///
    /// The reply is `HistoryFull` where the history has no room for it, and then there is no entry.
    ///
    /// The filters that a group names are in the desk's chest. After out of memory nothing was made, but that the
    /// filters of the first edits of a group that is accepted may have been asked.
    pub fn call<W: Wait, L: Ledger>(
        &self,
        rt: &W,
        alloc: Global,
        seat: &mut Seat<D>,
        session: u8,
        call: Call,
        desk: &mut Desk,
        steps: &mut Steps<L>,
    ) -> Result<Reply, AllocError>
        requires seat { IsSeatOf self.now seat.old }
        requires session { session < 8 }
        requires built { IsCall (call_of call) }
        requires there { AreThere (states_in state desk.old.chest) (edits_of (call_of call)) }

        ensures { IsAnswered self.now session (call_of call) result seat.old seat.new
            (states_in state desk.old.chest) (states_in state desk.new.chest) desk.old.out
            desk.new.out steps.old steps.new }
    {
        self.announce(&call);
        let mut held = self.lock.enter(rt, &mut seat.seat);
        let reply = held
            .value
            .submit(alloc, session, call, seat.seen, desk, steps);
        let seen = held.value.version();
        self.lock.leave(held, &mut seat.seat);
        seat.seen = seen;
        reply
    }

    /// Makes a group of edits, all or none. The filters that the group names are in the desk's chest; they are asked
    /// where it is accepted, and their tables are in its entry. It takes no step. After out of memory there is no
    /// entry, and the filters of the first edits of a group that is accepted may have been asked.
    pub fn edit<W: Wait, L: Ledger>(
        &self,
        rt: &W,
        alloc: Global,
        seat: &mut Seat<D>,
        session: u8,
        group: Group,
        desk: &mut Desk,
        steps: &mut Steps<L>,
    ) -> Result<Reply, AllocError>
        requires seat { IsSeatOf self.now seat.old }
        requires session { session < 8 }
        requires built { IsGroupOfEdits (edits_meant group.edits) }
        requires there { AreThere (states_in state desk.old.chest) (edits_meant group.edits) }

        ensures { IsAnswered self.now session (machine.edit group.guard (edits_meant group.edits)) result seat.old seat.new
            (states_in state desk.old.chest) (states_in state desk.new.chest) desk.old.out
            desk.new.out steps.old steps.new }
    {
        self.call(rt, alloc, seat, session, Call::Edit(group), desk, steps)
    }

    /// Undoes the last group, if it is the one that is named. It takes no step.
    pub fn undo<W: Wait, L: Ledger>(
        &self,
        rt: &W,
        alloc: Global,
        seat: &mut Seat<D>,
        session: u8,
        which: Option<u32>,
        desk: &mut Desk,
        steps: &mut Steps<L>,
    ) -> Result<Reply, AllocError>
        requires seat { IsSeatOf self.now seat.old }
        requires session { session < 8 }

        ensures { IsAnswered self.now session (machine.undo which) result seat.old seat.new
            (states_in state desk.old.chest) (states_in state desk.new.chest) desk.old.out
            desk.new.out steps.old steps.new }
    {
        self.call(rt, alloc, seat, session, Call::Undo(which), desk, steps)
    }

    /// Makes the group again that was undone last. It takes no step.
    pub fn redo<W: Wait, L: Ledger>(
        &self,
        rt: &W,
        alloc: Global,
        seat: &mut Seat<D>,
        session: u8,
        desk: &mut Desk,
        steps: &mut Steps<L>,
    ) -> Result<Reply, AllocError>
        requires seat { IsSeatOf self.now seat.old }
        requires session { session < 8 }

        ensures { IsAnswered self.now session machine.redo result seat.old seat.new
            (states_in state desk.old.chest) (states_in state desk.new.chest) desk.old.out
            desk.new.out steps.old steps.new }
    {
        self.call(rt, alloc, seat, session, Call::Redo, desk, steps)
    }

    /// Which group an undo would undo, and the latest version. It takes no step.
    pub fn top<W: Wait, L: Ledger>(
        &self,
        rt: &W,
        alloc: Global,
        seat: &mut Seat<D>,
        session: u8,
        desk: &mut Desk,
        steps: &mut Steps<L>,
    ) -> Result<Reply, AllocError>
        requires seat { IsSeatOf self.now seat.old }
        requires session { session < 8 }

        ensures { IsAnswered self.now session machine.top result seat.old seat.new
            (states_in state desk.old.chest) (states_in state desk.new.chest) desk.old.out
            desk.new.out steps.old steps.new }
    {
        self.call(rt, alloc, seat, session, Call::Top, desk, steps)
    }

    /// The tile of a stack at the latest version, which is in the desk after `Tile`. Where the tile was kept at the
    /// latest version before the call's own entry, it takes no step, nor with any other reply than `Tile`, nor after
    /// out of memory. Else the tile is composed at most once: that takes at most one step for each pixel of the tile
    /// and each visible node below the stack.
    pub fn tile<W: Wait, L: Ledger>(
        &self,
        rt: &W,
        alloc: Global,
        seat: &mut Seat<D>,
        session: u8,
        node: NodeId,
        at: TileAt,
        desk: &mut Desk,
        steps: &mut Steps<L>,
    ) -> Result<Reply, AllocError>
        requires seat { IsSeatOf self.now seat.old }
        requires session { session < 8 }

        ensures { IsAnswered self.now session (machine.tile node.0 at) result seat.old seat.new
            (states_in state desk.old.chest) (states_in state desk.new.chest) desk.old.out
            desk.new.out steps.old steps.new }
    {
        self.call(rt, alloc, seat, session, Call::Tile(node, at), desk, steps)
    }

    /// The tile of a stack as it is kept, at a version that is no older than the last one that the seat knows. It
    /// composes nothing, and takes no step.
    pub fn peek<W: Wait, L: Ledger>(
        &self,
        rt: &W,
        alloc: Global,
        seat: &mut Seat<D>,
        session: u8,
        node: NodeId,
        at: TileAt,
        desk: &mut Desk,
        steps: &mut Steps<L>,
    ) -> Result<Reply, AllocError>
        requires seat { IsSeatOf self.now seat.old }
        requires session { session < 8 }

        ensures { IsAnswered self.now session (machine.peek node.0 at) result seat.old seat.new
            (states_in state desk.old.chest) (states_in state desk.new.chest) desk.old.out
            desk.new.out steps.old steps.new }
    {
        self.call(rt, alloc, seat, session, Call::Peek(node, at), desk, steps)
    }
}
