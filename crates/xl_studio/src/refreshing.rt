ghost use Rattle.std.specs.Prelude.{◌≡◌, None, IfOk, IfSome};
ghost use Rattle.xl_history.specs.Editing.{IsPictureOf};
ghost use Rattle.xl_history.specs.History.{version};
ghost use Rattle.xl_history.specs.Jobs.{finished_by};
ghost use Rattle.xl_history.specs.Places.{place_done};
ghost use Rattle.xl_studio.specs.Answered.{SeatGoesOn};
ghost use Rattle.xl_studio.specs.Calling.{HasHeard};
ghost use Rattle.xl_studio.specs.Moments.{entries_in};
ghost use Rattle.xl_studio.specs.Refreshing.{IsJobAt, HandsIn, IsRefreshed};
ghost use Rattle.xl_studio.specs.Seats.{base_of, history_of, front_of, known_by, last_turn, IsSeatOf};

use crate::seat::{Seat, Studio};
use crate::taking::Taking;
use std::alloc::{AllocError, Global};
use std::sync::Wait;
use std::sync::ledger::Ledger;
use xl_blend::Steps;
use xl_compose::compose;
use xl_core::{Done, Finished, Job};
use xl_doc::{NodeId, TileAt};
use xl_ports::Shelf;

impl<D: Shelf> Studio<D> {
    // The first hold: a job for the tile, where its slot is marked.
    fn job_for<W: Wait>(
        &self,
        rt: &W,
        alloc: Global,
        seat: &mut Seat<D>,
        node: NodeId,
        at: TileAt,
    ) -> Result<Option<Job>, AllocError>
        requires seat { IsSeatOf self.now seat.old }
        ensures goes_on { SeatGoesOn self.now seat.old seat.new }
        ensures heard { HasHeard (known_by seat.old) (known_by seat.new) }
        ensures made { IfOk result (λ job. IfSome job
            (IsJobAt (history_of (base_of self.now) (front_of seat.new)) node.0 at)) }
    {
        let held = self.lock.enter(rt, &mut seat.seat);
        let job = held.value.job_for(alloc, node, at);
        let seen = held.value.last_version();
        self.lock.leave(held, &mut seat.seat);
        seat.seen = seen;
        job
    }

    // The second hold: the picture is kept, unless its tile was marked at a later version or its stack is gone. The
    // lock's list has no pictures, so what the turn took out and put back tells that.
    fn hand_in<W: Wait>(&self, rt: &W, seat: &mut Seat<D>, done: Done) -> Finished
        requires seat { IsSeatOf self.now seat.old }
        requires done { IsPictureOf (history_of (base_of self.now) (front_of seat.old)) done }
        ensures goes_on { SeatGoesOn self.now seat.old seat.new }
        ensures heard { HasHeard (known_by seat.old) (known_by seat.new) }
        ensures finished { result ≡ finished_by (base_of self.now) (entries_in (front_of seat.new))
            (place_done done) done.version }
        ensures handed { HandsIn (history_of (base_of self.now) (front_of seat.new)) done result
            (last_turn seat.new) }
    {
        let mut held = self.lock.enter(rt, &mut seat.seat);
        let finished = held.value.finish(done);
        let seen = held.value.last_version();
        self.lock.leave(held, &mut seat.seat);
        seat.seen = seen;
        finished
    }

    /// Composes the picture of a tile outside the turn where its slot is marked, so that the call that asks for the
    /// tile next takes no step where no other marks it in between.
    ///
    /// The first hold of the turn makes a job of the last version, and the second hands its picture in: it is kept,
    /// unless the tile was marked at a later version or its stack is gone. Where the slot is clean, or the stack or the
    /// tile is not there, there is no job and no second hold. It makes no entry, and takes no job of the desk: the slot
    /// does not count as taken, and the seat's tally does not count the picture. The core that the second hold puts back
    /// is the one that it took out, with the picture handed in.
    ///
    /// Where memory runs out nothing is composed, which is no failure: the call that asks for the tile decides.
    pub fn refresh<W: Wait, L: Ledger>(
        &self,
        rt: &W,
        alloc: Global,
        seat: &mut Seat<D>,
        node: NodeId,
        at: TileAt,
        steps: &mut Steps<L>,
    ) -> Option<Finished>
        requires seat { IsSeatOf self.now seat.old }

        ensures goes_on { SeatGoesOn self.now seat.old seat.new }
        ensures heard { HasHeard (known_by seat.old) (known_by seat.new) }
        ensures refreshed { IfSome result
            (λ finished. IsRefreshed (version (history_of (base_of self.now) (front_of seat.old)))
            (history_of (base_of self.now) (front_of seat.new)) node.0 at steps.old steps.new finished
            (last_turn seat.new)) }
        ensures no_step { result ≡ None → steps.new ≡ steps.old }
    {
        match self.job_for(rt, alloc, seat, node, at) {
            Ok(Some(job)) => {
                let done = compose(job, steps);
                Some(self.hand_in(rt, seat, done))
            }
            Ok(None) => None,
            Err(_) => None,
        }
    }
}
