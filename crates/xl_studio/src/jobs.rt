ghost use Rattle.std.specs.Prelude.{◌≡◌, option_map};
ghost use Rattle.xl_history.specs.Jobs.{says_closing};
ghost use Rattle.xl_studio.specs.Answered.{SeatGoesOn};
ghost use Rattle.xl_studio.specs.Calling.{HasHeard};
ghost use Rattle.xl_studio.specs.Jobs.{out_of, out_after};
ghost use Rattle.xl_studio.specs.Seats.{known_by, IsSeatOf};

use crate::seat::{Away, Seat, Studio};
use crate::taking::Taking;
use std::alloc::{AllocError, Global};
use std::snapshot::Snapshot;
use std::sync::Wait;
use xl_core::{Done, Finished, JobDesk, Taken};
use xl_doc::Document;
use xl_ports::Shelf;

// Whether the answer was that no more jobs are given out.
fn is_closing(taken: &Result<Taken, AllocError>) -> bool
    ensures { result ≡ says_closing taken.now }
{
    match taken {
        Ok(Taken::Closing) => true,
        Ok(Taken::Job(_)) => false,
        Ok(Taken::Nothing) => false,
        Err(_) => false,
    }
}

// The job that is out after this answer, of this document.
fn away(taken: &Result<Taken, AllocError>, document: Snapshot<Document>) -> Option<Away>
    ensures { option_map out_of result ≡ out_after taken.now document.value }
{
    match taken {
        Ok(Taken::Job(job)) => Some(Away {
            node: job.node(),
            at: job.at(),
            version: job.version(),
            document,
        }),
        Ok(Taken::Nothing) => None,
        Ok(Taken::Closing) => None,
        Err(_) => None,
    }
}

impl<D: Shelf> JobDesk for Studio<D> {
    ghost use Rattle.std.specs.Prelude.{◌≡◌, None, IfOk, IfSome, OnErr};
    ghost use mathlib.Core.List.{IsPrefix};
    ghost use Rattle.xl_history.specs.Places.{place_done};
    ghost use Rattle.xl_history.specs.Jobs.{IsTaken, IsOfLatest, says_closing, IsOutcomeOf, finished_by};
    ghost use Rattle.xl_history.specs.Tally.{counted};
    ghost use Rattle.xl_studio.specs.Calling.{HasHeard};
    ghost use Rattle.xl_studio.specs.Jobs.{job_out, tally_of, IsWorker};
    ghost use Rattle.xl_studio.specs.Moments.{entries_in};
    ghost use Rattle.xl_studio.specs.Refreshing.{HandsIn};
    ghost use Rattle.xl_studio.specs.Seats.{base_of, history_of, front_of, weight_of, made_of, last_turn, known_by};

    type Seat = Seat<D>;

    ghost is_of = { IsWorker };

    ghost closed = { λ s. s.closed };

    ghost out = { job_out };

    ghost weight = { weight_of };

    ghost places = { made_of };

    ghost base = { base_of };

    ghost entries = { λ s. entries_in (front_of s) };

    ghost tally = { tally_of };

    fn take_job<W: Wait>(
        &self,
        rt: &W,
        alloc: Global,
        seat: &mut Seat<D>,
    ) -> Result<Taken, AllocError>
        requires seat { IsWorker self.now seat.old }
        requires none { job_out seat.old ≡ None }
        ensures seat { IsWorker self.now seat.new }
        ensures taken { IfOk result (λ taken. IsTaken taken (job_out seat.new)) }
        ensures latest { IfSome (job_out seat.new) (IsOfLatest (base_of self.now)
            (entries_in (front_of seat.new))) }
        ensures memory { OnErr result (job_out seat.new ≡ None) }
        ensures closed { seat.new.closed ≡ says_closing result }
        ensures weight { weight_of seat.new ≡ weight_of seat.old }
        ensures places { made_of seat.new ≡ made_of seat.old }
        ensures front { IsPrefix (front_of seat.old) (front_of seat.new) }
        ensures begins { IsPrefix (entries_in (front_of seat.old))
            (entries_in (front_of seat.new)) }
        ensures tally { tally_of seat.new ≡ tally_of seat.old }
    {
        self.calm.wait(rt);
        let mut held = self.lock.enter(rt, &mut seat.seat);
        let document = Snapshot::of(held.value.last_document());
        let taken = held.value.take(alloc);
        let seen = held.value.last_version();
        self.lock.leave(held, &mut seat.seat);
        seat.seen = seen;
        seat.closed = is_closing(&taken);
        seat.job = away(&taken, document);
        taken
    }

    // What it says beside the trait: the core that was put back is the one that was taken out, with the picture handed
    // in (`handed`).
    fn finish<W: Wait>(&self, rt: &W, seat: &mut Seat<D>, done: Done) -> Finished
        requires seat { IsWorker self.now seat.old }
        requires done { IsOutcomeOf (job_out seat.old) done }
        ensures finished { result ≡ finished_by (base_of self.now) (entries_in (front_of seat.new))
            (place_done done) done.version }
        ensures handed { HandsIn (history_of (base_of self.now) (front_of seat.new)) done result
            (last_turn seat.new) }
        ensures seat { IsWorker self.now seat.new }
        ensures none { job_out seat.new ≡ None }
        ensures closed { seat.new.closed ≡ seat.old.closed }
        ensures weight { weight_of seat.new ≡ weight_of seat.old }
        ensures places { made_of seat.new ≡ made_of seat.old }
        ensures front { IsPrefix (front_of seat.old) (front_of seat.new) }
        ensures begins { IsPrefix (entries_in (front_of seat.old))
            (entries_in (front_of seat.new)) }
        ensures tally { tally_of seat.new ≡ counted (tally_of seat.old) result }
    {
        let mut held = self.lock.enter(rt, &mut seat.seat);
        let finished = held.value.finish(done);
        let seen = held.value.last_version();
        self.lock.leave(held, &mut seat.seat);
        seat.seen = seen;
        seat.job = None;
        seat.tally = seat.tally.with(finished);
        finished
    }
}

impl<D: Shelf> Studio<D> {
    /// From now on the desk gives no job out.
    pub fn closing<W: Wait>(&self, rt: &W, seat: &mut Seat<D>)
        requires seat { IsSeatOf self.now seat.old }
        ensures goes_on { SeatGoesOn self.now seat.old seat.new }
        ensures heard { HasHeard (known_by seat.old) (known_by seat.new) }
    {
        let mut held = self.lock.enter(rt, &mut seat.seat);
        held.value.shut();
        let seen = held.value.last_version();
        self.lock.leave(held, &mut seat.seat);
        self.calm.end();
        seat.seen = seen;
    }
}
