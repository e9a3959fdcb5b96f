ghost use Rattle.std.specs.Prelude.{◌≡◌, ◌+◌, ◌≤◌, ◌^◌, [], ◌++◌, length, false, None, IfOk, IfErr};
ghost use mathlib.Core.List.{IsPrefix};
ghost use Rattle.spec_world.specs.Right.{IsRight};
ghost use Rattle.xl_history.specs.Editing.{world};
ghost use Rattle.xl_turn.specs.Seats.{IsApart, IsEachOnce};
ghost use Rattle.xl_turn.specs.Turns.{longer};
ghost use Rattle.xl_studio.specs.Seats.{base_of, opening_shelf, front_of, made_of, weight_of, known_by, IsSeatOf};
ghost use Rattle.xl_studio.specs.Jobs.{job_out, tally_of};
ghost use Rattle.xl_studio.specs.State.{moments_of};

use crate::seat::{Seat, Studio};
use crate::shared::Shared;
use std::alloc::{AllocFailed, Global};
use xl_core::{Core, Tally};
use xl_ports::Shelf;
use xl_shifts::Shifts;
use xl_turn::TurnLock;
use xl_wait::Calm;

impl<D: Shelf> Studio<D> {
    /// A studio over a core without entries, and its first seat, which has all the weight. The core comes back where
    /// memory ran out.
    pub fn open(alloc: Global, core: Core<D>) -> Result<(Studio<D>, Seat<D>), AllocFailed<Core<D>>>
        requires { core.history.entries ≡ [] }
        ensures seat { IfOk result (λ r. IsSeatOf r.0 r.1) }
        ensures base { IfOk result (λ r. base_of r.0 ≡ core.history.base) }
        ensures shelf { IfOk result (λ r. opening_shelf r.0 ≡ core.opening) }
        ensures front { IfOk result (λ r. front_of r.1 ≡ moments_of core) }
        ensures made { IfOk result (λ r. made_of r.1 ≡ []) }
        ensures weight { IfOk result (λ r. weight_of r.1 ≡ 2 ^ 32) }
        ensures free { IfOk result (λ r. job_out r.1 ≡ None) }
        ensures closed { IfOk result (λ r. r.1.closed ≡ false) }
        ensures tally { IfOk result (λ r. tally_of r.1 ≡ Tally.NONE) }
        ensures back { IfErr result (λ failed. failed.value ≡ core) }
    {
        core.know_right();
        core.know_opening();
        match TurnLock::open(alloc, Shared::new(core)) {
            Ok((lock, seat)) => Ok((
                Studio {
                    lock,
                    calm: Calm::new(),
                    shifts: Shifts::new(),
                },
                Seat {
                    seat,
                    seen: 0,
                    closed: false,
                    job: None,
                    tally: Tally::NONE,
                },
            )),
            Err(failed) => Err(AllocFailed {
                value: failed.value.into_core(),
            }),
        }
    }

    /// Splits a seat in two. The new one knows the same front, made nothing, handed nothing in, and takes a weight of
    /// 1.
    pub fn split(&self, seat: &mut Seat<D>) -> Seat<D>
        requires seat { IsSeatOf self.now seat.old }
        requires weight { 2 ≤ weight_of seat.old }
        ensures old { IsSeatOf self.now seat.new }
        ensures stays { known_by seat.new ≡ known_by seat.old }
        ensures lighter { weight_of seat.new + 1 ≡ weight_of seat.old }
        ensures new { IsSeatOf self.now result }
        ensures front { front_of result ≡ front_of seat.old }
        ensures made { made_of result ≡ [] }
        ensures weight { weight_of result ≡ 1 }
        ensures free { job_out result ≡ None }
        ensures closed { result.closed ≡ false }
        ensures tally { tally_of result ≡ Tally.NONE }
        ensures job { job_out seat.new ≡ job_out seat.old }
        ensures closed_stays { seat.new.closed ≡ seat.old.closed }
        ensures tally_stays { tally_of seat.new ≡ tally_of seat.old }
    {
        Seat {
            seat: self.lock.split(&mut seat.seat),
            seen: seat.seen,
            closed: false,
            job: None,
            tally: Tally::NONE,
        }
    }

    /// Joins two seats. The joined one knows the longer front, which both old ones begin, and made what both made. No
    /// entry is of both. Its tally and its job stay its own; the other has no job out, so that none is lost.
    pub fn join(&self, seat: &mut Seat<D>, other: Seat<D>)
        requires seat { IsSeatOf self.now seat.old }
        requires other { IsSeatOf self.now other }
        requires free { job_out other ≡ None }
        ensures seat { IsSeatOf self.now seat.new }
        ensures front { front_of seat.new ≡ longer (front_of seat.old) (front_of other) }
        ensures begins { IsPrefix (front_of seat.old) (front_of seat.new) }
        ensures other { IsPrefix (front_of other) (front_of seat.new) }
        ensures made { made_of seat.new ≡ made_of seat.old ++ made_of other }
        ensures apart { IsApart (made_of seat.old) (made_of other) }
        ensures weight { weight_of seat.new ≡ weight_of seat.old + weight_of other }
        ensures job { job_out seat.new ≡ job_out seat.old }
        ensures closed { seat.new.closed ≡ seat.old.closed }
        ensures tally { tally_of seat.new ≡ tally_of seat.old }
    {
        let Seat {
            seat: joined,
            seen,
            closed: _,
            job: _,
            tally: _,
        } = other;
        self.lock.join(&mut seat.seat, joined);
        seat.seen = seat.seen.max(seen);
    }

    /// Takes the studio apart once all other seats were joined, and no job is out. The seat made each entry of the one
    /// history, each once.
    pub fn close(self, seat: Seat<D>) -> Core<D>
        requires seat { IsSeatOf self seat }
        requires weight { weight_of seat ≡ 2 ^ 32 }
        requires free { job_out seat ≡ None }
        ensures base { result.history.base ≡ base_of self }
        ensures opening { result.opening ≡ opening_shelf self }
        ensures front { IsPrefix (front_of seat) (moments_of result) }
        ensures made { IsEachOnce (length result.history.entries) (made_of seat) }
        ensures right { IsRight result.history.base (world result) }
    {
        let Studio {
            lock,
            calm: _,
            shifts: _,
        } = self;
        let Seat {
            seat,
            seen: _,
            closed: _,
            job: _,
            tally: _,
        } = seat;
        lock.close(seat).into_core()
    }
}
