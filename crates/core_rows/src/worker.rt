//! A worker beside a session.
ghost use Rattle.std.specs.Prelude.{◌≡◌, ◌<◌, false, None};
ghost use Rattle.xl_studio.specs.Jobs.{job_out};
ghost use Rattle.xl_studio.specs.Seats.{weight_of, IsSeatOf};

use std::alloc::Global;
use std::marker::Brand;
use std::sync::Wait;
use std::sync::ledger::{Blank, Ledger};
use xl_blend::Steps;
use xl_ports::{Gate, Shelf};
use xl_refresh::{Worked, work};
use xl_studio::{Seat, Studio};

// A worker with steps of its own.
fn refresh_with<L: Ledger, W: Wait, D: Shelf, G: Gate>(
    rt: &W,
    alloc: Global,
    studio: &Studio<D>,
    seat: &mut Seat<D>,
    gate: &G,
    blank: Blank,
) -> Worked
    requires name { blank.name ≡ L.name }
    requires parts { blank.parts ≡ L.parts }
    requires some { 0 < blank.parts }
    requires seat { IsSeatOf studio.now seat.old }
    requires free { job_out seat.old ≡ None }
    requires open { seat.old.closed ≡ false }
    ensures seat { IsSeatOf studio.now seat.new }
    ensures weight { weight_of seat.new ≡ weight_of seat.old }
    ensures free { job_out seat.new ≡ None }
{
    let mut steps = Steps::<L>::new(blank);
    work(rt, alloc, studio, seat, gate, 0, &mut steps)
}

/// A worker, until no more jobs are given out.
pub(crate) fn refresh<W: Wait, D: Shelf, G: Gate>(
    rt: &W,
    alloc: Global,
    studio: &Studio<D>,
    seat: &mut Seat<D>,
    gate: &G,
) -> Worked
    requires seat { IsSeatOf studio.now seat.old }
    requires free { job_out seat.old ≡ None }
    requires open { seat.old.closed ≡ false }
    ensures seat { IsSeatOf studio.now seat.new }
    ensures weight { weight_of seat.new ≡ weight_of seat.old }
    ensures free { job_out seat.new ≡ None }
{
    refresh_with::<Brand, W, D, G>(rt, alloc, studio, seat, gate, Blank::new(1))
}
