//! Jobs that a worker's seat takes, and hands in later.
ghost use Rattle.std.specs.Prelude.{◌≡◌, ◌+◌, ◌≤◌, ◌<◌, None, IfOk};
ghost use Rattle.xl_history.specs.Jobs.{IsTaken};
ghost use Rattle.xl_history.specs.declared.jobs.Taken.TheVariants as takes;
ghost use Rattle.xl_studio.specs.Jobs.{job_out, IsWorker};
ghost use Rattle.xl_studio.specs.Seats.{weight_of, IsSeatOf};

use std::alloc::{AllocError, Global};
use std::marker::Brand;
use std::sync::Wait;
use std::sync::ledger::{Blank, Ledger};
use xl_blend::Steps;
use xl_calls::NodeId;
use xl_compose::compose;
use xl_core::{Finished, Job};
use xl_ports::Shelf;
use xl_studio::{JobDesk, Seat, Studio, Taken};

/// A seat for a worker, which has no job out.
pub(crate) fn worker_of<D: Shelf>(studio: &Studio<D>, seat: &mut Seat<D>) -> Seat<D>
    requires seat { IsSeatOf studio.now seat.old }
    requires weight { 2 ≤ weight_of seat.old }
    ensures seat { IsSeatOf studio.now seat.new }
    ensures weight { weight_of seat.new + 1 ≡ weight_of seat.old }
    ensures worker { IsWorker studio.now result }
    ensures free { job_out result ≡ None }
{
    studio.split(seat)
}

// The job, where it is of this stack.
fn of_stack(job: Job, stack: NodeId) -> Result<Job, AllocError>
    ensures { IfOk result (λ same. same ≡ job) }
{
    if job.node() != stack {
        return Err(AllocError);
    }
    Ok(job)
}

/// The next job, where it is of this stack.
pub(crate) fn take_of<W: Wait, D: Shelf>(
    rt: &W,
    alloc: Global,
    studio: &Studio<D>,
    worker: &mut Seat<D>,
    stack: NodeId,
) -> Result<Job, AllocError>
    requires worker { IsWorker studio.now worker.old }
    requires free { job_out worker.old ≡ None }
    ensures worker { IsWorker studio.now worker.new }
    ensures taken { IfOk result (λ job. IsTaken (takes.Job job) (job_out worker.new)) }
{
    match studio.take_job(rt, alloc, worker)? {
        Taken::Job(job) => of_stack(job, stack),
        Taken::Nothing | Taken::Closing => Err(AllocError),
    }
}

fn compose_and_finish<W: Wait, D: Shelf, L: Ledger>(
    rt: &W,
    studio: &Studio<D>,
    worker: &mut Seat<D>,
    job: Job,
    blank: Blank,
) -> Finished
    requires name { blank.name ≡ L.name }
    requires parts { blank.parts ≡ L.parts }
    requires some { 0 < blank.parts }
    requires worker { IsWorker studio.now worker.old }
    requires job { IsTaken (takes.Job job) (job_out worker.old) }
    ensures worker { IsWorker studio.now worker.new }
{
    let mut steps = Steps::<L>::new(blank);
    let done = compose(job, &mut steps);
    studio.finish(rt, worker, done)
}

/// Composes the job that is out, and hands its picture in.
pub(crate) fn hand_in<W: Wait, D: Shelf>(
    rt: &W,
    studio: &Studio<D>,
    worker: &mut Seat<D>,
    job: Job,
) -> Finished
    requires worker { IsWorker studio.now worker.old }
    requires job { IsTaken (takes.Job job) (job_out worker.old) }
    ensures worker { IsWorker studio.now worker.new }
{
    compose_and_finish::<W, D, Brand>(rt, studio, worker, job, Blank::new(1))
}
