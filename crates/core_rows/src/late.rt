//! Jobs whose tile is marked again, or whose stack goes, while they are out.
ghost use Rattle.std.specs.Prelude.{◌≡◌, None};
ghost use Rattle.xl_history.specs.Jobs.{IsTaken};
ghost use Rattle.xl_history.specs.declared.jobs.Taken.TheVariants as takes;
ghost use Rattle.xl_studio.specs.Jobs.{job_out, IsWorker};
ghost use Rattle.xl_studio.specs.Seats.{IsSeatOf};

use crate::calls::{Ask, ask_for};
use crate::edits::{Change, GROUP, IMAGE};
use crate::jobs::{hand_in, take_of, worker_of};
use crate::opened::studio_of;
use std::alloc::{AllocError, Global};
use std::sync::Wait;
use xl_calls::Reply;
use xl_core::{Finished, Job};
use xl_ports::Shelf;
use xl_studio::{Seat, Studio};

// The tile is clean at version 3, and marked at version 4.
const MARK_AFTER_3: [(Ask, Reply); 5] = [
    (
        Ask::Edit(Change::Fade(40)),
        Reply::Changed {
            version: 1,
            group: 1,
            next: 2,
        },
    ),
    (
        Ask::Edit(Change::Fade(30)),
        Reply::Changed {
            version: 2,
            group: 2,
            next: 2,
        },
    ),
    (
        Ask::Edit(Change::Fade(20)),
        Reply::Changed {
            version: 3,
            group: 3,
            next: 2,
        },
    ),
    (Ask::Tile, Reply::Tile { version: 3 }),
    (
        Ask::Edit(Change::Fade(10)),
        Reply::Changed {
            version: 4,
            group: 4,
            next: 2,
        },
    ),
];

// The tile that is kept is older than the edit that made version 5.
const LOOK_AFTER_5: [(Ask, Reply); 3] = [
    (
        Ask::Peek,
        Reply::Stale {
            have: Some(3),
            seen: 5,
        },
    ),
    (Ask::Tile, Reply::Tile { version: 5 }),
    (Ask::Peek, Reply::Tile { version: 5 }),
];

// A new group has the only tile that is marked.
const MARK_GROUP: [(Ask, Reply); 2] = [
    (
        Ask::Edit(Change::AddGroup),
        Reply::Changed {
            version: 1,
            group: 1,
            next: 3,
        },
    ),
    (Ask::Tile, Reply::Tile { version: 1 }),
];

/// A reply before the job was taken that is another, what came of the job, and a reply after it was handed in that is
/// another.
pub(crate) type MarkedAgain = (Option<Reply>, Finished, Option<Reply>);

/// A reply before the jobs were taken that is another, what came of one job after the group was deleted, the reply to
/// the undo of that, and what came of the other job then.
pub(crate) type Undone = (Option<Reply>, Finished, Reply, Finished);

// A session's call.
fn ask<W: Wait, D: Shelf>(
    rt: &W,
    alloc: Global,
    studio: &Studio<D>,
    seat: &mut Seat<D>,
    ask: Ask,
) -> Result<Reply, AllocError>
    requires { IsSeatOf studio.now seat.old }
    ensures { IsSeatOf studio.now seat.new }
{
    ask_for(rt, alloc, studio, seat, 0, ask)
}

/// Makes calls of a session. The first reply that is another.
pub(crate) fn first_wrong<W: Wait, D: Shelf>(
    rt: &W,
    alloc: Global,
    studio: &Studio<D>,
    seat: &mut Seat<D>,
    rows: &[(Ask, Reply)],
) -> Result<Option<Reply>, AllocError>
    requires { IsSeatOf studio.now seat.old }
    ensures { IsSeatOf studio.now seat.new }
{
    for row in rows {
        let (call, expected) = *row;
        let reply = ask(rt, alloc, studio, seat, call)?;
        if reply != expected {
            return Ok(Some(reply));
        }
    }
    Ok(None)
}

// The reply to a call, and what comes of a job that is handed in behind it.
fn hand_in_after<W: Wait, D: Shelf>(
    rt: &W,
    alloc: Global,
    studio: &Studio<D>,
    seat: &mut Seat<D>,
    worker: &mut Seat<D>,
    job: Job,
    call: Ask,
) -> Result<(Reply, Finished), AllocError>
    requires seat { IsSeatOf studio.now seat.old }
    requires worker { IsWorker studio.now worker.old }
    requires job { IsTaken (takes.Job job) (job_out worker.old) }
    ensures { IsSeatOf studio.now seat.new }
{
    let reply = ask(rt, alloc, studio, seat, call)?;
    Ok((reply, hand_in(rt, studio, worker, job)))
}

// What comes of a job of version 4 after the edit that makes version 5.
fn hand_in_late<W: Wait, D: Shelf>(
    rt: &W,
    alloc: Global,
    studio: &Studio<D>,
    seat: &mut Seat<D>,
    worker: &mut Seat<D>,
) -> Result<Finished, AllocError>
    requires seat { IsSeatOf studio.now seat.old }
    requires worker { IsWorker studio.now worker.old }
    requires free { job_out worker.old ≡ None }
    ensures { IsSeatOf studio.now seat.new }
{
    let job = take_of(rt, alloc, studio, worker, IMAGE)?;
    let edit = Ask::Edit(Change::Fade(9));
    let (_, finished) = hand_in_after(rt, alloc, studio, seat, worker, job, edit)?;
    Ok(finished)
}

// The calls of a session, with a job between them.
fn mark_again<W: Wait, D: Shelf>(
    rt: &W,
    alloc: Global,
    studio: &Studio<D>,
    seat: &mut Seat<D>,
    worker: &mut Seat<D>,
) -> Result<MarkedAgain, AllocError>
    requires seat { IsSeatOf studio.now seat.old }
    requires worker { IsWorker studio.now worker.old }
    requires free { job_out worker.old ≡ None }
{
    let before = first_wrong(rt, alloc, studio, seat, &MARK_AFTER_3)?;
    let finished = hand_in_late(rt, alloc, studio, seat, worker)?;
    let after = first_wrong(rt, alloc, studio, seat, &LOOK_AFTER_5)?;
    Ok((before, finished, after))
}

/// The tile is clean at version 3. A worker takes the job at version 4, and hands it in at version 5.
pub(crate) fn edit_while_out<W: Wait>(rt: &W, alloc: Global) -> Result<MarkedAgain, AllocError> {
    let (studio, mut seat) = studio_of(alloc)?;
    let mut worker = worker_of(&studio, &mut seat);
    let marked = mark_again(rt, alloc, &studio, &mut seat, &mut worker);
    drop(worker);
    drop(seat);
    drop(studio);
    marked
}

// Two jobs of the group are out. It is deleted, and one is handed in; that is undone, and the other is.
fn hand_in_both<W: Wait, D: Shelf>(
    rt: &W,
    alloc: Global,
    studio: &Studio<D>,
    seat: &mut Seat<D>,
    first: &mut Seat<D>,
    second: &mut Seat<D>,
    job: Job,
    other: Job,
) -> Result<(Finished, Reply, Finished), AllocError>
    requires seat { IsSeatOf studio.now seat.old }
    requires first { IsWorker studio.now first.old }
    requires job { IsTaken (takes.Job job) (job_out first.old) }
    requires second { IsWorker studio.now second.old }
    requires other { IsTaken (takes.Job other) (job_out second.old) }
{
    let delete = Ask::Edit(Change::DropGroup);
    let (_, finished) = hand_in_after(rt, alloc, studio, seat, first, job, delete)?;
    let (undone, finished_after) = hand_in_after(
        rt,
        alloc,
        studio,
        seat,
        second,
        other,
        Ask::Undo,
    )?;
    Ok((finished, undone, finished_after))
}

// Two workers take a job each of the group, and hand them in.
fn take_both<W: Wait, D: Shelf>(
    rt: &W,
    alloc: Global,
    studio: &Studio<D>,
    seat: &mut Seat<D>,
    first: &mut Seat<D>,
    second: &mut Seat<D>,
) -> Result<(Finished, Reply, Finished), AllocError>
    requires seat { IsSeatOf studio.now seat.old }
    requires first { IsWorker studio.now first.old }
    requires first_free { job_out first.old ≡ None }
    requires second { IsWorker studio.now second.old }
    requires second_free { job_out second.old ≡ None }
{
    let job = take_of(rt, alloc, studio, first, GROUP)?;
    let other = take_of(rt, alloc, studio, second, GROUP)?;
    hand_in_both(rt, alloc, studio, seat, first, second, job, other)
}

// The calls that mark the group, and what comes of two jobs of it.
fn mark_and_undo<W: Wait, D: Shelf>(
    rt: &W,
    alloc: Global,
    studio: &Studio<D>,
    seat: &mut Seat<D>,
    first: &mut Seat<D>,
    second: &mut Seat<D>,
) -> Result<Undone, AllocError>
    requires seat { IsSeatOf studio.now seat.old }
    requires first { IsWorker studio.now first.old }
    requires first_free { job_out first.old ≡ None }
    requires second { IsWorker studio.now second.old }
    requires second_free { job_out second.old ≡ None }
{
    let before = first_wrong(rt, alloc, studio, seat, &MARK_GROUP)?;
    let (finished, undone, finished_after) = take_both(rt, alloc, studio, seat, first, second)?;
    Ok((before, finished, undone, finished_after))
}

/// A group is made, and each of two workers takes a job of it. One is handed in after the group was deleted, and the
/// other after that was undone.
pub(crate) fn delete_and_undo<W: Wait>(rt: &W, alloc: Global) -> Result<Undone, AllocError> {
    let (studio, mut seat) = studio_of(alloc)?;
    let mut first = worker_of(&studio, &mut seat);
    let mut second = worker_of(&studio, &mut seat);
    let undone = mark_and_undo(rt, alloc, &studio, &mut seat, &mut first, &mut second);
    drop(second);
    drop(first);
    drop(seat);
    drop(studio);
    undone
}
