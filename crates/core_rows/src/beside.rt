//! Two seats of a studio, each in a thread of its own.
ghost use Rattle.std.specs.Prelude.{◌≡◌, ◌≤◌, false, None};
ghost use Rattle.std.specs.Thread.{IsSync};
ghost use Rattle.xl_studio.specs.Jobs.{job_out};
ghost use Rattle.xl_studio.specs.Seats.{weight_of, IsSeatOf};

use crate::calls::{Ask, make_call};
use crate::coder::GatedCoder;
use crate::edits::Change;
use crate::worker::refresh;
use std::alloc::{AllocError, Global};
use std::sync::Wait;
use std::thread::{Threads, join};
use xl_calls::Reply;
use xl_ports::{Gate, Shelf};
use xl_refresh::Worked;
use xl_studio::{Seat, Studio};

/// What session 0 does.
#[derive(Clone, Copy)]
pub(crate) enum Part {
    /// It asks for the top and makes this call, behind which no job is given out.
    Calls(Ask),
    /// It saves.
    Save,
}

/// What is done beside it.
#[derive(Clone, Copy)]
pub(crate) enum Task {
    /// Session 1 edits the layer's pixel.
    Edit,
    /// A worker refreshes.
    Refresh,
}

/// What a session heard last.
pub(crate) type Heard = Result<Reply, AllocError>;

/// What came of a task: the reply to the edit, or what the worker has done.
#[derive(Clone, Copy)]
pub(crate) struct Done {
    pub(crate) edited: Option<Reply>,
    pub(crate) worked: Option<Worked>,
}

// What the session hears at the end of its part.
fn hear<W: Wait, D: Shelf, G: Gate>(
    rt: &W,
    alloc: Global,
    studio: &Studio<D>,
    seat: &mut Seat<D>,
    gate: &G,
    part: Part,
) -> Heard
    requires { IsSeatOf studio.now seat.old }
    ensures seat { IsSeatOf studio.now seat.new }
    ensures weight { weight_of seat.new ≡ weight_of seat.old }
    ensures job { job_out seat.new ≡ job_out seat.old }
{
    match part {
        Part::Save => {
            let mut coder = GatedCoder { gate };
            studio.save(rt, alloc, seat, 0, &mut coder)
        }
        Part::Calls(second) => {
            let _ = make_call(rt, alloc, studio, seat, 0, gate, Ask::Top);
            let heard = make_call(rt, alloc, studio, seat, 0, gate, second);
            studio.closing(rt, seat);
            heard
        }
    }
}

// What comes of a task.
fn carry_out<W: Wait, D: Shelf, G: Gate>(
    rt: &W,
    alloc: Global,
    studio: &Studio<D>,
    seat: &mut Seat<D>,
    gate: &G,
    task: Task,
) -> Done
    requires seat { IsSeatOf studio.now seat.old }
    requires free { job_out seat.old ≡ None }
    requires open { seat.old.closed ≡ false }
    ensures seat { IsSeatOf studio.now seat.new }
    ensures weight { weight_of seat.new ≡ weight_of seat.old }
    ensures free { job_out seat.new ≡ None }
{
    match task {
        Task::Edit => {
            let heard = make_call(rt, alloc, studio, seat, 1, gate, Ask::Edit(Change::Fill));
            Done {
                edited: heard.ok(),
                worked: None,
            }
        }
        Task::Refresh => {
            let worked = refresh(rt, alloc, studio, seat, gate);
            Done {
                edited: None,
                worked: Some(worked),
            }
        }
    }
}

// What the session hears, by a seat that a thread has of its own.
fn hear_with<W: Wait, D: Shelf, G: Gate>(
    rt: &W,
    alloc: Global,
    studio: &Studio<D>,
    mut seat: Seat<D>,
    gate: &G,
    part: Part,
) -> (Seat<D>, Heard)
    requires { IsSeatOf studio.now seat }
    ensures seat { IsSeatOf studio.now result.0 }
    ensures weight { weight_of result.0 ≡ weight_of seat }
    ensures job { job_out result.0 ≡ job_out seat }
{
    let heard = hear(rt, alloc, studio, &mut seat, gate, part);
    (seat, heard)
}

// What comes of a task, by a seat that a thread has of its own.
fn carry_out_with<W: Wait, D: Shelf, G: Gate>(
    rt: &W,
    alloc: Global,
    studio: &Studio<D>,
    mut seat: Seat<D>,
    gate: &G,
    task: Task,
) -> (Seat<D>, Done)
    requires seat { IsSeatOf studio.now seat }
    requires free { job_out seat ≡ None }
    requires open { seat.closed ≡ false }
    ensures seat { IsSeatOf studio.now result.0 }
    ensures weight { weight_of result.0 ≡ weight_of seat }
    ensures free { job_out result.0 ≡ None }
{
    let done = carry_out(rt, alloc, studio, &mut seat, gate, task);
    (seat, done)
}

// Both, beside each other, with a seat each.
fn thread_both<R: Threads + Wait + Sync, D: Shelf, G: Gate>(
    rt: &R,
    alloc: Global,
    studio: &Studio<D>,
    seat: Seat<D>,
    other: Seat<D>,
    gate: &G,
    part: Part,
    task: Task,
) -> (Seat<D>, Seat<D>, Heard, Done)
    requires seat { IsSeatOf studio.now seat }
    requires other { IsSeatOf studio.now other }
    requires free { job_out other ≡ None }
    requires open { other.closed ≡ false }
    ensures seat { IsSeatOf studio.now result.0 }
    ensures weight { weight_of result.0 ≡ weight_of seat }
    ensures job { job_out result.0 ≡ job_out seat }
    ensures other { IsSeatOf studio.now result.1 }
    ensures other_weight { weight_of result.1 ≡ weight_of other }
    ensures other_free { job_out result.1 ≡ None }
{
    let ((seat, heard), (other, done)) = join(
        rt,
        || -> (Seat<D>, Heard)
            requires { IsSync R.row × IsSync G.row × IsSeatOf studio.now seat }
            ensures { IsSeatOf studio.entry.now result.0 × (weight_of result.0 ≡ weight_of seat)
                × (job_out result.0 ≡ job_out seat) }
        { hear_with(rt, alloc, studio, seat, gate, part) },
        || -> (Seat<D>, Done)
            requires { IsSync R.row × IsSync G.row × IsSeatOf studio.now other
                × (job_out other ≡ None) × (other.closed ≡ false) }
            ensures { IsSeatOf studio.entry.now result.0 × (weight_of result.0 ≡ weight_of other)
                × (job_out result.0 ≡ None) }
        { carry_out_with(rt, alloc, studio, other, gate, task) },
    );
    (seat, other, heard, done)
}

/// A part of session 0, and a task beside it: what each heard or did.
pub(crate) fn play_both<R: Threads + Wait + Sync, D: Shelf, G: Gate>(
    rt: &R,
    alloc: Global,
    studio: &Studio<D>,
    mut seat: Seat<D>,
    gate: &G,
    part: Part,
    task: Task,
) -> (Seat<D>, Heard, Done)
    requires seat { IsSeatOf studio.now seat }
    requires weight { 2 ≤ weight_of seat }
    ensures seat { IsSeatOf studio.now result.0 }
    ensures weight { weight_of result.0 ≡ weight_of seat }
    ensures job { job_out result.0 ≡ job_out seat }
{
    let other = studio.split(&mut seat);
    let (mut seat, other, heard, done) = thread_both(
        rt, alloc, studio, seat, other, gate, part, task,
    );
    studio.join(&mut seat, other);
    (seat, heard, done)
}
