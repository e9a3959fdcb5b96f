//! A part of a session and a task beside it, over a studio of their own.
ghost use Rattle.std.specs.Prelude.{◌≡◌, ◌^◌, None};
ghost use Rattle.xl_studio.specs.Jobs.{job_out};
ghost use Rattle.xl_studio.specs.Seats.{weight_of, IsSeatOf};

use crate::beside::{Done, Heard, Part, Task, play_both};
use crate::gates::gate_with;
use crate::opened::{ONE_PIXEL, studio_of};
use std::alloc::{AllocError, Global};
use std::sync::Wait;
use std::thread::Threads;
use xl_calls::Reply;
use xl_core::{Begun, Core};
use xl_fakes::{Hold, MemoryShelf};
use xl_ports::Gate;
use xl_studio::{Seat, Studio};

/// What came of both, whether the file is then as it was opened, and whether some hold was given up.
#[derive(Clone, Copy)]
pub(crate) struct Outcome {
    pub(crate) heard: Reply,
    pub(crate) done: Done,
    pub(crate) as_opened: bool,
    pub(crate) missed: bool,
}

// Whether the shelf of a core has the file that was opened. A core hands its shelf out as a save begins.
fn has_opened(alloc: Global, mut core: Core<MemoryShelf>) -> Result<bool, AllocError> {
    let begun = core.begin_save(alloc, 0);
    drop(core);
    match begun? {
        Begun::Snapshot {
            version: _,
            document,
            shelf,
        } => {
            drop(document);
            let is_opened = shelf.file("f").unwrap_or(&[]) == ONE_PIXEL.as_slice();
            drop(shelf);
            Ok(is_opened)
        }
        Begun::Out | Begun::Full => Err(AllocError),
    }
}

// Whether the shelf of a studio has the file that was opened.
fn leaves_opened(
    alloc: Global,
    studio: Studio<MemoryShelf>,
    seat: Seat<MemoryShelf>,
) -> Result<bool, AllocError>
    requires seat { IsSeatOf studio seat }
    requires weight { weight_of seat ≡ 2 ^ 32 }
    requires free { job_out seat ≡ None }
{
    has_opened(alloc, studio.close(seat))
}

// What came of both at a gate, and whether the file is then as it was opened.
fn play_at<R: Threads + Wait + Sync, G: Gate>(
    rt: &R,
    alloc: Global,
    gate: &G,
    part: Part,
    task: Task,
) -> Result<(Heard, Done, bool), AllocError> {
    let (studio, seat) = studio_of(alloc)?;
    let (seat, heard, done) = play_both(rt, alloc, &studio, seat, gate, part, task);
    let as_opened = leaves_opened(alloc, studio, seat)?;
    Ok((heard, done, as_opened))
}

/// A part of session 0 and a task beside it, at a gate with these holds.
pub(crate) fn play<R: Threads + Wait + Sync>(
    rt: &R,
    alloc: Global,
    holds: &[Hold],
    part: Part,
    task: Task,
) -> Result<Outcome, AllocError> {
    let gate = gate_with(alloc, holds)?;
    let (heard, done, as_opened) = play_at(rt, alloc, &gate, part, task)?;
    Ok(Outcome {
        heard: heard?,
        done,
        as_opened,
        missed: gate.missed(),
    })
}
