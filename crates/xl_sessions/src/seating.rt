//! What the sessions bring, and their seats.
ghost use Rattle.spec_script.specs.Fits.{FitsFilters};
ghost use Rattle.std.specs.List.{AllByRecursion};
ghost use Rattle.std.specs.Prelude.{◌≡◌, ◌+◌, ◌<◌, ◌≤◌, ◌^◌, [], length, map, IfOk, vec_capacity};
ghost use Rattle.xl_script.specs.Lines.{lists_of};
ghost use Rattle.xl_sessions.specs.Players.{AreBrought, AreFitParts, AreSeated, AreFree, AreNumbered, HasRoom};
ghost use Rattle.xl_filters.specs.Chests.{states_of};
ghost use Rattle.xl_studio.specs.Jobs.{job_out};
ghost use Rattle.xl_studio.specs.Seats.{front_of, known_by, weight_of, IsSeatOf};

use crate::players::{Player, Room, SessionPart, Worker};
use std::alloc::{AllocError, Global};
use xl_filters::PointFilter;
use xl_ports::Shelf;
use xl_run::{desk_of, first_boxes};
use xl_script::{SESSIONS, Script};
use xl_studio::{Seat, Studio};

// What each session brings, the first session first.
fn parts_of(
    alloc: Global,
    script: Script,
    mut chest: Vec<Vec<Box<dyn PointFilter + Send>>>,
) -> Result<Vec<SessionPart>, AllocError>
    requires boxes { AllByRecursion (λ boxes. length boxes.items < 2 ^ 32) chest.items }
    requires fits { FitsFilters (map length (states_of (λ b. state b) chest.items))
        (lists_of script) }
    ensures brought { IfOk result (λ parts. AreBrought (λ s. state s.filter)
        (states_of (λ b. state b) chest.items) (lists_of script) 0 parts.items) }
    ensures fit { IfOk result (λ parts. AreFitParts (λ s. state s.filter) parts.items) }
    ensures eight { IfOk result (λ parts. length parts.items ≡ 8) }
{
    let mut parts = Vec::new(alloc);
    let mut session: u8 = 0;
    for lines in script.into_lists() {
        let boxes = first_boxes(alloc, &mut chest);
        let desk = desk_of(alloc, boxes)?;
        parts.push(SessionPart {
            session,
            lines: lines.into_items(),
            desk,
        })?;
        session += 1;
    }
    Ok(parts)
}

/// The memory for a run.
pub(crate) fn room_for<D: Shelf>(
    alloc: Global,
    script: Script,
    chest: Vec<Vec<Box<dyn PointFilter + Send>>>,
    workers: u8,
) -> Result<Room<Seat<D>>, AllocError>
    requires boxes { AllByRecursion (λ boxes. length boxes.items < 2 ^ 32) chest.items }
    requires fits { FitsFilters (map length (states_of (λ b. state b) chest.items))
        (lists_of script) }
    ensures brought { IfOk result (λ room. AreBrought (λ s. state s.filter)
        (states_of (λ b. state b) chest.items) (lists_of script) 0 room.parts.items) }
    ensures fit { IfOk result (λ room. AreFitParts (λ s. state s.filter) room.parts.items) }
    ensures room { IfOk result (HasRoom workers) }
{
    let parts = parts_of(alloc, script, chest)?;
    let players = Vec::with_capacity(alloc, usize::from(SESSIONS))?;
    let digests = Vec::with_capacity(alloc, usize::from(SESSIONS))?;
    let workers = Vec::with_capacity(alloc, usize::from(workers))?;
    Ok(Room {
        parts,
        players,
        workers,
        digests,
    })
}

/// A player for each part, with a seat that is split off.
pub(crate) fn seat_players<D: Shelf>(
    alloc: Global,
    studio: &Studio<D>,
    own: &mut Seat<D>,
    parts: Vec<SessionPart>,
    players: &mut Vec<Player<Seat<D>>>,
)
    requires own { IsSeatOf studio.now own.old }
    requires weight { length parts.items + 1 ≤ weight_of own.old }
    requires none { players.old.items ≡ [] }
    requires capacity { length parts.items ≤ vec_capacity players.old }
    ensures own { IsSeatOf studio.now own.new }
    ensures stays { known_by own.new ≡ known_by own.old }
    ensures job { job_out own.new ≡ job_out own.old }
    ensures lighter { weight_of own.new + length parts.items ≡ weight_of own.old }
    ensures seated { AreSeated studio.now (front_of own.old) parts.items players.new.items }
{
    for part in parts {
        let seat = studio.split(own);
        players.push_reserved(Player {
            part,
            seat,
            digests: Vec::new(alloc),
            stopped: None,
        });
    }
}

/// So many workers, numbered from 0, each with a seat that is split off.
pub(crate) fn seat_workers<D: Shelf>(
    studio: &Studio<D>,
    own: &mut Seat<D>,
    number: u8,
    workers: &mut Vec<Worker<Seat<D>>>,
)
    requires own { IsSeatOf studio.now own.old }
    requires weight { number + 1 ≤ weight_of own.old }
    requires none { workers.old.items ≡ [] }
    requires capacity { number ≤ vec_capacity workers.old }
    ensures own { IsSeatOf studio.now own.new }
    ensures stays { known_by own.new ≡ known_by own.old }
    ensures job { job_out own.new ≡ job_out own.old }
    ensures lighter { weight_of own.new + number ≡ weight_of own.old }
    ensures free { AreFree studio.now workers.new.items }
    ensures numbers { AreNumbered workers.new.items }
    ensures count { length workers.new.items ≡ number }
{
    for at in 0..number {
        let seat = studio.split(own);
        workers.push_reserved(Worker { number: at, seat });
    }
}
