//! The sessions of a script, and workers, beside each other over one studio.
ghost use Rattle.spec_document.specs.Document.{Document};
ghost use Rattle.spec_filters.specs.declared.FilterState.{FilterState};
ghost use Rattle.spec_history.specs.History.{latest_of, mine};
ghost use Rattle.spec_history.specs.Kept.{IsLegal};
ghost use Rattle.spec_run.specs.Fronts.{IsFrontOf};
ghost use Rattle.spec_script.specs.Fits.{FitsFilters};
ghost use Rattle.spec_script.specs.Script.{Line as Plain};
ghost use Rattle.spec_seats.specs.Digests.{digests_in};
ghost use Rattle.spec_seats.specs.Ended.{AreEnded};
ghost use Rattle.spec_text.specs.Text.{IsTextOf, printed};
ghost use Rattle.std.specs.List.{AllByRecursion};
ghost use Rattle.std.specs.Prelude.{◌≡◌, ℕ, true, ◌+◌, ◌<◌, ◌≤◌, ◌^◌, List, [], length, map, None, is_none, IfOk, IsSome};
ghost use Rattle.std.specs.Prelude.{string_bytes, vec_capacity};
ghost use Rattle.xl_script.specs.Lines.{lists_of};
ghost use Rattle.xl_sessions.specs.Full.{IsNotFull};
ghost use Rattle.xl_filters.specs.Chests.{states_of};
ghost use Rattle.xl_sessions.specs.Outcomes.{texts_of};
ghost use Rattle.spec_script.specs.Script.{list_at};
ghost use Rattle.xl_sessions.specs.Players.{in_slots, AreBrought, AreOfAScript, HaveSomeOutcomes, AreFitParts};
ghost use Rattle.xl_sessions.specs.Players.{AreOfSessions, HaveFewCalls, HaveOutcomes, HavePlayed, HasRoom, HasWorked};
ghost use Rattle.xl_sessions.specs.Players.{LeaveRoom};
ghost use Rattle.xl_run.specs.Printing.{IsPrinted};
ghost use Rattle.xl_studio.specs.Jobs.{job_out};
ghost use Rattle.xl_studio.specs.Moments.{entries_in};
ghost use Rattle.xl_studio.specs.Seats.{base_of, opening_shelf, front_of, made_of, weight_of, IsSeatOf};

use crate::joining::{join_players, join_workers};
use crate::players::{Player, Room, Worker};
use crate::seating::{room_for, seat_players, seat_workers};
use crate::threads::run;
use std::alloc::{AllocError, Global};
use std::sync::Wait;
use std::thread::Threads;
use xl_filters::PointFilter;
use xl_ports::{Gate, Shelf};
use xl_run::{Unplayed, print_history};
use xl_script::Script;
use xl_studio::{Core, Entry, Seat, Studio};

/// The core after all sessions of a script, and the text that is printed of them, unless memory ran out.
#[derive(Drop)]
pub struct PlayedBeside<D: Shelf> {
    pub core: Core<D>,
    pub text: Result<String, AllocError>,
}

// Gives each part and each worker a seat, and lets the sessions play and the workers work.
fn play_seated<R: Threads + Wait + Sync, D: Shelf, G: Gate>(
    rt: &R,
    alloc: Global,
    studio: &Studio<D>,
    gate: &G,
    own: &mut Seat<D>,
    room: &mut Room<Seat<D>>,
    number: u8,
)
    requires own { IsSeatOf studio.now own.old }
    requires unchanged { latest_of (entries_in (front_of own.old)) ≡ 0 }
    requires fit { AreFitParts (in_slots state) room.old.parts.items }
    requires few { number ≤ 8 }
    requires weight { 17 ≤ weight_of own.old }
    requires room { HasRoom number room.old }
    ensures own { IsSeatOf studio.now own.new }
    ensures made { made_of own.new ≡ made_of own.old }
    ensures job { job_out own.new ≡ job_out own.old }
    ensures weight { weight_of own.new + 8 + number ≡ weight_of own.old }
    ensures played { HavePlayed (in_slots state) studio.now room.old.parts.items
        room.new.players.items }
    ensures worked { AllByRecursion (HasWorked studio.now) room.new.workers.items }
    ensures count { length room.new.workers.items ≡ number }
    ensures digests { room.new.digests ≡ room.old.digests }
{
    let parts = std::mem::replace(&mut room.parts, Vec::new(alloc));
    seat_players(alloc, studio, own, parts, &mut room.players);
    seat_workers(studio, own, number, &mut room.workers);
    run(
        rt,
        alloc,
        studio,
        gate,
        own,
        room.players.as_mut_slice(),
        room.workers.as_mut_slice(),
    );
}

// The text of a history, where all lines were played: no session may have found the history full.
fn text_of(
    alloc: Global,
    stopped: Option<Unplayed>,
    entries: &[Entry],
    digests: &[Vec<String>],
) -> Result<String, AllocError>
    requires not_full { IsNotFull stopped }
    requires printed { is_none stopped ≡ true → AllByRecursion (λ e. IsPrinted e.reply)
        entries.now }
    ensures all { IfOk result (λ text. is_none stopped ≡ true) }
    ensures text { (base : Document) → is_none stopped ≡ true → IsLegal base entries.now
        → ((session : ℕ) → session < 8 → AreEnded (mine entries.now session))
        → ((session : ℕ) → session < 8 → list_at (texts_of digests.now) session ≡ digests_in base
        entries.now (mine entries.now session))
        → IfOk result (λ text. string_bytes text ≡ printed base entries.now) }
{
    match stopped {
        None => print_history(alloc, entries, digests),
        Some(Unplayed::Memory) => Err(AllocError),
        Some(Unplayed::HistoryFull) => unreachable!(),
    }
}

// Joins the seats, and takes the studio apart.
fn finish<D: Shelf>(
    alloc: Global,
    studio: Studio<D>,
    mut own: Seat<D>,
    players: Vec<Player<Seat<D>>>,
    workers: Vec<Worker<Seat<D>>>,
    mut digests: Vec<Vec<String>>,
) -> PlayedBeside<D>
    requires own { IsSeatOf studio own }
    requires none { made_of own ≡ [] }
    requires free { job_out own ≡ None }
    requires weight { weight_of own + 8 + length workers.items ≡ 2 ^ 32 }
    requires eight { length players.items ≡ 8 }
    requires players { AreOfSessions studio players.items }
    requires outcomes { HaveSomeOutcomes studio players.items }
    requires room { LeaveRoom players.items }
    requires workers { AllByRecursion (HasWorked studio) workers.items }
    requires none_shown { digests.items ≡ [] }
    requires capacity { 8 ≤ vec_capacity digests }
    ensures base { result.core.history.base ≡ base_of studio }
    ensures opening { result.core.opening ≡ opening_shelf studio }
    ensures inside { IsSome result.core.shelf }
    ensures legal { IsLegal result.core.history.base result.core.history.entries }
    ensures front { (chests : List (List FilterState)) (lists : List (List Plain))
        → HaveOutcomes studio chests lists players.items
        → IsFrontOf lists chests result.core.history.entries }
    ensures text { (chests : List (List FilterState)) (lists : List (List Plain))
        → HaveOutcomes studio chests lists players.items
        → IfOk result.text (λ text. IsTextOf (string_bytes text) (base_of studio) lists chests
        result.core.history.entries) }
{
    let stopped = join_players(&studio, &mut own, players, &mut digests);
    join_workers(&studio, &mut own, workers);
    let core = studio.close(own);
    core.know_shelf();
    let text = text_of(alloc, stopped, core.entries(), digests.as_slice());
    PlayedBeside { core, text }
}

// Plays in a studio that was opened.
fn play_opened<R: Threads + Wait + Sync, D: Shelf, G: Gate>(
    rt: &R,
    alloc: Global,
    studio: Studio<D>,
    mut own: Seat<D>,
    mut room: Room<Seat<D>>,
    number: u8,
    gate: &G,
) -> PlayedBeside<D>
    requires own { IsSeatOf studio own }
    requires none { made_of own ≡ [] }
    requires free { job_out own ≡ None }
    requires weight { weight_of own ≡ 2 ^ 32 }
    requires unchanged { latest_of (entries_in (front_of own)) ≡ 0 }
    requires few { number ≤ 8 }
    requires fit { AreFitParts (in_slots state) room.parts.items }
    requires script { AreOfAScript (in_slots state) room.parts.items }
    requires calls { HaveFewCalls room.parts.items }
    requires room { HasRoom number room }
    ensures base { result.core.history.base ≡ base_of studio }
    ensures opening { result.core.opening ≡ opening_shelf studio }
    ensures inside { IsSome result.core.shelf }
    ensures legal { IsLegal result.core.history.base result.core.history.entries }
    ensures front { (chests : List (List FilterState)) (lists : List (List Plain))
        → AreBrought (in_slots state) chests lists 0 room.parts.items
        → IsFrontOf lists chests result.core.history.entries }
    ensures text { (chests : List (List FilterState)) (lists : List (List Plain))
        → AreBrought (in_slots state) chests lists 0 room.parts.items
        → IfOk result.text (λ text. IsTextOf (string_bytes text) (base_of studio) lists chests
        result.core.history.entries) }
{
    play_seated(rt, alloc, &studio, gate, &mut own, &mut room, number);
    let Room {
        parts: _,
        players,
        workers,
        digests,
    } = room;
    finish(alloc, studio, own, players, workers, digests)
}

// Plays in the memory that was taken.
fn play_in<R: Threads + Wait + Sync, D: Shelf, G: Gate>(
    rt: &R,
    alloc: Global,
    core: Core<D>,
    room: Room<Seat<D>>,
    number: u8,
    gate: &G,
) -> PlayedBeside<D>
    requires fresh { core.history.entries ≡ [] }
    requires inside { IsSome core.shelf }
    requires few { number ≤ 8 }
    requires fit { AreFitParts (in_slots state) room.parts.items }
    requires script { AreOfAScript (in_slots state) room.parts.items }
    requires calls { HaveFewCalls room.parts.items }
    requires room { HasRoom number room }
    ensures base { result.core.history.base ≡ core.history.base }
    ensures opening { result.core.opening ≡ core.opening }
    ensures inside { IsSome result.core.shelf }
    ensures legal { IsLegal result.core.history.base result.core.history.entries }
    ensures front { (chests : List (List FilterState)) (lists : List (List Plain))
        → AreBrought (in_slots state) chests lists 0 room.parts.items
        → IsFrontOf lists chests result.core.history.entries }
    ensures text { (chests : List (List FilterState)) (lists : List (List Plain))
        → AreBrought (in_slots state) chests lists 0 room.parts.items
        → IfOk result.text (λ text. IsTextOf (string_bytes text) core.history.base lists chests
        result.core.history.entries) }
{
    core.know_right();
    match Studio::open(alloc, core) {
        Ok((studio, own)) => play_opened(rt, alloc, studio, own, room, number, gate),
        Err(failed) => PlayedBeside {
            core: failed.value,
            text: Err(AllocError),
        },
    }
}

/// Makes the calls and saves of the sessions beside each other, each in a thread of its own, while workers keep the
/// pictures of marked tiles up to date. Answers the printed text: the lines of each session, and the order line.
///
/// `chest` holds the filters of each session, those of session 0 first. Where a thread cannot be made the sessions are
/// played one after another. A session ends early where memory runs out for it, and then there is no text; a worker
/// ends where memory runs out for it. No session finds the history full, since a script has at most half as many calls
/// and saves as a history may have entries. In any case what each session has made is of the first of its calls, all
/// saves that were started have ended, and the shelf is in.
pub fn play_beside<R: Threads + Wait + Sync, D: Shelf, G: Gate>(
    rt: &R,
    alloc: Global,
    core: Core<D>,
    script: Script,
    chest: Vec<Vec<Box<dyn PointFilter + Send>>>,
    workers: u8,
    gate: &G,
) -> PlayedBeside<D>
    requires fresh { core.history.entries ≡ [] }
    requires inside { IsSome core.shelf }
    requires boxes { AllByRecursion (λ boxes. length boxes.items < 2 ^ 32) chest.items }
    requires fits { FitsFilters (map length (states_of (λ b. state b) chest.items))
        (lists_of script) }
    requires eight { length (lists_of script) ≡ 8 }
    requires workers { workers ≤ 8 }

    ensures base { result.core.history.base ≡ core.history.base }
    ensures opening { result.core.opening ≡ core.opening }
    ensures inside { IsSome result.core.shelf }
    ensures legal { IsLegal result.core.history.base result.core.history.entries }
    ensures front { IsFrontOf (lists_of script) (states_of (λ b. state b) chest.items)
        result.core.history.entries }
    ensures text { IfOk result.text (λ text. IsTextOf (string_bytes text) core.history.base
        (lists_of script) (states_of (λ b. state b) chest.items) result.core.history.entries) }
{
    core.know_right();
    match room_for(alloc, script, chest, workers) {
        Ok(room) => play_in(rt, alloc, core, room, workers, gate),
        Err(error) => PlayedBeside {
            core,
            text: Err(error),
        },
    }
}
