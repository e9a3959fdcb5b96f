//! The threads of a run: one for each session, and one for each worker.
ghost use Rattle.std.specs.List.{AllByRecursion, AllZip};
ghost use Rattle.std.specs.Prelude.{◌≡◌, ◌<◌};
ghost use Rattle.std.specs.Thread.{IsSync};
ghost use Rattle.xl_sessions.specs.Players.{in_slots, CanPlay, Plays, IsFree, HasWorked};
ghost use Rattle.xl_studio.specs.Calling.{HasHeard};
ghost use Rattle.xl_studio.specs.Jobs.{job_out};
ghost use Rattle.xl_studio.specs.Seats.{known_by, weight_of, IsSeatOf};

use crate::players::{Player, Worker};
use crate::setting::Setting;
use std::alloc::Global;
use std::marker::Brand;
use std::sync::Wait;
use std::sync::ledger::{Blank, Ledger};
use std::thread::{Threads, for_each_mut, join_mut};
use xl_blend::Steps;
use xl_filters::PointFilter;
use xl_ports::{Gate, Shelf};
use xl_refresh::work;
use xl_studio::{Seat, Studio};

// Plays the lines of a session.
fn play<W: Wait, D: Shelf, G: Gate>(
    rt: &W,
    alloc: Global,
    studio: &Studio<D>,
    gate: &G,
    player: &mut Player<Seat<D>>,
)
    requires { CanPlay (in_slots state) studio.now player.old }
    ensures { Plays (in_slots state) studio.now player.old player.new }
{
    let lines = std::mem::replace(&mut player.part.lines, Vec::new(alloc));
    let setting = Setting {
        rt,
        alloc,
        studio,
        gate,
        session: player.part.session,
    };
    let played = setting.play_session(
        lines,
        &mut player.part.desk,
        &mut player.seat,
        &mut player.digests,
    );
    player.stopped = played.err();
}

// Works with steps of its own.
fn work_with<L: Ledger, W: Wait, D: Shelf, G: Gate>(
    rt: &W,
    alloc: Global,
    studio: &Studio<D>,
    gate: &G,
    worker: &mut Worker<Seat<D>>,
    blank: Blank,
)
    requires name { blank.name ≡ L.name }
    requires parts { blank.parts ≡ L.parts }
    requires some { 0 < blank.parts }
    requires free { IsFree studio.now worker.old }
    ensures { HasWorked studio.now worker.new }
{
    let mut steps = Steps::<L>::new(blank);
    work(
        rt,
        alloc,
        studio,
        &mut worker.seat,
        gate,
        worker.number,
        &mut steps,
    );
}

// Refreshes pictures until the desk is closing, or there is no memory.
fn refresh<W: Wait, D: Shelf, G: Gate>(
    rt: &W,
    alloc: Global,
    studio: &Studio<D>,
    gate: &G,
    worker: &mut Worker<Seat<D>>,
)
    requires { IsFree studio.now worker.old }
    ensures { HasWorked studio.now worker.new }
{
    work_with::<Brand, W, D, G>(rt, alloc, studio, gate, worker, Blank::new(1));
}

// Plays the lines of all sessions, each in a thread of its own where one can be made. Then no more jobs are given out.
fn play_all<R: Threads + Wait + Sync, D: Shelf, G: Gate>(
    rt: &R,
    alloc: Global,
    studio: &Studio<D>,
    gate: &G,
    own: &mut Seat<D>,
    players: &mut [Player<Seat<D>>],
)
    requires own { IsSeatOf studio.now own.old }
    requires players { AllByRecursion (CanPlay (in_slots state) studio.now) players.old }
    ensures own { IsSeatOf studio.now own.new }
    ensures weight { weight_of own.new ≡ weight_of own.old }
    ensures job { job_out own.new ≡ job_out own.old }
    ensures heard { HasHeard (known_by own.old) (known_by own.new) }
    ensures played { AllZip (Plays (in_slots state) studio.now) players.old players.new }
{
    let threads = players.len().max(1);
    for_each_mut(
        rt,
        players,
        threads,
        &|_, player: &mut Player<Seat<D>>|
            requires { IsSync R.row × IsSync G.row × CanPlay (in_slots state) studio.now
                player.old }
            ensures { Plays (in_slots state) studio.entry.now player.old player.new }
        { play(rt, alloc, studio, gate, player) },
    );
    studio.closing(rt, own);
}

// Lets all workers work, each in a thread of its own where one can be made.
fn work_all<R: Threads + Wait + Sync, D: Shelf, G: Gate>(
    rt: &R,
    alloc: Global,
    studio: &Studio<D>,
    gate: &G,
    workers: &mut [Worker<Seat<D>>],
)
    requires { AllByRecursion (IsFree studio.now) workers.old }
    ensures { AllByRecursion (HasWorked studio.now) workers.new }
{
    let threads = workers.len().max(1);
    for_each_mut(
        rt,
        workers,
        threads,
        &|_, worker: &mut Worker<Seat<D>>|
            requires { IsSync R.row × IsSync G.row × IsFree studio.now worker.old }
            ensures { HasWorked studio.entry.now worker.new }
        { refresh(rt, alloc, studio, gate, worker) },
    );
}

/// Lets the sessions play and the workers work beside each other. Where no thread can be made the sessions come first,
/// and the workers find that no more jobs are given out: `join_mut` calls its first closure last then.
pub(crate) fn run<'a, R: Threads + Wait + Sync, D: Shelf, G: Gate>(
    rt: &'a R,
    alloc: Global,
    studio: &'a Studio<D>,
    gate: &G,
    own: &mut Seat<D>,
    players: &mut [Player<Seat<D>>],
    workers: &mut [Worker<Seat<D>>],
)
    requires own { IsSeatOf studio.now own.old }
    requires players { AllByRecursion (CanPlay (in_slots state) studio.now) players.old }
    requires workers { AllByRecursion (IsFree studio.now) workers.old }
    ensures own { IsSeatOf studio.now own.new }
    ensures weight { weight_of own.new ≡ weight_of own.old }
    ensures job { job_out own.new ≡ job_out own.old }
    ensures heard { HasHeard (known_by own.old) (known_by own.new) }
    ensures played { AllZip (Plays (in_slots state) studio.now) players.old players.new }
    ensures worked { AllByRecursion (HasWorked studio.now) workers.new }
{
    join_mut(
        rt,
        &mut ||
            requires { IsSync R.row × IsSync G.row × AllByRecursion (IsFree studio.now)
                workers.now }
            ensures { AllByRecursion (HasWorked studio.entry.now) workers.exit.now }
        { work_all(rt, alloc, studio, gate, workers) },
        &mut ||
            requires { IsSync R.row × IsSync G.row × IsSeatOf studio.now own.now
                × AllByRecursion (CanPlay (in_slots state) studio.now) players.now }
            ensures { IsSeatOf studio.entry.now own.exit.now
                × (weight_of own.exit.now ≡ weight_of own.entry.now)
                × (job_out own.exit.now ≡ job_out own.entry.now) × HasHeard (known_by own.entry.now)
                (known_by own.exit.now) × AllZip (Plays (in_slots state) studio.entry.now)
                players.entry.now players.exit.now }
        { play_all(rt, alloc, studio, gate, own, players) },
    );
}
