//! The calls of a session.
ghost use Rattle.std.specs.Prelude.{◌≡◌, ◌<◌, []};
ghost use Rattle.xl_filters.specs.Chests.{states_in};
ghost use Rattle.xl_studio.specs.Jobs.{job_out};
ghost use Rattle.xl_studio.specs.Seats.{weight_of, IsSeatOf};

use crate::edits::{Change, IMAGE, edit_for};
use crate::opened::plain_desk;
use std::alloc::{AllocError, Global};
use std::marker::Brand;
use std::sync::Wait;
use std::sync::ledger::{Blank, Ledger};
use xl_blend::Steps;
use xl_calls::{Reply, TileAt};
use xl_core::Desk;
use xl_filters::PointFilter;
use xl_ports::{Actor, Gate, Place, Shelf};
use xl_studio::{Seat, Studio};

/// The one tile of the canvas.
pub(crate) const TILE: TileAt = TileAt { col: 0, row: 0 };

/// What a session asks.
#[derive(Clone, Copy)]
pub(crate) enum Ask {
    Top,
    Edit(Change),
    Undo,
    Redo,
    /// The tile of the image.
    Tile,
    /// The tile of the image, as it is kept.
    Peek,
}

// The reply to what a session asks, at a desk without filters.
fn reply_to<W: Wait, D: Shelf, L: Ledger>(
    rt: &W,
    alloc: Global,
    studio: &Studio<D>,
    seat: &mut Seat<D>,
    session: u8,
    ask: Ask,
    desk: &mut Desk,
    steps: &mut Steps<L>,
) -> Result<Reply, AllocError>
    requires seat { IsSeatOf studio.now seat.old }
    requires session { session < 8 }
    requires plain { states_in state desk.old.chest ≡ [] }
    ensures seat { IsSeatOf studio.now seat.new }
    ensures weight { weight_of seat.new ≡ weight_of seat.old }
    ensures job { job_out seat.new ≡ job_out seat.old }
{
    match ask {
        Ask::Top => studio.top(rt, alloc, seat, session, desk, steps),
        Ask::Edit(change) => {
            let group = edit_for(alloc, change)?;
            studio.edit(rt, alloc, seat, session, group, desk, steps)
        }
        Ask::Undo => studio.undo(rt, alloc, seat, session, None, desk, steps),
        Ask::Redo => studio.redo(rt, alloc, seat, session, desk, steps),
        Ask::Tile => studio.tile(rt, alloc, seat, session, IMAGE, TILE, desk, steps),
        Ask::Peek => studio.peek(rt, alloc, seat, session, IMAGE, TILE, desk, steps),
    }
}

// Makes a call of a session with steps of its own.
fn ask_with<W: Wait, D: Shelf, L: Ledger>(
    rt: &W,
    alloc: Global,
    studio: &Studio<D>,
    seat: &mut Seat<D>,
    session: u8,
    ask: Ask,
    blank: Blank,
) -> Result<Reply, AllocError>
    requires name { blank.name ≡ L.name }
    requires parts { blank.parts ≡ L.parts }
    requires some { 0 < blank.parts }
    requires seat { IsSeatOf studio.now seat.old }
    requires session { session < 8 }
    ensures seat { IsSeatOf studio.now seat.new }
    ensures weight { weight_of seat.new ≡ weight_of seat.old }
    ensures job { job_out seat.new ≡ job_out seat.old }
{
    let mut desk = plain_desk(alloc)?;
    let mut steps = Steps::<L>::new(blank);
    reply_to(rt, alloc, studio, seat, session, ask, &mut desk, &mut steps)
}

/// Makes a call of a session.
pub(crate) fn ask_for<W: Wait, D: Shelf>(
    rt: &W,
    alloc: Global,
    studio: &Studio<D>,
    seat: &mut Seat<D>,
    session: u8,
    ask: Ask,
) -> Result<Reply, AllocError>
    requires seat { IsSeatOf studio.now seat.old }
    requires session { session < 8 }
    ensures seat { IsSeatOf studio.now seat.new }
    ensures weight { weight_of seat.new ≡ weight_of seat.old }
    ensures job { job_out seat.new ≡ job_out seat.old }
{
    ask_with::<W, D, Brand>(rt, alloc, studio, seat, session, ask, Blank::new(1))
}

/// Makes a call of a session, which passes the gate before and after it.
pub(crate) fn make_call<W: Wait, D: Shelf, G: Gate>(
    rt: &W,
    alloc: Global,
    studio: &Studio<D>,
    seat: &mut Seat<D>,
    session: u8,
    gate: &G,
    ask: Ask,
) -> Result<Reply, AllocError>
    requires seat { IsSeatOf studio.now seat.old }
    requires session { session < 8 }
    ensures seat { IsSeatOf studio.now seat.new }
    ensures weight { weight_of seat.new ≡ weight_of seat.old }
    ensures job { job_out seat.new ≡ job_out seat.old }
{
    gate.pass(Actor::Session(session), Place::BeforeCall);
    let reply = ask_for(rt, alloc, studio, seat, session, ask);
    gate.pass(Actor::Session(session), Place::AfterCall);
    reply
}
