//! A tile that a session's seat refreshes before it is asked for.
ghost use Rattle.std.specs.Prelude.{◌≡◌, ◌<◌};
ghost use Rattle.xl_studio.specs.Seats.{IsSeatOf};

use crate::calls::{Ask, TILE, ask_for};
use crate::edits::{Change, IMAGE};
use crate::opened::studio_of;
use std::alloc::{AllocError, Global};
use std::marker::Brand;
use std::sync::Wait;
use std::sync::ledger::{Blank, Ledger};
use xl_blend::Steps;
use xl_calls::{NodeId, Reply, TileAt};
use xl_core::Finished;
use xl_ports::Shelf;
use xl_studio::{Seat, Studio};

/// What came of refreshing the tile that an edit had marked, and the reply to a peek at it then.
pub(crate) type Refreshed = (Option<Finished>, Reply);

// Refreshes a tile with steps of its own.
fn refresh_with<W: Wait, D: Shelf, L: Ledger>(
    rt: &W,
    alloc: Global,
    studio: &Studio<D>,
    seat: &mut Seat<D>,
    node: NodeId,
    at: TileAt,
    blank: Blank,
) -> Option<Finished>
    requires name { blank.name ≡ L.name }
    requires parts { blank.parts ≡ L.parts }
    requires some { 0 < blank.parts }
    requires seat { IsSeatOf studio.now seat.old }
    ensures seat { IsSeatOf studio.now seat.new }
{
    let mut steps = Steps::<L>::new(blank);
    studio.refresh(rt, alloc, seat, node, at, &mut steps)
}

fn refresh<W: Wait, D: Shelf>(
    rt: &W,
    alloc: Global,
    studio: &Studio<D>,
    seat: &mut Seat<D>,
    node: NodeId,
    at: TileAt,
) -> Option<Finished>
    requires { IsSeatOf studio.now seat.old }
    ensures { IsSeatOf studio.now seat.new }
{
    refresh_with::<W, D, Brand>(rt, alloc, studio, seat, node, at, Blank::new(1))
}

// Whether nothing comes of refreshing a tile that is clean, one of no stack, and one outside the canvas.
fn is_nothing_left<W: Wait, D: Shelf>(
    rt: &W,
    alloc: Global,
    studio: &Studio<D>,
    seat: &mut Seat<D>,
) -> bool
    requires { IsSeatOf studio.now seat.old }
    ensures { IsSeatOf studio.now seat.new }
{
    let clean = refresh(rt, alloc, studio, seat, IMAGE, TILE);
    let no_stack = refresh(rt, alloc, studio, seat, NodeId(9), TILE);
    let outside = refresh(rt, alloc, studio, seat, IMAGE, TileAt { col: 1, row: 0 });
    clean.is_none() && no_stack.is_none() && outside.is_none()
}

// An edit, the tile refreshed, and a peek.
fn edit_and_refresh<W: Wait, D: Shelf>(
    rt: &W,
    alloc: Global,
    studio: &Studio<D>,
    seat: &mut Seat<D>,
) -> Result<Refreshed, AllocError>
    requires { IsSeatOf studio.now seat.old }
    ensures { IsSeatOf studio.now seat.new }
{
    let _changed = ask_for(rt, alloc, studio, seat, 0, Ask::Edit(Change::Fade(40)))?;
    let finished = refresh(rt, alloc, studio, seat, IMAGE, TILE);
    let reply = ask_for(rt, alloc, studio, seat, 0, Ask::Peek)?;
    Ok((finished, reply))
}

/// The tile is marked at version 1, and refreshed. Whether nothing is left to be refreshed then.
pub(crate) fn refresh_after_edit<W: Wait>(
    rt: &W,
    alloc: Global,
) -> Result<(Refreshed, bool), AllocError> {
    let (studio, mut seat) = studio_of(alloc)?;
    let refreshed = edit_and_refresh(rt, alloc, &studio, &mut seat);
    let is_left = is_nothing_left(rt, alloc, &studio, &mut seat);
    drop(seat);
    drop(studio);
    Ok((refreshed?, is_left))
}
