ghost use Rattle.spec_history.specs.Kept.{IsLegal};

use std::alloc::Global;
use std::marker::Model;
use std::sync::Arc;
use xl_ports::Shelf;
use xl_studio::{Moment, Seat, Shared, Studio};
use xl_turn::Chronicle;

/// One session of a shared image. It is sent to a thread, or kept where the others are; its calls are made in turns with theirs, and
/// may wait for a turn.
#[derive(Drop)]
pub struct Session<D: Shelf>
where
    Shared<D>: Chronicle<Entry = Moment<D>>,
{
    pub(crate) studio: Arc<Studio<D>, Global>,
    pub(crate) seat: Seat<D>,
    pub(crate) number: u8,
    // The sides of the canvas.
    pub(crate) width: u32,
    pub(crate) height: u32,
}

impl<D: Shelf> Model for Session<D>
where
    Shared<D>: Chronicle<Entry = Moment<D>>,
{
    ghost use Rattle.std.specs.Prelude.{◌≡◌, ◌<◌};
    ghost use Rattle.std.specs.Arc.{arc_value};
    ghost use Rattle.std.specs.Coded.{codes};
    ghost use Rattle.spec_document.specs.Code.{coded_document};
    ghost use Rattle.xl_studio.specs.Moments.{entries_in};
    ghost use Rattle.xl_studio.specs.Seats.{base_of, front_of, made_of, opening_shelf, IsSeatOf};
    ghost use Rattle.xcf_sessions.specs.Seen.{Seen};

    ghost Value = { Seen D };

    ghost coded = { Prim.hlevel (codes, coded_document, D.code) };

    ghost view = { λ s. record {
      session = s.number;
      base = base_of (arc_value s.studio);
      entries = entries_in (front_of s.seat);
      made = made_of s.seat;
      shelf = opening_shelf (arc_value s.studio);
    } };

    ghost invariant = { λ s. IsSeatOf (arc_value s.studio) s.seat × (s.number < 8)
        × (s.width ≡ (base_of (arc_value s.studio)).width) × (s.height ≡ (base_of (arc_value s.studio)).height) };
}

impl<D: Shelf> Session<D> {
    // Tells contracts that the history which it knows is legal.
    pub(crate) fn know_legal(&self)
        ensures { IsLegal self.now.base self.now.entries }
    {
        let _number = self.number;
    }
}
