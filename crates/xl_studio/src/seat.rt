use crate::moment::Moment;
use crate::shared::Shared;
use std::snapshot::Snapshot;
use xl_core::Tally;
use xl_doc::{Document, NodeId, TileAt};
use xl_ports::Shelf;
use xl_shifts::Shifts;
use xl_turn::{Chronicle, TurnLock};
use xl_wait::Calm;

/// A document under a lock. Sessions enter it in turns, each with a seat of its own.
#[derive(Drop)]
pub struct Studio<D: Shelf>
where
    Shared<D>: Chronicle<Entry = Moment<D>>,
{
    pub(crate) lock: TurnLock<Shared<D>>,
    /// Where workers wait before they take a job, while calls keep coming.
    pub(crate) calm: Calm,
    /// Where sessions wait that make one call after another.
    pub(crate) shifts: Shifts,
}

/// What a session makes its calls with.
#[derive(Drop)]
pub struct Seat<D: Shelf>
where
    Shared<D>: Chronicle<Entry = Moment<D>>,
{
    pub(crate) seat: xl_turn::TurnSeat<Shared<D>>,
    // The last version of the front.
    pub(crate) seen: u32,
    // Whether the last answer to it was that no more jobs are given out.
    pub(crate) closed: bool,
    // The job that it has out.
    pub(crate) job: Option<Away>,
    // What became of the pictures that were handed in with it.
    pub(crate) tally: Tally,
}

/// A job that is out: its tile and its version, and the document at that version, for contracts alone.
#[derive(Drop)]
pub struct Away {
    pub(crate) node: NodeId,
    pub(crate) at: TileAt,
    pub(crate) version: u32,
    pub(crate) document: Snapshot<Document>,
}
