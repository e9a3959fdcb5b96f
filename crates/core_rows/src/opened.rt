//! A core, a desk for its calls, and a studio over a core.
ghost use Rattle.std.specs.Prelude.{◌≡◌, ◌^◌, [], None, IfOk};
ghost use Rattle.xl_doc.specs.Numbered.{AreNumbered};
ghost use Rattle.xl_filters.specs.Chests.{states_in};
ghost use Rattle.xl_studio.specs.Jobs.{job_out};
ghost use Rattle.xl_studio.specs.Seats.{weight_of, IsSeatOf};

use sample_documents::document;
use std::alloc::{AllocError, Global};
use xl_core::{Core, Desk};
use xl_doc::Document;
use xl_fakes::MemoryShelf;
use xl_filters::Chest;
use xl_ports::Shelf;
use xl_studio::{Seat, Studio};

/// A layer of one pixel, which is the canvas, in runs, as the writer lays it out.
pub const ONE_PIXEL: [u8; 197] = [
    103, 105, 109, 112, 32, 120, 99, 102, 32, 102, 105, 108, 101, 0, 0, 0, 0, 1, 0, 0, 0, 1, 0, 0,
    0, 0, 0, 0, 0, 17, 0, 0, 0, 1, 1, 0, 0, 0, 0, 0, 0, 0, 0, 0, 0, 0, 55, 0, 0, 0, 0, 0, 0, 0, 0,
    0, 0, 0, 1, 0, 0, 0, 1, 0, 0, 0, 1, 0, 0, 0, 2, 65, 0, 0, 0, 0, 6, 0, 0, 0, 4, 0, 0, 0, 255, 0,
    0, 0, 7, 0, 0, 0, 4, 0, 0, 0, 0, 0, 0, 0, 8, 0, 0, 0, 4, 0, 0, 0, 1, 0, 0, 0, 11, 0, 0, 0, 4,
    0, 0, 0, 1, 0, 0, 0, 15, 0, 0, 0, 8, 0, 0, 0, 0, 0, 0, 0, 0, 0, 0, 0, 0, 0, 0, 0, 0, 0, 0, 0,
    153, 0, 0, 0, 0, 0, 0, 0, 1, 0, 0, 0, 1, 0, 0, 0, 4, 0, 0, 0, 173, 0, 0, 0, 0, 0, 0, 0, 1, 0,
    0, 0, 1, 0, 0, 0, 189, 0, 0, 0, 0, 255, 200, 255, 100, 255, 50, 255, 255,
];

/// A core over a shelf, on which a name is selected.
pub(crate) fn core_over<D: Shelf>(
    alloc: Global,
    document: Document,
    shelf: D,
) -> Result<Core<D>, AllocError>
    requires { AreNumbered document.nodes }
    ensures { IfOk result (λ core. core.history.entries ≡ []) }
{
    let mut shelf = shelf;
    if shelf.select("f").is_err() {
        return Err(AllocError);
    }
    match Core::open(alloc, document, shelf) {
        Ok(core) => Ok(core),
        Err(failed) => {
            drop(failed);
            Err(AllocError)
        }
    }
}

/// A studio and its first seat.
pub(crate) fn studio_of(
    alloc: Global,
) -> Result<(Studio<MemoryShelf>, Seat<MemoryShelf>), AllocError>
    ensures seat { IfOk result (λ r. IsSeatOf r.0 r.1) }
    ensures weight { IfOk result (λ r. weight_of r.1 ≡ 2 ^ 32) }
    ensures free { IfOk result (λ r. job_out r.1 ≡ None) }
{
    let shelf = MemoryShelf::new(alloc, Vec::new(alloc), Vec::new(alloc), None)?;
    let document = document(alloc, &ONE_PIXEL)?;
    let core = core_over(alloc, document, shelf)?;
    match Studio::open(alloc, core) {
        Ok(opened) => Ok(opened),
        Err(failed) => {
            drop(failed);
            Err(AllocError)
        }
    }
}

/// A desk without filters.
pub(crate) fn plain_desk(alloc: Global) -> Result<Desk, AllocError>
    ensures { IfOk result (λ desk. states_in state desk.chest ≡ []) }
{
    let Ok(chest) = Chest::new(alloc, Vec::new(alloc)) else {
        return Err(AllocError);
    };
    match Desk::new(alloc, chest) {
        Ok(desk) => Ok(desk),
        Err(failed) => {
            drop(failed);
            Err(AllocError)
        }
    }
}
