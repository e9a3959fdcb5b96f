//! What a talk begins with.
ghost use Rattle.std.specs.Prelude.{◌≡◌, ◌<◌, ◌^◌, ℕ, Some, None, [], length, map, IfOk, IfErr, IsSome, slice_index_or};
ghost use Rattle.std.specs.List.{AllByRecursion};
ghost use Rattle.spec_script.specs.Script.{list_at};
ghost use Rattle.spec_serve.specs.Hearing.{start_hearing};
ghost use Rattle.xl_filters.specs.Chests.{states, states_of};
ghost use Rattle.xl_serve.specs.Played.{IsReady};
ghost use Rattle.xl_serve.specs.Serving.{now_of, Stands};

use crate::server::Server;
use std::alloc::{AllocError, AllocFailed, Global};
use xl_core::{Core, Desk};
use xl_filters::PointFilter;
use xl_play::filter_counts;
use xl_ports::Shelf;
use xl_run::{desk_of, first_boxes};
use xl_script::{Hearing, SESSIONS};
use xl_window::Viewer;

// What a server has beside its core.
#[derive(Drop)]
struct Parts {
    hearing: Hearing,
    desks: Vec<Desk>,
    viewer: Viewer,
}

// A desk for each session, with its filters.
fn desks_of(
    alloc: Global,
    mut chest: Vec<Vec<Box<dyn PointFilter + Send>>>,
) -> Result<Vec<Desk>, AllocError>
    requires { AllByRecursion (λ boxes. length boxes.items < 2 ^ 32) chest.items }
    ensures eight { IfOk result (λ desks. length desks.items ≡ 8) }
    ensures full { IfOk result (λ desks. (session : ℕ) → session < 8 → slice_index_or
        (map (λ d. states (λ s. state s.filter) d.chest) desks.items) session []
        ≡ map (λ s. Some s) (list_at (states_of (λ b. state b) chest.items) session)) }
{
    let mut desks = Vec::with_capacity(alloc, SESSIONS as usize)?;
    for _session in 0..SESSIONS {
        let boxes = first_boxes(alloc, &mut chest);
        let desk = desk_of(alloc, boxes)?;
        desks.push(desk)?;
    }
    Ok(desks)
}

// For sessions with these filters, to which nothing was said.
fn parts_of(
    alloc: Global,
    chest: Vec<Vec<Box<dyn PointFilter + Send>>>,
) -> Result<Parts, AllocError>
    requires { AllByRecursion (λ boxes. length boxes.items < 2 ^ 32) chest.items }
    ensures hearing { IfOk result (λ parts. parts.hearing ≡ start_hearing (map length
        (states_of (λ b. state b) chest.items))) }
    ensures eight { IfOk result (λ parts. length parts.desks.items ≡ 8) }
    ensures full { IfOk result (λ parts. (session : ℕ) → session < 8 → slice_index_or
        (map (λ d. states (λ s. state s.filter) d.chest) parts.desks.items) session []
        ≡ map (λ s. Some s) (list_at (states_of (λ b. state b) chest.items) session)) }
    ensures viewer { IfOk result (λ parts. parts.viewer.seen ≡ None) }
{
    let counts = filter_counts(alloc, &chest)?;
    let hearing = Hearing::new(alloc, counts.as_slice())?;
    let viewer = Viewer::new(alloc)?;
    let desks = desks_of(alloc, chest)?;
    Ok(Parts {
        hearing,
        desks,
        viewer,
    })
}

impl<D: Shelf> Server<D> {
    /// A server of a document that has no history, for sessions with these filters, the first session's first: it stands
    /// for the talk of no line. A session without a list has no filters; lists past the eighth play no part. The core comes
    /// back where memory ran out.
    pub fn new(
        alloc: Global,
        core: Core<D>,
        chest: Vec<Vec<Box<dyn PointFilter + Send>>>,
    ) -> Result<Server<D>, AllocFailed<Core<D>>>
        requires boxes { AllByRecursion (λ boxes. length boxes.items < 2 ^ 32) chest.items }
        requires fresh { core.history.entries ≡ [] }
        requires inside { IsSome core.shelf }
        requires selected { IsSome (D.shelf_state core.opening).selected }
        ensures core { IfOk result (λ server. server.core ≡ core) }
        ensures ready { IfOk result (λ server. IsReady server.core) }
        ensures selected { IfOk result (λ server. IsSome (D.shelf_state server.core.opening).selected) }
        ensures stands { IfOk result (λ server. Stands core.history.base
            (states_of (λ b. state b) chest.items) [] []
            (now_of server.core.history server.hearing server.seen
            (map (λ d. states (λ s. state s.filter) d.chest) server.desks.items) server.viewer.seen)) }
        ensures back { IfErr result (λ failed. failed.value ≡ core) }
    {
        match parts_of(alloc, chest) {
            Ok(parts) => {
                let Parts {
                    hearing,
                    desks,
                    viewer,
                } = parts;
                Ok(Server {
                    core,
                    hearing,
                    desks,
                    seen: [0; 8],
                    viewer,
                })
            }
            Err(_) => Err(AllocFailed { value: core }),
        }
    }
}
