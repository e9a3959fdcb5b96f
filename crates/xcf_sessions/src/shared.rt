ghost use Rattle.std.specs.Prelude.{◌≡◌, ◌+◌, ◌≤◌, IfOk, IfErr, OnOk, OnErr, IsSome};
ghost use Rattle.xcf.specs.declared.errors.NotOpened.TheVariants.{Memory};
ghost use Rattle.xl_doc.specs.Numbered.{AreNumbered};
ghost use Rattle.xcf_sessions.specs.Opened.{OpensShared};
ghost use Rattle.xcf_sessions.specs.Seen.{first_seen};
ghost use Rattle.xcf_sessions.specs.declared.errors.NoSession.TheVariants.{AllOpened};

use crate::errors::{NoSession, NotShared};
use crate::session::Session;
use std::alloc::Global;
use std::marker::Model;
use std::sync::Arc;
use xcf::{Document, NotOpened, open};
use xl_core::Core;
use xl_ports::Shelf;
use xl_studio::{Moment, Seat, Shared, Studio};
use xl_turn::Chronicle;

/// How many sessions an image has at most.
pub const MAX_SESSIONS: u8 = 8;

/// An image with its history and the shelf on which it is saved, for up to eight sessions.
#[derive(Drop)]
pub struct SharedEditor<D: Shelf>
where
    Shared<D>: Chronicle<Entry = Moment<D>>,
{
    studio: Arc<Studio<D>, Global>,
    seat: Seat<D>,
    // How many sessions were opened.
    opened: u8,
    // The sides of the canvas.
    width: u32,
    height: u32,
}

impl<D: Shelf> Model for SharedEditor<D>
where
    Shared<D>: Chronicle<Entry = Moment<D>>,
{
    ghost use Rattle.std.specs.Prelude.{◌≡◌, ◌+◌, ◌≤◌, ◌^◌, []};
    ghost use Rattle.std.specs.Arc.{arc_value};
    ghost use Rattle.std.specs.Coded.{codes};
    ghost use Rattle.spec_document.specs.Code.{coded_document};
    ghost use Rattle.xl_studio.specs.Moments.{entries_in};
    ghost use Rattle.xl_studio.specs.Seats.{base_of, front_of, weight_of, opening_shelf, IsSeatOf};
    ghost use Rattle.xcf_sessions.specs.Seen.{Seen};

    ghost Value = { Seen D };

    ghost coded = { Prim.hlevel (codes, coded_document, D.code) };

    ghost view = { λ s. record {
      session = s.opened;
      base = base_of (arc_value s.studio);
      entries = entries_in (front_of s.seat);
      made = [];
      shelf = opening_shelf (arc_value s.studio);
    } };

    ghost invariant = { λ s. IsSeatOf (arc_value s.studio) s.seat × (2 ^ 32 ≤ weight_of s.seat + s.opened) × (s.opened ≤ 8)
        × (s.width ≡ (base_of (arc_value s.studio)).width) × (s.height ≡ (base_of (arc_value s.studio)).height) };
}

impl<D: Shelf> SharedEditor<D> {
    // An image over a document and a shelf on which a name is selected. Its one error is `Memory`.
    fn of(alloc: Global, document: Document, shelf: D) -> Result<SharedEditor<D>, NotOpened>
        requires numbered { AreNumbered document.nodes }
        requires selected { IsSome (D.shelf_state shelf).selected }
        ensures first { IfOk result (λ editor. editor ≡ first_seen document shelf) }
        ensures memory { IfErr result (λ flaw. flaw ≡ Memory) }
    {
        let width = document.width;
        let height = document.height;
        let Ok(core) = Core::open(alloc, document, shelf) else {
            return Err(NotOpened::Memory);
        };
        let Ok((studio, seat)) = Studio::open(alloc, core) else {
            return Err(NotOpened::Memory);
        };
        let Ok(studio) = Arc::new(alloc, studio) else {
            return Err(NotOpened::Memory);
        };
        Ok(SharedEditor {
            studio,
            seat,
            opened: 0,
            width,
            height,
        })
    }

    /// The image that a file holds, from the file's bytes, with a history without entries, and a shelf on which it is saved
    /// under a name. The file need not stand there, and nothing that is kept on the shelf changes.
    ///
    /// Errors: `NotOpened` with why the bytes are no image, or that memory ran out, and `NoName` where the shelf fails to select
    /// the name. The shelf is gone then.
    pub fn open(
        alloc: Global,
        file: Vec<u8>,
        mut shelf: D,
        name: &str,
    ) -> Result<SharedEditor<D>, NotShared>
        ensures { OpensShared D.shelf_state file.items name.now shelf result }
    {
        let document = open(alloc, file)?;
        let Ok(()) = shelf.select(name) else {
            return Err(NotShared::NoName);
        };
        Ok(SharedEditor::of(alloc, document, shelf)?)
    }

    /// The next session, of eight, numbered from 0. It has seen nothing but the image as it was opened.
    ///
    /// Errors: `AllOpened` after eight, and `Memory`.
    pub fn session(&mut self) -> Result<Session<D>, NoSession>
        ensures opened { IfOk result (λ session. session ≡ self.old) }
        ensures next { OnOk result (self.new ≡ record self.old { session = self.old.session + 1 }) }
        ensures all { IfErr result (λ flaw. flaw ≡ AllOpened → MAX_SESSIONS ≤ self.old.session) }
        ensures as_before { OnErr result (self.new ≡ self.old) }
    {
        if self.opened >= MAX_SESSIONS {
            return Err(NoSession::AllOpened);
        }
        let Ok(studio) = Arc::try_clone(&self.studio) else {
            return Err(NoSession::Memory);
        };
        let seat = self.studio.split(&mut self.seat);
        let number = self.opened;
        self.opened += 1;
        Ok(Session {
            studio,
            seat,
            number,
            width: self.width,
            height: self.height,
        })
    }
}
