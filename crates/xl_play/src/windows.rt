//! The run of a script that is viewed.
ghost use Rattle.std.specs.Prelude.{◌≡◌, ◌+◌, ◌*◌, ◌<◌, ◌≤◌, ◌^◌, true, [], ◌∷◌, None, length, map, option_map, IfOk, OnOk, IsSome};
ghost use Rattle.std.specs.Prelude.{string_bytes};
ghost use Rattle.std.specs.List.{AllByRecursion};
ghost use Rattle.spec_history.specs.Calls.{IsCall};
ghost use Rattle.spec_history.specs.declared.TheConstants.{MAX_ENTRIES};
ghost use Rattle.spec_history.specs.History.{next_index};
ghost use Rattle.spec_history.specs.Limited.{edits_of};
ghost use Rattle.spec_script.specs.Fits.{AreFit, FitsFilters};
ghost use Rattle.spec_script.specs.Script.{list_at};
ghost use Rattle.spec_tables.specs.Agrees.{AreThere};
ghost use Rattle.spec_text.specs.Text.{calls_of, digest_of};
ghost use Rattle.spec_view.specs.Script.{is_viewed_call, IsViewedLine};
ghost use Rattle.spec_view.specs.Text.{Views};
ghost use Rattle.spec_window.specs.Window.{window, window_refusal};
ghost use Rattle.spec_window.specs.Window.{IsWindowSize};
ghost use Rattle.xl_history.specs.History.{document};
ghost use Rattle.xl_calls.specs.Calls.{call_of};
ghost use Rattle.xl_calls.specs.Replies.{reply_of};
ghost use Rattle.xl_filters.specs.Chests.{states_in};
ghost use Rattle.xl_play.specs.Playing.{AreMade, IsBetweenLines, IsCalled, IsMade};
ghost use Rattle.xl_run.specs.Opening.{KeepsExactly};
ghost use Rattle.xl_play.specs.Windows.{asks_for, window_digest, AreShown, IsLastTile};
ghost use Rattle.xl_script.specs.Lines.{line_of, lines_of, lists_of};
ghost use Rattle.xl_filters.specs.Chests.{states_of};
ghost use Rattle.xl_run.specs.Filters.{FitsChest};
ghost use Rattle.xl_window.specs.Viewing.{GoesOn};

use crate::playing::{ALONE, first_lines};
use crate::transcript::Transcript;
use crate::viewing::Viewing;
use std::alloc::AllocError;
use std::marker::Brand;
use std::sync::ledger::{Blank, Ledger};
use xl_blend::Steps;
use xl_calls::{Call, Reply};
use xl_doc::{NodeId, TileAt};
use xl_filters::PointFilter;
use xl_ports::Shelf;
use xl_report::digest;
use xl_run::{Core, Desk, desk_of, first_boxes};
use xl_script::{Line, Script, print_reply};
use xl_window::{Viewer, WindowRefusedOrMemory};

// The tile that a call asks for.
fn asked_tile(call: &Call) -> Option<(NodeId, TileAt)>
    ensures { option_map (λ p. (p.0.0, p.1)) result ≡ asks_for (call_of call.now) }
{
    match call {
        Call::Tile(node, at) => Some((*node, *at)),
        Call::Edit(_) | Call::Undo(_) | Call::Redo | Call::Peek(..) | Call::Top => None,
    }
}

impl Viewing {
    // The digest of a window of the last version, where nothing keeps it from being shown.
    fn window_digest<D: Shelf, L: Ledger>(
        &self,
        viewer: &mut Viewer,
        core: &Core<D>,
        node: NodeId,
        at: TileAt,
        steps: &mut Steps<L>,
    ) -> Result<String, AllocError>
        requires history { GoesOn viewer.old.seen core.now.history }
        requires size { IsWindowSize self.now.cols self.now.rows }
        ensures history { OnOk result (GoesOn viewer.new.seen core.now.history) }
        ensures digest { window_refusal (document core.now.history) node.0 at ≡ None
            → IfOk result (λ text. string_bytes text ≡ digest_of
            (window (document core.now.history) node.0 at self.now.cols self.now.rows)) }
    {
        let mut out = Vec::new(self.alloc);
        let shown = viewer.window(
            self.alloc, core, node, at, self.cols, self.rows, &mut out, steps,
        );
        match shown {
            Ok(_) => digest(self.alloc, out.as_slice()),
            Err(WindowRefusedOrMemory::Refused(_)) => Ok(String::new(self.alloc)),
            Err(WindowRefusedOrMemory::Memory) => Err(AllocError),
        }
    }

    // The digest that the line of a reply has: that of the window from the tile that was asked for, where the reply is
    // one.
    fn reply_digest<D: Shelf, L: Ledger>(
        &self,
        viewer: &mut Viewer,
        core: &Core<D>,
        tile: Option<(NodeId, TileAt)>,
        reply: &Reply,
        steps: &mut Steps<L>,
    ) -> Result<String, AllocError>
        requires history { GoesOn viewer.old.seen core.now.history }
        requires size { IsWindowSize self.now.cols self.now.rows }
        requires last { IsLastTile core.now.history (option_map (λ p. (p.0.0, p.1)) tile)
            (reply_of reply.now) }
        ensures history { OnOk result (GoesOn viewer.new.seen core.now.history) }
        ensures digest { IfOk result (λ text. string_bytes text ≡ window_digest core.now.history
            self.now.cols self.now.rows (option_map (λ p. (p.0.0, p.1)) tile)
            (reply_of reply.now)) }
    {
        match reply {
            Reply::Tile { .. } => match tile {
                Some((node, at)) => self.window_digest(viewer, core, node, at, steps),
                None => Ok(String::new(self.alloc)),
            },
            _ => Ok(String::new(self.alloc)),
        }
    }

    // Makes a call of session 0 and prints its line.
    fn view_call<D: Shelf, L: Ledger>(
        &self,
        core: &mut Core<D>,
        viewer: &mut Viewer,
        call: Call,
        desk: &mut Desk,
        steps: &mut Steps<L>,
        transcript: &mut Transcript,
    ) -> Result<(), AllocError>
        requires shown { AreShown core.old.history.base core.old.history.entries self.now.cols
            self.now.rows (string_bytes transcript.old.text) }
        requires history { GoesOn viewer.old.seen core.old.history }
        requires size { IsWindowSize self.now.cols self.now.rows }
        requires inside { IsSome core.old.shelf }
        requires index { transcript.old.index ≡ next_index core.old.history.entries 0 }
        requires few { length core.old.history.entries + 2 ≤ MAX_ENTRIES }
        requires kept { KeepsExactly core.old }
        requires call { IsCall (call_of call) }
        requires there { AreThere (states_in state desk.old.chest) (edits_of (call_of call)) }
        requires viewed { is_viewed_call (call_of call) ≡ true }

        ensures between { IsBetweenLines core.old.history.base core.old.opening core.new }
        ensures shelf { core.new.shelf ≡ core.old.shelf }
        ensures called { OnOk result (IsCalled core.old.history 0 (call_of call)
            (states_in state desk.old.chest) (states_in state desk.new.chest) core.new.history) }
        ensures kept { OnOk result (KeepsExactly core.new) }
        ensures history { OnOk result (GoesOn viewer.new.seen core.new.history) }
        ensures shown { OnOk result (AreShown core.new.history.base core.new.history.entries
            self.now.cols self.now.rows (string_bytes transcript.new.text)) }
    {
        let seen = core.version();
        let tile = asked_tile(&call);
        let reply = core.submit(self.alloc, ALONE, call, seen, desk, steps)?;
        let digest = self.reply_digest(viewer, core, tile, &reply, steps)?;
        print_reply(
            self.alloc,
            &mut transcript.text,
            ALONE,
            transcript.index,
            &reply,
            digest.as_str(),
        )
    }

    // Makes what a line says, and prints its line.
    fn view_line<D: Shelf, L: Ledger>(
        &self,
        core: &mut Core<D>,
        viewer: &mut Viewer,
        line: Line,
        desk: &mut Desk,
        steps: &mut Steps<L>,
        transcript: &mut Transcript,
    ) -> Result<(), AllocError>
        requires shown { AreShown core.old.history.base core.old.history.entries self.now.cols
            self.now.rows (string_bytes transcript.old.text) }
        requires history { GoesOn viewer.old.seen core.old.history }
        requires size { IsWindowSize self.now.cols self.now.rows }
        requires inside { IsSome core.old.shelf }
        requires index { transcript.old.index ≡ next_index core.old.history.entries 0 }
        requires few { length core.old.history.entries + 2 * length (calls_of (line_of line ∷ []))
            ≤ MAX_ENTRIES }
        requires kept { KeepsExactly core.old }
        requires fit { FitsChest (states_in state desk.old.chest) (line_of line) }
        requires viewed { IsViewedLine (line_of line) }

        ensures between { IsBetweenLines core.old.history.base core.old.opening core.new }
        ensures shelf { core.new.shelf ≡ core.old.shelf }
        ensures made { OnOk result (IsMade core.old.history 0 (line_of line)
            (states_in state desk.old.chest) (states_in state desk.new.chest) core.new.history) }
        ensures next { OnOk result (transcript.new.index ≡ next_index core.new.history.entries 0) }
        ensures kept { OnOk result (KeepsExactly core.new) }
        ensures history { OnOk result (GoesOn viewer.new.seen core.new.history) }
        ensures shown { OnOk result (AreShown core.new.history.base core.new.history.entries
            self.now.cols self.now.rows (string_bytes transcript.new.text)) }
    {
        match line {
            Line::Call(call) => {
                let index = transcript.index;
                self.view_call(core, viewer, call, desk, steps, transcript)?;
                transcript.index = index + 1;
                Ok(())
            }
            Line::Forget(slot) => {
                desk.chest.forget(slot);
                Ok(())
            }
            Line::Save => unreachable!(),
        }
    }

    // Makes the calls of session 0 one after another, and answers their lines. The boxes are dropped in the end.
    fn view_lines<D: Shelf, L: Ledger>(
        &self,
        core: &mut Core<D>,
        lines: Vec<Line>,
        boxes: Vec<Box<dyn PointFilter + Send>>,
        blank: Blank,
    ) -> Result<String, AllocError>
        requires name { blank.name ≡ L.name }
        requires parts { blank.parts ≡ L.parts }
        requires some { 0 < blank.parts }
        requires size { IsWindowSize self.now.cols self.now.rows }
        requires fresh { core.old.history.entries ≡ [] }
        requires kept { KeepsExactly core.old }
        requires inside { IsSome core.old.shelf }
        requires boxes { length boxes.items < 2 ^ 32 }
        requires fit { AreFit (length boxes.items) [] (lines_of lines.items) }
        requires few { 2 * length (calls_of (lines_of lines.items)) ≤ MAX_ENTRIES }
        requires viewed { AllByRecursion IsViewedLine (lines_of lines.items) }

        ensures between { IsBetweenLines core.old.history.base core.old.opening core.new }
        ensures shelf { core.new.shelf ≡ core.old.shelf }
        ensures made { OnOk result (AreMade (map (λ b. state b) boxes.items) (lines_of lines.items)
            core.new.history.entries) }
        ensures shown { IfOk result (λ text. AreShown core.new.history.base core.new.history.entries
            self.now.cols self.now.rows (string_bytes text)) }
    {
        let mut desk = desk_of(self.alloc, boxes)?;
        let mut viewer = Viewer::new(self.alloc)?;
        let mut steps = Steps::<L>::new(blank);
        let text = String::new(self.alloc);
        let mut transcript = Transcript { index: 0, text };
        for line in lines {
            self.view_line(
                core,
                &mut viewer,
                line,
                &mut desk,
                &mut steps,
                &mut transcript,
            )?;
        }
        Ok(transcript.text)
    }

    /// Makes the calls of session 0, which is alone, without threads or workers and without a save. Answers a line for
    /// each call; that of a tile has the digest of the window from there.
    pub fn view_script<D: Shelf>(
        &self,
        core: &mut Core<D>,
        script: Script,
        mut chest: Vec<Vec<Box<dyn PointFilter + Send>>>,
    ) -> Result<String, AllocError>
        requires size { IsWindowSize self.now.cols self.now.rows }
        requires fresh { core.old.history.entries ≡ [] }
        requires kept { KeepsExactly core.old }
        requires inside { IsSome core.old.shelf }
        requires boxes { AllByRecursion (λ boxes. length boxes.items < 2 ^ 32) chest.items }
        requires fits { FitsFilters (length (list_at (states_of (λ b. state b) chest.items) 0) ∷ [])
            (lists_of script) }
        requires viewed { AllByRecursion IsViewedLine (list_at (lists_of script) 0) }
        ensures shelf { core.new.shelf ≡ core.old.shelf }
        ensures views { IfOk result (λ text. Views (string_bytes text) core.old.history.base
            (list_at (lists_of script) 0) (list_at (states_of (λ b. state b) chest.items) 0)
            self.now.cols self.now.rows) }
    {
        let lines = first_lines(script);
        let boxes = first_boxes(self.alloc, &mut chest);
        self.view_lines::<D, Brand>(core, lines, boxes, Blank::new(1))
    }
}
