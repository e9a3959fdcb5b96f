//! Windows that are shown.
ghost use Rattle.std.specs.Prelude.{◌≡◌, ◌≤◌, ℕ, IfOk};
ghost use Rattle.spec_serve.specs.Hearing.{requests};
ghost use Rattle.spec_serve.specs.Windows.{looks};
ghost use Rattle.spec_window.specs.declared.TheConstants.{MAX_WINDOW};
ghost use Rattle.xl_serve.specs.Played.{IsAnswered};
ghost use Rattle.xl_told.specs.Requests.{window_is};
ghost use Rattle.xl_window.specs.Viewing as viewing;

use std::alloc::{AllocError, Global};
use std::sync::ledger::Ledger;
use xl_blend::Steps;
use xl_core::Core;
use xl_doc::NodeId;
use xl_ports::Shelf;
use xl_told::{Window, append_frame, refusal_line};
use xl_window::{Viewer, WindowRefusedOrMemory};

/// Shows the pixels of a window of the last version, or why there are none.
pub(crate) fn show<L: Ledger, D: Shelf>(
    alloc: Global,
    core: &Core<D>,
    viewer: &mut Viewer,
    session: u8,
    window: Window,
    steps: &mut Steps<L>,
) -> Result<Vec<u8>, AllocError>
    requires history { viewing.GoesOn viewer.old.seen core.now.history }
    requires some_cols { 1 ≤ window.cols }
    requires some_rows { 1 ≤ window.rows }
    requires few_cols { window.cols ≤ MAX_WINDOW }
    requires few_rows { window.rows ≤ MAX_WINDOW }
    ensures history { viewing.GoesOn viewer.new.seen core.now.history }
    ensures shown { IfOk result (λ text. (number : ℕ) → IsAnswered number
        (requests (looks session (window_is window))) core.now.history core.now.history
        text.items) }
{
    let mut bytes = Vec::new(alloc);
    let Window {
        node,
        at,
        cols,
        rows,
    } = window;
    match viewer.window(alloc, core, NodeId(node), at, cols, rows, &mut bytes, steps) {
        Ok(version) => {
            let mut text = Vec::new(alloc);
            append_frame(alloc, &mut text, session, version, &bytes)?;
            Ok(text)
        }
        Err(WindowRefusedOrMemory::Refused(why)) => {
            Ok(refusal_line(alloc, session, why)?.into_bytes())
        }
        Err(WindowRefusedOrMemory::Memory) => Err(AllocError),
    }
}
