//! The lines of the sessions that are made from a seed.
ghost use Rattle.std.specs.Prelude.{◌≡◌, ◌<◌, IfOk, OnOk};
ghost use Rattle.spec_document.specs.Rect.{count_from};
ghost use Rattle.spec_generated.specs.Draws.{for_each, times};
ghost use Rattle.spec_generated.specs.Generated.{fill, fills_and_tile, layer_of_session, session_lines, tile};
ghost use Rattle.xl_report.specs.Drawing.{AddsDrawn, IsDrawn};
ghost use Rattle.xl_script.specs.Lines.{line_of, lines_of, lists_of};

use crate::drawing::Draws;
use std::alloc::{AllocError, Global};
use xl_doc::{Bytes, NodeId, Rect, TileAt};
use xl_script::{Call, Edit, Edits, Group, Line, Lines, SESSIONS, Script};

// How many fills come before each tile.
const FILLS: u32 = 32;

// How many tiles a session asks for.
const TILES: u32 = 3;

// A rectangle of a layer, with sides of 1 to 64.
fn fill(alloc: Global, draws: &mut Draws, layer: u32) -> Result<Line, AllocError>
    ensures { IfOk result (λ line. IsDrawn (fill layer) draws.old (line_of line) draws.new) }
{
    let x = draws.draw(448);
    let y = draws.draw(320);
    let w = draws.draw(64);
    let h = draws.draw(64);
    let colour = draws.pixel();
    let pixel = Bytes::from_slice(alloc, &colour)?;
    let mut edits = Edits::new(alloc);
    edits.push(Edit::Fill {
        id: NodeId(layer),
        rect: Rect {
            x: x as i32,
            y: y as i32,
            w: 1 + w,
            h: 1 + h,
        },
        pixel,
    })?;
    Ok(Line::Call(Call::Edit(Group { guard: None, edits })))
}

// A tile of the image.
fn tile(draws: &mut Draws) -> Line
    ensures { IsDrawn tile draws.old (line_of result) draws.new }
{
    let col = draws.draw(16);
    let row = draws.draw(12);
    Line::Call(Call::Tile(NodeId(0), TileAt { col, row }))
}

fn add_fills(
    alloc: Global,
    draws: &mut Draws,
    layer: u32,
    lines: &mut Lines,
) -> Result<(), AllocError>
    ensures { OnOk result (AddsDrawn (times 32 (fill layer)) draws.old (lines_of lines.old)
        (lines_of lines.new) draws.new) }
{
    for _fill in 0..FILLS {
        let line = fill(alloc, draws, layer)?;
        lines.push(line)?;
    }
    Ok(())
}

fn add_fills_and_tile(
    alloc: Global,
    draws: &mut Draws,
    layer: u32,
    lines: &mut Lines,
) -> Result<(), AllocError>
    ensures { OnOk result (AddsDrawn (fills_and_tile layer) draws.old (lines_of lines.old)
        (lines_of lines.new) draws.new) }
{
    add_fills(alloc, draws, layer, lines)?;
    let shown = tile(draws);
    lines.push(shown)?;
    Ok(())
}

// The layer that a session fills: the ids 1 and 6 are those of the groups.
fn layer_of_session(session: u32) -> u32
    requires { session < 8 }
    ensures { result ≡ layer_of_session session }
{
    if session <= 3 {
        session + 2
    } else {
        session + 3
    }
}

fn session_lines(alloc: Global, draws: &mut Draws, session: u32) -> Result<Lines, AllocError>
    requires { session < 8 }
    ensures { IfOk result (λ lines. IsDrawn (session_lines session) draws.old (lines_of lines)
        draws.new) }
{
    let layer = layer_of_session(session);
    let mut lines = Lines::new(alloc);
    for _part in 0..TILES {
        add_fills_and_tile(alloc, draws, layer, &mut lines)?;
    }
    lines.push(Line::Save)?;
    Ok(lines)
}

/// The lines of the eight sessions.
pub fn script(alloc: Global, draws: &mut Draws) -> Result<Script, AllocError>
    ensures { IfOk result (λ script. IsDrawn (for_each (count_from 0 8) session_lines) draws.old
        (lists_of script) draws.new) }
{
    let mut lists = Vec::with_capacity(alloc, SESSIONS as usize)?;
    for session in 0..SESSIONS as u32 {
        let list = session_lines(alloc, draws, session)?;
        lists.push(list)?;
    }
    Ok(Script::of(lists))
}
