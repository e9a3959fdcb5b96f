//! One row of pixels laid over another, a piece at a time.
ghost use Rattle.std.specs.Prelude.{◌≡◌, ◌+◌, ◌≤◌, length};
ghost use Rattle.xl_blend.specs.Rows.{over_rows};

use crate::blended_rows::lay_blended;
use crate::count::Steps;
use crate::normal_rows::{PIECE, lay_normal};
use spec_document::{Mode, Pixel};
use std::sync::ledger::Ledger;

/// A piece of a row over another.
fn lay(mode: Mode, below: &mut [Pixel], above: &[Pixel])
    requires lengths { length below.old ≡ length above.now }
    requires piece { length below.old ≤ PIECE }
    ensures { below.new ≡ over_rows mode below.old above.now }
{
    match mode {
        Mode::Normal => lay_normal(below, above),
        _ => lay_blended(mode, below, above),
    }
}

/// A row over another, a piece at a time.
fn lay_row(mode: Mode, below: &mut [Pixel], above: &[Pixel])
    requires { length below.old ≡ length above.now }
    ensures { below.new ≡ over_rows mode below.old above.now }
{
    let mut at = 0;
    while at < below.len() {
        let end = (below.len() - at).min(PIECE) + at;
        lay(mode, &mut below[at..end], &above[at..end]);
        at = end;
    }
}

/// Each pixel of a row laid over the pixel below it, which is one step a pixel.
pub fn over_row<L: Ledger>(mode: Mode, below: &mut [Pixel], above: &[Pixel], steps: &mut Steps<L>)
    requires { length below.old ≡ length above.now }
    ensures each { below.new ≡ over_rows mode below.old above.now }
    ensures cost { steps.new ≡ steps.old + length below.old }
{
    steps.add(below.len() as u64);
    lay_row(mode, below, above);
}
