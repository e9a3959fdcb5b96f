//! A part of a row laid over the row.
ghost use Rattle.std.specs.Prelude.{◌≡◌, ◌+◌, ◌≤◌, length};
ghost use Rattle.xl_compose.specs.Laid.{AreLaid};

use std::sync::ledger::Ledger;
use xl_blend::{Mode, Pixel, Steps, over_row};

/// Lays pixels over as many of a row, from a column of it on.
pub fn lay_part<L: Ledger>(
    mode: Mode,
    row: &mut [Pixel],
    skip: usize,
    above: &[Pixel],
    steps: &mut Steps<L>,
)
    requires { skip + length above.now ≤ length row.old }
    ensures length { length row.new ≡ length row.old }
    ensures laid { AreLaid mode skip above.now row.old row.new }
    ensures cost { steps.new ≡ steps.old + length above.now }
{
    over_row(mode, &mut row[skip..skip + above.len()], above, steps);
}
