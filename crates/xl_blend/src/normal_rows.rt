//! Pieces of rows in the normal mode, each kind of piece by its own loop.
ghost use Rattle.std.specs.Prelude.{◌≡◌, ℕ, ◌<◌, ◌≤◌, length, slice_index, slice_index_or, map};
ghost use Rattle.spec_document.specs.Over.{clear};
ghost use Rattle.xl_blend.specs.Rows.{over_rows};
ghost use Rattle.xl_blend.specs.Shown.{shown};
ghost use Rattle.xl_blend.specs.Words.{alpha_over, reciprocal_of};

use crate::alphas::{is_clear, is_opaque, reciprocals_of, wholes_of};
use crate::normal::{over_by, shown_of};
use crate::opaque_rows::lay_over_opaque;
use crate::uniform_rows::{are_uniform, lay_uniform};
use spec_document::{Mode, Pixel};

/// The most pixels of a piece.
pub const PIECE: usize = 128;

/// Each pixel, with no colour where it has no alpha.
fn show(row: &mut [Pixel])
    ensures { row.new ≡ map shown row.old }
{
    for pixel in row {
        *pixel = shown_of(*pixel);
    }
}

/// Pixels over others, by the alphas of the results and the reciprocals of those.
fn lay_by(below: &mut [Pixel], above: &[Pixel], wholes: &[u32], reciprocals: &[u32])
    requires above { length below.old ≡ length above.now }
    requires wholes { length below.old ≡ length wholes.now }
    requires reciprocals { length below.old ≡ length reciprocals.now }
    requires each { (k : ℕ) → k < length below.old → slice_index wholes.now k ≡ alpha_over
        (slice_index_or below.old k clear) (slice_index_or above.now k clear) }
    requires reciprocal { (k : ℕ) → k < length below.old
        → slice_index reciprocals.now k ≡ reciprocal_of (slice_index wholes.now k) }
    ensures { below.new ≡ over_rows Mode.Normal below.old above.now }
{
    for i in 0..below.len() {
        below[i] = over_by(below[i], above[i], wholes[i], reciprocals[i]);
    }
}

/// Pixels over any others.
fn lay_over_any(below: &mut [Pixel], above: &[Pixel])
    requires lengths { length below.old ≡ length above.now }
    requires piece { length below.old ≤ PIECE }
    ensures { below.new ≡ over_rows Mode.Normal below.old above.now }
{
    let count = below.len();
    let mut wholes = [0; PIECE];
    let mut reciprocals = [0; PIECE];
    let wholes = &mut wholes[..count];
    let reciprocals = &mut reciprocals[..count];
    wholes_of(below, above, wholes);
    reciprocals_of(wholes, reciprocals);
    lay_by(below, above, wholes, reciprocals);
}

/// A piece of a row over another in the normal mode.
pub fn lay_normal(below: &mut [Pixel], above: &[Pixel])
    requires lengths { length below.old ≡ length above.now }
    requires piece { length below.old ≤ PIECE }
    ensures { below.new ≡ over_rows Mode.Normal below.old above.now }
{
    if is_opaque(above) {
        below.copy_from_slice(above);
    } else if is_clear(above) {
        show(below);
    } else if are_uniform(below, above) {
        lay_uniform(Mode::Normal, below, above);
    } else if is_opaque(below) {
        lay_over_opaque(Mode::Normal, below, above);
    } else if is_clear(below) {
        below.copy_from_slice(above);
        show(below);
    } else {
        lay_over_any(below, above);
    }
}
