//! Pieces laid one upon another.
ghost use Rattle.std.specs.Prelude.{◌≡◌, ◌+◌, ◌*◌, ◌<◌, ◌≤◌, ◌⊎◌, ℕ, length};
ghost use Rattle.spec_document.specs.Over.{clear, over};
ghost use Rattle.spec_document.specs.Source.{faded};
ghost use Rattle.xl_compose.specs.Laid.{pixel};
ghost use Rattle.xl_compose.specs.Levels.{AreIn, AreShown, IsIn, IsLaid, points};
ghost use Rattle.xl_compose.specs.Neat.{IsNeat};
ghost use Rattle.xl_compose.specs.Pieces.{kept_pixel, weight, weights};
ghost use Rattle.spec_document.specs.declared.TheConstants.{MAX_SIDE};
ghost use Rattle.xl_tile.specs.declared.tile.TheConstants.{SCRATCH};

use crate::lay::lay_part;
use crate::own::own_row;
use crate::pieces::{Piece, What};
use crate::source::{LaidLayer, lay_layer};
use crate::span::Band;
use crate::stacks::clear_row;
use std::sync::ledger::Ledger;
use xl_blend::{Mode, Pixel, Steps, fade_row};

// Lays the picture of n pixels that follows the one at a place over it, with an opacity.
fn lay_next<L: Ledger>(
    mode: Mode,
    opacity: u8,
    at: usize,
    n: usize,
    scratch: &mut [Pixel],
    source: &mut [Pixel],
    steps: &mut Steps<L>,
)
    requires scratch { at + n + n ≤ length scratch.old }
    requires source { n ≤ length source.old }
    ensures length { length scratch.new ≡ length scratch.old }
    ensures here { (i : ℕ) → i < n → pixel scratch.new (at + i)
        ≡ over mode (pixel scratch.old (at + i)) (faded opacity (pixel scratch.old (at + n + i))) }
    ensures beside { (i : ℕ) → (i < at) ⊎ (at + n ≤ i) → pixel scratch.new i ≡ pixel scratch.old i }
    ensures cost { steps.new ≡ steps.old + n }
{
    let above = &mut source[..n];
    above.copy_from_slice(&scratch[at + n..at + n + n]);
    fade_row(above, opacity);
    lay_part(mode, scratch, at, above, steps);
}

// The pixels of a picture that was kept.
fn kept_row(bytes: &[u8], row: &mut [Pixel])
    requires { length bytes.now ≡ 4 * length row.old }
    ensures length { length row.new ≡ length row.old }
    ensures each { (k : ℕ) → k < length row.old → pixel row.new k ≡ kept_pixel bytes.now k }
{
    own_row(1, &[], bytes, row);
}

// Lays a piece. The scratch holds the pictures of all levels, one after another.
fn lay_piece<L: Ledger>(
    colours: &[[u8; 3]],
    piece: &Piece,
    band: Band,
    scratch: &mut [Pixel],
    source: &mut [Pixel],
    bytes: &mut [u8],
    steps: &mut Steps<L>,
)
    requires right { band.x + band.w ≤ MAX_SIDE }
    requires below { band.y + band.h ≤ MAX_SIDE }
    requires high { band.h ≤ 64 }
    requires fits { IsIn (length scratch.old) band piece.now }
    requires row { band.w ≤ length source.old }
    requires source { points band ≤ length source.old }
    requires bytes { SCRATCH + 320 * band.w ≤ length bytes.old }
    requires neat { (v k : ℕ) → v < band.h → k < band.w
        → IsNeat (pixel scratch.old (piece.now.level * points band + (v * band.w + k))) }
    ensures length { length scratch.new ≡ length scratch.old }
    ensures laid { IsLaid colours.now band piece.now scratch.old scratch.new }
    ensures cost { steps.new ≤ steps.old + weight piece.now.what * points band }
{
    let n = band.h as usize * band.w as usize;
    let at = piece.level as usize * n;
    match &piece.what {
        What::Blank => clear_row(&mut scratch[at..at + n]),
        What::Leaf {
            mode,
            opacity,
            layer,
        } => {
            let laid = LaidLayer {
                mode: *mode,
                colours,
                opacity: *opacity,
                layer,
            };
            let picture = &mut scratch[at..at + n];
            lay_layer(laid, band, picture, source, bytes, steps);
        }
        What::Clean { picture } => kept_row(picture.bytes(), &mut scratch[at..at + n]),
        What::Stack { mode, opacity } => lay_next(*mode, *opacity, at, n, scratch, source, steps),
    }
}

/// Lays pieces upon pictures without anything. `scratch` holds the pictures of all levels, one after another, `source`
/// has room for one picture, and `bytes` for a tile and for the bytes of a layer and its mask in the band.
pub fn lay_pieces<L: Ledger>(
    colours: &[[u8; 3]],
    pieces: &[Piece],
    band: Band,
    scratch: &mut [Pixel],
    source: &mut [Pixel],
    bytes: &mut [u8],
    steps: &mut Steps<L>,
)
    requires right { band.x + band.w ≤ MAX_SIDE }
    requires below { band.y + band.h ≤ MAX_SIDE }
    requires high { band.h ≤ 64 }
    requires fit { AreIn (length scratch.old) band pieces.now }
    requires row { band.w ≤ length source.old }
    requires source { points band ≤ length source.old }
    requires bytes { SCRATCH + 320 * band.w ≤ length bytes.old }
    requires blank { (i : ℕ) → pixel scratch.old i ≡ clear }
    ensures length { length scratch.new ≡ length scratch.old }
    ensures shown { AreShown colours.now band pieces.now scratch.new }
    ensures cost { steps.new ≤ steps.old + weights pieces.now * points band }
{
    for i in 0..pieces.len() {
        lay_piece(colours, &pieces[i], band, scratch, source, bytes, steps);
    }
}
