//! Rows of one pixel throughout, and others, on which both the vector loops and what is left over run.
ghost use Rattle.std.specs.Prelude.{◌≡◌, ◌<◌, length};

use std::marker::Brand;
use std::sync::ledger::{Blank, Ledger};
use xl_blend::{
    Mode, Pixel, Steps, blend, code_of, fade_row, fade_row_by, mode_of, mul, over, over_row,
};

// A pixel of a grey and an alpha.
fn grey(parts: (u8, u8)) -> Pixel {
    Pixel {
        r: parts.0,
        g: parts.0,
        b: parts.0,
        a: parts.1,
    }
}

// Six equal pixels under five equal ones and another, the first of them laid by itself.
fn lay<L: Ledger>(mode: Mode, below: Pixel, above: Pixel, last: Pixel, blank: Blank) -> [Pixel; 6]
    requires name { blank.name ≡ L.name }
    requires parts { blank.parts ≡ L.parts }
    requires some { 0 < blank.parts }
{
    let mut steps = Steps::<L>::new(blank);
    let one = over(mode, below, above, &mut steps);
    let mut row = [below; 6];
    over_row(
        mode,
        &mut row[1..],
        &[above, above, above, above, last],
        &mut steps,
    );
    row[0] = one;
    row
}

fn lay_pixels(mode: Mode, below: Pixel, above: Pixel, last: Pixel) -> [Pixel; 6] {
    lay::<Brand>(mode, below, above, last, Blank::new(1))
}

/// A mode, a pixel below, one above, and what comes of them, each as a grey and an alpha.
const LAID: [(Mode, (u8, u8), (u8, u8), (u8, u8)); 4] = [
    (Mode::Normal, (100, 128), (200, 128), (167, 192)),
    (Mode::Multiply, (200, 128), (100, 255), (119, 128)),
    // opaque below
    (Mode::Multiply, (200, 255), (100, 255), (78, 255)),
    (Mode::Normal, (100, 255), (200, 255), (200, 255)),
];

fn is_laid(mode: Mode, below: Pixel, above: Pixel, mixed: Pixel) -> bool {
    lay_pixels(mode, below, above, above) == [mixed; 6]
}

// A clear pixel leaves the one below it.
fn is_laid_but_for_one(mode: Mode, below: Pixel, above: Pixel, mixed: Pixel) -> bool {
    let row = [mixed, mixed, mixed, mixed, mixed, below];
    lay_pixels(mode, below, above, grey((0, 0))) == row
}

// The first of the rows, counted from 0, of which something else comes.
fn first_laid_otherwise() -> Option<usize> {
    for (i, row) in LAID.iter().enumerate() {
        let (below, above, mixed) = (grey(row.1), grey(row.2), grey(row.3));
        if !is_laid(row.0, below, above, mixed)
            || !is_laid_but_for_one(row.0, below, above, mixed)
        {
            return Some(i);
        }
    }
    None
}

fn faded() -> [Pixel; 5] {
    let mut row = [grey((7, 200)); 5];
    fade_row(&mut row, 128);
    fade_row_by(&mut row, &[100; 5]);
    row
}

fn modes_have_codes() -> bool {
    mode_of(19) == Some(Mode::SoftLight) && code_of(Mode::Overlay) == 5
}

fn bytes_are_mixed() -> bool {
    blend(Mode::SoftLight, 100, 200) == 134 && mul(200, 128) == 100
}

#[test]
fn rows_are_laid(rt: HostRuntime) {
    assert_eq!(rt; first_laid_otherwise(), None);
}

#[test]
fn bytes_and_rows_are_faded_and_mixed(rt: HostRuntime) {
    assert_eq!(rt;
        [
            faded() == [grey((7, 39)); 5],
            modes_have_codes(),
            bytes_are_mixed(),
        ],
        [true; 3]
    );
}
