//! What is drawn of a layer.
ghost use Rattle.std.specs.Prelude.{◌≡◌, ◌<◌, length, slice_index_or, IfOk};
ghost use Rattle.std.specs.List.{AllByRecursion};
ghost use Rattle.spec_document.specs.declared.Mode.TheVariants.{Normal};
ghost use Rattle.spec_generated.specs.Draws.{times};
ghost use Rattle.spec_generated.specs.Generated.{look, modes};
ghost use Rattle.xl_report.specs.Drawing.{IsDrawn};
ghost use Rattle.xl_report.specs.Looks.{IsLook};

use crate::drawing::Draws;
use std::alloc::{AllocError, Global};
use std::marker::Model;
use xl_doc::Mode;

const LAYERS: usize = 8;

// The modes that are drawn.
const MODES: [Mode; 5] = [
    Mode::Normal,
    Mode::Multiply,
    Mode::Screen,
    Mode::Addition,
    Mode::SoftLight,
];

/// Where a layer lies, in pixels of the canvas, how it is laid over what is below it, and the pixel that it is filled
/// with: red, green, blue and alpha.
#[derive(Drop)]
pub struct Look {
    pub x: u32,
    pub y: u32,
    pub mode: Mode,
    pub opacity: u8,
    pub pixel: [u8; 4],
}

impl Model for Look {
    ghost use Rattle.spec_generated.specs.Generated as made;

    ghost Value = { made.Look };

    ghost view = { λ l. record { x = l.x; y = l.y; mode = l.mode; opacity = l.opacity; pixel = l.pixel } };
}

fn mode_at(place: u32) -> Mode
    requires { place < 5 }
    ensures { result ≡ slice_index_or modes place Normal }
{
    MODES[place as usize]
}

impl Look {
    /// The look of one layer more.
    pub fn draw(draws: &mut Draws) -> Look
        ensures drawn { IsDrawn look draws.old result draws.new }
        ensures fits { IsLook result }
    {
        let x = draws.draw(512);
        let y = draws.draw(384);
        let mode = mode_at(draws.draw(5));
        let opacity = 128 + draws.draw(128) as u8;
        let pixel = draws.pixel();
        Look {
            x,
            y,
            mode,
            opacity,
            pixel,
        }
    }
}

/// The looks of the layers.
pub fn looks(alloc: Global, draws: &mut Draws) -> Result<Vec<Look>, AllocError>
    ensures drawn { IfOk result (λ looks. IsDrawn (times 8 look) draws.old looks.items draws.new) }
    ensures eight { IfOk result (λ looks. length looks.items ≡ 8) }
    ensures each { IfOk result (λ looks. AllByRecursion IsLook looks.items) }
{
    let mut looks = Vec::with_capacity(alloc, LAYERS)?;
    for _layer in 0..LAYERS {
        looks.push(Look::draw(draws))?;
    }
    Ok(looks)
}
