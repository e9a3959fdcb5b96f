//! The blend modes, each on one colour byte.
ghost use Rattle.std.specs.Prelude.{◌≡◌};
ghost use Rattle.spec_document.specs.Blend.{blend as blended};

use crate::lights::{overlay, screen, soft_light};
use crate::reciprocals::scaled_quotient;
use crate::words::mul_bytes;
use spec_document::Mode;

/// The colour byte that a mode gives for `i` below and `m` above.
#[inline(always)]
pub fn blend(mode: Mode, i: u8, m: u8) -> u8
    ensures { result ≡ blended mode i m }
{
    let i = u32::from(i);
    let m = u32::from(m);
    let value = match mode {
        Mode::Normal => m,
        Mode::Multiply => mul_bytes(i, m),
        Mode::Screen => screen(i, m),
        Mode::Overlay => overlay(i, m),
        Mode::Difference => i.max(m) - i.min(m),
        Mode::Addition => i + m,
        Mode::Subtract => i.saturating_sub(m),
        Mode::DarkenOnly => i.min(m),
        Mode::LightenOnly => i.max(m),
        Mode::Divide => scaled_quotient(i, m + 1),
        Mode::Dodge => scaled_quotient(i, 256 - m),
        Mode::Burn => 255 - scaled_quotient(255 - i, m + 1),
        Mode::HardLight => {
            if m > 128 {
                255 - (255 - i) * (255 - 2 * (m - 128)) / 256
            } else {
                2 * i * m / 256
            }
        }
        Mode::SoftLight => soft_light(i, m),
        Mode::GrainExtract => (i + 128).saturating_sub(m),
        Mode::GrainMerge => (i + m).saturating_sub(128),
    };
    value.min(255) as u8
}
