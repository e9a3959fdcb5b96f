//! The codes that stand for blend modes in a file.
ghost use Rattle.std.specs.Prelude.{◌≡◌};
ghost use Rattle.spec_document.specs.Blend.{mode_code, mode_of_code};

use spec_document::Mode;

/// The mode of a code, and none for a code that is not supported.
pub fn mode_of(code: u32) -> Option<Mode>
    ensures { result ≡ mode_of_code code }
{
    match code {
        0 => Some(Mode::Normal),
        3 => Some(Mode::Multiply),
        4 => Some(Mode::Screen),
        5 => Some(Mode::Overlay),
        6 => Some(Mode::Difference),
        7 => Some(Mode::Addition),
        8 => Some(Mode::Subtract),
        9 => Some(Mode::DarkenOnly),
        10 => Some(Mode::LightenOnly),
        15 => Some(Mode::Divide),
        16 => Some(Mode::Dodge),
        17 => Some(Mode::Burn),
        18 => Some(Mode::HardLight),
        19 => Some(Mode::SoftLight),
        20 => Some(Mode::GrainExtract),
        21 => Some(Mode::GrainMerge),
        _ => None,
    }
}

/// The code of a mode.
pub fn code_of(mode: Mode) -> u32
    ensures { result ≡ mode_code mode }
{
    match mode {
        Mode::Normal => 0,
        Mode::Multiply => 3,
        Mode::Screen => 4,
        Mode::Overlay => 5,
        Mode::Difference => 6,
        Mode::Addition => 7,
        Mode::Subtract => 8,
        Mode::DarkenOnly => 9,
        Mode::LightenOnly => 10,
        Mode::Divide => 15,
        Mode::Dodge => 16,
        Mode::Burn => 17,
        Mode::HardLight => 18,
        Mode::SoftLight => 19,
        Mode::GrainExtract => 20,
        Mode::GrainMerge => 21,
    }
}
