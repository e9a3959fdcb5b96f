ghost use Rattle.std.specs.Prelude.{◌≡◌, ◌≤◌, max};
ghost use Rattle.spec_filters.specs.Filters as filters;
ghost use Rattle.spec_filters.specs.declared.FilterKind.TheVariants as kinds;

use spec_filters::{FilterKind, FilterState};
use xl_blend::mul;

const LARGEST: u32 = 255;

// The nearest of so many levels, which go from 0 to 255.
fn posterize_byte(levels: u32, byte: u32) -> u32
    requires levels { 2 ≤ levels }
    requires fit { levels ≤ 255 }
    requires byte { byte ≤ 255 }
    ensures value { result ≡ filters.posterize_byte levels byte }
    ensures byte { result ≤ 255 }
{
    let steps = levels - 1;
    (510 * mul(byte, steps) + steps) / (2 * steps)
}

// The part of a byte that is left after so many uses, each of which takes the amount of 255.
fn fade_byte(amount: u8, uses: u32, byte: u32) -> u32
    requires byte { byte ≤ 255 }
    ensures value { result ≡ filters.table_byte kinds.Fade amount uses byte }
    ensures byte { result ≤ 255 }
{
    let lost = (u64::from(uses) * u64::from(amount)).min(u64::from(LARGEST)) as u32;
    mul(byte, LARGEST - lost)
}

/// What a filter in this state makes of a byte.
pub fn byte_of(state: FilterState, byte: u8) -> u8
    ensures { result ≡ filters.table_byte state.kind state.amount state.uses byte }
{
    match state.kind {
        FilterKind::Invert => u8::MAX - byte,
        FilterKind::Threshold => { if state.amount <= byte { u8::MAX } else { 0 } }
        FilterKind::Posterize => posterize_byte(
            u32::from(state.amount).max(2),
            u32::from(byte),
        ) as u8,
        FilterKind::Fade => fade_byte(state.amount, state.uses, u32::from(byte)) as u8,
    }
}
