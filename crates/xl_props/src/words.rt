ghost use Rattle.std.specs.Prelude.{◌≡◌, ◌+◌, ◌*◌, ◌^◌, ◌≤◌, length};
ghost use Rattle.std.specs.Int.{w32, cast_signed};
ghost use Rattle.spec_fields.specs.Field.{word_value};

use xl_fields::u32_at;

/// The word number `i` of a payload, from 0.
pub fn word(payload: &[u8], i: usize) -> u32
    requires number { i ≤ 2 ^ 32 }
    requires inside { 4 * i + 4 ≤ length payload.now }
    ensures { result ≡ word_value payload.now (4 * i) }
{
    u32_at(payload, 4 * i).unwrap()
}

/// The word number `i` of a payload, as a signed number.
pub fn int(payload: &[u8], i: usize) -> i32
    requires number { i ≤ 2 ^ 32 }
    requires inside { 4 * i + 4 ≤ length payload.now }
    ensures { result ≡ cast_signed w32 (word_value payload.now (4 * i)) }
{
    word(payload, i).cast_signed()
}
