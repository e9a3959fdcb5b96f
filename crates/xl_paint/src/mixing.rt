//! Rows of bytes that go through weights, of which 255 is the whole.
ghost use Rattle.std.specs.Prelude.{◌≡◌, ℕ, ◌+◌, ◌-◌, ◌*◌, ◌<◌, ◌≤◌, length, slice_index};
ghost use Rattle.spec_edit.specs.Effect.{mixed};
ghost use Rattle.xl_paint.specs.Filling.{threshold};
ghost use Rattle.xl_tiles.specs.Block.{byte_after};

// A byte goes through a weight. It is the quotient by 510 of the definition, in halves, so that 16 bits hold it.
fn mix(weight: u8, new: u8, old: u8) -> u8
    ensures { result ≡ mixed weight new old }
{
    let weight = u16::from(weight);
    let sum = u16::from(new) * weight + u16::from(old) * (255 - weight);
    ((sum + 127) / 255) as u8
}

/// New bytes go through their weights into others, from a place on. All others stay.
pub(crate) fn mix_at(bytes: &mut [u8], at: usize, weights: &[u8], new: &[u8])
    requires weights { length weights.now ≡ length new.now }
    requires fits { at + length new.now ≤ length bytes.old }
    ensures size { length bytes.new ≡ length bytes.old }
    ensures each { (k : ℕ) → slice_index bytes.new k ≡ byte_after at (length new.now)
        (slice_index bytes.old k) (mixed (slice_index weights.now (k - at))
        (slice_index new.now (k - at)) (slice_index bytes.old k)) k }
{
    for k in 0..new.len() {
        bytes[at + k] = mix(weights[k], new[k], bytes[at + k]);
    }
}

// So many bytes from a place on become this one. All others stay.
fn fill_part(out: &mut [u8], at: usize, n: usize, value: u8)
    requires { at + n ≤ length out.old }
    ensures size { length out.new ≡ length out.old }
    ensures each { (k : ℕ) → slice_index out.new k ≡ byte_after at n (slice_index out.old k) value
        k }
{
    for c in 0..n {
        out[at + c] = value;
    }
}

/// The weight of each pixel, once for each of its bytes.
pub(crate) fn spread(weights: &[u8], bpp: usize, out: &mut [u8])
    requires { length out.old ≡ length weights.now * bpp }
    ensures size { length out.new ≡ length out.old }
    ensures each { (k c : ℕ) → k < length weights.now → c < bpp → slice_index out.new (k * bpp + c)
        ≡ slice_index weights.now k }
{
    for k in 0..weights.len() {
        fill_part(out, k * bpp, bpp, weights[k]);
    }
}

/// Makes of each weight all or nothing, by the half.
pub(crate) fn threshold(weights: &mut [u8])
    ensures size { length weights.new ≡ length weights.old }
    ensures each { (k : ℕ) → k < length weights.old → slice_index weights.new k ≡ threshold
        (slice_index weights.old k) }
{
    for weight in weights.iter_mut() {
        *weight = if *weight < 128 { 0 } else { 255 };
    }
}
