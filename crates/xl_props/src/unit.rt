ghost use Rattle.std.specs.Prelude.{◌≡◌, ◌+◌, ◌*◌, ◌≤◌, length, IfOk};
ghost use Rattle.spec_document.specs.declared.TheConstants.{MAX_PAYLOAD};
ghost use Rattle.spec_props.specs.Unit.{names_end, named_end, unit_length};

use xl_fields::{Kind, ReadRefused, refuse, string_at};

/// The offset behind four names.
#[tactic(auto, unfolding(spec_props::specs::Unit::names_end))]
fn four_names_end(bytes: &[u8], at: usize) -> Result<usize, ReadRefused>
    ensures read { result ≡ names_end 4 bytes.now at }
    ensures after { IfOk result (λ end. (at ≤ end) × (end ≤ at + 4 * 4101)) }
    ensures inside { IfOk result (λ end. end ≤ length bytes.now) }
{
    let second = string_at(bytes, at)?.next;
    let third = string_at(bytes, second)?.next;
    let fourth = string_at(bytes, third)?.next;
    Ok(string_at(bytes, fourth)?.next)
}

/// The end of a unit at an offset by its five names, where `n` is the wrong length word that its first name makes.
#[tactic(auto, unfolding(spec_props::specs::Unit::named_end))]
fn end_by_names(bytes: &[u8], at: usize, n: usize) -> Result<usize, ReadRefused>
    requires place { at ≤ length bytes.now }
    ensures read { result ≡ named_end bytes.now at n }
    ensures after { IfOk result (λ end. (at + 12 ≤ end) × (end ≤ at + 8 + 5 * 4101)) }
    ensures inside { IfOk result (λ end. end ≤ length bytes.now) }
{
    let first = string_at(bytes, at + 8)?;
    if n != first.len + 5 {
        return Err(refuse(Kind::BadProperty, at));
    }
    four_names_end(bytes, first.next)
}

/// How many bytes a unit at an offset has, where `n` is its length word.
pub fn unit_len(bytes: &[u8], at: usize, n: usize) -> usize
    requires place { at ≤ length bytes.now }
    requires length_word { n ≤ MAX_PAYLOAD }
    ensures read { result ≡ unit_length bytes.now at n }
    ensures few { result ≤ MAX_PAYLOAD }
{
    match end_by_names(bytes, at, n) {
        Ok(end) => end - at,
        Err(_) => n,
    }
}
