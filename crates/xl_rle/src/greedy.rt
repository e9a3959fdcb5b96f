ghost use Rattle.std.specs.Prelude.{◌≡◌, ◌<◌, ◌≤◌, ◌++◌, length, OnOk, OnErr};
ghost use Rattle.spec_rle.specs.Codes.{code_bytes, short_literal};
ghost use Rattle.spec_rle.specs.Greedy as coder;
ghost use Rattle.xl_fields.specs.Behind.{BeginsWith};

use spec_rle::{LONG_LITERAL, LONG_RUN, MAX_SHORT};
use std::alloc::AllocError;

// Whether three equal bytes begin here.
fn begins_run(bytes: &[u8]) -> bool
    ensures { result ≡ coder.begins_run bytes.now }
{
    match bytes {
        [a, b, c, ..] => a == b && b == c,
        _ => false,
    }
}

// How many equal bytes begin here.
fn run_length(bytes: &[u8]) -> usize
    requires { 0 < length bytes.now }
    ensures value { result ≡ coder.run_length bytes.now }
    ensures within { result ≤ length bytes.now }
    ensures some { 0 < result }
{
    let first = bytes[0];
    let mut n = 1;
    while n < bytes.len() && bytes[n] == first {
        n += 1;
    }
    n
}

// How many bytes stand before the next three equal ones.
fn literal_length(bytes: &[u8]) -> usize
    ensures value { result ≡ length (coder.up_to_run bytes.now) }
    ensures within { result ≤ length bytes.now }
{
    let mut n = 0;
    while n < bytes.len() && !begins_run(&bytes[n..]) {
        n += 1;
    }
    n
}

// Appends the code of a run, in the short form where it fits.
fn push_run(out: &mut Vec<u8>, count: usize, value: u8) -> Result<(), AllocError>
    requires some { 0 < count }
    requires few { count ≤ 4096 }
    ensures ok { OnOk result (out.new.items ≡ out.old.items ++ code_bytes
        (coder.run_code count value)) }
    ensures err { OnErr result (out.new.items ≡ out.old.items) }
{
    if count <= MAX_SHORT as usize {
        out.extend_from_slice(&[(count - 1) as u8, value])
    } else {
        out.extend_from_slice(&[LONG_RUN, (count / 256) as u8, (count % 256) as u8, value])
    }
}

// Appends the code of literal bytes, in the short form where they fit.
fn push_literal(out: &mut Vec<u8>, bytes: &[u8]) -> Result<(), AllocError>
    requires some { 0 < length bytes.now }
    requires few { length bytes.now ≤ 4096 }
    ensures ok { OnOk result (out.new.items ≡ out.old.items ++ code_bytes
        (coder.literal_code bytes.now)) }
    ensures front { BeginsWith out.new.items out.old.items }
{
    let count = bytes.len();
    if count <= MAX_SHORT as usize {
        out.extend_from_slice(&[(256 - count) as u8])?;
    } else {
        out.extend_from_slice(&[LONG_LITERAL, (count / 256) as u8, (count % 256) as u8])?;
    }
    out.extend_from_slice(bytes)
}

// Out of memory, some of the codes may stand behind what was there.
fn append_codes(plane: &[u8], out: &mut Vec<u8>) -> Result<(), AllocError>
    requires { length plane.now ≤ 4096 }
    ensures whole { OnOk result (out.new.items ≡ out.old.items ++ coder.greedy plane.now) }
    ensures front { BeginsWith out.new.items out.old.items }
{
    let mut at = 0;
    while at < plane.len() {
        let rest = &plane[at..];
        if begins_run(rest) {
            let count = run_length(rest);
            push_run(out, count, rest[0])?;
            at += count;
        } else {
            let count = literal_length(rest);
            push_literal(out, &rest[..count])?;
            at += count;
        }
    }
    Ok(())
}

/// Appends the spelling that takes each run of three or more bytes whole, and what lies between as it is.
///
/// Out of memory, `out` is as before.
pub fn encode_greedy(plane: &[u8], out: &mut Vec<u8>) -> Result<(), AllocError>
    requires { length plane.now ≤ 4096 }
    ensures ok { OnOk result (out.new.items ≡ out.old.items ++ coder.greedy plane.now) }
    ensures err { OnErr result (out.new.items ≡ out.old.items) }
{
    let before = out.len();
    let put = append_codes(plane, out);
    if put.is_err() {
        out.truncate(before);
    }
    put
}
