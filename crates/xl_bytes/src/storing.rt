//! What the bytes of a file stand in: parts, and bytes of its own behind the last of them.
ghost use Rattle.std.specs.Prelude.{◌≡◌, ◌+◌, ◌-◌, ◌++◌, [], length, take, drop, IfOk, OnOk, OnErr, true, false};
ghost use Rattle.std.specs.List.{concat};

use crate::part::Part;
use std::alloc::{AllocError, Global};
use std::sync::Arc;

/// A length that has grown. It fails where no memory has so many bytes.
pub fn longer(len: usize, more: usize) -> Result<usize, AllocError>
    ensures { IfOk result (λ sum. sum ≡ len + more) }
{
    match len.checked_add(more) {
        Some(sum) => Ok(sum),
        None => Err(AllocError),
    }
}

// All of these bytes as a part. Out of memory they are handed back.
fn part_of(alloc: Global, own: &mut Vec<u8>) -> Result<Part, AllocError>
    ensures ok { IfOk result (λ part. part ≡ own.old.items) }
    ensures empty { OnOk result (own.new.items ≡ []) }
    ensures err { OnErr result (own.new.items ≡ own.old.items) }
{
    let bytes = std::mem::replace(own, Vec::new(alloc));
    match Arc::new(alloc, bytes) {
        Ok(shared) => Ok(Part::whole(shared)),
        Err(failed) => {
            *own = failed.value;
            Err(AllocError)
        }
    }
}

/// Makes a part of the bytes that stand behind the parts, if there are any.
pub fn close(alloc: Global, parts: &mut Vec<Part>, own: &mut Vec<u8>) -> Result<(), AllocError>
    ensures ok { OnOk result (concat parts.new.items ≡ concat parts.old.items ++ own.old.items) }
    ensures empty { OnOk result (own.new.items ≡ []) }
    ensures err { OnErr result (parts.new.items ≡ parts.old.items) }
    ensures own_err { OnErr result (own.new.items ≡ own.old.items) }
{
    if own.is_empty() {
        return Ok(());
    }
    parts.reserve(1)?;
    let part = part_of(alloc, own)?;
    parts.push_reserved(part);
    Ok(())
}

// Whether the last part takes these bytes too, since they stand behind it.
fn taken_by_last(parts: &mut [Part], next: &Part) -> bool
    ensures joined { result ≡ true → concat parts.new ≡ concat parts.old ++ next.now }
    ensures apart { result ≡ false → parts.new ≡ parts.old }
{
    let count = parts.len();
    if count == 0 {
        return false;
    }
    let last = &mut parts[count - 1];
    last.take_next(next.as_slice())
}

/// Appends a part, to the last one where that goes on with it.
pub fn put_part(parts: &mut Vec<Part>, part: Part) -> Result<(), AllocError>
    ensures ok { OnOk result (concat parts.new.items ≡ concat parts.old.items ++ part) }
    ensures err { OnErr result (parts.new.items ≡ parts.old.items) }
{
    if taken_by_last(parts.as_mut_slice(), &part) {
        return Ok(());
    }
    parts.push(part)?;
    Ok(())
}

// Appends the bytes of the parts. Out of memory, some may stand behind what was there.
fn append_parts(parts: &[Part], out: &mut Vec<u8>) -> Result<(), AllocError>
    ensures ok { OnOk result (out.new.items ≡ out.old.items ++ concat parts.now) }
    ensures front { take (length out.old.items) out.new.items ≡ out.old.items }
{
    for part in parts {
        out.extend_from_slice(part.as_slice())?;
    }
    Ok(())
}

/// Appends the bytes of the parts, and those behind them. Out of memory, some may stand behind what was there.
pub fn append_bytes(parts: &[Part], own: &[u8], out: &mut Vec<u8>) -> Result<(), AllocError>
    ensures ok { OnOk result (out.new.items ≡ out.old.items ++ (concat parts.now ++ own.now)) }
    ensures front { take (length out.old.items) out.new.items ≡ out.old.items }
{
    append_parts(parts, out)?;
    out.extend_from_slice(own)
}

// Leaves out the first bytes of a part, and answers how many more are to be left out.
fn skip_in(part: &mut Part, n: usize) -> usize
    ensures left { part.new ≡ drop n part.old }
    ensures rest { result ≡ n - length part.old }
{
    let here = n.min(part.len());
    part.skip(here);
    n - here
}

/// Leaves out the first bytes of the parts, and answers how many more are to be left out.
pub fn skip_parts(parts: &mut [Part], n: usize) -> usize
    ensures left { concat parts.new ≡ drop n (concat parts.old) }
    ensures rest { result ≡ n - length (concat parts.old) }
{
    let mut left = n;
    for k in 0..parts.len() {
        let part = &mut parts[k];
        left = skip_in(part, left);
    }
    left
}

/// Leaves out the first bytes.
pub fn skip_own(own: &mut Vec<u8>, n: usize)
    ensures { own.new.items ≡ drop n own.old.items }
{
    let here = n.min(own.len());
    own.rotate_left(here);
    own.truncate(own.len() - here);
}
