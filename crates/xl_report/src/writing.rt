//! The picture of a document, written as a PAM.
ghost use Rattle.std.specs.Prelude.{◌≡◌, ℕ, ◌-◌, ◌<◌, ◌≤◌, length, IfOk, string_bytes, slice_index_or};
ghost use Rattle.spec_document.specs.Picture.{picture_bytes};
ghost use Rattle.spec_report.specs.Pam.{pam as pam_of, pam_head};
ghost use Rattle.xl_ports.specs.Sink.{Writes};
ghost use Rattle.xl_report.specs.Bands.{row_of, HasRoom, IsBand};
ghost use Rattle.xl_report.specs.Written.{WritesText};

use crate::fault::PamFaultOrMemory;
use crate::lanes::{Lane, compose_lanes, new_lanes, row_at};
use rayon::current_num_threads;
use std::alloc::{AllocError, Global};
use std::thread::Threads;
use xl_doc::Document;
use xl_grid::MAX_SIDE;
use xl_ports::{Failed, Sink, write_all};

/// How many pixels the rows of all lanes together have at most, one row of each, unless there is one lane alone.
const MOST_PIXELS: u32 = 49_152;

// The head of a PAM of these sides.
fn head(alloc: Global, width: u32, height: u32) -> Result<String, AllocError>
    ensures { IfOk result (λ text. string_bytes text ≡ pam_head width height) }
{
    let mut text = String::new(alloc);
    text.push_str("P7\nWIDTH ")?;
    text.push_str(width.to_string(alloc)?.as_str())?;
    text.push_str("\nHEIGHT ")?;
    text.push_str(height.to_string(alloc)?.as_str())?;
    text.push_str("\nDEPTH 4\nMAXVAL 255\nTUPLTYPE RGB_ALPHA\nENDHDR\n")?;
    Ok(text)
}

// How many bands are composed beside one another: one for each processor, 32 at most, at most one more than the picture
// has, and as far as their rows have `MOST_PIXELS` at most; but one at least.
fn lanes_for(threads: usize, width: u32, height: u32) -> usize
    ensures some { 1 ≤ result }
    ensures few { result ≤ 32 }
{
    let by_room = MOST_PIXELS / width.max(1);
    let bands = height / 64 + 1;
    threads.min(by_room.min(bands) as usize).clamp(1, 32)
}

// Writes the bands that were composed, one after another.
fn write_lanes<K: Sink>(
    doc: &Document,
    first: u32,
    lanes: &[Lane],
    sink: &mut K,
) -> Result<(), Failed>
    requires first { first ≤ doc.now.height }
    requires bands { (k : ℕ) (d : _) → k < length lanes.now
        → IsBand doc.now first k (slice_index_or lanes.now k d).composer
        (slice_index_or lanes.now k d).used (slice_index_or lanes.now k d).bytes.items }
    ensures { Writes K.held K.faults sink.old sink.new
        (picture_bytes doc.now 0 0 first doc.now.width
        (row_of doc.now.height first (length lanes.now) - first)) result }
{
    for place in 0..lanes.len() {
        write_all(sink, lanes[place].band())?;
    }
    Ok(())
}

// Writes the rows of the picture: some bands beside one another, and then those after them.
fn write_rows<R: Threads + Sync, K: Sink>(
    rt: &R,
    doc: &Document,
    lanes: &mut [Lane],
    sink: &mut K,
) -> Result<(), Failed>
    requires some { 1 ≤ length lanes.old }
    requires few { length lanes.old ≤ 32 }
    requires room { (k : ℕ) (d : _) → k < length lanes.old
        → HasRoom doc.now (slice_index_or lanes.old k d).composer
        (slice_index_or lanes.old k d).bytes.items }
    ensures { Writes K.held K.faults sink.old sink.new (picture_bytes doc.now 0 0 0 doc.now.width
        doc.now.height) result }
{
    prove!(doc.height <= MAX_SIDE);
    let mut y = 0;
    while y < doc.height {
        compose_lanes(rt, doc, y, lanes);
        write_lanes(doc, y, lanes, sink)?;
        y = row_at(doc.height, y, lanes.len() as u32);
    }
    Ok(())
}

/// Writes the picture of a document as a PAM: a head of lines, and then RGBA bytes, row by row.
///
/// All memory is taken before the first byte is written. A band is a row of tiles, so that each tile is unpacked once;
/// as many bands as there are processors, 32 at most and fewer where rows are long, are composed beside one another,
/// each in a thread where one can be made. Where the sink fails, a front of the PAM was written.
pub fn pam<R: Threads + Sync, K: Sink>(
    rt: &R,
    alloc: Global,
    doc: &Document,
    sink: &mut K,
) -> Result<(), PamFaultOrMemory>
    ensures { WritesText K.held K.faults sink.old sink.new (pam_of doc.now) result }
{
    let head = head(alloc, doc.width, doc.height)?;
    let count = lanes_for(current_num_threads(rt), doc.width, doc.height);
    let mut lanes = new_lanes(alloc, doc, count)?;
    write_all(sink, head.as_bytes())?;
    write_rows(rt, doc, lanes.as_mut_slice(), sink)?;
    Ok(())
}
