//! Bands of a picture that are composed beside one another.
ghost use Rattle.std.specs.Prelude.{◌≡◌, ◌+◌, ◌*◌, ◌<◌, ◌≤◌, ℕ, length, take, IfOk, slice_index_or};
ghost use Rattle.spec_document.specs.Picture.{picture_bytes};
ghost use Rattle.xl_compose.specs.Depth.{levels_below};
ghost use Rattle.xl_report.specs.Bands.{row_of, HasRoom, IsBand};

use rayon::prelude::*;
use std::alloc::{AllocError, Global};
use std::marker::Brand;
use std::sync::ledger::{Blank, Ledger};
use std::thread::Threads;
use xl_blend::Steps;
use xl_compose::Composer;
use xl_doc::{Document, NodeId, Rect};
use xl_grid::MAX_SIDE;

/// Room for a band of 64 rows: what composes it, and its bytes, of which the first so many are used.
#[derive(Drop)]
pub struct Lane {
    pub(crate) composer: Composer,
    pub(crate) bytes: Vec<u8>,
    pub(crate) used: usize,
}

/// The row at which the band of a place begins, where the first one begins at `first`; behind the last row it is the
/// height.
pub fn row_at(height: u32, first: u32, place: u32) -> u32
    requires low { first ≤ MAX_SIDE }
    requires few { place ≤ 64 }
    ensures { result ≡ row_of height first place }
{
    height.min(first + 64 * place)
}

// Composes rows into a picture's bytes, with a counter of steps of its own.
fn compose_rows<L: Ledger>(
    doc: &Document,
    composer: &mut Composer,
    y: u32,
    h: u32,
    out: &mut [u8],
    blank: Blank,
)
    requires name { blank.name ≡ L.name }
    requires parts { blank.parts ≡ L.parts }
    requires some { 0 < blank.parts }
    requires wide { doc.now.width ≤ composer.old.width }
    requires deep { levels_below doc.now 0 ≤ composer.old.levels }
    requires inside { y + h ≤ doc.now.height }
    requires out { length out.old ≡ 4 * (doc.now.width * h) }
    ensures same { composer.new ≡ composer.old }
    ensures picture { out.new ≡ picture_bytes doc.now 0 0 y doc.now.width h }
{
    prove!(doc.height <= MAX_SIDE);
    let mut steps = Steps::<L>::new(blank);
    let rect = Rect {
        x: 0,
        y: y as i32,
        w: doc.width,
        h,
    };
    composer.compose(doc, NodeId(0), rect, out, &mut steps);
}

// Composes rows into the front of the room, and answers how many bytes they are.
fn compose_front(doc: &Document, composer: &mut Composer, y: u32, h: u32, room: &mut [u8]) -> usize
    requires wide { doc.now.width ≤ composer.old.width }
    requires deep { levels_below doc.now 0 ≤ composer.old.levels }
    requires inside { y + h ≤ doc.now.height }
    requires few { h ≤ 64 }
    requires room { length room.old ≡ 4 * (doc.now.width * 64) }
    ensures same { composer.new ≡ composer.old }
    ensures length { length room.new ≡ length room.old }
    ensures used { result ≤ length room.new }
    ensures picture { take result room.new ≡ picture_bytes doc.now 0 0 y doc.now.width h }
{
    let used = 4 * (doc.width as usize * h as usize);
    compose_rows::<Brand>(doc, composer, y, h, &mut room[..used], Blank::new(1));
    used
}

impl Lane {
    /// Room for a band of the picture of a document.
    pub fn new(alloc: Global, doc: &Document) -> Result<Lane, AllocError>
        ensures { IfOk result (λ lane. HasRoom doc.now lane.composer lane.bytes.items) }
    {
        Ok(Lane {
            composer: Composer::new(alloc, doc, NodeId(0), doc.width)?,
            bytes: vec![in alloc; 0; 4 * (doc.width as usize * 64)]?,
            used: 0,
        })
    }

    /// Composes the band of a place. Behind the last row it is empty.
    pub fn compose(&mut self, doc: &Document, first: u32, place: u32)
        requires first { first ≤ doc.now.height }
        requires few { place < 64 }
        requires room { HasRoom doc.now self.old.composer self.old.bytes.items }
        ensures { IsBand doc.now first place self.new.composer self.new.used self.new.bytes.items }
    {
        prove!(doc.height <= MAX_SIDE);
        let y = row_at(doc.height, first, place);
        let h = row_at(doc.height, first, place + 1) - y;
        let room = self.bytes.as_mut_slice();
        self.used = compose_front(doc, &mut self.composer, y, h, room);
    }

    /// The bytes of the band.
    pub fn band(&self) -> &[u8]
        requires { self.now.used ≤ length self.now.bytes.items }
        ensures { result.now ≡ take self.now.used self.now.bytes.items }
    {
        &self.bytes[..self.used]
    }
}

/// Room for so many bands of the picture of a document, or for as many as there is memory for. Out of memory only where
/// there is none for one.
pub fn new_lanes(alloc: Global, doc: &Document, count: usize) -> Result<Vec<Lane>, AllocError>
    requires some { 1 ≤ count }
    requires few { count ≤ 32 }
    ensures some { IfOk result (λ lanes. 1 ≤ length lanes.items) }
    ensures few { IfOk result (λ lanes. length lanes.items ≤ 32) }
    ensures room { IfOk result (λ lanes. (k : ℕ) (d : _) → k < length lanes.items
        → HasRoom doc.now (slice_index_or lanes.items k d).composer
        (slice_index_or lanes.items k d).bytes.items) }
{
    let mut lanes = Vec::with_capacity(alloc, count)?;
    let first = Lane::new(alloc, doc)?;
    lanes.push_reserved(first);
    while lanes.len() < count {
        match Lane::new(alloc, doc) {
            Ok(lane) => lanes.push_reserved(lane),
            Err(_) => return Ok(lanes),
        }
    }
    Ok(lanes)
}

/// Composes the bands from a row on beside one another, one in each lane, each in a thread where one can be made.
pub fn compose_lanes<R: Threads + Sync>(rt: &R, doc: &Document, first: u32, lanes: &mut [Lane])
    requires first { first ≤ doc.now.height }
    requires few { length lanes.old ≤ 32 }
    requires room { (k : ℕ) (d : _) → k < length lanes.old
        → HasRoom doc.now (slice_index_or lanes.old k d).composer
        (slice_index_or lanes.old k d).bytes.items }
    ensures length { length lanes.new ≡ length lanes.old }
    ensures bands { (k : ℕ) (d : _) → k < length lanes.old
        → IsBand doc.now first k (slice_index_or lanes.new k d).composer
        (slice_index_or lanes.new k d).used (slice_index_or lanes.new k d).bytes.items }
{
    par_for_each_mut(
        rt,
        lanes,
        |place: usize, lane: &mut Lane|
            requires { (first ≤ doc.now.height) × (place < 64) × HasRoom doc.now lane.old.composer
                lane.old.bytes.items }
            ensures { IsBand doc.entry.now first place lane.new.composer lane.new.used
                lane.new.bytes.items }
        { lane.compose(doc, first, place as u32) },
    );
}
