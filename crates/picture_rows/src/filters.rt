//! Filters and their chest.
ghost use Rattle.std.specs.Prelude.{◌≡◌, length, IfOk};

use std::alloc::{AllocError, Global};
use std::test::Fail;
use xl_filters::{Chest, Fade, Invert, PointFilter, Posterize, Threshold};

fn next_bytes<F: PointFilter>(filter: &mut F, byte: u8) -> [u8; 4] {
    let mut bytes = [0; 4];
    for place in &mut bytes {
        *place = filter.table().as_slice()[byte as usize];
    }
    bytes
}

/// A kind of filter that no use changes.
#[derive(Clone, Copy)]
enum Steady {
    Invert,
    Threshold,
    Posterize,
}

/// A kind, its amount, a byte, and what it makes of this byte each time.
const STEADY_BYTES: [(Steady, u8, u8, u8); 7] = [
    (Steady::Invert, 7, 55, 200),
    (Steady::Threshold, 128, 127, 0),
    (Steady::Threshold, 128, 128, 255),
    (Steady::Posterize, 4, 200, 170),
    (Steady::Posterize, 4, 42, 0),
    (Steady::Posterize, 0, 128, 255),
    (Steady::Posterize, 255, 77, 77),
];

fn steady_bytes(kind: Steady, amount: u8, byte: u8) -> [u8; 4] {
    match kind {
        Steady::Invert => next_bytes(&mut Invert::new(amount), byte),
        Steady::Threshold => next_bytes(&mut Threshold::new(amount), byte),
        Steady::Posterize => next_bytes(&mut Posterize::new(amount), byte),
    }
}

// The first of these, counted from 0, that makes something else at one of its uses.
fn first_made_otherwise() -> Option<usize> {
    for (i, row) in STEADY_BYTES.iter().enumerate() {
        if steady_bytes(row.0, row.1, row.2) != [row.3; 4] {
            return Some(i);
        }
    }
    None
}

#[test]
fn other_kinds_stay_the_same(rt: HostRuntime) {
    assert_eq!(rt; first_made_otherwise(), None);
}

#[test]
fn fade_lessens_more_with_each_use(rt: HostRuntime) {
    assert_eq!(rt; next_bytes(&mut Fade::new(100), 200), [200, 122, 43, 0]);
}

// The first two of the usual filters.
fn first_filters(alloc: Global) -> Result<Vec<Box<dyn PointFilter + Send>>, AllocError>
    ensures { IfOk result (λ boxes. length boxes.items ≡ 2) }
{
    let mut boxes: Vec<Box<dyn PointFilter + Send>> = Vec::new(alloc);
    boxes.push(Box::new(alloc, Invert::new(0))?)?;
    boxes.push(Box::new(alloc, Threshold::new(128))?)?;
    Ok(boxes)
}

fn usual_filters(alloc: Global) -> Result<Chest, AllocError> {
    let mut boxes = first_filters(alloc)?;
    boxes.push(Box::new(alloc, Posterize::new(4))?)?;
    boxes.push(Box::new(alloc, Fade::new(100))?)?;
    Ok(Chest::new(alloc, boxes)?)
}

fn slots(chest: &Chest) -> [bool; 5] {
    [
        chest.has(0),
        chest.has(1),
        chest.has(2),
        chest.has(3),
        chest.has(4),
    ]
}

// The byte that the filter in a slot makes, if there is one.
fn byte_by(chest: &mut Chest, slot: u32, byte: u8) -> Option<u8> {
    if chest.has(slot) {
        Some(chest.table(slot).as_slice()[byte as usize])
    } else {
        None
    }
}

// Whether there was a filter to forget.
fn forgets(chest: &mut Chest, slot: u32) -> bool {
    let is_there = chest.has(slot);
    if is_there {
        chest.forget(slot);
    }
    is_there
}

/// A slot of the usual filters, a byte, and what is made of it, one after another.
const USES: [(u32, u8, Option<u8>); 6] = [
    (0, 55, Some(200)),
    (1, 128, Some(255)),
    (2, 200, Some(170)),
    (3, 200, Some(200)),
    (3, 200, Some(122)),
    (4, 200, None),
];

/// The same with the second one forgotten behind the first use.
const FIRST_USE: [(u32, u8, Option<u8>); 1] = [(3, 200, Some(200))];

const LATER_USES: [(u32, u8, Option<u8>); 2] = [(1, 200, None), (3, 200, Some(122))];

// Whether uses make what they are to make.
fn are_made(chest: &mut Chest, uses: &[(u32, u8, Option<u8>)]) -> bool {
    for (slot, byte, made) in uses {
        if byte_by(chest, *slot, *byte) != *made {
            return false;
        }
    }
    true
}

// Whether each filter stands in its slot.
fn are_kept(chest: &mut Chest) -> bool {
    slots(chest) == [true, true, true, true, false] && are_made(chest, &USES)
}

// Whether a slot is empty once its filter is forgotten, and the others are as they were.
fn stays_empty(chest: &mut Chest) -> bool {
    let is_used = are_made(chest, &FIRST_USE);
    let is_forgotten = forgets(chest, 1);
    let is_forgotten_again = forgets(chest, 1);
    [is_used, is_forgotten, is_forgotten_again] == [true, true, false]
        && slots(chest) == [true, false, true, true, false]
        && are_made(chest, &LATER_USES)
}

fn usual_are_kept(alloc: Global) -> Result<bool, AllocError> {
    let mut chest = usual_filters(alloc)?;
    Ok(are_kept(&mut chest))
}

fn usual_stays_empty(alloc: Global) -> Result<bool, AllocError> {
    let mut chest = usual_filters(alloc)?;
    Ok(stays_empty(&mut chest))
}

#[test]
fn chest_keeps_each_filter_in_its_slot(rt: HostRuntime) -> Result<(), Fail> {
    assert!(rt; usual_are_kept(rt.alloc())?);
    assert!(rt; usual_stays_empty(rt.alloc())?);
    Ok(())
}
