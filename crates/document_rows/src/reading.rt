//! A file whose tiles are read in threads.
use std::alloc::{AllocError, Global};
use std::sync::Arc;
use std::test::Fail;
use std::thread::Threads;
use xl_doc::Document;
use xl_read::{FILE_LIMIT, Kind, ReadRefused, ReadRefusedOrMemory, decode, decode_beside};

/// A grey canvas of 1024 by 1024 pixels without layers, in runs, and its one channel: all that stands before the
/// pointers to the 256 tiles of the channel.
const FRONT: [u8; 107] = [
    103, 105, 109, 112, 32, 120, 99, 102, 32, 102, 105, 108, 101, 0, 0, 0, 4, 0, 0, 0, 4, 0, 0, 0,
    0, 1, 0, 0, 0, 17, 0, 0, 0, 1, 1, 0, 0, 0, 0, 0, 0, 0, 0, 0, 0, 0, 0, 0, 0, 0, 55, 0, 0, 0, 0,
    0, 0, 4, 0, 0, 0, 4, 0, 0, 0, 0, 0, 0, 0, 0, 0, 0, 0, 0, 0, 0, 0, 0, 79, 0, 0, 4, 0, 0, 0, 4,
    0, 0, 0, 0, 1, 0, 0, 0, 99, 0, 0, 0, 0, 0, 0, 4, 0, 0, 0, 4, 0,
];

/// Where the codes of the tiles begin, behind the pointers and a zero. Each tile has one code of four bytes.
const CODES: u32 = 1135;

fn add_pointers(file: &mut Vec<u8>) -> Result<(), AllocError> {
    for tile in 0..256u32 {
        file.extend_from_slice(&(CODES + 4 * tile).to_be_bytes())?;
    }
    file.extend_from_slice(&[0; 4])
}

// A run of 4096 bytes for each tile, of the tile's number.
fn add_codes(file: &mut Vec<u8>) -> Result<(), AllocError> {
    for tile in 0..=255u8 {
        file.extend_from_slice(&[127, 16, 0, tile])?;
    }
    Ok(())
}

fn numbered_tiles(alloc: Global) -> Result<Vec<u8>, AllocError> {
    let mut file = FRONT.as_slice().to_vec(alloc)?;
    add_pointers(&mut file)?;
    add_codes(&mut file)?;
    Ok(file)
}

// Makes the run of a tile longer than the tile.
fn damage(file: &mut Vec<u8>, tile: u32) {
    let place = CODES as usize + 4 * tile as usize + 1;
    if let Some(byte) = file.as_mut_slice().get_mut(place) {
        *byte = 17;
    }
}

fn read_beside<R: Threads + Sync>(
    rt: &R,
    alloc: Global,
    bytes: Vec<u8>,
) -> Result<Document, ReadRefusedOrMemory> {
    if bytes.len() > FILE_LIMIT {
        return Err(ReadRefusedOrMemory::Memory);
    }
    let file = Arc::new(alloc, bytes)?;
    decode_beside(rt, alloc, &file)
}

fn read_alone(alloc: Global, bytes: Vec<u8>) -> Result<Document, ReadRefusedOrMemory> {
    if bytes.len() > FILE_LIMIT {
        return Err(ReadRefusedOrMemory::Memory);
    }
    let file = Arc::new(alloc, bytes)?;
    decode(alloc, &file)
}

// The first byte of a tile of the channel.
fn byte_of(document: &Document, col: u8, row: u8) -> Option<u8> {
    let channel = document.channels.as_slice().first()?;
    let plane = &channel.plane;
    let x = 64 * u32::from(col);
    let y = 64 * u32::from(row);
    if x < plane.width() && y < plane.height() && plane.bpp() == 1 {
        Some(plane.get(x, y, 0))
    } else {
        None
    }
}

// Whether each tile of the channel has its number.
fn is_numbered(document: &Document) -> bool {
    for tile in 0..=255u8 {
        if byte_of(document, tile % 16, tile / 16) != Some(tile) {
            return false;
        }
    }
    true
}

fn has_numbers(answer: Result<Document, ReadRefusedOrMemory>) -> bool {
    match answer {
        Ok(document) => is_numbered(&document),
        Err(_) => false,
    }
}

// Where a run is refused.
fn bad_run(answer: Result<Document, ReadRefusedOrMemory>) -> Option<u64> {
    match answer {
        Err(
            ReadRefusedOrMemory::Refused(
                ReadRefused {
                    kind: Kind::BadRun,
                    at,
                    value: _,
                },
            ),
        ) => Some(at),
        _ => None,
    }
}

// Whether each tile is read in its place, alone and in threads.
fn are_numbered<R: Threads + Sync>(rt: &R, alloc: Global) -> Result<[bool; 2], AllocError> {
    let file = numbered_tiles(alloc)?;
    let copy = file.as_slice().to_vec(alloc)?;
    let alone = has_numbers(read_alone(alloc, copy));
    Ok([alone, has_numbers(read_beside(rt, alloc, file))])
}

fn damaged_tiles(alloc: Global) -> Result<Vec<u8>, AllocError> {
    let mut file = numbered_tiles(alloc)?;
    damage(&mut file, 200);
    damage(&mut file, 70);
    Ok(file)
}

// Which of two bad runs is told, alone and in threads.
fn bad_runs<R: Threads + Sync>(rt: &R, alloc: Global) -> Result<[Option<u64>; 2], AllocError> {
    let file = damaged_tiles(alloc)?;
    let copy = file.as_slice().to_vec(alloc)?;
    let alone = bad_run(read_alone(alloc, copy));
    Ok([alone, bad_run(read_beside(rt, alloc, file))])
}

#[test]
fn each_tile_is_read_in_its_place(rt: HostRuntime) -> Result<(), Fail> {
    assert_eq!(rt; are_numbered(&rt, rt.alloc())?, [true; 2]);
    Ok(())
}

#[test]
fn the_first_of_two_bad_runs_is_told(rt: HostRuntime) -> Result<(), Fail> {
    assert_eq!(rt; bad_runs(&rt, rt.alloc())?, [Some(1415); 2]);
    Ok(())
}
