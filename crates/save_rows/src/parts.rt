//! A file in parts: what is added to the draft, and what a failure at one of its pieces leaves.
use std::alloc::{AllocError, Global};
use std::sync::Arc;
use std::test::Fail;
use xl_bytes::{FileBytes, Part};
use xl_fakes::MemoryShelf;
use xl_ports::{Failed, Shelf};
use xl_save::save_parts;

// The calls of a save of two parts and the bytes behind them: the selection, the new draft, three pieces, the sync, the
// exchange and the settling.
const THREE_PIECES: u32 = 8;

// The call that adds the second part.
const SECOND_PART: u32 = 3;

// A part of so many bytes of one value.
fn part_of(alloc: Global, value: u8, len: usize) -> Result<Part, AllocError> {
    let shared = Arc::new(alloc, vec![in alloc; value; len]?)?;
    Part::of(&shared, 0, len)
}

// Two parts, and bytes of the file's own behind them.
fn two_parts(alloc: Global) -> Result<FileBytes, AllocError> {
    let mut file = FileBytes::new(alloc);
    file.append_part(alloc, part_of(alloc, 1, 600)?)?;
    file.append_part(alloc, part_of(alloc, 2, 700)?)?;
    file.append(alloc, b"tail")?;
    Ok(file)
}

// The same bytes in one run.
fn one_run(alloc: Global) -> Result<Vec<u8>, AllocError> {
    let mut bytes = vec![in alloc; 1; 600]?;
    bytes.resize(1300, 2)?;
    bytes.extend_from_slice(b"tail")?;
    Ok(bytes)
}

// Saves a file under a name.
fn save_under(shelf: &mut MemoryShelf, name: &str, file: &FileBytes) -> Result<(), Failed> {
    shelf.select(name)?;
    save_parts(file, shelf)
}

// Saves that file over the file f, where these calls fail: whether it says that it did, whether the file is then the
// new one or else the old one, and how many calls were made.
fn save_with(alloc: Global, fails: Vec<u32>) -> Result<(bool, bool, u32), AllocError> {
    let mut files = Vec::new(alloc);
    files.push((String::from_str(alloc, "f")?, b"old".to_vec(alloc)?))?;
    let mut shelf = MemoryShelf::new(alloc, files, fails, None)?;
    let file = two_parts(alloc)?;
    let new = one_run(alloc)?;
    let done = save_under(&mut shelf, "f", &file).is_ok();
    let left: &[u8] = if done { &new } else { b"old" };
    Ok((done, shelf.file("f") == Some(left), shelf.calls()))
}

#[test]
fn each_part_is_a_piece(rt: HostRuntime) -> Result<(), Fail> {
    let alloc = rt.alloc();
    assert_eq!(rt;
        save_with(alloc, Vec::new(alloc))?,
        (true, true, THREE_PIECES)
    );
    Ok(())
}

#[test]
fn a_part_that_fails_leaves_the_old_file(rt: HostRuntime) -> Result<(), Fail> {
    let alloc = rt.alloc();
    let fails = vec![in alloc; SECOND_PART]?;
    assert_eq!(rt; save_with(alloc, fails)?, (false, true, SECOND_PART + 1));
    Ok(())
}

#[test]
fn parts_that_follow_one_another_are_one(rt: HostRuntime) -> Result<(), Fail> {
    let alloc = rt.alloc();
    let shared = Arc::new(alloc, vec![in alloc; 7; 1400]?)?;
    let mut file = FileBytes::new(alloc);
    file.append_part(alloc, Part::of(&shared, 0, 600)?)?;
    file.append_part(alloc, Part::of(&shared, 600, 1400)?)?;
    assert_eq!(rt; file.parts().0.len(), 1);
    // other bytes
    file.append_part(alloc, part_of(alloc, 8, 600)?)?;
    assert_eq!(rt; file.parts().0.len(), 2);
    assert_eq!(rt; file.len(), 2000);
    Ok(())
}

#[test]
fn a_short_part_is_copied(rt: HostRuntime) -> Result<(), Fail> {
    let alloc = rt.alloc();
    let mut file = FileBytes::new(alloc);
    file.append_part(alloc, part_of(alloc, 7, 2)?)?;
    let (parts, own) = file.parts();
    assert!(rt; parts.is_empty());
    assert_eq!(rt; own, [7, 7].as_slice());
    Ok(())
}
