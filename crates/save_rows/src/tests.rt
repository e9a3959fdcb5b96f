use std::alloc::{AllocError, Global};
use std::test::Fail;
use xl_fakes::MemoryShelf;
use xl_ports::{Failed, Shelf};
use xl_save::save;

// What a crash may leave under f where all calls from this one on fail: first what a read gives, with a bar behind
// each. The file was old, and is saved as one and then as two.
const LEFT_BY_STOP: [(u32, &str); 12] = [
    // the selection
    (0, "old|"),
    // the new draft, its bytes, its sync, and the exchange
    (1, "old|"),
    (2, "old|"),
    (3, "old|"),
    (4, "old|"),
    // the settling
    (5, "one|old|"),
    // the same calls of the second save
    (6, "one|"),
    (7, "one|"),
    (8, "one|"),
    (9, "one|"),
    (10, "two|one|"),
    // no call
    (11, "two|"),
];

// The same where this call of the first save fails, and no other, and there is no second save.
const LEFT_BY_FAILURE: [(u32, &str); 5] = [
    (1, "old|"),
    (2, "old|"),
    (3, "old|"),
    // the exchange: it may have been done, but is not read
    (4, "old|one|"),
    (5, "one|old|"),
];

// The calls up to the end of a save of few bytes: the selection, and five.
const ONE_SAVE: u32 = 6;

// The call that syncs the draft, and the one that exchanges it.
const SYNC: u32 = 3;

const EXCHANGE: u32 = 4;

// A shelf with the file f.
fn shelf_with(
    alloc: Global,
    fails: Vec<u32>,
    stop: Option<u32>,
) -> Result<MemoryShelf, AllocError> {
    let mut files = Vec::new(alloc);
    files.push((String::from_str(alloc, "f")?, b"old".to_vec(alloc)?))?;
    MemoryShelf::new(alloc, files, fails, stop)
}

// What a crash may leave under f, with a bar behind each.
fn all_left(alloc: Global, shelf: &MemoryShelf) -> Result<Vec<u8>, AllocError> {
    let mut text = Vec::new(alloc);
    for content in shelf.leaves("f") {
        match content {
            Some(bytes) => text.extend_from_slice(bytes)?,
            None => text.extend_from_slice(b"none")?,
        }
        text.push(b'|')?;
    }
    Ok(text)
}

// Saves these bytes under a name.
fn save_under(shelf: &mut MemoryShelf, name: &str, bytes: &[u8]) -> Result<(), Failed> {
    shelf.select(name)?;
    save(bytes, shelf)
}

// Saves twice under f, the second time where the first went well.
fn save_twice(shelf: &mut MemoryShelf) -> Result<(), Failed> {
    shelf.select("f")?;
    save(b"one", shelf)?;
    save(b"two", shelf)
}

// Whether the file of a name has these bytes.
fn is_file(shelf: &MemoryShelf, name: &str, bytes: &[u8]) -> bool {
    shelf.file(name) == Some(bytes)
}

// What a crash may leave after two saves with a stop, and whether all calls were made.
fn left_by_stop(alloc: Global, stop: Option<u32>) -> Result<(Vec<u8>, bool), AllocError> {
    let mut shelf = shelf_with(alloc, Vec::new(alloc), stop)?;
    let done = save_twice(&mut shelf).is_ok();
    Ok((all_left(alloc, &shelf)?, done))
}

// What a crash may leave after a save of which one call fails, how many calls it made, and how many found no memory.
fn left_by_failure(alloc: Global, failing: u32) -> Result<(Vec<u8>, u32, u64), AllocError> {
    let mut shelf = shelf_with(alloc, vec![in alloc; failing]?, None)?;
    let _ = save_under(&mut shelf, "f", b"one");
    Ok((all_left(alloc, &shelf)?, shelf.calls(), shelf.starved()))
}

#[test]
fn a_stop_leaves_what_was_acknowledged_and_what_was_exchanged(rt: HostRuntime) -> Result<(), Fail> {
    let alloc = rt.alloc();
    for row in LEFT_BY_STOP.iter() {
        let (left, done) = left_by_stop(alloc, Some(row.0))?;
        assert_eq!(rt; left.as_slice(), row.1.as_bytes());
        assert_eq!(rt; done, row.0 == 11);
    }
    let (left, done) = left_by_stop(alloc, None)?;
    assert_eq!(rt; left.as_slice(), b"two|".as_slice());
    assert!(rt; done);
    Ok(())
}

#[test]
fn a_failed_call_fails_the_save_at_once(rt: HostRuntime) -> Result<(), Fail> {
    let alloc = rt.alloc();
    for row in LEFT_BY_FAILURE.iter() {
        let (left, calls, starved) = left_by_failure(alloc, row.0)?;
        assert_eq!(rt; left.as_slice(), row.1.as_bytes());
        assert!(rt; calls.checked_sub(row.0) == Some(1));
        assert_eq!(rt; starved, 0);
    }
    Ok(())
}

#[test]
fn a_save_after_a_failed_exchange_leaves_itself_alone(rt: HostRuntime) -> Result<(), Fail> {
    let alloc = rt.alloc();
    let mut shelf = shelf_with(alloc, vec![in alloc; EXCHANGE]?, None)?;
    assert!(rt; save_under(&mut shelf, "f", b"new").is_err());
    assert!(rt; is_file(&shelf, "f", b"old"));
    assert!(rt; save_under(&mut shelf, "f", b"newer").is_ok());
    assert_eq!(rt; all_left(alloc, &shelf)?.as_slice(), b"newer|".as_slice());
    Ok(())
}

#[test]
fn a_failed_sync_leaves_the_file_and_a_later_save_works(rt: HostRuntime) -> Result<(), Fail> {
    let alloc = rt.alloc();
    let mut shelf = shelf_with(alloc, vec![in alloc; SYNC]?, None)?;
    assert!(rt; save_under(&mut shelf, "f", b"new").is_err());
    assert!(rt; is_file(&shelf, "f", b"old"));
    assert!(rt; save_under(&mut shelf, "f", b"newer").is_ok());
    assert!(rt; is_file(&shelf, "f", b"newer"));
    Ok(())
}

#[test]
fn a_file_is_saved_where_there_was_none(rt: HostRuntime) -> Result<(), Fail> {
    let alloc = rt.alloc();
    let mut shelf = shelf_with(alloc, Vec::new(alloc), None)?;
    assert!(rt; save_under(&mut shelf, "g", b"").is_ok());
    assert!(rt; is_file(&shelf, "g", b""));
    assert!(rt; is_file(&shelf, "f", b"old"));
    // Of no bytes there is no piece.
    assert_eq!(rt; shelf.calls(), ONE_SAVE - 1);
    Ok(())
}

#[test]
fn many_bytes_are_saved_in_pieces(rt: HostRuntime) -> Result<(), Fail> {
    let alloc = rt.alloc();
    let mut bytes = Vec::new(alloc);
    bytes.resize(150_000, 7)?;
    let mut shelf = shelf_with(alloc, Vec::new(alloc), None)?;
    assert!(rt; save_under(&mut shelf, "f", &bytes).is_ok());
    assert!(rt; is_file(&shelf, "f", &bytes));
    // three pieces in place of one
    assert_eq!(rt; shelf.calls(), ONE_SAVE + 2);
    Ok(())
}
