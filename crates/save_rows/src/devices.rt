//! Sources, sinks, shelves and gates in memory.
ghost use Rattle.std.specs.Prelude.{◌<◌};

use std::alloc::{AllocError, Global};
use std::test::Fail;
use xl_fakes::{Hold, HoldGate, MemoryShelf, MemorySink, MemorySource};
use xl_ports::{Actor, Failed, FailedOrMemory, Gate, Place, Shelf, load_all, read_all, write_all};

#[test]
fn all_is_written(rt: HostRuntime) -> Result<(), Fail> {
    let alloc = rt.alloc();
    let mut sink = MemorySink::new(alloc, 2, Vec::new(alloc));
    write_all(&mut sink, b"abcde")?;
    assert_eq!(rt; sink.held(), b"abcde".as_slice());
    Ok(())
}

#[test]
fn a_failed_write_leaves_the_front(rt: HostRuntime) -> Result<(), Fail> {
    let alloc = rt.alloc();
    let mut sink = MemorySink::new(alloc, 2, vec![in alloc; 1]?);
    assert_eq!(rt; write_all(&mut sink, b"abcde"), Err(Failed));
    assert_eq!(rt; sink.held(), b"ab".as_slice());
    Ok(())
}

#[test]
fn all_is_read_up_to_the_limit(rt: HostRuntime) -> Result<(), Fail> {
    let alloc = rt.alloc();
    let mut source = MemorySource::new(b"hello".to_vec(alloc)?, 3, Vec::new(alloc));
    assert_eq!(rt;
        read_all(alloc, &mut source, 4)?.as_slice(),
        b"hell".as_slice()
    );
    assert_eq!(rt;
        read_all(alloc, &mut source, 4)?.as_slice(),
        b"o".as_slice()
    );
    Ok(())
}

// A shelf with the file a.
fn shelf_with(
    alloc: Global,
    fails: Vec<u32>,
    stop: Option<u32>,
) -> Result<MemoryShelf, AllocError> {
    let mut files = Vec::new(alloc);
    files.push((String::from_str(alloc, "a")?, b"hello".to_vec(alloc)?))?;
    MemoryShelf::new(alloc, files, fails, stop)
}

// Whether the selection went well.
fn selects(shelf: &mut MemoryShelf, name: &str) -> bool {
    shelf.select(name).is_ok()
}

// The file of a name, as it is loaded.
fn load(
    alloc: Global,
    shelf: &mut MemoryShelf,
    name: &str,
    limit: usize,
) -> Result<Vec<u8>, FailedOrMemory>
    requires { 0 < limit }
{
    shelf.select(name)?;
    load_all(alloc, shelf, limit)
}

// How many contents a crash may leave.
fn length_left(shelf: &MemoryShelf, name: &str) -> usize {
    shelf.leaves(name).len()
}

fn is_there(shelf: &MemoryShelf, name: &str) -> bool {
    shelf.file(name).is_some()
}

#[test]
fn a_file_is_loaded(rt: HostRuntime) -> Result<(), Fail> {
    let alloc = rt.alloc();
    let mut shelf = shelf_with(alloc, Vec::new(alloc), None)?;
    assert_eq!(rt;
        load(alloc, &mut shelf, "a", 9)?.as_slice(),
        b"hello".as_slice()
    );
    assert_eq!(rt;
        load(alloc, &mut shelf, "a", 2)?.as_slice(),
        b"he".as_slice()
    );
    assert_eq!(rt;
        load(alloc, &mut shelf, "b", 9).err(),
        Some(FailedOrMemory::Failed)
    );
    Ok(())
}

#[test]
fn a_shelf_tells_what_it_keeps(rt: HostRuntime) -> Result<(), Fail> {
    let alloc = rt.alloc();
    let mut shelf = shelf_with(alloc, vec![in alloc; 1]?, Some(3))?;
    assert!(rt; selects(&mut shelf, "b"));
    assert!(rt; !selects(&mut shelf, "a"));
    assert!(rt; selects(&mut shelf, "a"));
    assert!(rt; !selects(&mut shelf, "b"));
    assert!(rt; is_there(&shelf, "a"));
    assert_eq!(rt; length_left(&shelf, "a"), 1);
    assert!(rt; !is_there(&shelf, "b"));
    // It was selected, so it is known that there is no file.
    assert_eq!(rt; length_left(&shelf, "b"), 1);
    assert_eq!(rt; length_left(&shelf, "c"), 0);
    assert_eq!(rt; shelf.calls(), 4);
    assert_eq!(rt; shelf.starved(), 0);
    Ok(())
}

const FIRST: Actor = Actor::Session(0);

// Session 0 is held before its second call until the first worker has taken a job.
fn waits_for_the_worker(alloc: Global, limit: u32) -> Result<HoldGate, AllocError> {
    let mut holds = Vec::new(alloc);
    holds.push(Hold {
        actor: FIRST,
        place: Place::BeforeCall,
        nth: 1,
        until_actor: Actor::Worker(0),
        until_place: Place::JobTaken,
        until_nth: 0,
    })?;
    HoldGate::new(alloc, holds, limit)
}

#[test]
fn a_hold_looks_until_the_other_has_begun(rt: HostRuntime) -> Result<(), Fail> {
    let gate = waits_for_the_worker(rt.alloc(), 3)?;
    gate.pass(FIRST, Place::BeforeCall);
    gate.pass(FIRST, Place::AfterCall);
    gate.pass(Actor::Worker(0), Place::JobTaken);
    gate.pass(FIRST, Place::BeforeCall);
    assert!(rt; !gate.missed());
    Ok(())
}

#[test]
fn a_hold_that_looks_in_vain_is_missed(rt: HostRuntime) -> Result<(), Fail> {
    let gate = waits_for_the_worker(rt.alloc(), 3)?;
    gate.pass(FIRST, Place::BeforeCall);
    assert!(rt; !gate.missed());
    gate.pass(FIRST, Place::BeforeCall);
    assert!(rt; gate.missed());
    Ok(())
}
