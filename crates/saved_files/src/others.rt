// What other programs and shelves do to a file between its load and a save, and what becomes of the save.
ghost use Rattle.std.specs.Prelude.{◌≡◌, OnOk, IsSome, true};

use crate::{show_file, show_whether_there};
use std::alloc::Global;
use std::{fs, io};
use xl_ports::{Failed, FailedOrMemory, Shelf, load_all};
use xl_real::FileShelf;
use xl_save::save;

/// The file that is loaded and saved here.
const SHARED: &str = "folder/shared";

const SHARED_DRAFT: &str = "folder/shared.draft";

/// More bytes than the file ever has.
const LIMIT: usize = 100;

/// What another program does to the file.
#[derive(Clone, Copy)]
enum Change {
    /// It writes more into the file.
    Length,
    /// It puts another file of the same length in its place.
    File,
    Removal,
}

impl Change {
    fn make(self, rt: &HostRuntime) -> io::Result<()> {
        match self {
            Change::Length => fs::write(rt, SHARED, "others'"),
            Change::File => {
                fs::write(rt, "folder/next", "its")?;
                fs::rename(rt, "folder/next", SHARED)
            }
            Change::Removal => fs::remove_file(rt, SHARED),
        }
    }
}

fn load<D: Shelf>(alloc: Global, shelf: &mut D) -> Result<(), FailedOrMemory>
    ensures { OnOk result (IsSome (D.shelf_state shelf.new).selected) }
{
    shelf.select(SHARED)?;
    let _bytes = load_all(alloc, shelf, LIMIT)?;
    Ok(())
}

/// Says how a call of a shelf ended, and what the shelf says where it failed.
pub fn show_end(rt: &HostRuntime, shelf: &FileShelf, end: Result<(), Failed>) -> io::Result<()> {
    match (end, shelf.error()) {
        (Ok(()), _) => rt.println("  done"),
        (Err(Failed), Some(error)) => println!(rt; "  failed: {error}"),
        (Err(Failed), None) => rt.println("  failed"),
    }
}

/// A change ahead of a draft is seen by the call that would make it, and none is made.
pub fn change_before_draft(rt: &HostRuntime) -> io::Result<()> {
    fs::write(rt, SHARED, "old")?;
    let mut shelf = FileShelf::new(rt);
    if load(rt.alloc(), &mut shelf).is_err() {
        return rt.println("not loaded");
    }
    Change::Length.make(rt)?;
    rt.println("another length before the draft")?;
    let begun = shelf.draft_new();
    show_end(rt, &shelf, begun)?;
    show_whether_there(rt, SHARED_DRAFT)
}

// What is left of a save once its draft is made.
fn finish<D: Shelf>(shelf: &mut D) -> Result<(), Failed>
    requires selected { IsSome (D.shelf_state shelf.old).selected }
    requires opened { (D.shelf_state shelf.old).is_open ≡ true }
{
    shelf.draft_add(b"my")?;
    shelf.draft_sync()?;
    shelf.swap_in()
}

/// A change behind that is seen before the draft takes the file's name, and the draft is removed.
pub fn change_behind_draft(rt: &HostRuntime) -> io::Result<()> {
    let mut shelf = FileShelf::new(rt);
    if load(rt.alloc(), &mut shelf).is_err() {
        return rt.println("not loaded");
    }
    if shelf.draft_new().is_err() {
        return rt.println("not begun");
    }
    rt.println("another file behind the draft")?;
    show_whether_there(rt, SHARED_DRAFT)?;
    Change::File.make(rt)?;
    let end = finish(&mut shelf);
    show_end(rt, &shelf, end)?;
    show_file(rt, SHARED)?;
    show_whether_there(rt, SHARED_DRAFT)
}

fn save_behind(rt: &HostRuntime, change: Change) -> io::Result<()> {
    fs::write(rt, SHARED, "old")?;
    let mut shelf = FileShelf::new(rt);
    if load(rt.alloc(), &mut shelf).is_err() {
        return rt.println("not loaded");
    }
    change.make(rt)?;
    let end = save(b"my", &mut shelf);
    show_end(rt, &shelf, end)
}

/// Each change by another program after the load is seen by the save.
pub fn change_between(rt: &HostRuntime) -> io::Result<()> {
    rt.println("another length")?;
    save_behind(rt, Change::Length)?;
    show_file(rt, SHARED)?;
    rt.println("another file")?;
    save_behind(rt, Change::File)?;
    show_file(rt, SHARED)?;
    rt.println("no file")?;
    save_behind(rt, Change::Removal)?;
    show_whether_there(rt, SHARED)?;
    show_whether_there(rt, SHARED_DRAFT)
}

/// A file that comes to be after its name was selected.
pub fn come_between(rt: &HostRuntime) -> io::Result<()> {
    let mut shelf = FileShelf::new(rt);
    if shelf.select(SHARED).is_err() {
        return rt.println("not selected");
    }
    fs::write(rt, SHARED, "others'")?;
    rt.println("a file where there was none")?;
    let end = save(b"my", &mut shelf);
    show_end(rt, &shelf, end)?;
    show_file(rt, SHARED)
}

/// A save while another shelf has a draft, one by that shelf, twice, and one more by the first.
pub fn save_beside(rt: &HostRuntime) -> io::Result<()> {
    let mut first = FileShelf::new(rt);
    let mut second = FileShelf::new(rt);
    if load(rt.alloc(), &mut first).is_err() {
        return rt.println("not loaded");
    }
    if load(rt.alloc(), &mut second).is_err() {
        return rt.println("not loaded");
    }
    rt.println("two shelves")?;
    let begun = second.draft_new();
    show_end(rt, &second, begun)?;
    let end = save(b"first", &mut first);
    show_end(rt, &first, end)?;
    let end = save(b"second", &mut second);
    show_end(rt, &second, end)?;
    let end = save(b"second", &mut second);
    show_end(rt, &second, end)?;
    let end = save(b"first", &mut first);
    show_end(rt, &first, end)?;
    show_file(rt, SHARED)
}
