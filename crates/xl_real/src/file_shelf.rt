ghost use Rattle.std.specs.Prelude.{◌≡◌, ◌≤◌, None, Some, is_some, is_ok, IfOk};
ghost use Rattle.std.specs.Prelude.{length, option_map, string_bytes};
ghost use Rattle.xl_ports.specs.Faults.{HasCause, Rose};

use crate::drafts::Draft;
use crate::places::{check_room, folder_of, place_of};
use crate::shelf_error::ShelfError;
use crate::stamps::{Stamp, look, open_regular};
use std::fs::File;
use std::io;
use std::os::unix::fs::FileExt;
use xl_ports::{Failed, Shelf};

/// The files of the system by their paths. What is in them is not known to contracts.
///
/// A name is the path of its file. Where that is a symbolic link, the file is the one that the link names, through as
/// many as 40 links, and the links stay. They are followed by `select` alone. The draft stands beside the file, under
/// its path with `.draft` behind it.
///
/// - `select` reads links, and answers `Failed` where a link cannot be followed, what stands there is no regular file,
///   or its name leaves no room for that of the draft. It removes the draft that is open.
/// - `load` opens the file once and reads at the offset that is asked for. After a save it reads what was saved.
/// - `draft_new` fails where another program has changed the file: what stands there is not what this shelf put there
///   last, or opened to read, or else found when it selected the name. Else it removes an older draft, makes a new one
///   that must not be there, locks it, and gives it the permission bits of the file, where there is one. It fails while
///   another shelf or process has a draft of the file.
/// - `draft_add` writes, and `draft_sync` syncs the draft.
/// - `swap_in` renames the draft over the file, unless another program has changed the file by then. Nobody is kept from
///   the file between that look and the rename but other shelves.
/// - `settle` syncs the file's folder.
///
/// A call on the draft that fails removes the draft, where that can be done, so that none is left.
#[derive(Drop)]
pub struct FileShelf {
    rt: HostRuntime,
    name: Option<String>,
    // Where the file of the name is.
    place: String,
    // That file, from the first load or save on. While it is open no other file gets its number.
    file: Option<File>,
    // What the shelf put there last, or opened to read, or found when it selected the name. None where there was none.
    seen: Option<Stamp>,
    draft: Option<Draft>,
    loads: u64,
    reading_faults: u64,
    saving_faults: u64,
    // Why the last call failed that did.
    error: Option<ShelfError>,
}

impl FileShelf {
    /// A shelf with no name selected and nothing counted.
    pub fn new(rt: &HostRuntime) -> Self
        ensures name { result.name ≡ None }
        ensures file { result.file ≡ None }
        ensures draft { result.draft ≡ None }
        ensures loads { result.loads ≡ 0 }
        ensures reading { result.reading_faults ≡ 0 }
        ensures saving { result.saving_faults ≡ 0 }
    {
        FileShelf {
            rt: *rt,
            name: None,
            place: String::new(rt.alloc()),
            file: None,
            seen: None,
            draft: None,
            loads: 0,
            reading_faults: 0,
            saving_faults: 0,
            error: None,
        }
    }

    /// What the system said of the last call that failed, and what that was about, for people to be told. No clause
    /// speaks of it.
    pub fn error(&self) -> Option<&ShelfError> {
        self.error.as_ref()
    }

    // Counts a fault of a call that reads.
    fn fail_reading(&mut self, error: io::Error) -> Failed
        ensures name { self.new.name ≡ self.old.name }
        ensures draft { self.new.draft ≡ self.old.draft }
        ensures loads { self.new.loads ≡ self.old.loads }
        ensures saving { self.new.saving_faults ≡ self.old.saving_faults }
        ensures cause { Rose self.old.reading_faults self.new.reading_faults }
    {
        self.reading_faults = self.reading_faults.saturating_add(1);
        self.error = Some(ShelfError::File(error));
        Failed
    }

    // Counts a fault where a call that saves failed.
    fn conclude(&mut self, done: Result<(), ShelfError>) -> Result<(), Failed>
        ensures name { self.new.name ≡ self.old.name }
        ensures draft { self.new.draft ≡ self.old.draft }
        ensures loads { self.new.loads ≡ self.old.loads }
        ensures reading { self.new.reading_faults ≡ self.old.reading_faults }
        ensures cause { HasCause self.old.saving_faults self.new.saving_faults result }
        ensures ok { is_ok result ≡ is_ok done }
    {
        if let Err(error) = done {
            self.saving_faults = self.saving_faults.saturating_add(1);
            self.error = Some(error);
            return Err(Failed);
        }
        Ok(())
    }

    // Counts a fault where a call on the draft failed, and then removes the draft.
    fn conclude_draft(&mut self, done: Result<(), ShelfError>) -> Result<(), Failed>
        ensures name { self.new.name ≡ self.old.name }
        ensures draft { self.new.draft ≡ self.old.draft }
        ensures loads { self.new.loads ≡ self.old.loads }
        ensures reading { self.new.reading_faults ≡ self.old.reading_faults }
        ensures cause { HasCause self.old.saving_faults self.new.saving_faults result }
        ensures ok { is_ok result ≡ is_ok done }
    {
        if let (Err(_), Some(draft)) = (&done, &self.draft) {
            draft.discard(&self.rt);
        }
        self.conclude(done)
    }
}

impl Shelf for FileShelf {
    ghost shelf_state = { λ s. record {
      selected = option_map string_bytes s.name;
      is_open = is_some s.draft;
      disk = None;
      loads = s.loads;
      reading = s.reading_faults;
      saving = s.saving_faults;
    } };

    fn select(&mut self, name: &str) -> Result<(), Failed> {
        match find(&self.rt, name) {
            Ok(found) => {
                if let Some(draft) = self.draft.take() {
                    draft.discard(&self.rt);
                }
                self.name = Some(found.name);
                self.place = found.place;
                self.seen = found.seen;
                self.file = None;
                Ok(())
            }
            Err(error) => Err(self.fail_reading(error)),
        }
    }

    fn load(&mut self, at: u64, buf: &mut [u8]) -> Result<usize, Failed> {
        self.loads = self.loads.saturating_add(1);
        match load_at(
            &self.rt,
            &self.place,
            &mut self.file,
            &mut self.seen,
            at,
            buf,
        ) {
            Ok(given) => Ok(given),
            Err(error) => Err(self.fail_reading(error)),
        }
    }

    fn draft_new(&mut self) -> Result<(), Failed> {
        if let Some(draft) = self.draft.take() {
            draft.discard(&self.rt);
        }
        let done = match begin(&self.rt, &self.place, &self.seen) {
            Ok(draft) => {
                self.draft = Some(draft);
                Ok(())
            }
            Err(error) => Err(error),
        };
        self.conclude(done)
    }

    fn draft_add(&mut self, bytes: &[u8]) -> Result<(), Failed> {
        let mut draft = self.draft.take().unwrap();
        let done = draft.add(bytes);
        self.draft = Some(draft);
        self.conclude_draft(done)
    }

    fn draft_sync(&mut self) -> Result<(), Failed> {
        let done = self.draft.as_ref().unwrap().sync();
        self.conclude_draft(done)
    }

    fn swap_in(&mut self) -> Result<(), Failed> {
        let draft = self.draft.take().unwrap();
        let done = swap(&self.rt, &draft, &self.place, &mut self.seen);
        match done {
            Ok(()) => self.file = Some(draft.into_file()),
            Err(_) => draft.discard(&self.rt),
        }
        self.conclude(done)
    }

    fn settle(&mut self) -> Result<(), Failed> {
        let done = sync_folder(&self.rt, &self.place);
        self.conclude(done)
    }
}

// What `select` finds under a name.
#[derive(Drop)]
struct Found {
    place: String,
    name: String,
    seen: Option<Stamp>,
}

fn find(rt: &HostRuntime, name: &str) -> io::Result<Found>
    ensures { IfOk result (λ found. string_bytes found.name ≡ name.now) }
{
    let place = place_of(rt, name)?;
    check_room(rt, &place)?;
    let seen = look(rt, &place)?;
    let name = String::from_str(rt.alloc(), name)?;
    Ok(Found { place, name, seen })
}

// Reads at an offset of the file, which is opened first where it is not open.
fn load_at(
    rt: &HostRuntime,
    place: &str,
    file: &mut Option<File>,
    seen: &mut Option<Stamp>,
    at: u64,
    buf: &mut [u8],
) -> io::Result<usize>
    ensures { IfOk result (λ k. k ≤ length buf.new) }
{
    let open = match file.take() {
        Some(open) => open,
        None => {
            let (open, stamp) = open_regular(rt, place)?;
            *seen = Some(stamp);
            open
        }
    };
    let given = open.read_at(buf, at);
    *file = Some(open);
    given
}

// An error where another program has changed the file.
fn check_file(rt: &HostRuntime, place: &str, seen: &Option<Stamp>) -> io::Result<()> {
    if look(rt, place)? == *seen {
        return Ok(());
    }
    let message = "the file was changed by another program";
    Err(io::Error::other(message))
}

// A draft of the file, unless another program has changed the file: then no save of it is begun.
fn begin(rt: &HostRuntime, place: &str, seen: &Option<Stamp>) -> Result<Draft, ShelfError> {
    check_file(rt, place, seen)?;
    Draft::new(rt, place)
}

// Gives the draft the file's name, unless another program has changed the file, and sees what it is then.
fn swap(
    rt: &HostRuntime,
    draft: &Draft,
    place: &str,
    seen: &mut Option<Stamp>,
) -> Result<(), ShelfError> {
    draft.check_name(rt)?;
    // The last call before the rename, since nobody else is kept from the file between the two.
    check_file(rt, place, seen)?;
    draft.rename(rt, place)?;
    *seen = draft.stamp();
    Ok(())
}

// Brings the names in the file's folder to the disk.
fn sync_folder(rt: &HostRuntime, place: &str) -> Result<(), ShelfError> {
    sync_path(rt, folder_of(place)).map_err(ShelfError::Folder)
}

fn sync_path(rt: &HostRuntime, path: &str) -> io::Result<()> {
    File::open(rt, path)?.sync_all()
}
