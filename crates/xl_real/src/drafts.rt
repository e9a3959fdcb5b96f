// The draft of a file: how it is made, takes the file's name, or is removed.
use crate::places::draft_of;
use crate::shelf_error::ShelfError;
use crate::stamps::{Stamp, look};
use std::fs::{File, OpenOptions, Permissions, TryLockError};
use std::io::{ErrorKind, Write};
use std::os::unix::fs::{OpenOptionsExt, PermissionsExt};
use std::{fs, io};

// The permission bits of a new file, of which the system takes those away that the process does not give.
const NEW_FILE: u32 = 0o666;

// The bits of a draft until it has those of the file: nobody else may open it.
const PRIVATE: u32 = 0o600;

// The bits of a file that its draft takes. The others would lend the rights of another owner or group.
const TAKEN_BITS: u32 = 0o777;

/// The draft of a file. Who has one holds the system's lock on it.
///
/// A draft's name is removed, or given to the file, only by who holds the lock on what stands there. So it is done to
/// no draft of another process.
#[derive(Drop)]
pub struct Draft {
    file: File,
    name: String,
}

impl Draft {
    /// An empty draft with the permission bits of the file, where there is one.
    ///
    /// An older draft is removed, and never cut: it may be another name of a file that is to stay. One that is locked
    /// is that of a save under way, and an error.
    pub fn new(rt: &HostRuntime, place: &str) -> Result<Draft, ShelfError> {
        let name = draft_of(rt.alloc(), place)?;
        remove_older(rt, &name)?;
        let permissions = permissions_of(rt, place)?;
        let mode = if permissions.is_some() {
            PRIVATE
        } else {
            NEW_FILE
        };
        let file = open_new(rt, &name, mode)?;
        let draft = Draft { file, name };
        if let Err(error) = draft.prepare(rt, permissions) {
            // What another process has locked is left to it.
            if error.said().kind() != ErrorKind::WouldBlock {
                draft.discard(rt);
            }
            return Err(error);
        }
        Ok(draft)
    }

    // What a draft needs before its first byte: the lock, its name, which it may have lost before, and its bits.
    fn prepare(
        &self,
        rt: &HostRuntime,
        permissions: Option<Permissions>,
    ) -> Result<(), ShelfError> {
        self.lock()?;
        self.check_name(rt)?;
        match permissions {
            Some(bits) => self.file.set_permissions(bits).map_err(ShelfError::Draft),
            None => Ok(()),
        }
    }

    // Takes the lock. An error where another process holds it, or there are no locks.
    fn lock(&self) -> Result<(), ShelfError> {
        match self.file.try_lock() {
            Ok(()) => Ok(()),
            Err(TryLockError::WouldBlock) => Err(is_being_saved()),
            Err(TryLockError::Error(error)) => Err(ShelfError::Draft(error)),
        }
    }

    /// Adds bytes at its end.
    pub fn add(&mut self, bytes: &[u8]) -> Result<(), ShelfError> {
        self.file.write_all(bytes).map_err(ShelfError::Draft)
    }

    /// Brings it to the disk.
    pub fn sync(&self) -> Result<(), ShelfError> {
        self.file.sync_all().map_err(ShelfError::Draft)
    }

    /// What it is now, under whatever name. `None` where the system does not say.
    pub fn stamp(&self) -> Option<Stamp> {
        match self.file.metadata() {
            Ok(found) => Stamp::of(&found).ok(),
            Err(_) => None,
        }
    }

    // Whether it stands under its name.
    fn has_name(&self, rt: &HostRuntime) -> bool {
        let (Some(own), Ok(Some(found))) = (self.stamp(), look(rt, &self.name)) else {
            return false;
        };
        own.is_of_same_file(&found)
    }

    /// An error where something else stands under its name, or nothing.
    pub fn check_name(&self, rt: &HostRuntime) -> Result<(), ShelfError> {
        if self.has_name(rt) {
            return Ok(());
        }
        let message = "another program removed it";
        Err(ShelfError::Draft(io::Error::new(ErrorKind::NotFound, message)))
    }

    /// Gives it the file's name.
    pub fn rename(&self, rt: &HostRuntime, place: &str) -> Result<(), ShelfError> {
        fs::rename(rt, &self.name, place).map_err(ShelfError::of_rename)
    }

    /// Its file, which is no draft any longer.
    pub fn into_file(self) -> File {
        // Who cannot be rid of the lock keeps nobody from a save by it.
        let _ = self.file.unlock();
        self.file
    }

    /// Removes it, where that can be done. Where it cannot, the next save removes it.
    pub fn discard(&self, rt: &HostRuntime) {
        if self.has_name(rt) {
            let _ = fs::remove_file(rt, &self.name);
        }
    }
}

// What keeps a save from its draft: that of another process.
fn is_being_saved() -> ShelfError {
    let message = "another process is saving the file";
    ShelfError::File(io::Error::new(ErrorKind::WouldBlock, message))
}

// Opens a file for writing, and for later loads, that must not be there.
fn open_new(rt: &HostRuntime, name: &str, mode: u32) -> Result<File, ShelfError> {
    let opened = OpenOptions::new()
        .read(true)
        .write(true)
        .create_new(true)
        .mode(mode)
        .open(rt, name);
    match opened {
        Err(error) if error.kind() == ErrorKind::AlreadyExists => Err(is_being_saved()),
        opened => opened.map_err(ShelfError::of_draft_name),
    }
}

// Removes what stands under a draft's name, if there is anything, but for a draft that is locked.
fn remove_older(rt: &HostRuntime, name: &str) -> Result<(), ShelfError> {
    match fs::symlink_metadata(rt, name) {
        Ok(found) if found.is_file() => remove_unlocked(rt, name),
        // No draft, which may not be opened either.
        Ok(_) => remove_name(rt, name),
        Err(error) => unless_absent(Err(error)).map_err(ShelfError::of_draft_name),
    }
}

// Removes what stands under a draft's name, if there is anything, whatever it is.
fn remove_name(rt: &HostRuntime, name: &str) -> Result<(), ShelfError> {
    unless_absent(fs::remove_file(rt, name)).map_err(ShelfError::of_draft_name)
}

// Removes a draft that no process has locked. Where it has another name by then, that stays.
fn remove_unlocked(rt: &HostRuntime, name: &str) -> Result<(), ShelfError> {
    let name = String::from_str(rt.alloc(), name)?;
    let file = match open_older(rt, &name) {
        Ok(file) => file,
        Err(error) => return unless_absent(Err(error)).map_err(ShelfError::Draft),
    };
    let older = Draft { file, name };
    older.lock()?;
    if older.has_name(rt) {
        remove_name(rt, &older.name)
    } else {
        Ok(())
    }
}

// Opens an older draft for its lock alone: for writing, which some locks ask, or else for reading.
fn open_older(rt: &HostRuntime, name: &str) -> io::Result<File> {
    match OpenOptions::new().write(true).open(rt, name) {
        Err(error) if error.kind() == ErrorKind::PermissionDenied => File::open(rt, name),
        opened => opened,
    }
}

// That nothing was there is no error.
fn unless_absent(done: io::Result<()>) -> io::Result<()> {
    match done {
        Err(error) if error.kind() == ErrorKind::NotFound => Ok(()),
        done => done,
    }
}

// The permission bits for the draft of a file. `None` where there is no file.
fn permissions_of(rt: &HostRuntime, place: &str) -> io::Result<Option<Permissions>> {
    match fs::metadata(rt, place) {
        Ok(old) => {
            let bits = old.permissions().mode() & TAKEN_BITS;
            Ok(Some(Permissions::from_mode(bits)))
        }
        Err(error) if error.kind() == ErrorKind::NotFound => Ok(None),
        Err(error) => Err(error),
    }
}
