// What tells a file from another one, and its content from another one, by what the system says of it.
use std::fs::{File, Metadata};
use std::io::{ErrorKind, Read};
use std::os::unix::fs::MetadataExt;
use std::{fs, io};

/// A file of the system and its content, as far as its times tell one content from another.
#[derive(Clone, Copy, PartialEq, Eq)]
pub struct Stamp {
    device: u64,
    inode: u64,
    size: u64,
    modified: i64,
    modified_nanos: i64,
    changed: i64,
    changed_nanos: i64,
}

impl Stamp {
    /// An error where it is no regular file.
    pub fn of(found: &Metadata) -> io::Result<Stamp> {
        if !found.is_file() {
            return Err(io::Error::new(ErrorKind::InvalidInput, "it is no regular file"));
        }
        Ok(Stamp {
            device: found.dev(),
            inode: found.ino(),
            size: found.size(),
            modified: found.mtime(),
            modified_nanos: found.mtime_nsec(),
            changed: found.ctime(),
            changed_nanos: found.ctime_nsec(),
        })
    }

    /// Whether both are of one file, whatever is in it.
    pub fn is_of_same_file(&self, other: &Stamp) -> bool {
        self.device == other.device && self.inode == other.inode
    }
}

/// What stands under a path, and is no link that is followed. `None` where there is nothing.
///
/// An error where it is no regular file, or that cannot be known.
pub fn look(rt: &HostRuntime, place: &str) -> io::Result<Option<Stamp>> {
    match fs::symlink_metadata(rt, place) {
        Ok(found) => Ok(Some(Stamp::of(&found)?)),
        Err(error) if error.kind() == ErrorKind::NotFound => Ok(None),
        Err(error) => Err(error),
    }
}

/// Opens a regular file for reading, and has its stamp from before the first read.
///
/// What is no regular file is not opened, since that may wait for another process.
pub fn open_regular(rt: &HostRuntime, path: &str) -> io::Result<(File, Stamp)> {
    Stamp::of(&fs::metadata(rt, path)?)?;
    let file = File::open(rt, path)?;
    let stamp = Stamp::of(&file.metadata()?)?;
    Ok((file, stamp))
}

/// The bytes of a regular file. What is none is an error, and is not opened.
pub fn read_regular(rt: &HostRuntime, path: &str) -> io::Result<Vec<u8>> {
    let (mut file, _stamp) = open_regular(rt, path)?;
    let mut bytes = Vec::new(rt.alloc());
    file.read_to_end(&mut bytes)?;
    Ok(bytes)
}
