// Where the file of a name is, its draft and its folder.
use std::alloc::{AllocError, Global};
use std::io::ErrorKind;
use std::path::Path;
use std::{fs, io};

// How many symbolic links are followed, as the system does.
const MOST_LINKS: usize = 40;

/// The path of the file that a name stands for: the name, or what it links to, and so on. There need be no file.
pub fn place_of(rt: &HostRuntime, name: &str) -> io::Result<String> {
    let mut place = String::from_str(rt.alloc(), name)?;
    for _ in 0..MOST_LINKS {
        match link_target(rt, &place)? {
            Some(next) => place = next,
            None => return Ok(place),
        }
    }
    Err(io::Error::from(ErrorKind::FilesystemLoop))
}

// What a path links to, from where the link stands. `None` where it is no link, or nothing.
//
// An error where that cannot be known, or the link's text is not UTF-8: a save would take the link's place.
fn link_target(rt: &HostRuntime, place: &str) -> io::Result<Option<String>> {
    match fs::read_link(rt, place) {
        Ok(next) => {
            let link = Path::new(place);
            let folder = link.parent().unwrap_or(Path::new(""));
            Ok(Some(folder.join(rt.alloc(), &next)?.into_string()))
        }
        Err(error) if matches!(error.kind(), ErrorKind::InvalidInput | ErrorKind::NotFound) => {
            Ok(None)
        }
        Err(error) => Err(error),
    }
}

/// The path of the draft of a file.
pub fn draft_of(alloc: Global, place: &str) -> Result<String, AllocError> {
    let mut draft = String::from_str(alloc, place)?;
    draft.push_str(".draft")?;
    Ok(draft)
}

/// An error where the draft's name is longer than the system takes, though the file's may not be.
pub fn check_room(rt: &HostRuntime, place: &str) -> io::Result<()> {
    let draft = draft_of(rt.alloc(), place)?;
    match fs::symlink_metadata(rt, &draft) {
        Err(error) if error.kind() == ErrorKind::InvalidFilename => Err(io::Error::new(
            ErrorKind::InvalidFilename,
            "its name leaves no room for \".draft\" behind it",
        )),
        _ => Ok(()),
    }
}

/// The path of the folder of a file.
pub fn folder_of(place: &str) -> &str {
    match Path::new(place).parent() {
        Some(folder) if !folder.as_str().is_empty() => folder.as_str(),
        _ => ".",
    }
}
