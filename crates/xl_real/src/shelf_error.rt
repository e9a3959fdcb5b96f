// Why a call of a shelf failed, for people to be told.
use std::alloc::AllocError;
use std::io;
use std::io::ErrorKind;
use thiserror::Error;

/// What the system said of a call that failed, and what of. Printed, it names that, but for the file itself.
#[derive(Clone, Copy, Debug, Drop, Error)]
pub enum ShelfError {
    /// Of the file, or of its name. It is also why the system was not asked.
    #[error("{0}")]
    File(#[from] io::Error),
    /// Of the draft beside the file.
    #[error("its draft: {0}")]
    Draft(io::Error),
    /// Of the folder that both stand in.
    #[error("its folder: {0}")]
    Folder(io::Error),
}

impl From<AllocError> for ShelfError {
    fn from(error: AllocError) -> Self {
        ShelfError::File(io::Error::from(error))
    }
}

impl ShelfError {
    /// What the system said, or why it was not asked.
    pub fn said(&self) -> io::Error {
        match self {
            ShelfError::File(said) | ShelfError::Draft(said) | ShelfError::Folder(said) => *said,
        }
    }

    /// Of a call that puts the draft's name into the folder, or takes one from it.
    pub fn of_draft_name(error: io::Error) -> ShelfError {
        if is_of_folder(&error) || error.kind() == ErrorKind::NotFound {
            ShelfError::Folder(error)
        } else {
            ShelfError::Draft(error)
        }
    }

    /// Of a rename over the file.
    pub fn of_rename(error: io::Error) -> ShelfError {
        if is_of_folder(&error) {
            ShelfError::Folder(error)
        } else {
            ShelfError::File(error)
        }
    }
}

// Whether names may not be changed: a right that is asked of their folder.
fn is_of_folder(error: &io::Error) -> bool {
    matches!(
        error.kind(),
        ErrorKind::PermissionDenied | ErrorKind::ReadOnlyFilesystem
    )
}
