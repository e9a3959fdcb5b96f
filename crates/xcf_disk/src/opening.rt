ghost use Rattle.std.specs.Prelude.{◌≡◌, IfOk};
ghost use Rattle.xcf.specs.Opened.{history_of, image_of};
ghost use Rattle.xcf_disk.specs.Files.{OpensFile};

use crate::errors::Failure;
use xcf::{Editor, Image};
use xl_real::read_regular;

/// The image in a file, by its path.
///
/// Errors: `System` with what the system said, or that it is no regular file, and `NotOpened` for a file that was read
/// and is refused.
pub fn open_file(rt: &HostRuntime, path: &str) -> Result<Image, Failure>
    ensures opens { OpensFile (λ image. image.document) result }
    ensures first { IfOk result (λ image. image ≡ image_of image.document) }
{
    let file = read_regular(rt, path)?;
    Ok(Image::open(rt.alloc(), file)?)
}

/// The same with a history, so that groups of edits can be undone.
///
/// Errors: `System` with what the system said, or that it is no regular file, and `NotOpened` for a file that was read
/// and is refused.
pub fn edit_file(rt: &HostRuntime, path: &str) -> Result<Editor, Failure>
    ensures opens { OpensFile (λ editor. editor.base) result }
    ensures first { IfOk result (λ editor. editor ≡ history_of editor.base) }
{
    let file = read_regular(rt, path)?;
    Ok(Editor::open(rt.alloc(), file)?)
}
